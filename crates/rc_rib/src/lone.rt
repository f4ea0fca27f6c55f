//! The table of a router that reads nothing, from its OSPF routes as they are handed in.
ghost use Rattle.std.specs.Prelude.{◌≡◌, ◌++◌, IfOk};
ghost use Rattle.rc_route.specs.Tables.{IsTable};
ghost use Rattle.rc_rib.specs.Best.{best_routes};
ghost use Rattle.rc_rib.specs.Connected as connected_spec;
ghost use Rattle.rc_rib.specs.Lone as spec;

use crate::connected_routes::connected;
use crate::laying::laid_over;
use rc_base::RouterId;
use rc_config::{Network, RouterText};
use rc_pieces::{Listed, Pieces};
use rc_route::Route;
use std::alloc::{AllocError, Global};

/// The connected routes of a file over its OSPF routes: of two for one prefix the preferred one.
fn connected_over(
    alloc: Global,
    router: RouterId,
    file: &RouterText,
    routes: &Listed<'_, Route>,
) -> Result<Pieces<Route>, AllocError>
    requires { IsTable routes.now }
    ensures value { IfOk result (λ table. table ≡ best_routes (connected_spec.connected router file.now.interfaces ++ routes.now)) }
    ensures in_order { IfOk result IsTable }
{
    let connected = connected(alloc, router, file)?;
    laid_over(alloc, connected, routes)
}

/// The table of a router that reads nothing: no BGP, no static lines, no path to an AS boundary router. Its connected routes, and these
/// routes of it by OSPF, of which it shares the pieces that the connected ones leave as they are; of two for one prefix the preferred one.
///
/// So it takes no state, and nothing of OSPF but these routes. It errs only where memory runs out.
pub fn lone_table(
    alloc: Global,
    net: &Network,
    router: RouterId,
    routes: &Listed<'_, Route>,
) -> Result<Pieces<Route>, AllocError>
    requires { IsTable routes.now }
    ensures value { IfOk result (λ table. table ≡ spec.lone_table net.now router routes.now) }
    ensures in_order { IfOk result IsTable }
{
    let found = net.router_at(router);
    match found {
        Some(file) => connected_over(alloc, router, file, routes),
        None => Ok(Pieces::new()),
    }
}
