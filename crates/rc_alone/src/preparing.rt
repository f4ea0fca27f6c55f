//! The prepared table of one router, of its routes by OSPF as they come.
ghost use Rattle.std.specs.Prelude.{◌≡◌, ◌++◌, IfOk};
ghost use Rattle.rc_alone.specs.Laying.{IsLaidAs};
ghost use Rattle.rc_alone.specs.Preparing.{IsPreparedOf};
ghost use Rattle.rc_fib.specs.Entries.{IsFib};
ghost use Rattle.rc_fib.specs.Forwarding.{resolved};
ghost use Rattle.rc_ospf.specs.Taking.{routes_in};
ghost use Rattle.rc_rib.specs.Best.{best_routes};
ghost use Rattle.rc_rib.specs.Connected as connected_spec;
ghost use Rattle.rc_route.specs.Tables.{IsTable};

use crate::laying::Laying;
use rc_base::RouterId;
use rc_config::{Network, RouterText};
use rc_fib::Fib;
use rc_ospf::{RoutesOf, UsesRoutes};
use rc_pieces::{Known, Pieces};
use rc_rib::{connected, lone_table};
use rc_route::Route;
use std::alloc::{AllocError, Global};

/// A table, prepared for look-ups. Its routes are dropped behind it.
fn prepared(alloc: Global, table: Pieces<Route>) -> Result<Fib, AllocError>
    requires { IsTable table }
    ensures value { IfOk result (λ fib. fib ≡ resolved table) }
    ensures in_order { IfOk result IsFib }
{
    let known = Known::of(table, Pieces::new()).into_state(alloc)?;
    Fib::of(alloc, &known.table)
}

/// The prepared table of a router, with all of its routes in a list between.
fn by_table(
    alloc: Global,
    net: &Network,
    router: RouterId,
    routes: &RoutesOf<'_, '_, '_>,
) -> Result<Fib, AllocError>
    requires { IsTable (routes_in routes.now) }
    ensures { IfOk result (IsPreparedOf net.now router (routes_in routes.now)) }
{
    let listed = routes.list(alloc)?;
    let table = lone_table(alloc, net, router, &listed.listed())?;
    prepared(alloc, table)
}

/// The connected routes of a router of this file, with its routes by OSPF below them.
fn laid(
    alloc: Global,
    router: RouterId,
    file: &RouterText,
    routes: &RoutesOf<'_, '_, '_>,
) -> Result<Laying, AllocError>
    requires { IsTable (routes_in routes.now) }
    ensures { IfOk result (IsLaidAs (best_routes (connected_spec.connected router file.now.interfaces ++ routes_in routes.now))) }
{
    let own = connected(alloc, router, file)?;
    let mut laying = Laying::of(alloc, own, routes.most())?;
    routes.take_all(alloc, &mut laying)?;
    Ok(laying)
}

/// The routers of a network, none of which reads what any router knows.
#[derive(Drop)]
pub(crate) struct Preparing<'a> {
    pub net: &'a Network,
}

impl<'a> UsesRoutes for Preparing<'a> {
    ghost use Rattle.rc_alone.specs.Preparing.{IsPreparedOf};

    type Made = Fib;

    ghost makes = { λ s. IsPreparedOf s.net.now };

    fn make(
        &self,
        alloc: Global,
        router: RouterId,
        routes: &RoutesOf<'_, '_, '_>,
    ) -> Result<Fib, AllocError> {
        let Some(file) = self.net.router_at(router) else {
            return by_table(alloc, self.net, router, routes);
        };
        let made = laid(alloc, router, file, routes)?.finish(alloc)?;
        match made {
            Some(fib) => Ok(fib),
            None => by_table(alloc, self.net, router, routes),
        }
    }
}
