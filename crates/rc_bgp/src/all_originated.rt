//! All paths that a router originates.
ghost use Rattle.std.specs.Prelude.{◌≡◌, All, IfOk};
ghost use Rattle.rc_route.specs.Tables.{IsPathList, IsTable};
ghost use Rattle.rc_bgp.specs.AllOriginated as spec;

use crate::originating::by_networks;
use crate::redistributing::{of_ospf, of_source};
use rc_base::{Items, RouterId};
use rc_config::{BgpProcess, Network, RouterText};
use rc_pieces::Listed;
use rc_route::{BgpPath, PathSource, Route};
use std::alloc::{AllocError, Global};

/// The paths that a process originates: by lines `network`, then redistributed connected, static and OSPF routes.
#[tactic(auto, using(crate::proofs::BestLaws::four_in_order))]
pub(crate) fn paths_of_process(
    alloc: Global,
    net: &Network,
    router: RouterId,
    file: &RouterText,
    process: &BgpProcess,
    table: &Listed<'_, Route>,
) -> Result<Items<Items<BgpPath>>, AllocError>
    requires { IsTable table.now }
    ensures value { IfOk result (λ own. own ≡ spec.paths_of_process net.now router file.now table.now process.now) }
    ensures in_order { IfOk result (All IsPathList) }
{
    let redistributions = &process.redistributions;
    let networks = by_networks(alloc, router, table, process.networks.as_slice())?;
    let connected = of_source(
        alloc,
        router,
        file,
        PathSource::Connected,
        table,
        &redistributions.connected,
    )?;
    let static_routes = of_source(
        alloc,
        router,
        file,
        PathSource::Static,
        table,
        &redistributions.static_routes,
    )?;
    let ospf = of_ospf(alloc, net, router, file, process, table)?;
    let mut own = Items::new(alloc);
    own.push(networks)?;
    own.push(connected)?;
    own.push(static_routes)?;
    own.push(ospf)?;
    Ok(own)
}

/// The paths that a router with this table originates; none without a process.
#[tactic(auto, using(crate::proofs::BestLaws::none_in_order))]
pub(crate) fn own_paths(
    alloc: Global,
    net: &Network,
    table: &Listed<'_, Route>,
    router: RouterId,
) -> Result<Items<Items<BgpPath>>, AllocError>
    requires { IsTable table.now }
    ensures value { IfOk result (λ own. own ≡ spec.own_paths net.now table.now router) }
    ensures in_order { IfOk result (All IsPathList) }
{
    let found = net.router_at(router);
    match found {
        None => Ok(Items::new(alloc)),
        Some(file) => match &file.bgp {
            None => Ok(Items::new(alloc)),
            Some(process) => paths_of_process(alloc, net, router, file, process, table),
        },
    }
}
