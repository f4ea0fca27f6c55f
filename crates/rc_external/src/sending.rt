//! What all AS boundary routers of a network send from a state.
ghost use Rattle.std.specs.Prelude.{◌≡◌, ◌++◌, [], All, IfOk, OnOk, slice_get};
ghost use Rattle.std.specs.List.{filter_map, flat_map};
ghost use Rattle.std.specs.Option.{option_and_then, option_copied, option_map_or, option_to_list};
ghost use Rattle.rc_route.specs.Tables.{IsBestList, IsRouterState, IsTable};
ghost use Rattle.rc_external.specs.Externals.{externals as externals_of, IsByPrefix};
ghost use Rattle.rc_external.specs.Origination as spec;

use crate::grouping::externals_by_prefix;
use crate::origination::{default_sent, redistributed};
use crate::{External, Externals};
use rc_base::{Items, RouterId};
use rc_config::{DefaultInformation, MetricType, Network, OspfProcess, RouterText};
use rc_pieces::{Knowledge, Known, Listed, known_at};
use rc_route::{Best, Route};
use std::alloc::{AllocError, Global};

/// Puts the default route that a router sends at the end.
fn add_default(
    all: &mut Items<External>,
    router: RouterId,
    table: &Listed<'_, Route>,
    line: Option<&DefaultInformation>,
) -> Result<(), AllocError>
    requires { IsTable table.now }
    ensures { OnOk result (all.new ≡ all.old ++ option_to_list (option_and_then (spec.default_sent router table.now) (option_copied line.entry))) }
{
    // For the proof: that of a push wants each enum within the element named in the function.
    let _type: Option<MetricType> = None;
    let Some(line) = line else {
        return Ok(());
    };
    match default_sent(router, table, line) {
        Some(external) => all.push(external),
        None => Ok(()),
    }
}

/// Puts what a router sends of some routes of its table at the end.
fn add_of_routes(
    alloc: Global,
    all: &mut Items<External>,
    router: RouterId,
    file: &RouterText,
    process: &OspfProcess,
    paths: &Listed<'_, Best>,
    routes: &[Route],
) -> Result<(), AllocError>
    requires { IsBestList paths.now }
    ensures { OnOk result (all.new ≡ all.old ++ filter_map (spec.redistributed router file.now process.now paths.now) routes.now) }
{
    // For the proof: that of a push wants each enum within the element named in the function.
    let _type: Option<MetricType> = None;
    for route in routes {
        if let Some(external) = redistributed(alloc, router, file, process, paths, route)? {
            all.push(external)?;
        }
    }
    Ok(())
}

/// Puts what a router sends of the routes of its table at the end, a piece of it after another. A process that redistributes nothing sends
/// none of them, so its table isn't read.
fn add_redistributed(
    alloc: Global,
    all: &mut Items<External>,
    router: RouterId,
    file: &RouterText,
    process: &OspfProcess,
    paths: &Listed<'_, Best>,
    table: &Listed<'_, Route>,
) -> Result<(), AllocError>
    requires { IsBestList paths.now }
    ensures { OnOk result (all.new ≡ all.old ++ filter_map (spec.redistributed router file.now process.now paths.now) table.now) }
{
    if process.redistributions.is_empty() {
        return Ok(());
    }
    let pieces = table.pieces();
    for piece in pieces {
        add_of_routes(alloc, all, router, file, process, paths, piece.as_slice())?;
    }
    Ok(())
}

/// Puts all that a process sends of what its router knows at the end.
fn add_sent(
    alloc: Global,
    all: &mut Items<External>,
    router: RouterId,
    file: &RouterText,
    process: &OspfProcess,
    known: &Known,
) -> Result<(), AllocError>
    requires { IsRouterState known.now }
    ensures { OnOk result (all.new ≡ all.old ++ spec.sent_by router file.now known.now process.now) }
{
    let table = known.table();
    let paths = known.paths();
    add_default(all, router, &table, process.default_information.as_ref())?;
    add_redistributed(alloc, all, router, file, process, &paths, &table)
}

/// Puts all that a router sends of what it knows at the end, where it has a process.
fn add_of_file(
    alloc: Global,
    all: &mut Items<External>,
    router: RouterId,
    file: &RouterText,
    known: &Known,
) -> Result<(), AllocError>
    requires { IsRouterState known.now }
    ensures { OnOk result (all.new ≡ all.old ++ spec.sent_by_file router file.now known.now) }
{
    match &file.ospf {
        Some(process) => add_sent(alloc, all, router, file, process, known),
        None => Ok(()),
    }
}

/// Puts all that a router with this file sends from a state at the end.
fn add_from_state(
    alloc: Global,
    all: &mut Items<External>,
    router: RouterId,
    file: &RouterText,
    state: &Knowledge,
) -> Result<(), AllocError>
    requires { All IsRouterState state.now }
    ensures { OnOk result (all.new ≡ all.old ++ option_map_or (spec.sent_by_file router file.now) (slice_get state.now router) []) }
{
    let known = known_at(state, router);
    match known {
        Some(known) => add_of_file(alloc, all, router, file, known),
        None => Ok(()),
    }
}

/// Puts all that a router of a network sends from a state at the end.
fn add_router(
    alloc: Global,
    all: &mut Items<External>,
    net: &Network,
    state: &Knowledge,
    router: RouterId,
) -> Result<(), AllocError>
    requires { All IsRouterState state.now }
    ensures { OnOk result (all.new ≡ all.old ++ spec.sent_by_router net.now state.now router) }
{
    let found = net.router_at(router);
    match found {
        Some(file) => add_from_state(alloc, all, router, file, state),
        None => Ok(()),
    }
}

/// All that the routers of a network send from a state.
fn all_sent(alloc: Global, net: &Network, state: &Knowledge) -> Result<Items<External>, AllocError>
    requires { All IsRouterState state.now }
    ensures { IfOk result (λ all. all ≡ spec.all_sent net.now state.now) }
{
    let mut all = Items::new(alloc);
    for index in 0..net.routers.len() {
        add_router(alloc, &mut all, net, state, RouterId::at(index))?;
    }
    Ok(all)
}

/// What all AS boundary routers of a network send from a state, by prefix: the routes that they redistribute, and the default route.
/// Each table and each list of best paths of the state is in order. It is computed once a round, for all readers. It errs only where
/// memory runs out.
pub fn externals(
    alloc: Global,
    net: &Network,
    previous: &Knowledge,
) -> Result<Externals, AllocError>
    requires { All IsRouterState previous.now }
    ensures value { IfOk result (λ rows. rows ≡ externals_of net.now previous.now) }
    ensures in_order { IfOk result IsByPrefix }
{
    let all = all_sent(alloc, net, previous)?;
    externals_by_prefix(alloc, all.as_slice())
}
