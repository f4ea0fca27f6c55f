//! One router's next table and best paths.
ghost use Rattle.std.specs.Prelude.{◌≡◌, ◌⊎◌, [], All, IfOk, IfSome, IsTrue, None, Some, false, slice_get, true};
ghost use Rattle.std.specs.List.{list_any};
ghost use Rattle.std.specs.List.Sorted.{IsStrictlySortedBy};
ghost use Rattle.rc_base.specs.Prefix.{prefix_cmp};
ghost use Rattle.rc_bgp.specs.Candidates as bgp_spec;
ghost use Rattle.rc_bgp.specs.Changes.{CoversChange};
ghost use Rattle.rc_bgp.specs.RouterStates.{paths_of, table_of};
ghost use Rattle.rc_bgp.specs.Sessions.{sessions_of};
ghost use Rattle.rc_config.specs.Lawful.{IsRouter};
ghost use Rattle.rc_config.specs.Members.{router_at};
ghost use Rattle.rc_config.specs.declared.static_route.StaticRoute.{StaticRoute as Line};
ghost use Rattle.rc_external.specs.Routes.{external_routes};
ghost use Rattle.rc_fib.specs.Forwarding.{resolved};
ghost use Rattle.rc_ospf.specs.Internal.{boundaries_of, routes_of};
ghost use Rattle.rc_route.specs.Tables.{IsBestList, IsRouterState, IsTable};
ghost use Rattle.rc_rib.specs.Connected as connected_spec;
ghost use Rattle.rc_rib.specs.Again.{AsksNoTable, HasNoLines, IsUnchanged};
ghost use Rattle.rc_rib.specs.Inputs.{AreInputs, IsEarlier};
ghost use Rattle.rc_rib.specs.Merging as merging_spec;
ghost use Rattle.rc_rib.specs.Next as spec;
ghost use Rattle.rc_rib.specs.Static.{active_lines, asks_table, static_routes};

use crate::active::{active_lines, some_ask_table};
use crate::connected_routes::connected;
use crate::grouping::static_routes;
use crate::laying::{laid_over, laid_under};
use crate::learned::with_learned;
use crate::mending::next_table;
use crate::merging::merged;
use crate::outside::outside_routes;
use crate::{Earlier, Inputs, Made};
use rc_base::{Items, RouterId};
use rc_bgp::{ConfiguredSessions, Renewed, first_paths, renewed_paths, stay_best};
use rc_config::{Network, RouterText};
use rc_fib::Fib;
use rc_ospf::Internal;
use rc_pieces::{Knowledge, Known, Listed, Pieces, known_at, same};
use rc_route::{Best, Parts, Route, Table};
use std::alloc::{AllocError, Global};
use std::sync::Arc;

/// A table in one part, in memory of its own.
fn in_one_part(alloc: Global, table: &Listed<'_, Route>) -> Result<Parts<Route>, AllocError>
    ensures { IfOk result (λ copied. copied ≡ table.now) }
{
    let mut copied = Parts::new(alloc);
    let part = Arc::new(alloc, table.copied(alloc)?)?;
    copied.push(part)?;
    Ok(copied)
}

/// The static routes of a file that its router's previous table makes active, from that table prepared for look-ups.
fn routes_from(
    alloc: Global,
    router: RouterId,
    file: &RouterText,
    old: &Listed<'_, Route>,
) -> Result<Table, AllocError>
    requires { IsTable old.now }
    ensures { IfOk result (λ routes. routes ≡ static_routes (active_lines router file.now.interfaces (resolved old.now) file.now.static_routes)) }
{
    let table = in_one_part(alloc, old)?;
    let fib = Fib::of(alloc, &table)?;
    let lines = active_lines(alloc, router, file, &fib)?;
    static_routes(alloc, lines.as_slice())
}

/// The same where no line asks the table: it isn't prepared.
fn routes_of_lines(
    alloc: Global,
    router: RouterId,
    file: &RouterText,
    old: &Listed<'_, Route>,
) -> Result<Table, AllocError>
    requires { list_any (λ (s : Line). asks_table s.target) file.now.static_routes ≡ false }
    ensures { IfOk result (λ routes. routes ≡ static_routes (active_lines router file.now.interfaces (resolved old.now) file.now.static_routes)) }
{
    let routes = routes_from(alloc, router, file, &Listed::none())?;
    Ok(routes)
}

/// The static routes of a file that its router's previous table makes active. Only where a line asks that table, it is prepared
/// for look-ups.
#[tactic(auto, using(crate::proofs::StaticLaws::no_lines))]
fn active_routes(
    alloc: Global,
    router: RouterId,
    file: &RouterText,
    old: &Listed<'_, Route>,
) -> Result<Table, AllocError>
    requires { IsTable old.now }
    ensures { IfOk result (λ routes. routes ≡ static_routes (active_lines router file.now.interfaces (resolved old.now) file.now.static_routes)) }
{
    if file.static_routes.is_empty() {
        return Ok(Items::new(alloc));
    }
    if some_ask_table(file.static_routes.as_slice()) {
        routes_from(alloc, router, file, old)
    } else {
        routes_of_lines(alloc, router, file, old)
    }
}

/// The connected and the static routes of a file, from its router's previous table.
fn own_routes(
    alloc: Global,
    router: RouterId,
    file: &RouterText,
    old: &Listed<'_, Route>,
) -> Result<Table, AllocError>
    requires { IsTable old.now }
    ensures { IfOk result (λ table. table ≡ merging_spec.merged (connected_spec.connected router file.now.interfaces) (static_routes (active_lines router file.now.interfaces (resolved old.now) file.now.static_routes))) }
{
    let active = active_routes(alloc, router, file, old)?;
    let connected = connected(alloc, router, file)?;
    merged(alloc, connected, active)
}

/// The same, from the state before.
pub(crate) fn own_from(
    alloc: Global,
    router: RouterId,
    file: &RouterText,
    state: &Knowledge,
) -> Result<Table, AllocError>
    requires { All IsRouterState state.now }
    ensures { IfOk result (λ table. table ≡ merging_spec.merged (connected_spec.connected router file.now.interfaces) (static_routes (active_lines router file.now.interfaces (resolved (table_of state.now router)) file.now.static_routes))) }
{
    let known = known_at(state, router);
    match known {
        Some(known) => own_routes(alloc, router, file, &known.table()),
        None => own_routes(alloc, router, file, &Listed::none()),
    }
}

/// A table with the OSPF routes of a router inside and between areas, of which most are shared.
fn with_internal(
    alloc: Global,
    table: Table,
    internal: &Internal,
    router: RouterId,
) -> Result<Pieces<Route>, AllocError>
    requires table { IsTable table }
    requires routes { IsTable (routes_of internal.now router) }
    ensures { IfOk result (λ made. made ≡ merging_spec.merged table (routes_of internal.now router)) }
{
    laid_over(alloc, table, &internal.routes_of(router))
}

/// A table with the OSPF routes of a router from outside of the AS.
fn with_outside(
    alloc: Global,
    table: Pieces<Route>,
    inputs: &Inputs<'_>,
    router: RouterId,
) -> Result<Pieces<Route>, AllocError>
    requires inputs { AreInputs inputs.now }
    requires table { IsTable table }
    ensures { IfOk result (λ made. made ≡ merging_spec.merged table (spec.to_others inputs.now.internal.now router (external_routes inputs.now.internal.now inputs.now.externals.now router))) }
{
    let routes = outside_routes(alloc, inputs.internal, inputs.externals, router)?;
    laid_under(alloc, table, routes)
}

/// The next table of a router of this file that has these best paths.
pub(crate) fn table_beside(
    alloc: Global,
    inputs: &Inputs<'_>,
    router: RouterId,
    file: &RouterText,
    paths: &Listed<'_, Best>,
) -> Result<Pieces<Route>, AllocError>
    requires inputs { AreInputs inputs.now }
    requires paths { IsBestList paths.now }
    ensures value { IfOk result (λ table. table ≡ spec.table_after router file.now (spec.learned_routes paths.now) (spec.ospf_routes inputs.now.internal.now inputs.now.externals.now router) (table_of inputs.now.previous.now router)) }
    ensures in_order { IfOk result IsTable }
{
    let table = own_from(alloc, router, file, inputs.previous)?;
    let table = with_learned(alloc, table, paths)?;
    let table = with_internal(alloc, table, inputs.internal, router)?;
    with_outside(alloc, table, inputs, router)
}

/// The best paths of a router after a round, and what changed in them.
fn paths_after(alloc: Global, inputs: &Inputs<'_>, router: RouterId) -> Result<Renewed, AllocError>
    requires inputs { AreInputs inputs.now }
    requires router { IsRouter inputs.now.network.now router }
    ensures paths { IfOk result (λ r. r.paths ≡ bgp_spec.best_paths inputs.now.network.now inputs.now.sessions.now inputs.now.previous.now router) }
    ensures in_order { IfOk result (λ r. IsBestList r.paths) }
    ensures changed { IfOk result (λ r. CoversChange r.changed (paths_of inputs.now.previous.now router) r.paths) }
    ensures changed_in_order { IfOk result (λ r. IsStrictlySortedBy prefix_cmp r.changed) }
{
    match &inputs.earlier {
        None => first_paths(
            alloc,
            inputs.network,
            inputs.sessions,
            inputs.previous,
            inputs.inside,
            router,
        ),
        Some(earlier) => renewed_paths(
            alloc,
            inputs.network,
            inputs.sessions,
            earlier.state,
            earlier.changes,
            earlier.inside,
            inputs.previous,
            inputs.inside,
            router,
        ),
    }
}

/// What a router of this file knows after a round, made anew.
fn made_of(
    alloc: Global,
    inputs: &Inputs<'_>,
    router: RouterId,
    file: &RouterText,
) -> Result<Made, AllocError>
    requires inputs { AreInputs inputs.now }
    requires router { IsRouter inputs.now.network.now router }
    requires file { router_at inputs.now.network.now router ≡ Some file.now }
    ensures next { IfOk result (λ m. m.state ≡ spec.router_after inputs.now.network.now inputs.now.internal.now inputs.now.previous.now router file.now) }
    ensures in_order { IfOk result (λ m. IsRouterState m.state) }
    ensures same_table { IfOk result (λ m. m.has_same_table ≡ true → m.state.table ≡ table_of inputs.now.previous.now router) }
    ensures changed { IfOk result (λ m. CoversChange m.changed (paths_of inputs.now.previous.now router) m.state.paths) }
{
    let renewed = paths_after(alloc, inputs, router)?;
    let Renewed { paths, changed } = renewed;
    let (table, has_same_table) = next_table(
        alloc,
        inputs,
        router,
        file,
        &paths.listed(),
        changed.as_slice(),
    )?;
    Ok(Made {
        state: Known::of(table, paths),
        has_same_table,
        changed,
    })
}

/// What a router knows after a round, made anew.
fn anew(alloc: Global, inputs: &Inputs<'_>, router: RouterId) -> Result<Made, AllocError>
    requires inputs { AreInputs inputs.now }
    requires router { IsRouter inputs.now.network.now router }
    ensures next { IfOk result (λ m. m.state ≡ spec.next_router inputs.now.network.now inputs.now.internal.now inputs.now.previous.now router) }
    ensures in_order { IfOk result (λ m. IsRouterState m.state) }
    ensures same_table { IfOk result (λ m. m.has_same_table ≡ true → m.state.table ≡ table_of inputs.now.previous.now router) }
    ensures changed { IfOk result (λ m. CoversChange m.changed (paths_of inputs.now.previous.now router) m.state.paths) }
{
    let found = inputs.network.router_at(router);
    match found {
        Some(file) => made_of(alloc, inputs, router, file),
        None => Ok(Made {
            state: Known::nothing(),
            has_same_table: false,
            changed: Items::new(alloc),
        }),
    }
}

/// What a router knows once more: nothing changed.
fn again(alloc: Global, known: &Known) -> Result<Made, AllocError>
    ensures state { IfOk result (λ m. m.state ≡ known.now) }
    ensures changed { IfOk result (λ m. m.changed ≡ []) }
{
    let state = known.share()?;
    Ok(Made {
        state,
        has_same_table: true,
        changed: Items::new(alloc),
    })
}

/// Whether a router has no line `ip route`.
pub(crate) fn has_no_lines(net: &Network, router: RouterId) -> bool
    ensures { IsTrue result → HasNoLines net.now router }
{
    let found = net.router_at(router);
    match found {
        Some(file) => file.static_routes.is_empty(),
        None => true,
    }
}

/// Whether a router has no BGP process.
pub(crate) fn has_no_process(net: &Network, router: RouterId) -> bool
    ensures { IsTrue result → IfSome (router_at net.now router) (λ file. file.bgp ≡ None) }
{
    let found = net.router_at(router);
    match found {
        Some(file) => file.bgp.is_none(),
        None => true,
    }
}

/// Whether no session to a router is configured.
pub(crate) fn has_no_sessions(sessions: &ConfiguredSessions, router: RouterId) -> bool
    ensures { IsTrue result → sessions_of sessions.now router ≡ [] }
{
    let found = sessions.as_slice().get(router.index());
    match found {
        Some(sessions) => sessions.is_empty(),
        None => true,
    }
}

/// Whether a router has no path to an AS boundary router.
pub(crate) fn has_no_boundaries(internal: &Internal, router: RouterId) -> bool
    ensures { IsTrue result → boundaries_of internal.now router ≡ [] }
{
    internal.boundaries_of(router).is_empty()
}

/// Whether no line `ip route` of a file asks its router's table.
pub(crate) fn is_free_of_tables(file: &RouterText) -> bool
    ensures { IsTrue result → list_any (λ (s : Line). asks_table s.target) file.now.static_routes ≡ false }
{
    if some_ask_table(file.static_routes.as_slice()) {
        return false;
    }
    true
}

/// Whether no line `ip route` of a router asks its table.
fn asks_no_table(net: &Network, router: RouterId) -> bool
    ensures { IsTrue result → AsksNoTable net.now router }
{
    let found = net.router_at(router);
    match found {
        Some(file) => is_free_of_tables(file),
        None => true,
    }
}

/// Whether a router has the same table in two states.
#[tactic(auto, using(crate::proofs::AgainLaws::tables_of))]
fn has_same_table(earlier: &Knowledge, previous: &Knowledge, router: RouterId) -> bool
    ensures { IsTrue result → table_of previous.now router ≡ table_of earlier.now router }
{
    let known = known_at(previous, router);
    let old = known_at(earlier, router);
    match known {
        None => false,
        Some(known) => match old {
            None => false,
            Some(old) => same(&known.table, &old.table),
        },
    }
}

/// Whether no line of a router asks its table, or the table is the same in two states.
fn lines_read_alike(
    net: &Network,
    earlier: &Knowledge,
    previous: &Knowledge,
    router: RouterId,
) -> bool
    ensures { IsTrue result → AsksNoTable net.now router ⊎ (table_of previous.now router ≡ table_of earlier.now router) }
{
    if asks_no_table(net, router) {
        return true;
    }
    has_same_table(earlier, previous, router)
}

/// Whether the best paths of a router stay what they are, as can be told without deciding any.
fn stay_best_at(
    alloc: Global,
    inputs: &Inputs<'_>,
    earlier: &Earlier<'_>,
    router: RouterId,
) -> Result<bool, AllocError>
    requires inputs { AreInputs inputs.now }
    requires earlier { IsEarlier inputs.now.network.now inputs.now.internal.now inputs.now.previous.now earlier.now.state.now earlier.now.changes.now earlier.now.inside.now }
    ensures { IfOk result (λ stay. stay ≡ true → bgp_spec.best_paths inputs.now.network.now inputs.now.sessions.now earlier.now.state.now router ≡ bgp_spec.best_paths inputs.now.network.now inputs.now.sessions.now inputs.now.previous.now router) }
{
    stay_best(
        alloc,
        inputs.network,
        inputs.sessions,
        earlier.state,
        earlier.changes,
        earlier.inside,
        inputs.previous,
        inputs.inside,
        router,
    )
}

/// Whether a router reads what it read a round earlier, but for what other routers know that changes nothing for it: its best paths stay, it
/// has no path to an AS boundary router, and no line of it asks its table, or the table is the same.
pub(crate) fn is_unchanged(
    alloc: Global,
    inputs: &Inputs<'_>,
    earlier: &Earlier<'_>,
    router: RouterId,
) -> Result<bool, AllocError>
    requires inputs { AreInputs inputs.now }
    requires earlier { IsEarlier inputs.now.network.now inputs.now.internal.now inputs.now.previous.now earlier.now.state.now earlier.now.changes.now earlier.now.inside.now }
    ensures { IfOk result (λ is. is ≡ true → IsUnchanged inputs.now.network.now inputs.now.internal.now inputs.now.sessions.now inputs.now.previous.now earlier.now.state.now router) }
{
    if !has_no_boundaries(inputs.internal, router) {
        return Ok(false);
    }
    if !stay_best_at(alloc, inputs, earlier, router)? {
        return Ok(false);
    }
    let net = inputs.network;
    Ok(lines_read_alike(net, earlier.state, inputs.previous, router))
}

/// What a router knows in the state before, where it is to know the same once more.
fn known_again<'a>(inputs: &Inputs<'a>, is_unchanged: bool, router: RouterId) -> Option<&'a Known>
    ensures { IfSome result (λ s. (is_unchanged ≡ true) × (slice_get inputs.now.previous.now router ≡ Some s.now)) }
{
    if is_unchanged {
        known_at(inputs.previous, router)
    } else {
        None
    }
}

/// What a router knows after a round in which all routers read these inputs: its table, and its best BGP paths; and the prefixes
/// at which these may be others than before, and whether its table is told to be the one before.
///
/// Its connected routes, its static routes that its previous table makes active, and its routes by BGP and by OSPF; for each prefix
/// the least administrative distance wins, and at one distance the source that stands first. A router for which nothing changed that it
/// reads, as can be told at once, knows the same again, and nothing is made anew for it. It errs only where memory runs out.
pub fn table(alloc: Global, inputs: &Inputs<'_>, router: RouterId) -> Result<Made, AllocError>
    requires inputs { AreInputs inputs.now }
    requires router { IsRouter inputs.now.network.now router }
    ensures next { IfOk result (λ m. m.state ≡ spec.next_router inputs.now.network.now inputs.now.internal.now inputs.now.previous.now router) }
    ensures in_order { IfOk result (λ m. IsRouterState m.state) }
    ensures same_table { IfOk result (λ m. m.has_same_table ≡ true → m.state.table ≡ table_of inputs.now.previous.now router) }
    ensures changed { IfOk result (λ m. CoversChange m.changed (paths_of inputs.now.previous.now router) m.state.paths) }
{
    match &inputs.earlier {
        None => anew(alloc, inputs, router),
        Some(earlier) => {
            let is_unchanged = is_unchanged(alloc, inputs, earlier, router)?;
            let known = known_again(inputs, is_unchanged, router);
            match known {
                Some(known) => again(alloc, known),
                None => anew(alloc, inputs, router),
            }
        }
    }
}
