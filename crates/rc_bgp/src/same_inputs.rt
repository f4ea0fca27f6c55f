//! Whether a router reads in a state what it read in an earlier one, but for the best paths of its senders.
ghost use Rattle.std.specs.Prelude.{◌≡◌, ◌↔◌, All, IfOk, IsTrue, false, true};
ghost use Rattle.std.specs.List.{AllByRecursion};
ghost use Rattle.rc_route.specs.Tables.{IsRouterState, IsTable};
ghost use Rattle.rc_bgp.specs.Changes.{IsHeardAlike, IsToldAlike, ReadsAlike};
ghost use Rattle.rc_bgp.specs.RouterStates as known_spec;
ghost use Rattle.rc_bgp.specs.AllOriginated as own_spec;
ghost use Rattle.rc_bgp.specs.AllOriginated.{SayAlike};
ghost use Rattle.rc_bgp.specs.Reaching as reach_spec;
ghost use Rattle.rc_bgp.specs.Sessions as session_spec;
ghost use Rattle.rc_bgp.specs.Telling.{AreListed, may_tell, offered, told_inside};

use crate::all_originated::paths_of_process;
use crate::originating::metric_for;
use crate::reaching::metric_to;
use crate::redistributing::redistributes_nothing;
use crate::router_state::{paths_of, table_of};
use crate::telling::listed_for;
use crate::up::{is_up, sessions_of};
use crate::{ConfiguredSessions, Inside, Session};
use rc_base::{Addr, Items, Prefix, RouterId};
use rc_bgp_session::is_originated;
use rc_config::{BgpProcess, Network, RouterText};
use rc_pieces::{Finder, Knowledge, Listed};
use rc_route::{Best, BgpPath, Route};
use std::alloc::{AllocError, Global};

/// Whether two lists of lists of paths are the same.
fn are_same(lists: &Items<Items<BgpPath>>, others: &Items<Items<BgpPath>>) -> bool
    ensures { IsTrue result ↔ (lists.now ≡ others.now) }
{
    *lists == *others
}

/// Whether two metrics are the same.
fn is_same_metric(metric: Option<u32>, other: Option<u32>) -> bool
    ensures { IsTrue result → metric ≡ other }
{
    metric == other
}

/// Whether two tables say the same for the prefixes of lines `network`.
fn say_alike(before: &Listed<'_, Route>, now: &Listed<'_, Route>, networks: &[Prefix]) -> bool
    requires before { IsTable before.now }
    requires now { IsTable now.now }
    ensures { IsTrue result → SayAlike before.now now.now networks.now }
{
    let mut earlier = Finder::of(before);
    let mut later = Finder::of(now);
    for prefix in networks {
        let metric = metric_for(&mut earlier, prefix);
        if !is_same_metric(metric, metric_for(&mut later, prefix)) {
            return false;
        }
    }
    true
}

/// Whether a process originates the same with two tables: where it redistributes nothing, that is told by the prefixes of its lines `network`,
/// and no path is made.
#[tactic(auto, using(crate::proofs::OwnLaws::alike_by_networks))]
fn process_originates_alike(
    alloc: Global,
    net: &Network,
    router: RouterId,
    file: &RouterText,
    process: &BgpProcess,
    before: &Listed<'_, Route>,
    now: &Listed<'_, Route>,
) -> Result<bool, AllocError>
    requires before { IsTable before.now }
    requires now { IsTable now.now }
    ensures { IfOk result (λ is. is ≡ true → own_spec.paths_of_process net.now router file.now before.now process.now ≡ own_spec.paths_of_process net.now router file.now now.now process.now) }
{
    if redistributes_nothing(file, process) {
        return Ok(say_alike(before, now, process.networks.as_slice()));
    }
    let paths = paths_of_process(alloc, net, router, file, process, before)?;
    let others = paths_of_process(alloc, net, router, file, process, now)?;
    Ok(are_same(&paths, &others))
}

/// Whether a router originates the same with two tables.
fn originates_alike(
    alloc: Global,
    net: &Network,
    before: &Listed<'_, Route>,
    now: &Listed<'_, Route>,
    router: RouterId,
) -> Result<bool, AllocError>
    requires before { IsTable before.now }
    requires now { IsTable now.now }
    ensures { IfOk result (λ is. is ≡ true → own_spec.own_paths net.now before.now router ≡ own_spec.own_paths net.now now.now router) }
{
    let found = net.router_at(router);
    match found {
        None => Ok(true),
        Some(file) => match &file.bgp {
            None => Ok(true),
            Some(process) => {
                process_originates_alike(alloc, net, router, file, process, before, now)
            }
        },
    }
}

/// Whether a session is up in both of two states or in neither.
fn is_up_alike(
    alloc: Global,
    earlier: &Knowledge,
    previous: &Knowledge,
    session: &Session,
) -> Result<bool, AllocError>
    requires earlier { All IsRouterState earlier.now }
    requires previous { All IsRouterState previous.now }
    ensures { IfOk result (λ is. is ≡ true → session_spec.is_up earlier.now session.now ≡ session_spec.is_up previous.now session.now) }
{
    let before = is_up(alloc, earlier, session)?;
    let now = is_up(alloc, previous, session)?;
    Ok(before == now)
}

/// Whether a router reaches an address alike in two states.
fn is_reached_alike(
    alloc: Global,
    earlier: &Knowledge,
    previous: &Knowledge,
    router: RouterId,
    addr: Addr,
) -> Result<bool, AllocError>
    requires earlier { All IsRouterState earlier.now }
    requires previous { All IsRouterState previous.now }
    ensures { IfOk result (λ is. is ≡ true → reach_spec.metric_to (known_spec.table_of earlier.now router) addr ≡ reach_spec.metric_to (known_spec.table_of previous.now router) addr) }
{
    let before = metric_to(alloc, &table_of(earlier, router), addr)?;
    let now = metric_to(alloc, &table_of(previous, router), addr)?;
    Ok(is_same_metric(before, now))
}

/// Whether a path that its sender doesn't originate has a next hop that two tables know alike.
fn is_told_alike(
    alloc: Global,
    before: &Listed<'_, Route>,
    now: &Listed<'_, Route>,
    best: &Best,
) -> Result<bool, AllocError>
    requires before { IsTable before.now }
    requires now { IsTable now.now }
    ensures { IfOk result (λ is. is ≡ true → IsToldAlike before.now now.now best.now) }
{
    if is_originated(best.path.source()) {
        return Ok(true);
    }
    let metric = metric_to(alloc, before, best.path.next_hop())?;
    let other = metric_to(alloc, now, best.path.next_hop())?;
    Ok(is_same_metric(metric, other))
}

/// Whether so it is with each of some paths.
fn are_told_alike(
    alloc: Global,
    before: &Listed<'_, Route>,
    now: &Listed<'_, Route>,
    paths: &[Best],
) -> Result<bool, AllocError>
    requires before { IsTable before.now }
    requires now { IsTable now.now }
    ensures { IfOk result (λ are. are ≡ true → AllByRecursion (IsToldAlike before.now now.now) paths.now) }
{
    for best in paths {
        if !is_told_alike(alloc, before, now, best)? {
            return Ok(false);
        }
    }
    Ok(true)
}

/// Whether so it is with each path of a list.
fn are_all_told_alike(
    alloc: Global,
    before: &Listed<'_, Route>,
    now: &Listed<'_, Route>,
    paths: &Listed<'_, Best>,
) -> Result<bool, AllocError>
    requires before { IsTable before.now }
    requires now { IsTable now.now }
    ensures { IfOk result (λ are. are ≡ true → AllByRecursion (IsToldAlike before.now now.now) paths.now) }
{
    for piece in paths.pieces() {
        if !are_told_alike(alloc, before, now, piece.as_slice())? {
            return Ok(false);
        }
    }
    Ok(true)
}

/// Whether so it is with all that a session's sender may tell over it: with what is listed, if it is, else with all its paths.
fn are_offered_alike(
    alloc: Global,
    before: &Listed<'_, Route>,
    now: &Listed<'_, Route>,
    previous: &Knowledge,
    inside: &Inside,
    session: &Session,
) -> Result<bool, AllocError>
    requires before { IsTable before.now }
    requires now { IsTable now.now }
    requires previous { All IsRouterState previous.now }
    ensures { IfOk result (λ are. are ≡ true → AllByRecursion (IsToldAlike before.now now.now) (offered inside.now previous.now session.now)) }
{
    let listed = listed_for(inside, session);
    match listed {
        Some(listed) => are_told_alike(alloc, before, now, listed),
        None => {
            let paths = paths_of(previous, session.sender);
            are_all_told_alike(alloc, before, now, &paths)
        }
    }
}

/// Whether the next hops of all that may be told over a session are known alike in two states, where it is internal: over an external
/// one the next hop is the sender's address.
fn next_hops_are_alike(
    alloc: Global,
    earlier: &Knowledge,
    previous: &Knowledge,
    inside: &Inside,
    router: RouterId,
    session: &Session,
) -> Result<bool, AllocError>
    requires earlier { All IsRouterState earlier.now }
    requires previous { All IsRouterState previous.now }
    requires inside { AreListed inside.now previous.now }
    ensures { IfOk result (λ are. are ≡ true → session.now.is_external ≡ false → AllByRecursion (IsToldAlike (known_spec.table_of earlier.now router) (known_spec.table_of previous.now router)) (may_tell (known_spec.paths_of previous.now session.now.sender))) }
{
    if session.is_external {
        return Ok(true);
    }
    are_offered_alike(
        alloc,
        &table_of(earlier, router),
        &table_of(previous, router),
        previous,
        inside,
        session,
    )
}

/// Whether a router hears the same over a session in two states, where the sender says the same.
fn is_heard_alike(
    alloc: Global,
    earlier: &Knowledge,
    previous: &Knowledge,
    inside: &Inside,
    router: RouterId,
    session: &Session,
) -> Result<bool, AllocError>
    requires earlier { All IsRouterState earlier.now }
    requires previous { All IsRouterState previous.now }
    requires inside { AreListed inside.now previous.now }
    ensures { IfOk result (λ is. is ≡ true → IsHeardAlike router earlier.now previous.now session.now) }
{
    if !is_up_alike(alloc, earlier, previous, session)? {
        return Ok(false);
    }
    if !is_reached_alike(alloc, earlier, previous, router, session.sender_address)? {
        return Ok(false);
    }
    next_hops_are_alike(alloc, earlier, previous, inside, router, session)
}

/// Whether a router hears the same over each of some sessions in two states, where the senders say the same.
fn are_heard_alike(
    alloc: Global,
    earlier: &Knowledge,
    previous: &Knowledge,
    inside: &Inside,
    router: RouterId,
    sessions: &[Session],
) -> Result<bool, AllocError>
    requires earlier { All IsRouterState earlier.now }
    requires previous { All IsRouterState previous.now }
    requires inside { AreListed inside.now previous.now }
    ensures { IfOk result (λ are. are ≡ true → AllByRecursion (IsHeardAlike router earlier.now previous.now) sessions.now) }
{
    for session in sessions {
        if !is_heard_alike(alloc, earlier, previous, inside, router, session)? {
            return Ok(false);
        }
    }
    Ok(true)
}

/// Whether the best paths of a router differ in two states only where what its senders tell it does.
#[tactic(auto, using(crate::proofs::TellingLaws::told_is_listed))]
pub(crate) fn reads_alike(
    alloc: Global,
    net: &Network,
    sessions: &ConfiguredSessions,
    earlier: &Knowledge,
    previous: &Knowledge,
    inside: &Inside,
    router: RouterId,
) -> Result<bool, AllocError>
    requires earlier { All IsRouterState earlier.now }
    requires previous { All IsRouterState previous.now }
    requires inside { inside.now ≡ told_inside sessions.now previous.now }
    ensures { IfOk result (λ is. is ≡ true → ReadsAlike net.now sessions.now earlier.now previous.now router) }
{
    let here = sessions_of(sessions, router);
    if !are_heard_alike(alloc, earlier, previous, inside, router, here)? {
        return Ok(false);
    }
    originates_alike(
        alloc,
        net,
        &table_of(earlier, router),
        &table_of(previous, router),
        router,
    )
}
