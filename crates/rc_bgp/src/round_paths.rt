//! A router's best paths after a round, beside those of the round before.
ghost use Rattle.std.specs.List.Sorted.{IsStrictlySortedBy};
ghost use Rattle.std.specs.Prelude.{◌≡◌, ◌++◌, All, IfOk, IsTrue, false, true};
ghost use Rattle.rc_base.specs.Lists.{in_order};
ghost use Rattle.rc_base.specs.Prefix.{prefix_cmp};
ghost use Rattle.rc_route.specs.Tables.{IsBestList, IsRouterState, best_for};
ghost use Rattle.rc_route.specs.declared.best.Best.{Best as BestModel};
ghost use Rattle.rc_bgp.specs.Candidates as spec;
ghost use Rattle.rc_bgp.specs.Changes.{AreChanges, AreChangesInside, AreUpdated, CoversChange, NothingChanged, ReadsAlike};
ghost use Rattle.rc_bgp.specs.RouterStates as known_spec;
ghost use Rattle.rc_bgp.specs.Sessions as session_spec;
ghost use Rattle.rc_bgp.specs.Telling.{told_inside};
ghost use Rattle.rc_bgp.specs.Updating.{AreTaken};

use crate::all_originated::own_paths;
use crate::changes::changes_over;
use crate::deciding::{add_best_prefixes, best_paths};
use crate::maximum::maximum_of;
use crate::news::changed_at_senders;
use crate::originating::listed;
use crate::redeciding::decided;
use crate::resolver::Resolver;
use crate::router_state::{paths_of, table_of};
use crate::same_inputs::reads_alike;
use crate::telling::listed_for;
use crate::up::{sessions_of, up_sessions};
use crate::{Changes, ConfiguredSessions, Inside, Renewed, Session};
use rc_base::{Items, Prefix, RouterId};
use rc_config::Network;
use rc_pieces::{Alike, Finder, Knowledge, Listed, Pieces, edited};
use rc_route::Best;
use std::alloc::{AllocError, Global};
use std::collections::BTreeSet;

/// So many times as many look-ups as there are paths of senders are made for the prefixes that changed; where it would be more, all these
/// paths are gone through in their place.
const MANY: usize = 8;

/// Whether two lists of paths say otherwise at a prefix.
fn differ_at(old: &mut Finder<'_, Best>, new: &mut Finder<'_, Best>, prefix: &Prefix) -> bool
    requires old { IsBestList old.old }
    requires new { IsBestList new.old }
    ensures value { result ≡ false → best_for old.old prefix.now ≡ best_for new.old prefix.now }
    ensures same_old { old.new ≡ old.old }
    ensures same_new { new.new ≡ new.old }
{
    let before = old.at(prefix);
    let after = new.at(prefix);
    match before {
        None => after.is_some(),
        Some(before) => match after {
            None => true,
            Some(after) => !before.is_same(after),
        },
    }
}

/// Those of some prefixes, which stand in order, at which two lists of paths say otherwise.
fn differing(
    alloc: Global,
    old: &Listed<'_, Best>,
    new: &Listed<'_, Best>,
    prefixes: &[Prefix],
) -> Result<Items<Prefix>, AllocError>
    requires old { IsBestList old.now }
    requires new { IsBestList new.now }
    requires prefixes { IsStrictlySortedBy prefix_cmp prefixes.now }
    ensures { IfOk result (λ changed. AreTaken (λ (b : BestModel). b.path.prefix) (best_for new.now) old.now prefixes.now changed) }
{
    let mut changed = Items::new(alloc);
    let mut before = Finder::of(old);
    let mut after = Finder::of(new);
    for prefix in prefixes {
        if !differ_at(&mut before, &mut after, prefix) {
            continue;
        }
        changed.push(*prefix)?;
    }
    Ok(changed)
}

/// The prefixes of two lists of paths, in order, each once.
#[tactic(auto, using(crate::proofs::ChangeLaws::both_listed))]
fn prefixes_of_both(
    alloc: Global,
    old: &Listed<'_, Best>,
    new: &Listed<'_, Best>,
) -> Result<Items<Prefix>, AllocError>
    ensures { IfOk result (λ prefixes. prefixes ≡ in_order prefix_cmp (spec.best_prefixes old.now ++ spec.best_prefixes new.now)) }
{
    let mut set = BTreeSet::new(alloc);
    add_best_prefixes(&mut set, old)?;
    add_best_prefixes(&mut set, new)?;
    listed(alloc, set)
}

/// The prefixes at which a list of paths says other than another one.
#[tactic(auto, using(crate::proofs::ChangeLaws::both_covered, crate::proofs::ChangeLaws::both_in_order))]
fn changed_between(
    alloc: Global,
    old: &Listed<'_, Best>,
    new: &Listed<'_, Best>,
) -> Result<Items<Prefix>, AllocError>
    requires old { IsBestList old.now }
    requires new { IsBestList new.now }
    ensures covers { IfOk result (λ changed. CoversChange changed old.now new.now) }
    ensures in_order { IfOk result (IsStrictlySortedBy prefix_cmp) }
{
    let prefixes = prefixes_of_both(alloc, old, new)?;
    let changed = differing(alloc, old, new, prefixes.as_slice())?;
    Ok(changed)
}

/// Paths in pieces, with the prefixes at which they say other than those before.
fn beside(alloc: Global, old: &Listed<'_, Best>, paths: Items<Best>) -> Result<Renewed, AllocError>
    requires old { IsBestList old.now }
    requires paths { IsBestList paths }
    ensures paths { IfOk result (λ r. r.paths ≡ paths) }
    ensures changed { IfOk result (λ r. CoversChange r.changed old.now r.paths) }
    ensures changed_in_order { IfOk result (λ r. IsStrictlySortedBy prefix_cmp r.changed) }
{
    let paths = Pieces::of(alloc, paths)?;
    let changed = changed_between(alloc, old, &paths.listed())?;
    Ok(Renewed { paths, changed })
}

/// The best paths of a router after a state, and what changed in them, where there was no round before: for each prefix that has a
/// candidate the best of them (RFC 4271 s.9.1), by address, then length. It errs only where memory runs out.
pub fn first_paths(
    alloc: Global,
    net: &Network,
    sessions: &ConfiguredSessions,
    previous: &Knowledge,
    inside: &Inside,
    router: RouterId,
) -> Result<Renewed, AllocError>
    requires previous { All IsRouterState previous.now }
    requires inside { inside.now ≡ told_inside sessions.now previous.now }
    ensures paths { IfOk result (λ r. r.paths ≡ spec.best_paths net.now sessions.now previous.now router) }
    ensures in_order { IfOk result (λ r. IsBestList r.paths) }
    ensures changed { IfOk result (λ r. CoversChange r.changed (known_spec.paths_of previous.now router) r.paths) }
    ensures changed_in_order { IfOk result (λ r. IsStrictlySortedBy prefix_cmp r.changed) }
{
    let paths = best_paths(alloc, net, sessions, previous, inside, router)?;
    beside(alloc, &paths_of(previous, router), paths)
}

/// Whether nothing changed over sessions.
fn nothing_changed(changes: &Changes, inside: &Changes, sessions: &[Session]) -> bool
    ensures { IsTrue result → NothingChanged changes.now inside.now sessions.now }
{
    for session in sessions {
        if !changes_over(changes, inside, session).is_empty() {
            return false;
        }
    }
    true
}

/// Whether the best paths of a router stay what they are after a state, as can be told without deciding any: it reads what it read in an
/// earlier state, and nothing changed since in what its senders tell it. Where this isn't told they may stay all the same. It errs only where memory runs out.
pub fn stay_best(
    alloc: Global,
    net: &Network,
    sessions: &ConfiguredSessions,
    earlier: &Knowledge,
    changes: &Changes,
    changes_inside: &Changes,
    previous: &Knowledge,
    inside: &Inside,
    router: RouterId,
) -> Result<bool, AllocError>
    requires earlier { All IsRouterState earlier.now }
    requires previous { All IsRouterState previous.now }
    requires changes { AreChanges changes.now earlier.now previous.now }
    requires changes_inside { AreChangesInside changes_inside.now earlier.now previous.now }
    requires inside { inside.now ≡ told_inside sessions.now previous.now }
    ensures { IfOk result (λ stay. stay ≡ true → spec.best_paths net.now sessions.now earlier.now router ≡ spec.best_paths net.now sessions.now previous.now router) }
{
    if !nothing_changed(changes, changes_inside, sessions_of(sessions, router)) {
        return Ok(false);
    }
    reads_alike(alloc, net, sessions, earlier, previous, inside, router)
}

/// How many best paths are gone through for a session.
fn offered_over(inside: &Inside, state: &Knowledge, session: &Session) -> usize
    requires { All IsRouterState state.now }
{
    let listed = listed_for(inside, session);
    match listed {
        Some(listed) => listed.len(),
        None => paths_of(state, session.sender).len(),
    }
}

/// How many best paths are gone through for some sessions.
fn all_offered(inside: &Inside, state: &Knowledge, sessions: &[Session]) -> usize
    requires { All IsRouterState state.now }
{
    let mut count: usize = 0;
    for session in sessions {
        count = count.saturating_add(offered_over(inside, state, session));
    }
    count
}

/// The best paths of a router after a state, where they are those known but for some prefixes, which stand in order.
fn updated_paths(
    alloc: Global,
    net: &Network,
    sessions: &ConfiguredSessions,
    previous: &Knowledge,
    router: RouterId,
    up: &[Session],
    prefixes: &[Prefix],
) -> Result<Renewed, AllocError>
    requires previous { All IsRouterState previous.now }
    requires up { up.now ≡ session_spec.up_sessions sessions.now previous.now router }
    requires prefixes { IsStrictlySortedBy prefix_cmp prefixes.now }
    ensures updated { IfOk result (λ r. AreUpdated net.now sessions.now previous.now router prefixes.now r.paths r.changed) }
    ensures in_order { IfOk result (λ r. IsStrictlySortedBy prefix_cmp r.changed) }
{
    let known = paths_of(previous, router);
    let table = table_of(previous, router);
    let own = own_paths(alloc, net, &table, router)?;
    let mut resolver = Resolver::new(alloc, table);
    let (changed, edits) = decided(
        alloc,
        net,
        previous,
        maximum_of(net, router),
        &mut resolver,
        own.as_slice(),
        up,
        &known,
        prefixes,
    )?;
    let paths = edited(alloc, &known, edits)?;
    Ok(Renewed { paths, changed })
}

/// The best paths of a router that reads what it read before, and the prefixes whose path may be another: only those that its senders may
/// tell it anew are decided. Where these are many and many senders would be asked for each, all that they tell is gone through once in
/// place of that.
fn paths_again(
    alloc: Global,
    net: &Network,
    sessions: &ConfiguredSessions,
    earlier: &Knowledge,
    changes: &Changes,
    changes_inside: &Changes,
    previous: &Knowledge,
    inside: &Inside,
    router: RouterId,
) -> Result<Renewed, AllocError>
    requires earlier { All IsRouterState earlier.now }
    requires previous { All IsRouterState previous.now }
    requires alike { ReadsAlike net.now sessions.now earlier.now previous.now router }
    requires known { known_spec.paths_of previous.now router ≡ spec.best_paths net.now sessions.now earlier.now router }
    requires changes { AreChanges changes.now earlier.now previous.now }
    requires changes_inside { AreChangesInside changes_inside.now earlier.now previous.now }
    requires inside { inside.now ≡ told_inside sessions.now previous.now }
    ensures paths { IfOk result (λ r. r.paths ≡ spec.best_paths net.now sessions.now previous.now router) }
    ensures in_order { IfOk result (λ r. IsBestList r.paths) }
    ensures changed { IfOk result (λ r. CoversChange r.changed (known_spec.paths_of previous.now router) r.paths) }
    ensures changed_in_order { IfOk result (λ r. IsStrictlySortedBy prefix_cmp r.changed) }
{
    let up = up_sessions(alloc, sessions, previous, router)?;
    let prefixes = changed_at_senders(
        alloc,
        net,
        earlier,
        previous,
        changes,
        changes_inside,
        up.as_slice(),
    )?;
    let offered = all_offered(inside, previous, up.as_slice());
    if prefixes.len().saturating_mul(up.len()) > offered.saturating_mul(MANY) {
        return first_paths(alloc, net, sessions, previous, inside, router);
    }
    let made = updated_paths(
        alloc,
        net,
        sessions,
        previous,
        router,
        up.as_slice(),
        prefixes.as_slice(),
    )?;
    Ok(made)
}

/// The best paths of a router, where the state came from an earlier one and all that changed from there to here is told, and the prefixes
/// whose path may be another than before.
pub fn renewed_paths(
    alloc: Global,
    net: &Network,
    sessions: &ConfiguredSessions,
    earlier: &Knowledge,
    changes: &Changes,
    changes_inside: &Changes,
    previous: &Knowledge,
    inside: &Inside,
    router: RouterId,
) -> Result<Renewed, AllocError>
    requires earlier { All IsRouterState earlier.now }
    requires previous { All IsRouterState previous.now }
    requires known { known_spec.paths_of previous.now router ≡ spec.best_paths net.now sessions.now earlier.now router }
    requires changes { AreChanges changes.now earlier.now previous.now }
    requires changes_inside { AreChangesInside changes_inside.now earlier.now previous.now }
    requires inside { inside.now ≡ told_inside sessions.now previous.now }
    ensures paths { IfOk result (λ r. r.paths ≡ spec.best_paths net.now sessions.now previous.now router) }
    ensures in_order { IfOk result (λ r. IsBestList r.paths) }
    ensures changed { IfOk result (λ r. CoversChange r.changed (known_spec.paths_of previous.now router) r.paths) }
    ensures changed_in_order { IfOk result (λ r. IsStrictlySortedBy prefix_cmp r.changed) }
{
    if !reads_alike(alloc, net, sessions, earlier, previous, inside, router)? {
        return first_paths(alloc, net, sessions, previous, inside, router);
    }
    paths_again(
        alloc,
        net,
        sessions,
        earlier,
        changes,
        changes_inside,
        previous,
        inside,
        router,
    )
}
