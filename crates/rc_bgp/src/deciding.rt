//! A router's candidates and best paths.
ghost use Rattle.std.specs.Prelude.{◌≡◌, ◌++◌, All, IfOk, OnOk};
ghost use Rattle.std.specs.List.{fold, flat_map, filter_map};
ghost use Rattle.std.specs.Option.{option_to_list};
ghost use Rattle.std.specs.BTreeSet.{keys, insert_key};
ghost use Rattle.rc_base.specs.Prefix.{prefix_cmp};
ghost use Rattle.rc_route.specs.Tables.{IsBestList, IsPathList, IsRouterState};
ghost use Rattle.rc_bgp.specs.Candidates as spec;
ghost use Rattle.rc_bgp.specs.Listening.{best_by};
ghost use Rattle.rc_bgp.specs.Telling.{AreListed, told_inside};

use crate::all_originated::own_paths;
use crate::further::further;
use crate::gathering::candidates_by_prefix;
use crate::hearing::candidates_at;
use crate::maximum::{maximum_of, number_for};
use crate::originating::{insert, listed};
use crate::resolver::Resolver;
use crate::router_state::{paths_of, table_of};
use crate::senders::{Senders, senders_of};
use crate::up::{received, up_sessions};
use crate::{ConfiguredSessions, Inside, Session, Sessions};
use rc_base::{Items, Prefix, RouterId};
use rc_bgp_decide::best;
use rc_config::{MaximumPaths, Network};
use rc_pieces::{Knowledge, Listed};
use rc_route::{Best, BgpPath, KeptPath};
use std::alloc::{AllocError, Global};
use std::collections::{BTreeMap, BTreeSet};

/// The best of some paths, which is taken out of them, with the next hops of further ones.
#[tactic(auto, using(crate::proofs::BestLaws::none_placed))]
fn best_taken(
    alloc: Global,
    most: MaximumPaths,
    paths: &mut Vec<KeptPath>,
) -> Result<Option<Best>, AllocError>
    ensures { IfOk result (λ best. best ≡ spec.best_with_further most paths.old.items) }
{
    let place = best(paths.as_slice());
    let Some(place) = place else {
        return Ok(None);
    };
    let number = number_for(most, paths[place].source());
    let also = further(alloc, number, paths.as_slice())?;
    let path = paths.swap_remove(place);
    Ok(Some(Best { path, also }))
}

/// The best of some paths, with the next hops of further ones.
fn best_with_further(
    alloc: Global,
    most: MaximumPaths,
    paths: Vec<KeptPath>,
) -> Result<Option<Best>, AllocError>
    ensures { IfOk result (λ best. best ≡ spec.best_with_further most paths.items) }
{
    let mut left = paths;
    best_taken(alloc, most, &mut left)
}

/// The best path for a prefix.
pub(crate) fn best_among(
    alloc: Global,
    most: MaximumPaths,
    resolver: &mut Resolver<'_>,
    own: &[Items<BgpPath>],
    senders: &mut Senders<'_>,
    prefix: &Prefix,
    paths: &mut Vec<KeptPath>,
) -> Result<Option<Best>, AllocError>
    requires own { All IsPathList own.now }
    ensures value { IfOk result (λ best. best ≡ best_by most resolver.old own.now senders.old.items prefix.now) }
    ensures same { OnOk result (resolver.new ≡ resolver.old) }
    ensures same_senders { OnOk result (senders.new.items ≡ senders.old.items) }
{
    candidates_at(alloc, resolver, own, senders, prefix, paths)?;
    best_taken(alloc, most, paths)
}

/// Puts the prefixes of paths into a set.
fn add_prefixes(set: &mut BTreeSet<Prefix>, paths: &[BgpPath]) -> Result<(), AllocError>
    ensures { OnOk result (keys set.new ≡ fold (insert_key prefix_cmp) (keys set.old) (spec.prefixes_of paths.now)) }
{
    for path in paths {
        insert(set, path.prefix)?;
    }
    Ok(())
}

/// Puts the prefixes of some best paths into a set.
fn add_prefixes_of_best(set: &mut BTreeSet<Prefix>, paths: &[Best]) -> Result<(), AllocError>
    ensures { OnOk result (keys set.new ≡ fold (insert_key prefix_cmp) (keys set.old) (spec.best_prefixes paths.now)) }
{
    for best in paths {
        insert(set, best.path.prefix())?;
    }
    Ok(())
}

/// Puts the prefixes of best paths into a set.
pub(crate) fn add_best_prefixes(
    set: &mut BTreeSet<Prefix>,
    paths: &Listed<'_, Best>,
) -> Result<(), AllocError>
    ensures { OnOk result (keys set.new ≡ fold (insert_key prefix_cmp) (keys set.old) (spec.best_prefixes paths.now)) }
{
    for piece in paths.pieces() {
        add_prefixes_of_best(set, piece.as_slice())?;
    }
    Ok(())
}

/// Puts the prefixes of originated paths into a set.
fn add_own(set: &mut BTreeSet<Prefix>, own: &[Items<BgpPath>]) -> Result<(), AllocError>
    ensures { OnOk result (keys set.new ≡ fold (insert_key prefix_cmp) (keys set.old) (flat_map spec.prefixes_of own.now)) }
{
    for paths in own {
        add_prefixes(set, paths.as_slice())?;
    }
    Ok(())
}

/// Puts the prefixes of the senders' best paths into a set.
fn add_senders(
    set: &mut BTreeSet<Prefix>,
    state: &Knowledge,
    sessions: &[Session],
) -> Result<(), AllocError>
    requires { All IsRouterState state.now }
    ensures { OnOk result (keys set.new ≡ fold (insert_key prefix_cmp) (keys set.old) (flat_map (spec.sender_prefixes state.now) sessions.now)) }
{
    for session in sessions {
        add_best_prefixes(set, &paths_of(state, session.sender))?;
    }
    Ok(())
}

/// The prefixes that may have candidates, by address, then length.
#[tactic(auto, using(crate::proofs::BestLaws::seen_in_parts))]
fn prefixes_seen(
    alloc: Global,
    state: &Knowledge,
    own: &[Items<BgpPath>],
    sessions: &[Session],
) -> Result<Items<Prefix>, AllocError>
    requires { All IsRouterState state.now }
    ensures { IfOk result (λ prefixes. prefixes ≡ spec.prefixes_seen state.now own.now sessions.now) }
{
    let mut set = BTreeSet::new(alloc);
    insert(&mut set, Prefix::default_route())?;
    add_own(&mut set, own)?;
    add_senders(&mut set, state, sessions)?;
    listed(alloc, set)
}

/// A best path, which shares all but the prefix of another path where it is like that one.
fn sharing(other: &KeptPath, best: Best) -> Result<Best, AllocError>
    ensures { IfOk result (λ made. made ≡ best) }
{
    if !other.is_like(&best.path) {
        return Ok(best);
    }
    let mut made = best;
    made.path = other.for_prefix(made.path.prefix())?;
    Ok(made)
}

/// A best path, which shares all but the prefix of the last of some: paths of one origin mostly stand side by side.
fn sharing_last(paths: &[Best], best: Best) -> Result<Best, AllocError>
    ensures { IfOk result (λ made. made ≡ best) }
{
    let last = paths.last();
    match last {
        None => Ok(best),
        Some(last) => sharing(&last.path, best),
    }
}

/// One best path more, if there is one.
fn push_some(paths: &mut Items<Best>, best: Option<Best>) -> Result<(), AllocError>
    ensures { OnOk result (paths.new ≡ paths.old ++ option_to_list best) }
{
    match best {
        Some(best) => {
            let best = sharing_last(paths.as_slice(), best)?;
            paths.push(best)?;
        }
        None => {}
    }
    Ok(())
}

/// The best of the candidates of each prefix.
fn best_of_each(
    alloc: Global,
    most: MaximumPaths,
    rows: BTreeMap<Prefix, Items<KeptPath>>,
) -> Result<Items<Best>, AllocError>
    ensures { IfOk result (λ paths. paths ≡ filter_map (λ row. spec.best_with_further most row.1) rows.entries) }
{
    let mut paths = Items::new(alloc);
    for (_, candidates) in rows {
        let best = best_with_further(alloc, most, candidates.into_vec())?;
        push_some(&mut paths, best)?;
    }
    Ok(paths)
}

/// The best path of each prefix that has a candidate.
fn all_best(
    alloc: Global,
    net: &Network,
    state: &Knowledge,
    inside: &Inside,
    most: MaximumPaths,
    resolver: &mut Resolver<'_>,
    own: &[Items<BgpPath>],
    sessions: &[Session],
) -> Result<Items<Best>, AllocError>
    requires state { All IsRouterState state.now }
    requires inside { AreListed inside.now state.now }
    requires own { All IsPathList own.now }
    ensures { IfOk result (λ paths. paths ≡ spec.all_best net.now state.now most resolver.old own.now sessions.now) }
{
    let rows = candidates_by_prefix(alloc, net, state, inside, resolver, own, sessions)?;
    best_of_each(alloc, most, rows.into_rows())
}

/// The best paths of a router after a state: for each prefix that has a candidate the best of them (RFC 4271 s.9.1), by address,
/// then length. It errs only where memory runs out.
#[tactic(auto, using(crate::proofs::TellingLaws::told_is_listed), unfolding(crate::specs::Candidates::best_paths))]
pub(crate) fn best_paths(
    alloc: Global,
    net: &Network,
    sessions: &ConfiguredSessions,
    previous: &Knowledge,
    inside: &Inside,
    router: RouterId,
) -> Result<Items<Best>, AllocError>
    requires previous { All IsRouterState previous.now }
    requires inside { inside.now ≡ told_inside sessions.now previous.now }
    ensures value { IfOk result (λ paths. paths ≡ spec.best_paths net.now sessions.now previous.now router) }
    ensures in_order { IfOk result IsBestList }
{
    let table = table_of(previous, router);
    let own = own_paths(alloc, net, &table, router)?;
    let up = up_sessions(alloc, sessions, previous, router)?;
    let mut resolver = Resolver::new(alloc, table);
    all_best(
        alloc,
        net,
        previous,
        inside,
        maximum_of(net, router),
        &mut resolver,
        own.as_slice(),
        up.as_slice(),
    )
}

/// Puts paths at the end of a list.
fn append(all: &mut Items<KeptPath>, paths: Vec<KeptPath>) -> Result<(), AllocError>
    ensures { OnOk result (all.new ≡ all.old ++ paths.items) }
{
    for path in paths {
        all.push(path)?;
    }
    Ok(())
}

/// The candidates for each of some prefixes.
fn candidates_for(
    alloc: Global,
    net: &Network,
    state: &Knowledge,
    resolver: &mut Resolver<'_>,
    own: &[Items<BgpPath>],
    sessions: &[Session],
    prefixes: &[Prefix],
) -> Result<Items<KeptPath>, AllocError>
    requires state { All IsRouterState state.now }
    requires own { All IsPathList own.now }
    ensures { IfOk result (λ all. all ≡ flat_map (spec.candidates_at net.now state.now resolver.old own.now sessions.now) prefixes.now) }
{
    let mut all = Items::new(alloc);
    let mut senders = senders_of(alloc, net, state, sessions)?;
    for prefix in prefixes {
        let mut paths = Vec::new(alloc);
        candidates_at(alloc, resolver, own, &mut senders, prefix, &mut paths)?;
        append(&mut all, paths)?;
    }
    Ok(all)
}

/// All candidates of a router after a state, over the sessions that are up in it (RFC 4271 s.9.1): by prefix; for each what the router
/// originates, then what it hears over each session, by sender, then the sender's address. It errs only where memory runs out.
#[tactic(auto, unfolding(crate::specs::Candidates::candidates))]
pub fn candidates(
    alloc: Global,
    net: &Network,
    sessions: &Sessions,
    router: RouterId,
    previous: &Knowledge,
) -> Result<Items<KeptPath>, AllocError>
    requires { All IsRouterState previous.now }
    ensures { IfOk result (λ all. all ≡ spec.candidates net.now sessions.now router previous.now) }
{
    let table = table_of(previous, router);
    let own = own_paths(alloc, net, &table, router)?;
    let here = received(alloc, sessions, router)?;
    let prefixes = prefixes_seen(alloc, previous, own.as_slice(), here.as_slice())?;
    let mut resolver = Resolver::new(alloc, table);
    candidates_for(
        alloc,
        net,
        previous,
        &mut resolver,
        own.as_slice(),
        here.as_slice(),
        prefixes.as_slice(),
    )
}
