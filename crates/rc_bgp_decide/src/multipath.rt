//! Several paths to one prefix at once.
ghost use Rattle.std.specs.Prelude.{◌≡◌, ◌∷◌, ◌≤◌, ◌↔◌, [], IfOk, OnOk, Some, length, map, nat_eq, slice_get, take};
ghost use Rattle.std.specs.BTreeSet.{insert_key, keys};
ghost use Rattle.std.specs.List.{IsDistinct, enumerate_from, list_any};
ghost use Rattle.std.specs.Option.{option_copied};
ghost use Rattle.rc_base.specs.Lists.{first_seen, in_order};
ghost use Rattle.rc_bgp_decide.specs.Beside.{IsTaken, is_equal, is_other, other_turns, turns_behind, with_other};
ghost use Rattle.rc_bgp_decide.specs.Decision.{best_place};
ghost use Rattle.rc_bgp_decide.specs.Multipath.{multi_places, next_hops_at, place_of, same_as_path, same_next_hop, turn, turn_cmp};

use crate::Standing;
use crate::choice::best;
use crate::comparing::{is_originated, origin_number, source_rank};
use crate::turn::Turn;
use rc_base::Items;
use rc_route::KeptPath;
use std::alloc::{AllocError, Global};
use std::collections::BTreeSet;

/// Whether two standings are equal in all that comes before the sender, where the AS paths are the same.
#[tactic(auto, unfolding(crate::specs::Beside::is_equal))]
fn is_equal(x: &Standing, y: &Standing) -> bool
    ensures { result ≡ is_equal x.now y.now }
{
    x.weight == y.weight
        && x.local_preference == y.local_preference
        && source_rank(x.source) == source_rank(y.source)
        && origin_number(x.origin) == origin_number(y.origin)
        && x.med == y.med
        && x.igp_metric == y.igp_metric
}

/// Whether two paths have one AS path.
fn has_same_as_path(x: &KeptPath, y: &KeptPath) -> bool
    ensures { result ≡ same_as_path x.now y.now }
{
    *x.as_path() == *y.as_path()
}

/// Whether a path is another one than the best, equal to it but for the sender, and has its whole AS path.
fn is_other(place: usize, best: &KeptPath, index: usize, path: &KeptPath) -> bool
    ensures { result ≡ is_other (place, best.now) (index, path.now) }
{
    index != place
        && is_equal(&Standing::of(best), &Standing::of(path))
        && has_same_as_path(best, path)
}

/// The turn of a path at a place.
fn turn_of(place: usize, path: &KeptPath) -> Turn
    ensures { result ≡ turn (place, path.now) }
{
    Turn {
        sender_id: path.sender_id(),
        neighbor: path.neighbor(),
        place,
        next_hop: path.next_hop(),
    }
}

/// Puts a turn into a set.
fn insert(set: &mut BTreeSet<Turn>, turn: Turn) -> Result<(), AllocError>
    ensures { OnOk result (keys set.new ≡ insert_key turn_cmp (keys set.old) turn) }
{
    set.insert(turn)?;
    Ok(())
}

/// Puts the turn of a path into a set, where it is as good as the best one.
fn add_other(
    set: &mut BTreeSet<Turn>,
    place: usize,
    best: &KeptPath,
    index: usize,
    path: &KeptPath,
) -> Result<(), AllocError>
    ensures { OnOk result (keys set.new ≡ with_other (place, best.now) (keys set.old) (index, path.now)) }
{
    if is_other(place, best, index, path) {
        insert(set, turn_of(index, path))?;
    }
    Ok(())
}

/// The turns of the paths that are as good as the best one.
fn other_turns(
    alloc: Global,
    paths: &[KeptPath],
    place: usize,
    best: &KeptPath,
) -> Result<BTreeSet<Turn>, AllocError>
    ensures { IfOk result (λ set. keys set ≡ in_order turn_cmp (other_turns (place, best.now) (enumerate_from 0 paths.now))) }
{
    let mut set = BTreeSet::new(alloc);
    for (index, path) in paths.iter().enumerate() {
        add_other(&mut set, place, best, index, path)?;
    }
    Ok(set)
}

/// Whether a next hop is one of those that were chosen.
fn has_next_hop(chosen: &[Turn], turn: &Turn) -> bool
    ensures { result ≡ list_any (same_next_hop turn.now) chosen.now }
{
    chosen.iter().any(|known| turn.next_hop == known.next_hop)
}

/// Chooses one turn more, where there are fewer than so many and none has its next hop.
#[tactic(auto, using(crate::proofs::ChosenLaws::no_room, crate::proofs::ChosenLaws::is_there, crate::proofs::ChosenLaws::one_more))]
fn choose(chosen: &mut Items<Turn>, most: usize, turn: Turn) -> Result<(), AllocError>
    ensures { OnOk result (IsTaken most chosen.old turn chosen.new) }
{
    if chosen.len() >= most {
        return Ok(());
    }
    if has_next_hop(chosen.as_slice(), &turn) {
        return Ok(());
    }
    chosen.push(turn)
}

/// Of a first turn and those of a set so many, each with a next hop of its own.
fn chosen_of(
    alloc: Global,
    first: Turn,
    others: BTreeSet<Turn>,
    most: usize,
) -> Result<Items<Turn>, AllocError>
    ensures { IfOk result (λ chosen. chosen ≡ take most (first_seen same_next_hop (first ∷ keys others))) }
{
    let mut chosen = Items::new(alloc);
    choose(&mut chosen, most, first)?;
    for turn in others {
        choose(&mut chosen, most, turn)?;
    }
    Ok(chosen)
}

/// The turns behind that of the best path. What the router originates has none.
fn turns_behind(
    alloc: Global,
    paths: &[KeptPath],
    place: usize,
    best: &KeptPath,
) -> Result<BTreeSet<Turn>, AllocError>
    ensures { IfOk result (λ set. keys set ≡ turns_behind (place, best.now) (enumerate_from 0 paths.now)) }
{
    if is_originated(best.source()) {
        return Ok(BTreeSet::new(alloc));
    }
    other_turns(alloc, paths, place, best)
}

/// The places of turns.
fn places_of(alloc: Global, turns: &[Turn]) -> Result<Vec<usize>, AllocError>
    ensures { IfOk result (λ places. places.items ≡ map place_of turns.now) }
{
    let mut places = Vec::with_capacity(alloc, turns.len())?;
    for turn in turns {
        places.push(turn.place)?;
    }
    Ok(places)
}

/// The places of the paths to take, the best one's first.
#[tactic(auto, using(crate::proofs::MultipathLaws::places_with))]
fn places_with(
    alloc: Global,
    paths: &[KeptPath],
    most: usize,
    place: usize,
    best: &KeptPath,
) -> Result<Vec<usize>, AllocError>
    requires place { Some place ≡ best_place paths.now }
    requires best { slice_get paths.now place ≡ Some best.now }
    ensures { IfOk result (λ places. places.items ≡ multi_places most paths.now) }
{
    let others = turns_behind(alloc, paths, place, best)?;
    let chosen = chosen_of(alloc, turn_of(place, best), others, most)?;
    places_of(alloc, chosen.as_slice())
}

/// The path at a place.
fn at_place(paths: &[KeptPath], place: usize) -> Option<&KeptPath>
    ensures { option_copied result ≡ slice_get paths.now place }
{
    paths.get(place)
}

/// The places of up to so many paths, the best one's first.
#[tactic(auto, using(crate::proofs::MultipathLaws::no_places))]
fn places_among(alloc: Global, paths: &[KeptPath], most: usize) -> Result<Vec<usize>, AllocError>
    ensures { IfOk result (λ places. places.items ≡ multi_places most paths.now) }
{
    let found = best(paths);
    match found {
        None => Ok(Vec::new(alloc)),
        Some(place) => {
            let path = at_place(paths, place);
            match path {
                None => Ok(Vec::new(alloc)),
                Some(path) => places_with(alloc, paths, most, place, path),
            }
        }
    }
}

/// The places of up to so many paths to one prefix that a router uses at once (multipath), the best one's first: behind it, where a peer
/// sent it, those that are as good up to the metric of the route to the next hop (RFC 4271 s.9.1.2.2 a to e) and have its whole AS path,
/// by BGP identifier of the sender, then by its address, then by place. Of paths over one next hop the first counts. None exactly where
/// there is no path. It errs only where memory runs out.
pub fn multi(alloc: Global, paths: &[KeptPath], most: usize) -> Result<Vec<usize>, AllocError>
    requires { 1 ≤ most }
    ensures places { IfOk result (λ places. places.items ≡ multi_places most paths.now) }
    ensures best { IfOk result (λ places. slice_get places.items 0 ≡ best_place paths.now) }
    ensures none { IfOk result (λ places. (places.items ≡ []) ↔ (paths.now ≡ [])) }
    ensures within { IfOk result (λ places. length places.items ≤ most) }
    ensures distinct { IfOk result (λ places. IsDistinct nat_eq (next_hops_at paths.now places.items)) }
{
    places_among(alloc, paths, most)
}
