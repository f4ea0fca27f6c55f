//! The next hops of further paths beside the best one.
ghost use Rattle.std.specs.Prelude.{◌≡◌, IfOk, drop, slice_get};
ghost use Rattle.std.specs.Option.{option_map};
ghost use Rattle.rc_bgp_decide.specs.Multipath.{next_hops_at};
ghost use Rattle.rc_route.specs.declared.path.BgpPath.{BgpPath as Path};
ghost use Rattle.rc_bgp.specs.Candidates as spec;

use rc_base::{Addr, Items};
use rc_bgp_decide::multi;
use rc_route::{FurtherHops, KeptPath};
use std::alloc::{AllocError, Global};

/// The next hop of the path at a place.
fn next_hop_at(paths: &[KeptPath], place: usize) -> Option<Addr>
    ensures { result ≡ option_map (λ (x : Path). x.next_hop) (slice_get paths.now place) }
{
    match paths.get(place) {
        None => None,
        Some(path) => Some(path.next_hop()),
    }
}

/// The next hops of the paths at some places.
fn next_hops_at(
    alloc: Global,
    paths: &[KeptPath],
    places: &[usize],
) -> Result<Items<Addr>, AllocError>
    ensures { IfOk result (λ hops. hops ≡ next_hops_at paths.now places.now) }
{
    let mut hops = Items::new(alloc);
    for place in places {
        let hop = next_hop_at(paths, *place);
        match hop {
            Some(hop) => hops.push(hop)?,
            None => {}
        }
    }
    Ok(hops)
}

/// Those of all places but the first.
#[tactic(auto, using(crate::proofs::ListLaws::behind_front))]
fn behind_first(places: &[usize]) -> &[usize]
    ensures { result.now ≡ drop 1 places.now }
{
    match places {
        [] => &[],
        [_, behind @ ..] => behind,
    }
}

/// The next hops of up to so many paths, but for that of the best one. One path takes no memory and no look at the others.
#[tactic(auto, using(rc_bgp_decide::proofs::SeveralLaws::none_behind))]
pub(crate) fn further(
    alloc: Global,
    most: u8,
    paths: &[KeptPath],
) -> Result<FurtherHops, AllocError>
    ensures { IfOk result (λ also. also ≡ spec.further most paths.now) }
{
    if most <= 1 {
        return Ok(FurtherHops::none());
    }
    let places = multi(alloc, paths, usize::from(most))?;
    let hops = next_hops_at(alloc, paths, behind_first(places.as_slice()))?;
    FurtherHops::of(alloc, hops)
}
