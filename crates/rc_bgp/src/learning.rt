//! The routes that best paths give.
ghost use Rattle.std.specs.Prelude.{◌≡◌, ◌≢◌, [], IfErr, IfOk, OnOk, Some, map};
ghost use Rattle.std.specs.BTreeSet.{keys, insert_key};
ghost use Rattle.std.specs.List.{fold};
ghost use Rattle.std.specs.Ordering.{nat_cmp};
ghost use Rattle.rc_bgp.specs.Learning as spec;

use rc_base::Addr;
use rc_route::{Best, Hop, Hops, PathSource, Route, SharedHops, Source};
use std::alloc::{AllocError, Global};
use std::collections::BTreeSet;

/// Puts an address into a set.
fn insert(set: &mut BTreeSet<Addr>, addr: Addr) -> Result<(), AllocError>
    ensures { OnOk result (keys set.new ≡ insert_key nat_cmp (keys set.old) addr) }
{
    set.insert(addr)?;
    Ok(())
}

/// Puts addresses into a set.
fn insert_all(set: &mut BTreeSet<Addr>, addresses: &[Addr]) -> Result<(), AllocError>
    ensures { OnOk result (keys set.new ≡ fold (insert_key nat_cmp) (keys set.old) addresses.now) }
{
    for addr in addresses {
        insert(set, *addr)?;
    }
    Ok(())
}

/// The gateways of a set, as hops.
fn gateways(alloc: Global, set: BTreeSet<Addr>) -> Result<Hops, AllocError>
    ensures { IfOk result (λ hops. hops ≡ map spec.gateway (keys set)) }
{
    let mut hops = Hops::none();
    for addr in set {
        hops.push(alloc, Hop::Via(addr, None))?;
    }
    Ok(hops)
}

/// The next hop of a best path and those beside it, of which there are some.
#[tactic(auto, using(crate::proofs::LearningLaws::hops_in_parts))]
fn all_hops(alloc: Global, best: &Best) -> Result<Hops, AllocError>
    ensures { IfOk result (λ hops. hops ≡ spec.hops_of_best best.now) }
{
    let mut set = BTreeSet::new(alloc);
    insert(&mut set, best.path.next_hop())?;
    insert_all(&mut set, best.also.as_slice())?;
    gateways(alloc, set)
}

/// The next hop of a best path and those beside it. It errs only where there are some.
#[inline(always)]
#[tactic(auto, using(crate::proofs::LearningLaws::no_further, crate::proofs::LearningLaws::some_further))]
fn hops_of_best(alloc: Global, best: &Best) -> Result<Hops, AllocError>
    ensures value { IfOk result (λ hops. hops ≡ spec.hops_of_best best.now) }
    ensures err { IfErr result (λ error. best.now.also ≢ []) }
{
    if best.also.is_empty() {
        return Ok(Hops::one(Hop::Via(best.path.next_hop(), None)));
    }
    let hops = all_hops(alloc, best)?;
    Ok(hops)
}

/// The route of a best path over its next hops.
#[inline(always)]
fn route_by(
    alloc: Global,
    beside: Option<&SharedHops>,
    best: &Best,
    source: Source,
    distance: u8,
) -> Result<Option<Route>, AllocError>
    ensures { IfOk result (λ route. route ≡ Some (spec.route_by best.now source distance)) }
{
    let hops = SharedHops::beside(alloc, beside, hops_of_best(alloc, best)?)?;
    Ok(Some(Route {
        prefix: best.path.prefix(),
        source,
        distance,
        metric: best.path.med(),
        hops,
    }))
}

/// The route that a best path gives its router's table: over its next hop and those that go with it, with the MED as metric, and with
/// the administrative distance 20 from another AS and 200 from the own one. What the router originates gives none. It shares the hops of
/// another route, where these are the same, and errs only where memory runs out.
#[inline(always)]
pub fn learned_route(
    alloc: Global,
    beside: Option<&SharedHops>,
    best: &Best,
) -> Result<Option<Route>, AllocError>
    ensures { IfOk result (λ route. route ≡ spec.learned_route best.now) }
{
    match best.path.source() {
        PathSource::External => route_by(alloc, beside, best, Source::Ebgp, 20),
        PathSource::Internal => route_by(alloc, beside, best, Source::Ibgp, 200),
        _ => Ok(None),
    }
}
