//! A prepared table while it is made, run by run of routes that have the same hops.
ghost use Rattle.std.specs.Prelude.{◌≡◌, ◌+◌, ◌<◌, ◌≤◌, ◌^◌, ◌++◌, ◌∷◌, List, [], All, IfOk, OnOk, length, map, take, true};
ghost use Rattle.std.specs.List.{AllByRecursion, list_all};
ghost use Rattle.rc_base.specs.Prefix.{IsCidr};
ghost use Rattle.rc_fib.specs.Forwarding.{is_resolved, resolve_all, resolved_hops};
ghost use Rattle.rc_fib.specs.Growing.{HasHops, IsLayer};
ghost use Rattle.rc_route.specs.declared.route.Route.{Route as OneRoute};

use crate::Fib;
use crate::resolve::{is_resolved, is_settled, resolve};
use crate::stretch::Stretch;
use rc_base::{Items, Prefix};
use rc_route::{Hop, Route, SharedHops, same_hop};
use std::alloc::{AllocError, Global};

/// The prefixes and the stretches of the routes so far.
pub(crate) struct Growing {
    pub prefixes: Items<Prefix>,
    pub stretches: Items<Stretch>,
    /// Whether each of their hops says where a packet goes, with no look-up.
    pub is_plain: bool,
}

/// By a function of its own, so that what holds such a table drops it by one call.
impl Drop for Growing {
    fn drop(self) {
        let Growing {
            prefixes: _,
            stretches: _,
            is_plain: _,
        } = self;
    }
}

impl Growing {
    /// No route yet, and room for so many.
    pub fn with_room(alloc: Global, count: usize) -> Result<Growing, AllocError>
        ensures { IfOk result (λ made. (made.prefixes ≡ []) × (made.stretches ≡ [])) }
    {
        Ok(Growing {
            prefixes: Items::with_room(alloc, count)?,
            stretches: Items::new(alloc),
            is_plain: true,
        })
    }

    /// Its prefixes, its stretches, and whether each of their hops says where a packet goes; they are the caller's from then on.
    pub fn into_parts(self) -> (Items<Prefix>, Items<Stretch>, bool)
        ensures { result ≡ (self.prefixes, self.stretches, self.is_plain) }
    {
        let Growing {
            prefixes,
            stretches,
            is_plain,
        } = self;
        (prefixes, stretches, is_plain)
    }
}

/// Whether hops are this one alone.
#[inline]
pub(crate) fn is_alone(hop: &Hop, hops: &[Hop]) -> bool
    ensures { result ≡ true → hops.now ≡ hop.now ∷ [] }
{
    match hops {
        [only] => same_hop(only, hop),
        _ => false,
    }
}

/// How many of the next routes have one hop alone, which is this one.
fn repeats_of_one(hop: &Hop, next: &[Route]) -> usize
    ensures within { result ≤ length next.now }
    ensures small { result + 1 < 2 ^ 64 }
    ensures repeat { AllByRecursion (HasHops (hop.now ∷ [])) (take result next.now) }
{
    for index in 0..next.len() {
        if !is_alone(hop, next[index].hops.as_slice()) {
            return index;
        }
    }
    next.len()
}

/// Whether a route has these hops.
#[tactic(auto, using(rc_route::proofs::HopLaws::hops_decide))]
fn has_hops(hops: &SharedHops, route: &Route) -> bool
    ensures { result ≡ true → HasHops hops.now route.now }
{
    route.hops == *hops
}

/// How many of the next routes have these hops.
fn repeats_of_several(hops: &SharedHops, next: &[Route]) -> usize
    ensures within { result ≤ length next.now }
    ensures small { result + 1 < 2 ^ 64 }
    ensures repeat { AllByRecursion (HasHops hops.now) (take result next.now) }
{
    for index in 0..next.len() {
        if !has_hops(hops, &next[index]) {
            return index;
        }
    }
    next.len()
}

/// How many of the next routes have these hops. Mostly that is one hop, which is told from another in a few steps.
fn repeats_of(hops: &SharedHops, next: &[Route]) -> usize
    ensures within { result ≤ length next.now }
    ensures small { result + 1 < 2 ^ 64 }
    ensures repeat { AllByRecursion (HasHops hops.now) (take result next.now) }
{
    match hops.as_slice() {
        [only] => repeats_of_one(only, next),
        _ => repeats_of_several(hops, next),
    }
}

/// What the hops of a run resolve to, where another table gives the hops of their gateways. Most hops need no look-up, and are few: the
/// table shares them with the routes.
pub(crate) fn hops_behind(
    alloc: Global,
    fib: &Fib,
    hops: &SharedHops,
) -> Result<SharedHops, AllocError>
    ensures { IfOk result (λ shared. shared ≡ resolve_all (resolved_hops fib.now) hops.now) }
{
    if is_settled(hops.as_slice()) {
        return hops.share();
    }
    SharedHops::of(alloc, resolve(alloc, fib, hops.as_slice())?)
}

/// Puts the prefixes of a run at the end.
fn push_prefixes(prefixes: &mut Items<Prefix>, run: &[Route]) -> Result<(), AllocError>
    ensures value { OnOk result (prefixes.new ≡ prefixes.old ++ map (λ (r : OneRoute). r.prefix) run.now) }
    ensures canonical { OnOk result (All IsCidr prefixes.old → All IsCidr prefixes.new) }
{
    for route in run {
        // For the proof: reading the network tells that the prefix is one.
        let _network = route.prefix.network();
        prefixes.push(route.prefix)?;
    }
    Ok(())
}

/// Whether each of these hops says where a packet goes, with no look-up.
fn are_resolved(hops: &[Hop]) -> bool
    ensures { result ≡ list_all is_resolved hops.now }
{
    hops.iter().all(|hop| is_resolved(hop))
}

/// Whether each hop said where a packet goes so far, and each of these hops says so too.
pub(crate) fn is_plain_with(known: bool, hops: &[Hop]) -> bool
    ensures { result ≡ true → (known ≡ true) × (list_all is_resolved hops.now ≡ true) }
{
    known && are_resolved(hops)
}

/// Puts a run of routes at the end, all with these hops, where another table gives the hops of their gateways.
fn push_run(
    made: &mut Growing,
    alloc: Global,
    fib: &Fib,
    hops: &SharedHops,
    run: &[Route],
) -> Result<(), AllocError>
    requires some { 0 < length run.now }
    requires alike { AllByRecursion (HasHops hops.now) run.now }
    ensures { OnOk result ((before : List OneRoute) → IsLayer fib.now before made.old → IsLayer fib.now (before ++ run.now) made.new) }
{
    made.is_plain = is_plain_with(made.is_plain, hops.as_slice());
    let hops = hops_behind(alloc, fib, hops)?;
    push_prefixes(&mut made.prefixes, run)?;
    let end = made.prefixes.len();
    made.stretches.push(Stretch { end, hops })
}

/// Puts routes at the end, run by run, where another table gives the hops of their gateways.
pub(crate) fn push_routes(
    made: &mut Growing,
    alloc: Global,
    fib: &Fib,
    routes: &[Route],
) -> Result<(), AllocError>
    ensures { OnOk result ((before : List OneRoute) → IsLayer fib.now before made.old → IsLayer fib.now (before ++ routes.now) made.new) }
{
    let mut left = routes;
    while let [first, next @ ..] = left {
        let length = 1 + repeats_of(&first.hops, next);
        let (run, behind) = left.split_at(length);
        push_run(made, alloc, fib, &first.hops, run)?;
        left = behind;
    }
    Ok(())
}
