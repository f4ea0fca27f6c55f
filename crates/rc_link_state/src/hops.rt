//! Hops in their order.
ghost use Rattle.std.specs.Prelude.{◌≡◌, true, [], ◌∷◌, ◌++◌, IfOk, OnOk};
ghost use Rattle.std.specs.BTreeSet.{keys, insert_key};
ghost use Rattle.rc_base.specs.Lists.{in_order};
ghost use Rattle.rc_link_state.specs.HopOrder as spec;
ghost use Rattle.rc_route.specs.Hops.{hop_cmp};

use rc_base::IfId;
use rc_route::{Hop, Hops, compare_hops};
use std::alloc::{AllocError, Global};
use std::cmp::Ordering;
use std::collections::BTreeSet;

/// Puts hops at the end. It errs only where memory runs out.
pub fn add_hops(hops: &mut Hops, alloc: Global, more: &[Hop]) -> Result<(), AllocError>
    ensures { OnOk result (hops.new ≡ hops.old ++ more.now) }
{
    for hop in more {
        hops.push(alloc, *hop)?;
    }
    Ok(())
}

/// Puts a hop into a set.
fn insert_hop(set: &mut BTreeSet<Hop>, hop: Hop) -> Result<(), AllocError>
    ensures { OnOk result (keys set.new ≡ insert_key hop_cmp (keys set.old) hop) }
{
    // For the proof: that of an insertion wants each enum within the element named in the function.
    let _interface: Option<IfId> = None;
    set.insert(hop)?;
    Ok(())
}

/// Hops as a set.
fn hop_set(alloc: Global, hops: &[Hop]) -> Result<BTreeSet<Hop>, AllocError>
    ensures { IfOk result (λ set. keys set ≡ in_order hop_cmp hops.now) }
{
    let mut set = BTreeSet::new(alloc);
    for hop in hops {
        insert_hop(&mut set, *hop)?;
    }
    Ok(set)
}

/// Hops in their order, each once, by way of a set.
fn hops_by_set(alloc: Global, hops: &[Hop]) -> Result<Hops, AllocError>
    ensures { IfOk result (λ ordered. ordered ≡ in_order hop_cmp hops.now) }
{
    let set = hop_set(alloc, hops)?;
    let mut ordered = Hops::none();
    for hop in set {
        ordered.push(alloc, hop)?;
    }
    Ok(ordered)
}

/// Two hops, one behind the other.
fn pair(alloc: Global, first: Hop, second: Hop) -> Result<Hops, AllocError>
    ensures { IfOk result (λ hops. hops ≡ first ∷ second ∷ []) }
{
    let mut hops = Hops::one(first);
    hops.push(alloc, second)?;
    Ok(hops)
}

/// Two hops in their order, or one where they are the same.
fn two_in_order(alloc: Global, first: &Hop, second: &Hop) -> Result<Hops, AllocError>
    ensures { IfOk result (λ ordered. ordered ≡ in_order hop_cmp (first.now ∷ second.now ∷ [])) }
{
    match compare_hops(second, first) {
        Ordering::Less => pair(alloc, *second, *first),
        Ordering::Equal => Ok(Hops::one(*first)),
        Ordering::Greater => pair(alloc, *first, *second),
    }
}

/// Hops in their order, each once: two of them need no set.
fn sorted_hops(alloc: Global, hops: &[Hop]) -> Result<Hops, AllocError>
    ensures { IfOk result (λ ordered. ordered ≡ in_order hop_cmp hops.now) }
{
    match hops {
        [first, second] => two_in_order(alloc, first, second),
        _ => hops_by_set(alloc, hops),
    }
}

/// Whether hops are none, one, or two in their order. Of more it isn't told.
fn are_few_in_order(hops: &[Hop]) -> bool
    ensures { result ≡ true → spec.are_few_in_order hops.now ≡ true }
{
    match hops {
        [] => true,
        [_] => true,
        [first, second] => compare_hops(second, first).is_gt(),
        _ => false,
    }
}

/// Hops as they were found in their order, each once: most are one, or stand so already. It errs only where memory runs out.
#[tactic(auto, using(crate::proofs::HopOrderLaws::few_stay))]
pub fn put_in_order(alloc: Global, hops: Hops) -> Result<Hops, AllocError>
    ensures { IfOk result (λ ordered. ordered ≡ in_order hop_cmp hops) }
{
    if are_few_in_order(hops.as_slice()) {
        return Ok(hops);
    }
    sorted_hops(alloc, hops.as_slice())
}

/// Hops in their order, each once. It errs only where memory runs out.
///
/// Most ways have one hop, which is in order already.
pub fn hops_in_order(alloc: Global, hops: &[Hop]) -> Result<Hops, AllocError>
    ensures { IfOk result (λ ordered. ordered ≡ in_order hop_cmp hops.now) }
{
    match hops {
        [hop] => Ok(Hops::one(*hop)),
        _ => sorted_hops(alloc, hops),
    }
}
