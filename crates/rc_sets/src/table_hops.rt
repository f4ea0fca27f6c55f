//! The hops of a table.
ghost use Rattle.std.specs.Prelude.{◌≡◌, ◌∷◌, ◌++◌, [], IfOk, OnOk, flat_map};
ghost use Rattle.std.specs.BTreeSet.{keys, insert_key};
ghost use Rattle.std.specs.List.{fold};
ghost use Rattle.rc_fib.specs.declared.stretch.Stretch.{Stretch as Part};
ghost use Rattle.rc_route.specs.Hops.{hop_cmp};
ghost use Rattle.rc_sets.specs.Regions.{hops_in};

use rc_base::{IfId, Items};
use rc_fib::{Fib, Stretch};
use rc_route::Hop;
use std::alloc::{AllocError, Global};
use std::collections::BTreeSet;

/// Puts a hop into a set.
fn insert_hop(set: &mut BTreeSet<Hop>, hop: Hop) -> Result<(), AllocError>
    ensures { OnOk result (keys set.new ≡ insert_key hop_cmp (keys set.old) hop) }
{
    // For the proof: that of an insertion wants each enum within the element named in the function.
    let _interface: Option<IfId> = None;
    set.insert(hop)?;
    Ok(())
}

/// Puts hops into a set.
fn insert_hops(set: &mut BTreeSet<Hop>, hops: &[Hop]) -> Result<(), AllocError>
    ensures { OnOk result (keys set.new ≡ fold (insert_key hop_cmp) (keys set.old) hops.now) }
{
    for hop in hops {
        insert_hop(set, *hop)?;
    }
    Ok(())
}

/// Puts the hops of stretches into a set.
fn insert_stretches(set: &mut BTreeSet<Hop>, stretches: &[Stretch]) -> Result<(), AllocError>
    ensures { OnOk result (keys set.new ≡ fold (insert_key hop_cmp) (keys set.old) (flat_map (λ (s : Part). s.hops) stretches.now)) }
{
    for stretch in stretches {
        insert_hops(set, stretch.hops.as_slice())?;
    }
    Ok(())
}

/// Puts a hop at the end of a list.
fn push_hop(hops: &mut Items<Hop>, hop: Hop) -> Result<(), AllocError>
    ensures { OnOk result (hops.new ≡ hops.old ++ hop ∷ []) }
{
    // For the proof: that of a push wants each enum within the element named in the function.
    let _interface: Option<IfId> = None;
    hops.push(hop)
}

/// The hops of a set, in their order.
fn in_order(alloc: Global, set: BTreeSet<Hop>) -> Result<Items<Hop>, AllocError>
    ensures { IfOk result (λ hops. hops ≡ keys set) }
{
    let mut hops = Items::new(alloc);
    for hop in set {
        push_hop(&mut hops, hop)?;
    }
    Ok(hops)
}

/// The hops of a table, in their order, each once.
pub fn hops_in(alloc: Global, fib: &Fib) -> Result<Items<Hop>, AllocError>
    ensures { IfOk result (λ hops. hops ≡ hops_in fib.now) }
{
    let mut set = BTreeSet::new(alloc);
    insert_stretches(&mut set, fib.stretches())?;
    in_order(alloc, set)
}
