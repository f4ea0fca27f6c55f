//! The hops of a router: of steps that lead on, and over a transit network.
ghost use Rattle.std.specs.Prelude.{◌≡◌, ◌++◌, map, filter, IfOk, OnOk};
ghost use Rattle.std.specs.List.{filter_map, flat_map};
ghost use Rattle.rc_link_state.specs.Adjacency.{hop_of};
ghost use Rattle.rc_link_state.specs.Columns.{cost_at};
ghost use Rattle.rc_link_state.specs.HopsBy as spec;

use crate::costs::Costs;
use crate::{Attached, Step};
use rc_base::{Items, RouterId};
use rc_route::{Hop, Hops};
use std::alloc::{AllocError, Global};

/// The hop of a step: the neighbour's primary address, over the interface by which the step leaves.
pub fn hop_of(step: &Step) -> Hop
    ensures { result ≡ hop_of step.now }
{
    Hop::Via(step.gateway, Some(step.out))
}

/// Whether a step leads on at the cost: where it arrives is left what it leaves of it.
pub(crate) fn leads_on(costs: &Costs, cost: u32, step: &Step) -> bool
    ensures { result ≡ spec.leads_on (cost_at costs.now) cost step.now }
{
    let left = costs.at(step.to.index());
    match left {
        Some(left) => step.cost <= cost && left == cost - step.cost,
        None => false,
    }
}

/// Puts the hops of those of some steps that lead on at the end. It errs only where memory runs out.
pub(crate) fn add_hops_on(
    hops: &mut Hops,
    alloc: Global,
    costs: &Costs,
    cost: u32,
    steps: &[Step],
) -> Result<(), AllocError>
    ensures { OnOk result (hops.new ≡ hops.old ++ filter_map (spec.hop_on (cost_at costs.now) cost) steps.now) }
{
    for step in steps {
        if leads_on(costs, cost, step) {
            hops.push(alloc, hop_of(step))?;
        }
    }
    Ok(())
}

/// Whether so much is left at a router.
fn has_left(costs: &Costs, left: u32, router: RouterId) -> bool
    ensures { result ≡ spec.has_left (cost_at costs.now) left router }
{
    costs.is_at(router.index(), left)
}

/// Whether a router leaves by an interface, of which so much is to be left for so much in all.
fn leaves_by(router: RouterId, left: u32, cost: u32, source: &Attached) -> bool
    ensures { result ≡ spec.leaves_by router left cost source.now }
{
    source.out.router == router && source.cost <= cost && left == cost - source.cost
}

/// Those of some interfaces by which a router leaves.
fn sources_of(
    alloc: Global,
    router: RouterId,
    left: u32,
    cost: u32,
    attached: &[Attached],
) -> Result<Items<Attached>, AllocError>
    ensures { IfOk result (λ found. found ≡ filter (spec.leaves_by router left cost) attached.now) }
{
    let mut found = Items::new(alloc);
    for source in attached {
        if leaves_by(router, left, cost, source) {
            found.push(*source)?;
        }
    }
    Ok(found)
}

/// Those of the routers where so much is left.
fn targets_of(
    alloc: Global,
    costs: &Costs,
    left: u32,
    attached: &[Attached],
) -> Result<Items<Attached>, AllocError>
    ensures { IfOk result (λ found. found ≡ filter (spec.arrives_at (cost_at costs.now) left) attached.now) }
{
    let mut found = Items::new(alloc);
    for target in attached {
        if has_left(costs, left, target.out.router) {
            found.push(*target)?;
        }
    }
    Ok(found)
}

/// Puts the hops from an interface to others at the end.
fn add_hops_between(
    hops: &mut Hops,
    alloc: Global,
    source: &Attached,
    targets: &[Attached],
) -> Result<(), AllocError>
    ensures { OnOk result (hops.new ≡ hops.old ++ map (spec.hop_between source.now) targets.now) }
{
    for target in targets {
        hops.push(alloc, Hop::Via(target.gateway, Some(source.out)))?;
    }
    Ok(())
}

/// Puts the hops from some interfaces to others at the end.
fn add_hops_across(
    hops: &mut Hops,
    alloc: Global,
    sources: &[Attached],
    targets: &[Attached],
) -> Result<(), AllocError>
    ensures { OnOk result (hops.new ≡ hops.old ++ flat_map (λ i. map (spec.hop_between i) targets.now) sources.now) }
{
    for source in sources {
        add_hops_between(hops, alloc, source, targets)?;
    }
    Ok(())
}

/// Puts the hops of a router over a network at the end, of which so much is left. It errs only where memory runs out.
///
/// Most networks don't lead on: then no list is made.
pub(crate) fn add_hops_from(
    hops: &mut Hops,
    alloc: Global,
    router: RouterId,
    costs: &Costs,
    cost: u32,
    attached: &[Attached],
    left: u32,
) -> Result<(), AllocError>
    ensures { OnOk result (hops.new ≡ hops.old ++ spec.hops_from router (cost_at costs.now) cost attached.now left) }
{
    let sources = sources_of(alloc, router, left, cost, attached)?;
    if sources.is_empty() {
        return Ok(());
    }
    let targets = targets_of(alloc, costs, left, attached)?;
    add_hops_across(hops, alloc, sources.as_slice(), targets.as_slice())
}
