//! What is kept of an area.
ghost use Rattle.std.specs.Prelude.{◌≡◌, ◌<◌, ◌≤◌, All, IfOk, OnOk, length, vec_len};
ghost use Rattle.std.specs.List.{list_any};
ghost use Rattle.rc_link_state.specs.Areas as spec;
ghost use Rattle.rc_link_state.specs.Areas.{AreAttachedTo, IsArea, HasEnds};
ghost use Rattle.rc_link_state.specs.ByRouter.{AreByRouter};
ghost use Rattle.rc_link_state.specs.Graph.{AreOf, CostLittle, steps_in, transits_in};

use crate::by_router::ByRouter;
use crate::columns::{columns_of, turned_round};
use crate::table::AreaWalks;
use crate::{Attached, End, Step, Transit};
use rc_base::{Items, RouterId};
use std::alloc::{AllocError, Global};
use std::thread::Threads;

/// The steps of an area.
fn steps_of(alloc: Global, area: u32, listed: &[Step]) -> Result<Items<Step>, AllocError>
    ensures { IfOk result (λ steps. steps ≡ steps_in area listed.now) }
{
    let mut steps = Items::new(alloc);
    for step in listed {
        if step.area == area {
            steps.push(*step)?;
        }
    }
    Ok(steps)
}

/// Steps by the router that they leave.
fn by_start(alloc: Global, routers: usize, steps: &[Step]) -> Result<ByRouter<Step>, AllocError>
    requires { All (spec.IsLeavingOne routers) steps.now }
    ensures { IfOk result (AreByRouter spec.start_of routers steps.now) }
{
    let mut by_start = ByRouter::of_none(alloc, routers)?;
    for step in steps {
        by_start.put(step.out.router, *step)?;
    }
    Ok(by_start)
}

/// A network again, in memory of its own.
fn copied(alloc: Global, network: &Transit) -> Result<Transit, AllocError>
    ensures { IfOk result (λ t. t ≡ network.now) }
{
    let attached = network.attached.copy(alloc)?;
    Ok(Transit {
        area: network.area,
        attached,
    })
}

/// The networks of an area.
fn networks_of(alloc: Global, area: u32, transits: &[Transit]) -> Result<Items<Transit>, AllocError>
    ensures { IfOk result (λ networks. networks ≡ transits_in area transits.now) }
{
    let mut networks = Items::new(alloc);
    for network in transits {
        if network.area == area {
            networks.push(copied(alloc, network)?)?;
        }
    }
    Ok(networks)
}

/// Whether a router is one of those that are attached.
fn is_attached(attached: &[Attached], router: RouterId) -> bool
    ensures { result ≡ list_any (spec.is_of router) attached.now }
{
    for interface in attached {
        if interface.out.router == router {
            return true;
        }
    }
    false
}

/// The numbers of the networks that a router is attached to.
fn attached_to(
    alloc: Global,
    networks: &[Transit],
    router: RouterId,
) -> Result<Items<usize>, AllocError>
    ensures { IfOk result (λ numbers. numbers ≡ spec.attached_to router 0 networks.now) }
{
    let mut numbers = Items::new(alloc);
    for (number, network) in networks.iter().enumerate() {
        if is_attached(network.attached.as_slice(), router) {
            numbers.push(number)?;
        }
    }
    Ok(numbers)
}

/// The numbers of the networks that each router is attached to.
fn attachments(
    alloc: Global,
    routers: usize,
    networks: &[Transit],
) -> Result<ByRouter<usize>, AllocError>
    ensures { IfOk result (AreAttachedTo routers networks.now) }
{
    let mut lists = Vec::with_capacity(alloc, routers)?;
    for router in 0..routers {
        lists.push(attached_to(alloc, networks, RouterId::at(router))?)?;
    }
    Ok(ByRouter::of_lists(lists))
}

/// Notes that an end is wanted, where it is in the area and one of the routers.
fn want(wanted: &mut Vec<bool>, area: u32, end: &End)
    ensures { wanted.new.items ≡ spec.with_end area wanted.old.items end.now }
{
    if end.area == area && end.router.index() < wanted.len() {
        wanted[end.router.index()] = true;
    }
}

/// By router, whether it is an end in the area.
pub(crate) fn wanted_of(
    alloc: Global,
    routers: usize,
    area: u32,
    ends: &[End],
) -> Result<Vec<bool>, AllocError>
    ensures len { IfOk result (λ wanted. vec_len wanted ≡ routers) }
    ensures ends { IfOk result (λ wanted. HasEnds area ends.now wanted.items) }
{
    let mut wanted = vec![in alloc; false; routers]?;
    for end in ends {
        want(&mut wanted, area, end);
    }
    Ok(wanted)
}

/// What is kept of an area, of which these routers are wanted. The workers share the work. It errs only where memory runs out.
pub(crate) fn area_walks<R: Threads + Sync>(
    rt: &R,
    alloc: Global,
    area: u32,
    listed: &[Step],
    transits: &[Transit],
    wanted: Vec<bool>,
    few: usize,
    workers: u32,
) -> Result<AreaWalks, AllocError>
    requires few { vec_len wanted ≤ 512 }
    requires of { AreOf (vec_len wanted) listed.now transits.now }
    requires little { CostLittle listed.now transits.now }
    ensures area { IfOk result (λ w. w.area ≡ area) }
    ensures is { IfOk result (IsArea (vec_len wanted) listed.now transits.now wanted.items) }
{
    let routers = wanted.len();
    let own = steps_of(alloc, area, listed)?;
    let networks = networks_of(alloc, area, transits)?;
    let steps = by_start(alloc, routers, own.as_slice())?;
    let attached = attachments(alloc, routers, networks.as_slice())?;
    let inward = turned_round(
        alloc,
        routers,
        own.as_slice(),
        networks.as_slice(),
        wanted,
        few,
    )?;
    let columns = columns_of(rt, alloc, &inward, workers)?;
    Ok(AreaWalks {
        area,
        steps,
        networks,
        attached,
        columns,
    })
}
