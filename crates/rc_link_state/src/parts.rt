//! What stands for the steps between the interfaces of one segment: a network for those between whole ones, and the others are listed.
ghost use Rattle.std.specs.Prelude.{◌≡◌, ◌++◌, [], ◌∷◌, IfOk, OnOk, filter, map};
ghost use Rattle.std.specs.List.{flat_map};
ghost use Rattle.rc_link_state.specs.Adjacency.{is_adjacent, step_over};
ghost use Rattle.rc_link_state.specs.Split as spec;
ghost use Rattle.rc_link_state.specs.Whole.{attached_of};

use crate::step::{is_adjacent, step_over};
use crate::whole::{has_network, is_whole, rest_of};
use crate::{Attached, Step, Transit};
use rc_base::Items;
use rc_ospf_interfaces::OspfInterface;
use rc_topology::Links;
use std::alloc::{AllocError, Global};

/// The steps of a network that no transit network stands for, and the transit networks that stand for the others.
pub(crate) struct Split {
    pub listed: Items<Step>,
    pub transits: Items<Transit>,
}

/// By a function of its own, so that what holds them drops both by one call.
impl Drop for Split {
    fn drop(self) {
        let Split {
            listed: _,
            transits: _,
        } = self;
    }
}

/// An interface as it is attached to a network.
fn attached_of(interface: &OspfInterface) -> Attached
    ensures { result ≡ attached_of interface.now }
{
    Attached {
        out: interface.id,
        cost: u32::from(interface.cost),
        gateway: interface.addr,
    }
}

/// Those that are whole, as they are attached to their network.
fn attached_whole(
    alloc: Global,
    links: &Links,
    members: &[OspfInterface],
) -> Result<Items<Attached>, AllocError>
    ensures { IfOk result (λ attached. attached ≡ map attached_of (spec.whole_of links.now members.now)) }
{
    let mut attached = Items::new(alloc);
    for interface in members {
        if is_whole(links, interface) {
            attached.push(attached_of(interface))?;
        }
    }
    Ok(attached)
}

/// Puts the network of those that are whole at the end.
fn add_network(
    transits: &mut Items<Transit>,
    alloc: Global,
    links: &Links,
    area: u32,
    members: &[OspfInterface],
) -> Result<(), AllocError>
    ensures { OnOk result (transits.new ≡ transits.old ++ spec.network_of links.now area members.now ∷ []) }
{
    let attached = attached_whole(alloc, links, members)?;
    transits.push(Transit { area, attached })
}

/// Puts the steps from an interface to those among some that it is adjacent to at the end.
fn add_steps(
    listed: &mut Items<Step>,
    links: &Links,
    i: &OspfInterface,
    others: &[OspfInterface],
) -> Result<(), AllocError>
    ensures { OnOk result (listed.new ≡ listed.old ++ map (step_over i.now) (filter (is_adjacent links.now i.now) others.now)) }
{
    for j in others {
        if is_adjacent(links, i, j) {
            listed.push(step_over(i, j))?;
        }
    }
    Ok(())
}

/// Puts the listed steps from an interface at the end. Where a network stands for those between whole ones, from a whole one only the
/// rest is looked at: so of a network of thousands no pair is.
fn add_listed_from(
    listed: &mut Items<Step>,
    links: &Links,
    has_network: bool,
    members: &[OspfInterface],
    rest: &[OspfInterface],
    i: &OspfInterface,
) -> Result<(), AllocError>
    ensures { OnOk result (listed.new ≡ listed.old ++ spec.steps_from links.now has_network members.now rest.now i.now) }
{
    if has_network && is_whole(links, i) {
        return add_steps(listed, links, i, rest);
    }
    add_steps(listed, links, i, members)
}

/// Puts the listed steps between the interfaces of a segment at the end.
fn add_listed(
    listed: &mut Items<Step>,
    links: &Links,
    has_network: bool,
    members: &[OspfInterface],
    rest: &[OspfInterface],
) -> Result<(), AllocError>
    ensures { OnOk result (listed.new ≡ listed.old ++ flat_map (spec.steps_from links.now has_network members.now rest.now) members.now) }
{
    for i in members {
        add_listed_from(listed, links, has_network, members, rest, i)?;
    }
    Ok(())
}

/// Puts what stands for the steps between the interfaces of a segment of an area at the end. It errs only where memory runs out.
///
/// Without a network it takes no memory but for the steps.
pub(crate) fn add_part(
    split: &mut Split,
    alloc: Global,
    links: &Links,
    area: u32,
    members: &[OspfInterface],
) -> Result<(), AllocError>
    ensures listed { OnOk result (split.new.listed ≡ split.old.listed ++ spec.listed_in links.now members.now) }
    ensures transits { OnOk result (split.new.transits ≡ split.old.transits ++ spec.networks_in links.now area members.now) }
{
    if !has_network(links, members) {
        return add_listed(&mut split.listed, links, false, members, &[]);
    }
    let rest = rest_of(alloc, links, members)?;
    add_network(&mut split.transits, alloc, links, area, members)?;
    add_listed(&mut split.listed, links, true, members, rest.as_slice())
}
