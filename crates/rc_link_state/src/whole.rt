//! Interfaces that stand together: by them all their routers are adjacent to one another.
ghost use Rattle.std.specs.Prelude.{◌≡◌, IfOk, length};
ghost use Rattle.rc_link_state.specs.Split as spec;
ghost use Rattle.rc_link_state.specs.Whole.{agree, is_whole};

use rc_base::Items;
use rc_config::NetworkType;
use rc_ospf_interfaces::OspfInterface;
use rc_topology::Links;
use std::alloc::{AllocError, Global};

/// So many that are whole have their steps listed: only more of them make a network.
const FEW: usize = 3;

/// Whether an interface takes neighbours, is on the prefix of its primary address and no loopback, and no cut names it.
pub(crate) fn is_whole(links: &Links, i: &OspfInterface) -> bool
    ensures { result ≡ is_whole links.now i.now }
{
    !i.is_passive && links.is_on(i.id, &i.prefix) && !links.is_cut_off(&i.id)
}

/// Whether prefix, area, stub flag of the area, network type and intervals are the same.
pub(crate) fn agree(i: &OspfInterface, j: &OspfInterface) -> bool
    ensures { result ≡ agree i.now j.now }
{
    i.prefix == j.prefix
        && i.area == j.area
        && i.is_stub == j.is_stub
        && i.network == j.network
        && i.hello == j.hello
        && i.dead == j.dead
}

/// How many are whole.
fn number_whole(links: &Links, members: &[OspfInterface]) -> usize
    ensures { result ≡ length (spec.whole_of links.now members.now) }
{
    let mut number = 0;
    for i in members {
        if is_whole(links, i) {
            number += 1;
        }
    }
    number
}

/// Whether more than three interfaces of a segment are whole: then a network stands for the steps between these.
///
/// Most segments have two, of which nothing is asked.
pub(crate) fn has_network(links: &Links, members: &[OspfInterface]) -> bool
    ensures { result ≡ spec.has_network links.now members.now }
{
    members.len() > FEW && number_whole(links, members) > FEW
}

/// Those that aren't whole.
pub(crate) fn rest_of(
    alloc: Global,
    links: &Links,
    members: &[OspfInterface],
) -> Result<Items<OspfInterface>, AllocError>
    ensures { IfOk result (λ made. made ≡ spec.rest_of links.now members.now) }
{
    // For the proof: that of a push wants each enum within the element named in the function.
    let _kind: Option<NetworkType> = None;
    let mut made = Items::new(alloc);
    for i in members {
        if !is_whole(links, i) {
            made.push(*i)?;
        }
    }
    Ok(made)
}
