//! Steps between routers that are adjacent.
ghost use Rattle.std.specs.Prelude.{◌≡◌};
ghost use Rattle.rc_link_state.specs.Adjacency as spec;
ghost use Rattle.rc_link_state.specs.Listing.{is_neighbour};

use crate::whole::agree;
use rc_base::{Addr, IfId, RouterId};
use rc_ospf_interfaces::OspfInterface;
use rc_topology::Links;

/// A step from a router to an adjacent one in an area.
#[derive(Clone, Copy)]
pub struct Step {
    pub area: u32,
    /// The interface by which it leaves.
    pub out: IfId,
    /// The router at which it arrives.
    pub to: RouterId,
    /// The cost of the interface by which it leaves.
    pub cost: u32,
    /// The neighbour's primary address there.
    pub gateway: Addr,
}

/// Whether two interfaces agree, take neighbours, and share a link.
fn is_neighbour(links: &Links, i: &OspfInterface, j: &OspfInterface) -> bool
    ensures { result ≡ is_neighbour links.now i.now j.now }
{
    agree(i, j) && !i.is_passive && !j.is_passive && links.are_linked(i.id, j.id)
}

/// Whether two routers become adjacent over two interfaces (RFC 2328, section 10.5). What is soon told is asked first.
pub(crate) fn is_adjacent(links: &Links, i: &OspfInterface, j: &OspfInterface) -> bool
    ensures { result ≡ spec.is_adjacent links.now i.now j.now }
{
    is_neighbour(links, i, j)
}

/// The step over two interfaces.
pub(crate) fn step_over(i: &OspfInterface, j: &OspfInterface) -> Step
    ensures { result ≡ spec.step_over i.now j.now }
{
    Step {
        area: i.area,
        out: i.id,
        to: j.id.router,
        cost: u32::from(i.cost),
        gateway: j.addr,
    }
}
