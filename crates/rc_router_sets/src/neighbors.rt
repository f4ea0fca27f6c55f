//! The interfaces onto which a packet may move.
ghost use Rattle.std.specs.Prelude.{◌≡◌, IfOk};
ghost use Rattle.rc_topology.specs.Links as links;

use rc_base::{Addr, IfId};
use rc_moves::Plane;
use std::alloc::{AllocError, Global};

/// The interfaces that share a link with one.
pub fn linked_of(
    alloc: Global,
    plane: &Plane<'_>,
    interface: &IfId,
) -> Result<Vec<IfId>, AllocError>
    ensures { IfOk result (λ linked. linked.items ≡ links.linked plane.now.links interface.now) }
{
    let mut linked = Vec::new(alloc);
    for other in plane.links().linked(*interface) {
        linked.push(other)?;
    }
    Ok(linked)
}

/// The takers of an address on a link of an interface.
pub fn takers_of(
    alloc: Global,
    plane: &Plane<'_>,
    interface: &IfId,
    addr: Addr,
) -> Result<Vec<IfId>, AllocError>
    ensures { IfOk result (λ takers. takers.items ≡ links.takers plane.now.links interface.now addr) }
{
    let mut takers = Vec::new(alloc);
    for other in plane.links().takers(*interface, addr) {
        takers.push(other)?;
    }
    Ok(takers)
}
