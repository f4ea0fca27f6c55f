//! Interfaces by segment: only interfaces of one segment that take neighbours can be adjacent.
ghost use Rattle.std.specs.Prelude.{◌≡◌, IfOk, OnOk};
ghost use Rattle.std.specs.BTreeMap.{IsOrdered};
ghost use Rattle.rc_link_state.specs.Grouping.{is_active, segment_cmp, with_interface, AreRows, IsPut};

use crate::segment::{Segment, segment_of};
use rc_base::Items;
use rc_config::NetworkType;
use rc_ospf_interfaces::OspfInterface;
use rc_topology::Links;
use std::alloc::{AllocError, Global};
use std::collections::BTreeMap;

/// The interfaces with one more.
fn add_interface(
    alloc: Global,
    known: Option<Items<OspfInterface>>,
    interface: &OspfInterface,
) -> Result<Items<OspfInterface>, AllocError>
    ensures { IfOk result (λ made. made ≡ with_interface known interface.now) }
{
    // For the proof: that of a push wants each enum within the element named in the function.
    let _kind: Option<NetworkType> = None;
    let mut made = match known {
        Some(made) => made,
        None => Items::new(alloc),
    };
    made.push(*interface)?;
    Ok(made)
}

/// Puts an interface under its segment. Until it stands there the segment has none.
fn put(
    alloc: Global,
    rows: &mut BTreeMap<Segment, Items<OspfInterface>>,
    interface: &OspfInterface,
) -> Result<(), AllocError>
    ensures put { OnOk result (IsPut rows.old interface.now rows.new) }
    ensures ordered { IsOrdered segment_cmp rows.new }
{
    let known = rows.insert(segment_of(interface), Items::new(alloc))?;
    let made = add_interface(alloc, known, interface)?;
    rows.insert(segment_of(interface), made)?;
    Ok(())
}

/// Whether an interface takes neighbours: it isn't passive, and no loopback.
fn is_active(links: &Links, interface: &OspfInterface) -> bool
    ensures { result ≡ is_active links.now interface.now }
{
    !interface.is_passive && !links.is_loopback(interface.id)
}

/// The interfaces that take neighbours, by segment. It errs only where memory runs out.
pub(crate) fn by_segment(
    alloc: Global,
    links: &Links,
    interfaces: &[OspfInterface],
) -> Result<BTreeMap<Segment, Items<OspfInterface>>, AllocError>
    ensures { IfOk result (λ rows. AreRows links.now interfaces.now rows) }
{
    let mut rows = BTreeMap::new(alloc);
    for interface in interfaces {
        if is_active(links, interface) {
            put(alloc, &mut rows, interface)?;
        }
    }
    Ok(rows)
}
