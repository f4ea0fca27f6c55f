//! Which steps are listed, and which networks stand for the others.
ghost use Rattle.std.specs.Prelude.{◌≡◌, IfOk};
ghost use Rattle.std.specs.List.{flat_map};
ghost use Rattle.rc_link_state.specs.Split as spec;
ghost use Rattle.rc_link_state.specs.Whole.{AreSplit};

use crate::by_segment::by_segment;
use crate::parts::{Split, add_part};
use crate::segment::Segment;
use rc_base::Items;
use rc_ospf_interfaces::OspfInterface;
use rc_topology::Links;
use std::alloc::{AllocError, Global};
use std::collections::BTreeMap;

/// What stands for the steps between the interfaces of each segment, one segment after another.
fn split_rows(
    alloc: Global,
    links: &Links,
    rows: BTreeMap<Segment, Items<OspfInterface>>,
) -> Result<Split, AllocError>
    ensures listed { IfOk result (λ s. s.listed ≡ flat_map (spec.listed_row links.now) rows.entries) }
    ensures transits { IfOk result (λ s. s.transits ≡ flat_map (spec.networks_row links.now) rows.entries) }
{
    let mut made = Split {
        listed: Items::new(alloc),
        transits: Items::new(alloc),
    };
    for (segment, members) in rows {
        add_part(&mut made, alloc, links, segment.area, members.as_slice())?;
    }
    Ok(made)
}

/// The steps between some interfaces as they are listed, and the transit networks that stand for the others. It errs only where memory
/// runs out.
pub(crate) fn split(
    alloc: Global,
    links: &Links,
    interfaces: &[OspfInterface],
) -> Result<Split, AllocError>
    ensures { IfOk result (λ s. AreSplit links.now interfaces.now s.listed s.transits) }
{
    let rows = by_segment(alloc, links, interfaces)?;
    split_rows(alloc, links, rows)
}
