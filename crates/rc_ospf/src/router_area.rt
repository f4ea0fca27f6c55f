//! The areas of a router (RFC 2328, section 3).
ghost use Rattle.std.specs.Prelude.{◌≡◌, ◌++◌, [], IfOk, OnOk, map, filter};
ghost use Rattle.std.specs.BTreeSet.{keys, insert_key};
ghost use Rattle.std.specs.List.{list_any};
ghost use Rattle.std.specs.Ordering.{nat_cmp};
ghost use Rattle.rc_base.specs.Lists.{in_order};
ghost use Rattle.rc_ospf.specs.RouterAreas as spec;

use crate::OspfInterface;
use rc_base::{Items, RouterId};
use rc_config::{Network, OspfProcess, RouterText};
use rc_ospf_interfaces::add_interfaces;
use std::alloc::{AllocError, Global};
use std::collections::BTreeSet;

/// An area of a router, as the router has it.
#[derive(Clone, Copy)]
pub struct RouterArea {
    pub area: u32,
    /// Whether it is a stub area there (RFC 2328, section 3.6).
    pub is_stub: bool,
    /// Whether the router, where it is a border router, sends no summary into it but the default route.
    pub no_summary: bool,
}

/// An area as a process has it.
fn router_area(process: &OspfProcess, area: u32) -> RouterArea
    ensures { result ≡ spec.router_area process.now area }
{
    let stub = process.stub_areas.get(area);
    match stub {
        Some(stub) => RouterArea {
            area,
            is_stub: true,
            no_summary: stub.no_summary,
        },
        None => RouterArea {
            area,
            is_stub: false,
            no_summary: false,
        },
    }
}

/// Puts an area into a set.
pub(crate) fn insert_area(areas: &mut BTreeSet<u32>, area: u32) -> Result<(), AllocError>
    ensures { OnOk result (keys areas.new ≡ insert_key nat_cmp (keys areas.old) area) }
{
    areas.insert(area)?;
    Ok(())
}

/// The areas of interfaces, as a set.
fn area_set(alloc: Global, interfaces: &[OspfInterface]) -> Result<BTreeSet<u32>, AllocError>
    ensures { IfOk result (λ areas. keys areas ≡ in_order nat_cmp (map spec.interface_area interfaces.now)) }
{
    let mut areas = BTreeSet::new(alloc);
    for interface in interfaces {
        insert_area(&mut areas, interface.area)?;
    }
    Ok(areas)
}

/// The areas of a router's interfaces.
fn areas_of(
    alloc: Global,
    process: &OspfProcess,
    interfaces: &[OspfInterface],
) -> Result<Items<RouterArea>, AllocError>
    ensures { IfOk result (λ areas. areas ≡ spec.areas_of process.now interfaces.now) }
{
    let set = area_set(alloc, interfaces)?;
    let mut areas = Items::new(alloc);
    for area in set {
        areas.push(router_area(process, area))?;
    }
    Ok(areas)
}

/// The areas of a router by its file.
fn areas_in_file(
    alloc: Global,
    router: RouterId,
    file: &RouterText,
) -> Result<Items<RouterArea>, AllocError>
    ensures { IfOk result (λ areas. areas ≡ spec.areas_in_file router file.now) }
{
    match &file.ospf {
        Some(process) => {
            let mut interfaces = Items::new(alloc);
            add_interfaces(&mut interfaces, router, file, process)?;
            areas_of(alloc, process, interfaces.as_slice())
        }
        None => Ok(Items::new(alloc)),
    }
}

/// The areas of a router: those of its OSPF interfaces, by rising area. It errs only where memory runs out.
pub(crate) fn router_areas(
    alloc: Global,
    net: &Network,
    router: RouterId,
) -> Result<Items<RouterArea>, AllocError>
    ensures { IfOk result (λ areas. areas ≡ spec.router_areas net.now router) }
{
    let found = net.router_at(router);
    match found {
        Some(file) => areas_in_file(alloc, router, file),
        None => Ok(Items::new(alloc)),
    }
}

/// The areas that aren't stub areas.
pub(crate) fn open_areas(
    alloc: Global,
    areas: &[RouterArea],
) -> Result<Items<RouterArea>, AllocError>
    ensures { IfOk result (λ left. left ≡ spec.open_areas areas.now) }
{
    let mut left = Items::new(alloc);
    for area in areas {
        if !area.is_stub {
            left.push(*area)?;
        }
    }
    Ok(left)
}

/// Whether an area is among some.
#[inline]
pub(crate) fn is_in(area: u32, areas: &[RouterArea]) -> bool
    ensures { result ≡ spec.is_in area areas.now }
{
    for own in areas {
        if own.area == area {
            return true;
        }
    }
    false
}

/// Whether some area is the backbone.
pub(crate) fn is_in_backbone(areas: &[RouterArea]) -> bool
    ensures { result ≡ spec.is_in 0 areas.now }
{
    is_in(0, areas)
}

/// Whether some area is another one than the backbone.
fn is_in_other(areas: &[RouterArea]) -> bool
    ensures { result ≡ list_any spec.is_outside areas.now }
{
    for area in areas {
        if area.area != 0 {
            return true;
        }
    }
    false
}

/// Whether a router of these areas is an area border router (RFC 2328, section 3.3).
pub(crate) fn is_border(areas: &[RouterArea]) -> bool
    ensures { result ≡ spec.is_border areas.now }
{
    is_in_backbone(areas) && is_in_other(areas)
}
