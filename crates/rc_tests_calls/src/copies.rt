//! Routes and best paths that differ in one field, and copies of them.
ghost use Rattle.std.specs.Prelude.{◌≤◌};

use rc_as_path::AsPath;
use rc_base::{Addr, Communities, IfId, Items, Origin, Prefix, RouterId};
use rc_route::{
    Best, BgpPath, FurtherHops, Hop, Hops, KeptPath, PathSource, Route, SharedHops, Source,
};
use std::alloc::{AllocError, Global};
use std::test::Fail;

/// How many fields a route and a best path have together. Where the field of this number is changed, none is.
const FIELDS: usize = 19;

/// 2 at the field that is changed, else 1.
fn value_at(field: usize, changed: usize) -> u8
    ensures { result ≤ 2 }
{
    if field == changed { 2 } else { 1 }
}

fn prefix_at(field: usize, changed: usize) -> Result<Prefix, Fail> {
    let octet = u32::from(value_at(field, changed));
    Ok(Prefix::new(Addr::new(octet << 24), 8).ok_or("a prefix")?)
}

fn addr_at(field: usize, changed: usize) -> Addr {
    Addr::new(u32::from(value_at(field, changed)))
}

fn numbers_at(alloc: Global, field: usize, changed: usize) -> Result<Vec<u32>, AllocError> {
    Vec::from_slice(alloc, &[65_000, u32::from(value_at(field, changed))])
}

/// A route whose fields are all 1 but the one that is changed, from 0 to 4.
fn route_at(alloc: Global, changed: usize) -> Result<Route, Fail> {
    let device = IfId {
        router: RouterId::at(0),
        index: 1,
    };
    let prefix = prefix_at(0, changed)?;
    let mut hops = Hops::one(Hop::Dev(device));
    hops.push(alloc, Hop::Via(addr_at(4, changed), Some(device)))?;
    Ok(Route {
        prefix,
        source: if changed == 1 {
            Source::Ibgp
        } else {
            Source::Static
        },
        distance: value_at(2, changed),
        metric: u32::from(value_at(3, changed)),
        hops: SharedHops::of(alloc, hops)?,
    })
}

fn as_path_at(alloc: Global, changed: usize) -> Result<AsPath, AllocError> {
    let numbers = numbers_at(alloc, 11, changed)?;
    AsPath::empty().prepend_all(alloc, numbers.as_slice())
}

fn origin_at(changed: usize) -> Origin {
    if changed == 10 {
        Origin::Egp
    } else {
        Origin::Igp
    }
}

fn path_source_at(changed: usize) -> PathSource {
    if changed == 13 {
        PathSource::Internal
    } else {
        PathSource::External
    }
}

/// A path whose fields are all 1 but the one that is changed, from 5 to 17.
fn path_at(alloc: Global, changed: usize) -> Result<BgpPath, Fail> {
    let prefix = prefix_at(5, changed)?;
    let communities = Communities::of(numbers_at(alloc, 12, changed)?)?;
    let as_path = as_path_at(alloc, changed)?;
    Ok(BgpPath {
        prefix,
        next_hop: addr_at(6, changed),
        med: u32::from(value_at(7, changed)),
        local_preference: u32::from(value_at(8, changed)),
        weight: u32::from(value_at(9, changed)),
        sender_id: addr_at(15, changed),
        neighbor: addr_at(16, changed),
        igp_metric: u32::from(value_at(17, changed)),
        origin: origin_at(changed),
        source: path_source_at(changed),
        sender: RouterId::at(usize::from(value_at(14, changed))),
        communities,
        as_path,
    })
}

/// One address, which is 1 where it isn't changed.
fn further_at(alloc: Global, changed: usize) -> Result<FurtherHops, AllocError> {
    let mut addresses = Items::new(alloc);
    addresses.push(addr_at(18, changed))?;
    FurtherHops::of(alloc, addresses)
}

/// A best path whose fields are all 1 but the one that is changed, from 5 to 18.
fn best_at(alloc: Global, changed: usize) -> Result<Best, Fail> {
    let path = KeptPath::of(alloc, path_at(alloc, changed)?)?;
    let also = further_at(alloc, changed)?;
    Ok(Best { path, also })
}

/// Whether a copy of a route where a field is changed is equal to it, and to another one exactly where that field is none of a route.
fn is_route_copied(alloc: Global, like: &Route, changed: usize) -> Result<bool, Fail> {
    let route = route_at(alloc, changed)?;
    let copied = route.copy()?;
    Ok(copied == route && (copied == *like) == (changed > 4))
}

/// So it is with a best path.
fn is_best_copied(alloc: Global, like: &Best, changed: usize) -> Result<bool, Fail> {
    let best = best_at(alloc, changed)?;
    let copied = best.copy()?;
    Ok(copied.is_same(&best) && copied.is_same(like) == (changed < 5 || changed == FIELDS))
}

/// The fields 0 to 4 are those of the route.
#[test]
fn copies_of_routes_are_equal(rt: HostRuntime) -> Result<(), Fail> {
    let like = route_at(rt.alloc(), FIELDS)?;
    for changed in 0..=FIELDS {
        let is_copied = is_route_copied(rt.alloc(), &like, changed)?;
        assert!(rt; is_copied, "field {changed}");
    }
    Ok(())
}

/// The fields 5 to 18 are those of the best path.
#[test]
fn copies_of_best_paths_are_equal(rt: HostRuntime) -> Result<(), Fail> {
    let like = best_at(rt.alloc(), FIELDS)?;
    for changed in 0..=FIELDS {
        let is_copied = is_best_copied(rt.alloc(), &like, changed)?;
        assert!(rt; is_copied, "field {changed}");
    }
    Ok(())
}
