//! The least walks of a network.
ghost use Rattle.std.specs.Prelude.{◌≡◌, ◌==◌, ◌<◌, ◌≤◌, ◌^◌, false, [], ◌∷◌, Some, IfOk, IfSome, IfNone, All, find, map, slice_get};
ghost use Rattle.std.specs.List.{list_any};
ghost use Rattle.std.specs.List.Sorted.{IsStrictlySortedBy};
ghost use Rattle.std.specs.Option.{option_copied};
ghost use Rattle.std.specs.Ordering.{nat_cmp};
ghost use Rattle.rc_route.specs.Hops.{hop_cmp};
ghost use Rattle.rc_link_state.specs.Adjacency.{adjacencies, hop_of};
ghost use Rattle.rc_link_state.specs.Kept.{HasSmallCosts, area_of};
ghost use Rattle.rc_link_state.specs.Tables as spec;
ghost use Rattle.rc_link_state.specs.Tables.{AreWalksOf, AreWalksTo, IsFit};

use crate::areas::{Asked, areas_of, areas_of_ends};
use crate::by_router::ByRouter;
use crate::columns::Column;
use crate::split::split;
use crate::{End, Sole, Step, Transit};
use rc_base::{Items, RouterId};
use rc_ospf_interfaces::OspfInterface;
use rc_route::Hops;
use rc_topology::Links;
use std::alloc::{AllocError, Global};
use std::marker::Model;
use std::thread::Threads;

/// What is kept of the least walks inside an area.
pub struct AreaWalks {
    pub area: u32,
    /// The steps that no network stands for, by the router that they leave.
    pub steps: ByRouter<Step>,
    pub networks: Items<Transit>,
    /// The numbers of the networks that a router is attached to.
    pub attached: ByRouter<usize>,
    /// What is left on the way to each router.
    pub columns: Items<Column>,
}

/// By a function of its own, so that what holds them drops each by one call.
impl Drop for AreaWalks {
    fn drop(self) {
        let AreaWalks {
            area: _,
            steps: _,
            networks: _,
            attached: _,
            columns: _,
        } = self;
    }
}

/// The least walks inside the areas of a network, to all routers or to some.
///
/// Their costs are kept, and their first hops are found where they are asked for.
pub struct WalkTable {
    /// By rising area.
    areas: Items<AreaWalks>,
    /// The numbers of the areas, by which they are found.
    numbers: Items<u32>,
}

/// By a function of its own, so that what holds a table drops it by one call.
impl Drop for WalkTable {
    fn drop(self) {
        let WalkTable {
            areas: _,
            numbers: _,
        } = self;
    }
}

impl Model for WalkTable {
    ghost use Rattle.std.specs.Prelude.{List};
    ghost use Rattle.rc_link_state.specs.declared.table.AreaWalks.{AreaWalks};
    ghost use Rattle.rc_link_state.specs.Kept.{AreKept};

    ghost Value = { List AreaWalks };

    ghost view = { λ t. t.areas };

    ghost invariant = { λ t. AreKept t.areas t.numbers };
}

/// The numbers of areas.
fn numbers_of(alloc: Global, areas: &[AreaWalks]) -> Result<Items<u32>, AllocError>
    ensures { IfOk result (λ numbers. numbers ≡ map area_of areas.now) }
{
    let mut numbers = Items::with_room(alloc, areas.len())?;
    for walks in areas {
        numbers.push(walks.area)?;
    }
    Ok(numbers)
}

/// The place of a number in a list of one.
fn place_in_one(only: u32, number: u32) -> Option<usize>
    ensures found { IfSome result (λ place. (place ≡ 0) × (only ≡ number)) }
    ensures absent { IfNone result ((only == number) ≡ false) }
{
    if only == number { Some(0) } else { None }
}

/// The place of a number among some that rise, by bisection.
fn place_by_bisection(numbers: &[u32], number: u32) -> Option<usize>
    requires { IsStrictlySortedBy nat_cmp numbers.now }
    ensures found { IfSome result (λ place. slice_get numbers.now place ≡ Some number) }
    ensures absent { IfNone result (list_any (spec.is_number number) numbers.now ≡ false) }
{
    match numbers.binary_search(&number) {
        Ok(place) => Some(place),
        Err(_) => None,
    }
}

/// The place of a number among some that rise. Most networks have one area, which takes no bisection.
fn place_of(numbers: &[u32], number: u32) -> Option<usize>
    requires { IsStrictlySortedBy nat_cmp numbers.now }
    ensures found { IfSome result (λ place. slice_get numbers.now place ≡ Some number) }
    ensures absent { IfNone result (list_any (spec.is_number number) numbers.now ≡ false) }
{
    match numbers {
        [only] => place_in_one(*only, number),
        _ => place_by_bisection(numbers, number),
    }
}

impl WalkTable {
    /// The table of what is kept of areas, by rising area.
    fn of(alloc: Global, areas: Items<AreaWalks>) -> Result<WalkTable, AllocError>
        requires rise { IsStrictlySortedBy nat_cmp (map area_of areas) }
        requires small { All HasSmallCosts areas }
        ensures { IfOk result (λ t. t ≡ areas) }
    {
        let numbers = numbers_of(alloc, areas.as_slice())?;
        Ok(WalkTable { areas, numbers })
    }

    /// The least walks of so many routers, of which these are the OSPF interfaces, to all of them. The workers share the work. It errs
    /// only where memory runs out.
    pub fn to_all<R: Threads + Sync>(
        rt: &R,
        alloc: Global,
        routers: usize,
        links: &Links,
        interfaces: &[OspfInterface],
        workers: u32,
    ) -> Result<WalkTable, AllocError>
        requires few { routers ≤ 512 }
        requires fit { All (IsFit routers) interfaces.now }
        ensures { IfOk result (AreWalksOf (adjacencies links.now interfaces.now) routers) }
    {
        let split = split(alloc, links, interfaces)?;
        let listed = split.listed.as_slice();
        let transits = split.transits.as_slice();
        let areas = areas_of(alloc, listed, transits)?;
        let asked = Asked {
            routers,
            all: true,
            ends: &[],
        };
        let walks = asked.walks_in_all(rt, alloc, areas, listed, transits, workers)?;
        WalkTable::of(alloc, walks)
    }

    /// The same to some of them alone.
    pub fn to_ends<R: Threads + Sync>(
        rt: &R,
        alloc: Global,
        routers: usize,
        links: &Links,
        interfaces: &[OspfInterface],
        ends: &[End],
        workers: u32,
    ) -> Result<WalkTable, AllocError>
        requires few { routers ≤ 512 }
        requires fit { All (IsFit routers) interfaces.now }
        ensures { IfOk result (AreWalksTo (adjacencies links.now interfaces.now) routers ends.now) }
    {
        let split = split(alloc, links, interfaces)?;
        let listed = split.listed.as_slice();
        let transits = split.transits.as_slice();
        let areas = areas_of_ends(alloc, ends)?;
        let asked = Asked {
            routers,
            all: false,
            ends,
        };
        let walks = asked.walks_in_all(rt, alloc, areas, listed, transits, workers)?;
        WalkTable::of(alloc, walks)
    }

    /// What is kept of the area at a place.
    fn area_at(&self, place: usize) -> Option<&AreaWalks>
        ensures { option_copied result ≡ slice_get self.now place }
    {
        self.areas.as_slice().get(place)
    }

    /// What is kept of an area.
    fn found(&self, area: u32) -> Option<&AreaWalks>
        ensures value { option_copied result ≡ find (spec.is_of_area area) self.now }
        ensures small { IfSome result (λ walks. HasSmallCosts walks.now) }
    {
        let place = place_of(self.numbers.as_slice(), area);
        match place {
            Some(place) => self.area_at(place),
            None => None,
        }
    }

    /// The cost of the least walks from a router to another one inside an area, below 2^26, where there are any.
    pub fn cost(&self, from: RouterId, area: u32, to: RouterId) -> Option<u32>
        ensures value { result ≡ spec.cost_of (spec.reach_in self.now from area to) }
        ensures small { IfSome result (λ c. c < 2 ^ 26) }
    {
        if to == from {
            return Some(0);
        }
        let found = self.found(area);
        match found {
            Some(walks) => walks.cost_inside(from, to),
            None => None,
        }
    }

    /// The least walks from a router to another one inside an area, where it is quickly told that all of them leave by one step. Most
    /// do; of others, and of those over transit networks, nothing is told.
    pub fn sole(&self, from: RouterId, area: u32, to: RouterId) -> Option<Sole<'_>>
        ensures walks { IfSome result (λ sole. spec.reach_in self.now from area to ≡ Some (record { cost = sole.cost; hops = hop_of sole.step.now ∷ [] })) }
        ensures small { IfSome result (λ sole. sole.cost < 2 ^ 26) }
    {
        if to == from {
            return None;
        }
        let found = self.found(area);
        match found {
            Some(walks) => walks.sole_inside(from, to),
            None => None,
        }
    }

    /// The first hops of the least walks from a router to another one inside an area, in order; none where there are no walks. It errs
    /// only where memory runs out.
    pub fn hops(
        &self,
        alloc: Global,
        from: RouterId,
        area: u32,
        to: RouterId,
    ) -> Result<Hops, AllocError>
        ensures value { IfOk result (λ hops. hops ≡ spec.hops_of (spec.reach_in self.now from area to)) }
        ensures in_order { IfOk result (λ hops. IsStrictlySortedBy hop_cmp hops) }
    {
        if to == from {
            return Ok(Hops::none());
        }
        let found = self.found(area);
        match found {
            Some(walks) => walks.hops_inside(alloc, from, to),
            None => Ok(Hops::none()),
        }
    }
}
