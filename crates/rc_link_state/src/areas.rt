//! The areas of a network, and what is kept of each.
ghost use Rattle.std.specs.Prelude.{◌≡◌, ◌≤◌, ◌++◌, map, IfOk, OnOk, vec_len};
ghost use Rattle.std.specs.List.{fold};
ghost use Rattle.std.specs.BTreeSet.{keys, insert_key};
ghost use Rattle.std.specs.Ordering.{nat_cmp};
ghost use Rattle.rc_base.specs.Lists.{in_order};
ghost use Rattle.rc_link_state.specs.Asked.{AreAsked, IsAskedArea, AreAreas};
ghost use Rattle.rc_link_state.specs.Asked as spec;
ghost use Rattle.rc_link_state.specs.Graph.{AreOf, CostLittle};

use crate::area::{area_walks, wanted_of};
use crate::table::AreaWalks;
use crate::{End, Step, Transit};
use rc_base::Items;
use std::alloc::{AllocError, Global};
use std::collections::BTreeSet;
use std::thread::Threads;

/// Columns of so many routers, or fewer, are left to one worker: to start a thread takes longer.
const FEW: usize = 63;

/// To which routers the least walks are wanted.
#[derive(Clone, Copy)]
pub(crate) struct Asked<'a> {
    /// How many routers there are.
    pub routers: usize,
    /// To all of them, in each area.
    pub all: bool,
    /// Else to these.
    pub ends: &'a [End],
}

/// Puts an area into a set.
fn insert_area(areas: &mut BTreeSet<u32>, area: u32) -> Result<(), AllocError>
    ensures { OnOk result (keys areas.new ≡ insert_key nat_cmp (keys areas.old) area) }
{
    areas.insert(area)?;
    Ok(())
}

/// Puts the areas of steps into a set.
fn insert_step_areas(areas: &mut BTreeSet<u32>, steps: &[Step]) -> Result<(), AllocError>
    ensures { OnOk result (keys areas.new ≡ fold (insert_key nat_cmp) (keys areas.old) (map spec.step_area steps.now)) }
{
    for step in steps {
        insert_area(areas, step.area)?;
    }
    Ok(())
}

/// Puts the areas of networks into a set.
fn insert_network_areas(areas: &mut BTreeSet<u32>, networks: &[Transit]) -> Result<(), AllocError>
    ensures { OnOk result (keys areas.new ≡ fold (insert_key nat_cmp) (keys areas.old) (map spec.network_area networks.now)) }
{
    for network in networks {
        insert_area(areas, network.area)?;
    }
    Ok(())
}

/// The areas of steps and networks. It errs only where memory runs out.
pub(crate) fn areas_of(
    alloc: Global,
    listed: &[Step],
    transits: &[Transit],
) -> Result<BTreeSet<u32>, AllocError>
    ensures { IfOk result (λ areas. keys areas ≡ in_order nat_cmp (spec.areas_in listed.now transits.now)) }
{
    let mut areas = BTreeSet::new(alloc);
    insert_step_areas(&mut areas, listed)?;
    insert_network_areas(&mut areas, transits)?;
    Ok(areas)
}

/// The areas of ends. It errs only where memory runs out.
pub(crate) fn areas_of_ends(alloc: Global, ends: &[End]) -> Result<BTreeSet<u32>, AllocError>
    ensures { IfOk result (λ areas. keys areas ≡ in_order nat_cmp (map spec.end_area ends.now)) }
{
    let mut areas = BTreeSet::new(alloc);
    for end in ends {
        insert_area(&mut areas, end.area)?;
    }
    Ok(areas)
}

impl<'a> Asked<'a> {
    /// Columns of so many routers, or fewer, are left to one worker.
    fn few(&self) -> usize {
        if !self.all && self.ends.len() <= FEW {
            usize::MAX
        } else {
            FEW
        }
    }

    /// By router, whether it is wanted in an area.
    fn wanted_in(&self, alloc: Global, area: u32) -> Result<Vec<bool>, AllocError>
        ensures len { IfOk result (λ wanted. vec_len wanted ≡ self.now.routers) }
        ensures is { IfOk result (λ wanted. AreAsked self.now.all self.now.ends.now area wanted.items) }
    {
        if self.all {
            return vec![in alloc; true; self.routers];
        }
        wanted_of(alloc, self.routers, area, self.ends)
    }

    /// What is kept of an area.
    fn walks_in<R: Threads + Sync>(
        &self,
        rt: &R,
        alloc: Global,
        area: u32,
        listed: &[Step],
        transits: &[Transit],
        workers: u32,
    ) -> Result<AreaWalks, AllocError>
        requires few { self.now.routers ≤ 512 }
        requires of { AreOf self.now.routers listed.now transits.now }
        requires little { CostLittle listed.now transits.now }
        ensures area { IfOk result (λ w. w.area ≡ area) }
        ensures is { IfOk result (IsAskedArea self.now.routers listed.now transits.now self.now.all self.now.ends.now) }
    {
        let wanted = self.wanted_in(alloc, area)?;
        area_walks(
            rt,
            alloc,
            area,
            listed,
            transits,
            wanted,
            self.few(),
            workers,
        )
    }

    /// What is kept of each of some areas, by rising area. The workers share the work. It errs only where memory runs out.
    pub(crate) fn walks_in_all<R: Threads + Sync>(
        &self,
        rt: &R,
        alloc: Global,
        areas: BTreeSet<u32>,
        listed: &[Step],
        transits: &[Transit],
        workers: u32,
    ) -> Result<Items<AreaWalks>, AllocError>
        requires few { self.now.routers ≤ 512 }
        requires of { AreOf self.now.routers listed.now transits.now }
        requires little { CostLittle listed.now transits.now }
        ensures { IfOk result (AreAreas self.now.routers listed.now transits.now self.now.all self.now.ends.now (keys areas)) }
    {
        let mut walks = Items::new(alloc);
        for area in areas {
            walks.push(self.walks_in(rt, alloc, area, listed, transits, workers)?)?;
        }
        Ok(walks)
    }
}
