//! What is made once for a router.
ghost use Rattle.std.specs.Prelude.{◌≡◌, [], IfOk, IfErr, Some, length, replicate, slice_get, slice_set};
ghost use Rattle.rc_bdd.specs.Work.{IsCause};
ghost use Rattle.rc_router_sets.specs.HopParts as spec;
ghost use Rattle.rc_router_sets.specs.Made.{IsMade};
ghost use Rattle.rc_router_sets.specs.Sent.{hops_at, to_router};
ghost use Rattle.rc_router_sets.specs.Steps.{fixed, part_at};
ghost use Rattle.rc_nodes.specs.Seats.{IsSeatOf, Keeps, SeatKnows};
ghost use Rattle.rc_sets.specs.Regions.{hop_set, hops_in};
ghost use Rattle.rc_trees.specs.Recipes.{parts, tree};
ghost use Rattle.rc_trees.specs.Trees.{HasNodes};
ghost use Rattle.rc_moves.specs.Moves.{fib_of, router_of};

use crate::destinations::{router_set, subnets_set, taken_set};
use crate::groups::let_out_set;
use crate::hop_sets::{HopAt, Site};
use crate::hop_steps::{Part, device, is_everything};
use rc_base::{Items, RouterId};
use rc_bdd::{SetError, Work};
use rc_fib::Fib;
use rc_moves::Plane;
use rc_nodes::{ALWAYS, May, NEVER, Nodes, Ref};
use rc_route::Hop;
use rc_sets::{hop_set, hops_in};
use std::alloc::{AllocError, Global};

/// The parts of a hop that were made so far.
#[derive(Clone, Copy)]
pub struct HopParts {
    pub over: Option<Ref>,
    pub let_out: Option<Ref>,
    pub taken: Option<Ref>,
    pub subnets: Option<Ref>,
}

/// None of the parts.
fn no_parts() -> HopParts
    ensures { result ≡ spec.no_parts }
{
    HopParts {
        over: None,
        let_out: None,
        taken: None,
        subnets: None,
    }
}

impl HopParts {
    /// A part, where it is made.
    fn part(self, part: Part) -> Option<Ref>
        ensures { result ≡ spec.part_in self part }
    {
        match part {
            Part::Over => self.over,
            Part::LetOut => self.let_out,
            Part::Taken => self.taken,
            Part::Subnets => self.subnets,
        }
    }

    /// With a part that is made.
    fn with(mut self, part: Part, set: Ref) -> HopParts
        ensures { result ≡ spec.with_part self part set }
    {
        match part {
            Part::Over => self.over = Some(set),
            Part::LetOut => self.let_out = Some(set),
            Part::Taken => self.taken = Some(set),
            Part::Subnets => self.subnets = Some(set),
        }
        self
    }
}

/// What was made of a router's sets so far: they are the same wherever a packet enters it, and are made where they are first asked for.
pub struct RouterSets {
    /// The hops of its table, in their order.
    pub hops: Items<Hop>,
    /// For each hop its parts.
    pub parts: Vec<HopParts>,
    /// The headers to an own address.
    pub owned: Option<Ref>,
    /// Those that the router takes in at a position and does not keep.
    pub forwarded: Option<Ref>,
}

/// By a function of its own, so that what holds the sets drops them by one call.
impl Drop for RouterSets {
    fn drop(self) {
        let RouterSets {
            hops: _,
            parts: _,
            owned: _,
            forwarded: _,
        } = self;
    }
}

impl RouterSets {
    /// Nothing is made yet of a router with this table.
    pub fn of(alloc: Global, fib: &Fib) -> Result<RouterSets, AllocError>
        ensures hops { IfOk result (λ made. made.hops ≡ hops_in fib.now) }
        ensures nothing { IfOk result (λ made. (made.parts.items ≡ replicate (length made.hops) spec.no_parts) × (made.owned ≡ None) × (made.forwarded ≡ None)) }
    {
        let hops = hops_in(alloc, fib)?;
        let parts = vec![in alloc; no_parts(); hops.len()]?;
        Ok(RouterSets {
            hops,
            parts,
            owned: None,
            forwarded: None,
        })
    }

    /// Nothing is made yet of a router without a table: there are no hops. It takes no memory.
    pub fn without_table(alloc: Global) -> RouterSets
        ensures hops { result.hops ≡ [] }
        ensures nothing { (result.parts.items ≡ []) × (result.owned ≡ None) × (result.forwarded ≡ None) }
    {
        RouterSets {
            hops: Items::new(alloc),
            parts: Vec::new(alloc),
            owned: None,
            forwarded: None,
        }
    }
}

/// The headers to an own address of the router.
pub fn owned_set<M: May>(
    alloc: Global,
    work: &mut Work<M>,
    nodes: &Nodes<M>,
    site: &Site<'_>,
    made: &mut RouterSets,
) -> Result<Ref, SetError>
    requires made { IsMade nodes.now work.old site.now.plane.now site.now.position made.old }
    requires may { HasNodes nodes.now.may (parts (to_router site.now.plane.now (router_of site.now.position))) }
    ensures seat { IsSeatOf nodes.now work.new }
    ensures made { IfOk result (λ _. IsMade nodes.now work.new site.now.plane.now site.now.position made.new) }
    ensures keeps { Keeps work.old work.new }
    ensures set { IfOk result (λ r. SeatKnows work.new r.index (tree (to_router site.now.plane.now (router_of site.now.position)))) }
    ensures cause { IfErr result (IsCause nodes.now work.new) }
{
    if let Some(set) = made.owned {
        return Ok(set);
    }
    let set = router_set(alloc, work, nodes, site)?;
    made.owned = Some(set);
    Ok(set)
}

/// The headers that a router's table sends over a hop.
pub fn over_set<M: May>(
    alloc: Global,
    work: &mut Work<M>,
    nodes: &Nodes<M>,
    plane: &Plane<'_>,
    router: RouterId,
    hop: &Hop,
) -> Result<Ref, SetError>
    requires seat { IsSeatOf nodes.now work.old }
    requires may { HasNodes nodes.now.may (parts (hop_set (fib_of plane.now router) hop.now)) }
    ensures seat { IsSeatOf nodes.now work.new }
    ensures keeps { Keeps work.old work.new }
    ensures set { IfOk result (λ r. SeatKnows work.new r.index (tree (hop_set (fib_of plane.now router) hop.now))) }
    ensures cause { IfErr result (IsCause nodes.now work.new) }
{
    let Some(fib) = plane.fib(router) else {
        return Ok(NEVER);
    };
    hop_set(alloc, work, nodes, fib, hop)
}

/// A part of a router's hop.
fn new_part<M: May>(
    alloc: Global,
    work: &mut Work<M>,
    nodes: &Nodes<M>,
    plane: &Plane<'_>,
    router: RouterId,
    hop: &Hop,
    part: Part,
) -> Result<Ref, SetError>
    requires seat { IsSeatOf nodes.now work.old }
    requires may { HasNodes nodes.now.may (parts (fixed plane.now router part hop.now)) }
    ensures seat { IsSeatOf nodes.now work.new }
    ensures keeps { Keeps work.old work.new }
    ensures set { IfOk result (λ r. SeatKnows work.new r.index (tree (fixed plane.now router part hop.now))) }
    ensures cause { IfErr result (IsCause nodes.now work.new) }
{
    let interface = device(hop);
    match part {
        Part::Over => over_set(alloc, work, nodes, plane, router, hop),
        Part::LetOut => let_out_set(work, nodes, plane.network(), &interface),
        Part::Taken => taken_set(alloc, work, nodes, plane, &interface),
        Part::Subnets => subnets_set(alloc, work, nodes, plane, &interface),
    }
}

/// The parts of an index, none where there is no such hop.
fn parts_at(all: &[HopParts], index: usize) -> HopParts
    ensures { result ≡ spec.parts_of all.now index }
{
    let found = all.get(index);
    match found {
        Some(parts) => *parts,
        None => no_parts(),
    }
}

/// Notes a part that is made.
fn note(all: &mut Vec<HopParts>, index: usize, part: Part, set: Ref)
    ensures { all.new.items ≡ slice_set all.old.items index (spec.with_part (spec.parts_of all.old.items index) part set) }
{
    let parts = parts_at(all.as_slice(), index).with(part, set);
    if index < all.len() {
        all[index] = parts;
    }
}

/// A part of a hop at a position, made where it is first asked for.
pub fn part_set<M: May>(
    alloc: Global,
    work: &mut Work<M>,
    nodes: &Nodes<M>,
    site: &Site<'_>,
    made: &mut RouterSets,
    at: &HopAt,
    part: Part,
) -> Result<Ref, SetError>
    requires made { IsMade nodes.now work.old site.now.plane.now site.now.position made.old }
    requires at { slice_get (hops_at site.now.plane.now site.now.position) at.now.index ≡ Some at.now.hop }
    requires may { HasNodes nodes.now.may (parts (part_at site.now.plane.now site.now.position part at.now.hop)) }
    ensures seat { IsSeatOf nodes.now work.new }
    ensures made { IfOk result (λ _. IsMade nodes.now work.new site.now.plane.now site.now.position made.new) }
    ensures keeps { Keeps work.old work.new }
    ensures set { IfOk result (λ r. SeatKnows work.new r.index (tree (part_at site.now.plane.now site.now.position part at.now.hop))) }
    ensures cause { IfErr result (IsCause nodes.now work.new) }
{
    if is_everything(part, &site.position) {
        return Ok(ALWAYS);
    }
    if let Some(set) = parts_at(made.parts.as_slice(), at.index).part(part) {
        return Ok(set);
    }
    let set = new_part(alloc, work, nodes, site.plane, site.router(), &at.hop, part)?;
    note(&mut made.parts, at.index, part, set);
    Ok(set)
}
