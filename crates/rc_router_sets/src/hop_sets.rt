//! The headers that a router sends over a hop.
ghost use Rattle.std.specs.Prelude.{◌≡◌, IfOk, IfErr, Some, slice_get};
ghost use Rattle.rc_bdd.specs.Work.{IsCause, MayCombine};
ghost use Rattle.rc_router_sets.specs.Made.{IsMade};
ghost use Rattle.rc_router_sets.specs.Sent as spec;
ghost use Rattle.rc_router_sets.specs.Steps.{operation, step_at};
ghost use Rattle.rc_nodes.specs.Seats.{IsSeatOf, Keeps, SeatKnows};
ghost use Rattle.rc_trees.specs.Recipes.{parts, tree};
ghost use Rattle.rc_trees.specs.Trees.{Tree, HasNodes};
ghost use Rattle.rc_moves.specs.Moves.{router_of};

use crate::groups::let_in_set;
use crate::hop_steps::Step;
use crate::router_sets::{RouterSets, owned_set, part_set};
use rc_base::{Pos, RouterId};
use rc_bdd::{SetError, Work};
use rc_moves::Plane;
use rc_nodes::{May, Nodes, Ref};
use rc_route::Hop;
use std::alloc::Global;

/// The router at a position.
pub fn router_at(position: &Pos) -> RouterId
    ensures { result ≡ router_of position.now }
{
    match position {
        Pos::Own(router) => *router,
        Pos::Entering(interface) => interface.router,
    }
}

/// A position of a plane.
#[derive(Drop)]
pub struct Site<'a> {
    pub plane: &'a Plane<'a>,
    pub position: Pos,
}

impl<'a> Site<'a> {
    /// The router at the position.
    pub fn router(&self) -> RouterId
        ensures { result ≡ router_of self.now.position }
    {
        router_at(&self.position)
    }
}

/// A hop of a router's table, and its place among them.
#[derive(Drop)]
pub struct HopAt {
    pub index: usize,
    pub hop: Hop,
}

/// The headers of both sets, or those of the first that aren't in the second.
fn operate<M: May>(
    work: &mut Work<M>,
    nodes: &Nodes<M>,
    takes_away: bool,
    left: Ref,
    right: Ref,
) -> Result<Ref, SetError>
    requires seat { IsSeatOf nodes.now work.old }
    requires may { MayCombine nodes.now work.old (operation takes_away) left.index right.index }
    ensures seat { IsSeatOf nodes.now work.new }
    ensures keeps { Keeps work.old work.new }
    ensures set { IfOk result (λ r. (s t : Tree) → SeatKnows work.old left.index s → SeatKnows work.old right.index t → SeatKnows work.new r.index (operation takes_away s t)) }
    ensures cause { IfErr result (IsCause nodes.now work.new) }
{
    if takes_away {
        return work.minus(nodes, left, right);
    }
    work.and(nodes, left, right)
}

/// What the router takes in and does not keep.
pub fn forwarded_set<M: May>(
    alloc: Global,
    work: &mut Work<M>,
    nodes: &Nodes<M>,
    site: &Site<'_>,
    made: &mut RouterSets,
) -> Result<Ref, SetError>
    requires made { IsMade nodes.now work.old site.now.plane.now site.now.position made.old }
    requires may { HasNodes nodes.now.may (parts (spec.forwarded site.now.plane.now site.now.position)) }
    ensures seat { IsSeatOf nodes.now work.new }
    ensures made { IfOk result (λ _. IsMade nodes.now work.new site.now.plane.now site.now.position made.new) }
    ensures keeps { Keeps work.old work.new }
    ensures set { IfOk result (λ r. SeatKnows work.new r.index (tree (spec.forwarded site.now.plane.now site.now.position))) }
    ensures cause { IfErr result (IsCause nodes.now work.new) }
{
    if let Some(set) = made.forwarded {
        return Ok(set);
    }
    let let_in = let_in_set(work, nodes, site.plane.network(), &site.position)?;
    let owned = owned_set(alloc, work, nodes, site, made)?;
    let set = work.minus(nodes, let_in, owned)?;
    made.forwarded = Some(set);
    Ok(set)
}

/// What a hop gives at a step: what it gives at the one before, with a part of the hop or without it.
pub fn step_set<M: May>(
    alloc: Global,
    work: &mut Work<M>,
    nodes: &Nodes<M>,
    site: &Site<'_>,
    made: &mut RouterSets,
    at: &HopAt,
    step: Step,
) -> Result<Ref, SetError>
    requires made { IsMade nodes.now work.old site.now.plane.now site.now.position made.old }
    requires at { slice_get (spec.hops_at site.now.plane.now site.now.position) at.now.index ≡ Some at.now.hop }
    requires may { HasNodes nodes.now.may (parts (step_at site.now.plane.now site.now.position step at.now.hop)) }
    ensures seat { IsSeatOf nodes.now work.new }
    ensures made { IfOk result (λ _. IsMade nodes.now work.new site.now.plane.now site.now.position made.new) }
    ensures keeps { Keeps work.old work.new }
    ensures set { IfOk result (λ r. SeatKnows work.new r.index (tree (step_at site.now.plane.now site.now.position step at.now.hop))) }
    ensures cause { IfErr result (IsCause nodes.now work.new) }
{
    if step.is_first() {
        return forwarded_set(alloc, work, nodes, site, made);
    }
    let first = step_set(alloc, work, nodes, site, made, at, step.earlier())?;
    let second = part_set(alloc, work, nodes, site, made, at, step.second())?;
    operate(work, nodes, step.takes_away(), first, second)
}
