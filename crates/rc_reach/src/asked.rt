//! What may be asked of a plane.
ghost use Rattle.std.specs.Prelude.{◌≡◌, ◌<◌, ◌≤◌, IfOk, IfErr};
ghost use Rattle.std.specs.Set.{distinct_count};
ghost use Rattle.rc_bdd.specs.Work.{IsCause};
ghost use Rattle.rc_bdd.specs.declared.work.SetError.TheVariants.{Full};
ghost use Rattle.rc_config.specs.Lawful.{IsLawful, IsPosition};
ghost use Rattle.rc_nodes.specs.Seats.{IsSeatOf, Keeps, SeatKnows};
ghost use Rattle.rc_reach.specs.Asked.{IsAskedSet, nodes_asked, place_of, set_asked};
ghost use Rattle.rc_topology.specs.Ports.{links_of};
ghost use Rattle.rc_trees.specs.Recipes.{tree};
ghost use Rattle.rc_trees.specs.Trees.{Tree, HasNodes, same_tree};

use crate::both_ways::uneven;
use crate::endless::loops;
use crate::reaching::reach;
use rc_base::{Ends, Pos};
use rc_bdd::SetError;
use rc_moves::Plane;
use rc_nodes::{May, Nodes, Ref, Seat};
use rc_outside::Gate;
use std::alloc::AllocGlobal;
use std::thread::Threads;

/// A question about the packets that start at a place.
#[derive(Clone, Copy)]
pub enum Asked {
    /// Which ones some walk brings to one of these endings.
    Reaching(Pos, Ends),
    /// Which ones some walk brings back to one of its own positions.
    Looping(Pos),
    /// Which ones arrive by some walk and fail by another one.
    Uneven(Pos),
}

/// The trees that the operations for a question make. No run computes them.
#[derive(Drop)]
pub struct AskedQuery<'a> {
    pub plane: &'a Plane<'a>,
    pub asked: Asked,
}

impl<'a> May for AskedQuery<'a> {
    ghost use Rattle.rc_reach.specs.Asked.{nodes_asked};

    ghost trees = { λ q. nodes_asked q.plane.now q.asked };
}

/// The set of the headers that a question is about, by workers at once, from 1 to 64. It errs where memory runs out, and else where the
/// table is full, which is so only where more different trees may be made than it has slots.
pub fn asked_set<R: Threads + Sync + AllocGlobal, M: May + Send + Sync, G: Gate>(
    rt: &R,
    plane: &Plane<'_>,
    asked: &Asked,
    nodes: &Nodes<M>,
    seat: Seat<M>,
    workers: u32,
    gate: &G,
) -> (Seat<M>, Result<Ref, SetError>)
    requires lawful { IsLawful plane.now.network }
    requires links { plane.now.links ≡ links_of plane.now.network }
    requires place { IsPosition plane.now.network (place_of asked.now) }
    requires seat { IsSeatOf nodes.now seat }
    requires may { HasNodes nodes.now.may (nodes_asked plane.now asked.now) }
    requires some { 1 ≤ workers }
    requires most { workers ≤ 64 }
    ensures seat { IsSeatOf nodes.now result.0 }
    ensures keeps { Keeps seat result.0 }
    ensures set { IfOk result.1 (λ r. SeatKnows result.0 r.index (tree (set_asked plane.now asked.now))) }
    ensures exact { IfOk result.1 (λ r. (t : Tree) → SeatKnows result.0 r.index t → IsAskedSet plane.now asked.now t) }
    ensures cause { IfErr result.1 (IsCause nodes.now result.0) }
    ensures full { IfErr result.1 (λ e. e ≡ Full → nodes.now.capacity < distinct_count same_tree nodes.now.may) }
{
    match asked {
        Asked::Reaching(place, ends) => reach(rt, plane, *place, *ends, nodes, seat, workers, gate),
        Asked::Looping(place) => loops(rt, plane, *place, nodes, seat, workers, gate),
        Asked::Uneven(place) => uneven(rt, plane, *place, nodes, seat, workers, gate),
    }
}
