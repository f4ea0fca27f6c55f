//! The headers that loop.
ghost use Rattle.std.specs.Prelude.{◌≡◌, ◌<◌, ◌≤◌, All, length, IfOk, IfErr};
ghost use Rattle.std.specs.Set.{distinct_count};
ghost use Rattle.rc_bdd.specs.Work.{IsCause};
ghost use Rattle.rc_bdd.specs.declared.work.SetError.TheVariants.{Full};
ghost use Rattle.rc_moves.specs.Walks.{IsLooping};
ghost use Rattle.rc_reach.specs.Loops.{loop_nodes, looping};
ghost use Rattle.rc_config.specs.Lawful.{IsLawful, IsPosition};
ghost use Rattle.rc_edges.specs.Prepare.{edge_at};
ghost use Rattle.rc_fib.specs.Entries.{IsFib};
ghost use Rattle.rc_jobs.specs.Flows.{KnowsEdges};
ghost use Rattle.rc_spread.specs.Onward.{MayGoOn, onward, turned};
ghost use Rattle.rc_nodes.specs.Seats.{IsSeatOf, Keeps, SeatKnows};
ghost use Rattle.rc_spread.specs.Known.{KnowsShare};
ghost use Rattle.rc_reach.specs.Reaching.{IsSetOf};
ghost use Rattle.rc_topology.specs.Ports.{links_of};
ghost use Rattle.rc_trees.specs.Recipes.{tree};
ghost use Rattle.rc_trees.specs.Trees.{Tree, HasNodes, same_tree};

use crate::end_sets::no_ends;
use crate::going_on::GoingOn;
use rc_base::{Items, Pos};
use rc_bdd::{SetError, Work};
use rc_edges::prepare;
use rc_jobs::Flow;
use rc_moves::Plane;
use rc_nodes::{ALWAYS, May, Nodes, Ref, Seat};
use rc_outside::Gate;
use rc_places::Places;
use rc_spread::{all_rounds, flows_out};
use std::alloc::{AllocGlobal, Global};
use std::thread::Threads;

/// The headers that go on from each position for as many moves as there are positions.
fn goes_on<R: Threads + Sync, M: May + Send + Sync, G: Gate>(
    rt: &R,
    alloc: Global,
    plane: &Plane<'_>,
    nodes: &Nodes<M>,
    seat: Seat<M>,
    out: &[Items<Flow>],
    workers: u32,
    gate: &G,
) -> (Seat<M>, Result<Vec<Ref>, SetError>)
    requires seat { IsSeatOf nodes.now seat }
    requires edges { KnowsEdges seat out.now (turned (edge_at plane.now)) }
    requires may { MayGoOn nodes.now.may (edge_at plane.now) (length out.now) }
    requires positions { length out.now ≤ 131584 }
    requires some { 1 ≤ workers }
    requires most { workers ≤ 64 }
    ensures seat { IsSeatOf nodes.now result.0 }
    ensures keeps { Keeps seat result.0 }
    ensures made { IfOk result.1 (λ v. KnowsShare result.0 v.items (onward (edge_at plane.now) (length out.now) (length out.now)) 0 (length out.now)) }
    ensures cause { IfErr result.1 (IsCause nodes.now result.0) }
{
    let Ok(sets) = vec![in alloc; ALWAYS; out.len()] else {
        return (seat, Err(SetError::Memory));
    };
    let Ok(fresh) = vec![in alloc; true; out.len()] else {
        return (seat, Err(SetError::Memory));
    };
    let Ok(everywhere) = vec![in alloc; true; out.len()] else {
        return (seat, Err(SetError::Memory));
    };
    let going = GoingOn {
        plane,
        out,
        everywhere: everywhere.as_slice(),
    };
    let work = Work::new(alloc, seat);
    let (work, made) = all_rounds(rt, alloc, nodes, work, &going, sets, fresh, workers, gate);
    (work.into_seat(), made)
}

/// The set of the headers that loop, without a word on walks.
fn loops_within<R: Threads + Sync, M: May + Send + Sync, G: Gate>(
    rt: &R,
    alloc: Global,
    plane: &Plane<'_>,
    place: Pos,
    nodes: &Nodes<M>,
    seat: Seat<M>,
    workers: u32,
    gate: &G,
) -> (Seat<M>, Result<Ref, SetError>)
    requires lawful { IsLawful plane.now.network }
    requires links { plane.now.links ≡ links_of plane.now.network }
    requires fibs { All IsFib plane.now.fibs }
    requires place { IsPosition plane.now.network place }
    requires seat { IsSeatOf nodes.now seat }
    requires may { HasNodes nodes.now.may (loop_nodes plane.now) }
    requires some { 1 ≤ workers }
    requires most { workers ≤ 64 }
    ensures seat { IsSeatOf nodes.now result.0 }
    ensures keeps { Keeps seat result.0 }
    ensures set { IfOk result.1 (λ r. SeatKnows result.0 r.index (tree (looping plane.now place))) }
    ensures cause { IfErr result.1 (IsCause nodes.now result.0) }
{
    let Ok(places) = Places::of(alloc, plane.network()) else {
        return (seat, Err(SetError::Memory));
    };
    let number = places.number(&place);
    let (seat, prepared) = prepare(rt, alloc, nodes, seat, plane, &places, no_ends(), workers);
    let prepared = match prepared {
        Ok(prepared) => prepared,
        Err(error) => return (seat, Err(error)),
    };
    let Ok(out) = flows_out(alloc, prepared.into.as_slice()) else {
        return (seat, Err(SetError::Memory));
    };
    let (seat, sets) = goes_on(rt, alloc, plane, nodes, seat, out.as_slice(), workers, gate);
    match sets {
        Ok(sets) => (seat, Ok(sets[number])),
        Err(error) => (seat, Err(error)),
    }
}

/// The headers of which some walk from a place has at its last position one of its own positions among the moves: those that may go on
/// for ever.
///
/// The workers, from 1 to 64, make the edges first, and then each round; each passes the gate once in each round, and round 1 is phase
/// 100,001. It errs where memory runs out, and else where the table is full, which is so only where more different trees may be made than
/// it has slots.
pub fn loops<R: Threads + Sync + AllocGlobal, M: May + Send + Sync, G: Gate>(
    rt: &R,
    plane: &Plane<'_>,
    place: Pos,
    nodes: &Nodes<M>,
    seat: Seat<M>,
    workers: u32,
    gate: &G,
) -> (Seat<M>, Result<Ref, SetError>)
    requires lawful { IsLawful plane.now.network }
    requires links { plane.now.links ≡ links_of plane.now.network }
    requires place { IsPosition plane.now.network place }
    requires seat { IsSeatOf nodes.now seat }
    requires may { HasNodes nodes.now.may (loop_nodes plane.now) }
    requires some { 1 ≤ workers }
    requires most { workers ≤ 64 }
    ensures seat { IsSeatOf nodes.now result.0 }
    ensures keeps { Keeps seat result.0 }
    ensures set { IfOk result.1 (λ r. SeatKnows result.0 r.index (tree (looping plane.now place))) }
    ensures loops { IfOk result.1 (λ r. (t : Tree) → SeatKnows result.0 r.index t → IsSetOf (λ h. IsLooping plane.now h place) t) }
    ensures cause { IfErr result.1 (IsCause nodes.now result.0) }
    ensures full { IfErr result.1 (λ e. e ≡ Full → nodes.now.capacity < distinct_count same_tree nodes.now.may) }
{
    // Each of its tables is in order.
    let _fibs = plane.fibs();
    loops_within(rt, rt.alloc(), plane, place, nodes, seat, workers, gate)
}
