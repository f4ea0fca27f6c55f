//! The headers that arrive by some walk and fail by another one.
ghost use Rattle.std.specs.Prelude.{◌≡◌, ◌<◌, ◌≤◌, length, IfOk, IfErr};
ghost use Rattle.std.specs.Set.{distinct_count};
ghost use Rattle.rc_bdd.specs.Work.{IsCause};
ghost use Rattle.rc_bdd.specs.declared.work.SetError.TheVariants.{Full};
ghost use Rattle.rc_config.specs.Lawful.{IsLawful, IsPosition};
ghost use Rattle.rc_config.specs.Members.{positions};
ghost use Rattle.rc_edges.specs.Prepare.{ends_at};
ghost use Rattle.rc_jobs.specs.Flows.{KnowsFlows, flows_of, real_endings};
ghost use Rattle.rc_base.specs.Positions.{is_among};
ghost use Rattle.rc_reach.specs.Uneven.{IsUneven, arrivals, failures, uneven, uneven_nodes};
ghost use Rattle.rc_nodes.specs.Seats.{IsSeatOf, Keeps, SeatKnows};
ghost use Rattle.rc_spread.specs.Known.{KnowsShare};
ghost use Rattle.rc_reach.specs.Reaching.{IsSetOf};
ghost use Rattle.rc_reach.specs.Rounds.{reached_at};
ghost use Rattle.rc_router_sets.specs.Planes.{IsPlane};
ghost use Rattle.rc_topology.specs.Ports.{links_of};
ghost use Rattle.rc_trees.specs.Recipes.{tree};
ghost use Rattle.rc_trees.specs.Trees.{Tree, HasNodes, same_tree};

use crate::coming::propagate;
use crate::end_sets::{all_ends, arrivals, failures};
use crate::result::reaching_set;
use rc_base::Pos;
use rc_bdd::{SetError, Work};
use rc_edges::prepare;
use rc_jobs::Ending;
use rc_moves::Plane;
use rc_nodes::{May, Nodes, Ref, Seat};
use rc_outside::Gate;
use rc_places::Places;
use std::alloc::{AllocGlobal, Global};
use std::thread::Threads;

/// Of what has come to each position that which has both kinds of endings. Where the rounds failed it makes nothing.
fn both_ended<M: May>(
    alloc: Global,
    work: &mut Work<M>,
    nodes: &Nodes<M>,
    plane: &Plane<'_>,
    place: &Pos,
    endings: &[Ending],
    sets: &[Ref],
) -> Result<Ref, SetError>
    requires plane { IsPlane plane.now }
    requires seat { IsSeatOf nodes.now work.old }
    requires arriving { KnowsFlows work.old (flows_of (is_among arrivals) endings.now) (real_endings (ends_at plane.now arrivals) (length (positions plane.now.network))) }
    requires failing { KnowsFlows work.old (flows_of (is_among failures) endings.now) (real_endings (ends_at plane.now failures) (length (positions plane.now.network))) }
    requires sets { KnowsShare work.old sets.now (reached_at plane.now place.now (length (positions plane.now.network))) 0 (length (positions plane.now.network)) }
    requires may { HasNodes nodes.now.may (uneven_nodes plane.now place.now) }
    ensures seat { IsSeatOf nodes.now work.new }
    ensures keeps { Keeps work.old work.new }
    ensures set { IfOk result (λ r. SeatKnows work.new r.index (tree (uneven plane.now place.now))) }
    ensures cause { IfErr result (IsCause nodes.now work.new) }
{
    let arrive = reaching_set(alloc, work, nodes, plane, place, arrivals(), endings, sets)?;
    let fail = reaching_set(alloc, work, nodes, plane, place, failures(), endings, sets)?;
    work.and(nodes, arrive, fail)
}

/// The set of the headers that go uneven ways, without a word on walks.
fn uneven_within<R: Threads + Sync, M: May + Send + Sync, G: Gate>(
    rt: &R,
    alloc: Global,
    plane: &Plane<'_>,
    place: Pos,
    nodes: &Nodes<M>,
    seat: Seat<M>,
    workers: u32,
    gate: &G,
) -> (Seat<M>, Result<Ref, SetError>)
    requires plane { IsPlane plane.now }
    requires place { IsPosition plane.now.network place }
    requires seat { IsSeatOf nodes.now seat }
    requires may { HasNodes nodes.now.may (uneven_nodes plane.now place) }
    requires some { 1 ≤ workers }
    requires most { workers ≤ 64 }
    ensures seat { IsSeatOf nodes.now result.0 }
    ensures keeps { Keeps seat result.0 }
    ensures set { IfOk result.1 (λ r. SeatKnows result.0 r.index (tree (uneven plane.now place))) }
    ensures cause { IfErr result.1 (IsCause nodes.now result.0) }
{
    let Ok(places) = Places::of(alloc, plane.network()) else {
        return (seat, Err(SetError::Memory));
    };
    let number = places.number(&place);
    let (seat, prepared) = prepare(rt, alloc, nodes, seat, plane, &places, all_ends(), workers);
    let prepared = match prepared {
        Ok(prepared) => prepared,
        Err(error) => return (seat, Err(error)),
    };
    let work = Work::new(alloc, seat);
    let (mut work, sets) = propagate(
        rt, alloc, plane, &place, number, nodes, work, &prepared, workers, gate,
    );
    let sets = match sets {
        Ok(sets) => sets,
        Err(error) => return (work.into_seat(), Err(error)),
    };
    let made = both_ended(
        alloc,
        &mut work,
        nodes,
        plane,
        &place,
        prepared.ends.as_slice(),
        sets.as_slice(),
    );
    (work.into_seat(), made)
}

/// The headers of which some walk from a place arrives, and some walk, the same or another, fails: it is accepted or delivered by the one, and
/// has one of the other six endings by the other.
///
/// The workers, from 1 to 64, make the edges and the endings first, and then each round of propagation; each passes the gate once in each
/// round, and round 1 is phase 100,001. It errs where memory runs out, and else where the table is full, which is so only where more
/// different trees may be made than it has slots.
pub fn uneven<R: Threads + Sync + AllocGlobal, M: May + Send + Sync, G: Gate>(
    rt: &R,
    plane: &Plane<'_>,
    place: Pos,
    nodes: &Nodes<M>,
    seat: Seat<M>,
    workers: u32,
    gate: &G,
) -> (Seat<M>, Result<Ref, SetError>)
    requires lawful { IsLawful plane.now.network }
    requires links { plane.now.links ≡ links_of plane.now.network }
    requires place { IsPosition plane.now.network place }
    requires seat { IsSeatOf nodes.now seat }
    requires may { HasNodes nodes.now.may (uneven_nodes plane.now place) }
    requires some { 1 ≤ workers }
    requires most { workers ≤ 64 }
    ensures seat { IsSeatOf nodes.now result.0 }
    ensures keeps { Keeps seat result.0 }
    ensures set { IfOk result.1 (λ r. SeatKnows result.0 r.index (tree (uneven plane.now place))) }
    ensures uneven { IfOk result.1 (λ r. (t : Tree) → SeatKnows result.0 r.index t → IsSetOf (λ h. IsUneven plane.now h place) t) }
    ensures cause { IfErr result.1 (IsCause nodes.now result.0) }
    ensures full { IfErr result.1 (λ e. e ≡ Full → nodes.now.capacity < distinct_count same_tree nodes.now.may) }
{
    // Each of its tables is in order.
    let _fibs = plane.fibs();
    uneven_within(rt, rt.alloc(), plane, place, nodes, seat, workers, gate)
}
