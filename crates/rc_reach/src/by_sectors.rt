//! The headers that reach an ending, by workers of whom each makes some sectors of them.
ghost use Rattle.std.specs.Prelude.{◌≡◌, ◌≤◌, true, length, IfErr, IfOk};
ghost use Rattle.std.specs.List.{list_any};
ghost use Rattle.rc_base.specs.Endings.{all_kinds};
ghost use Rattle.rc_base.specs.Positions.{is_among};
ghost use Rattle.rc_bdd.specs.Work.{IsCause};
ghost use Rattle.rc_config.specs.Lawful.{IsPosition};
ghost use Rattle.rc_config.specs.Members.{positions};
ghost use Rattle.rc_edges.specs.Prepare.{edge_at, stops_at};
ghost use Rattle.rc_jobs.specs.Flows.{IsPrepared};
ghost use Rattle.rc_nodes.specs.Seats.{IsSeatOf, Keeps, SeatKnows};
ghost use Rattle.rc_places.specs.Places.{number_of};
ghost use Rattle.rc_reach.specs.Sectored.{MayReachIn, answer_in};
ghost use Rattle.rc_router_sets.specs.Planes.{IsPlane};
ghost use Rattle.rc_router_sets.specs.Query.{query_nodes, reaching};
ghost use Rattle.rc_sectors.specs.Cuts.{AreCut};
ghost use Rattle.rc_spread.specs.Known.{KnowsShare};
ghost use Rattle.rc_trees.specs.Recipes.{tree};
ghost use Rattle.rc_trees.specs.Trees.{HasNodes};

use crate::result::flows_asked;
use crate::sectored::{Answers, BySectors};
use rc_base::{Ends, Items, Pos};
use rc_bdd::{SetError, Work};
use rc_jobs::{Bounds, Prepared, by_workers};
use rc_moves::Plane;
use rc_nodes::{May, Nodes, Ref, Seat};
use rc_outside::Gate;
use rc_sectors::whole;
use rc_spread::flows_out;
use std::alloc::Global;
use std::thread::Threads;

/// The phase of the gate before the first round of propagation.
const PHASE: u32 = 100_000;

/// Lets each worker pass the gate once in each round behind the first one: there is nothing left for them to do in these.
fn pass_later_rounds<G: Gate>(gate: &G, rounds: u32, workers: u32) {
    for round in 2..rounds.saturating_add(1) {
        for worker in 0..workers {
            gate.pass(PHASE.saturating_add(round), worker);
        }
    }
}

/// What is asked, in all sectors, by workers at once, each of whom passes the gate once in each round.
fn answers<R: Threads + Sync, M: May + Send + Sync, G: Gate>(
    rt: &R,
    alloc: Global,
    nodes: &Nodes<M>,
    seat: Seat<M>,
    asked: &BySectors<'_>,
    workers: u32,
    gate: &G,
) -> (Seat<M>, Result<Vec<Ref>, SetError>)
    requires seat { IsSeatOf nodes.now seat }
    requires ready { MayReachIn nodes.now seat asked.now }
    requires some { 1 ≤ workers }
    requires most { workers ≤ 64 }
    ensures seat { IsSeatOf nodes.now result.0 }
    ensures keeps { Keeps seat result.0 }
    ensures made { IfOk result.1 (λ sets. KnowsShare result.0 sets.items (answer_in asked.now) 0 (length asked.now.sectors)) }
    ensures cause { IfErr result.1 (IsCause nodes.now result.0) }
{
    let count = asked.sectors.len();
    let Ok(singly) = Bounds::even(alloc, count, count) else {
        return (seat, Err(SetError::Memory));
    };
    let (seat, _passed, made) = by_workers(
        rt,
        alloc,
        nodes,
        seat,
        asked,
        &singly,
        PHASE + 1,
        workers,
        gate,
    );
    match made {
        Ok(Answers { sets, rounds }) => {
            pass_later_rounds(gate, rounds, workers);
            (seat, Ok(sets))
        }
        Err(error) => (seat, Err(error)),
    }
}

/// The set that was made sector by sector, put together. Where a sector failed it makes nothing.
fn put_together<M: May>(
    alloc: Global,
    nodes: &Nodes<M>,
    seat: Seat<M>,
    asked: &BySectors<'_>,
    sets: Result<Vec<Ref>, SetError>,
) -> (Seat<M>, Result<Ref, SetError>)
    requires seat { IsSeatOf nodes.now seat }
    requires ready { MayReachIn nodes.now seat asked.now }
    requires cut { AreCut asked.now.sectors }
    requires sets { IfOk sets (λ v. KnowsShare seat v.items (answer_in asked.now) 0 (length asked.now.sectors)) }
    requires cause { IfErr sets (IsCause nodes.now seat) }
    ensures seat { IsSeatOf nodes.now result.0 }
    ensures keeps { Keeps seat result.0 }
    ensures set { IfOk result.1 (λ r. SeatKnows result.0 r.index (tree (reaching asked.now.plane asked.now.place asked.now.ends))) }
    ensures cause { IfErr result.1 (IsCause nodes.now result.0) }
{
    let sets = match sets {
        Ok(sets) => sets,
        Err(error) => return (seat, Err(error)),
    };
    let mut work = Work::new(alloc, seat);
    let made = whole(&mut work, nodes, asked.sectors, sets.as_slice());
    let seat = work.into_seat();
    match made {
        Ok(set) => (seat, Ok(set)),
        Err(_) => (seat, Err(SetError::Full)),
    }
}

/// The headers that reach, made sector by sector: each worker makes all rounds of the sectors that it takes, and none waits for another
/// one.
pub fn reach_by_sectors<R: Threads + Sync, M: May + Send + Sync, G: Gate>(
    rt: &R,
    alloc: Global,
    plane: &Plane<'_>,
    place: Pos,
    number: usize,
    ends: Ends,
    nodes: &Nodes<M>,
    seat: Seat<M>,
    prepared: &Prepared,
    sectors: &[Items<bool>],
    workers: u32,
    gate: &G,
) -> (Seat<M>, Result<Ref, SetError>)
    requires plane { IsPlane plane.now }
    requires place { IsPosition plane.now.network place }
    requires number { number ≡ number_of plane.now.network place }
    requires asking { list_any (is_among ends) all_kinds ≡ true }
    requires seat { IsSeatOf nodes.now seat }
    requires prepared { IsPrepared seat (edge_at plane.now) (stops_at plane.now ends) (length (positions plane.now.network)) prepared.now }
    requires may { HasNodes nodes.now.may (query_nodes plane.now place ends) }
    requires cut { AreCut sectors.now }
    requires some { 1 ≤ workers }
    requires most { workers ≤ 64 }
    ensures seat { IsSeatOf nodes.now result.0 }
    ensures keeps { Keeps seat result.0 }
    ensures set { IfOk result.1 (λ r. SeatKnows result.0 r.index (tree (reaching plane.now place ends))) }
    ensures cause { IfErr result.1 (IsCause nodes.now result.0) }
{
    let Ok(flows) = flows_asked(alloc, prepared.ends.as_slice(), ends) else {
        return (seat, Err(SetError::Memory));
    };
    let Ok(out) = flows_out(alloc, prepared.into.as_slice()) else {
        return (seat, Err(SetError::Memory));
    };
    let asked = BySectors {
        plane: &*plane,
        place,
        number,
        ends,
        into: prepared.into.as_slice(),
        out: out.as_slice(),
        flows: flows.as_slice(),
        sectors,
    };
    let (seat, sets) = answers(rt, alloc, nodes, seat, &asked, workers, gate);
    put_together(alloc, nodes, seat, &asked, sets)
}
