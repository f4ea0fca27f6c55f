//! The headers that reach an ending.
ghost use Rattle.std.specs.Prelude.{◌≡◌, ◌<◌, ◌≤◌, true, length, IfOk, IfErr};
ghost use Rattle.std.specs.List.{list_any};
ghost use Rattle.std.specs.Set.{distinct_count};
ghost use Rattle.rc_base.specs.Positions.{is_among};
ghost use Rattle.rc_bdd.specs.Work.{IsCause};
ghost use Rattle.rc_bdd.specs.declared.work.SetError.TheVariants.{Full};
ghost use Rattle.rc_config.specs.Lawful.{IsLawful, IsPosition};
ghost use Rattle.rc_config.specs.Members.{positions};
ghost use Rattle.rc_base.specs.Endings.{all_kinds};
ghost use Rattle.rc_edges.specs.Prepare.{edge_at, stops_at};
ghost use Rattle.rc_router_sets.specs.Planes.{IsPlane};
ghost use Rattle.rc_router_sets.specs.Query.{query_nodes, reaching};
ghost use Rattle.rc_sectors.specs.Cuts.{AreCut};
ghost use Rattle.rc_jobs.specs.Flows.{IsPrepared};
ghost use Rattle.rc_nodes.specs.Seats.{IsSeatOf, Keeps, SeatKnows};
ghost use Rattle.rc_places.specs.Places.{number_of};
ghost use Rattle.rc_reach.specs.Reaching.{IsReachingSet};
ghost use Rattle.rc_topology.specs.Ports.{links_of};
ghost use Rattle.rc_trees.specs.Recipes.{tree};
ghost use Rattle.rc_trees.specs.Trees.{Tree, HasNodes, same_tree};

use crate::by_sectors::reach_by_sectors;
use crate::coming::propagate;
use crate::result::ended;
use rc_base::{Ends, Items, Pos, Prefix};
use rc_bdd::{SetError, Work};
use rc_edges::prepare;
use rc_fib::Fib;
use rc_jobs::Prepared;
use rc_moves::Plane;
use rc_nodes::{May, NEVER, Nodes, Ref, Seat};
use rc_outside::Gate;
use rc_places::Places;
use rc_sectors::cut_of;
use std::alloc::{AllocError, AllocGlobal, Global};
use std::thread::Threads;

/// How many sectors with routes a worker is to have, about.
const SECTORS_A_WORKER: usize = 2;

/// A sector with so few prefixes isn't cut.
const FEW_PREFIXES: usize = 64;

/// Whether some ending is asked for.
fn is_asking(ends: &Ends) -> bool
    ensures { result ≡ list_any (is_among ends.now) all_kinds }
{
    ends.denied_in
        || ends.accepted
        || ends.no_route
        || ends.null_routed
        || ends.denied_out
        || ends.unreachable
        || ends.exits
        || ends.delivered
}

/// The headers that reach, made of all at once: the workers share the positions in each round.
fn reach_at_once<R: Threads + Sync, M: May + Send + Sync, G: Gate>(
    rt: &R,
    alloc: Global,
    plane: &Plane<'_>,
    place: Pos,
    number: usize,
    ends: Ends,
    nodes: &Nodes<M>,
    seat: Seat<M>,
    prepared: &Prepared,
    workers: u32,
    gate: &G,
) -> (Seat<M>, Result<Ref, SetError>)
    requires plane { IsPlane plane.now }
    requires place { IsPosition plane.now.network place }
    requires number { number ≡ number_of plane.now.network place }
    requires asking { list_any (is_among ends) all_kinds ≡ true }
    requires seat { IsSeatOf nodes.now seat }
    requires prepared { IsPrepared seat (edge_at plane.now) (stops_at plane.now ends) (length (positions plane.now.network)) prepared.now }
    requires may { HasNodes nodes.now.may (query_nodes plane.now place ends) }
    requires some { 1 ≤ workers }
    requires most { workers ≤ 64 }
    ensures seat { IsSeatOf nodes.now result.0 }
    ensures keeps { Keeps seat result.0 }
    ensures set { IfOk result.1 (λ r. SeatKnows result.0 r.index (tree (reaching plane.now place ends))) }
    ensures cause { IfErr result.1 (IsCause nodes.now result.0) }
{
    let work = Work::new(alloc, seat);
    let (mut work, sets) = propagate(
        rt, alloc, plane, &place, number, nodes, work, prepared, workers, gate,
    );
    let made = ended(alloc, &mut work, nodes, plane, &place, ends, prepared, sets);
    (work.into_seat(), made)
}

/// Whether so many sectors are made one by one: where there are some for each of several workers, and where one makes all.
fn is_by_sectors(sectors: usize, workers: u32) -> bool {
    workers == 1 || sectors > 1
}

/// All headers cut into sectors for so many workers, who then need not wait for each other: about as many with routes by the largest table as
/// have work for each, and the others with little in them.
fn cut_for(alloc: Global, plane: &Plane<'_>, workers: u32) -> Result<Items<Items<bool>>, AllocError>
    ensures { IfOk result AreCut }
{
    let prefixes = most_prefixes(plane.fibs());
    if workers < 2 {
        return cut_of(alloc, prefixes, prefixes.len());
    }
    let few = prefixes.len() / (SECTORS_A_WORKER * workers as usize);
    cut_of(alloc, prefixes, few.max(FEW_PREFIXES))
}

/// The prefixes of the table that has the most.
fn most_prefixes(fibs: &[Fib]) -> &[Prefix] {
    let mut most: &[Prefix] = &[];
    for fib in fibs {
        if most.len() < fib.len() {
            most = fib.prefixes();
        }
    }
    most
}

/// The headers that reach, by the edges and endings that were prepared, from the place of a number. Where these failed it makes nothing.
fn reach_prepared<R: Threads + Sync, M: May + Send + Sync, G: Gate>(
    rt: &R,
    alloc: Global,
    plane: &Plane<'_>,
    place: Pos,
    number: usize,
    ends: Ends,
    nodes: &Nodes<M>,
    seat: Seat<M>,
    prepared: Result<Prepared, SetError>,
    workers: u32,
    gate: &G,
) -> (Seat<M>, Result<Ref, SetError>)
    requires plane { IsPlane plane.now }
    requires place { IsPosition plane.now.network place }
    requires number { number ≡ number_of plane.now.network place }
    requires asking { list_any (is_among ends) all_kinds ≡ true }
    requires seat { IsSeatOf nodes.now seat }
    requires prepared { IfOk prepared (IsPrepared seat (edge_at plane.now) (stops_at plane.now ends) (length (positions plane.now.network))) }
    requires cause { IfErr prepared (IsCause nodes.now seat) }
    requires may { HasNodes nodes.now.may (query_nodes plane.now place ends) }
    requires some { 1 ≤ workers }
    requires most { workers ≤ 64 }
    ensures seat { IsSeatOf nodes.now result.0 }
    ensures keeps { Keeps seat result.0 }
    ensures set { IfOk result.1 (λ r. SeatKnows result.0 r.index (tree (reaching plane.now place ends))) }
    ensures cause { IfErr result.1 (IsCause nodes.now result.0) }
    ensures failed { IfErr prepared (λ e. result.1 ≡ Err e) }
{
    let prepared = match prepared {
        Ok(prepared) => prepared,
        Err(error) => return (seat, Err(error)),
    };
    let Ok(cut) = cut_for(alloc, plane, workers) else {
        return (seat, Err(SetError::Memory));
    };
    let sectors = cut.as_slice();
    if is_by_sectors(sectors.len(), workers) {
        return reach_by_sectors(
            rt, alloc, plane, place, number, ends, nodes, seat, &prepared, sectors, workers, gate,
        );
    }
    reach_at_once(
        rt, alloc, plane, place, number, ends, nodes, seat, &prepared, workers, gate,
    )
}

/// The headers that some loop-free walk brings from a place to one of the endings asked for: the walks are those of rc_walk.
///
/// The workers, from 1 to 64, make the edges and the endings first, and then the rounds of propagation: each of these together, or each
/// worker all rounds of some sectors of the headers, where there are enough prefixes. Each passes the gate once in each round, and round 1
/// is phase 100,001. It errs where memory runs out, and else where the table is full, which is so only where more
/// different trees may be made than it has slots.
pub fn reach<R: Threads + Sync + AllocGlobal, M: May + Send + Sync, G: Gate>(
    rt: &R,
    plane: &Plane<'_>,
    place: Pos,
    ends: Ends,
    nodes: &Nodes<M>,
    seat: Seat<M>,
    workers: u32,
    gate: &G,
) -> (Seat<M>, Result<Ref, SetError>)
    requires lawful { IsLawful plane.now.network }
    requires links { plane.now.links ≡ links_of plane.now.network }
    requires place { IsPosition plane.now.network place }
    requires seat { IsSeatOf nodes.now seat }
    requires may { HasNodes nodes.now.may (query_nodes plane.now place ends) }
    requires some { 1 ≤ workers }
    requires most { workers ≤ 64 }
    ensures seat { IsSeatOf nodes.now result.0 }
    ensures keeps { Keeps seat result.0 }
    ensures set { IfOk result.1 (λ r. SeatKnows result.0 r.index (tree (reaching plane.now place ends))) }
    ensures reaches { IfOk result.1 (λ r. (t : Tree) → SeatKnows result.0 r.index t → IsReachingSet plane.now place ends t) }
    ensures cause { IfErr result.1 (IsCause nodes.now result.0) }
    ensures full { IfErr result.1 (λ e. e ≡ Full → nodes.now.capacity < distinct_count same_tree nodes.now.may) }
{
    // Each of its tables is in order.
    let _fibs = plane.fibs();
    if !is_asking(&ends) {
        return (seat, Ok(NEVER));
    }
    let alloc = rt.alloc();
    let Ok(places) = Places::of(alloc, plane.network()) else {
        return (seat, Err(SetError::Memory));
    };
    let number = places.number(&place);
    let (seat, prepared) = prepare(rt, alloc, nodes, seat, plane, &places, ends, workers);
    reach_prepared(
        rt, alloc, plane, place, number, ends, nodes, seat, prepared, workers, gate,
    )
}
