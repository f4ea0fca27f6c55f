//! The packets that a question is about are found, and written as cubes.
//!
//! The table of nodes, the set and the walks of its examples are all made before the first line is put, and a cube takes no memory: so an
//! answer is written whole, or it lacks something and nothing is.
ghost use Rattle.std.specs.Prelude.{◌≡◌, ◌++◌, ◌<◌, option_to_list, IfOk, IfErr, IfSome, length};
ghost use Rattle.rc_config.specs.Lawful.{IsLawful, IsPosition};
ghost use Rattle.rc_moves.specs.Moves.{plane_with, route_count};
ghost use Rattle.rc_nodes.specs.Seats.{IsKnown, IsSeatOf, Keeps, SeatKnows};
ghost use Rattle.rc_outside.specs.Causes.{Rose};
ghost use Rattle.rc_reach.specs.FirstTry.{IsFirstRoom};
ghost use Rattle.rc_reach.specs.Asked.{IsAskedSet, place_of};
ghost use Rattle.rc_reach.specs.Held.{HoldsAsked, IsFullAtMost};
ghost use Rattle.rc_reach.specs.Uneven.{arrivals, failures};
ghost use Rattle.rc_route.specs.Tables.{IsStateOf};
ghost use Rattle.rc_topology.specs.Ports.{links_of};
ghost use Rattle.rc_trees.specs.Trees.{Tree};
ghost use Rattle.rc_words.specs.Request.{AreInRange};
ghost use Rattle.rc_answers.specs.Written.{AreExamplesOf, AreShortest, AreShortestBack, AreWalksOf, IsPutAtFixed, IsPutOver, examples_in, lacking_of};

use crate::{Detail, PacketSet, Subject};
use rc_base::{Ends, Header, Items, Pos};
use rc_bdd::SetError;
use rc_config::Network;
use rc_cubes::Cubes;
use rc_moves::{Plane, Tables, Walk};
use rc_nodes::{May, Nodes, Ref, Seat};
use rc_outside::{Gate, Sink};
use rc_reach::{Asked, AskedSet, arrivals, asked_in_table, failures, first_room};
use rc_report::{CubeLines, RoutesLine, Then};
use rc_route::{RoundsEnd, State};
use rc_topology::Links;
use rc_walk::{looping, shortest};
use rc_words::Request;
use rc_writing::{Status, write_ended};
use std::alloc::{AllocError, AllocGlobal, Global};
use std::mem::forget;
use std::thread::Threads;

/// What stands where packets are asked about at a fixed point.
#[derive(Clone, Copy)]
pub(crate) struct AtFixed<'a> {
    pub request: &'a Request,
    /// The network in the state of the fixed point.
    pub plane: &'a Plane<'a>,
    /// How the rounds ended.
    pub end: RoundsEnd,
    /// How many routes the tables of all routers have.
    pub routes: u64,
}

/// Walks, and behind them the one that was found, if one was.
fn with_found(walks: Items<Walk>, found: Option<Walk>) -> Result<Items<Walk>, AllocError>
    ensures { IfOk result (λ all. all ≡ walks ++ option_to_list found) }
{
    let Some(walk) = found else {
        return Ok(walks);
    };
    let mut walks = walks;
    walks.push(walk)?;
    Ok(walks)
}

/// The walk that was found, if one was.
fn found_alone(alloc: Global, found: Option<Walk>) -> Result<Items<Walk>, AllocError>
    ensures { IfOk result (λ walks. walks ≡ option_to_list found) }
{
    with_found(Items::new(alloc), found)
}

/// The shortest walk to one of some endings, if there is one.
fn shortest_walks(
    alloc: Global,
    plane: &Plane<'_>,
    place: &Pos,
    ends: &Ends,
    header: &Header,
) -> Result<Items<Walk>, AllocError>
    ensures { IfOk result (AreShortest plane.now place.now ends.now header.now) }
{
    let found = shortest(alloc, plane, *place, header, *ends)?;
    found_alone(alloc, found)
}

/// The shortest walk that comes back, if there is one.
fn walks_back(
    alloc: Global,
    plane: &Plane<'_>,
    place: &Pos,
    header: &Header,
) -> Result<Items<Walk>, AllocError>
    ensures { IfOk result (AreShortestBack plane.now place.now header.now) }
{
    let found = looping(alloc, plane, *place, header)?;
    found_alone(alloc, found)
}

/// The shortest walk that arrives, and the shortest one that fails.
fn uneven_walks(
    alloc: Global,
    plane: &Plane<'_>,
    place: &Pos,
    header: &Header,
) -> Result<Items<Walk>, AllocError>
    ensures { IfOk result (AreWalksOf plane.now (Asked.Uneven place.now) header.now) }
{
    let arriving = shortest_walks(alloc, plane, place, &arrivals(), header)?;
    let failing = shortest(alloc, plane, *place, header, failures())?;
    with_found(arriving, failing)
}

/// The walks of an example.
fn walks_of(
    alloc: Global,
    plane: &Plane<'_>,
    asked: &Asked,
    header: &Header,
) -> Result<Items<Walk>, AllocError>
    ensures { IfOk result (AreWalksOf plane.now asked.now header.now) }
{
    match asked {
        Asked::Reaching(place, ends) => shortest_walks(alloc, plane, place, ends, header),
        Asked::Looping(place) => walks_back(alloc, plane, place, header),
        Asked::Uneven(place) => uneven_walks(alloc, plane, place, header),
    }
}

/// How many examples are shown.
fn examples_in(detail: &Detail) -> u32
    ensures { result ≡ examples_in detail.now }
{
    match detail {
        Detail::Examples(most) => *most,
        Detail::First => 0,
    }
}

/// The walks of the examples of the first cubes of a set, so many.
fn example_walks<M: May>(
    alloc: Global,
    plane: &Plane<'_>,
    asked: &Asked,
    nodes: &Nodes<M>,
    seat: &mut Seat<M>,
    set: Ref,
    most: u32,
) -> Result<Vec<Items<Walk>>, AllocError>
    requires seat { IsSeatOf nodes.now seat.old }
    requires known { IsKnown seat.old set.index }
    ensures seat { IsSeatOf nodes.now seat.new }
    ensures keeps { Keeps seat.old seat.new }
    ensures walks { IfOk result (λ walks. (t : Tree) → SeatKnows seat.old set.index t → AreExamplesOf plane.now asked.now most t walks.items) }
{
    let mut walks = Vec::new(alloc);
    let mut cubes = Cubes::new(set);
    for _ in 0..most {
        match cubes.next(nodes, seat) {
            Some(cube) => walks.push(walks_of(alloc, plane, asked, &cube.value)?)?,
            None => return Ok(walks),
        }
    }
    Ok(walks)
}

/// What is lacking where a set can't be made.
pub(crate) fn lacking(error: SetError) -> Status
    ensures { result ≡ lacking_of error }
{
    match error {
        SetError::Full => Status::Nodes,
        SetError::Memory => Status::Memory,
    }
}

/// Writes what is shown of a set, behind how the rounds ended. Its examples are those of its first cubes.
fn write_set<S: Sink>(
    alloc: Global,
    at: &AtFixed<'_>,
    packets: &PacketSet,
    held: AskedSet<'_>,
    examples: Vec<Items<Walk>>,
    out: &mut S,
) -> Status
    requires seat { IsSeatOf held.nodes held.seat }
    requires known { IsKnown held.seat held.set.index }
    requires set { (t : Tree) × SeatKnows held.seat held.set.index t × IsAskedSet at.now.plane.now packets.now.asked t × AreExamplesOf at.now.plane.now packets.now.asked (examples_in packets.now.detail) t examples.items }
    ensures put { IsPutOver at.now.request.now at.now.plane.now at.now.end at.now.routes packets.now result (S.told out.old) (S.told out.new) }
    ensures sink_only { result ≡ Status.Sink → Rose (S.faults out.old) (S.faults out.new) }
    ensures sink_always { S.faults out.old < S.faults out.new → result ≡ Status.Sink }
{
    let AskedSet { nodes, seat, set } = held;
    let net = at.plane.network();
    let source = &at.request.source;
    match packets.detail {
        Detail::Examples(_) => {
            let cubes = CubeLines {
                net,
                nodes,
                seat,
                set,
                only_first: false,
                examples,
            };
            write_ended(alloc, source, at.end, cubes, out)
        }
        Detail::First => {
            let cubes = CubeLines {
                net,
                nodes,
                seat,
                set,
                only_first: true,
                examples,
            };
            let behind = Then {
                first: RoutesLine(at.routes),
                behind: cubes,
            };
            write_ended(alloc, source, at.end, behind, out)
        }
    }
}

/// Answers which packets are asked about where their set was made, and else what was lacking for it.
#[tactic(auto, using(crate::proofs::PutLaws::memory_over, crate::proofs::PutLaws::lacking_over))]
fn answer_made<S: Sink>(
    alloc: Global,
    at: &AtFixed<'_>,
    packets: &PacketSet,
    made: Result<AskedSet<'_>, SetError>,
    out: &mut S,
) -> Status
    requires set { IfOk made (HoldsAsked at.now.plane.now packets.now.asked) }
    requires full { IfErr made (IsFullAtMost at.now.request.now.limits.nodes at.now.plane.now packets.now.asked) }
    ensures put { IsPutOver at.now.request.now at.now.plane.now at.now.end at.now.routes packets.now result (S.told out.old) (S.told out.new) }
    ensures lacking { IfErr made.entry (λ e. result ≡ lacking_of e) }
    ensures sink_only { result ≡ Status.Sink → Rose (S.faults out.old) (S.faults out.new) }
    ensures sink_always { S.faults out.old < S.faults out.new → result ≡ Status.Sink }
{
    let held = match made {
        Ok(held) => held,
        Err(error) => return lacking(error),
    };
    let AskedSet {
        nodes,
        mut seat,
        set,
    } = held;
    let Ok(examples) = example_walks(
        alloc,
        at.plane,
        &packets.asked,
        &nodes,
        &mut seat,
        set,
        examples_in(&packets.detail),
    ) else {
        return Status::Memory;
    };
    let held = AskedSet { nodes, seat, set };
    write_set(alloc, at, packets, held, examples, out)
}

/// Answers which packets are asked about, over a plane.
fn answer_over<R: Threads + Sync + AllocGlobal, S: Sink, G: Gate>(
    rt: &R,
    at: &AtFixed<'_>,
    few: Option<u32>,
    packets: &PacketSet,
    out: &mut S,
    gate: &G,
) -> Status
    requires limits { AreInRange at.now.request.now.limits }
    requires lawful { IsLawful at.now.plane.now.network }
    requires links { at.now.plane.now.links ≡ links_of at.now.plane.now.network }
    requires few { IfSome few (IsFirstRoom at.now.request.now.limits.nodes) }
    requires place { IsPosition at.now.plane.now.network (place_of packets.now.asked) }
    ensures put { IsPutOver at.now.request.now at.now.plane.now at.now.end at.now.routes packets.now result (S.told out.old) (S.told out.new) }
    ensures sink_only { result ≡ Status.Sink → Rose (S.faults out.old) (S.faults out.new) }
    ensures sink_always { S.faults out.old < S.faults out.new → result ≡ Status.Sink }
{
    let limits = &at.request.limits;
    let made = asked_in_table(
        rt,
        few,
        at.plane,
        &packets.asked,
        limits.nodes,
        limits.workers,
        gate,
    );
    answer_made(rt.alloc(), at, packets, made, out)
}

/// Answers which packets are asked about, at a fixed point whose tables are prepared. The plane is not dropped behind them: the program ends
/// there.
#[tactic(auto, using(crate::proofs::PutLaws::memory_over))]
pub(crate) fn answer_over_tables<R: Threads + Sync + AllocGlobal, S: Sink, G: Gate>(
    rt: &R,
    request: &Request,
    net: &Network,
    end: RoundsEnd,
    links: &Links,
    tables: Tables,
    packets: &PacketSet,
    out: &mut S,
    gate: &G,
) -> Status
    requires limits { AreInRange request.now.limits }
    requires lawful { IsLawful net.now }
    requires links { links.now ≡ links_of net.now }
    requires place { IsPosition net.now (place_of packets.now.asked) }
    ensures put { IsPutOver request.now (plane_with net.now tables) end (route_count tables) packets.now result (S.told out.old) (S.told out.new) }
    ensures sink_only { result ≡ Status.Sink → Rose (S.faults out.old) (S.faults out.new) }
    ensures sink_always { S.faults out.old < S.faults out.new → result ≡ Status.Sink }
{
    let Ok(routes) = tables.route_count() else {
        return Status::Memory;
    };
    let few = first_room(net, routes as usize, &packets.asked, request.limits.nodes);
    let plane = Plane::of(net, links, tables);
    let at = AtFixed {
        request,
        plane: &plane,
        end,
        routes,
    };
    let status = answer_over(rt, &at, few, packets, out, gate);
    forget(plane);
    status
}

/// Answers which packets are asked about, at a fixed point. Its tables take the place of its state.
#[tactic(auto, using(crate::proofs::PutLaws::memory_at_fixed))]
pub(crate) fn answer_packets<R: Threads + Sync + AllocGlobal, S: Sink, G: Gate>(
    rt: &R,
    request: &Request,
    net: &Network,
    end: RoundsEnd,
    state: State,
    packets: &PacketSet,
    out: &mut S,
    gate: &G,
) -> Status
    requires limits { AreInRange request.now.limits }
    requires lawful { IsLawful net.now }
    requires state { IsStateOf (length net.now.routers) state }
    requires place { IsPosition net.now (place_of packets.now.asked) }
    ensures put { IsPutAtFixed request.now net.now end state (Subject.Packets packets.now) result (S.told out.old) (S.told out.new) }
    ensures sink_only { result ≡ Status.Sink → Rose (S.faults out.old) (S.faults out.new) }
    ensures sink_always { S.faults out.old < S.faults out.new → result ≡ Status.Sink }
{
    let Ok(tables) = Tables::by_workers(rt, rt.alloc(), state, request.limits.workers) else {
        return Status::Memory;
    };
    let Ok(links) = Links::of(rt.alloc(), net) else {
        return Status::Memory;
    };
    let status = answer_over_tables(rt, request, net, end, &links, tables, packets, out, gate);
    forget(links);
    status
}
