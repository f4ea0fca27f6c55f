//! What was found is written.
ghost use Rattle.std.specs.Prelude.{◌≡◌, ◌<◌, IfOk, List, length};
ghost use Rattle.rc_config.specs.Lawful.{IsLawful, IsPosition};
ghost use Rattle.rc_outside.specs.Causes.{Rose};
ghost use Rattle.rc_reach.specs.Asked.{place_of};
ghost use Rattle.rc_route.specs.Tables.{IsStateOf};
ghost use Rattle.rc_route.specs.declared.state.RouterState.{RouterState};
ghost use Rattle.rc_moves.specs.Moves.{plane_of, tables_of};
ghost use Rattle.rc_topology.specs.Ports.{links_of};
ghost use Rattle.rc_walk.specs.FirstWalks.{IsFirstWalk};
ghost use Rattle.rc_words.specs.Request.{AreInRange};
ghost use Rattle.rc_answers.specs.Sound.{IsSound, IsSoundEnd, StartsIn};
ghost use Rattle.rc_answers.specs.Written.{IsPutAtFixed, IsPutOf};

use crate::packets::{answer_over_tables, answer_packets, lacking};
use crate::{FileFindings, Findings, PacketSet, Subject};
use rc_base::{Header, Items, Pos, RouterId};
use rc_config::Network;
use rc_idle::idle_told;
use rc_moves::{Plane, Tables, Walk};
use rc_outside::{Gate, Sink};
use rc_report::{AllRoutes, FailRow, FailureLines, IdleLines, Nothing, RoutesOf, WalkLines};
use rc_route::{Outcome, RoundsEnd, State};
use rc_topology::Links;
use rc_walk::trace;
use rc_words::Request;
use rc_writing::{NoPlaceLine, RefusedLine, Status, write, write_ended};
use std::alloc::{AllocError, AllocGlobal, Global};
use std::mem::forget;
use std::thread::Threads;

/// Answers which lines of the access lists of a router, or of all, never decide. They are all told before the first one is put.
fn answer_lists<R: Threads + Sync + AllocGlobal, S: Sink>(
    rt: &R,
    request: &Request,
    network: Network,
    router: Option<RouterId>,
    out: &mut S,
) -> Status
    requires limits { AreInRange request.now.limits }
    ensures put { IsPutOf request.now (Findings.OfFiles (FileFindings.Lists network router)) result (S.told out.old) (S.told out.new) }
    ensures sink_only { result ≡ Status.Sink → Rose (S.faults out.old) (S.faults out.new) }
    ensures sink_always { S.faults out.old < S.faults out.new → result ≡ Status.Sink }
{
    let limits = &request.limits;
    match idle_told(rt, &network, &router, limits.nodes, limits.workers) {
        Ok(routers) => write(rt.alloc(), Status::Done, IdleLines { routers }, out),
        Err(error) => lacking(error),
    }
}

/// Answers what files alone tell.
fn answer_files<R: Threads + Sync + AllocGlobal, S: Sink>(
    rt: &R,
    request: &Request,
    found: FileFindings,
    out: &mut S,
) -> Status
    requires limits { AreInRange request.now.limits }
    ensures put { IsPutOf request.now (Findings.OfFiles found) result (S.told out.old) (S.told out.new) }
    ensures sink_only { result ≡ Status.Sink → Rose (S.faults out.old) (S.faults out.new) }
    ensures sink_always { S.faults out.old < S.faults out.new → result ≡ Status.Sink }
{
    let alloc = rt.alloc();
    match found {
        FileFindings::Refused(refusal) => {
            write(alloc, Status::Refused, RefusedLine { refusal }, out)
        }
        FileFindings::NoPlace => {
            let line = NoPlaceLine { ask: &request.ask };
            write(alloc, Status::NoPlace, line, out)
        }
        FileFindings::Lists(network, router) => answer_lists(rt, request, network, router, out),
    }
}

/// The first walk of a packet in a network whose routers know these routes.
fn first_walk(
    alloc: Global,
    net: &Network,
    state: State,
    position: Pos,
    header: &Header,
) -> Result<Walk, AllocError>
    requires lawful { IsLawful net.now }
    requires state { IsStateOf (length net.now.routers) state }
    ensures { IfOk result (IsFirstWalk (plane_of net.now state) header.now position) }
{
    let tables = Tables::of(alloc, state)?;
    let links = Links::of(alloc, net)?;
    let plane = Plane::of(net, &links, tables);
    trace(alloc, &plane, position, header)
}

/// Answers the first walk of a packet at a fixed point.
fn answer_walk<S: Sink>(
    alloc: Global,
    request: &Request,
    net: &Network,
    end: RoundsEnd,
    state: State,
    position: Pos,
    header: &Header,
    out: &mut S,
) -> Status
    requires lawful { IsLawful net.now }
    requires state { IsStateOf (length net.now.routers) state }
    ensures put { IsPutAtFixed request.now net.now end state (Subject.Packet position header.now) result (S.told out.old) (S.told out.new) }
    ensures sink_only { result ≡ Status.Sink → Rose (S.faults out.old) (S.faults out.new) }
    ensures sink_always { S.faults out.old < S.faults out.new → result ≡ Status.Sink }
{
    let Ok(walk) = first_walk(alloc, net, state, position, header) else {
        return Status::Memory;
    };
    write_ended(alloc, &request.source, end, WalkLines { net, walk }, out)
}

/// Answers the routes of all routers at a fixed point.
fn answer_all_routes<S: Sink>(
    alloc: Global,
    request: &Request,
    net: &Network,
    end: RoundsEnd,
    state: &State,
    out: &mut S,
) -> Status
    ensures put { IsPutAtFixed request.now net.now end state.now Subject.AllRouters result (S.told out.old) (S.told out.new) }
    ensures sink_only { result ≡ Status.Sink → Rose (S.faults out.old) (S.faults out.new) }
    ensures sink_always { S.faults out.old < S.faults out.new → result ≡ Status.Sink }
{
    write_ended(alloc, &request.source, end, AllRoutes { net, state }, out)
}

/// Answers the routes of one router at a fixed point.
fn answer_routes_of<S: Sink>(
    alloc: Global,
    request: &Request,
    net: &Network,
    end: RoundsEnd,
    state: &State,
    router: RouterId,
    out: &mut S,
) -> Status
    ensures put { IsPutAtFixed request.now net.now end state.now (Subject.OneRouter router) result (S.told out.old) (S.told out.new) }
    ensures sink_only { result ≡ Status.Sink → Rose (S.faults out.old) (S.faults out.new) }
    ensures sink_always { S.faults out.old < S.faults out.new → result ≡ Status.Sink }
{
    let routes = RoutesOf { net, state, router };
    write_ended(alloc, &request.source, end, routes, out)
}

/// Answers what is asked of a fixed point.
///
/// The state is not dropped behind its routes: the program ends there, and the system takes back all memory at once. To drop 800,000 paths
/// one by one took a twentieth of the time of the whole answer by one worker, and a seventh by four.
fn answer_fixed<R: Threads + Sync + AllocGlobal, S: Sink, G: Gate>(
    rt: &R,
    request: &Request,
    net: &Network,
    end: RoundsEnd,
    state: State,
    subject: &Subject,
    out: &mut S,
    gate: &G,
) -> Status
    requires limits { AreInRange request.now.limits }
    requires lawful { IsLawful net.now }
    requires state { IsStateOf (length net.now.routers) state }
    requires starts { StartsIn net.now subject.now }
    ensures put { IsPutAtFixed request.now net.now end state subject.now result (S.told out.old) (S.told out.new) }
    ensures sink_only { result ≡ Status.Sink → Rose (S.faults out.old) (S.faults out.new) }
    ensures sink_always { S.faults out.old < S.faults out.new → result ≡ Status.Sink }
{
    let alloc = rt.alloc();
    match subject {
        Subject::AllRouters => {
            let status = answer_all_routes(alloc, request, net, end, &state, out);
            forget(state);
            status
        }
        Subject::OneRouter(router) => {
            let status = answer_routes_of(alloc, request, net, end, &state, *router, out);
            forget(state);
            status
        }
        Subject::Packet(position, header) => {
            answer_walk(alloc, request, net, end, state, *position, header, out)
        }
        Subject::Packets(packets) => {
            answer_packets(rt, request, net, end, state, packets, out, gate)
        }
    }
}

/// Answers what is asked of a network whose rounds have ended.
fn answer_ended<R: Threads + Sync + AllocGlobal, S: Sink, G: Gate>(
    rt: &R,
    request: &Request,
    net: &Network,
    outcome: Outcome,
    subject: &Subject,
    out: &mut S,
    gate: &G,
) -> Status
    requires limits { AreInRange request.now.limits }
    requires sound { IsSoundEnd net.now outcome subject.now }
    ensures put { IsPutOf request.now (Findings.Ended net.now outcome subject.now) result (S.told out.old) (S.told out.new) }
    ensures sink_only { result ≡ Status.Sink → Rose (S.faults out.old) (S.faults out.new) }
    ensures sink_always { S.faults out.old < S.faults out.new → result ≡ Status.Sink }
{
    let end = outcome.end();
    match outcome {
        Outcome::Fixed(_, state) => {
            answer_fixed(rt, request, net, end, state, subject, out, gate)
        }
        Outcome::Repeats(_, _) => write_ended(rt.alloc(), &request.source, end, Nothing, out),
        Outcome::Limit(_) => write_ended(rt.alloc(), &request.source, end, Nothing, out),
    }
}

/// Answers which packets are asked about in a network whose rounds end at a fixed point after this round, by its links and tables, which are
/// prepared. All of its memory is taken before the first line is put.
pub fn answer_prepared<R: Threads + Sync + AllocGlobal, S: Sink, G: Gate>(
    rt: &R,
    request: &Request,
    net: &Network,
    round: u32,
    links: &Links,
    tables: Tables,
    packets: &PacketSet,
    out: &mut S,
    gate: &G,
) -> Status
    requires limits { AreInRange request.now.limits }
    requires lawful { IsLawful net.now }
    requires links { links.now ≡ links_of net.now }
    requires place { IsPosition net.now (place_of packets.now.asked) }
    ensures put { (state : List RouterState) → tables ≡ tables_of state → IsPutOf request.now (Findings.Ended net.now (Outcome.Fixed round state) (Subject.Packets packets.now)) result (S.told out.old) (S.told out.new) }
    ensures sink_only { result ≡ Status.Sink → Rose (S.faults out.old) (S.faults out.new) }
    ensures sink_always { S.faults out.old < S.faults out.new → result ≡ Status.Sink }
{
    let end = RoundsEnd::Fixed(round);
    answer_over_tables(rt, request, net, end, links, tables, packets, out, gate)
}

/// Answers what each single link's failure does, behind how the rounds of the whole network ended.
fn answer_failures<S: Sink>(
    alloc: Global,
    request: &Request,
    net: &Network,
    end: RoundsEnd,
    rows: Items<FailRow>,
    out: &mut S,
) -> Status
    ensures put { IsPutOf request.now (Findings.Failures net.now end rows) result (S.told out.old) (S.told out.new) }
    ensures sink_only { result ≡ Status.Sink → Rose (S.faults out.old) (S.faults out.new) }
    ensures sink_always { S.faults out.old < S.faults out.new → result ≡ Status.Sink }
{
    write_ended(alloc, &request.source, end, FailureLines { net, rows }, out)
}

/// Answers what the files that are asked about were found to be. All of its memory is taken before the first line is put. Nor is the network
/// dropped behind the answer: its thousands of parts take a hundredth of the time of a query.
pub fn answer_findings<R: Threads + Sync + AllocGlobal, S: Sink, G: Gate>(
    rt: &R,
    request: &Request,
    found: Findings,
    out: &mut S,
    gate: &G,
) -> Status
    requires limits { AreInRange request.now.limits }
    requires sound { IsSound found }
    ensures put { IsPutOf request.now found result (S.told out.old) (S.told out.new) }
    ensures sink_only { result ≡ Status.Sink → Rose (S.faults out.old) (S.faults out.new) }
    ensures sink_always { S.faults out.old < S.faults out.new → result ≡ Status.Sink }
{
    match found {
        Findings::OfFiles(found) => answer_files(rt, request, found, out),
        Findings::Ended(net, outcome, subject) => {
            let status = answer_ended(rt, request, &net, outcome, &subject, out, gate);
            forget(net);
            status
        }
        Findings::Failures(net, end, rows) => {
            let status = answer_failures(rt.alloc(), request, &net, end, rows, out);
            forget(net);
            status
        }
    }
}
