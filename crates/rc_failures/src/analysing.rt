//! A network is analysed for one packet.
ghost use Rattle.std.specs.Prelude.{◌≡◌, ◌≤◌, All, IfOk, IfSome, length};
ghost use Rattle.std.specs.Bool.{Decides};
ghost use Rattle.rc_config.specs.Lawful.{IsLawful};
ghost use Rattle.rc_route.specs.Outcomes.{IsInOrder};
ghost use Rattle.rc_route.specs.Tables.{IsRouterState};
ghost use Rattle.rc_topology.specs.Ports.{links_of};
ghost use Rattle.rc_moves.specs.Moves.{plane_of};
ghost use Rattle.rc_failures.specs.Failures.{Arrives, IsAnalysis, IsArrival};

use crate::packet::Packet;
use crate::plain::know_plain;
use rc_config::Network;
use rc_moves::{Plane, Tables};
use rc_outside::OpenGate;
use rc_rounds::{KnownAt, Outcome, known_at, rounds_of};
use rc_route::{RoundsEnd, State};
use rc_topology::Links;
use rc_walk::shortest;
use std::alloc::{AllocError, Global};
use std::thread::Threads;

/// How the rounds of a network end, and whether a packet arrives then.
#[derive(Drop)]
pub(crate) struct Analysed {
    pub end: RoundsEnd,
    pub arrives: bool,
}

/// Whether a packet arrives in a network with these links whose routers know these routes.
fn arrives_over(
    alloc: Global,
    net: &Network,
    links: &Links,
    state: State,
    packet: &Packet,
) -> Result<bool, AllocError>
    requires state { All IsRouterState state }
    requires links { links.now ≡ links_of net.now }
    ensures { IfOk result (λ arrives. Decides arrives (Arrives (plane_of net.now state) packet.now.place packet.now.header packet.now.ends)) }
{
    let tables = Tables::of(alloc, state)?;
    let plane = Plane::of(net, links, tables);
    let walk = shortest(alloc, &plane, packet.place, &packet.header, packet.ends)?;
    Ok(walk.is_some())
}

/// The same with the network's own links.
fn arrives_in(
    alloc: Global,
    net: &Network,
    state: State,
    packet: &Packet,
) -> Result<bool, AllocError>
    requires state { All IsRouterState state }
    ensures { IfOk result (λ arrives. Decides arrives (Arrives (plane_of net.now state) packet.now.place packet.now.header packet.now.ends)) }
{
    let links = Links::of(alloc, net)?;
    arrives_over(alloc, net, &links, state, packet)
}

/// Whether a packet arrives once the rounds of a network have ended: only a fixed point has walks.
fn arrives_after(
    alloc: Global,
    net: &Network,
    outcome: Outcome,
    packet: &Packet,
) -> Result<bool, AllocError>
    requires in_order { IsInOrder (length net.now.routers) outcome }
    ensures { IfOk result (IsArrival net.now packet.now.place packet.now.header packet.now.ends outcome) }
{
    match outcome {
        Outcome::Fixed(_, state) => arrives_in(alloc, net, state, packet),
        Outcome::Repeats(_, _) => Ok(false),
        Outcome::Limit(_) => Ok(false),
    }
}

/// How the rounds of a network end, all tables made, and whether a packet arrives then.
fn whole_analysis<R: Threads + Sync>(
    rt: &R,
    alloc: Global,
    net: &Network,
    limit: u32,
    packet: &Packet,
) -> Result<Analysed, AllocError>
    requires lawful { IsLawful net.now }
    requires some_rounds { 1 ≤ limit }
    requires few_rounds { limit ≤ 100000 }
    ensures { IfOk result (λ a. IsAnalysis net.now limit packet.now.place packet.now.header packet.now.ends a.end a.arrives) }
{
    let outcome = rounds_of(rt, alloc, net, limit, 1, &OpenGate)?;
    let end = outcome.end();
    let arrives = arrives_after(alloc, net, outcome, packet)?;
    Ok(Analysed { end, arrives })
}

/// The same, where what routers know at the packet's destination is found by one round, and says where the packet goes: a packet asks
/// tables for that address alone.
fn analysis_at<R: Threads + Sync>(
    rt: &R,
    alloc: Global,
    net: &Network,
    limit: u32,
    packet: &Packet,
) -> Result<Option<Analysed>, AllocError>
    requires lawful { IsLawful net.now }
    requires two_rounds { 2 ≤ limit }
    ensures { IfOk result (λ o. IfSome o (λ a. IsAnalysis net.now limit packet.now.place packet.now.header packet.now.ends a.end a.arrives)) }
{
    let found = known_at(rt, alloc, net, packet.header.dst, 1)?;
    let Some(known) = found else {
        return Ok(None);
    };
    let KnownAt { links, state } = known;
    if !know_plain(&state) {
        return Ok(None);
    }
    let arrives = arrives_over(alloc, net, &links, state, packet)?;
    Ok(Some(Analysed {
        end: RoundsEnd::Fixed(2),
        arrives,
    }))
}

/// How the rounds of a network end, of which at most so many are made, and whether a packet arrives then. It errs only where memory runs
/// out.
pub(crate) fn analysis_of<R: Threads + Sync>(
    rt: &R,
    alloc: Global,
    net: &Network,
    limit: u32,
    packet: &Packet,
) -> Result<Analysed, AllocError>
    requires lawful { IsLawful net.now }
    requires some_rounds { 1 ≤ limit }
    requires few_rounds { limit ≤ 100000 }
    ensures { IfOk result (λ a. IsAnalysis net.now limit packet.now.place packet.now.header packet.now.ends a.end a.arrives) }
{
    if limit < 2 {
        return whole_analysis(rt, alloc, net, limit, packet);
    }
    let known = analysis_at(rt, alloc, net, limit, packet)?;
    match known {
        Some(found) => Ok(found),
        None => whole_analysis(rt, alloc, net, limit, packet),
    }
}
