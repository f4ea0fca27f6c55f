//! All edges and endings of a plane.
ghost use Rattle.std.specs.Prelude.{◌≡◌, ◌≤◌, IfOk, IfErr, length};
ghost use Rattle.rc_base.specs.declared.ending.Ends.{Ends as Asked};
ghost use Rattle.rc_bdd.specs.Work.{IsCause};
ghost use Rattle.rc_config.specs.Lawful.{IsLawful};
ghost use Rattle.rc_config.specs.Members.{positions};
ghost use Rattle.rc_edges.specs.Prepare.{MayPrepare, edge_at, stops_at};
ghost use Rattle.rc_edges.specs.Shares.{IsShare};
ghost use Rattle.rc_jobs.specs.Flows.{IsPrepared};
ghost use Rattle.rc_nodes.specs.Seats.{IsSeatOf, Keeps, SeatView};
ghost use Rattle.rc_topology.specs.Ports.{links_of};
ghost use Rattle.rc_moves.specs.Moves.{DataPlane};

use crate::edges_job::Sharing;
use rc_base::{Ends, Pos, RouterId};
use rc_bdd::SetError;
use rc_config::RouterText;
use rc_jobs::{Bounds, Collected, Prepared, by_workers};
use rc_moves::Plane;
use rc_nodes::{May, Nodes, Seat};
use rc_outside::OpenGate;
use rc_places::Places;
use std::alloc::{AllocError, Global};
use std::thread::Threads;

/// So much work, or less, is left to one worker: to start threads, each with a memo of its own, takes longer.
const FEW: usize = 448;

/// Into so many shares the positions are cut for each of several workers, who take them one after another.
const SHARES_A_WORKER: usize = 6;

/// So many lists of flows are made for all shares at most: each has one for each position.
const MOST_LISTS: usize = 262_144;

/// A share begins with a router where one begins so few positions further: what is made of a router is made again by each share with a
/// position of it.
const NEAR: usize = 16;

/// So many routes are as much work as a position.
const ROUTES_A_POSITION: usize = 8;

/// A line of an access list is as much work as so many positions.
const POSITIONS_A_LINE: usize = 8;

/// How many lines the access lists of a router have.
fn lines_in(file: &RouterText) -> usize {
    let lists = &file.lists.access_lists;
    let mut lines: usize = 0;
    for index in 0..lists.len() {
        if let Some((_, list)) = lists.at(index) {
            lines = lines.saturating_add(list.lines.len());
        }
    }
    lines
}

/// How much work a router is, beside its positions: its routes, and the lines of its access lists.
fn work_at(plane: &Plane<'_>, router: RouterId) -> usize {
    let routes = match plane.fib(router) {
        Some(fib) => fib.len(),
        None => 0,
    };
    let lines = match plane.network().router_at(router) {
        Some(file) => lines_in(file),
        None => 0,
    };
    let lines = lines.saturating_mul(POSITIONS_A_LINE);
    lines.saturating_add(routes / ROUTES_A_POSITION)
}

/// How much work a plane with so many positions is.
fn work_in(plane: &Plane<'_>, positions: usize) -> usize {
    let mut work = positions;
    for index in 0..plane.network().routers.len() {
        work = work.saturating_add(work_at(plane, RouterId::at(index)));
    }
    work
}

/// As many workers as there are, but not more than positions, and one for little work.
fn workers_for(workers: u32, positions: usize, work: usize) -> u32
    requires some { 1 ≤ workers }
    requires most { workers ≤ 64 }
    ensures some { 1 ≤ result }
    ensures most { result ≤ 64 }
{
    if positions == 0 || work <= FEW {
        return 1;
    }
    if positions < workers as usize {
        return positions as u32;
    }
    workers
}

/// Into how many shares so many positions are cut.
fn shares_for(workers: u32, positions: usize) -> usize {
    if workers == 1 {
        return 1;
    }
    let shares = (workers as usize).saturating_mul(SHARES_A_WORKER);
    shares
        .min(MOST_LISTS / positions.max(1))
        .max(workers as usize)
}

/// The position of a number, or the next one that is a router's first, where that is near.
fn near_router(places: &Places<'_>, number: usize) -> usize {
    let positions = places.as_slice();
    let end = number.saturating_add(NEAR).min(positions.len());
    for near in number..end {
        if let Pos::Own(_) = positions[near] {
            return near;
        }
    }
    number
}

/// The shares of all positions.
fn shares_of(alloc: Global, places: &Places<'_>, workers: u32) -> Result<Bounds, AllocError>
    ensures { IfOk result (λ shares. shares.items ≡ length (positions places.now)) }
{
    let count = places.len();
    let shares = shares_for(workers, count);
    let mut bounds = Bounds::whole(alloc, count)?;
    for share in 1..shares {
        bounds.begin_at(near_router(places, count.saturating_mul(share) / shares))?;
    }
    Ok(bounds)
}

/// The sets of a query, of the share of all positions, if it was made.
fn prepared_of(share: Result<Collected, SetError>) -> Result<Prepared, SetError>
    ensures prepared { (seat : SeatView) (plane : DataPlane) (ends : Asked) → IfOk share (IsShare seat plane ends 0 (length (positions plane.network))) → IfOk result (IsPrepared seat (edge_at plane) (stops_at plane ends) (length (positions plane.network))) }
    ensures error { IfErr result (λ e. share ≡ Err e) }
{
    match share {
        Ok(share) => Ok(share.prepared()),
        Err(error) => Err(error),
    }
}

/// The edges of a plane that let some header pass, and the endings asked for that some header may have, made by workers at once. `places`
/// are those of the plane's network.
pub fn prepare<R: Threads + Sync, M: May + Send + Sync>(
    rt: &R,
    alloc: Global,
    nodes: &Nodes<M>,
    seat: Seat<M>,
    plane: &Plane<'_>,
    places: &Places<'_>,
    ends: Ends,
    workers: u32,
) -> (Seat<M>, Result<Prepared, SetError>)
    requires seat { IsSeatOf nodes.now seat }
    requires plane { IsLawful plane.now.network }
    requires links { plane.now.links ≡ links_of plane.now.network }
    requires places { places.now ≡ plane.now.network }
    requires may { MayPrepare nodes.now.may plane.now ends }
    requires some { 1 ≤ workers }
    requires most { workers ≤ 64 }
    ensures seat { IsSeatOf nodes.now result.0 }
    ensures keeps { Keeps seat result.0 }
    ensures prepared { IfOk result.1 (IsPrepared result.0 (edge_at plane.now) (stops_at plane.now ends) (length (positions plane.now.network))) }
    ensures cause { IfErr result.1 (IsCause nodes.now result.0) }
{
    let work = work_in(plane, places.len());
    let workers = workers_for(workers, places.len(), work);
    let sharing = Sharing {
        plane,
        places,
        ends,
    };
    let Ok(shares) = shares_of(alloc, places, workers) else {
        return (seat, Err(SetError::Memory));
    };
    let (seat, _passed, share) = by_workers(
        rt, alloc, nodes, seat, &sharing, &shares, 0, workers, &OpenGate,
    );
    (seat, prepared_of(share))
}
