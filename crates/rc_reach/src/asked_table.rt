//! The set of the headers that a question is about, in a table of its own.
ghost use Rattle.std.specs.Prelude.{◌≡◌, ◌<◌, ◌≤◌, Ok, Err, IfOk, IfErr, IfSome, is_some, unwrap_or};
ghost use Rattle.rc_config.specs.Lawful.{IsLawful, IsPosition};
ghost use Rattle.rc_nodes.specs.Seats.{IsSeatOf};
ghost use Rattle.rc_topology.specs.Ports.{links_of};
ghost use Rattle.rc_reach.specs.Asked.{nodes_asked, place_of};
ghost use Rattle.rc_reach.specs.FirstTry.{IsFirstRoom, is_full};
ghost use Rattle.rc_reach.specs.Held.{HoldsAsked, IsFullAtMost};

use crate::asked::{Asked, AskedQuery, asked_set};
use crate::first_try::Onward;
use rc_bdd::SetError;
use rc_moves::Plane;
use rc_nodes::{Nodes, Ref, Seat};
use rc_outside::Gate;
use std::alloc::{AllocError, AllocGlobal, Global};
use std::thread::Threads;

/// A set of headers in its table of nodes, and a seat there that knows it.
#[derive(Drop)]
pub struct AskedSet<'a> {
    pub nodes: Nodes<AskedQuery<'a>>,
    pub seat: Seat<AskedQuery<'a>>,
    pub set: Ref,
}

/// A table of so many nodes for a question about a plane, with its first seat.
fn table_for<'a>(
    alloc: Global,
    most: u32,
    plane: &'a Plane<'a>,
    asked: &Asked,
) -> Result<(Nodes<AskedQuery<'a>>, Seat<AskedQuery<'a>>), AllocError>
    requires low { 0 < most }
    requires high { most ≤ 16777216 }
    ensures seat { IfOk result (λ p. IsSeatOf p.0 p.1) }
    ensures table { IfOk result (λ p. (p.0.capacity ≡ most) × (p.0.may ≡ nodes_asked plane.entry.now asked.now)) }
{
    let query = AskedQuery {
        plane,
        asked: *asked,
    };
    Nodes::new(alloc, most, &query)
}

/// A set with the table in which it was made, or why it was not made.
fn in_table<'a>(
    nodes: Nodes<AskedQuery<'a>>,
    seat: Seat<AskedQuery<'a>>,
    made: Result<Ref, SetError>,
) -> Result<AskedSet<'a>, SetError>
    ensures made { IfOk result (λ r. (r.nodes ≡ nodes.entry) × (r.seat ≡ seat.entry) × (made ≡ Ok r.set)) }
    ensures error { IfErr result (λ e. made ≡ Err e) }
{
    match made {
        Ok(set) => Ok(AskedSet { nodes, seat, set }),
        Err(error) => Err(error),
    }
}

/// The headers that a question is about, in a table of so many nodes.
fn asked_within<'a, R: Threads + Sync + AllocGlobal, G: Gate>(
    rt: &R,
    plane: &'a Plane<'a>,
    asked: &Asked,
    most: u32,
    workers: u32,
    gate: &G,
) -> Result<AskedSet<'a>, SetError>
    requires low { 0 < most }
    requires high { most ≤ 16777216 }
    requires some_workers { 1 ≤ workers }
    requires few_workers { workers ≤ 64 }
    requires lawful { IsLawful plane.now.network }
    requires links { plane.now.links ≡ links_of plane.now.network }
    requires place { IsPosition plane.now.network (place_of asked.now) }
    ensures set { IfOk result (HoldsAsked plane.entry.now asked.now) }
    ensures room { IfOk result (λ r. r.nodes.capacity ≡ most) }
    ensures full { IfErr result (IsFullAtMost most plane.entry.now asked.now) }
{
    let Ok((nodes, seat)) = table_for(rt.alloc(), most, plane, asked) else {
        return Err(SetError::Memory);
    };
    let (seat, set) = asked_set(rt, plane, asked, &nodes, seat, workers, gate);
    in_table(nodes, seat, set)
}

/// Whether a table was full, and nothing else was lacking.
fn is_full(tried: &Result<AskedSet<'_>, SetError>) -> bool
    ensures { result ≡ is_full tried.now }
{
    match tried {
        Ok(_) => false,
        Err(SetError::Full) => true,
        Err(SetError::Memory) => false,
    }
}

/// What the last try gave: the second, where there was one.
fn last_of<'a>(
    first: Result<AskedSet<'a>, SetError>,
    second: Option<Result<AskedSet<'a>, SetError>>,
) -> Result<AskedSet<'a>, SetError>
    ensures { result ≡ unwrap_or second.entry first.entry }
{
    match second {
        Some(second) => second,
        None => first,
    }
}

/// A second try, where the first one's table was full.
fn second_try<'a, R: Threads + Sync + AllocGlobal, G: Gate>(
    rt: &R,
    first: &Result<AskedSet<'_>, SetError>,
    plane: &'a Plane<'a>,
    asked: &Asked,
    most: u32,
    workers: u32,
    gate: &G,
) -> Option<Result<AskedSet<'a>, SetError>>
    requires low { 0 < most }
    requires high { most ≤ 16777216 }
    requires some_workers { 1 ≤ workers }
    requires few_workers { workers ≤ 64 }
    requires lawful { IsLawful plane.now.network }
    requires links { plane.now.links ≡ links_of plane.now.network }
    requires place { IsPosition plane.now.network (place_of asked.now) }
    ensures again { is_some result ≡ is_full first.now }
    ensures set { IfSome result (λ again. IfOk again (HoldsAsked plane.entry.now asked.now)) }
    ensures room { IfSome result (λ again. IfOk again (λ r. r.nodes.capacity ≤ most)) }
    ensures full { IfSome result (λ again. IfErr again (IsFullAtMost most plane.entry.now asked.now)) }
{
    if !is_full(first) {
        return None;
    }
    Some(asked_within(rt, plane, asked, most, workers, gate))
}

/// The headers that a question is about, in a table of so many nodes at most. Where a smaller table is named, they are tried in it
/// first, and again in one of all nodes allowed exactly where that one was full.
pub fn asked_in_table<'a, R: Threads + Sync + AllocGlobal, G: Gate>(
    rt: &R,
    few: Option<u32>,
    plane: &'a Plane<'a>,
    asked: &Asked,
    most: u32,
    workers: u32,
    gate: &G,
) -> Result<AskedSet<'a>, SetError>
    requires few { IfSome few (IsFirstRoom most) }
    requires low { 0 < most }
    requires high { most ≤ 16777216 }
    requires some_workers { 1 ≤ workers }
    requires few_workers { workers ≤ 64 }
    requires lawful { IsLawful plane.now.network }
    requires links { plane.now.links ≡ links_of plane.now.network }
    requires place { IsPosition plane.now.network (place_of asked.now) }
    ensures set { IfOk result (HoldsAsked plane.entry.now asked.now) }
    ensures room { IfOk result (λ r. r.nodes.capacity ≤ most) }
    ensures full { IfErr result (IsFullAtMost most plane.entry.now asked.now) }
{
    let Some(few) = few else {
        return asked_within(rt, plane, asked, most, workers, gate);
    };
    let onward = Onward::first(gate);
    let first = asked_within(rt, plane, asked, few, workers, &onward);
    let second = second_try(rt, &first, plane, asked, most, workers, &onward.second());
    last_of(first, second)
}
