//! The lines of access lists that never decide, found in a table of nodes of their own.
//!
//! One table of nodes serves all lists that are asked about.
ghost use Rattle.std.specs.Prelude.{◌≡◌, ◌<◌, ◌≤◌, Ok, Err, IfOk, IfErr};
ghost use Rattle.rc_bdd.specs.declared.work.SetError.TheVariants.{Full, Memory};
ghost use Rattle.rc_nodes.specs.Seats.{IsSeatOf};
ghost use Rattle.rc_sets.specs.LinesQuery.{asked_lists, idle_in, lists_nodes};
ghost use Rattle.rc_idle.specs.Told.{AreTooFewForLists};

use crate::first_try::first_room;
use rc_base::{Items, RouterId};
use rc_bdd::SetError;
use rc_config::Network;
use rc_nodes::{Nodes, Seat};
use rc_sets::{Idle, LinesQuery, idle_of_lists};
use std::alloc::{AllocError, AllocGlobal, Global};
use std::thread::Threads;

/// A table of so many nodes for the access lists of a router, or of all, with its first seat.
fn table_for<'a>(
    alloc: Global,
    most: u32,
    network: &'a Network,
    router: &Option<RouterId>,
) -> Result<(Nodes<LinesQuery<'a>>, Seat<LinesQuery<'a>>), AllocError>
    requires low { 0 < most }
    requires high { most ≤ 16777216 }
    ensures seat { IfOk result (λ p. IsSeatOf p.0 p.1) }
    ensures table { IfOk result (λ p. (p.0.capacity ≡ most) × (p.0.may ≡ lists_nodes (asked_lists network.entry.now router.now))) }
{
    let query = LinesQuery {
        network,
        router: *router,
    };
    Nodes::new(alloc, most, &query)
}

/// The idle lines of the lists that are asked about, list by list.
fn idle_within<R: Threads + Sync + AllocGlobal>(
    rt: &R,
    network: &Network,
    router: &Option<RouterId>,
    most: u32,
    workers: u32,
) -> Result<Items<Idle>, SetError>
    requires low { 0 < most }
    requires high { most ≤ 16777216 }
    requires some_workers { 1 ≤ workers }
    requires few_workers { workers ≤ 64 }
    ensures idle { IfOk result (λ idle. idle ≡ idle_in (asked_lists network.now router.now)) }
    ensures full { IfErr result (λ e. e ≡ Full → AreTooFewForLists most network.now router.now) }
{
    let Ok((nodes, seat)) = table_for(rt.alloc(), most, network, router) else {
        return Err(SetError::Memory);
    };
    let (_seat, idle) = idle_of_lists(rt, network, *router, &nodes, seat, workers);
    idle
}

/// What a first try gave; and, exactly where its table was full and nothing else was lacking, what a second one gives in a table of so many
/// nodes.
fn tried_again<R: Threads + Sync + AllocGlobal>(
    rt: &R,
    first: Result<Items<Idle>, SetError>,
    network: &Network,
    router: &Option<RouterId>,
    most: u32,
    workers: u32,
) -> Result<Items<Idle>, SetError>
    requires low { 0 < most }
    requires high { most ≤ 16777216 }
    requires some_workers { 1 ≤ workers }
    requires few_workers { workers ≤ 64 }
    requires first { IfOk first (λ idle. idle ≡ idle_in (asked_lists network.now router.now)) }
    ensures made { IfOk first (λ idle. result ≡ Ok idle) }
    ensures memory { IfErr first (λ e. e ≡ Memory → result ≡ Err Memory) }
    ensures idle { IfOk result (λ idle. idle ≡ idle_in (asked_lists network.now router.now)) }
    ensures full { IfErr result (λ e. e ≡ Full → AreTooFewForLists most network.now router.now) }
{
    match first {
        Ok(idle) => Ok(idle),
        Err(SetError::Memory) => Err(SetError::Memory),
        Err(SetError::Full) => idle_within(rt, network, router, most, workers),
    }
}

/// The idle lines of the lists that are asked about, list by list, in a table of so many nodes at most. Where a smaller table fits
/// their lines, they are tried in it first, and again in one of all nodes allowed exactly where that one was full.
pub fn idle_found<R: Threads + Sync + AllocGlobal>(
    rt: &R,
    network: &Network,
    router: &Option<RouterId>,
    most: u32,
    workers: u32,
) -> Result<Items<Idle>, SetError>
    requires low { 0 < most }
    requires high { most ≤ 16777216 }
    requires some_workers { 1 ≤ workers }
    requires few_workers { workers ≤ 64 }
    ensures idle { IfOk result (λ idle. idle ≡ idle_in (asked_lists network.now router.now)) }
    ensures full { IfErr result (λ e. e ≡ Full → AreTooFewForLists most network.now router.now) }
{
    let Some(few) = first_room(network, router, most) else {
        return idle_within(rt, network, router, most, workers);
    };
    let first = idle_within(rt, network, router, few, workers);
    tried_again(rt, first, network, router, most, workers)
}
