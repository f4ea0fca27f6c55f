//! The idle lines of all access lists that are asked about, by workers at once.
ghost use Rattle.std.specs.Prelude.{◌≡◌, ◌++◌, ◌<◌, ◌≤◌, ℕ, List, None, Some, IfOk, IfErr, OnOk, length, map};
ghost use Rattle.std.specs.Set.{distinct_count};
ghost use Rattle.rc_bdd.specs.Work.{IsCause};
ghost use Rattle.rc_bdd.specs.declared.work.SetError.TheVariants.{Full};
ghost use Rattle.rc_config.specs.declared.access_list.AccessList.{AccessList as Filter};
ghost use Rattle.rc_nodes.specs.Seats.{IsSeatOf, Keeps};
ghost use Rattle.rc_sets.specs.AskedLists.{AreAsked, ArePlaces, IsIdleAt, idle_of, list_at};
ghost use Rattle.rc_sets.specs.IdleLines.{all_parts, idle_sets};
ghost use Rattle.rc_sets.specs.LinesQuery.{access_lists_at, asked_lists, idle_in, lists_nodes};
ghost use Rattle.rc_shares.specs.Stretches.{IsStretch};
ghost use Rattle.rc_trees.specs.Trees.{HasNodes, same_tree};

use crate::idle_line::Idle;
use crate::idle_lines::idle;
use rc_base::{Items, RouterId};
use rc_bdd::{SetError, Work};
use rc_config::Network;
use rc_jobs::{Bounds, Job, by_workers};
use rc_nodes::{May, Nodes, Seat};
use rc_outside::OpenGate;
use std::alloc::{AllocError, AllocGlobal, Global};
use std::thread::Threads;

/// Into so many shares the lists are cut for each worker, who takes them one after another: lists differ much in their work.
const SHARES_A_WORKER: usize = 8;

/// The place of an access list: that of its router in the network, and its own among the lists of the router, both counted from 0.
#[derive(Clone, Copy)]
struct ListPlace {
    router: usize,
    list: usize,
}

/// How many access lists a router has, none where there is no such router.
fn list_count(network: &Network, router: usize) -> usize
    ensures { result ≡ length (access_lists_at network.now router) }
{
    match network.routers.at(router) {
        Some((_, text)) => text.lists.access_lists.len(),
        None => 0,
    }
}

/// Puts the places of a router's lists behind others.
fn push_places(
    places: &mut Vec<ListPlace>,
    network: &Network,
    router: usize,
) -> Result<(), AllocError>
    ensures { OnOk result (map (list_at network.now) places.new.items ≡ map (list_at network.now) places.old.items ++ map Some (access_lists_at network.now router)) }
{
    for list in 0..list_count(network, router) {
        places.push(ListPlace { router, list })?;
    }
    Ok(())
}

/// The places of the lists of all routers.
fn all_places(alloc: Global, network: &Network) -> Result<Vec<ListPlace>, AllocError>
    ensures { IfOk result (λ places. ArePlaces network.now places.items (asked_lists network.now None)) }
{
    let mut places = Vec::new(alloc);
    for router in 0..network.routers.len() {
        push_places(&mut places, network, router)?;
    }
    Ok(places)
}

/// The places of the lists of one router.
fn places_of(
    alloc: Global,
    network: &Network,
    router: RouterId,
) -> Result<Vec<ListPlace>, AllocError>
    ensures { IfOk result (λ places. ArePlaces network.now places.items (asked_lists network.now (Some router))) }
{
    let mut places = Vec::new(alloc);
    push_places(&mut places, network, router.index())?;
    Ok(places)
}

/// The places of the lists of the routers asked, router by router.
fn asked_places(
    alloc: Global,
    network: &Network,
    router: Option<RouterId>,
) -> Result<Vec<ListPlace>, AllocError>
    ensures { IfOk result (λ places. ArePlaces network.now places.items (asked_lists network.now router)) }
{
    match router {
        Some(router) => places_of(alloc, network, router),
        None => all_places(alloc, network),
    }
}

/// The idle lines of the list at a place, and none where there is none.
fn idle_at<M: May>(
    alloc: Global,
    work: &mut Work<M>,
    nodes: &Nodes<M>,
    network: &Network,
    place: ListPlace,
) -> Result<Idle, SetError>
    requires seat { IsSeatOf nodes.now work.old }
    requires may { (name : List ℕ) (access_list : Filter) → list_at network.now place ≡ Some (name, access_list) → HasNodes nodes.now.may (all_parts (idle_sets access_list.lines)) }
    ensures seat { IsSeatOf nodes.now work.new }
    ensures keeps { Keeps work.old work.new }
    ensures idle { IfOk result (λ idle. idle ≡ idle_of (list_at network.now place)) }
    ensures cause { IfErr result (IsCause nodes.now work.new) }
{
    let Some((_, text)) = network.routers.at(place.router) else {
        return Ok(Items::new(alloc));
    };
    match text.lists.access_lists.at(place.list) {
        Some((_, access_list)) => idle(alloc, work, nodes, access_list),
        None => Ok(Items::new(alloc)),
    }
}

/// The access lists of a network at some places, whose idle lines are to be told.
#[derive(Drop)]
struct Places<'a> {
    network: &'a Network,
    places: &'a [ListPlace],
}

/// Two lists, one behind the other.
fn appended(left: Items<Idle>, right: Items<Idle>) -> Result<Items<Idle>, AllocError>
    ensures { IfOk result (λ all. all ≡ left ++ right) }
{
    let mut all = left.into_vec();
    let mut right = right.into_vec();
    all.append(&mut right)?;
    Ok(Items::from_vec(all))
}

impl<'a> Job for Places<'a> {
    ghost use Rattle.std.specs.Prelude.{length};
    ghost use Rattle.rc_sets.specs.AskedLists.{AreAsked, IsIdleAt};
    ghost use Rattle.rc_shares.specs.Stretches.{IsStretch};

    type Made = Items<Idle>;

    ghost count = { λ p. length p.places.now };

    ghost ready = { λ p nodes seat. AreAsked nodes p.network.now p.places.now };

    ghost knows = { λ p seat a b made. IsStretch (IsIdleAt p.network.now p.places.now) a b made };

    fn items(&self) -> usize {
        self.places.len()
    }

    fn share<M: May>(
        &self,
        alloc: Global,
        work: &mut Work<M>,
        nodes: &Nodes<M>,
        from: usize,
        to: usize,
    ) -> Result<Items<Idle>, SetError> {
        let mut made = Items::new(alloc);
        for number in from..to {
            let idle = idle_at(alloc, work, nodes, self.network, self.places[number])?;
            let Ok(()) = made.push(idle) else {
                return Err(SetError::Memory);
            };
        }
        Ok(made)
    }

    fn together(&self, left: Items<Idle>, right: Items<Idle>) -> Result<Items<Idle>, AllocError> {
        appended(left, right)
    }

    ghost stays_ready = { λ p nodes v w keeps ready. ready };

    ghost stays_known = { λ p v w a b share keeps known. known };
}

/// The idle lines of the lists at some places, which are those asked about.
fn idle_at_places<R: Threads + Sync, M: May + Send + Sync>(
    rt: &R,
    alloc: Global,
    network: &Network,
    places: &[ListPlace],
    nodes: &Nodes<M>,
    seat: Seat<M>,
    workers: u32,
) -> (Seat<M>, Result<Items<Idle>, SetError>)
    requires seat { IsSeatOf nodes.now seat }
    requires asked { AreAsked nodes.now network.now places.now }
    requires some { 1 ≤ workers }
    requires most { workers ≤ 64 }
    ensures seat { IsSeatOf nodes.now result.0 }
    ensures keeps { Keeps seat result.0 }
    ensures idle { IfOk result.1 (IsStretch (IsIdleAt network.now places.now) 0 (length places.now)) }
    ensures cause { IfErr result.1 (IsCause nodes.now result.0) }
{
    let shares = (workers as usize).saturating_mul(SHARES_A_WORKER);
    let Ok(bounds) = Bounds::even(alloc, places.len(), shares) else {
        return (seat, Err(SetError::Memory));
    };
    let job = Places { network, places };
    let (seat, _, made) = by_workers(rt, alloc, nodes, seat, &job, &bounds, 0, workers, &OpenGate);
    (seat, made)
}

/// The idle lines of each of the access lists of a network: of those of one router, or of all routers in their order; each router's lists
/// as they are first opened or given a line.
///
/// The lists are shared by the workers, each of whom has a seat split off. It errs where memory runs out, and where the table has fewer slots
/// than there are different trees to be made.
pub fn idle_of_lists<R: Threads + Sync + AllocGlobal, M: May + Send + Sync>(
    rt: &R,
    network: &Network,
    router: Option<RouterId>,
    nodes: &Nodes<M>,
    seat: Seat<M>,
    workers: u32,
) -> (Seat<M>, Result<Items<Idle>, SetError>)
    requires seat { IsSeatOf nodes.now seat }
    requires may { nodes.now.may ≡ lists_nodes (asked_lists network.now router) }
    requires some { 1 ≤ workers }
    requires most { workers ≤ 64 }
    ensures seat { IsSeatOf nodes.now result.0 }
    ensures keeps { Keeps seat result.0 }
    ensures idle { IfOk result.1 (λ all. all ≡ idle_in (asked_lists network.now router)) }
    ensures cause { IfErr result.1 (IsCause nodes.now result.0) }
    ensures full { IfErr result.1 (λ e. e ≡ Full → nodes.now.capacity < distinct_count same_tree (lists_nodes (asked_lists network.now router))) }
{
    let alloc = rt.alloc();
    let Ok(places) = asked_places(alloc, network, router) else {
        return (seat, Err(SetError::Memory));
    };
    idle_at_places(rt, alloc, network, places.as_slice(), nodes, seat, workers)
}
