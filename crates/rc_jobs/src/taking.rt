//! Shares that workers take one after another.
ghost use Rattle.std.specs.Prelude.{◌≡◌, ◌+◌, ◌<◌, ◌≤◌, IfOk, IfErr, length};
ghost use Rattle.rc_bdd.specs.Work.{IsCause};
ghost use Rattle.rc_nodes.specs.Seats.{IsSeatOf, Keeps};
ghost use Rattle.rc_outside.specs.Gate.{passage};
ghost use Rattle.rc_jobs.specs.Bounds.{AreMadeOf, begin_of};

use crate::bounds::Bounds;
use crate::job::Job;
use crate::workers::both;
use rc_bdd::{SetError, Work};
use rc_nodes::{May, Nodes, Seat};
use rc_outside::{Gate, Passed};
use rc_shares::{Shared, at_once};
use std::alloc::Global;
use std::collections::VecDeque;
use std::sync::atomic::{AtomicUsize, Ordering};
use std::thread::Threads;

/// A job over a table, whose shares so many hands take one after another, each with a seat to itself: who is done with one takes the next
/// one, so nobody waits while others have shares left.
///
/// That each is taken once isn't asked: what nobody made is made in the end.
#[derive(Drop)]
struct Hands<'a, M: May, J> {
    nodes: &'a Nodes<M>,
    job: &'a J,
    bounds: &'a Bounds,
    hands: usize,
    /// The share that is taken next.
    next: AtomicUsize,
}

impl<'a, M: May, J: Job> Hands<'a, M, J> {
    /// What was made of a share, where that is the next one of these; else it is made now.
    fn part(
        &self,
        alloc: Global,
        work: &mut Work<M>,
        parts: &mut VecDeque<(usize, J::Made)>,
        share: usize,
    ) -> Result<J::Made, SetError>
        requires seat { IsSeatOf self.now.nodes.now work.old }
        requires ready { J.ready self.now.job.now self.now.nodes.now work.old }
        requires items { self.now.bounds.now.items ≡ J.count self.now.job.now }
        requires share { share < length self.now.bounds.now.begins }
        requires parts { AreMadeOf (J.knows self.now.job.now work.old) self.now.bounds.now parts.old.items }
        ensures seat { IsSeatOf self.now.nodes.now work.new }
        ensures keeps { Keeps work.old work.new }
        ensures made { IfOk result (J.knows self.now.job.now work.new (begin_of self.now.bounds.now share) (begin_of self.now.bounds.now (share + 1))) }
        ensures parts { AreMadeOf (J.knows self.now.job.now work.new) self.now.bounds.now parts.new.items }
        ensures cause { IfErr result (IsCause self.now.nodes.now work.new) }
    {
        if let Some((number, made)) = parts.pop_front() {
            if number == share {
                return Ok(made);
            }
        }
        let (from, to) = self.bounds.share(share);
        self.job.share(alloc, work, self.nodes, from, to)
    }

    /// The whole job, of what hands made of its shares.
    fn in_order(
        &self,
        alloc: Global,
        work: &mut Work<M>,
        mut parts: Vec<(usize, J::Made)>,
    ) -> Result<J::Made, SetError>
        requires seat { IsSeatOf self.now.nodes.now work.old }
        requires ready { J.ready self.now.job.now self.now.nodes.now work.old }
        requires items { self.now.bounds.now.items ≡ J.count self.now.job.now }
        requires parts { AreMadeOf (J.knows self.now.job.now work.old) self.now.bounds.now parts.items }
        ensures seat { IsSeatOf self.now.nodes.now work.new }
        ensures keeps { Keeps work.old work.new }
        ensures made { IfOk result (J.knows self.now.job.now work.new 0 (J.count self.now.job.now)) }
        ensures cause { IfErr result (IsCause self.now.nodes.now work.new) }
    {
        parts.sort_unstable_by_key(|part| part.0);
        let mut parts = VecDeque::from(parts);
        let shares = self.bounds.len();
        let mut all = self.part(alloc, work, &mut parts, 0)?;
        for share in 1..shares {
            let next = self.part(alloc, work, &mut parts, share)?;
            all = match self.job.together(all, next) {
                Ok(all) => all,
                Err(_) => return Err(SetError::Memory),
            };
        }
        Ok(all)
    }
}

impl<'a, M: May + Send + Sync, J: Job> Shared for Hands<'a, M, J> {
    ghost use Rattle.std.specs.Prelude.{◌≡◌};
    ghost use Rattle.rc_jobs.specs.Bounds.{AreMadeOf};
    ghost use Rattle.rc_jobs.specs.Shares.{IsMadeOf};
    ghost use Rattle.rc_nodes.specs.Seats.{IsSeatOf, Keeps};

    type Own = Seat<M>;

    type Made = (Seat<M>, Result<Vec<(usize, J::Made)>, SetError>);

    ghost count = { λ s. s.hands };

    ghost ready = { λ s seat. IsSeatOf s.nodes.now seat × J.ready s.job.now s.nodes.now seat × (s.bounds.now.items ≡ J.count s.job.now) };

    ghost parts = { λ s seat mine theirs. Keeps seat mine × Keeps seat theirs };

    ghost makes = { λ s seat a b made. IsMadeOf s.nodes.now (λ v i j parts. AreMadeOf (J.knows s.job.now v) s.bounds.now parts.items) seat a b made.0 made.1 };

    fn items(&self) -> usize {
        self.hands
    }

    fn few(&self) -> usize {
        1
    }

    /// The shares that one hand takes, made with a memo of its own.
    fn share(
        &self,
        alloc: Global,
        seat: Seat<M>,
        _from: usize,
        _to: usize,
    ) -> (Seat<M>, Result<Vec<(usize, J::Made)>, SetError>) {
        let mut work = Work::new(alloc, seat);
        let mut parts = Vec::new(alloc);
        let shares = self.bounds.len();
        for _turn in 0..shares {
            let share = self.next.fetch_add(1, Ordering::Relaxed);
            if share >= shares {
                break;
            }
            let (from, to) = self.bounds.share(share);
            let made = match self.job.share(alloc, &mut work, self.nodes, from, to) {
                Ok(made) => made,
                Err(error) => return (work.into_seat(), Err(error)),
            };
            if parts.push((share, made)).is_err() {
                return (work.into_seat(), Err(SetError::Memory));
            }
        }
        (work.into_seat(), Ok(parts))
    }

    fn part(&self, mut seat: Seat<M>) -> (Seat<M>, Seat<M>) {
        let other = self.nodes.split(&mut seat);
        (seat, other)
    }

    fn together(
        &self,
        left: (Seat<M>, Result<Vec<(usize, J::Made)>, SetError>),
        right: (Seat<M>, Result<Vec<(usize, J::Made)>, SetError>),
    ) -> (Seat<M>, Result<Vec<(usize, J::Made)>, SetError>) {
        let (mut mine, left) = left;
        let (theirs, right) = right;
        self.nodes.join(&mut mine, theirs);
        let (mut all, mut others) = match both(left, right) {
            Ok(parts) => parts,
            Err(error) => return (mine, Err(error)),
        };
        match all.append(&mut others) {
            Ok(()) => (mine, Ok(all)),
            Err(_) => (mine, Err(SetError::Memory)),
        }
    }
}

/// The whole job, of what hands made of its shares, where all of them made something.
fn whole<M: May, J: Job>(
    alloc: Global,
    hands: &Hands<'_, M, J>,
    seat: Seat<M>,
    made: Result<Vec<(usize, J::Made)>, SetError>,
) -> (Seat<M>, Result<J::Made, SetError>)
    requires seat { IsSeatOf hands.now.nodes.now seat }
    requires ready { J.ready hands.now.job.now hands.now.nodes.now seat }
    requires items { hands.now.bounds.now.items ≡ J.count hands.now.job.now }
    requires made { IfOk made (λ parts. AreMadeOf (J.knows hands.now.job.now seat) hands.now.bounds.now parts.items) }
    requires cause { IfErr made (IsCause hands.now.nodes.now seat) }
    ensures seat { IsSeatOf hands.now.nodes.now result.0 }
    ensures keeps { Keeps seat result.0 }
    ensures made { IfOk result.1 (J.knows hands.now.job.now result.0 0 (J.count hands.now.job.now)) }
    ensures cause { IfErr result.1 (IsCause hands.now.nodes.now result.0) }
    ensures failed { IfErr made (λ e. result.1 ≡ Err e) }
{
    let parts = match made {
        Ok(parts) => parts,
        Err(error) => return (seat, Err(error)),
    };
    let mut work = Work::new(alloc, seat);
    let whole = hands.in_order(alloc, &mut work, parts);
    (work.into_seat(), whole)
}

/// The whole job by all workers at once, each with a seat split off and a memo of its own, and each of whom passes the gate before its work.
/// They take its shares one after another.
///
/// `workers` is from 1 to 64. It errs where memory runs out, and else where the table is full.
pub fn by_workers<R: Threads + Sync, M: May + Send + Sync, J: Job, G: Gate>(
    rt: &R,
    alloc: Global,
    nodes: &Nodes<M>,
    seat: Seat<M>,
    job: &J,
    bounds: &Bounds,
    phase: u32,
    workers: u32,
    gate: &G,
) -> (Seat<M>, Passed, Result<J::Made, SetError>)
    requires seat { IsSeatOf nodes.now seat }
    requires ready { J.ready job.now nodes.now seat }
    requires items { bounds.now.items ≡ J.count job.now }
    requires some { 1 ≤ workers }
    requires most { workers ≤ 64 }
    ensures seat { IsSeatOf nodes.now result.0 }
    ensures keeps { Keeps seat result.0 }
    ensures passed { result.1 ≡ passage phase 0 workers }
    ensures made { IfOk result.2 (J.knows job.now result.0 0 (J.count job.now)) }
    ensures cause { IfErr result.2 (IsCause nodes.now result.0) }
{
    let hands = Hands {
        nodes,
        job,
        bounds,
        hands: workers as usize,
        next: AtomicUsize::new(0),
    };
    let (passed, (seat, made)) = at_once(rt, alloc, &hands, seat, workers, phase, gate);
    let (seat, made) = whole(alloc, &hands, seat, made);
    (seat, passed, made)
}
