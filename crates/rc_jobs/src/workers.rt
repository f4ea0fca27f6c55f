//! Shares by workers, at once or one after another.
ghost use Rattle.std.specs.Prelude.{◌≡◌, ◌≢◌, ◌≤◌, ◌⊎◌, Ok, IfOk, IfErr, OnErr};
ghost use Rattle.rc_bdd.specs.Work.{IsCause};
ghost use Rattle.rc_outside.specs.Gate.{passage};
ghost use Rattle.rc_outside.specs.Shares.{share_start};
ghost use Rattle.rc_nodes.specs.Seats.{IsSeatOf, Keeps, SeatView, TableView};

use crate::job::Job;
use rc_bdd::{SetError, Work};
use rc_nodes::{May, Nodes, Seat};
use rc_outside::{Gate, Passed};
use rc_shares::{Shared, at_once, share_start};
use std::alloc::Global;
use std::thread::Threads;

/// The share of workers who have passed the gate.
fn share_of<M: May, J: Job>(
    alloc: Global,
    work: &mut Work<M>,
    nodes: &Nodes<M>,
    job: &J,
    workers: u32,
    passed: &Passed,
) -> Result<J::Made, SetError>
    requires seat { IsSeatOf nodes.now work.old }
    requires ready { J.ready job.now nodes.now work.old }
    requires few { J.count job.now ≤ 4294967295 }
    requires end { passed.now.last ≤ workers }
    requires most { workers ≤ 64 }
    ensures seat { IsSeatOf nodes.now work.new }
    ensures keeps { Keeps work.old work.new }
    ensures made { IfOk result (J.knows job.now work.new (share_start (J.count job.now) workers passed.now.first) (share_start (J.count job.now) workers passed.now.last)) }
    ensures cause { IfErr result (IsCause nodes.now work.new) }
{
    let count = job.items();
    let from = share_start(count, workers, passed.first());
    let to = share_start(count, workers, passed.last());
    job.share(alloc, work, nodes, from, to)
}

/// What two halves of the workers made, where both made something. Want of memory comes before a full table.
pub(crate) fn both<T: Drop>(
    left: Result<T, SetError>,
    right: Result<T, SetError>,
) -> Result<(T, T), SetError>
    ensures made { IfOk result (λ p. (left ≡ Ok p.0) × (right ≡ Ok p.1)) }
    ensures cause { (nodes : TableView) (seat : SeatView) → IfErr left (IsCause nodes seat) → IfErr right (IsCause nodes seat) → IfErr result (IsCause nodes seat) }
    ensures memory { (left ≡ Err SetError.Memory) ⊎ (right ≡ Err SetError.Memory) → result ≡ Err SetError.Memory }
    ensures full { (left ≡ Err SetError.Full) ⊎ (right ≡ Err SetError.Full) → left ≢ Err SetError.Memory → right ≢ Err SetError.Memory → result ≡ Err SetError.Full }
{
    match (left, right) {
        (Ok(left), Ok(right)) => Ok((left, right)),
        (Err(SetError::Full), Ok(_)) => Err(SetError::Full),
        (Ok(_), Err(SetError::Full)) => Err(SetError::Full),
        (Err(SetError::Full), Err(SetError::Full)) => Err(SetError::Full),
        _ => Err(SetError::Memory),
    }
}

/// A job over a table, whose workers each have a seat to themselves.
#[derive(Drop)]
struct OverTable<'a, M: May, J> {
    nodes: &'a Nodes<M>,
    job: &'a J,
    /// So many items, or fewer, are left to one worker.
    few: usize,
}

impl<'a, M: May + Send + Sync, J: Job> Shared for OverTable<'a, M, J> {
    ghost use Rattle.rc_jobs.specs.Shares.{IsMadeOf};
    ghost use Rattle.rc_nodes.specs.Seats.{IsSeatOf};

    type Own = Seat<M>;

    type Made = (Seat<M>, Result<J::Made, SetError>);

    ghost count = { λ s. J.count s.job.now };

    ghost ready = { λ s seat. IsSeatOf s.nodes.now seat × J.ready s.job.now s.nodes.now seat };

    ghost parts = { λ s seat mine theirs. Keeps seat mine × Keeps seat theirs };

    ghost makes = { λ s seat a b made. IsMadeOf s.nodes.now (J.knows s.job.now) seat a b made.0 made.1 };

    fn items(&self) -> usize {
        self.job.items()
    }

    fn few(&self) -> usize {
        self.few
    }

    /// With a memo of its own.
    fn share(
        &self,
        alloc: Global,
        seat: Seat<M>,
        from: usize,
        to: usize,
    ) -> (Seat<M>, Result<J::Made, SetError>) {
        let mut work = Work::new(alloc, seat);
        let made = self.job.share(alloc, &mut work, self.nodes, from, to);
        (work.into_seat(), made)
    }

    fn part(&self, mut seat: Seat<M>) -> (Seat<M>, Seat<M>) {
        let other = self.nodes.split(&mut seat);
        (seat, other)
    }

    fn together(
        &self,
        left: (Seat<M>, Result<J::Made, SetError>),
        right: (Seat<M>, Result<J::Made, SetError>),
    ) -> (Seat<M>, Result<J::Made, SetError>) {
        let (mut mine, left) = left;
        let (theirs, right) = right;
        self.nodes.join(&mut mine, theirs);
        let (left, right) = match both(left, right) {
            Ok(parts) => parts,
            Err(error) => return (mine, Err(error)),
        };
        match self.job.together(left, right) {
            Ok(whole) => (mine, Ok(whole)),
            Err(_) => (mine, Err(SetError::Memory)),
        }
    }
}

/// The whole job by workers at once, of whom one does so many items or fewer alone. Each has a seat split off and a memo of its own.
fn by_some<R: Threads + Sync, M: May + Send + Sync, J: Job, G: Gate>(
    rt: &R,
    alloc: Global,
    nodes: &Nodes<M>,
    seat: Seat<M>,
    job: &J,
    few: usize,
    phase: u32,
    workers: u32,
    gate: &G,
) -> (Seat<M>, Passed, Result<J::Made, SetError>)
    requires seat { IsSeatOf nodes.now seat }
    requires ready { J.ready job.now nodes.now seat }
    requires few { J.count job.now ≤ 4294967295 }
    requires some { 1 ≤ workers }
    requires most { workers ≤ 64 }
    ensures seat { IsSeatOf nodes.now result.0 }
    ensures keeps { Keeps seat result.0 }
    ensures passed { result.1 ≡ passage phase 0 workers }
    ensures made { IfOk result.2 (J.knows job.now result.0 0 (J.count job.now)) }
    ensures cause { IfErr result.2 (IsCause nodes.now result.0) }
{
    let shared = OverTable { nodes, job, few };
    let (passed, (seat, made)) = at_once(rt, alloc, &shared, seat, workers, phase, gate);
    (seat, passed, made)
}

/// What the workers before made, with the share of one who has passed the gate. Where they failed, none is made.
fn with_share<M: May, J: Job>(
    alloc: Global,
    work: &mut Work<M>,
    nodes: &Nodes<M>,
    job: &J,
    workers: u32,
    before: Result<J::Made, SetError>,
    passed: &Passed,
) -> Result<J::Made, SetError>
    requires seat { IsSeatOf nodes.now work.old }
    requires ready { J.ready job.now nodes.now work.old }
    requires few { J.count job.now ≤ 4294967295 }
    requires end { passed.now.last ≤ workers }
    requires most { workers ≤ 64 }
    requires before { IfOk before (J.knows job.now work.old 0 (share_start (J.count job.now) workers passed.now.first)) }
    requires cause { IfErr before (IsCause nodes.now work.old) }
    ensures seat { IsSeatOf nodes.now work.new }
    ensures keeps { Keeps work.old work.new }
    ensures made { IfOk result (J.knows job.now work.new 0 (share_start (J.count job.now) workers passed.now.last)) }
    ensures cause { IfErr result (IsCause nodes.now work.new) }
    ensures failed { OnErr before (result ≡ before) }
{
    let all = match before {
        Ok(all) => all,
        Err(error) => return Err(error),
    };
    let next = match share_of(alloc, work, nodes, job, workers, passed) {
        Ok(next) => next,
        Err(error) => return Err(error),
    };
    match job.together(all, next) {
        Ok(whole) => Ok(whole),
        Err(_) => Err(SetError::Memory),
    }
}

/// The whole job by workers one after another, with one seat and one memo. Each passes the gate before its work, and also where the share
/// of an earlier one failed.
///
/// `workers` is from 1 to 64, and there are at most 4,294,967,295 items. It errs where memory runs out or the table is full.
pub fn in_turn<M: May, J: Job, G: Gate>(
    alloc: Global,
    work: &mut Work<M>,
    nodes: &Nodes<M>,
    job: &J,
    phase: u32,
    workers: u32,
    gate: &G,
) -> (Passed, Result<J::Made, SetError>)
    requires seat { IsSeatOf nodes.now work.old }
    requires ready { J.ready job.now nodes.now work.old }
    requires few { J.count job.now ≤ 4294967295 }
    requires some { 1 ≤ workers }
    requires most { workers ≤ 64 }
    ensures seat { IsSeatOf nodes.now work.new }
    ensures keeps { Keeps work.old work.new }
    ensures passed { result.0 ≡ passage phase 0 workers }
    ensures made { IfOk result.1 (J.knows job.now work.new 0 (J.count job.now)) }
    ensures cause { IfErr result.1 (IsCause nodes.now work.new) }
{
    let mut passed = Passed::at(gate, phase, 0);
    let mut made = share_of(alloc, work, nodes, job, workers, &passed);
    for worker in 1..workers {
        let next = Passed::at(gate, phase, worker);
        made = with_share(alloc, work, nodes, job, workers, made, &next);
        passed = passed.and(next);
    }
    (passed, made)
}

/// How workers go about a job.
#[derive(Clone, Copy)]
pub enum Pace {
    /// All side by side.
    AtOnce,
    /// One half of them beside the other one, each half in turn: there is little to do.
    ByHalves,
    /// One after another.
    InTurn,
}

/// The whole job by workers at once, or in turn with the work that is there. Where they go at once the memo is lost.
pub fn at_once_or_in_turn<R: Threads + Sync, M: May + Send + Sync, J: Job, G: Gate>(
    rt: &R,
    alloc: Global,
    nodes: &Nodes<M>,
    mut work: Work<M>,
    job: &J,
    pace: Pace,
    phase: u32,
    workers: u32,
    gate: &G,
) -> (Work<M>, Passed, Result<J::Made, SetError>)
    requires seat { IsSeatOf nodes.now work }
    requires ready { J.ready job.now nodes.now work }
    requires few { J.count job.now ≤ 4294967295 }
    requires some { 1 ≤ workers }
    requires most { workers ≤ 64 }
    ensures seat { IsSeatOf nodes.now result.0 }
    ensures keeps { Keeps work result.0 }
    ensures passed { result.1 ≡ passage phase 0 workers }
    ensures made { IfOk result.2 (J.knows job.now result.0 0 (J.count job.now)) }
    ensures cause { IfErr result.2 (IsCause nodes.now result.0) }
{
    let few = match pace {
        Pace::AtOnce => 1,
        Pace::ByHalves => job.items().div_ceil(2),
        Pace::InTurn => {
            let (passed, made) = in_turn(alloc, &mut work, nodes, job, phase, workers, gate);
            return (work, passed, made);
        }
    };
    let seat = work.into_seat();
    let (seat, passed, made) = by_some(rt, alloc, nodes, seat, job, few, phase, workers, gate);
    (Work::new(alloc, seat), passed, made)
}
