//! Rounds until nothing changes.
ghost use Rattle.std.specs.Prelude.{◌≡◌, ◌==◌, ℕ, ◌+◌, ◌<◌, ◌≤◌, not, false, length, slice_index_or, IfOk, IfErr};
ghost use Rattle.rc_bdd.specs.Work.{IsCause};
ghost use Rattle.rc_nodes.specs.Seats.{IsSeatOf, Keeps};
ghost use Rattle.rc_spread.specs.Known.{IsAfter, KnowsShare, StaysStill};
ghost use Rattle.rc_jobs.specs.Flows.{no_header};

use crate::first::mark;
use crate::round::Round;
use crate::spread::Spread;
use rc_bdd::{SetError, Work};
use rc_jobs::{Pace, at_once_or_in_turn};
use rc_nodes::{May, Nodes, Ref};
use rc_outside::Gate;
use std::alloc::Global;
use std::thread::Threads;

/// The phase of the gate before the first round of propagation.
pub(crate) const PHASE: u32 = 100_000;

/// How many positions with something fresh a worker has to have for a thread to be worth its start, which takes as long as some ten of
/// them.
const WORTH_A_THREAD: usize = 32;

/// How the workers of a round go about it, before which so many positions have something fresh: at once where there is work for them, and
/// in the first round at least in two halves.
fn pace_of(number: u32, fresh: usize, workers: u32) -> Pace {
    if workers <= 1 {
        return Pace::InTurn;
    }
    if fresh / WORTH_A_THREAD >= workers as usize {
        return Pace::AtOnce;
    }
    if number == 0 {
        Pace::ByHalves
    } else {
        Pace::InTurn
    }
}

/// Whether the workers of a round go about it one after another.
pub(crate) fn is_in_turn(number: u32, fresh: usize, workers: u32) -> bool {
    matches!(pace_of(number, fresh, workers), Pace::InTurn)
}

/// How many positions have something fresh.
fn many_of(fresh: &[bool]) -> usize {
    let mut many: usize = 0;
    for is_fresh in fresh {
        if *is_fresh {
            many = many.saturating_add(1);
        }
    }
    many
}

/// Marks the positions whose sets a round changed, and tells how many there are: none where it failed.
fn mark_made(old: &[Ref], made: &Result<Vec<Ref>, SetError>, fresh: &mut [bool]) -> usize
    requires old { length old.now ≡ length fresh.old }
    requires made { IfOk made.now (λ v. length v.items ≡ length fresh.old) }
    ensures marked { IfOk made.now (λ v. (q : ℕ) → q < length fresh.old → slice_index_or fresh.new q false ≡ not ((slice_index_or old.now q no_header).index == (slice_index_or v.items q no_header).index)) }
    ensures none { result ≡ 0 → IfOk made.now (λ v. (q : ℕ) → q < length fresh.old → slice_index_or fresh.new q false ≡ false) }
{
    match made {
        Ok(made) => mark(old, made.as_slice(), fresh),
        Err(_) => 0,
    }
}

/// The round of a number, from what the rounds before it made. Where they failed it makes nothing. It marks the positions whose sets it
/// changed as fresh, and tells how many there are.
pub(crate) fn next_round<R: Threads + Sync, M: May + Send + Sync, S: Spread + Sync, G: Gate>(
    rt: &R,
    alloc: Global,
    nodes: &Nodes<M>,
    work: Work<M>,
    spread: &S,
    before: Result<Vec<Ref>, SetError>,
    fresh: &mut Vec<bool>,
    many: usize,
    number: u32,
    workers: u32,
    gate: &G,
) -> (Work<M>, usize, Result<Vec<Ref>, SetError>)
    requires seat { IsSeatOf nodes.now work }
    requires ready { S.ready spread.now nodes.now work }
    requires before { IfOk before (λ v. IsAfter work v.items fresh.old.items (S.set_after spread.now) (S.count spread.now) number) }
    requires cause { IfErr before (IsCause nodes.now work) }
    requires still { StaysStill (S.set_after spread.now) (S.count spread.now) }
    requires further { number < S.count spread.now }
    requires positions { S.count spread.now ≤ 131584 }
    requires some { 1 ≤ workers }
    requires most { workers ≤ 64 }
    ensures seat { IsSeatOf nodes.now result.0 }
    ensures keeps { Keeps work result.0 }
    ensures after { IfOk result.2 (λ v. IsAfter result.0 v.items fresh.new.items (S.set_after spread.now) (S.count spread.now) (number + 1)) }
    ensures last { result.1 ≡ 0 → IfOk result.2 (λ v. KnowsShare result.0 v.items (S.set_after spread.now (S.count spread.now)) 0 (S.count spread.now)) }
    ensures cause { IfErr result.2 (IsCause nodes.now result.0) }
    ensures failed { IfErr before (λ e. result.2 ≡ Err e) }
{
    let sets = match before {
        Ok(sets) => sets,
        Err(error) => return (work, 0, Err(error)),
    };
    let round = Round {
        spread,
        sets: sets.as_slice(),
        fresh: fresh.as_slice(),
        number,
    };
    let pace = pace_of(number, many, workers);
    let phase = PHASE + 1 + number;
    let (work, _passed, made) = at_once_or_in_turn(
        rt, alloc, nodes, work, &round, pace, phase, workers, gate,
    );
    let changed = mark_made(sets.as_slice(), &made, fresh.as_mut_slice());
    (work, changed, made)
}

/// The sets of all positions after as many rounds as there are positions. It stops at the first round that changes nothing. Each
/// worker passes the gate once in each round; round 1 is phase 100,001.
///
/// `sets` are those before the first round, and `fresh` tells which of them hold something.
pub fn all_rounds<R: Threads + Sync, M: May + Send + Sync, S: Spread + Sync, G: Gate>(
    rt: &R,
    alloc: Global,
    nodes: &Nodes<M>,
    mut work: Work<M>,
    spread: &S,
    sets: Vec<Ref>,
    mut fresh: Vec<bool>,
    workers: u32,
    gate: &G,
) -> (Work<M>, Result<Vec<Ref>, SetError>)
    requires seat { IsSeatOf nodes.now work }
    requires ready { S.ready spread.now nodes.now work }
    requires first { IsAfter work sets.items fresh.items (S.set_after spread.now) (S.count spread.now) 0 }
    requires still { StaysStill (S.set_after spread.now) (S.count spread.now) }
    requires positions { S.count spread.now ≤ 131584 }
    requires some { 1 ≤ workers }
    requires most { workers ≤ 64 }
    ensures seat { IsSeatOf nodes.now result.0 }
    ensures keeps { Keeps work result.0 }
    ensures made { IfOk result.1 (λ v. KnowsShare result.0 v.items (S.set_after spread.now (S.count spread.now)) 0 (S.count spread.now)) }
    ensures cause { IfErr result.1 (IsCause nodes.now result.0) }
{
    let count = spread.positions();
    let mut made = Ok(sets);
    let mut many = many_of(fresh.as_slice());
    for number in 0..count as u32 {
        let (back, changed, next) = next_round(
            rt, alloc, nodes, work, spread, made, &mut fresh, many, number, workers, gate,
        );
        work = back;
        many = changed;
        made = next;
        if many == 0 {
            return (work, made);
        }
    }
    (work, made)
}
