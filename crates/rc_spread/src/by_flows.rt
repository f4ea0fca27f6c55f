//! Rounds of several workers. Where few positions changed, only those are looked at to which something fresh leads, by one worker in turn
//! for all; else all positions are, by all workers at once.
ghost use Rattle.std.specs.Prelude.{◌≡◌, ◌+◌, ◌<◌, ◌≤◌, IfOk, IfErr};
ghost use Rattle.rc_bdd.specs.Work.{IsCause};
ghost use Rattle.rc_nodes.specs.Seats.{IsSeatOf, Keeps};
ghost use Rattle.rc_spread.specs.Alone.{AreListed, Rest, StayWithin};
ghost use Rattle.rc_spread.specs.Known.{IsAfter, KnowsShare, StaysStill};

use crate::alone::{fresh_ones, next_alone};
use crate::rounds::{PHASE, is_in_turn, next_round};
use crate::spread::Spread;
use rc_base::Items;
use rc_bdd::{SetError, Work};
use rc_jobs::Flow;
use rc_nodes::{May, Nodes, Ref};
use rc_outside::{Gate, Passed};
use std::alloc::Global;
use std::thread::Threads;

/// What rounds have made.
#[derive(Drop)]
struct Made {
    /// What stands at each position.
    sets: Vec<Ref>,
    /// Whether the last round changed it.
    fresh: Vec<bool>,
    /// Where it did.
    changed: Vec<usize>,
}

/// What stands at each position.
fn into_sets(made: Made) -> Vec<Ref>
    ensures { result ≡ made.sets }
{
    let Made {
        sets,
        fresh: _,
        changed: _,
    } = made;
    sets
}

/// One round more by one alone, who makes it when all workers have passed the gate.
fn next_in_turn<M: May, S: Spread, G: Gate>(
    alloc: Global,
    nodes: &Nodes<M>,
    work: &mut Work<M>,
    spread: &S,
    out: &[Items<Flow>],
    before: Made,
    number: u32,
    workers: u32,
    gate: &G,
) -> Result<Made, SetError>
    requires seat { IsSeatOf nodes.now work.old }
    requires ready { S.ready spread.now nodes.now work.old }
    requires after { IsAfter work.old before.sets.items before.fresh.items (S.set_after spread.now) (S.count spread.now) number }
    requires listed { AreListed before.fresh.items before.changed.items }
    requires further { number < S.count spread.now }
    requires positions { S.count spread.now ≤ 131584 }
    requires within { StayWithin out.now (S.count spread.now) }
    requires rest { Rest nodes.now work.old out.now (S.set_after spread.now) (S.count spread.now) }
    requires some { 1 ≤ workers }
    ensures seat { IsSeatOf nodes.now work.new }
    ensures keeps { Keeps work.old work.new }
    ensures after { IfOk result (λ l. IsAfter work.new l.sets.items l.fresh.items (S.set_after spread.now) (S.count spread.now) (number + 1)) }
    ensures listed { IfOk result (λ l. AreListed l.fresh.items l.changed.items) }
    ensures cause { IfErr result (IsCause nodes.now work.new) }
{
    let Made {
        mut sets,
        mut fresh,
        changed,
    } = before;
    let _passed = Passed::in_turn(gate, PHASE + 1 + number, 0, workers);
    let changed = next_alone(
        alloc,
        work,
        nodes,
        spread,
        out,
        &mut sets,
        &mut fresh,
        changed.as_slice(),
        number,
    )?;
    Ok(Made {
        sets,
        fresh,
        changed,
    })
}

/// One round more by all workers at once.
fn next_at_once<R: Threads + Sync, M: May + Send + Sync, S: Spread + Sync, G: Gate>(
    rt: &R,
    alloc: Global,
    nodes: &Nodes<M>,
    work: Work<M>,
    spread: &S,
    before: Made,
    number: u32,
    workers: u32,
    gate: &G,
) -> (Work<M>, Result<Made, SetError>)
    requires seat { IsSeatOf nodes.now work }
    requires ready { S.ready spread.now nodes.now work }
    requires after { IsAfter work before.sets.items before.fresh.items (S.set_after spread.now) (S.count spread.now) number }
    requires still { StaysStill (S.set_after spread.now) (S.count spread.now) }
    requires further { number < S.count spread.now }
    requires positions { S.count spread.now ≤ 131584 }
    requires some { 1 ≤ workers }
    requires most { workers ≤ 64 }
    ensures seat { IsSeatOf nodes.now result.0 }
    ensures keeps { Keeps work result.0 }
    ensures after { IfOk result.1 (λ l. IsAfter result.0 l.sets.items l.fresh.items (S.set_after spread.now) (S.count spread.now) (number + 1)) }
    ensures listed { IfOk result.1 (λ l. AreListed l.fresh.items l.changed.items) }
    ensures cause { IfErr result.1 (IsCause nodes.now result.0) }
{
    let Made {
        sets,
        mut fresh,
        changed,
    } = before;
    let many = changed.len();
    let (work, _many, made) = next_round(
        rt,
        alloc,
        nodes,
        work,
        spread,
        Ok(sets),
        &mut fresh,
        many,
        number,
        workers,
        gate,
    );
    let sets = match made {
        Ok(sets) => sets,
        Err(error) => return (work, Err(error)),
    };
    let Ok(changed) = fresh_ones(alloc, fresh.as_slice()) else {
        return (work, Err(SetError::Memory));
    };
    (
        work,
        Ok(Made {
            sets,
            fresh,
            changed,
        }),
    )
}

/// One round more: by one alone where little is fresh.
fn next_by_flows<R: Threads + Sync, M: May + Send + Sync, S: Spread + Sync, G: Gate>(
    rt: &R,
    alloc: Global,
    nodes: &Nodes<M>,
    mut work: Work<M>,
    spread: &S,
    out: &[Items<Flow>],
    before: Made,
    number: u32,
    workers: u32,
    gate: &G,
) -> (Work<M>, Result<Made, SetError>)
    requires seat { IsSeatOf nodes.now work }
    requires ready { S.ready spread.now nodes.now work }
    requires after { IsAfter work before.sets.items before.fresh.items (S.set_after spread.now) (S.count spread.now) number }
    requires listed { AreListed before.fresh.items before.changed.items }
    requires still { StaysStill (S.set_after spread.now) (S.count spread.now) }
    requires further { number < S.count spread.now }
    requires positions { S.count spread.now ≤ 131584 }
    requires within { StayWithin out.now (S.count spread.now) }
    requires rest { Rest nodes.now work out.now (S.set_after spread.now) (S.count spread.now) }
    requires some { 1 ≤ workers }
    requires most { workers ≤ 64 }
    ensures seat { IsSeatOf nodes.now result.0 }
    ensures keeps { Keeps work result.0 }
    ensures after { IfOk result.1 (λ l. IsAfter result.0 l.sets.items l.fresh.items (S.set_after spread.now) (S.count spread.now) (number + 1)) }
    ensures listed { IfOk result.1 (λ l. AreListed l.fresh.items l.changed.items) }
    ensures cause { IfErr result.1 (IsCause nodes.now result.0) }
{
    if is_in_turn(number, before.changed.len(), workers) {
        let made = next_in_turn(
            alloc, nodes, &mut work, spread, out, before, number, workers, gate,
        );
        return (work, made);
    }
    next_at_once(
        rt, alloc, nodes, work, spread, before, number, workers, gate,
    )
}

/// The sets of all positions after as many rounds as there are positions. It stops at the first round that changes nothing. Each
/// worker passes the gate once in each round; round 1 is phase 100,001.
///
/// `sets` are those before the first round, and `fresh` tells which of them hold something. The flows `out` of positions tell to which
/// others their sets may lead.
pub fn rounds_by_flows<R: Threads + Sync, M: May + Send + Sync, S: Spread + Sync, G: Gate>(
    rt: &R,
    alloc: Global,
    nodes: &Nodes<M>,
    mut work: Work<M>,
    spread: &S,
    out: &[Items<Flow>],
    sets: Vec<Ref>,
    fresh: Vec<bool>,
    workers: u32,
    gate: &G,
) -> (Work<M>, Result<Vec<Ref>, SetError>)
    requires seat { IsSeatOf nodes.now work }
    requires ready { S.ready spread.now nodes.now work }
    requires first { IsAfter work sets.items fresh.items (S.set_after spread.now) (S.count spread.now) 0 }
    requires still { StaysStill (S.set_after spread.now) (S.count spread.now) }
    requires positions { S.count spread.now ≤ 131584 }
    requires within { StayWithin out.now (S.count spread.now) }
    requires rest { Rest nodes.now work out.now (S.set_after spread.now) (S.count spread.now) }
    requires some { 1 ≤ workers }
    requires most { workers ≤ 64 }
    ensures seat { IsSeatOf nodes.now result.0 }
    ensures keeps { Keeps work result.0 }
    ensures made { IfOk result.1 (λ v. KnowsShare result.0 v.items (S.set_after spread.now (S.count spread.now)) 0 (S.count spread.now)) }
    ensures cause { IfErr result.1 (IsCause nodes.now result.0) }
{
    let Ok(changed) = fresh_ones(alloc, fresh.as_slice()) else {
        return (work, Err(SetError::Memory));
    };
    let mut made = Made {
        sets,
        fresh,
        changed,
    };
    let count = spread.positions();
    for number in 0..count as u32 {
        if made.changed.is_empty() {
            return (work, Ok(into_sets(made)));
        }
        let (back, next) = next_by_flows(
            rt, alloc, nodes, work, spread, out, made, number, workers, gate,
        );
        work = back;
        made = match next {
            Ok(next) => next,
            Err(error) => return (work, Err(error)),
        };
    }
    (work, Ok(into_sets(made)))
}
