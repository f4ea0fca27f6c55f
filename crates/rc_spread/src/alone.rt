//! Rounds by one alone, who looks at those positions only to which something fresh leads.
ghost use Rattle.std.specs.Prelude.{◌≡◌, ℕ, ◌+◌, ◌<◌, ◌≤◌, All, false, length, replicate, IfOk, IfErr, OnOk};
ghost use Rattle.std.specs.List.{Contains};
ghost use Rattle.rc_bdd.specs.Work.{IsCause};
ghost use Rattle.rc_jobs.specs.declared.flow.Flow.{Flow as FlowOf};
ghost use Rattle.rc_nodes.specs.Seats.{IsSeatOf, Keeps};
ghost use Rattle.rc_spread.specs.Alone.{AreKept, AreLedTo, AreListed, ArePut, IsPut, KnowsThese, Rest, StayWithin};
ghost use Rattle.rc_spread.specs.Known.{IsAfter, KnowsShare, StaysStill};

use crate::spread::Spread;
use rc_base::Items;
use rc_bdd::{SetError, Work};
use rc_jobs::Flow;
use rc_nodes::{May, Nodes, Ref};
use std::alloc::{AllocError, Global};

/// The positions with something fresh, in their order.
pub(crate) fn fresh_ones(alloc: Global, fresh: &[bool]) -> Result<Vec<usize>, AllocError>
    ensures { IfOk result (λ found. AreListed fresh.now found.items) }
{
    let mut found = Vec::new(alloc);
    for q in 0..fresh.len() {
        if fresh[q] {
            found.push(q)?;
        }
    }
    Ok(found)
}

/// Notes a position, where it isn't marked.
fn note(marked: &mut Vec<bool>, found: &mut Vec<usize>, q: usize) -> Result<(), AllocError>
    requires position { q < length marked.old.items }
    requires listed { AreListed marked.old.items found.old.items }
    ensures many { length marked.new.items ≡ length marked.old.items }
    ensures listed { OnOk result (AreListed marked.new.items found.new.items) }
    ensures kept { OnOk result (AreKept found.old.items found.new.items) }
    ensures noted { OnOk result (Contains found.new.items q) }
{
    if marked[q] {
        return Ok(());
    }
    marked[q] = true;
    found.push(q)?;
    Ok(())
}

/// Notes each position that isn't marked and to which some flows lead.
fn note_led(
    flows: &[Flow],
    marked: &mut Vec<bool>,
    found: &mut Vec<usize>,
) -> Result<(), AllocError>
    requires positions { All (λ (f : FlowOf). f.from < length marked.old.items) flows.now }
    requires listed { AreListed marked.old.items found.old.items }
    ensures many { length marked.new.items ≡ length marked.old.items }
    ensures listed { OnOk result (AreListed marked.new.items found.new.items) }
    ensures kept { OnOk result (AreKept found.old.items found.new.items) }
    ensures noted { OnOk result (All (λ (f : FlowOf). Contains found.new.items f.from) flows.now) }
{
    for flow in flows {
        note(marked, found, flow.from)?;
    }
    Ok(())
}

/// The positions to which flows out of some others lead, each once.
fn led_to(alloc: Global, out: &[Items<Flow>], from: &[usize]) -> Result<Vec<usize>, AllocError>
    requires within { StayWithin out.now (length out.now) }
    requires from { All (λ p. p < length out.now) from.now }
    ensures { IfOk result (λ found. AreLedTo out.now from.now found.items) }
{
    let mut marked = vec![in alloc; false; out.len()]?;
    let mut found = Vec::new(alloc);
    for p in from {
        note_led(out[*p].as_slice(), &mut marked, &mut found)?;
    }
    Ok(found)
}

/// The sets of some positions after one round more.
fn sets_at<M: May, S: Spread>(
    alloc: Global,
    work: &mut Work<M>,
    nodes: &Nodes<M>,
    spread: &S,
    sets: &[Ref],
    fresh: &[bool],
    number: u32,
    positions: &[usize],
) -> Result<Vec<Ref>, SetError>
    requires seat { IsSeatOf nodes.now work.old }
    requires ready { S.ready spread.now nodes.now work.old }
    requires after { IsAfter work.old sets.now fresh.now (S.set_after spread.now) (S.count spread.now) number }
    requires further { number < S.count spread.now }
    requires positions { All (λ q. q < S.count spread.now) positions.now }
    ensures seat { IsSeatOf nodes.now work.new }
    ensures keeps { Keeps work.old work.new }
    ensures many { IfOk result (λ made. length made.items ≡ length positions.now) }
    ensures made { IfOk result (λ made. KnowsThese work.new made.items positions.now (S.set_after spread.now (number + 1))) }
    ensures cause { IfErr result (IsCause nodes.now work.new) }
{
    let Ok(mut made) = Vec::with_capacity(alloc, positions.len()) else {
        return Err(SetError::Memory);
    };
    for q in positions {
        let set = spread.next_set(work, nodes, sets, fresh, number, *q)?;
        if made.push(set).is_err() {
            return Err(SetError::Memory);
        }
    }
    Ok(made)
}

/// Puts the set that a round made of a position in the place of the one before it, and marks and lists it where they differ.
fn put_set(
    sets: &mut Vec<Ref>,
    fresh: &mut Vec<bool>,
    changed: &mut Vec<usize>,
    q: usize,
    set: Ref,
) -> Result<(), AllocError>
    requires position { q < length sets.old.items }
    requires marks { length fresh.old.items ≡ length sets.old.items }
    ensures put { OnOk result (IsPut q set sets.old.items sets.new.items fresh.old.items fresh.new.items changed.old.items changed.new.items) }
{
    if set.index == sets[q].index {
        return Ok(());
    }
    sets[q] = set;
    fresh[q] = true;
    changed.push(q)?;
    Ok(())
}

/// Puts the sets that a round made of some positions in the place of those before it, and marks where they differ. Gives these positions.
fn put_made(
    alloc: Global,
    sets: &mut Vec<Ref>,
    fresh: &mut Vec<bool>,
    positions: &[usize],
    made: &[Ref],
) -> Result<Vec<usize>, AllocError>
    requires positions { All (λ q. q < length sets.old.items) positions.now }
    requires many { length made.now ≡ length positions.now }
    requires none { fresh.old.items ≡ replicate (length sets.old.items) false }
    ensures put { OnOk result (ArePut sets.old.items positions.now made.now (length positions.now) sets.new.items fresh.new.items) }
    ensures listed { IfOk result (λ changed. AreListed fresh.new.items changed.items) }
{
    let mut changed = Vec::new(alloc);
    for index in 0..positions.len() {
        put_set(sets, fresh, &mut changed, positions[index], made[index])?;
    }
    Ok(changed)
}

/// One round more. `changed` are the positions with something fresh; it gives those whose sets the round changed.
pub(crate) fn next_alone<M: May, S: Spread>(
    alloc: Global,
    work: &mut Work<M>,
    nodes: &Nodes<M>,
    spread: &S,
    out: &[Items<Flow>],
    sets: &mut Vec<Ref>,
    fresh: &mut Vec<bool>,
    changed: &[usize],
    number: u32,
) -> Result<Vec<usize>, SetError>
    requires seat { IsSeatOf nodes.now work.old }
    requires ready { S.ready spread.now nodes.now work.old }
    requires after { IsAfter work.old sets.old.items fresh.old.items (S.set_after spread.now) (S.count spread.now) number }
    requires listed { AreListed fresh.old.items changed.now }
    requires further { number < S.count spread.now }
    requires within { StayWithin out.now (S.count spread.now) }
    requires rest { Rest nodes.now work.old out.now (S.set_after spread.now) (S.count spread.now) }
    ensures seat { IsSeatOf nodes.now work.new }
    ensures keeps { Keeps work.old work.new }
    ensures after { OnOk result (IsAfter work.new sets.new.items fresh.new.items (S.set_after spread.now) (S.count spread.now) (number + 1)) }
    ensures listed { IfOk result (λ changed. AreListed fresh.new.items changed.items) }
    ensures cause { IfErr result (IsCause nodes.now work.new) }
{
    let Ok(positions) = led_to(alloc, out, changed) else {
        return Err(SetError::Memory);
    };
    let made = sets_at(
        alloc,
        work,
        nodes,
        spread,
        sets.as_slice(),
        fresh.as_slice(),
        number,
        positions.as_slice(),
    )?;
    let Ok(mut differ) = vec![in alloc; false; sets.len()] else {
        return Err(SetError::Memory);
    };
    let Ok(differing) = put_made(
        alloc,
        sets,
        &mut differ,
        positions.as_slice(),
        made.as_slice(),
    ) else {
        return Err(SetError::Memory);
    };
    *fresh = differ;
    Ok(differing)
}

/// The sets of all positions after as many rounds as there are positions, made by one alone; and how many rounds were made up to the first one
/// that changes nothing. `sets` are those before the first round, and `fresh` tells which of them hold something. The flows `out` of
/// positions tell to which others their sets may lead.
pub fn rounds_alone<M: May, S: Spread>(
    alloc: Global,
    work: &mut Work<M>,
    nodes: &Nodes<M>,
    spread: &S,
    out: &[Items<Flow>],
    sets: Vec<Ref>,
    fresh: Vec<bool>,
) -> Result<(Vec<Ref>, u32), SetError>
    requires seat { IsSeatOf nodes.now work.old }
    requires ready { S.ready spread.now nodes.now work.old }
    requires first { IsAfter work.old sets.items fresh.items (S.set_after spread.now) (S.count spread.now) 0 }
    requires still { StaysStill (S.set_after spread.now) (S.count spread.now) }
    requires positions { S.count spread.now ≤ 131584 }
    requires within { StayWithin out.now (S.count spread.now) }
    requires rest { Rest nodes.now work.old out.now (S.set_after spread.now) (S.count spread.now) }
    ensures seat { IsSeatOf nodes.now work.new }
    ensures keeps { Keeps work.old work.new }
    ensures made { IfOk result (λ r. KnowsShare work.new r.0.items (S.set_after spread.now (S.count spread.now)) 0 (S.count spread.now)) }
    ensures cause { IfErr result (IsCause nodes.now work.new) }
{
    let count = spread.positions();
    let mut sets = sets;
    let mut fresh = fresh;
    let Ok(mut changed) = fresh_ones(alloc, fresh.as_slice()) else {
        return Err(SetError::Memory);
    };
    for number in 0..count as u32 {
        if changed.is_empty() {
            return Ok((sets, number));
        }
        changed = next_alone(
            alloc,
            work,
            nodes,
            spread,
            out,
            &mut sets,
            &mut fresh,
            changed.as_slice(),
            number,
        )?;
    }
    Ok((sets, count as u32))
}
