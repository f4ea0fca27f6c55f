//! All that comes through from many positions, made by the sides of the sets: where few of them reach far, most are left out at once.
ghost use Rattle.std.specs.Prelude.{◌<◌, ◌≤◌, ℕ, All, Bool, IfErr, IfOk, List, OnOk, length, slice_index_or};
ghost use Rattle.rc_base.specs.Header.{bit_count};
ghost use Rattle.rc_bdd.specs.Work.{IsCause};
ghost use Rattle.rc_jobs.specs.Flows.{no_header};
ghost use Rattle.rc_nodes.specs.Seats.{IsKnown, IsSeatOf, Keeps, SeatKnows};
ghost use Rattle.rc_sectors.specs.Sectors.{within};
ghost use Rattle.rc_spread.specs.Gathered.{gathered};
ghost use Rattle.rc_spread.specs.United.{ArePassages, AreSidesOf, AreSomeThere, AreThere, KnowsPassages, MayUnite, MayUniteInTurn, Takes, TakesSide, TakesThere, TestsFrom};
ghost use Rattle.rc_trees.specs.Trees.{Tree, never};

use rc_bdd::{SetError, Work};
use rc_jobs::Flow;
use rc_nodes::{May, NEVER, Nodes, Ref};
use rc_sectors::set_in;
use std::alloc::{AllocError, Global};

/// So many passages, or fewer, are united one after another.
const FEW: usize = 2;

/// How many times the passages there may be at a bit, on average, before they are united one after another.
const PATIENCE: usize = 8;

/// Patience is counted in parts of this.
const ONCE: usize = 1024;

/// How many bits of a header are of its destination, which stand first.
const DESTINATION_BITS: u8 = 32;

/// A set, and another one through which it goes.
#[derive(Clone, Copy)]
pub struct Passage {
    pub set: Ref,
    pub through: Ref,
}

/// Puts a passage behind others, where both sets hold something.
fn put_passage(passages: &mut Vec<Passage>, set: Ref, through: Ref) -> Result<(), AllocError>
    ensures { OnOk result (Takes passages.old.items passages.new.items set.index through.index) }
{
    if set == NEVER {
        return Ok(());
    }
    if through == NEVER {
        return Ok(());
    }
    passages.push(Passage { set, through })?;
    Ok(())
}

/// Puts what stands where a flow comes from behind passages, through what the flow is in a sector, where both hold something.
fn put_there<M: May>(
    work: &mut Work<M>,
    nodes: &Nodes<M>,
    passages: &mut Vec<Passage>,
    sets: &[Ref],
    flow: &Flow,
    sector: &[bool],
) -> Result<(), AllocError>
    requires seat { IsSeatOf nodes.now work.old }
    requires within { flow.now.from < length sets.now }
    requires known { IsKnown work.old flow.now.set.index }
    requires short { length sector.now ≤ bit_count }
    ensures seat { IsSeatOf nodes.now work.new }
    ensures keeps { Keeps work.old work.new }
    ensures put { OnOk result (TakesThere work.old work.new passages.old.items passages.new.items (slice_index_or sets.now flow.now.from no_header).index flow.now.set.index sector.now) }
{
    let set = sets[flow.from];
    if set == NEVER {
        return Ok(());
    }
    let through = set_in(work, nodes, flow.set, sector);
    put_passage(passages, set, through)
}

/// What may come through of what stands at positions in a sector: the sets are what they are there, and the flows whole ones.
pub fn passages_of<M: May>(
    alloc: Global,
    work: &mut Work<M>,
    nodes: &Nodes<M>,
    sets: &[Ref],
    flows: &[Flow],
    sector: &[bool],
) -> Result<Vec<Passage>, AllocError>
    requires seat { IsSeatOf nodes.now work.old }
    requires short { length sector.now ≤ bit_count }
    requires known { AreSomeThere work.old sets.now flows.now sector.now }
    ensures seat { IsSeatOf nodes.now work.new }
    ensures keeps { Keeps work.old work.new }
    ensures passages { IfOk result (λ passages. (of : ℕ → Tree) (whole : List (ℕ × Tree)) → AreThere work.old sets.now flows.now sector.now of whole → ArePassages work.new passages.items (length sector.now) sector.now of whole) }
{
    let mut passages = Vec::new(alloc);
    for flow in flows {
        put_there(work, nodes, &mut passages, sets, flow, sector)?;
    }
    Ok(passages)
}

/// Puts the sides of a passage at a bit behind others, where both hold something.
fn put_side<M: May>(
    work: &mut Work<M>,
    nodes: &Nodes<M>,
    sides: &mut Vec<Passage>,
    passage: &Passage,
    bit: u8,
    high: bool,
) -> Result<(), AllocError>
    requires seat { IsSeatOf nodes.now work.old }
    requires from { TestsFrom work.old bit passage.now }
    ensures seat { IsSeatOf nodes.now work.new }
    ensures keeps { Keeps work.old work.new }
    ensures put { OnOk result (TakesSide work.old work.new sides.old.items sides.new.items passage.now bit high) }
{
    let through = work.side(nodes, passage.through, bit, high);
    if through == NEVER {
        return Ok(());
    }
    let set = work.side(nodes, passage.set, bit, high);
    put_passage(sides, set, through)
}

/// The sides of passages at a bit, without those of which one holds nothing.
fn sides_of<M: May>(
    alloc: Global,
    work: &mut Work<M>,
    nodes: &Nodes<M>,
    passages: &[Passage],
    bit: u8,
    high: bool,
) -> Result<Vec<Passage>, AllocError>
    requires seat { IsSeatOf nodes.now work.old }
    requires from { All (TestsFrom work.old bit) passages.now }
    ensures seat { IsSeatOf nodes.now work.new }
    ensures keeps { Keeps work.old work.new }
    ensures sides { IfOk result (λ sides. AreSidesOf work.old work.new passages.now sides.items bit high) }
{
    let mut sides = Vec::new(alloc);
    for passage in passages {
        put_side(work, nodes, &mut sides, passage, bit, high)?;
    }
    Ok(sides)
}

/// All that comes through, one passage after another.
fn in_turn<M: May>(
    work: &mut Work<M>,
    nodes: &Nodes<M>,
    passages: &[Passage],
) -> Result<Ref, SetError>
    requires seat { IsSeatOf nodes.now work.old }
    requires may { MayUniteInTurn nodes.now work.old passages.now }
    ensures seat { IsSeatOf nodes.now work.new }
    ensures keeps { Keeps work.old work.new }
    ensures set { IfOk result (λ r. (sets : ℕ → Tree) (flows : List (ℕ × Tree)) → KnowsPassages work.old sets passages.now flows → SeatKnows work.new r.index (gathered sets never flows)) }
    ensures cause { IfErr result (IsCause nodes.now work.new) }
{
    let mut set = NEVER;
    for passage in passages {
        let passed = work.and(nodes, passage.set, passage.through)?;
        set = work.or(nodes, set, passed)?;
    }
    Ok(set)
}

/// The patience that is left where so many passages have so many sides.
fn patience_left(patience: usize, passages: usize, sides: usize) -> usize {
    if sides == 0 {
        return patience;
    }
    patience.saturating_mul(passages) / sides
}

/// All that comes through, where the sets test no bit before this one: what comes through where it is 0 and where it is 1, joined, as long
/// as the passages part.
fn by_sides<M: May>(
    alloc: Global,
    work: &mut Work<M>,
    nodes: &Nodes<M>,
    passages: &[Passage],
    bit: u8,
    patience: usize,
) -> Result<Ref, SetError>
    requires seat { IsSeatOf nodes.now work.old }
    requires short { bit ≤ bit_count }
    requires may { MayUnite nodes.now work.old passages.now bit }
    ensures seat { IsSeatOf nodes.now work.new }
    ensures keeps { Keeps work.old work.new }
    ensures set { IfOk result (λ r. (sector : List Bool) (sets : ℕ → Tree) (flows : List (ℕ × Tree)) → ArePassages work.old passages.now bit sector sets flows → SeatKnows work.new r.index (within sector (gathered sets never flows))) }
    ensures cause { IfErr result (IsCause nodes.now work.new) }
{
    if passages.len() <= FEW || patience < ONCE || bit >= DESTINATION_BITS {
        return in_turn(work, nodes, passages);
    }
    let Ok(lows) = sides_of(alloc, work, nodes, passages, bit, false) else {
        return Err(SetError::Memory);
    };
    let Ok(highs) = sides_of(alloc, work, nodes, passages, bit, true) else {
        return Err(SetError::Memory);
    };
    let sides = lows.len().saturating_add(highs.len());
    let patience = patience_left(patience, passages.len(), sides);
    let low = by_sides(alloc, work, nodes, lows.as_slice(), bit + 1, patience)?;
    let high = by_sides(alloc, work, nodes, highs.as_slice(), bit + 1, patience)?;
    match work.branch(nodes, bit, low, high) {
        Ok(set) => Ok(set),
        Err(_) => Err(SetError::Full),
    }
}

/// All that comes through in a sector of so many bits. It errs where the table is full, or for want of memory.
pub fn united_set<M: May>(
    alloc: Global,
    work: &mut Work<M>,
    nodes: &Nodes<M>,
    passages: &[Passage],
    bits: u8,
) -> Result<Ref, SetError>
    requires seat { IsSeatOf nodes.now work.old }
    requires short { bits ≤ bit_count }
    requires may { MayUnite nodes.now work.old passages.now bits }
    ensures seat { IsSeatOf nodes.now work.new }
    ensures keeps { Keeps work.old work.new }
    ensures set { IfOk result (λ r. (sector : List Bool) (sets : ℕ → Tree) (flows : List (ℕ × Tree)) → ArePassages work.old passages.now bits sector sets flows → SeatKnows work.new r.index (within sector (gathered sets never flows))) }
    ensures cause { IfErr result (IsCause nodes.now work.new) }
{
    by_sides(alloc, work, nodes, passages, bits, PATIENCE * ONCE)
}
