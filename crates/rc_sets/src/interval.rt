//! The sets of intervals of a number in a header.
ghost use Rattle.std.specs.Prelude.{◌≡◌, ◌+◌, ◌^◌, ◌<◌, ◌≤◌, IfOk, IfErr, ℕ, MatchOption};
ghost use Rattle.rc_base.specs.Header.{bit_count};
ghost use Rattle.rc_nodes.specs.Seats.{IsFull, IsSeatOf, Keeps, SeatKnows, SeatView};
ghost use Rattle.rc_sets.specs.Intervals.{between};
ghost use Rattle.rc_trees.specs.Trees.{HasNodesOf};

use rc_bdd::Work;
use rc_nodes::{ALWAYS, Full, May, NEVER, Nodes, Ref};

/// How many numbers so many bits have.
fn numbers(count: u8) -> u32
    requires { count < 32 }
    ensures { result ≡ 2 ^ count }
{
    1 << count
}

/// The interval's set, where each number of so many bits is in it, or none.
fn at_once(count: u8, low: u32, end: u32) -> Option<Ref>
    requires { count < 32 }
    ensures { MatchOption result (1 ≤ count) (λ r. (seat : SeatView) (last : ℕ) → SeatKnows seat r.index (between last count low end)) }
{
    let numbers = numbers(count);
    if low >= end {
        return Some(NEVER);
    }
    if low >= numbers {
        return Some(NEVER);
    }
    if low == 0 && end >= numbers {
        return Some(ALWAYS);
    }
    None
}

/// The headers of which a number of so many bits is at least `low` and lower than `end`. The number's last bit is the header's bit `last`.
/// Each node that it makes stands in the set.
pub(crate) fn interval<M: May>(
    work: &mut Work<M>,
    nodes: &Nodes<M>,
    last: u8,
    count: u8,
    low: u32,
    end: u32,
) -> Result<Ref, Full>
    requires seat { IsSeatOf nodes.now work.old }
    requires bits { (last < bit_count) × (count ≤ last + 1) × (count < 32) }
    requires may { HasNodesOf nodes.now.may (between last count low end) }
    ensures seat { IsSeatOf nodes.now work.new }
    ensures keeps { Keeps work.old work.new }
    ensures set { IfOk result (λ r. SeatKnows work.new r.index (between last count low end)) }
    ensures full { IfErr result (λ _. IsFull nodes.now work.new) }
{
    if let Some(known) = at_once(count, low, end) {
        return Ok(known);
    }
    let rest = count - 1;
    let half = numbers(rest);
    let zeros = interval(work, nodes, last, rest, low, end)?;
    let above_low = low.saturating_sub(half);
    let above_end = end.saturating_sub(half);
    let ones = interval(work, nodes, last, rest, above_low, above_end)?;
    work.branch(nodes, last - rest, zeros, ones)
}
