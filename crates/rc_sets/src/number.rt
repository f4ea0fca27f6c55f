//! The sets of numbers in a header.
ghost use Rattle.std.specs.Prelude.{◌≡◌, ◌≢◌, ◌+◌, ◌^◌, ◌<◌, ◌≤◌, false, IfOk, IfErr};
ghost use Rattle.rc_base.specs.Header.{bit_count};
ghost use Rattle.rc_bdd.specs.Work.{IsWantOfRoom};
ghost use Rattle.rc_nodes.specs.Seats.{IsFull, IsSeatOf, Keeps, SeatKnows};
ghost use Rattle.rc_sets.specs.Builds.{MayFollow};
ghost use Rattle.rc_trees.specs.Fields.{exact, masked, with_bit};
ghost use Rattle.rc_trees.specs.Trees.{Tree, HasNodesOf, never};

use rc_bdd::{SetError, Work};
use rc_nodes::{ALWAYS, Full, May, NEVER, Nodes, Ref};

/// The headers of which so many bits of a number are those of another number, as far as a wildcard has 0 there. The number's last bit is
/// the header's bit `last`.
pub(crate) fn masked_set<M: May>(
    work: &mut Work<M>,
    nodes: &Nodes<M>,
    last: u8,
    count: u8,
    wildcard: u32,
    number: u32,
) -> Result<Ref, Full>
    requires seat { IsSeatOf nodes.now work.old }
    requires bits { (last < bit_count) × (count ≤ last + 1) × (count ≤ 32) }
    requires may { HasNodesOf nodes.now.may (masked last count wildcard number) }
    ensures seat { IsSeatOf nodes.now work.new }
    ensures keeps { Keeps work.old work.new }
    ensures set { IfOk result (λ r. SeatKnows work.new r.index (masked last count wildcard number)) }
    ensures full { IfErr result (λ _. IsFull nodes.now work.new) }
{
    let mut set = ALWAYS;
    for place in 0..count {
        let free = (wildcard >> place) % 2 == 1;
        let one = (number >> place) % 2 == 1;
        set = with_bit(work, nodes, free, one, last - place, set)?;
    }
    Ok(set)
}

/// The headers of a set of which a bit, where it isn't free, is this one.
fn with_bit<M: May>(
    work: &mut Work<M>,
    nodes: &Nodes<M>,
    free: bool,
    one: bool,
    var: u8,
    rest: Ref,
) -> Result<Ref, Full>
    requires seat { IsSeatOf nodes.now work.old }
    requires may { MayFollow nodes.now work.old free one var rest.index }
    ensures seat { IsSeatOf nodes.now work.new }
    ensures keeps { Keeps work.old work.new }
    ensures set { IfOk result (λ r. (t : Tree) → t ≢ never → SeatKnows work.old rest.index t → SeatKnows work.new r.index (with_bit free one var t)) }
    ensures full { IfErr result (λ _. IsFull nodes.now work.new) }
{
    if free {
        return Ok(rest);
    }
    if one {
        work.branch(nodes, var, NEVER, rest)
    } else {
        work.branch(nodes, var, rest, NEVER)
    }
}

/// The headers of which a number of so many bits is this one. The number's last bit is the header's bit `last`.
pub(crate) fn exact_set<M: May>(
    work: &mut Work<M>,
    nodes: &Nodes<M>,
    last: u8,
    count: u8,
    number: u32,
) -> Result<Ref, SetError>
    requires seat { IsSeatOf nodes.now work.old }
    requires bits { (last < bit_count) × (count ≤ last + 1) × (count ≤ 32) }
    requires fits { number < 2 ^ count }
    requires may { HasNodesOf nodes.now.may (exact last count number) }
    ensures seat { IsSeatOf nodes.now work.new }
    ensures keeps { Keeps work.old work.new }
    ensures set { IfOk result (λ r. SeatKnows work.new r.index (exact last count number)) }
    ensures room { IfErr result (IsWantOfRoom nodes.now work.new) }
{
    match masked_set(work, nodes, last, count, 0, number) {
        Ok(set) => Ok(set),
        Err(_) => Err(SetError::Full),
    }
}
