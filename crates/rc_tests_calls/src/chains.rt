//! Chains of prefixes, made in one table by two callers at once.
ghost use Rattle.std.specs.Prelude.{◌≡◌, ◌<◌, ◌≤◌, [], ◌∷◌, IfOk, IfErr};
ghost use Rattle.std.specs.Thread.{IsSend, IsSync};
ghost use Rattle.rc_bdd.specs.Work.{IsCause};
ghost use Rattle.rc_nodes.specs.Seats.{IsKnown, IsSeatOf, Keeps, SeatKnows};
ghost use Rattle.rc_trees.specs.Fields.{chain};
ghost use Rattle.rc_trees.specs.Recipes.{tree};
ghost use Rattle.rc_trees.specs.Trees.{HasNodesOf};

use rc_base::{Addr, Header, Prefix};
use rc_bdd::{SetError, Work, eval};
use rc_nodes::{Chains, May, Nodes, Ref, Seat};
use rc_sets::prefix_set;
use std::alloc::{AllocError, Global};
use std::thread::{Threads, join};

/// 10.0.0.0/24 or 11.0.0.0/24, by its first byte.
fn block(first: u8) -> Option<Prefix> {
    Prefix::new(Addr::new(u32::from(first) << 24), 24)
}

/// The chain of a prefix, by a caller with a seat of its own, which comes back in every outcome.
fn chain_by<M: May>(
    alloc: Global,
    nodes: &Nodes<M>,
    seat: Seat<M>,
    prefix: Prefix,
) -> (Seat<M>, Result<Ref, SetError>)
    requires seat { IsSeatOf nodes.now seat }
    requires may { HasNodesOf nodes.now.may (tree (chain prefix)) }
    ensures seat { IsSeatOf nodes.now result.0 }
    ensures keeps { Keeps seat result.0 }
    ensures set { IfOk result.1 (λ r. SeatKnows result.0 r.index (tree (chain prefix))) }
    ensures cause { IfErr result.1 (IsCause nodes.now result.0) }
{
    let mut work = Work::new(alloc, seat);
    let made = prefix_set(&mut work, nodes, prefix);
    (work.into_seat(), made)
}

/// The chains of two prefixes, made by two callers at once, and the seat that knows what both know.
fn both<R: Threads + Sync, M: May + Send + Sync>(
    rt: &R,
    alloc: Global,
    nodes: &Nodes<M>,
    mut seat: Seat<M>,
    left: Prefix,
    right: Prefix,
) -> (Seat<M>, Result<Ref, SetError>, Result<Ref, SetError>)
    requires seat { IsSeatOf nodes.now seat }
    requires left { HasNodesOf nodes.now.may (tree (chain left)) }
    requires right { HasNodesOf nodes.now.may (tree (chain right)) }
    ensures seat { IsSeatOf nodes.now result.0 }
    ensures left { IfOk result.1 (λ r. SeatKnows result.0 r.index (tree (chain left))) }
    ensures right { IfOk result.2 (λ r. SeatKnows result.0 r.index (tree (chain right))) }
    ensures left_known { IfOk result.1 (λ r. IsKnown result.0 r.index) }
    ensures right_known { IfOk result.2 (λ r. IsKnown result.0 r.index) }
    ensures left_cause { IfErr result.1 (IsCause nodes.now result.0) }
    ensures right_cause { IfErr result.2 (IsCause nodes.now result.0) }
{
    let other = nodes.split(&mut seat);
    let ((mut mine, mine_made), (theirs, theirs_made)) = join(
        rt,
        || -> (Seat<M>, Result<Ref, SetError>)
            requires { IsSync M.row × IsSend M.row × IsSeatOf nodes.now seat × HasNodesOf nodes.now.may (tree (chain left)) }
            ensures { IsSeatOf nodes.entry.now result.0 × IfOk result.1 (λ r. SeatKnows result.0 r.index (tree (chain left))) × IfErr result.1 (IsCause nodes.entry.now result.0) }
        { chain_by(alloc, nodes, seat, left) },
        || -> (Seat<M>, Result<Ref, SetError>)
            requires { IsSync M.row × IsSend M.row × IsSeatOf nodes.now other × HasNodesOf nodes.now.may (tree (chain right)) }
            ensures { IsSeatOf nodes.entry.now result.0 × IfOk result.1 (λ r. SeatKnows result.0 r.index (tree (chain right))) × IfErr result.1 (IsCause nodes.entry.now result.0) }
        { chain_by(alloc, nodes, other, right) },
    );
    nodes.join(&mut mine, theirs);
    (mine, mine_made, theirs_made)
}

/// Both chains are there. To it 4 is added where they are one tree, 2 where the left one holds a header, and 1 where the right one does.
const MADE: u8 = 8;

/// One tree, by both references, and it holds the header.
const ONE_TREE: u8 = 15;

/// Two trees, of which the left one alone holds the header.
const TWO_TREES: u8 = 10;

/// Neither caller had room for its chain.
const BOTH_CROWDED: u8 = 2;

/// One caller had room for its chain.
const ONE_CROWDED: u8 = 1;

/// Want of memory.
const STOPPED: u8 = 0;

/// How the chains are read back through the seat that both callers joined.
fn read_back<M: May>(
    nodes: &Nodes<M>,
    seat: &mut Seat<M>,
    left: Ref,
    right: Ref,
    header: &Header,
) -> u8
    requires seat { IsSeatOf nodes.now seat.old }
    requires left { IsKnown seat.old left.index }
    requires right { IsKnown seat.old right.index }
    ensures seat { IsSeatOf nodes.now seat.new }
{
    let left_holds = eval(nodes, seat, left, header);
    let right_holds = eval(nodes, seat, right, header);
    let same = nodes.is_same(seat, left, right);
    MADE + u8::from(same) * 4 + u8::from(left_holds) * 2 + u8::from(right_holds)
}

/// What the results of two callers come to.
fn outcome_of<M: May>(
    nodes: &Nodes<M>,
    seat: &mut Seat<M>,
    left: Result<Ref, SetError>,
    right: Result<Ref, SetError>,
    header: &Header,
) -> u8
    requires seat { IsSeatOf nodes.now seat.old }
    requires left { IfOk left (λ r. IsKnown seat.old r.index) }
    requires right { IfOk right (λ r. IsKnown seat.old r.index) }
    ensures seat { IsSeatOf nodes.now seat.new }
{
    match (left, right) {
        (Ok(left), Ok(right)) => read_back(nodes, seat, left, right, header),
        (Err(SetError::Full), Err(SetError::Full)) => BOTH_CROWDED,
        (Err(SetError::Full), Ok(_)) => ONE_CROWDED,
        (Ok(_), Err(SetError::Full)) => ONE_CROWDED,
        _ => STOPPED,
    }
}

/// Two callers make a chain each in a table of so many slots. Beside what they come to: the words of the table afterwards.
fn two_callers<R: Threads + Sync>(
    rt: &R,
    alloc: Global,
    capacity: u32,
    left: Prefix,
    right: Prefix,
) -> Result<(u8, Vec<u64>), AllocError>
    requires low { 0 < capacity }
    requires high { capacity ≤ 16777216 }
{
    let prefixes = [left, right];
    let chains = Chains {
        prefixes: &prefixes,
    };
    let (nodes, seat) = Nodes::new(alloc, capacity, &chains)?;
    let (mut seat, of_left, of_right) = both(rt, alloc, &nodes, seat, left, right);
    let outcome = outcome_of(&nodes, &mut seat, of_left, of_right, &packet());
    let words = nodes.close(alloc, seat)?;
    Ok((outcome, words))
}

/// A packet to 10.0.0.7.
fn packet() -> Header {
    let mut packet = Header::zeros();
    packet.dst = Addr::new((10 << 24) + 7);
    packet.proto = 6;
    packet.sport = 1024;
    packet.dport = 80;
    packet
}

/// Whether so many words stand in the table, each of another node.
fn are_different(mut words: Vec<u64>, wanted: usize) -> bool {
    if words.sort().is_err() {
        return false;
    }
    words.dedup();
    words.iter().filter(|word| **word != 0).count() == wanted
}

/// Whether two callers come to this in a table of so many slots, where one makes 10.0.0.0/24 and the other the prefix of that first byte.
fn is_so<R: Threads + Sync>(
    rt: &R,
    alloc: Global,
    capacity: u32,
    first: u8,
    outcome: u8,
    nodes: usize,
) -> bool {
    if capacity == 0 || 16_777_216 < capacity {
        return false;
    }
    let Some(left) = block(10) else {
        return false;
    };
    let Some(right) = block(first) else {
        return false;
    };
    match two_callers(rt, alloc, capacity, left, right) {
        Ok((found, words)) => found == outcome && are_different(words, nodes),
        Err(_) => false,
    }
}

/// The slots of a table, the first byte of the second prefix, what two callers come to, and the nodes that stand in the table. A chain of
/// 24 bits has 24 nodes, the same ones for both callers, and two chains share those of their last 16 bits.
const ROWS: [(u32, u8, u8, usize); 8] = [
    (16, 10, BOTH_CROWDED, 16),
    (20, 10, BOTH_CROWDED, 20),
    (23, 10, BOTH_CROWDED, 23),
    (24, 10, ONE_TREE, 24),
    (64, 10, ONE_TREE, 24),
    (16, 11, BOTH_CROWDED, 16),
    (32, 11, TWO_TREES, 32),
    (64, 11, TWO_TREES, 32),
];

fn check_rows<R: Threads + Sync>(rt: &R, alloc: Global, rows: &[(u32, u8, u8, usize)]) -> bool {
    for (capacity, first, outcome, nodes) in rows {
        if !is_so(rt, alloc, *capacity, *first, *outcome, *nodes) {
            return false;
        }
    }
    true
}

#[test]
fn two_callers_share_their_nodes(rt: HostRuntime) {
    assert!(rt; check_rows(&rt, rt.alloc(), &ROWS));
}
