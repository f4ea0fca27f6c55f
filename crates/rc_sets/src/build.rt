//! The set of the routes of a table that give a hop, built from the order of their prefixes bit by bit.
ghost use Rattle.std.specs.Prelude.{◌≡◌, ℕ, ◌+◌, ◌<◌, ◌≤◌, ◌==◌, [], IfOk, IfErr, Bool, true, false, cond, not, length};
ghost use Rattle.std.specs.List.Sorted.{IsPartitionedBy, IsPartitionPoint};
ghost use Rattle.rc_base.specs.Prefix.{Cidr};
ghost use Rattle.rc_trees.specs.Trees.{Tree};
ghost use Rattle.rc_nodes.specs.Seats.{IsFull, IsSeatOf, Keeps, SeatKnows, SeatView};
ghost use Rattle.rc_trees.specs.Combine.{constant};
ghost use Rattle.std.specs.List.{AllByRecursion};
ghost use Rattle.rc_sets.specs.Marks.{address_bit, begins, known_at, prefixes_below, IsHopSet, IsWhole, MayBuild};

use rc_base::{Addr, Prefix};
use rc_bdd::Work;
use rc_nodes::{ALWAYS, Full, May, NEVER, Nodes, Ref};

/// Whether a bit of an address is 1, the most significant first.
fn has_bit(addr: Addr, place: u8) -> bool
    requires { place < 32 }
    ensures { result ≡ address_bit addr place }
{
    (addr.bits() >> (31 - place)) % 2 == 1
}

/// Where the first prefix stands whose bit is 1.
fn first_prefix(prefixes: &[Prefix], place: u8) -> usize
    requires place { place < 32 }
    requires turns { IsPartitionedBy (λ (p : Cidr). not (address_bit p.network place)) prefixes.now }
    ensures bound { result ≤ length prefixes.now }
    ensures turns { IsPartitionPoint (λ (p : Cidr). address_bit p.network place ≡ false) (λ (p : Cidr). address_bit p.network place ≡ true) prefixes.now result }
{
    prefixes.partition_point(|prefix| !has_bit(prefix.network(), place))
}

/// Whether the first prefix has this length.
fn begins(prefixes: &[Prefix], depth: u8) -> bool
    ensures { result ≡ begins depth prefixes.now }
{
    match prefixes {
        [first, ..] => first.len() == depth,
        [] => false,
    }
}

/// Whether the route of this length gives the hop, if the first one is it.
fn known_at(routes: &[Prefix], given: &[Prefix], depth: u8, known: bool) -> bool
    ensures { result ≡ known_at depth known routes.now given.now }
{
    match routes {
        [first, ..] if first.len() == depth => begins(given, depth),
        _ => known,
    }
}

/// The prefixes without that of this length.
fn prefixes_below(prefixes: &[Prefix], depth: u8) -> &[Prefix]
    ensures { result.now ≡ prefixes_below depth prefixes.now }
{
    match prefixes {
        [prefix, rest @ ..] if prefix.len() == depth => rest,
        _ => prefixes,
    }
}

/// Whether so many of these routes give the hop that each of them says what holds without it.
fn is_settled(routes: usize, given: usize, known: bool) -> bool
    ensures { result ≡ (given == cond known routes 0) }
{
    if known { given == routes } else { given == 0 }
}

/// Whether all of these routes are of one length.
fn are_alike(routes: &[Prefix], len: u8) -> bool
    ensures { result ≡ true → AllByRecursion (λ (p : Cidr). p.len ≡ len) routes.now }
{
    for route in routes {
        if route.len() != len {
            return false;
        }
    }
    true
}

/// Whether these routes are told at once to hold all that is on a way of so many bits.
fn is_whole(routes: &[Prefix], depth: u8) -> bool
    ensures { result ≡ true → IsWhole depth routes.now }
{
    let [first, ..] = routes else {
        return false;
    };
    let len = first.len();
    let further = len.saturating_sub(depth);
    routes.len() as u64 == 1 << further && are_alike(routes, len)
}

/// The set of a constant.
fn constant_of(known: bool) -> Ref
    ensures { (seat : SeatView) → SeatKnows seat result.index (constant known) }
{
    if known { ALWAYS } else { NEVER }
}

/// The set of a hop on a way of so many bits, from the prefixes of the routes there and of those that give it, where `known` is what holds
/// without them.
pub(crate) fn build<M: May>(
    work: &mut Work<M>,
    nodes: &Nodes<M>,
    routes: &[Prefix],
    given: &[Prefix],
    depth: u8,
    known: bool,
) -> Result<Ref, Full>
    requires seat { IsSeatOf nodes.now work.old }
    requires may { MayBuild nodes.now.may depth known routes.now given.now }
    ensures seat { IsSeatOf nodes.now work.new }
    ensures keeps { Keeps work.old work.new }
    ensures built { IfOk result (λ r. (t : Tree) → IsHopSet depth known routes.now given.now t → SeatKnows work.new r.index t) }
    ensures full { IfErr result (λ _. IsFull nodes.now work.new) }
{
    let known = known_at(routes, given, depth, known);
    let rest = prefixes_below(routes, depth);
    let left = prefixes_below(given, depth);
    if is_settled(rest.len(), left.len(), known) {
        return Ok(constant_of(known));
    }
    if is_settled(rest.len(), left.len(), !known) && is_whole(rest, depth) {
        return Ok(constant_of(!known));
    }
    let middle = first_prefix(rest, depth);
    let (zeros, ones) = rest.split_at(middle);
    let turn = first_prefix(left, depth);
    let (given_zeros, given_ones) = left.split_at(turn);
    let low = build(work, nodes, zeros, given_zeros, depth + 1, known)?;
    let high = build(work, nodes, ones, given_ones, depth + 1, known)?;
    work.branch(nodes, depth, low, high)
}
