//! What a table sends over a hop.
ghost use Rattle.std.specs.Prelude.{◌≡◌, [], ◌++◌, IfOk, IfErr, OnOk, cond};
ghost use Rattle.std.specs.List.{list_any};
ghost use Rattle.rc_bdd.specs.Work.{IsCause, IsWantOfRoom};
ghost use Rattle.rc_nodes.specs.Seats.{IsSeatOf, Keeps, SeatKnows};
ghost use Rattle.rc_route.specs.Hops.{same_hop};
ghost use Rattle.rc_route.specs.declared.route.Hop.{Hop as NextHop};
ghost use Rattle.rc_sets.specs.Marks.{prefixes_over};
ghost use Rattle.rc_sets.specs.Regions.{hop_set};
ghost use Rattle.rc_trees.specs.Recipes.{tree};
ghost use Rattle.rc_trees.specs.Trees.{HasNodesOf};

use crate::build::build;
use rc_base::Prefix;
use rc_bdd::{SetError, Work};
use rc_fib::Fib;
use rc_nodes::{May, Nodes, Ref};
use rc_route::Hop;
use std::alloc::{AllocError, Global};

/// Whether a hop is among these.
fn is_among(hops: &[Hop], hop: &Hop) -> bool
    ensures { result ≡ list_any (same_hop hop.now) hops.now }
{
    hops.iter().any(|other| rc_route::same_hop(hop, other))
}

/// Puts the prefixes of routes with these hops behind others, where a hop is among them.
fn push_stretch(
    given: &mut Vec<Prefix>,
    routes: &[Prefix],
    hops: &[Hop],
    hop: &Hop,
) -> Result<(), AllocError>
    ensures { OnOk result (given.new.items ≡ given.old.items ++ cond (list_any (same_hop hop.now) hops.now) routes.now []) }
{
    if !is_among(hops, hop) {
        return Ok(());
    }
    given.extend_from_slice(routes)
}

/// The prefixes of the routes that give a hop, in the table's order.
fn prefixes_over(alloc: Global, fib: &Fib, hop: &Hop) -> Result<Vec<Prefix>, AllocError>
    ensures { IfOk result (λ given. given.items ≡ prefixes_over hop.now fib.now) }
{
    let mut given = Vec::with_capacity(alloc, fib.len())?;
    let mut left = fib.prefixes();
    let mut from = 0;
    let stretches = fib.stretches();
    for stretch in stretches {
        let (routes, rest) = left.split_at(stretch.end - from);
        push_stretch(&mut given, routes, stretch.hops.as_slice(), hop)?;
        left = rest;
        from = stretch.end;
    }
    Ok(given)
}

/// The headers that a table sends over the hop that the routes of these prefixes give. It takes no memory, so it fails for want of room in
/// the table alone.
fn set_over<M: May>(
    work: &mut Work<M>,
    nodes: &Nodes<M>,
    fib: &Fib,
    given: &[Prefix],
) -> Result<Ref, SetError>
    requires seat { IsSeatOf nodes.now work.old }
    requires may { (hop : NextHop) × (given.now ≡ prefixes_over hop fib.now) × HasNodesOf nodes.now.may (tree (hop_set fib.now hop)) }
    ensures seat { IsSeatOf nodes.now work.new }
    ensures keeps { Keeps work.old work.new }
    ensures set { IfOk result (λ r. (hop : NextHop) → given.now ≡ prefixes_over hop fib.now → SeatKnows work.new r.index (tree (hop_set fib.now hop))) }
    ensures room { IfErr result (IsWantOfRoom nodes.now work.new) }
{
    match build(work, nodes, fib.prefixes(), given, 0, false) {
        Ok(set) => Ok(set),
        Err(_) => Err(SetError::Full),
    }
}

/// The headers that a table sends over a hop. It is built from the table's order, bit by bit, with the route that holds so far: each node
/// that it makes stands in the result.
pub fn hop_set<M: May>(
    alloc: Global,
    work: &mut Work<M>,
    nodes: &Nodes<M>,
    fib: &Fib,
    hop: &Hop,
) -> Result<Ref, SetError>
    requires seat { IsSeatOf nodes.now work.old }
    requires may { HasNodesOf nodes.now.may (tree (hop_set fib.now hop.now)) }
    ensures seat { IsSeatOf nodes.now work.new }
    ensures keeps { Keeps work.old work.new }
    ensures set { IfOk result (λ r. SeatKnows work.new r.index (tree (hop_set fib.now hop.now))) }
    ensures cause { IfErr result (IsCause nodes.now work.new) }
{
    let Ok(given) = prefixes_over(alloc, fib, hop) else {
        return Err(SetError::Memory);
    };
    set_over(work, nodes, fib, given.as_slice())
}
