//! The tables of all routers, prepared one after another.
ghost use Rattle.std.specs.Prelude.{◌≡◌, ◌≤◌, IfOk, IfSome};
ghost use Rattle.rc_alone.specs.Alone.{AreTablesAlone, last_round};
ghost use Rattle.rc_alone.specs.Preparing.{ArePreparedOver};
ghost use Rattle.rc_config.specs.Lawful.{IsLawful};
ghost use Rattle.rc_moves.specs.Moves.{ArePrepared};
ghost use Rattle.rc_ospf.specs.Grounds.{AreGrounds};
ghost use Rattle.rc_ospf.specs.Internal.{IsInternal};
ghost use Rattle.rc_ospf.specs.declared.model.Internal.{Internal as Whole};

use crate::preparing::Preparing;
use rc_base::Items;
use rc_bgp::configured_sessions;
use rc_config::Network;
use rc_fib::Fib;
use rc_moves::Tables;
use rc_ospf::{Grounds, has_boundary, made_of_routes};
use rc_outside::{Gate, Passed};
use rc_rib::all_read_nothing;
use rc_rounds::none_ask_tables;
use rc_topology::Links;
use std::alloc::{AllocError, Global};
use std::thread::Threads;

/// The links of a network and the prepared tables of its fixed point, which the rounds reach after this one.
#[derive(Drop)]
pub struct Alone {
    pub links: Links,
    pub tables: Tables,
    pub round: u32,
}

/// Whether no router runs BGP, has a line `ip route`, or is an AS boundary router. It is told by the files alone, so where one is or does
/// nothing is made in vain.
fn may_be_alone(alloc: Global, net: &Network) -> Result<bool, AllocError> {
    if !none_ask_tables(net) {
        return Ok(false);
    }
    Ok(!has_boundary(alloc, net)?)
}

/// The prepared table of each router, of its connected routes and those by OSPF. The workers share the routers: that is the work of the
/// first round, for which they pass the gate.
fn prepared_tables<R: Threads + Sync, G: Gate>(
    rt: &R,
    alloc: Global,
    net: &Network,
    grounds: &Grounds,
    workers: u32,
    gate: &G,
) -> Result<Items<Fib>, AllocError>
    requires grounds { AreGrounds net.now grounds.now }
    requires some_workers { 1 ≤ workers }
    ensures { IfOk result (λ fibs. (i : Whole) → IsInternal net.now i → i.links ≡ grounds.now.internal.links → ArePreparedOver net.now i fibs) }
{
    let preparing = Preparing { net };
    let (_passed, fibs) = made_of_routes(rt, alloc, net, grounds, &preparing, workers, 1, gate)?;
    Ok(fibs)
}

/// The round after which nothing changes any more: the first where no router knows anything, and else the second, which finds what the
/// first has made, and for which the workers pass the gate.
fn last_round<G: Gate>(tables: &Tables, workers: u32, gate: &G) -> Result<u32, AllocError>
    requires { 1 ≤ workers }
    ensures { IfOk result (λ round. round ≡ last_round tables.now) }
{
    if tables.route_count()? == 0 {
        return Ok(1);
    }
    let _passed = Passed::in_turn(gate, 2, 0, workers);
    Ok(2)
}

/// The prepared tables of a network's fixed point, where no router reads what any router knows, and the limit of rounds allows for it. No
/// route is made for them but the connected ones, unless a hop wants a look-up. Each worker passes the gate in each round. It errs only
/// where memory runs out.
pub fn tables_alone<R: Threads + Sync, G: Gate>(
    rt: &R,
    alloc: Global,
    net: &Network,
    limit: u32,
    workers: u32,
    gate: &G,
) -> Result<Option<Alone>, AllocError>
    requires lawful { IsLawful net.now }
    requires some_workers { 1 ≤ workers }
    ensures { IfOk result (λ found. IfSome found (λ a. AreTablesAlone net.now limit a.links a.tables a.round)) }
{
    if limit < 2 || !may_be_alone(alloc, net)? {
        return Ok(None);
    }
    let links = Links::of(alloc, net)?;
    let grounds = Grounds::of(rt, alloc, net, links, workers)?;
    let sessions = configured_sessions(alloc, net, &grounds.internal.links)?;
    if !all_read_nothing(net, &grounds.internal, &sessions) {
        return Ok(None);
    }
    let fibs = prepared_tables(rt, alloc, net, &grounds, workers, gate)?;
    let tables = Tables::prepared(fibs);
    let round = last_round(&tables, workers, gate)?;
    Ok(Some(Alone {
        links: grounds.into_links(),
        tables,
        round,
    }))
}
