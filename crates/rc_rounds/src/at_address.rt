//! What routers know at one address, where the rounds of a network make no difference.
ghost use Rattle.std.specs.Prelude.{◌≤◌, IfOk, IfSome, IsTrue};
ghost use Rattle.rc_config.specs.Lawful.{IsLawful};
ghost use Rattle.rc_config.specs.Members.{router_at};
ghost use Rattle.rc_rounds.specs.AtAddress.{AsksNoTable, IsFirstState, IsKnownAt, NoneAskTables};
ghost use Rattle.rc_rounds.specs.Setting.{IsSetting};

use crate::progress::Progress;
use rc_base::{Addr, RouterId};
use rc_bgp::{ConfiguredSessions, configured_sessions};
use rc_config::{Network, RouterText};
use rc_ospf::{Internal, internal_at};
use rc_outside::OpenGate;
use rc_pieces::{equal, into_state};
use rc_rib::all_read_nothing;
use rc_route::State;
use rc_topology::Links;
use std::alloc::{AllocError, Global};
use std::thread::Threads;

/// What the routers of a network know at an address, and the links of the network.
#[derive(Drop)]
pub struct KnownAt {
    pub links: Links,
    /// By router, in the network's order.
    pub state: State,
}

/// Whether a router of this file runs no BGP and has no line `ip route`.
fn file_asks_no_table(file: &RouterText) -> bool
    ensures { IsTrue result → AsksNoTable file.now }
{
    file.bgp.is_none() && file.static_routes.is_empty()
}

/// Whether a router runs no BGP and has no line `ip route`, or isn't there.
fn asks_no_table(net: &Network, router: RouterId) -> bool
    ensures { IsTrue result → IfSome (router_at net.now router) AsksNoTable }
{
    let found = net.router_at(router);
    match found {
        Some(file) => file_asks_no_table(file),
        None => true,
    }
}

/// Whether no router runs BGP or has a line `ip route`. It is told by the files alone, so where one does nothing is made in vain.
pub fn none_ask_tables(net: &Network) -> bool
    ensures { IsTrue result → NoneAskTables net.now }
{
    for index in 0..net.routers.len() {
        if !asks_no_table(net, RouterId::at(index)) {
            return false;
        }
    }
    true
}

/// The state after the first round, where it is another than the empty one.
fn first_state<R: Threads + Sync>(
    rt: &R,
    alloc: Global,
    net: &Network,
    internal: &Internal,
    sessions: &ConfiguredSessions,
    workers: u32,
) -> Result<Option<State>, AllocError>
    requires setting { IsSetting net.now internal.now sessions.now }
    requires some_workers { 1 ≤ workers }
    requires few_workers { workers ≤ 64 }
    ensures { IfOk result (λ o. IfSome o (IsFirstState net.now internal.now)) }
{
    let progress = Progress::start(alloc, net)?;
    let (_passed, fresh) = progress.next(rt, alloc, net, internal, sessions, workers, &OpenGate)?;
    let Some(fresh) = fresh else {
        return Ok(None);
    };
    let round = progress.put_together(alloc, fresh)?;
    let (next, _changes, _stayed) = round.into_parts();
    if equal(&next, &progress.last) {
        return Ok(None);
    }
    let state = into_state(alloc, next)?;
    Ok(Some(state))
}

/// What the routers of a network know at one address at the fixed point of its rounds, where that is found by one round: no router reads
/// what any router knows, and some router knows something. Of the routes by OSPF those alone are made whose prefix holds the address.
/// It errs only where memory runs out.
pub fn known_at<R: Threads + Sync>(
    rt: &R,
    alloc: Global,
    net: &Network,
    address: Addr,
    workers: u32,
) -> Result<Option<KnownAt>, AllocError>
    requires lawful { IsLawful net.now }
    requires some_workers { 1 ≤ workers }
    requires few_workers { workers ≤ 64 }
    ensures { IfOk result (λ o. IfSome o (λ k. IsKnownAt net.now address k.links k.state)) }
{
    if !none_ask_tables(net) {
        return Ok(None);
    }
    let links = Links::of(alloc, net)?;
    let internal = internal_at(rt, alloc, net, links, address, workers)?;
    let sessions = configured_sessions(alloc, net, &internal.links)?;
    if !all_read_nothing(net, &internal, &sessions) {
        return Ok(None);
    }
    let found = first_state(rt, alloc, net, &internal, &sessions, workers)?;
    match found {
        Some(state) => Ok(Some(KnownAt {
            links: internal.into_links(),
            state,
        })),
        None => Ok(None),
    }
}
