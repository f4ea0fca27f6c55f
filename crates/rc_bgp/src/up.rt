//! Which sessions are up in a state.
ghost use Rattle.std.specs.Prelude.{◌≡◌, ◌++◌, ℕ, All, IfOk, OnOk};
ghost use Rattle.std.specs.List.{filter, flat_map};
ghost use Rattle.rc_route.specs.Tables.{IsRouterState};
ghost use Rattle.rc_bgp.specs.Sessions as spec;

use crate::pairing::configured_sessions;
use crate::reaching::reaches;
use crate::router_state::table_of;
use crate::{ConfiguredSessions, Session};
use rc_base::{Items, RouterId};
use rc_config::Network;
use rc_pieces::Knowledge;
use rc_topology::Links;
use std::alloc::{AllocError, Global};

/// The sessions that are up in a state: by receiver, then sender, then the sender's address.
pub type Sessions = Items<Session>;

/// Whether a session off a shared subnet is up: each address resolves in the other router's table.
fn is_far_up(alloc: Global, state: &Knowledge, session: &Session) -> Result<bool, AllocError>
    requires { All IsRouterState state.now }
    ensures { IfOk result (λ is. is ≡ spec.is_far_up state.now session.now) }
{
    let there = reaches(
        alloc,
        &table_of(state, session.receiver),
        session.sender_address,
    )?;
    if !there {
        return Ok(false);
    }
    reaches(
        alloc,
        &table_of(state, session.sender),
        session.receiver_address,
    )
}

/// Whether a session is up in a state.
pub(crate) fn is_up(alloc: Global, state: &Knowledge, session: &Session) -> Result<bool, AllocError>
    requires { All IsRouterState state.now }
    ensures { IfOk result (λ is. is ≡ spec.is_up state.now session.now) }
{
    if session.is_shared {
        return Ok(true);
    }
    is_far_up(alloc, state, session)
}

/// The configured sessions to a router.
pub(crate) fn sessions_of(sessions: &ConfiguredSessions, router: RouterId) -> &[Session]
    ensures { result.now ≡ spec.sessions_of sessions.now router }
{
    let found = sessions.as_slice().get(router.index());
    match found {
        Some(found) => found.as_slice(),
        None => &[],
    }
}

/// Puts those of some sessions that are up in a state at the end.
fn add_up(
    alloc: Global,
    state: &Knowledge,
    sessions: &[Session],
    up: &mut Items<Session>,
) -> Result<(), AllocError>
    requires { All IsRouterState state.now }
    ensures { OnOk result (up.new ≡ up.old ++ filter (spec.is_up state.now) sessions.now) }
{
    for session in sessions {
        if is_up(alloc, state, session)? {
            up.push(*session)?;
        }
    }
    Ok(())
}

/// The sessions to a router that are up in a state, of those that are configured.
pub(crate) fn up_sessions(
    alloc: Global,
    sessions: &ConfiguredSessions,
    state: &Knowledge,
    router: RouterId,
) -> Result<Items<Session>, AllocError>
    requires { All IsRouterState state.now }
    ensures { IfOk result (λ up. up ≡ spec.up_sessions sessions.now state.now router) }
{
    let mut up = Items::new(alloc);
    add_up(alloc, state, sessions_of(sessions, router), &mut up)?;
    Ok(up)
}

/// Of all configured sessions those that are up in a state.
fn all_up(
    alloc: Global,
    configured: &ConfiguredSessions,
    state: &Knowledge,
) -> Result<Sessions, AllocError>
    requires { All IsRouterState state.now }
    ensures { IfOk result (λ up. up ≡ flat_map (filter (spec.is_up state.now)) configured.now) }
{
    let mut up = Items::new(alloc);
    for sessions in configured.as_slice() {
        add_up(alloc, state, sessions.as_slice(), &mut up)?;
    }
    Ok(up)
}

/// The sessions of a network that are up in a state: by receiver, then sender, then the sender's address. Two statements make one
/// where each names the local address and the AS of the other and neither is shut down. One on a shared subnet is up; off one it has
/// to be internal or to have `ebgp-multihop` on both sides, and each address has to resolve in the other router's table. Those to a
/// router are exactly the configured ones to it that the rounds find up. It errs only where memory runs out.
#[tactic(auto, using(crate::proofs::UpLaws::rounds_find), unfolding(crate::specs::Sessions::sessions))]
pub fn sessions(
    alloc: Global,
    net: &Network,
    links: &Links,
    state: &Knowledge,
) -> Result<Sessions, AllocError>
    requires { All IsRouterState state.now }
    ensures value { IfOk result (λ up. up ≡ spec.sessions net.now links.now state.now) }
    ensures rounds { IfOk result (λ up. (r : ℕ) → spec.received up r ≡ spec.up_sessions (spec.configured_sessions net.now links.now) state.now r) }
{
    let configured = configured_sessions(alloc, net, links)?;
    let up = all_up(alloc, &configured, state)?;
    Ok(up)
}

/// Of the sessions that are up those to a router.
pub(crate) fn received(
    alloc: Global,
    sessions: &Sessions,
    router: RouterId,
) -> Result<Items<Session>, AllocError>
    ensures { IfOk result (λ here. here ≡ spec.received sessions.now router) }
{
    let mut here = Items::new(alloc);
    for session in sessions.as_slice() {
        if session.receiver == router {
            here.push(*session)?;
        }
    }
    Ok(here)
}
