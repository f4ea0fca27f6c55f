//! What routers may tell inside of their ASes, listed once for all who hear it.
ghost use Rattle.std.specs.List.{list_any};
ghost use Rattle.std.specs.Option.{option_copied};
ghost use Rattle.std.specs.Prelude.{◌≡◌, ◌++◌, All, IfOk, OnOk};
ghost use Rattle.rc_bgp.specs.Telling as spec;
ghost use Rattle.rc_route.specs.Tables.{IsRouterState};

use crate::router_state::paths_of;
use crate::up::sessions_of;
use crate::{ConfiguredSessions, Session};
use rc_base::{Items, RouterId};
use rc_bgp_session::is_internal;
use rc_pieces::{Knowledge, Listed};
use rc_route::Best;
use std::alloc::{AllocError, Global};

/// For each router, in order, what it may tell its internal peers, where it has such peers.
pub type Inside = Items<Option<Items<Best>>>;

/// Puts those of some best paths that may be told to an internal peer at the end.
fn add_not_heard_inside(told: &mut Items<Best>, paths: &[Best]) -> Result<(), AllocError>
    ensures { OnOk result (told.new ≡ told.old ++ spec.may_tell paths.now) }
{
    for best in paths {
        if !is_internal(best.path.source()) {
            told.push(best.copy()?)?;
        }
    }
    Ok(())
}

/// Those of best paths that may be told to an internal peer.
fn not_heard_inside(alloc: Global, paths: &Listed<'_, Best>) -> Result<Items<Best>, AllocError>
    ensures { IfOk result (λ told. told ≡ spec.may_tell paths.now) }
{
    let mut told = Items::new(alloc);
    for piece in paths.pieces() {
        add_not_heard_inside(&mut told, piece.as_slice())?;
    }
    Ok(told)
}

/// Whether one of some sessions is internal.
fn some_internal(sessions: &[Session]) -> bool
    ensures { result ≡ list_any spec.is_inside sessions.now }
{
    for session in sessions {
        if !session.is_external {
            return true;
        }
    }
    false
}

/// Whether some session to a router is internal.
pub(crate) fn has_internal(sessions: &ConfiguredSessions, router: RouterId) -> bool
    ensures { result ≡ spec.has_internal sessions.now router }
{
    some_internal(sessions_of(sessions, router))
}

/// What is listed of a router.
fn listed_of(
    alloc: Global,
    sessions: &ConfiguredSessions,
    state: &Knowledge,
    router: RouterId,
) -> Result<Option<Items<Best>>, AllocError>
    requires { All IsRouterState state.now }
    ensures { IfOk result (λ listed. listed ≡ spec.listed_of sessions.now state.now router) }
{
    if !has_internal(sessions, router) {
        return Ok(None);
    }
    let told = not_heard_inside(alloc, &paths_of(state, router))?;
    Ok(Some(told))
}

/// What each router may tell its internal peers of what it knows in a state, once for all of them: its best paths but those that an
/// internal peer told it (RFC 4271 s.9.2.1). Of a router without internal peers nothing is listed. It errs only where memory runs out.
pub fn told_inside(
    alloc: Global,
    sessions: &ConfiguredSessions,
    state: &Knowledge,
) -> Result<Inside, AllocError>
    requires { All IsRouterState state.now }
    ensures { IfOk result (λ all. all ≡ spec.told_inside sessions.now state.now) }
{
    let mut all = Items::new(alloc);
    for index in 0..sessions.len() {
        all.push(listed_of(alloc, sessions, state, RouterId::at(index))?)?;
    }
    Ok(all)
}

/// What is listed of a router, if it is.
fn listed_in(listed: &Option<Items<Best>>) -> Option<&[Best]>
    ensures { option_copied result ≡ listed.now }
{
    match listed {
        Some(listed) => Some(listed.as_slice()),
        None => None,
    }
}

/// What is listed of the sender of an internal session, if it is: among it is all that it may tell over the session.
pub(crate) fn listed_for<'a>(all: &'a Inside, session: &Session) -> Option<&'a [Best]>
    ensures { option_copied result ≡ spec.listed_for all.now session.now }
{
    if session.is_external {
        return None;
    }
    let found = all.as_slice().get(session.sender.index());
    match found {
        Some(listed) => listed_in(listed),
        None => None,
    }
}
