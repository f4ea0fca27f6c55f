//! Routes that say where a packet goes, with no look-up.
ghost use Rattle.std.specs.Prelude.{◌≡◌};
ghost use Rattle.std.specs.List.{list_all};
ghost use Rattle.rc_fib.specs.Forwarding.{is_resolved};
ghost use Rattle.rc_failures.specs.AtAddress.{is_plain, is_plain_part, knows_plain};

use rc_route::{Hop, Route, RouterState, State, Table};
use std::alloc::Global;
use std::sync::Arc;

/// Whether a hop says where a packet goes.
fn is_resolved(hop: &Hop) -> bool
    ensures { result ≡ is_resolved hop.now }
{
    match hop {
        Hop::Null => true,
        Hop::Dev(_) => true,
        Hop::Via(_, through) => through.is_some(),
    }
}

/// Whether each hop of a route does.
fn is_plain(route: &Route) -> bool
    ensures { result ≡ is_plain route.now }
{
    route.hops.as_slice().iter().all(|hop| is_resolved(hop))
}

/// Whether each hop of a part of a table does.
#[tactic(auto, unfolding(crate::specs::AtAddress::is_plain_part))]
fn is_plain_part(part: &Arc<Table, Global>) -> bool
    ensures { result ≡ is_plain_part part.now }
{
    part.as_slice().iter().all(|route| is_plain(route))
}

/// Whether each hop of some parts does.
fn are_plain_parts(parts: &[Arc<Table, Global>]) -> bool
    ensures { result ≡ list_all is_plain_part parts.now }
{
    parts.iter().all(|part| is_plain_part(part))
}

/// Whether each hop that a router knows does.
fn knows_plain(known: &RouterState) -> bool
    ensures { result ≡ knows_plain known.now }
{
    are_plain_parts(known.table.parts())
}

/// Whether each hop that routers know does.
pub(crate) fn know_plain(state: &State) -> bool
    ensures { result ≡ list_all knows_plain state.now }
{
    state.as_slice().iter().all(|known| knows_plain(known))
}
