//! What a router knows in a state.
ghost use Rattle.std.specs.Prelude.{◌≡◌, All};
ghost use Rattle.rc_route.specs.Tables.{IsBestList, IsRouterState, IsTable};
ghost use Rattle.rc_bgp.specs.RouterStates as spec;

use rc_base::RouterId;
use rc_pieces::{Knowledge, Listed, known_at};
use rc_route::{Best, Route};

/// The table of a router in a state.
#[tactic(auto, using(crate::proofs::KnownLaws::table_in_order))]
pub(crate) fn table_of(state: &Knowledge, router: RouterId) -> Listed<'_, Route>
    requires { All IsRouterState state.now }
    ensures value { result ≡ spec.table_of state.now router }
    ensures in_order { IsTable result }
{
    let Some(known) = known_at(state, router) else {
        return Listed::none();
    };
    known.table()
}

/// The best paths of a router in a state.
#[tactic(auto, using(crate::proofs::KnownLaws::paths_in_order))]
pub(crate) fn paths_of(state: &Knowledge, router: RouterId) -> Listed<'_, Best>
    requires { All IsRouterState state.now }
    ensures value { result ≡ spec.paths_of state.now router }
    ensures in_order { IsBestList result }
{
    let Some(known) = known_at(state, router) else {
        return Listed::none();
    };
    known.paths()
}
