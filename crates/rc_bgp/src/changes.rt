//! What changed in best paths from one round to the next.
ghost use Rattle.std.specs.Prelude.{◌≡◌};
ghost use Rattle.rc_bgp.specs.Changes as spec;

use crate::Session;
use rc_base::{Items, Prefix, RouterId};
use rc_pieces::Pieces;
use rc_route::Best;

/// For each router, in order, the prefixes whose best path may differ from the one a round earlier.
pub type Changes = Items<Items<Prefix>>;

/// A router's best paths after a state, and the prefixes, in order, whose best path may be another than before.
#[derive(Drop)]
pub struct Renewed {
    pub paths: Pieces<Best>,
    pub changed: Items<Prefix>,
}

/// The prefixes that are told of a router.
pub(crate) fn changes_of(changes: &Changes, router: RouterId) -> &[Prefix]
    ensures { result.now ≡ spec.changes_of changes.now router }
{
    let found = changes.as_slice().get(router.index());
    match found {
        Some(found) => found.as_slice(),
        None => &[],
    }
}

/// The prefixes that changed at the sender of a session, in what may go over it.
pub(crate) fn changes_over<'a>(
    changes: &'a Changes,
    inside: &'a Changes,
    session: &Session,
) -> &'a [Prefix]
    ensures { result.now ≡ spec.changes_over changes.now inside.now session.now }
{
    if session.is_external {
        changes_of(changes, session.sender)
    } else {
        changes_of(inside, session.sender)
    }
}
