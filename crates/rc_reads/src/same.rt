//! Whether two states tell the same of some routers.
ghost use Rattle.std.specs.Prelude.{◌≡◌, ◌↔◌, IsTrue, slice_get};
ghost use Rattle.rc_reads.specs.Reads.{AreEqualAt};

use rc_base::RouterId;
use rc_pieces::{Knowledge, known_at};

/// Whether two states tell the same of a router.
pub(crate) fn is_same_at(before: &Knowledge, now: &Knowledge, router: RouterId) -> bool
    ensures { IsTrue result ↔ (slice_get before.now router ≡ slice_get now.now router) }
{
    let one = known_at(before, router);
    let other = known_at(now, router);
    match one {
        Some(one) => match other {
            Some(other) => one.is_same(other),
            None => false,
        },
        None => other.is_none(),
    }
}

/// Whether two states tell the same of each of some routers.
pub(crate) fn are_same(routers: &[RouterId], before: &Knowledge, now: &Knowledge) -> bool
    ensures { IsTrue result ↔ AreEqualAt routers.now before.now now.now }
{
    for router in routers {
        if !is_same_at(before, now, *router) {
            return false;
        }
    }
    true
}
