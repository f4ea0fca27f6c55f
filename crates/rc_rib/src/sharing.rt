//! The hops that the next route of a table may share.

use rc_route::{SharedHops, Table};

/// The hops of the last route that is made.
pub(crate) fn last_hops(made: &Table) -> Option<&SharedHops> {
    let last = made.as_slice().last();
    match last {
        Some(route) => Some(&route.hops),
        None => None,
    }
}
