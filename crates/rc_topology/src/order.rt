//! Interfaces in position order, found by bisection.
ghost use Rattle.std.specs.Prelude.{◌≡◌, ◌==◌, not, nat_lt, slice_get};
ghost use Rattle.std.specs.List.{find, list_any};
ghost use Rattle.rc_topology.specs.Order.{is_before, is_behind, earlier, AreInPositionOrder};

use rc_base::{IfId, RouterId};

/// Whether one interface stands before another in position order.
pub(crate) fn is_before(one: &IfId, other: &IfId) -> bool
    ensures { result ≡ is_before one.now other.now }
{
    let (this, that) = (one.router.index(), other.router.index());
    this < that || (this == that && one.index < other.index)
}

/// The interface at an index.
fn at(interfaces: &[IfId], index: usize) -> Option<IfId>
    ensures { result ≡ slice_get interfaces.now index }
{
    let found = interfaces.get(index);
    match found {
        Some(found) => Some(*found),
        None => None,
    }
}

/// The first interface that stands behind one.
fn first_past(interfaces: &[IfId], last: &IfId) -> Option<IfId>
    requires { AreInPositionOrder interfaces.now }
    ensures { result ≡ find (is_before last.now) interfaces.now }
{
    let first = interfaces.partition_point(|other| !is_before(last, other));
    at(interfaces, first)
}

/// The first interface that stands behind one, or the first of all where there is none.
pub(crate) fn first_behind(interfaces: &[IfId], last: &Option<IfId>) -> Option<IfId>
    requires { AreInPositionOrder interfaces.now }
    ensures { result ≡ find (is_behind last.now) interfaces.now }
{
    match last {
        Some(last) => first_past(interfaces, last),
        None => at(interfaces, 0),
    }
}

/// The first interface of a router or of a later one.
fn first_from_router(interfaces: &[IfId], router: RouterId) -> Option<IfId>
    requires { AreInPositionOrder interfaces.now }
    ensures { result ≡ find (λ i. not (nat_lt i.router router)) interfaces.now }
{
    let first = interfaces.partition_point(|other| other.router.index() < router.index());
    at(interfaces, first)
}

/// Whether some interface is of a router.
pub(crate) fn some_of_router(interfaces: &[IfId], router: RouterId) -> bool
    requires { AreInPositionOrder interfaces.now }
    ensures { result ≡ list_any (λ i. i.router == router) interfaces.now }
{
    let first = first_from_router(interfaces, router);
    match first {
        Some(first) => first.router == router,
        None => false,
    }
}

/// The first interface of a later router.
pub(crate) fn first_past_router(interfaces: &[IfId], router: RouterId) -> Option<IfId>
    requires { AreInPositionOrder interfaces.now }
    ensures { result ≡ find (λ i. nat_lt router i.router) interfaces.now }
{
    let first = interfaces.partition_point(|other| other.router.index() <= router.index());
    at(interfaces, first)
}

/// The interface that stands first of two, where there are two.
pub(crate) fn earlier(one: Option<IfId>, other: Option<IfId>) -> Option<IfId>
    ensures { result ≡ earlier one other }
{
    match (one, other) {
        (None, None) => None,
        (None, Some(that)) => Some(that),
        (Some(this), None) => Some(this),
        (Some(this), Some(that)) => {
            if is_before(&that, &this) {
                Some(that)
            } else {
                Some(this)
            }
        }
    }
}
