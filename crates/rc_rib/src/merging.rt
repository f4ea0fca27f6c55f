//! Two tables as one.
ghost use Rattle.std.specs.Prelude.{◌≡◌, IfOk};
ghost use Rattle.rc_route.specs.Tables.{IsTable};
ghost use Rattle.rc_rib.specs.Best as spec;
ghost use Rattle.rc_rib.specs.Merging.{IsFront, IsNext, front_prefix, merged, of_both, which};

use rc_base::{Items, Prefix};
use rc_route::{Route, Source, Table, compare_sources};
use std::alloc::{AllocError, Global};
use std::cmp::Ordering;
use std::collections::VecDeque;

/// Whether a route is preferred to another one of its prefix: by the least administrative distance, then by source.
pub(crate) fn is_preferred(route: &Route, other: &Route) -> bool
    ensures { result ≡ spec.is_preferred route.now other.now }
{
    route.distance < other.distance
        || (route.distance == other.distance
            && compare_sources(route.source, other.source) == Ordering::Less)
}

/// The preferred of two routes, the first where neither is.
pub(crate) fn better(first: Route, second: Route) -> Route
    ensures { result ≡ spec.better first second }
{
    if is_preferred(&second, &first) {
        second
    } else {
        first
    }
}

/// The preferred of one route and another, where they are there.
pub(crate) fn of_both(first: Option<Route>, second: Option<Route>) -> Option<Route>
    ensures { result ≡ of_both first second }
{
    match first {
        None => second,
        Some(first) => match second {
            None => Some(first),
            Some(second) => Some(better(first, second)),
        },
    }
}

/// The prefix of the first of some routes.
pub(crate) fn front_prefix(routes: &VecDeque<Route>) -> Option<Prefix>
    ensures { result ≡ front_prefix routes.now.items }
{
    match routes.front() {
        None => None,
        Some(route) => Some(route.prefix),
    }
}

/// Which of two fronts comes first.
pub(crate) fn which(first: Option<Prefix>, second: Option<Prefix>) -> Ordering
    ensures { result ≡ which first second }
{
    match first {
        None => Ordering::Greater,
        Some(first) => match second {
            None => Ordering::Less,
            Some(second) => first.cmp(&second),
        },
    }
}

/// Takes the first of some routes.
pub(crate) fn take_front(routes: &mut VecDeque<Route>) -> Option<Route>
    ensures { IsFront routes.old.items result routes.new.items }
{
    routes.pop_front()
}

/// Takes the first of two tables: of two routes to one prefix both are taken, and the preferred one stays.
fn take_next(first: &mut VecDeque<Route>, second: &mut VecDeque<Route>) -> Option<Route>
    ensures { IsNext first.old.items second.old.items result first.new.items second.new.items }
{
    match which(front_prefix(first), front_prefix(second)) {
        Ordering::Less => take_front(first),
        Ordering::Greater => take_front(second),
        Ordering::Equal => {
            let known = take_front(first);
            let other = take_front(second);
            of_both(known, other)
        }
    }
}

/// The best routes of two tables, by address, then length, in one pass over both.
///
/// Where one of them is empty the other one stays as it is.
pub(crate) fn merged(alloc: Global, first: Table, second: Table) -> Result<Table, AllocError>
    ensures { IfOk result (λ routes. routes ≡ merged first second) }
{
    if first.is_empty() {
        return Ok(second);
    }
    if second.is_empty() {
        return Ok(first);
    }
    let room = first.len().saturating_add(second.len());
    let mut routes = Items::with_room(alloc, room)?;
    let mut first = VecDeque::from(first.into_vec());
    let mut second = VecDeque::from(second.into_vec());
    while let Some(route) = take_next(&mut first, &mut second) {
        routes.push(route)?;
    }
    Ok(routes)
}
