//! A table with the routes that best paths give, made in one pass over both.
ghost use Rattle.std.specs.Prelude.{◌≡◌, ◌<◌, [], ◌∷◌, ◌++◌, IfOk, OnOk, Some, length};
ghost use Rattle.std.specs.declared.cmp.Ordering.TheVariants.{Equal, Less};
ghost use Rattle.rc_rib.specs.Merging.{KeepsWhole, front_prefix, merged, which};
ghost use Rattle.rc_rib.specs.Next as spec;

use crate::merging::{better, front_prefix, take_front, which};
use crate::sharing::last_hops;
use rc_base::Items;
use rc_bgp::learned_route;
use rc_pieces::Listed;
use rc_route::{Best, Route, Table};
use std::alloc::{AllocError, Global};
use std::cmp::Ordering;
use std::collections::VecDeque;

/// Which comes first, the first of what is left of a table or a route.
fn which_is_first(left: &VecDeque<Route>, route: &Route) -> Ordering
    ensures { result ≡ which (front_prefix left.now.items) (Some route.now.prefix) }
{
    which(front_prefix(left), Some(route.prefix))
}

/// Moves the first of what is left, which stands before a route, to the end of what is made.
fn move_front(left: &mut VecDeque<Route>, made: &mut Table, route: &Route) -> Result<(), AllocError>
    requires { which (front_prefix left.old.items) (Some route.now.prefix) ≡ Less }
    ensures whole { OnOk result (KeepsWhole left.old.items made.old (route.now ∷ []) left.new.items made.new (route.now ∷ [])) }
    ensures fewer { OnOk result (length left.new.items < length left.old.items) }
{
    let front = take_front(left);
    match front {
        None => Ok(()),
        Some(first) => made.push(first),
    }
}

/// Puts a route, or the first of what is left, which is of its prefix, at the end of what is made: the preferred one.
fn push_better(left: &mut VecDeque<Route>, made: &mut Table, route: Route) -> Result<(), AllocError>
    requires { which (front_prefix left.old.items) (Some route.prefix) ≡ Equal }
    ensures { OnOk result (KeepsWhole left.old.items made.old (route ∷ []) left.new.items made.new []) }
{
    let front = take_front(left);
    match front {
        None => Ok(()),
        Some(first) => made.push(better(first, route)),
    }
}

/// Puts a route at the end of what is made, behind all that stands before it in what is left.
fn place(left: &mut VecDeque<Route>, made: &mut Table, route: Route) -> Result<(), AllocError>
    ensures { OnOk result (KeepsWhole left.old.items made.old (route ∷ []) left.new.items made.new []) }
{
    loop {
        match which_is_first(left, &route) {
            Ordering::Less => move_front(left, made, &route)?,
            Ordering::Equal => return push_better(left, made, route),
            Ordering::Greater => return made.push(route),
        }
    }
}

/// Puts the route that a best path gives, if any, in its place. It shares the hops of the route before it, where these are the same.
fn place_learned(
    alloc: Global,
    left: &mut VecDeque<Route>,
    made: &mut Table,
    best: &Best,
) -> Result<(), AllocError>
    ensures { OnOk result (KeepsWhole left.old.items made.old (spec.learned_routes (best.now ∷ [])) left.new.items made.new []) }
{
    let learned = learned_route(alloc, last_hops(made), best)?;
    match learned {
        None => Ok(()),
        Some(route) => place(left, made, route),
    }
}

/// Puts what is left at the end of what is made.
fn append(made: &mut Table, mut left: VecDeque<Route>) -> Result<(), AllocError>
    ensures { OnOk result (made.new ≡ made.old ++ left.items) }
{
    while let Some(route) = left.pop_front() {
        made.push(route)?;
    }
    Ok(())
}

/// Puts the routes that some best paths give, in order, in their places.
fn place_all(
    alloc: Global,
    left: &mut VecDeque<Route>,
    made: &mut Table,
    paths: &[Best],
) -> Result<(), AllocError>
    ensures { OnOk result (KeepsWhole left.old.items made.old (spec.learned_routes paths.now) left.new.items made.new []) }
{
    for best in paths {
        place_learned(alloc, left, made, best)?;
    }
    Ok(())
}

/// The best routes of a table and of what best paths give, by address, then length.
pub(crate) fn with_learned(
    alloc: Global,
    table: Table,
    paths: &Listed<'_, Best>,
) -> Result<Table, AllocError>
    ensures { IfOk result (λ made. made ≡ merged table (spec.learned_routes paths.now)) }
{
    if paths.is_empty() {
        return Ok(table);
    }
    let room = table.len().saturating_add(paths.len());
    let mut made = Items::with_room(alloc, room)?;
    let mut left = VecDeque::from(table.into_vec());
    for piece in paths.pieces() {
        place_all(alloc, &mut left, &mut made, piece.as_slice())?;
    }
    append(&mut made, left)?;
    Ok(made)
}
