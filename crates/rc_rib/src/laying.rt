//! Two tables as one, which shares the pieces of one of them in which the other one has no route.
ghost use Rattle.std.specs.Prelude.{◌≡◌, ◌++◌, ◌∷◌, [], IfOk, OnOk, Some, map};
ghost use Rattle.std.specs.Option.{option_copied};
ghost use Rattle.rc_route.specs.Tables.{IsTable};
ghost use Rattle.rc_rib.specs.Laying as spec;
ghost use Rattle.rc_rib.specs.Merging.{merged, of_both};

use crate::merging::is_preferred;
use rc_pieces::{Edit, Edits, Finder, Listed, Pieces, edited};
use rc_route::{Route, Table};
use std::alloc::{AllocError, Global};
use std::collections::VecDeque;

/// The preferred of a route and another one of its prefix, where there is one; the first where neither is.
fn over(route: Route, other: Option<&Route>) -> Result<Route, AllocError>
    ensures { IfOk result (λ better. of_both (Some route) (option_copied other.entry) ≡ Some better) }
{
    match other {
        None => Ok(route),
        Some(other) => {
            if is_preferred(other, &route) {
                other.copy()
            } else {
                Ok(route)
            }
        }
    }
}

/// The preferred of a route that is known, where there is one, and another one of its prefix; the first where neither is.
fn under(known: Option<&Route>, route: Route) -> Result<Route, AllocError>
    ensures { IfOk result (λ better. of_both (option_copied known.entry) (Some route) ≡ Some better) }
{
    match known {
        None => Ok(route),
        Some(known) => {
            if is_preferred(&route, known) {
                Ok(route)
            } else {
                known.copy()
            }
        }
    }
}

/// Puts at the end what is there for the prefix of a route that lies over a table.
fn put_over(
    edits: &mut Edits<Route>,
    below: &mut Finder<'_, Route>,
    route: Route,
) -> Result<(), AllocError>
    requires { IsTable below.old }
    ensures edits { OnOk result (edits.new.items ≡ edits.old.items ++ spec.edit_over below.old route ∷ []) }
    ensures same { below.new ≡ below.old }
{
    let prefix = route.prefix;
    let other = below.at(&prefix);
    let better = over(route, other)?;
    edits.push_back(Edit {
        prefix,
        value: Some(better),
    })?;
    Ok(())
}

/// Puts at the end what is there for the prefix of a route that lies under a table.
fn put_under(
    edits: &mut Edits<Route>,
    above: &mut Finder<'_, Route>,
    route: Route,
) -> Result<(), AllocError>
    requires { IsTable above.old }
    ensures edits { OnOk result (edits.new.items ≡ edits.old.items ++ spec.edit_under above.old route ∷ []) }
    ensures same { above.new ≡ above.old }
{
    let prefix = route.prefix;
    let known = above.at(&prefix);
    let better = under(known, route)?;
    edits.push_back(Edit {
        prefix,
        value: Some(better),
    })?;
    Ok(())
}

/// What is there for the prefixes of a table that lies over another one.
fn edits_over(
    alloc: Global,
    table: Table,
    below: &Listed<'_, Route>,
) -> Result<Edits<Route>, AllocError>
    requires { IsTable below.now }
    ensures { IfOk result (λ edits. edits.items ≡ map (spec.edit_over below.now) table) }
{
    let mut edits = VecDeque::with_capacity(alloc, table.len())?;
    let mut finder = Finder::of(below);
    let mut left = VecDeque::from(table.into_vec());
    while let Some(route) = left.pop_front() {
        put_over(&mut edits, &mut finder, route)?;
    }
    Ok(edits)
}

/// What is there for the prefixes of a table that lies under another one.
fn edits_under(
    alloc: Global,
    above: &Listed<'_, Route>,
    table: Table,
) -> Result<Edits<Route>, AllocError>
    requires { IsTable above.now }
    ensures { IfOk result (λ edits. edits.items ≡ map (spec.edit_under above.now) table) }
{
    let mut edits = VecDeque::with_capacity(alloc, table.len())?;
    let mut finder = Finder::of(above);
    let mut left = VecDeque::from(table.into_vec());
    while let Some(route) = left.pop_front() {
        put_under(&mut edits, &mut finder, route)?;
    }
    Ok(edits)
}

/// The best routes of a table and of another one below it, whose pieces in which the first has no route both share. It errs only where
/// memory runs out.
pub(crate) fn laid_over(
    alloc: Global,
    table: Table,
    below: &Listed<'_, Route>,
) -> Result<Pieces<Route>, AllocError>
    requires table { IsTable table }
    requires below { IsTable below.now }
    ensures { IfOk result (λ made. made ≡ merged table below.now) }
{
    if below.is_empty() {
        return Pieces::of(alloc, table);
    }
    let edits = edits_over(alloc, table, below)?;
    edited(alloc, below, edits)
}

/// The best routes of a table and of another one that is laid under it: the first shares the pieces in which the second has no route. It
/// errs only where memory runs out.
pub(crate) fn laid_under(
    alloc: Global,
    above: Pieces<Route>,
    table: Table,
) -> Result<Pieces<Route>, AllocError>
    requires above { IsTable above }
    requires table { IsTable table }
    ensures { IfOk result (λ made. made ≡ merged above table) }
{
    if table.is_empty() {
        return Ok(above);
    }
    let known = above.listed();
    let edits = edits_under(alloc, &known, table)?;
    edited(alloc, &known, edits)
}
