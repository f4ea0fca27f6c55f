//! The next table of a router: where all but its best paths stays what it was, the previous one with other routes at the prefixes that changed.
ghost use Rattle.std.specs.Prelude.{◌≡◌, [], IfOk, IfSome, IsTrue, OnOk, Some, map, true};
ghost use Rattle.std.specs.List.Sorted.{IsStrictlySortedBy};
ghost use Rattle.std.specs.Option.{option_copied};
ghost use Rattle.rc_base.specs.Prefix.{prefix_cmp};
ghost use Rattle.rc_bgp.specs.Changes.{CoversChange};
ghost use Rattle.rc_bgp.specs.RouterStates as known_spec;
ghost use Rattle.rc_bgp.specs.RouterStates.{route_at};
ghost use Rattle.rc_config.specs.Lawful.{IsRouter};
ghost use Rattle.rc_config.specs.Members.{router_at};
ghost use Rattle.rc_ospf.specs.Internal.{routes_of};
ghost use Rattle.rc_route.specs.Tables.{IsBestList, IsTable};
ghost use Rattle.rc_rib.specs.Inputs.{AreInputs};
ghost use Rattle.rc_rib.specs.Mending as spec;
ghost use Rattle.rc_rib.specs.Mending.{AreMended, IsMendable};
ghost use Rattle.rc_rib.specs.Next.{learned_routes, ospf_routes, table_after};

use crate::Inputs;
use crate::merging::of_both;
use crate::next::{has_no_boundaries, is_free_of_tables, own_from, table_beside};
use rc_base::{Prefix, RouterId};
use rc_bgp::learned_route;
use rc_config::RouterText;
use rc_pieces::{Alike, Edit, Edits, Finder, Listed, Pieces, edited, known_at, same};
use rc_route::{Best, Route, SharedHops, Source, Table, listed_at};
use std::alloc::{AllocError, Global};
use std::collections::VecDeque;

/// The hops of the last edit, where it puts a route.
fn last_hops(edits: &Edits<Route>) -> Option<&SharedHops> {
    match edits.back() {
        Some(edit) => match &edit.value {
            Some(route) => Some(&route.hops),
            None => None,
        },
        None => None,
    }
}

/// The route that the best path of a prefix gives.
fn learned_at(
    alloc: Global,
    beside: Option<&SharedHops>,
    paths: &mut Finder<'_, Best>,
    prefix: &Prefix,
) -> Result<Option<Route>, AllocError>
    requires { IsBestList paths.old }
    ensures value { IfOk result (λ route. route ≡ spec.learned_at paths.old prefix.now) }
    ensures same { paths.new ≡ paths.old }
{
    let found = paths.at(prefix);
    match found {
        None => Ok(None),
        Some(best) => learned_route(alloc, beside, best),
    }
}

/// A route again, where there is one.
fn again(found: Option<&Route>) -> Result<Option<Route>, AllocError>
    ensures { IfOk result (λ route. route ≡ option_copied found.entry) }
{
    match found {
        None => Ok(None),
        Some(route) => {
            let again = route.copy()?;
            Ok(Some(again))
        }
    }
}

/// The route of just this prefix in a table, again.
fn copy_at(table: &[Route], prefix: &Prefix) -> Result<Option<Route>, AllocError>
    requires { IsTable table.now }
    ensures { IfOk result (λ route. route ≡ route_at table.now prefix.now) }
{
    again(listed_at(table, prefix))
}

/// Whether routes of a source are given by best paths.
fn is_learned(source: Source) -> bool
    ensures { result ≡ spec.is_learned source }
{
    match source {
        Source::Ebgp => true,
        Source::Ibgp => true,
        _ => false,
    }
}

/// Makes a router's connected and static routes, where they aren't made yet.
fn make_own(
    alloc: Global,
    inputs: &Inputs<'_>,
    router: RouterId,
    file: &RouterText,
    own: &mut Option<Table>,
) -> Result<(), AllocError>
    requires inputs { AreInputs inputs.now }
    requires own { IfSome own.old (λ t. t ≡ spec.own_routes router file.now (known_spec.table_of inputs.now.previous.now router)) }
    ensures { OnOk result (own.new ≡ Some (spec.own_routes router file.now (known_spec.table_of inputs.now.previous.now router))) }
{
    if own.is_none() {
        *own = Some(own_from(alloc, router, file, inputs.previous)?);
    }
    Ok(())
}

/// The route of a prefix after a round: the preferred of a router's own one, of the one that its best path gives, and of the one by OSPF.
fn of_all(
    own: &Option<Table>,
    learned: Option<Route>,
    inside: &Listed<'_, Route>,
    prefix: &Prefix,
) -> Result<Option<Route>, AllocError>
    requires own { IfSome own.now IsTable }
    requires inside { IsTable inside.now }
    ensures { IfSome own.now (λ t. IfOk result (λ route. route ≡ spec.of_all t learned inside.now prefix.now)) }
{
    let by_file = match own {
        None => None,
        Some(own) => copy_at(own.as_slice(), prefix)?,
    };
    let by_ospf = again(inside.at(prefix))?;
    Ok(of_both(of_both(by_file, learned), by_ospf))
}

/// The route of a prefix after a round, by what the previous table has there. Where it has none, no other than the best path gives one, and
/// where it has one that no best path gave, that is the preferred of all others; else a router's own routes are asked.
fn route_after(
    alloc: Global,
    inputs: &Inputs<'_>,
    router: RouterId,
    file: &RouterText,
    own: &mut Option<Table>,
    known: Option<&Route>,
    learned: Option<Route>,
    prefix: &Prefix,
) -> Result<Option<Route>, AllocError>
    requires inputs { AreInputs inputs.now }
    requires own { IfSome own.old (λ t. t ≡ spec.own_routes router file.now (known_spec.table_of inputs.now.previous.now router)) }
    ensures value { IfOk result (λ route. route ≡ spec.route_after (spec.own_routes router file.now (known_spec.table_of inputs.now.previous.now router)) (routes_of inputs.now.internal.now router) (option_copied known.entry) learned prefix.now) }
    ensures own { IfOk result (λ route. IfSome own.new (λ t. t ≡ spec.own_routes router file.now (known_spec.table_of inputs.now.previous.now router))) }
{
    match known {
        None => Ok(learned),
        Some(route) => {
            if is_learned(route.source) {
                make_own(alloc, inputs, router, file, own)?;
                of_all(&*own, learned, &inputs.internal.routes_of(router), prefix)
            } else {
                let again = route.copy()?;
                Ok(of_both(Some(again), learned))
            }
        }
    }
}

/// Whether there is the same route.
fn is_same(known: Option<&Route>, route: &Option<Route>) -> bool
    ensures { IsTrue result → option_copied known.entry ≡ route.now }
{
    match known {
        None => route.is_none(),
        Some(known) => match route {
            None => false,
            Some(route) => known.is_same(route),
        },
    }
}

/// What the next table has at those of some prefixes, which stand in order, at which that is another route than the previous one has.
fn edits_of(
    alloc: Global,
    inputs: &Inputs<'_>,
    router: RouterId,
    file: &RouterText,
    known: &Listed<'_, Route>,
    paths: &Listed<'_, Best>,
    changed: &[Prefix],
) -> Result<Edits<Route>, AllocError>
    requires inputs { AreInputs inputs.now }
    requires known { IsTable known.now }
    requires paths { IsBestList paths.now }
    requires changed { IsStrictlySortedBy prefix_cmp changed.now }
    ensures { IfOk result (λ edits. AreMended (spec.own_routes router file.now (known_spec.table_of inputs.now.previous.now router)) paths.now (routes_of inputs.now.internal.now router) known.now changed.now edits.items) }
{
    let mut edits = VecDeque::with_capacity(alloc, changed.len())?;
    let mut own = None;
    let mut routes = Finder::of(known);
    let mut best = Finder::of(paths);
    for prefix in changed {
        let before = routes.at(prefix);
        let learned = learned_at(alloc, last_hops(&edits), &mut best, prefix)?;
        let route = route_after(
            alloc, inputs, router, file, &mut own, before, learned, prefix,
        )?;
        if is_same(before, &route) {
            continue;
        }
        edits.push_back(Edit {
            prefix: *prefix,
            value: route,
        })?;
    }
    Ok(edits)
}

/// The table of a router in the state before.
fn known_table<'a>(inputs: &Inputs<'a>, router: RouterId) -> Listed<'a, Route>
    requires { AreInputs inputs.now }
    ensures value { result ≡ known_spec.table_of inputs.now.previous.now router }
    ensures in_order { IsTable result }
{
    let Some(known) = known_at(inputs.previous, router) else {
        return Listed::none();
    };
    known.table()
}

/// Whether there is no edit.
fn are_none(edits: &Edits<Route>) -> bool
    ensures { IsTrue result → edits.now.items ≡ [] }
{
    match edits.front() {
        None => true,
        Some(_edit) => false,
    }
}

/// The previous table of a router of this file, with other routes at the prefixes that changed, and whether it is the same.
fn mended_table(
    alloc: Global,
    inputs: &Inputs<'_>,
    router: RouterId,
    file: &RouterText,
    paths: &Listed<'_, Best>,
    changed: &[Prefix],
) -> Result<(Pieces<Route>, bool), AllocError>
    requires inputs { AreInputs inputs.now }
    requires paths { IsBestList paths.now }
    requires changed { IsStrictlySortedBy prefix_cmp changed.now }
    ensures value { IfOk result (λ t. t.0 ≡ spec.mended (spec.own_routes router file.now (known_spec.table_of inputs.now.previous.now router)) paths.now (routes_of inputs.now.internal.now router) (known_spec.table_of inputs.now.previous.now router) changed.now) }
    ensures same { IfOk result (λ t. t.1 ≡ true → t.0 ≡ known_spec.table_of inputs.now.previous.now router) }
{
    let known = known_table(inputs, router);
    let edits = edits_of(alloc, inputs, router, file, &known, paths, changed)?;
    let is_same = are_none(&edits);
    let table = edited(alloc, &known, edits)?;
    Ok((table, is_same))
}

/// Whether a table is the one of a router in the state before.
fn is_known(inputs: &Inputs<'_>, router: RouterId, table: &Pieces<Route>) -> bool
    ensures { IsTrue result → table.now ≡ known_spec.table_of inputs.now.previous.now router }
{
    let known = known_at(inputs.previous, router);
    match known {
        None => false,
        Some(known) => same(table, &known.table),
    }
}

/// The next table of a router of this file that has these best paths, made anew. Only where nothing changed in them it is held against the
/// one before.
fn table_anew(
    alloc: Global,
    inputs: &Inputs<'_>,
    router: RouterId,
    file: &RouterText,
    paths: &Listed<'_, Best>,
    changed: &[Prefix],
) -> Result<(Pieces<Route>, bool), AllocError>
    requires inputs { AreInputs inputs.now }
    requires paths { IsBestList paths.now }
    ensures value { IfOk result (λ t. t.0 ≡ table_after router file.now (learned_routes paths.now) (ospf_routes inputs.now.internal.now inputs.now.externals.now router) (known_spec.table_of inputs.now.previous.now router)) }
    ensures in_order { IfOk result (λ t. IsTable t.0) }
    ensures same { IfOk result (λ t. t.1 ≡ true → t.0 ≡ known_spec.table_of inputs.now.previous.now router) }
{
    let table = table_beside(alloc, inputs, router, file, paths)?;
    let is_same = changed.is_empty() && is_known(inputs, router, &table);
    Ok((table, is_same))
}

/// Whether a router of this file has the same routes after every state, but for those that its best paths give.
fn is_mendable(inputs: &Inputs<'_>, router: RouterId, file: &RouterText) -> bool
    ensures { IsTrue result → IsMendable inputs.now.internal.now router file.now }
{
    has_no_boundaries(inputs.internal, router) && is_free_of_tables(file)
}

/// The next table of a router of this file that has these best paths, which say other than those before at most at the prefixes that
/// changed; and a flag that is set only where it is the table before.
pub(crate) fn next_table(
    alloc: Global,
    inputs: &Inputs<'_>,
    router: RouterId,
    file: &RouterText,
    paths: &Listed<'_, Best>,
    changed: &[Prefix],
) -> Result<(Pieces<Route>, bool), AllocError>
    requires inputs { AreInputs inputs.now }
    requires router { IsRouter inputs.now.network.now router }
    requires file { router_at inputs.now.network.now router ≡ Some file.now }
    requires paths { IsBestList paths.now }
    requires changed { CoversChange changed.now (known_spec.paths_of inputs.now.previous.now router) paths.now }
    requires changed_in_order { IsStrictlySortedBy prefix_cmp changed.now }
    ensures value { IfOk result (λ t. t.0 ≡ table_after router file.now (learned_routes paths.now) (ospf_routes inputs.now.internal.now inputs.now.externals.now router) (known_spec.table_of inputs.now.previous.now router)) }
    ensures in_order { IfOk result (λ t. IsTable t.0) }
    ensures same { IfOk result (λ t. t.1 ≡ true → t.0 ≡ known_spec.table_of inputs.now.previous.now router) }
{
    match &inputs.earlier {
        None => table_anew(alloc, inputs, router, file, paths, changed),
        Some(_earlier) => {
            if is_mendable(inputs, router, file) {
                mended_table(alloc, inputs, router, file, paths, changed)
            } else {
                table_anew(alloc, inputs, router, file, paths, changed)
            }
        }
    }
}
