//! The routes of a router to prefixes outside of the AS.
ghost use Rattle.std.specs.Prelude.{◌≡◌, IfOk};
ghost use Rattle.rc_route.specs.Tables.{IsTable};
ghost use Rattle.rc_external.specs.ByPrefix.{as_way};
ghost use Rattle.rc_external.specs.Externals.{IsByPrefix};
ghost use Rattle.rc_external.specs.Routes as spec;

use crate::boundary_index::BoundaryIndex;
use crate::way::{ExternalWay, best_external_way};
use crate::{ExternalRow, Externals};
use rc_base::{Items, Prefix, RouterId};
use rc_config::MetricType;
use rc_link_state::hops_in_order;
use rc_ospf::Internal;
use rc_route::{Route, SharedHops, Source, Table};
use std::alloc::{AllocError, Global};

fn source_by_type(metric_type: MetricType) -> Source
    ensures { result ≡ spec.source_by_type metric_type }
{
    match metric_type {
        MetricType::Type1 => Source::OspfE1,
        MetricType::Type2 => Source::OspfE2,
    }
}

/// The hops of the last route that is made.
fn last_hops(made: &Table) -> Option<&SharedHops> {
    let last = made.as_slice().last();
    match last {
        Some(route) => Some(&route.hops),
        None => None,
    }
}

/// The route over a way. It shares the hops of another route, where these are the same.
fn external_route_over(
    alloc: Global,
    beside: Option<&SharedHops>,
    prefix: Prefix,
    way: &ExternalWay,
) -> Result<Route, AllocError>
    ensures { IfOk result (λ route. route ≡ spec.external_route_over prefix (as_way way.now)) }
{
    let hops = hops_in_order(alloc, way.hops.as_slice())?;
    let hops = SharedHops::beside(alloc, beside, hops)?;
    Ok(Route {
        prefix,
        source: source_by_type(way.cost.metric_type),
        distance: 110,
        metric: way.cost.metric,
        hops,
    })
}

/// The route to the prefix of a row, where a way leads there. It shares the hops of another route, where these are the same.
#[tactic(auto, using(crate::proofs::WayLaws::best_way_is))]
fn external_route_to(
    alloc: Global,
    beside: Option<&SharedHops>,
    paths: &BoundaryIndex<'_>,
    row: &ExternalRow,
) -> Result<Option<Route>, AllocError>
    ensures { IfOk result (λ route. route ≡ spec.external_route_to paths.now row.now) }
{
    match best_external_way(alloc, paths, row.externals.as_slice())? {
        Some(way) => Ok(Some(external_route_over(alloc, beside, row.prefix, &way)?)),
        None => Ok(None),
    }
}

/// The routes to the prefixes of some rows. Each shares the hops of the one before it, where these are the same.
fn routes_over(
    alloc: Global,
    paths: &BoundaryIndex<'_>,
    rows: &[ExternalRow],
) -> Result<Table, AllocError>
    ensures { IfOk result (λ routes. routes ≡ spec.routes_over paths.now rows.now) }
{
    let mut routes = Items::new(alloc);
    for row in rows {
        if let Some(route) = external_route_to(alloc, last_hops(&routes), paths, row)? {
            routes.push(route)?;
        }
    }
    Ok(routes)
}

/// The external routes of a router: of what other routers send, over its paths to them, in order of prefix. Any of type 1 is
/// preferred to any of type 2; of type 1 the distance and the metric together count, of type 2 the metric, and then the distance.
/// Its own prefixes and those that it has inside the AS are among them. It errs only where memory runs out.
pub fn external(
    alloc: Global,
    internal: &Internal,
    externals: &Externals,
    router: RouterId,
) -> Result<Table, AllocError>
    requires { IsByPrefix externals.now }
    ensures value { IfOk result (λ routes. routes ≡ spec.external_routes internal.now externals.now router) }
    ensures in_order { IfOk result IsTable }
{
    let paths = BoundaryIndex::of(alloc, internal.boundaries_of(router))?;
    routes_over(alloc, &paths, externals.as_slice())
}
