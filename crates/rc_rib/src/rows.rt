//! The routes of what stands under prefixes: members of an index, hops of static lines, preferred candidates.
ghost use Rattle.std.specs.Prelude.{◌≡◌, IfOk, map};
ghost use Rattle.rc_base.specs.Prefix.{Cidr};
ghost use Rattle.rc_route.specs.declared.route.Route as declared;
ghost use Rattle.rc_rib.specs.Offers.{route_of_hops, route_of_members};

use crate::connected_routes::connected_route;
use crate::grouping::{StaticHops, static_route};
use crate::sharing::last_hops;
use rc_base::{IfId, Items, Prefix};
use rc_route::{Route, SharedHops, Table};
use std::alloc::{AllocError, Global};
use std::collections::BTreeMap;

/// What stands under a prefix and makes its route.
pub(crate) trait MakesRoute: Drop {
    ghost route: { Cidr → Self → declared.Route };

    /// The route of the prefix. What makes it here shares the hops of another route, where these are the same. It errs only where memory
    /// runs out, or as many share them as can be counted.
    fn into_route(
        self,
        alloc: Global,
        beside: Option<&SharedHops>,
        prefix: Prefix,
    ) -> Result<Route, AllocError>
        ensures { IfOk result (λ made. made ≡ route prefix self) };
}

impl MakesRoute for Route {
    ghost route = { λ p r. r };

    fn into_route(
        self,
        _alloc: Global,
        _beside: Option<&SharedHops>,
        _prefix: Prefix,
    ) -> Result<Route, AllocError> {
        Ok(self)
    }
}

impl MakesRoute for StaticHops {
    ghost route = { route_of_hops };

    fn into_route(
        self,
        alloc: Global,
        beside: Option<&SharedHops>,
        prefix: Prefix,
    ) -> Result<Route, AllocError> {
        static_route(alloc, beside, prefix, &self)
    }
}

impl MakesRoute for Items<IfId> {
    ghost route = { route_of_members };

    fn into_route(
        self,
        alloc: Global,
        beside: Option<&SharedHops>,
        prefix: Prefix,
    ) -> Result<Route, AllocError> {
        connected_route(alloc, beside, prefix, self.as_slice())
    }
}

/// The routes of rows, in order of prefix. Each shares the hops of the one before it, where these are the same.
pub(crate) fn routes_of_rows<V: MakesRoute>(
    alloc: Global,
    rows: BTreeMap<Prefix, V>,
) -> Result<Table, AllocError>
    ensures { IfOk result (λ routes. routes ≡ map (λ row. V.route row.0 row.1) rows.entries) }
{
    let mut routes = Items::new(alloc);
    for (prefix, value) in rows {
        let route = value.into_route(alloc, last_hops(&routes), prefix)?;
        routes.push(route)?;
    }
    Ok(routes)
}
