//! The OSPF routes of a router from outside of the AS.
ghost use Rattle.std.specs.Prelude.{◌≡◌, ◌++◌, ◌∷◌, [], All, IfOk, OnOk};
ghost use Rattle.std.specs.List.Sorted.{IsStrictlySortedBy};
ghost use Rattle.rc_base.specs.Prefix.{prefix_cmp};
ghost use Rattle.rc_external.specs.Externals.{IsByPrefix};
ghost use Rattle.rc_external.specs.Routes.{external_routes};
ghost use Rattle.rc_route.specs.Tables.{IsTable};
ghost use Rattle.rc_rib.specs.Next as spec;

use rc_base::{Items, RouterId};
use rc_external::{Externals, external};
use rc_ospf::Internal;
use rc_route::{Route, Table};
use std::alloc::{AllocError, Global};
use std::collections::VecDeque;

/// Puts a route at the end of some, where the router doesn't advertise its prefix itself.
fn push_other(
    others: &mut Table,
    internal: &Internal,
    router: RouterId,
    route: Route,
) -> Result<(), AllocError>
    requires { All (IsStrictlySortedBy prefix_cmp) internal.now.own }
    ensures { OnOk result (others.new ≡ others.old ++ spec.to_others internal.now router (route ∷ [])) }
{
    if internal.advertises(router, &route.prefix) {
        return Ok(());
    }
    others.push(route)
}

/// Those of some routes whose prefix a router doesn't advertise itself.
fn to_others(
    alloc: Global,
    internal: &Internal,
    router: RouterId,
    routes: Table,
) -> Result<Table, AllocError>
    requires { All (IsStrictlySortedBy prefix_cmp) internal.now.own }
    ensures { IfOk result (λ others. others ≡ spec.to_others internal.now router routes) }
{
    let mut others = Items::new(alloc);
    let mut left = VecDeque::from(routes.into_vec());
    while let Some(route) = left.pop_front() {
        push_other(&mut others, internal, router, route)?;
    }
    Ok(others)
}

/// The OSPF routes of a router from outside of the AS, to prefixes that it doesn't advertise itself.
pub(crate) fn outside_routes(
    alloc: Global,
    internal: &Internal,
    externals: &Externals,
    router: RouterId,
) -> Result<Table, AllocError>
    requires by_prefix { IsByPrefix externals.now }
    requires own { All (IsStrictlySortedBy prefix_cmp) internal.now.own }
    ensures value { IfOk result (λ routes. routes ≡ spec.to_others internal.now router (external_routes internal.now externals.now router)) }
    ensures in_order { IfOk result IsTable }
{
    let routes = external(alloc, internal, externals, router)?;
    to_others(alloc, internal, router, routes)
}
