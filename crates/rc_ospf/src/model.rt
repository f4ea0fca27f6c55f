//! What OSPF gives without a state.
ghost use Rattle.std.specs.Prelude.{◌≡◌, ◌<◌, ◌^◌, All};
ghost use Rattle.std.specs.List.{list_any};
ghost use Rattle.std.specs.List.Sorted.{IsStrictlySortedBy};
ghost use Rattle.rc_base.specs.Prefix.{prefix_cmp, same_prefix};
ghost use Rattle.rc_ospf.specs.Internal as spec;

use rc_base::{Items, Prefix, RouterId};
use rc_pieces::{Listed, Pieces};
use rc_route::{Hops, Route};
use rc_topology::Links;
use std::marker::Model;

/// The path of a router to an AS boundary router (RFC 2328, section 16.4): its cost, which is below 2^27, and the hops of all
/// least walks, in order.
#[derive(Drop)]
pub struct Boundary {
    router: RouterId,
    cost: u32,
    hops: Hops,
}

impl Model for Boundary {
    ghost use Rattle.rc_ospf.specs.BoundaryPaths.{BoundaryPath, IsNear};

    ghost Value = { BoundaryPath };

    ghost view = { λ b. record { router = b.router; cost = b.cost; hops = b.hops } };

    ghost invariant = { λ b. IsNear (record { router = b.router; cost = b.cost; hops = b.hops }) };
}

impl Boundary {
    pub(crate) fn new(router: RouterId, cost: u32, hops: Hops) -> Boundary
        requires { cost < 2 ^ 27 }
        ensures { result ≡ record { router = router; cost = cost; hops = hops } }
    {
        Boundary { router, cost, hops }
    }

    /// The AS boundary router.
    pub fn router(&self) -> RouterId
        ensures { result ≡ self.now.router }
    {
        self.router
    }

    /// The cost of each of the walks, below 2^27.
    pub fn cost(&self) -> u32
        ensures value { result ≡ self.now.cost }
        ensures small { result < 2 ^ 27 }
    {
        self.cost
    }

    /// The first hops of all of the walks, in order.
    pub fn hops(&self) -> &Hops
        ensures { result.now ≡ self.now.hops }
    {
        &self.hops
    }
}

/// What OSPF gives without a state. It is computed once, before any table.
pub struct Internal {
    /// The links of the network.
    pub links: Links,
    /// By router, in the network's order: its routes inside and between areas, by address, then length, in pieces that its tables
    /// share.
    pub routes: Items<Pieces<Route>>,
    /// By router: its paths to the others that are AS boundary routers, in the network's order.
    pub boundaries: Items<Items<Boundary>>,
    /// By router: the prefixes that it advertises itself, by address, then length.
    pub own: Items<Items<Prefix>>,
}

/// By a function of its own, so that what holds it drops it by one call.
impl Drop for Internal {
    fn drop(self) {
        let Internal {
            links: _,
            routes: _,
            boundaries: _,
            own: _,
        } = self;
    }
}

/// Whether a prefix is one of some in order, by bisection.
fn is_in(prefix: &Prefix, prefixes: &[Prefix]) -> bool
    requires { IsStrictlySortedBy prefix_cmp prefixes.now }
    ensures { result ≡ list_any (same_prefix prefix.now) prefixes.now }
{
    prefixes.binary_search(prefix).is_ok()
}

impl Internal {
    /// The links alone.
    pub fn into_links(self) -> Links
        ensures { result ≡ self.links }
    {
        let Internal {
            links,
            routes: _,
            boundaries: _,
            own: _,
        } = self;
        links
    }

    /// The routes of a router inside and between areas, of which it has none past the end.
    pub fn routes_of(&self, router: RouterId) -> Listed<'_, Route>
        ensures { result ≡ spec.routes_of self.now router }
    {
        let Some(routes) = self.routes.as_slice().get(router.index()) else {
            return Listed::none();
        };
        routes.listed()
    }

    /// The paths of a router to the others that are AS boundary routers, of which it has none past the end.
    pub fn boundaries_of(&self, router: RouterId) -> &[Boundary]
        ensures { result.now ≡ spec.boundaries_of self.now router }
    {
        let found = self.boundaries.as_slice().get(router.index());
        match found {
            Some(paths) => paths.as_slice(),
            None => &[],
        }
    }

    /// Whether a router advertises a prefix itself, by bisection. One past the end advertises none.
    pub fn advertises(&self, router: RouterId, prefix: &Prefix) -> bool
        requires { All (IsStrictlySortedBy prefix_cmp) self.now.own }
        ensures { result ≡ spec.advertises self.now router prefix.now }
    {
        let found = self.own.as_slice().get(router.index());
        match found {
            Some(own) => is_in(prefix, own.as_slice()),
            None => false,
        }
    }
}
