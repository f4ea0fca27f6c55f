//! The routes of a router as they are taken, one after another.
ghost use Rattle.std.specs.Prelude.{◌≡◌, IfOk, OnOk};
ghost use Rattle.rc_ospf.specs.Members.{table_of};
ghost use Rattle.rc_ospf.specs.Taking.{Takes};

use crate::destination::Destination;
use crate::ospf_router::Member;
use crate::routes::{routes_of, take_routes};
use rc_base::Prefix;
use rc_pieces::Pieces;
use rc_route::{Route, SharedHops, Source};
use std::alloc::{AllocError, Global};

/// What takes routes of OSPF one after another.
pub trait TakesRoutes {
    ghost use Rattle.std.specs.Prelude.{◌<◌, ◌^◌, ◌∷◌, [], List, OnOk};
    ghost use Rattle.rc_ospf.specs.Taking.{Takes};
    ghost use Rattle.rc_route.specs.declared.route.Route.{Route as OneRoute};

    /// This has become of the first by taking these routes.
    ghost becomes: { Self → List OneRoute → Self → Type 0 };

    /// Takes one route more, whose distance is 110: its hops are lent. It errs only where memory runs out, or as many share the hops as can be
    /// counted.
    fn take(
        &mut self,
        alloc: Global,
        prefix: Prefix,
        source: Source,
        metric: u32,
        hops: &SharedHops,
    ) -> Result<(), AllocError>
        requires { metric < 2 ^ 27 }
        ensures { OnOk result (Takes becomes (record { prefix = prefix; source = source; distance = 110; metric = metric; hops = hops.now } ∷ []) self.old self.new) };
}

/// A router, and the destinations to which its routes lead.
#[derive(Clone, Copy)]
pub struct RoutesOf<'d, 'm, 'w> {
    pub(crate) member: &'m Member<'w>,
    pub(crate) destinations: &'d [Destination],
    /// How many routers there are.
    pub(crate) routers: usize,
}

impl<'d, 'm, 'w> RoutesOf<'d, 'm, 'w> {
    ghost use Rattle.rc_ospf.specs.Taking.{routes_in};

    /// How many routes the router has at most.
    pub fn most(&self) -> usize {
        self.destinations.len()
    }

    /// Lets them be taken, by address, then length. It errs only where what takes them does, or memory runs out.
    pub fn take_all<T: TakesRoutes>(&self, alloc: Global, taking: &mut T) -> Result<(), AllocError>
        ensures { OnOk result (Takes T.becomes (routes_in self.now) taking.old taking.new) }
    {
        take_routes(taking, alloc, self.member, self.destinations, self.routers)
    }

    /// All of them in a list, by address, then length. It errs only where memory runs out.
    pub fn list(&self, alloc: Global) -> Result<Pieces<Route>, AllocError>
        ensures { IfOk result (λ routes. routes ≡ routes_in self.now) }
    {
        routes_of(alloc, self.member, self.destinations, self.routers)
    }
}
