//! The routes of routers as they are used, one router after another, where they need not all be kept.
ghost use Rattle.std.specs.Prelude.{◌≡◌, ◌≤◌, IfOk};
ghost use Rattle.rc_ospf.specs.Grounds.{AreGrounds, AreMadeOver};
ghost use Rattle.rc_outside.specs.Gate.{passage};

use crate::destination::Destination;
use crate::grounds::Grounds;
use crate::member::members;
use crate::ospf_router::Member;
use crate::shares::few_routers;
use crate::tables::destinations_of;
use crate::taking::RoutesOf;
use rc_base::{Items, RouterId};
use rc_config::Network;
use rc_outside::{Gate, Passed};
use rc_shares::{Each, each_at_once};
use std::alloc::{AllocError, Global};
use std::thread::Threads;

/// What is made of the routes of each router by itself.
pub trait UsesRoutes: Sync {
    ghost use Rattle.std.specs.Prelude.{ℕ, List, IfOk};
    ghost use Rattle.rc_ospf.specs.Taking.{routes_in};
    ghost use Rattle.rc_route.specs.Tables.{IsTable};
    ghost use Rattle.rc_route.specs.declared.route.Route.{Route as OneRoute};

    /// What is made.
    type Made: Drop + Send;

    /// That this is made of a router, by its index, and of its routes.
    ghost makes: { Self → ℕ → List OneRoute → Self.Made → Type 0 };

    /// What is made of a router and its routes inside and between areas, which it takes one by one. It errs only where memory runs out, or as
    /// many share hops as can be counted.
    fn make(
        &self,
        alloc: Global,
        router: RouterId,
        routes: &RoutesOf<'_, '_, '_>,
    ) -> Result<Self::Made, AllocError>
        requires { IsTable (routes_in routes.now) }
        ensures { IfOk result (makes self.now router (routes_in routes.now)) };
}

/// The routers whose routes to some destinations are used.
#[derive(Drop)]
struct Routers<'u, 'd, 'm, 'w, U> {
    uses: &'u U,
    destinations: &'d [Destination],
    members: &'m [Member<'w>],
}

impl<'u, 'd, 'm, 'w, U: UsesRoutes> Each for Routers<'u, 'd, 'm, 'w, U> {
    ghost use Rattle.std.specs.Prelude.{All, length, slice_index_or};
    ghost use Rattle.rc_ospf.specs.Members.{table_of};
    ghost use Rattle.rc_ospf.specs.declared.ospf_router.Member.{Member as OneMember};
    ghost use Rattle.rc_route.specs.Tables.{IsTable};

    type Made = U::Made;

    ghost count = { λ s. length s.members.now };

    ghost ready = { λ s. All (λ m. IsTable (table_of s.destinations.now m)) s.members.now };

    ghost makes = { λ s i made. (d : OneMember) → U.makes s.uses.now i (table_of s.destinations.now (slice_index_or s.members.now i d)) made };

    fn items(&self) -> usize {
        self.members.len()
    }

    fn few(&self) -> usize {
        few_routers(self.destinations.len())
    }

    fn make(&self, alloc: Global, item: usize) -> Result<U::Made, AllocError> {
        let routes = RoutesOf {
            member: &self.members[item],
            destinations: self.destinations,
            routers: self.members.len(),
        };
        self.uses.make(alloc, RouterId::at(item), &routes)
    }
}

/// What is made of the routes of each router, in the network's order. The workers share the routers: each of them has passed the gate in this
/// phase, before its share. It errs only where memory runs out.
pub fn made_of_routes<R: Threads + Sync, U: UsesRoutes, G: Gate>(
    rt: &R,
    alloc: Global,
    net: &Network,
    grounds: &Grounds,
    uses: &U,
    workers: u32,
    phase: u32,
    gate: &G,
) -> Result<(Passed, Items<U::Made>), AllocError>
    requires grounds { AreGrounds net.now grounds.now }
    requires some_workers { 1 ≤ workers }
    ensures passed { IfOk result (λ p. p.0 ≡ passage phase 0 workers) }
    ensures made { IfOk result (λ p. AreMadeOver (U.makes uses.now) net.now grounds.now.internal p.1) }
{
    let members = members(alloc, grounds.areas.as_slice(), &grounds.walks)?;
    let members = members.as_slice();
    let interfaces = grounds.interfaces.as_slice();
    let destinations = destinations_of(rt, alloc, net, interfaces, members, None, workers)?;
    let routers = Routers {
        uses,
        destinations: destinations.as_slice(),
        members,
    };
    let (passed, made) = each_at_once(rt, alloc, &routers, workers, phase, gate);
    let Ok(made) = made else {
        return Err(AllocError);
    };
    Ok((passed, made))
}
