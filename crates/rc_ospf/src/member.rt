//! What is known of routers: their areas, and the least walks from them.
ghost use Rattle.std.specs.Prelude.{[], ◌≡◌, ◌<◌, ◌^◌, ◌∷◌, Some, true, false, IfOk, IfSome, is_some};
ghost use Rattle.std.specs.List.{range_with_len};
ghost use Rattle.std.specs.List.Sorted.{IsStrictlySortedBy};
ghost use Rattle.rc_link_state.specs.Adjacency.{hop_of};
ghost use Rattle.rc_link_state.specs.Tables.{cost_of, hops_of};
ghost use Rattle.rc_ospf.specs.Members.{areas_in, areas_known, reach_of, AreMembersOver};
ghost use Rattle.rc_ospf.specs.Stays.{StayFrom};
ghost use Rattle.rc_route.specs.Hops.{hop_cmp};

use crate::RouterArea;
use crate::known_walks::KnownWalks;
use crate::ospf_router::Member;
use crate::router_area::{is_in, open_areas, router_areas};
use crate::shares::FEW_LIGHT;
use rc_base::{Items, RouterId};
use rc_config::Network;
use rc_link_state::Sole;
use rc_route::Hops;
use rc_shares::{Makes, made_at_once};
use std::alloc::{AllocError, Global};
use std::thread::Threads;

/// The areas of a router, by rising area.
pub(crate) struct Areas {
    pub all: Items<RouterArea>,
    /// Those that aren't stub areas there.
    pub non_stub: Items<RouterArea>,
}

/// By a function of its own, so that what holds areas drops each by one call.
impl Drop for Areas {
    fn drop(self) {
        let Areas {
            all: _,
            non_stub: _,
        } = self;
    }
}

/// Whether stub areas count. Routes from outside of the AS aren't sent into them (RFC 2328, section 3.6), so that no path to
/// an AS boundary router leads through one.
#[derive(Clone, Copy)]
pub(crate) enum StubAreas {
    Kept,
    LeftOut,
}

impl Member<'_> {
    /// Whether a router is another one and this one isn't in the area, where that tells that no walk leads there. So nothing has to be
    /// looked up for it, and most of what is offered between areas is offered in areas where a router isn't.
    #[inline]
    pub fn is_apart(&self, area: u32, router: RouterId) -> bool
        ensures { result ≡ true → is_some (reach_of self.now area router) ≡ false }
    {
        if is_in(area, self.areas.all.as_slice()) {
            return false;
        }
        self.walks.are_all && router != self.router
    }

    /// The cost of the least walks to a router inside an area, below 2^26, where there are any.
    pub fn cost_to(&self, area: u32, router: RouterId) -> Option<u32>
        ensures value { result ≡ cost_of (reach_of self.now area router) }
        ensures small { IfSome result (λ c. c < 2 ^ 26) }
    {
        self.walks.table.cost(self.router, area, router)
    }

    /// The least walks to a router inside an area, where it is quickly told that all of them leave by one step.
    #[inline]
    pub fn sole(&self, area: u32, router: RouterId) -> Option<Sole<'_>>
        ensures walks { IfSome result (λ sole. reach_of self.now area router ≡ Some (record { cost = sole.cost; hops = hop_of sole.step.now ∷ [] })) }
        ensures small { IfSome result (λ sole. sole.cost < 2 ^ 26) }
    {
        self.walks.table.sole(self.router, area, router)
    }

    /// The first hops of the least walks to a router inside an area, in order; none where there are no walks. It errs only where
    /// memory runs out.
    pub fn hops_to(&self, alloc: Global, area: u32, router: RouterId) -> Result<Hops, AllocError>
        ensures value { IfOk result (λ hops. hops ≡ hops_of (reach_of self.now area router)) }
        ensures in_order { IfOk result (λ hops. IsStrictlySortedBy hop_cmp hops) }
    {
        self.walks.table.hops(alloc, self.router, area, router)
    }

    /// Its areas, by rising area.
    pub fn areas(&self, stubs: StubAreas) -> &[RouterArea]
        ensures { result.now ≡ areas_known stubs self.now }
    {
        match stubs {
            StubAreas::Kept => self.areas.all.as_slice(),
            StubAreas::LeftOut => self.areas.non_stub.as_slice(),
        }
    }
}

/// The routers below a number.
pub(crate) fn routers_below(alloc: Global, routers: usize) -> Result<Items<RouterId>, AllocError>
    ensures { IfOk result (λ ids. ids ≡ range_with_len 0 routers) }
{
    let mut ids = Items::new(alloc);
    for index in 0..routers {
        ids.push(RouterId::at(index))?;
    }
    Ok(ids)
}

/// A network of whose routers the areas are wanted.
#[derive(Drop)]
struct AreasIn<'a> {
    net: &'a Network,
}

impl<'a> Makes for AreasIn<'a> {
    type Thing = RouterId;

    type Made = Areas;

    ghost use Rattle.rc_ospf.specs.Members.{areas_at};
    ghost use Rattle.rc_shares.specs.Making.{IsGiven};

    ghost fits = { λ s r. Unit {0} };

    ghost made = { λ s r a. IsGiven (areas_at s.net.now) (λ _. Unit {0}) r a };

    fn make(&self, alloc: Global, router: &RouterId) -> Result<Areas, AllocError>
        ensures { IfOk result (IsGiven (areas_at self.now.net.now) (λ _. Unit {0}) router.now) }
    {
        let all = router_areas(alloc, self.net, *router)?;
        let non_stub = open_areas(alloc, all.as_slice())?;
        Ok(Areas { all, non_stub })
    }
}

/// The areas of each router of a network, which the workers share. It errs only where memory runs out.
pub(crate) fn areas_of_routers<R: Threads + Sync>(
    rt: &R,
    alloc: Global,
    net: &Network,
    workers: u32,
) -> Result<Items<Areas>, AllocError>
    ensures { IfOk result (λ all. all ≡ areas_in net.now) }
{
    let ids = routers_below(alloc, net.routers.len())?;
    let work = AreasIn { net };
    made_at_once(rt, alloc, &work, ids.as_slice(), FEW_LIGHT, workers)
}

/// The empty list with room for so many elements, which then take no more memory.
fn with_room<T: Drop>(alloc: Global, elements: usize) -> Result<Items<T>, AllocError>
    ensures { IfOk result (λ items. items ≡ []) }
{
    let items = Vec::with_capacity(alloc, elements)?;
    Ok(Items::from_vec(items))
}

/// The routers with these areas, over these walks. It errs only where memory runs out.
pub(crate) fn members<'a>(
    alloc: Global,
    areas: &'a [Areas],
    walks: &'a KnownWalks,
) -> Result<Items<Member<'a>>, AllocError>
    requires { StayFrom walks.now 0 areas.now }
    ensures { IfOk result (AreMembersOver walks.now.table 0 areas.now) }
{
    let mut members = with_room(alloc, areas.len())?;
    for (index, own) in areas.iter().enumerate() {
        members.push(Member {
            router: RouterId::at(index),
            areas: own,
            walks,
        })?;
    }
    Ok(members)
}
