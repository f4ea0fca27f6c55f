//! The costs and first hops of the least walks from a router, found once for all routers in its areas.
ghost use Rattle.std.specs.Prelude.{◌≡◌, ◌<◌, ◌^◌, ◌-◌, ◌++◌, true, [], ◌∷◌, Some, IfOk, IfSome, OnOk, length, slice_get};
ghost use Rattle.std.specs.List.Sorted.{IsStrictlySortedBy};
ghost use Rattle.rc_ospf.specs.FirstHops.{AreFound, AreLast, IsTowards};
ghost use Rattle.rc_ospf.specs.BestOffers.{hops_to};
ghost use Rattle.rc_link_state.specs.Adjacency.{hop_of};
ghost use Rattle.rc_link_state.specs.Tables.{cost_of};
ghost use Rattle.rc_ospf.specs.ByPrefix.{cost_to};
ghost use Rattle.rc_ospf.specs.Members.{reach_of};
ghost use Rattle.rc_ospf.specs.declared.ospf_router.Member.{Member as OneMember};
ghost use Rattle.rc_route.specs.Hops.{hop_cmp};

use crate::member::StubAreas;
use crate::ospf_router::Member;
use crate::way::TellsCosts;
use crate::{Offer, RouterArea};
use rc_base::{Items, RouterId};
use rc_link_state::{Sole, Step};
use rc_route::{Hop, Hops, SharedHops};
use std::alloc::{AllocError, Global};
use std::marker::Model;

/// The cost of the least walks to a router inside an area, where there are any, and where their first hops stand.
#[derive(Clone, Copy)]
pub(crate) struct Towards {
    pub area: u32,
    pub router: RouterId,
    pub cost: Option<u32>,
    /// The place of its first hops among those that were found.
    pub place: usize,
}

/// What is found of the least walks from a router.
pub(crate) struct FoundHops {
    /// By area of the router, and in each by router.
    towards: Items<Towards>,
    /// The first hops that routers side by side have in common.
    hops: Items<SharedHops>,
}

/// By a function of its own, so that what holds them drops them by one call.
impl Drop for FoundHops {
    fn drop(self) {
        let FoundHops {
            towards: _,
            hops: _,
        } = self;
    }
}

/// A router with the first hops of the least walks from it, which many of its routes share; seen as the router.
pub(crate) struct FirstHops<'m, 'w> {
    member: &'m Member<'w>,
    found: FoundHops,
    /// How many routers stand there in each area.
    routers: usize,
}

/// By a function of its own, so that what holds them drops them by one call.
impl<'m, 'w> Drop for FirstHops<'m, 'w> {
    fn drop(self) {
        let FirstHops {
            member: _,
            found: _,
            routers: _,
        } = self;
    }
}

impl<'m, 'w> Model for FirstHops<'m, 'w> {
    ghost use Rattle.rc_ospf.specs.FirstHops.{AreFound};
    ghost use Rattle.rc_ospf.specs.declared.ospf_router.Member.{Member};

    ghost Value = { Member };

    ghost view = { λ f. f.member.now };

    ghost invariant = { λ f. AreFound f.member.now f.found };
}

/// Whether hops are that of a step alone.
fn are_of(hops: &[Hop], step: &Step) -> bool
    ensures { result ≡ true → hops.now ≡ hop_of step.now ∷ [] }
{
    match hops {
        [Hop::Via(gateway, Some(out))] => *gateway == step.gateway && *out == step.out,
        _ => false,
    }
}

impl FoundHops {
    /// Nothing is found, and there is room for so many routers.
    fn with_room(alloc: Global, routers: usize) -> Result<FoundHops, AllocError>
        ensures { IfOk result (λ found. (found.towards ≡ []) × (found.hops ≡ [])) }
    {
        let towards = Items::with_room(alloc, routers)?;
        Ok(FoundHops {
            towards,
            hops: Items::new(alloc),
        })
    }

    /// The place of the last hops, if there are some.
    #[inline]
    fn last_place(&self) -> usize
        ensures { result ≡ length self.now.hops - 1 }
    {
        self.hops.len().saturating_sub(1)
    }

    /// Whether the last hops are that of a step alone.
    #[inline]
    fn ends_by(&self, step: &Step) -> bool
        ensures { result ≡ true → slice_get self.now.hops (length self.now.hops - 1) ≡ Some (hop_of step.now ∷ []) }
    {
        let last = self.hops.as_slice().get(self.last_place());
        match last {
            Some(last) => are_of(last.as_slice(), step),
            None => false,
        }
    }

    /// Whether the last hops are these.
    fn ends_with(&self, hops: &Hops) -> bool
        ensures { result ≡ true → slice_get self.now.hops (length self.now.hops - 1) ≡ Some hops.now }
    {
        let last = self.hops.as_slice().get(self.last_place());
        match last {
            Some(last) => last.are(hops),
            None => false,
        }
    }

    /// What is found at a place, where that is of the router of an offer inside its area.
    #[inline]
    fn towards(&self, place: usize, offer: &Offer) -> Option<&Towards>
        ensures { (m : OneMember) → AreFound m self.now → IfSome result (λ t. IsTowards m self.now.hops t.now × (t.now.area ≡ offer.now.area) × (t.now.router ≡ offer.now.router)) }
    {
        let found = self.towards.as_slice().get(place);
        match found {
            Some(found) if found.area == offer.area() && found.router == offer.router() => Some(
                found,
            ),
            _ => None,
        }
    }

    /// The first hops that are found at a place, where that is of the router of an offer inside its area.
    #[inline]
    fn hops_towards(&self, place: usize, offer: &Offer) -> Option<&SharedHops>
        ensures { (m : OneMember) → AreFound m self.now → IfSome result (λ h. (h.now ≡ hops_to (reach_of m) offer.now) × IsStrictlySortedBy hop_cmp h.now) }
    {
        match self.towards(place, offer) {
            Some(found) => self.hops.as_slice().get(found.place),
            None => None,
        }
    }

    /// Puts hops behind the others.
    #[inline(never)]
    fn push_hops(&mut self, alloc: Global, hops: Hops) -> Result<(), AllocError>
        ensures towards { self.new.towards ≡ self.old.towards }
        ensures hops { OnOk result (self.new.hops ≡ self.old.hops ++ hops ∷ []) }
    {
        let shared = SharedHops::of(alloc, hops)?;
        self.hops.push(shared)
    }

    /// Sees to it that the last hops are that of a step alone.
    #[inline]
    fn end_by(&mut self, alloc: Global, step: &Step) -> Result<(), AllocError>
        ensures towards { self.new.towards ≡ self.old.towards }
        ensures last { OnOk result (AreLast self.old.hops self.new.hops (hop_of step.now ∷ [])) }
    {
        if self.ends_by(step) {
            return Ok(());
        }
        self.push_hops(alloc, Hops::one(rc_link_state::hop_of(step)))
    }

    /// Sees to it that the last hops are these.
    fn end_with(&mut self, alloc: Global, hops: Hops) -> Result<(), AllocError>
        ensures towards { self.new.towards ≡ self.old.towards }
        ensures last { OnOk result (AreLast self.old.hops self.new.hops hops) }
    {
        if self.ends_with(&hops) {
            return Ok(());
        }
        self.push_hops(alloc, hops)
    }

    /// Puts what walks to a router inside an area cost at the end, whose first hops are the last ones.
    #[inline]
    fn push_towards(
        &mut self,
        area: u32,
        router: RouterId,
        cost: Option<u32>,
    ) -> Result<(), AllocError>
        ensures hops { self.new.hops ≡ self.old.hops }
        ensures towards { OnOk result (self.new.towards ≡ self.old.towards ++ record { area = area; router = router; cost = cost; place = length self.old.hops - 1 } ∷ []) }
    {
        let place = self.last_place();
        self.towards.push(Towards {
            area,
            router,
            cost,
            place,
        })
    }
}

/// Puts what walks to a router inside an area cost, and their first hop, at the end, where all of them leave by one step.
#[inline]
fn push_sole(
    found: &mut FoundHops,
    alloc: Global,
    member: &Member,
    area: u32,
    router: RouterId,
    sole: Sole,
) -> Result<(), AllocError>
    requires found { AreFound member.now found.old }
    requires walks { reach_of member.now area router ≡ Some (record { cost = sole.cost; hops = hop_of sole.step.now ∷ [] }) }
    requires small { sole.cost < 2 ^ 26 }
    ensures { OnOk result (AreFound member.now found.new) }
{
    found.end_by(alloc, sole.step)?;
    found.push_towards(area, router, Some(sole.cost))
}

/// The same for any walks.
#[inline(never)]
fn push_any(
    found: &mut FoundHops,
    alloc: Global,
    member: &Member,
    area: u32,
    router: RouterId,
) -> Result<(), AllocError>
    requires { AreFound member.now found.old }
    ensures { OnOk result (AreFound member.now found.new) }
{
    let cost = member.cost_to(area, router);
    let hops = member.hops_to(alloc, area, router)?;
    found.end_with(alloc, hops)?;
    found.push_towards(area, router, cost)
}

/// Puts the cost and the first hops of the least walks to a router inside an area at the end.
fn push_towards(
    found: &mut FoundHops,
    alloc: Global,
    member: &Member,
    area: u32,
    router: RouterId,
) -> Result<(), AllocError>
    requires { AreFound member.now found.old }
    ensures { OnOk result (AreFound member.now found.new) }
{
    match member.sole(area, router) {
        Some(sole) => push_sole(found, alloc, member, area, router, sole),
        None => push_any(found, alloc, member, area, router),
    }
}

/// Puts the first hops to each of so many routers inside an area at the end.
fn push_area(
    found: &mut FoundHops,
    alloc: Global,
    member: &Member,
    area: u32,
    routers: usize,
) -> Result<(), AllocError>
    requires { AreFound member.now found.old }
    ensures { OnOk result (AreFound member.now found.new) }
{
    for index in 0..routers {
        push_towards(found, alloc, member, area, RouterId::at(index))?;
    }
    Ok(())
}

/// The first hops to each of so many routers inside each area of a router.
fn all_towards(alloc: Global, member: &Member, routers: usize) -> Result<FoundHops, AllocError>
    ensures { IfOk result (AreFound member.now) }
{
    let areas = member.areas(StubAreas::Kept);
    let mut found = FoundHops::with_room(alloc, areas.len().saturating_mul(routers))?;
    for own in areas {
        push_area(&mut found, alloc, member, own.area, routers)?;
    }
    Ok(found)
}

/// Where the first hops to a router inside one of some areas stand, where there are so many routers in each.
#[inline(never)]
fn place_in(areas: &[RouterArea], routers: usize, area: u32, router: RouterId) -> usize {
    let mut start: usize = 0;
    for own in areas {
        if own.area == area {
            return start.saturating_add(router.index());
        }
        start = start.saturating_add(routers);
    }
    start
}

impl<'m, 'w> FirstHops<'m, 'w> {
    /// A router with the first hops to each of so many routers. It errs only where memory runs out.
    pub fn of(
        alloc: Global,
        member: &'m Member<'w>,
        routers: usize,
    ) -> Result<FirstHops<'m, 'w>, AllocError>
        ensures { IfOk result (λ f. f ≡ member.now) }
    {
        let found = all_towards(alloc, member, routers)?;
        Ok(FirstHops {
            member,
            found,
            routers,
        })
    }

    /// The router.
    pub fn member(&self) -> &Member<'w>
        ensures { result.now ≡ self.now }
    {
        self.member
    }

    /// Where the first hops to a router inside an area stand, if they do. Most routers are in one area.
    #[inline(always)]
    fn place(&self, area: u32, router: RouterId) -> usize {
        match self.member.areas(StubAreas::Kept) {
            [only] if only.area == area => router.index(),
            areas => place_in(areas, self.routers, area, router),
        }
    }

    /// The cost of the least walks to the router of an offer inside its area, below 2^26, where there are any.
    #[inline(always)]
    fn walks_cost(&self, offer: &Offer) -> Option<u32>
        ensures value { result ≡ cost_of (reach_of self.now offer.now.area offer.now.router) }
        ensures small { IfSome result (λ c. c < 2 ^ 26) }
    {
        let place = self.place(offer.area(), offer.router());
        match self.found.towards(place, offer) {
            Some(found) => found.cost,
            None => self.member.cost_to(offer.area(), offer.router()),
        }
    }

    /// The first hops of the least walks to the router of an offer inside its area, in order, where they are kept.
    #[inline]
    pub fn hops_kept(&self, offer: &Offer) -> Option<&SharedHops>
        ensures { IfSome result (λ hops. (hops.now ≡ hops_to (reach_of self.now) offer.now) × IsStrictlySortedBy hop_cmp hops.now) }
    {
        let place = self.place(offer.area(), offer.router());
        self.found.hops_towards(place, offer)
    }
}

impl TellsCosts for FirstHops<'_, '_> {
    ghost member = { λ m. m };

    #[inline(always)]
    fn cost_to(&self, others: bool, offer: &Offer) -> Option<u32>
        ensures value { result ≡ cost_to (reach_of self.now) others self.now.router offer.now }
        ensures small { IfSome result (λ c. c < 2 ^ 27) }
    {
        if others && offer.router() == self.member.router {
            return None;
        }
        match self.walks_cost(offer) {
            Some(cost) => Some(cost + offer.cost()),
            None => None,
        }
    }
}
