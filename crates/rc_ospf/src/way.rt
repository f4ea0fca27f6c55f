//! Ways to what is offered.
ghost use Rattle.std.specs.Prelude.{◌≡◌, ◌++◌, ◌<◌, ◌^◌, IfOk, OnOk, IfSome};
ghost use Rattle.std.specs.List.Sorted.{IsStrictlySortedBy};
ghost use Rattle.std.specs.Ordering.{nat_cmp};
ghost use Rattle.rc_base.specs.Lists.{in_order};
ghost use Rattle.rc_ospf.specs.BestOffers.{hops_to};
ghost use Rattle.rc_ospf.specs.ByPrefix.{cost_to, hops_for, ways_of};
ghost use Rattle.rc_ospf.specs.Members.{reach_of};
ghost use Rattle.rc_route.specs.Hops.{hop_cmp};
ghost use Rattle.rc_route.specs.Ways as spec;

use crate::Offer;
use crate::ospf_router::Member;
use rc_link_state::{add_hops, put_in_order};
use rc_route::Hops;
use std::alloc::{AllocError, Global};

/// The cost of the way to an offer, where there is one. Where only offers of others count, there is none to one of the router itself.
#[inline]
#[tactic(auto, using(crate::proofs::WayLaws::no_cost))]
pub(crate) fn cost_to(member: &Member, others: bool, offer: &Offer) -> Option<u32>
    ensures value { result ≡ cost_to (reach_of member.now) others member.now.router offer.now }
    ensures small { IfSome result (λ c. c < 2 ^ 27) }
{
    if member.is_apart(offer.area(), offer.router()) {
        return None;
    }
    if others && offer.router() == member.router {
        return None;
    }
    let cost = member.cost_to(offer.area(), offer.router());
    match cost {
        Some(cost) => Some(cost + offer.cost()),
        None => None,
    }
}

/// Who tells the costs of the ways of a router.
pub(crate) trait TellsCosts {
    ghost use Rattle.std.specs.Prelude.{◌≡◌, ◌<◌, ◌^◌, IfSome};
    ghost use Rattle.rc_ospf.specs.ByPrefix.{cost_to};
    ghost use Rattle.rc_ospf.specs.Members.{reach_of};
    ghost use Rattle.rc_ospf.specs.declared.ospf_router.Member.{Member as OneMember};

    ghost member: { Self → OneMember };

    /// The cost of the way to an offer, where there is one. Where only offers of others count, there is none to one of the router itself.
    fn cost_to(&self, others: bool, offer: &Offer) -> Option<u32>
        ensures value { result ≡ cost_to (reach_of (member self.now)) others (member self.now).router offer.now }
        ensures small { IfSome result (λ c. c < 2 ^ 27) };
}

impl TellsCosts for Member<'_> {
    ghost member = { λ m. m };

    #[inline]
    fn cost_to(&self, others: bool, offer: &Offer) -> Option<u32>
        ensures value { result ≡ cost_to (reach_of self.now) others self.now.router offer.now }
        ensures small { IfSome result (λ c. c < 2 ^ 27) }
    {
        cost_to(self, others, offer)
    }
}

/// The first hops of the least walks to the router of an offer inside its area, in order; none where there are no walks. It errs only
/// where memory runs out.
pub(crate) fn hops_to(alloc: Global, member: &Member, offer: &Offer) -> Result<Hops, AllocError>
    ensures value { IfOk result (λ hops. hops ≡ hops_to (reach_of member.now) offer.now) }
    ensures in_order { IfOk result (IsStrictlySortedBy hop_cmp) }
{
    member.hops_to(alloc, offer.area(), offer.router())
}

/// The hops of the way to an offer, in order, where it costs so much. It errs only where memory runs out.
fn hops_for(
    alloc: Global,
    member: &Member,
    others: bool,
    cost: u32,
    offer: &Offer,
) -> Result<Hops, AllocError>
    ensures value { IfOk result (λ hops. hops ≡ hops_for (reach_of member.now) others member.now.router cost offer.now) }
    ensures in_order { IfOk result (IsStrictlySortedBy hop_cmp) }
{
    let found = cost_to(member, others, offer);
    match found {
        Some(found) => {
            if found == cost {
                return hops_to(alloc, member, offer);
            }
            Ok(Hops::none())
        }
        None => Ok(Hops::none()),
    }
}

/// Puts the hops of the way to an offer at the end, where it costs so much.
#[tactic(auto, using(crate::proofs::WayLaws::no_hops))]
fn add_hops_for(
    hops: &mut Hops,
    alloc: Global,
    member: &Member,
    others: bool,
    cost: u32,
    offer: &Offer,
) -> Result<(), AllocError>
    ensures { OnOk result (hops.new ≡ hops.old ++ hops_for (reach_of member.now) others member.now.router cost offer.now) }
{
    if member.is_apart(offer.area(), offer.router()) {
        return Ok(());
    }
    let more = hops_for(alloc, member, others, cost, offer)?;
    add_hops(hops, alloc, more.as_slice())
}

/// The hops of all ways to some offers that cost so much, in order. It errs only where memory runs out.
pub(crate) fn hops_at(
    alloc: Global,
    member: &Member,
    others: bool,
    cost: u32,
    offers: &[Offer],
) -> Result<Hops, AllocError>
    ensures { IfOk result (λ hops. hops ≡ in_order hop_cmp (spec.hops_at nat_cmp cost (ways_of (reach_of member.now) others member.now.router offers.now))) }
{
    let mut hops = Hops::none();
    for offer in offers {
        add_hops_for(&mut hops, alloc, member, others, cost, offer)?;
    }
    put_in_order(alloc, hops)
}
