//! The best of the ways to some offers.
ghost use Rattle.std.specs.Prelude.{◌≡◌, ◌<◌, ◌^◌, Bool, None, Some, IfOk, IfSome, MatchOption};
ghost use Rattle.std.specs.Ordering.{nat_cmp};
ghost use Rattle.rc_base.specs.Lists.{in_order};
ghost use Rattle.rc_ospf.specs.BestOffers as spec;
ghost use Rattle.rc_ospf.specs.BestOffers.{HasBest};
ghost use Rattle.rc_ospf.specs.ByPrefix.{ways_of};
ghost use Rattle.rc_ospf.specs.Members.{reach_of};
ghost use Rattle.rc_ospf.specs.Ways.{cost_of};
ghost use Rattle.rc_route.specs.Hops.{hop_cmp};
ghost use Rattle.rc_route.specs.Ways as ways;
ghost use Rattle.rc_route.specs.Ways.{best_of};

use crate::Offer;
use crate::first_hops::FirstHops;
use crate::ospf_router::Member;
use crate::way::{TellsCosts, hops_at, hops_to};
use rc_route::{Hops, SharedHops};
use std::alloc::{AllocError, Global};

/// Where the best of the ways to some offers leads.
#[derive(Clone, Copy)]
pub(crate) struct Best {
    pub cost: u32,
    /// The index of the first offer to which a way costs so much.
    pub at: usize,
    /// Whether no way to a later one does.
    pub is_alone: bool,
}

/// The better of a way that is known and one to a later offer.
fn better_of(known: Best, cost: u32, at: usize) -> Best
    requires known { known.cost < 2 ^ 27 }
    requires cost { cost < 2 ^ 27 }
    ensures value { result ≡ spec.better_of known cost at }
    ensures small { result.cost < 2 ^ 27 }
{
    if cost < known.cost {
        return Best {
            cost,
            at,
            is_alone: true,
        };
    }
    if cost == known.cost {
        return Best {
            cost,
            at: known.at,
            is_alone: false,
        };
    }
    known
}

/// The best way known, and one to a later offer at this cost, where there is one.
#[inline]
fn cheaper(cost: Option<u32>, best: Option<Best>, at: usize) -> Option<Best>
    requires best { IfSome best (λ b. b.cost < 2 ^ 27) }
    requires cost { IfSome cost (λ c. c < 2 ^ 27) }
    ensures value { result ≡ spec.cheaper cost best at }
    ensures small { IfSome result (λ b. b.cost < 2 ^ 27) }
{
    match cost {
        None => best,
        Some(cost) => match best {
            None => Some(Best {
                cost,
                at,
                is_alone: true,
            }),
            Some(known) => Some(better_of(known, cost, at)),
        },
    }
}

/// The best of the ways to some offers, taken one after another.
#[inline(never)]
fn best_of_many<C: TellsCosts>(costs: &C, others: bool, offers: &[Offer]) -> Option<Best>
    ensures value { result ≡ spec.best_from (reach_of (C.member costs.now)) others (C.member costs.now).router None 0 offers.now }
    ensures small { IfSome result (λ b. b.cost < 2 ^ 27) }
{
    let mut best = None;
    for (index, offer) in offers.iter().enumerate() {
        best = cheaper(costs.cost_to(others, offer), best, index);
    }
    best
}

/// The same, which is taken apart, so that it stands in no memory where there are few.
#[inline(always)]
fn best_of_more<C: TellsCosts>(costs: &C, others: bool, offers: &[Offer]) -> Option<Best>
    ensures value { result ≡ spec.best_from (reach_of (C.member costs.now)) others (C.member costs.now).router None 0 offers.now }
    ensures small { IfSome result (λ b. b.cost < 2 ^ 27) }
{
    let best = best_of_many(costs, others, offers);
    match best {
        Some(Best { cost, at, is_alone }) => Some(Best { cost, at, is_alone }),
        None => None,
    }
}

/// The same of a way or two, which most prefixes have.
#[inline(always)]
fn best_of_few<C: TellsCosts>(costs: &C, others: bool, offers: &[Offer]) -> Option<Best>
    ensures value { result ≡ spec.best_from (reach_of (C.member costs.now)) others (C.member costs.now).router None 0 offers.now }
    ensures small { IfSome result (λ b. b.cost < 2 ^ 27) }
{
    match offers {
        [] => None,
        [only] => cheaper(costs.cost_to(others, only), None, 0),
        [first, second] => {
            let best = cheaper(costs.cost_to(others, first), None, 0);
            cheaper(costs.cost_to(others, second), best, 1)
        }
        _ => best_of_more(costs, others, offers),
    }
}

/// Where the best of the ways of a router to some offers leads; where only offers of others count, of those to these.
#[inline(always)]
pub(crate) fn best_way<C: TellsCosts>(costs: &C, others: bool, offers: &[Offer]) -> Option<Best>
    ensures best { MatchOption result (best_of nat_cmp (ways_of (reach_of (C.member costs.now)) others (C.member costs.now).router offers.now) ≡ None) (λ b. best_of nat_cmp (ways_of (reach_of (C.member costs.now)) others (C.member costs.now).router offers.now) ≡ Some (record { cost = b.cost; hops = ways.hops_at nat_cmp b.cost (ways_of (reach_of (C.member costs.now)) others (C.member costs.now).router offers.now) })) }
    ensures place { IfSome result (HasBest (reach_of (C.member costs.now)) others (C.member costs.now).router offers.now) }
    ensures small { IfSome result (λ b. b.cost < 2 ^ 27) }
{
    best_of_few(costs, others, offers)
}

/// The cost of the best way of a router to some offer; where only offers of others count, to one of these.
pub(crate) fn best_cost(member: &Member, others: bool, offers: &[Offer]) -> Option<u32>
    ensures value { result ≡ cost_of (best_of nat_cmp (ways_of (reach_of member.now) others member.now.router offers.now)) }
    ensures small { IfSome result (λ c. c < 2 ^ 27) }
{
    let best = best_way(member, others, offers);
    match best {
        Some(best) => Some(best.cost),
        None => None,
    }
}

/// The hops of the best of the ways to some offers, in order. It errs only where memory runs out.
///
/// Mostly one way is better than all others, and its hops are in order as they are kept.
pub(crate) fn best_hops(
    alloc: Global,
    member: &Member,
    others: bool,
    best: Best,
    offers: &[Offer],
) -> Result<Hops, AllocError>
    requires { HasBest (reach_of member.now) others member.now.router offers.now best }
    ensures { IfOk result (λ hops. hops ≡ in_order hop_cmp (ways.hops_at nat_cmp best.cost (ways_of (reach_of member.now) others member.now.router offers.now))) }
{
    if best.is_alone {
        return hops_to(alloc, member, &offers[best.at]);
    }
    hops_at(alloc, member, others, best.cost, offers)
}

/// The same, where one way is better than all others, and its hops are kept.
#[inline(always)]
pub(crate) fn kept_hops<'f>(
    first: &'f FirstHops<'_, '_>,
    best: Best,
    offers: &[Offer],
) -> Option<&'f SharedHops>
    ensures { (others : Bool) → HasBest (reach_of first.now) others first.now.router offers.now best → IfSome result (λ hops. hops.now ≡ in_order hop_cmp (ways.hops_at nat_cmp best.cost (ways_of (reach_of first.now) others first.now.router offers.now))) }
{
    match offers.get(best.at) {
        Some(offer) if best.is_alone => first.hops_kept(offer),
        _ => None,
    }
}
