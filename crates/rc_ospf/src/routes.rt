//! The routes of one router (RFC 2328, sections 16.1 and 16.2).
ghost use Rattle.std.specs.Prelude.{◌≡◌, ◌<◌, ◌^◌, ◌∷◌, [], is_some, IfOk, OnOk, All, option_to_list};
ghost use Rattle.std.specs.List.{list_any};
ghost use Rattle.std.specs.Option.{option_map};
ghost use Rattle.std.specs.Ordering.{nat_cmp};
ghost use Rattle.rc_ospf.specs.Areas.{is_offered_by, inter};
ghost use Rattle.rc_ospf.specs.ByPrefix.{summary_offers, destination_route, ways_of};
ghost use Rattle.rc_ospf.specs.BestOffers.{HasBest};
ghost use Rattle.rc_ospf.specs.Members.{reach_of, known, table_of};
ghost use Rattle.rc_ospf.specs.Routes.{internal_route_over, IsShortRoute};
ghost use Rattle.rc_route.specs.declared.route.Source.TheVariants.{Ospf, OspfIa};
ghost use Rattle.rc_ospf.specs.declared.member.StubAreas.TheVariants.{Kept};
ghost use Rattle.rc_ospf.specs.Taking.{Takes};
ghost use Rattle.rc_route.specs.Ways.{best_of, hops_at};

use crate::best::{Best, best_hops, best_way, kept_hops};
use crate::destination::Destination;
use crate::first_hops::FirstHops;
use crate::listing::Listing;
use crate::member::StubAreas;
use crate::ospf_router::Member;
use crate::router_area::is_in_backbone;
use crate::summaries::Summaries;
use crate::{Offer, TakesRoutes};
use rc_base::{Prefix, RouterId};
use rc_pieces::Pieces;
use rc_route::{Route, SharedHops, Source};
use std::alloc::{AllocError, Global};

/// The offers that border routers summarise for a router. In the backbone only those of others count.
pub(crate) fn summary_offers(in_backbone: bool, summaries: &Summaries) -> &[Offer]
    ensures { result.now ≡ summary_offers in_backbone summaries.now }
{
    if in_backbone {
        summaries.backbone.as_slice()
    } else {
        summaries.outward.as_slice()
    }
}

/// Whether the router offers it itself.
fn offers_itself(router: RouterId, offers: &[Offer]) -> bool
    ensures { result ≡ list_any (is_offered_by router) offers.now }
{
    for offer in offers {
        if offer.router() == router {
            return true;
        }
    }
    false
}

/// Lets the route over the best ways to some offers be taken, whose hops nothing shares yet.
#[inline(never)]
fn take_anew<T: TakesRoutes>(
    taking: &mut T,
    alloc: Global,
    source: Source,
    prefix: Prefix,
    member: &Member,
    others: bool,
    best: Best,
    offers: &[Offer],
) -> Result<(), AllocError>
    requires best { HasBest (reach_of member.now) others member.now.router offers.now best }
    requires small { best.cost < 2 ^ 27 }
    ensures { OnOk result (Takes T.becomes (internal_route_over source prefix (record { cost = best.cost; hops = hops_at nat_cmp best.cost (ways_of (reach_of member.now) others member.now.router offers.now) }) ∷ []) taking.old taking.new) }
{
    let hops = SharedHops::of(alloc, best_hops(alloc, member, others, best, offers)?)?;
    taking.take(alloc, prefix, source, best.cost, &hops)
}

/// Lets the route over the best ways to some offers be taken, if there is one; where only those of others count, over the best to these. It
/// says whether there is one.
#[inline(always)]
fn take_best<T: TakesRoutes>(
    taking: &mut T,
    alloc: Global,
    source: Source,
    prefix: Prefix,
    first: &FirstHops,
    others: bool,
    offers: &[Offer],
) -> Result<bool, AllocError>
    ensures found { IfOk result (λ found. found ≡ is_some (best_of nat_cmp (ways_of (reach_of first.now) others first.now.router offers.now))) }
    ensures takes { OnOk result (Takes T.becomes (option_to_list (option_map (internal_route_over source prefix) (best_of nat_cmp (ways_of (reach_of first.now) others first.now.router offers.now)))) taking.old taking.new) }
{
    let best = best_way(first, others, offers);
    let Some(best) = best else {
        return Ok(false);
    };
    match kept_hops(first, best, offers) {
        Some(hops) => taking.take(alloc, prefix, source, best.cost, hops)?,
        None => take_anew(
            taking,
            alloc,
            source,
            prefix,
            first.member(),
            others,
            best,
            offers,
        )?,
    }
    Ok(true)
}

/// Lets the route of a router between areas be taken, if it has one.
#[inline(never)]
fn take_inter<T: TakesRoutes>(
    taking: &mut T,
    alloc: Global,
    first: &FirstHops,
    destination: &Destination,
) -> Result<(), AllocError>
    ensures { OnOk result (Takes T.becomes (option_to_list (option_map (internal_route_over OspfIa destination.now.prefix) (inter (known Kept first.now) destination.now.summaries))) taking.old taking.new) }
{
    let in_backbone = is_in_backbone(first.member().areas(StubAreas::Kept));
    let offers = summary_offers(in_backbone, &destination.summaries);
    take_best(
        taking,
        alloc,
        Source::OspfIa,
        destination.prefix,
        first,
        in_backbone,
        offers,
    )?;
    Ok(())
}

/// Lets the route of a router to a destination be taken, if it has one: inside areas before between areas, and none to a prefix that it
/// advertises itself.
#[inline(always)]
fn take_route<T: TakesRoutes>(
    taking: &mut T,
    alloc: Global,
    first: &FirstHops,
    destination: &Destination,
) -> Result<(), AllocError>
    ensures { OnOk result (Takes T.becomes (option_to_list (destination_route (known Kept first.now) destination.now)) taking.old taking.new) }
{
    let inside = destination.inside.as_slice();
    if offers_itself(first.member().router, inside) {
        return Ok(());
    }
    let prefix = destination.prefix;
    let found = take_best(taking, alloc, Source::Ospf, prefix, first, false, inside)?;
    if found {
        return Ok(());
    }
    take_inter(taking, alloc, first, destination)
}

/// The first hops that a router finds at once: those to all routers in each of its areas, where there are no fewer destinations. Else they
/// are found one by one.
fn first_hops<'m, 'w>(
    alloc: Global,
    member: &'m Member<'w>,
    destinations: usize,
    routers: usize,
) -> Result<FirstHops<'m, 'w>, AllocError>
    ensures { IfOk result (λ f. f ≡ member.now) }
{
    let most = member.areas(StubAreas::Kept).len().saturating_mul(routers);
    let at_once = if destinations < most { 0 } else { routers };
    FirstHops::of(alloc, member, at_once)
}

/// Lets the routes of a router, of so many, to some destinations be taken. It errs only where what takes them does, or memory runs out.
pub(crate) fn take_routes<T: TakesRoutes>(
    taking: &mut T,
    alloc: Global,
    member: &Member,
    destinations: &[Destination],
    routers: usize,
) -> Result<(), AllocError>
    ensures { OnOk result (Takes T.becomes (table_of destinations.now member.now) taking.old taking.new) }
{
    let first = first_hops(alloc, member, destinations.len(), routers)?;
    for destination in destinations {
        take_route(taking, alloc, &first, destination)?;
    }
    Ok(())
}

/// The routes of a router, of so many, to some destinations. It errs only where memory runs out.
pub(crate) fn routes_of(
    alloc: Global,
    member: &Member,
    destinations: &[Destination],
    routers: usize,
) -> Result<Pieces<Route>, AllocError>
    ensures value { IfOk result (λ routes. routes ≡ table_of destinations.now member.now) }
    ensures short { IfOk result (All IsShortRoute) }
{
    let mut listing = Listing::with_room(alloc, destinations.len())?;
    take_routes(&mut listing, alloc, member, destinations, routers)?;
    listing.finish(alloc)
}
