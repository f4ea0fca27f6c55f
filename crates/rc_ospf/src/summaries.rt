//! What border routers summarise of a destination (RFC 2328, sections 3.6 and 12.4.3).
ghost use Rattle.std.specs.Prelude.{◌≡◌, ◌++◌, ◌<◌, ◌^◌, [], IfSome, IfOk, OnOk, map, filter};
ghost use Rattle.std.specs.List.{flat_map, list_any, cons_option};
ghost use Rattle.std.specs.Option.{option_map};
ghost use Rattle.rc_ospf.specs.Areas as spec;
ghost use Rattle.rc_ospf.specs.Members.{reach_of, known, is_border_at};
ghost use Rattle.rc_ospf.specs.declared.member.StubAreas.TheVariants.{Kept};
ghost use Rattle.rc_ospf.specs.RouterAreas.{is_outside};
ghost use Rattle.rc_ospf.specs.Wanted.{has_inside, lacks_inside, nothing, Suffice};

use crate::best::best_cost;
use crate::member::StubAreas;
use crate::ospf_router::Member;
use crate::router_area::is_border;
use crate::{Offer, RouterArea};
use rc_base::{Items, RouterId};
use std::alloc::{AllocError, Global};

/// What border routers offer of a destination: in the backbone, and out of it in their other areas.
pub struct Summaries {
    pub backbone: Items<Offer>,
    pub outward: Items<Offer>,
}

/// By a function of its own, so that what holds summaries drops them by one call.
impl Drop for Summaries {
    fn drop(self) {
        let Summaries {
            backbone: _,
            outward: _,
        } = self;
    }
}

/// Whether an offer is in an area, and the way to it costs so much.
fn costs_in(member: &Member, area: u32, cost: u32, offer: &Offer) -> bool
    ensures { result ≡ spec.costs_in (reach_of member.now) area cost offer.now }
{
    if offer.area() != area {
        return false;
    }
    let found = member.cost_to(offer.area(), offer.router());
    match found {
        Some(found) => found + offer.cost() == cost,
        None => false,
    }
}

/// Whether an area is among those in which a cost is reached.
fn is_reached_in(member: &Member, area: u32, cost: u32, inside: &[Offer]) -> bool
    ensures { result ≡ list_any (spec.costs_in (reach_of member.now) area cost) inside.now }
{
    for offer in inside {
        if costs_in(member, area, cost, offer) {
            return true;
        }
    }
    false
}

/// The cost of a summary, where it is below LSInfinity (RFC 2328, appendix B).
fn sent(cost: u32) -> Option<u32>
    ensures value { result ≡ spec.sent cost }
    ensures small { IfSome result (λ c. c < 2 ^ 26) }
{
    if cost < 16_777_215 { Some(cost) } else { None }
}

/// The cost at which what costs so much inside areas is summarised into an area, where it is.
fn intra_summary(member: &Member, inside: &[Offer], area: u32, cost: u32) -> Option<u32>
    ensures value { result ≡ spec.intra_summary (reach_of member.now) inside.now area cost }
    ensures small { IfSome result (λ c. c < 2 ^ 26) }
{
    if is_reached_in(member, area, cost, inside) {
        return None;
    }
    sent(cost)
}

/// The cost at which a border router summarises what is offered inside areas into the backbone, where it does.
fn backbone_summary(member: &Member, inside: &[Offer]) -> Option<u32>
    ensures value { result ≡ spec.backbone_summary (reach_of member.now) inside.now }
    ensures small { IfSome result (λ c. c < 2 ^ 26) }
{
    let cost = best_cost(member, false, inside);
    match cost {
        Some(cost) => intra_summary(member, inside, 0, cost),
        None => None,
    }
}

/// The offer of a router in an area at a cost, where there is one.
fn offer_at(router: RouterId, area: u32, cost: Option<u32>) -> Option<Offer>
    requires { IfSome cost (λ c. c < 2 ^ 26) }
    ensures { result ≡ option_map (spec.offer router area) cost }
{
    match cost {
        Some(cost) => Some(Offer::new(router, area, cost)),
        None => None,
    }
}

/// What a router offers in the backbone, where it does.
fn backbone_offer(member: &Member, stubs: StubAreas, inside: &[Offer]) -> Option<Offer>
    ensures { result ≡ spec.backbone_offer inside.now (known stubs member.now) }
{
    if !is_border(member.areas(stubs)) {
        return None;
    }
    offer_at(member.router, 0, backbone_summary(member, inside))
}

/// What border routers offer in the backbone.
fn backbone_summaries(
    alloc: Global,
    members: &[Member],
    stubs: StubAreas,
    inside: &[Offer],
) -> Result<Items<Offer>, AllocError>
    ensures { IfOk result (λ offers. offers ≡ spec.backbone_summaries (map (known stubs) members.now) inside.now) }
{
    let mut offers = Items::new(alloc);
    for member in members {
        if let Some(offer) = backbone_offer(member, stubs, inside) {
            offers.push(offer)?;
        }
    }
    Ok(offers)
}

/// What a router has between areas, where it has nothing inside areas.
#[tactic(auto, using(crate::proofs::WayLaws::ways_to_others))]
fn inter_cost(member: &Member, backbone: &[Offer], intra: Option<u32>) -> Option<u32>
    ensures { result ≡ spec.inter_cost (known Kept member.now) backbone.now intra }
{
    match intra {
        Some(_) => None,
        None => best_cost(member, true, backbone),
    }
}

/// The cost of a summary out of the backbone: of what costs so much inside areas, and else of that between areas.
fn outward_cost(
    member: &Member,
    inside: &[Offer],
    area: u32,
    intra: Option<u32>,
    inter: Option<u32>,
) -> Option<u32>
    ensures value { result ≡ spec.outward_cost (reach_of member.now) inside.now area intra inter }
    ensures small { IfSome result (λ c. c < 2 ^ 26) }
{
    match intra {
        Some(cost) => intra_summary(member, inside, area, cost),
        None => match inter {
            Some(cost) => sent(cost),
            None => None,
        },
    }
}

/// The cost at which a router summarises a destination into an area other than the backbone, where it does.
fn outward_summary(
    member: &Member,
    inside: &[Offer],
    intra: Option<u32>,
    inter: Option<u32>,
    area: &RouterArea,
) -> Option<u32>
    ensures value { result ≡ spec.outward_summary (reach_of member.now) inside.now intra inter area.now }
    ensures small { IfSome result (λ c. c < 2 ^ 26) }
{
    if area.no_summary {
        return None;
    }
    outward_cost(member, inside, area.area, intra, inter)
}

/// The cost of the default route that a border router sends into an area, where it does: into a stub area alone.
fn stub_default(is_default: bool, area: &RouterArea) -> Option<u32>
    ensures value { result ≡ spec.stub_default is_default area.now }
    ensures small { IfSome result (λ c. c < 2 ^ 26) }
{
    if is_default && area.is_stub {
        Some(1)
    } else {
        None
    }
}

/// Puts an offer at the end, where there is one.
fn push(offers: &mut Items<Offer>, offer: Option<Offer>) -> Result<(), AllocError>
    ensures { OnOk result (offers.new ≡ offers.old ++ cons_option offer []) }
{
    if let Some(offer) = offer {
        offers.push(offer)?;
    }
    Ok(())
}

/// Puts what a router offers in an area at the end: the summary, and the default route.
fn add_offers_into(
    offers: &mut Items<Offer>,
    router: RouterId,
    is_default: bool,
    summary: Option<u32>,
    area: &RouterArea,
) -> Result<(), AllocError>
    requires { IfSome summary (λ c. c < 2 ^ 26) }
    ensures { OnOk result (offers.new ≡ offers.old ++ spec.offers_into router is_default summary area.now) }
{
    push(offers, offer_at(router, area.area, summary))?;
    push(
        offers,
        offer_at(router, area.area, stub_default(is_default, area)),
    )
}

/// Puts what a border router offers in its areas other than the backbone at the end.
fn add_offers_of(
    offers: &mut Items<Offer>,
    member: &Member,
    areas: &[RouterArea],
    is_default: bool,
    inside: &[Offer],
    intra: Option<u32>,
    inter: Option<u32>,
) -> Result<(), AllocError>
    ensures { OnOk result (offers.new ≡ offers.old ++ flat_map (spec.offers_of (known Kept member.now) is_default inside.now intra inter) (filter is_outside areas.now)) }
{
    for area in areas {
        if area.area != 0 {
            let summary = outward_summary(member, inside, intra, inter, area);
            add_offers_into(offers, member.router, is_default, summary, area)?;
        }
    }
    Ok(())
}

/// Puts what a router offers out of the backbone at the end: something only where it is a border router.
fn add_outward(
    offers: &mut Items<Offer>,
    member: &Member,
    stubs: StubAreas,
    is_default: bool,
    inside: &[Offer],
    backbone: &[Offer],
) -> Result<(), AllocError>
    ensures { OnOk result (offers.new ≡ offers.old ++ spec.outward_offers is_default inside.now backbone.now (known stubs member.now)) }
{
    let areas = member.areas(stubs);
    if !is_border(areas) {
        return Ok(());
    }
    let intra = best_cost(member, false, inside);
    let inter = inter_cost(member, backbone, intra);
    add_offers_of(offers, member, areas, is_default, inside, intra, inter)
}

/// What border routers offer out of the backbone.
fn outward_summaries(
    alloc: Global,
    members: &[Member],
    stubs: StubAreas,
    is_default: bool,
    inside: &[Offer],
    backbone: &[Offer],
) -> Result<Items<Offer>, AllocError>
    ensures { IfOk result (λ offers. offers ≡ spec.outward_summaries (map (known stubs) members.now) is_default inside.now backbone.now) }
{
    let mut offers = Items::new(alloc);
    for member in members {
        add_outward(&mut offers, member, stubs, is_default, inside, backbone)?;
    }
    Ok(offers)
}

/// All summaries of a destination, of which is said whether it is the default route, and what is offered inside areas. It errs
/// only where memory runs out.
fn summaries_of(
    alloc: Global,
    members: &[Member],
    stubs: StubAreas,
    is_default: bool,
    inside: &[Offer],
) -> Result<Summaries, AllocError>
    ensures { IfOk result (λ s. s ≡ spec.summaries_of (map (known stubs) members.now) is_default inside.now) }
{
    let backbone = backbone_summaries(alloc, members, stubs, inside)?;
    let outward = outward_summaries(
        alloc,
        members,
        stubs,
        is_default,
        inside,
        backbone.as_slice(),
    )?;
    Ok(Summaries { backbone, outward })
}

/// Whether some router is an area border router.
pub(crate) fn has_border(members: &[Member], stubs: StubAreas) -> bool
    ensures { result ≡ list_any (is_border_at stubs) members.now }
{
    for member in members {
        if is_border(member.areas(stubs)) {
            return true;
        }
    }
    false
}

/// Whether a router reaches some offer inside its area. Who offers it itself does.
fn has_inside(member: &Member, inside: &[Offer]) -> bool
    ensures { result ≡ has_inside (reach_of member.now) inside.now }
{
    for offer in inside {
        if member.cost_to(offer.area(), offer.router()).is_some() {
            return true;
        }
    }
    false
}

/// Whether some router reaches none.
fn is_lacked(members: &[Member], inside: &[Offer]) -> bool
    ensures { result ≡ list_any (lacks_inside inside.now) members.now }
{
    for member in members {
        if !has_inside(member, inside) {
            return true;
        }
    }
    false
}

/// No summary.
fn no_summaries(alloc: Global) -> Summaries
    ensures { result ≡ nothing }
{
    Summaries {
        backbone: Items::new(alloc),
        outward: Items::new(alloc),
    }
}

/// Summaries of a destination that suffice for the routers: none where no router is a border router, or each of them has it inside areas,
/// and else all. It errs only where memory runs out.
pub(crate) fn summaries_wanted(
    alloc: Global,
    members: &[Member],
    stubs: StubAreas,
    has_border: bool,
    is_default: bool,
    inside: &[Offer],
) -> Result<Summaries, AllocError>
    requires { has_border ≡ list_any (is_border_at stubs) members.now }
    ensures { IfOk result (Suffice (map (known stubs) members.now) is_default inside.now) }
{
    if !has_border {
        return Ok(no_summaries(alloc));
    }
    if !is_lacked(members, inside) {
        return Ok(no_summaries(alloc));
    }
    summaries_of(alloc, members, stubs, is_default, inside)
}
