//! Paths to AS boundary routers (RFC 2328, sections 3.3 and 16.4).
ghost use Rattle.std.specs.Prelude.{◌≡◌, false, [], IfOk, IfSome, All, map};
ghost use Rattle.std.specs.List.{filter_map, list_any};
ghost use Rattle.std.specs.Option.{option_map};
ghost use Rattle.std.specs.Ordering.{nat_cmp};
ghost use Rattle.rc_ospf.specs.Areas as area;
ghost use Rattle.rc_ospf.specs.Boundaries as spec;
ghost use Rattle.rc_ospf.specs.BoundaryPaths.{IsNear};
ghost use Rattle.rc_ospf.specs.BoundaryForms.{path_of_target};
ghost use Rattle.rc_ospf.specs.Members.{reach_of, known, is_border_at};
ghost use Rattle.rc_ospf.specs.ByPrefix.{ways_of};
ghost use Rattle.rc_ospf.specs.RouterAreas.{open_areas};
ghost use Rattle.rc_shares.specs.Making.{AreMade};
ghost use Rattle.rc_ospf.specs.Wanted.{IsTarget};
ghost use Rattle.rc_ospf.specs.declared.member.StubAreas.TheVariants.{LeftOut};
ghost use Rattle.rc_route.specs.Ways.{best_of};

use crate::best::{best_hops, best_way};
use crate::member::StubAreas;
use crate::ospf_router::Member;
use crate::router_area::{is_in_backbone, router_areas};
use crate::routes::summary_offers;
use crate::shares::FEW;
use crate::summaries::{Summaries, has_border, summaries_wanted};
use crate::{Boundary, Offer, RouterArea};
use rc_base::{Items, RouterId};
use rc_config::{Network, OspfProcess, Redistribution, RouterText};
use rc_shares::{Makes, made_at_once};
use std::alloc::{AllocError, Global};
use std::thread::Threads;

/// An AS boundary router with what is offered of it, as far as routers have use for it.
pub(crate) struct Target {
    pub router: RouterId,
    pub inside: Items<Offer>,
    pub summaries: Summaries,
}

/// By a function of its own, so that what holds such routers drops each by one call.
impl Drop for Target {
    fn drop(self) {
        let Target {
            router: _,
            inside: _,
            summaries: _,
        } = self;
    }
}

/// Whether there is some redistribution.
fn has_any(redistributions: &[Redistribution]) -> bool
    ensures { result ≡ spec.has_any redistributions.now }
{
    match redistributions {
        [_, ..] => true,
        _ => false,
    }
}

/// Whether a process sends routes from outside of the AS.
fn is_boundary_process(process: &OspfProcess) -> bool
    ensures { result ≡ spec.is_boundary_process process.now }
{
    has_any(process.redistributions.as_slice()) || process.default_information.is_some()
}

/// Whether a router of this file is an AS boundary router.
fn is_boundary_file(file: &RouterText) -> bool
    ensures { result ≡ spec.is_boundary_file file.now }
{
    match &file.ospf {
        Some(process) => is_boundary_process(process),
        None => false,
    }
}

/// Whether a router is an AS boundary router.
fn is_boundary(net: &Network, router: RouterId) -> bool
    ensures { result ≡ spec.is_boundary net.now router }
{
    let found = net.router_at(router);
    match found {
        Some(file) => is_boundary_file(file),
        None => false,
    }
}

/// The AS boundary routers of a network, in its order.
fn boundary_routers(alloc: Global, net: &Network) -> Result<Items<RouterId>, AllocError>
    ensures { IfOk result (λ found. found ≡ spec.boundary_routers net.now) }
{
    let mut found = Items::new(alloc);
    for index in 0..net.routers.len() {
        let router = RouterId::at(index);
        if is_boundary(net, router) {
            found.push(router)?;
        }
    }
    Ok(found)
}

/// Whether there is an AS boundary router. It errs only where memory runs out.
pub fn has_boundary(alloc: Global, net: &Network) -> Result<bool, AllocError>
    ensures { IfOk result (λ found. found ≡ false → spec.boundary_routers net.now ≡ []) }
{
    let found = boundary_routers(alloc, net)?;
    Ok(!found.as_slice().is_empty())
}

/// The offers of a router at the cost 0 in each of some areas that isn't a stub area.
fn open_offers(
    alloc: Global,
    router: RouterId,
    areas: &[RouterArea],
) -> Result<Items<Offer>, AllocError>
    ensures { IfOk result (λ offers. offers ≡ map (λ a. area.offer router a.area 0) (open_areas areas.now)) }
{
    let mut offers = Items::new(alloc);
    for area in areas {
        if !area.is_stub {
            offers.push(Offer::new(router, area.area, 0))?;
        }
    }
    Ok(offers)
}

/// What an AS boundary router offers of itself: the cost 0 in each of its areas that isn't a stub area.
fn boundary_offers(
    alloc: Global,
    net: &Network,
    router: RouterId,
) -> Result<Items<Offer>, AllocError>
    ensures { IfOk result (λ offers. offers ≡ spec.boundary_offers net.now router) }
{
    let areas = router_areas(alloc, net, router)?;
    open_offers(alloc, router, areas.as_slice())
}

/// An AS boundary router with what is offered of it, as far as routers have use for it.
fn target_of(
    alloc: Global,
    net: &Network,
    members: &[Member],
    has_border: bool,
    router: RouterId,
) -> Result<Target, AllocError>
    requires { has_border ≡ list_any (is_border_at LeftOut) members.now }
    ensures { IfOk result (IsTarget net.now (map (known LeftOut) members.now) router) }
{
    let inside = boundary_offers(alloc, net, router)?;
    let summaries = summaries_wanted(
        alloc,
        members,
        StubAreas::LeftOut,
        has_border,
        false,
        inside.as_slice(),
    )?;
    Ok(Target {
        router,
        inside,
        summaries,
    })
}

/// A network with its routers, some of which are AS boundary routers, and whether some are border routers.
#[derive(Drop)]
struct Bounded<'n, 'm, 'w> {
    net: &'n Network,
    members: &'m [Member<'w>],
    has_border: bool,
}

impl<'n, 'm, 'w> Makes for Bounded<'n, 'm, 'w> {
    type Thing = RouterId;

    type Made = Target;

    ghost use Rattle.std.specs.Prelude.{◌≡◌, map};
    ghost use Rattle.std.specs.List.{list_any};
    ghost use Rattle.rc_ospf.specs.Members.{known, is_border_at};
    ghost use Rattle.rc_ospf.specs.Wanted.{IsTarget};
    ghost use Rattle.rc_ospf.specs.declared.member.StubAreas.TheVariants.{LeftOut};

    ghost fits = { λ s r. s.has_border ≡ list_any (is_border_at LeftOut) s.members.now };

    ghost made = { λ s r t. IsTarget s.net.now (map (known LeftOut) s.members.now) r t };

    fn make(&self, alloc: Global, router: &RouterId) -> Result<Target, AllocError>
        requires { self.now.has_border ≡ list_any (is_border_at LeftOut) self.now.members.now }
        ensures { IfOk result (IsTarget self.now.net.now (map (known LeftOut) self.now.members.now) router.now) }
    {
        target_of(alloc, self.net, self.members, self.has_border, *router)
    }
}

/// The AS boundary routers of a network with what is offered of them, as far as routers have use for it. The workers share them. It errs
/// only where memory runs out.
pub(crate) fn targets<R: Threads + Sync>(
    rt: &R,
    alloc: Global,
    net: &Network,
    members: &[Member],
    workers: u32,
) -> Result<Items<Target>, AllocError>
    ensures { IfOk result (AreMade (IsTarget net.now (map (known LeftOut) members.now)) (spec.boundary_routers net.now)) }
{
    let routers = boundary_routers(alloc, net)?;
    let bounded = Bounded {
        net,
        members,
        has_border: has_border(members, StubAreas::LeftOut),
    };
    made_at_once(rt, alloc, &bounded, routers.as_slice(), FEW, workers)
}

/// The path over the best ways to some offers of a router; where only those of others count, over the best to these.
fn best_path(
    alloc: Global,
    router: RouterId,
    member: &Member,
    others: bool,
    offers: &[Offer],
) -> Result<Option<Boundary>, AllocError>
    ensures value { IfOk result (λ path. path ≡ option_map (spec.path_over router) (best_of nat_cmp (ways_of (reach_of member.now) others member.now.router offers.now))) }
    ensures near { IfOk result (λ path. IfSome path IsNear) }
{
    let best = best_way(member, others, offers);
    match best {
        Some(best) => {
            let hops = best_hops(alloc, member, others, best, offers)?;
            Ok(Some(Boundary::new(router, best.cost, hops)))
        }
        None => Ok(None),
    }
}

/// The path of a router to another one between areas.
fn inter_path(
    alloc: Global,
    member: &Member,
    target: &Target,
) -> Result<Option<Boundary>, AllocError>
    ensures value { IfOk result (λ path. path ≡ option_map (spec.path_over target.now.router) (area.inter (known LeftOut member.now) target.now.summaries)) }
    ensures near { IfOk result (λ path. IfSome path IsNear) }
{
    let in_backbone = is_in_backbone(member.areas(StubAreas::LeftOut));
    let offers = summary_offers(in_backbone, &target.summaries);
    best_path(alloc, target.router, member, in_backbone, offers)
}

/// The path of a router to another one, where there is one: inside an area where there is one, and else between areas.
#[tactic(auto, using(crate::proofs::WayLaws::over_either))]
fn path_to_target(
    alloc: Global,
    member: &Member,
    target: &Target,
) -> Result<Option<Boundary>, AllocError>
    ensures value { IfOk result (λ path. path ≡ path_of_target (known LeftOut member.now) target.now) }
    ensures near { IfOk result (λ path. IfSome path IsNear) }
{
    if member.router == target.router {
        return Ok(None);
    }
    let inside = target.inside.as_slice();
    match best_path(alloc, target.router, member, false, inside)? {
        Some(path) => Ok(Some(path)),
        None => inter_path(alloc, member, target),
    }
}

/// The paths of a router to others. It errs only where memory runs out.
pub(crate) fn paths_to(
    alloc: Global,
    member: &Member,
    targets: &[Target],
) -> Result<Items<Boundary>, AllocError>
    ensures value { IfOk result (λ paths. paths ≡ filter_map (path_of_target (known LeftOut member.now)) targets.now) }
    ensures near { IfOk result (All IsNear) }
{
    let mut paths = Items::new(alloc);
    for target in targets {
        if let Some(path) = path_to_target(alloc, member, target)? {
            paths.push(path)?;
        }
    }
    Ok(paths)
}
