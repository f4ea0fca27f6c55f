//! What OSPF gives without a state, for all routers.
ghost use Rattle.std.specs.Prelude.{◌≡◌, ◌≤◌, IfOk, All, length, map};
ghost use Rattle.rc_config.specs.Lawful.{IsLawful};
ghost use Rattle.rc_config.specs.Members.{router_ids};
ghost use Rattle.rc_route.specs.Tables.{IsTable};
ghost use Rattle.rc_ospf.specs.Asked.{AnswerAlike, AnswerOver};
ghost use Rattle.rc_ospf.specs.BoundaryForms.{target_of, boundary_paths};
ghost use Rattle.rc_ospf.specs.Boundaries.{boundary_routers};
ghost use Rattle.rc_ospf.specs.BoundaryPaths.{IsNear};
ghost use Rattle.rc_ospf.specs.Internal.{adverts_in, steps_of, IsInternal, IsInternalAsked, IsInternalAt, HasInternal, HasOneInternal, HasSmallSums, tables_asked};
ghost use Rattle.rc_ospf.specs.Members.{known, areas_in};
ghost use Rattle.rc_ospf.specs.Routes as spec;
ghost use Rattle.rc_shares.specs.Making.{AreMade};
ghost use Rattle.rc_ospf.specs.Wanted.{IsDestination};
ghost use Rattle.rc_ospf.specs.declared.member.StubAreas.TheVariants.{Kept, LeftOut};
ghost use Rattle.rc_ospf_interfaces.specs.Interfaces as interface;

use crate::asked::walks;
use crate::boundary::{Target, paths_to, targets};
use crate::destination::{Destination, destinations};
use crate::known_walks::KnownWalks;
use crate::member::{Areas, areas_of_routers, members, routers_below};
use crate::ospf_router::Member;
use crate::own::own_prefixes;
use crate::routes::routes_of;
use crate::shares::{FEW_LIGHT, few_routers};
use crate::{Boundary, Internal, OspfInterface, adverts, offers_by_prefix};
use rc_base::{Addr, Items, Prefix, RouterId};
use rc_config::Network;
use rc_ospf_interfaces::ospf_interfaces;
use rc_pieces::Pieces;
use rc_route::Route;
use rc_shares::{Makes, made_at_once};
use rc_topology::Links;
use std::alloc::{AllocError, Global};
use std::thread::Threads;

/// Each prefix that is advertised, and the default route, with what is offered of it, as far as routers have use for it; where an address
/// is asked for, those that hold it.
pub(crate) fn destinations_of<R: Threads + Sync>(
    rt: &R,
    alloc: Global,
    net: &Network,
    interfaces: &[OspfInterface],
    members: &[Member],
    asked: Option<Addr>,
    workers: u32,
) -> Result<Items<Destination>, AllocError>
    requires { interfaces.now ≡ interface.ospf_interfaces net.now }
    ensures { IfOk result (AreMade (IsDestination (map (known Kept) members.now)) (spec.rows_asked asked (spec.with_default (spec.offered_rows (adverts_in net.now))))) }
{
    let offered = adverts(alloc, net, interfaces)?;
    let rows = offers_by_prefix(alloc, offered.as_slice())?;
    destinations(rt, alloc, members, rows, asked, workers)
}

/// The destinations to which routes of routers lead.
#[derive(Drop)]
struct RoutesTo<'d, 'm, 'w> {
    destinations: &'d [Destination],
    members: &'m [Member<'w>],
}

impl<'d, 'm, 'w> Makes for RoutesTo<'d, 'm, 'w> {
    type Thing = Member<'w>;

    type Made = Pieces<Route>;

    ghost use Rattle.std.specs.Prelude.{All};
    ghost use Rattle.rc_ospf.specs.Members.{table_of};
    ghost use Rattle.rc_ospf.specs.Routes.{IsShortRoute};
    ghost use Rattle.rc_shares.specs.Making.{IsGiven};

    ghost fits = { λ s m. Unit {0} };

    ghost made = { λ s m t. IsGiven (table_of s.destinations.now) (All IsShortRoute) m t };

    fn make(&self, alloc: Global, member: &Member<'w>) -> Result<Pieces<Route>, AllocError>
        ensures { IfOk result (IsGiven (table_of self.now.destinations.now) (All IsShortRoute) member.now) }
    {
        routes_of(alloc, member, self.destinations, self.members.len())
    }
}

/// The routes of each router; where an address is asked for, those whose prefix holds it.
fn tables<R: Threads + Sync>(
    rt: &R,
    alloc: Global,
    net: &Network,
    interfaces: &[OspfInterface],
    members: &[Member],
    asked: Option<Addr>,
    workers: u32,
) -> Result<Items<Pieces<Route>>, AllocError>
    requires { interfaces.now ≡ interface.ospf_interfaces net.now }
    ensures short { IfOk result (All (All spec.IsShortRoute)) }
    ensures value { IfOk result (λ tables. tables ≡ tables_asked asked (map (spec.internal_routes (map (known Kept) members.now) (adverts_in net.now)) (map (known Kept) members.now))) }
{
    let destinations = destinations_of(rt, alloc, net, interfaces, members, asked, workers)?;
    let routes = RoutesTo {
        destinations: destinations.as_slice(),
        members,
    };
    let few = few_routers(destinations.len());
    made_at_once(rt, alloc, &routes, routes.members, few, workers)
}

/// The AS boundary routers to which paths of routers lead.
#[derive(Drop)]
struct PathsTo<'t, 'm, 'w> {
    targets: &'t [Target],
    members: &'m [Member<'w>],
}

impl<'t, 'm, 'w> Makes for PathsTo<'t, 'm, 'w> {
    type Thing = Member<'w>;

    type Made = Items<Boundary>;

    ghost use Rattle.std.specs.Prelude.{All};
    ghost use Rattle.rc_ospf.specs.Asked.{AnswerAlike, AnswerOver};
    ghost use Rattle.rc_ospf.specs.BoundaryForms.{boundary_paths};
    ghost use Rattle.rc_ospf.specs.BoundaryPaths.{IsNear};
    ghost use Rattle.rc_shares.specs.Making.{IsGiven};

    ghost fits = { λ s m. Unit {0} };

    ghost made = { λ s m p. IsGiven (boundary_paths s.targets.now) (All IsNear) m p };

    fn make(&self, alloc: Global, member: &Member<'w>) -> Result<Items<Boundary>, AllocError>
        ensures { IfOk result (IsGiven (boundary_paths self.now.targets.now) (All IsNear) member.now) }
    {
        paths_to(alloc, member, self.targets)
    }
}

/// The paths of each router to the AS boundary routers.
pub(crate) fn boundaries<R: Threads + Sync>(
    rt: &R,
    alloc: Global,
    net: &Network,
    members: &[Member],
    workers: u32,
) -> Result<Items<Items<Boundary>>, AllocError>
    ensures near { IfOk result (All (All IsNear)) }
    ensures value { IfOk result (λ paths. paths ≡ map (boundary_paths (map (target_of net.now (map (known LeftOut) members.now)) (boundary_routers net.now))) members.now) }
{
    let targets = targets(rt, alloc, net, members, workers)?;
    let paths = PathsTo {
        targets: targets.as_slice(),
        members,
    };
    let few = few_routers(targets.len());
    made_at_once(rt, alloc, &paths, paths.members, few, workers)
}

/// The network whose routers advertise prefixes themselves.
#[derive(Drop)]
struct PrefixesIn<'a> {
    net: &'a Network,
}

impl<'a> Makes for PrefixesIn<'a> {
    type Thing = RouterId;

    type Made = Items<Prefix>;

    ghost use Rattle.rc_ospf.specs.Routes.{own_prefixes};
    ghost use Rattle.rc_shares.specs.Making.{IsGiven};

    ghost fits = { λ s r. Unit {0} };

    ghost made = { λ s r p. IsGiven (own_prefixes s.net.now) (λ _. Unit {0}) r p };

    fn make(&self, alloc: Global, router: &RouterId) -> Result<Items<Prefix>, AllocError>
        ensures { IfOk result (IsGiven (own_prefixes self.now.net.now) (λ _. Unit {0}) router.now) }
    {
        own_prefixes(alloc, self.net, *router)
    }
}

/// The prefixes that each router advertises itself.
fn own<R: Threads + Sync>(
    rt: &R,
    alloc: Global,
    net: &Network,
    workers: u32,
) -> Result<Items<Items<Prefix>>, AllocError>
    ensures { IfOk result (λ own. own ≡ map (spec.own_prefixes net.now) (router_ids net.now)) }
{
    let ids = routers_below(alloc, net.routers.len())?;
    let prefixes = PrefixesIn { net };
    made_at_once(rt, alloc, &prefixes, ids.as_slice(), FEW_LIGHT, workers)
}

/// What OSPF gives without a state, by routers that answer as those of the network; where an address is asked for, of the routes those
/// whose prefix holds it.
fn internal_by<R: Threads + Sync>(
    rt: &R,
    alloc: Global,
    net: &Network,
    links: Links,
    interfaces: &[OspfInterface],
    members: &[Member],
    asked: Option<Addr>,
    workers: u32,
) -> Result<Internal, AllocError>
    requires interfaces { interfaces.now ≡ interface.ospf_interfaces net.now }
    requires alike { AnswerAlike net.now (steps_of net.now links) asked members.now }
    ensures links { IfOk result (λ i. i.links ≡ links) }
    ensures internal { IfOk result (IsInternalAsked net.now asked) }
    ensures in_order { IfOk result (λ i. All IsTable i.routes) }
    ensures small { IfOk result HasSmallSums }
{
    let routes = tables(rt, alloc, net, interfaces, members, asked, workers)?;
    let boundaries = boundaries(rt, alloc, net, members, workers)?;
    let own = own(rt, alloc, net, workers)?;
    Ok(Internal {
        links,
        routes,
        boundaries,
        own,
    })
}

/// The same over the least walks by which these answer.
fn internal_over<R: Threads + Sync>(
    rt: &R,
    alloc: Global,
    net: &Network,
    links: Links,
    interfaces: &[OspfInterface],
    areas: &[Areas],
    walks: &KnownWalks,
    asked: Option<Addr>,
    workers: u32,
) -> Result<Internal, AllocError>
    requires interfaces { interfaces.now ≡ interface.ospf_interfaces net.now }
    requires areas { areas.now ≡ areas_in net.now }
    requires walks { AnswerOver net.now (steps_of net.now links) asked walks.now }
    ensures links { IfOk result (λ i. i.links ≡ links) }
    ensures internal { IfOk result (IsInternalAsked net.now asked) }
    ensures in_order { IfOk result (λ i. All IsTable i.routes) }
    ensures small { IfOk result HasSmallSums }
{
    let members = members(alloc, areas, walks)?;
    let members = members.as_slice();
    internal_by(rt, alloc, net, links, interfaces, members, asked, workers)
}

/// The same, whose least walks are made for it.
fn internal_asked<R: Threads + Sync>(
    rt: &R,
    alloc: Global,
    net: &Network,
    links: Links,
    asked: Option<Addr>,
    workers: u32,
) -> Result<Internal, AllocError>
    requires { length net.now.routers ≤ 512 }
    ensures links { IfOk result (λ i. i.links ≡ links) }
    ensures internal { IfOk result (IsInternalAsked net.now asked) }
    ensures in_order { IfOk result (λ i. All IsTable i.routes) }
    ensures small { IfOk result HasSmallSums }
{
    let interfaces = ospf_interfaces(alloc, net)?;
    let interfaces = interfaces.as_slice();
    let areas = areas_of_routers(rt, alloc, net, workers)?;
    let areas = areas.as_slice();
    let walks = walks(rt, alloc, net, &links, interfaces, areas, &asked, workers)?;
    internal_over(
        rt, alloc, net, links, interfaces, areas, &walks, asked, workers,
    )
}

/// What OSPF gives without a state in a network with these links (RFC 2328, sections 16.1, 16.2 and 16.4): the routes of each
/// router inside and between areas, its paths to AS boundary routers, and the prefixes that it advertises itself. So many workers
/// share the work; what they make doesn't depend on their number. It errs only where memory runs out.
pub fn internal<R: Threads + Sync>(
    rt: &R,
    alloc: Global,
    net: &Network,
    links: Links,
    workers: u32,
) -> Result<Internal, AllocError>
    requires { IsLawful net.now }
    ensures links { IfOk result (λ i. i.links ≡ links) }
    ensures internal { IfOk result (IsInternal net.now) }
    ensures in_order { IfOk result (λ i. All IsTable i.routes) }
    ensures small { IfOk result HasSmallSums }
{
    internal_asked(rt, alloc, net, links, None, workers)
}

/// The same at an address: of the routes those alone whose prefix holds it. No other route is made, and where few routers offer such a
/// prefix, and none is a border router, only the least walks to these are looked for. It errs only where memory runs out.
pub fn internal_at<R: Threads + Sync>(
    rt: &R,
    alloc: Global,
    net: &Network,
    links: Links,
    address: Addr,
    workers: u32,
) -> Result<Internal, AllocError>
    requires { IsLawful net.now }
    ensures links { IfOk result (λ i. i.links ≡ links) }
    ensures internal { IfOk result (IsInternalAt net.now address) }
    ensures in_order { IfOk result (λ i. All IsTable i.routes) }
    ensures small { IfOk result HasSmallSums }
{
    internal_asked(rt, alloc, net, links, Some(address), workers)
}

/// A network with its links has one answer.
pub fn one_internal()
    ensures { HasOneInternal }
{}

/// A network with any links has an answer.
pub fn has_internal()
    ensures { HasInternal }
{}
