//! The headers that end at a position.
ghost use Rattle.std.specs.Prelude.{◌≡◌, ◌+◌, ◌&&◌, not, IfOk, IfErr, Some, flat_map, slice_get, take};
ghost use Rattle.rc_bdd.specs.Work.{IsCause};
ghost use Rattle.rc_router_sets.specs.Edges.{union};
ghost use Rattle.rc_router_sets.specs.Endings as spec;
ghost use Rattle.rc_router_sets.specs.Ends.{ends_over};
ghost use Rattle.rc_router_sets.specs.Made.{IsMade};
ghost use Rattle.rc_router_sets.specs.Sent.{forwarded, hops_at, sent};
ghost use Rattle.rc_router_sets.specs.Steps as steps;
ghost use Rattle.rc_nodes.specs.Seats.{IsSeatOf, Keeps, SeatKnows};
ghost use Rattle.rc_route.specs.declared.route.Hop.TheVariants.{Null as Nowhere};
ghost use Rattle.rc_sets.specs.Regions.{hop_set};
ghost use Rattle.rc_topology.specs.Links.{linked, port_is, takers};
ghost use Rattle.rc_topology.specs.Ports.{is_serial};
ghost use Rattle.rc_trees.specs.Recipes.{parts, tree, without};
ghost use Rattle.rc_trees.specs.Trees.{HasNodes};
ghost use Rattle.rc_moves.specs.Moves.{fib_of, router_of};

use crate::edges::hop_at;
use rc_base::{Addr, IfId, Kind};
use rc_bdd::{SetError, Work};
use rc_moves::Plane;
use rc_nodes::{ALWAYS, May, NEVER, Nodes, Ref};
use rc_route::Hop;
use rc_router_sets::{
    HopAt, Part, RouterSets, Site, Step, forwarded_set, let_in_set, over_set, owned_set, part_set,
    step_set,
};
use std::alloc::Global;

/// What the inbound list denies.
fn denied_in_set<M: May>(
    work: &mut Work<M>,
    nodes: &Nodes<M>,
    site: &Site<'_>,
) -> Result<Ref, SetError>
    requires seat { IsSeatOf nodes.now work.old }
    requires may { HasNodes nodes.now.may (parts (spec.end site.now.plane.now site.now.position Kind.DeniedIn)) }
    ensures seat { IsSeatOf nodes.now work.new }
    ensures keeps { Keeps work.old work.new }
    ensures set { IfOk result (λ r. SeatKnows work.new r.index (tree (spec.end site.now.plane.now site.now.position Kind.DeniedIn))) }
    ensures cause { IfErr result (IsCause nodes.now work.new) }
{
    let let_in = let_in_set(work, nodes, site.plane.network(), &site.position)?;
    work.minus(nodes, ALWAYS, let_in)
}

/// What the router takes in and owns.
fn accepted_set<M: May>(
    alloc: Global,
    work: &mut Work<M>,
    nodes: &Nodes<M>,
    site: &Site<'_>,
    made: &mut RouterSets,
) -> Result<Ref, SetError>
    requires made { IsMade nodes.now work.old site.now.plane.now site.now.position made.old }
    requires may { HasNodes nodes.now.may (parts (spec.end site.now.plane.now site.now.position Kind.Accepted)) }
    ensures seat { IsSeatOf nodes.now work.new }
    ensures made { IfOk result (λ _. IsMade nodes.now work.new site.now.plane.now site.now.position made.new) }
    ensures keeps { Keeps work.old work.new }
    ensures set { IfOk result (λ r. SeatKnows work.new r.index (tree (spec.end site.now.plane.now site.now.position Kind.Accepted))) }
    ensures cause { IfErr result (IsCause nodes.now work.new) }
{
    let let_in = let_in_set(work, nodes, site.plane.network(), &site.position)?;
    let owned = owned_set(alloc, work, nodes, site, made)?;
    work.and(nodes, let_in, owned)
}

/// What the router forwards and its table sends over no hop.
fn no_route_set<M: May>(
    alloc: Global,
    work: &mut Work<M>,
    nodes: &Nodes<M>,
    site: &Site<'_>,
    made: &mut RouterSets,
) -> Result<Ref, SetError>
    requires made { IsMade nodes.now work.old site.now.plane.now site.now.position made.old }
    requires may { HasNodes nodes.now.may (parts (without (hop_set (fib_of site.now.plane.now (router_of site.now.position))) (forwarded site.now.plane.now site.now.position) (hops_at site.now.plane.now site.now.position))) }
    ensures seat { IsSeatOf nodes.now work.new }
    ensures made { IfOk result (λ _. IsMade nodes.now work.new site.now.plane.now site.now.position made.new) }
    ensures keeps { Keeps work.old work.new }
    ensures set { IfOk result (λ r. SeatKnows work.new r.index (tree (without (hop_set (fib_of site.now.plane.now (router_of site.now.position))) (forwarded site.now.plane.now site.now.position) (hops_at site.now.plane.now site.now.position)))) }
    ensures cause { IfErr result (IsCause nodes.now work.new) }
{
    let mut set = forwarded_set(alloc, work, nodes, site, made)?;
    for index in 0..made.hops.len() {
        let at = hop_at(made.hops.as_slice(), index);
        let over = part_set(alloc, work, nodes, site, made, &at, Part::Over)?;
        set = work.minus(nodes, set, over)?;
    }
    Ok(set)
}

/// What the router forwards and its table sends nowhere.
fn null_routed_set<M: May>(
    alloc: Global,
    work: &mut Work<M>,
    nodes: &Nodes<M>,
    site: &Site<'_>,
    made: &mut RouterSets,
) -> Result<Ref, SetError>
    requires made { IsMade nodes.now work.old site.now.plane.now site.now.position made.old }
    requires may { HasNodes nodes.now.may (parts (sent site.now.plane.now site.now.position Nowhere)) }
    ensures seat { IsSeatOf nodes.now work.new }
    ensures made { IfOk result (λ _. IsMade nodes.now work.new site.now.plane.now site.now.position made.new) }
    ensures keeps { Keeps work.old work.new }
    ensures set { IfOk result (λ r. SeatKnows work.new r.index (tree (sent site.now.plane.now site.now.position Nowhere))) }
    ensures cause { IfErr result (IsCause nodes.now work.new) }
{
    let forwarded = forwarded_set(alloc, work, nodes, site, made)?;
    let over = over_set(alloc, work, nodes, site.plane, site.router(), &Hop::Null)?;
    work.and(nodes, forwarded, over)
}

/// Whether some interface shares a link with one.
fn is_linked(plane: &Plane<'_>, interface: &IfId) -> bool
    ensures { result ≡ not (spec.is_none (linked plane.now.links interface.now)) }
{
    let first = plane.links().linked(*interface).next();
    first.is_some()
}

/// Whether an interface is a serial line with somebody on it.
fn leads_on(plane: &Plane<'_>, interface: &IfId) -> bool
    ensures { result ≡ (port_is plane.now.links is_serial interface.now && not (spec.is_none (linked plane.now.links interface.now))) }
{
    plane.links().is_serial(*interface) && is_linked(plane, interface)
}

/// Whether nobody takes an address on a link of an interface.
fn is_free(plane: &Plane<'_>, interface: &IfId, addr: Addr) -> bool
    ensures { result ≡ spec.is_none (takers plane.now.links interface.now addr) }
{
    let first = plane.links().takers(*interface, addr).next();
    first.is_none()
}

/// A step, where that is so.
fn if_so(is_so: bool, step: Step) -> Option<Step>
    ensures { result ≡ steps.if_so is_so step }
{
    if is_so { Some(step) } else { None }
}

/// Which step an ending takes of a hop without a gateway.
fn straight_step(plane: &Plane<'_>, kind: Kind, interface: &IfId) -> Option<Step>
    ensures { result ≡ steps.straight_step plane.now.links kind interface.now }
{
    let is_loopback = plane.links().is_loopback(*interface);
    match kind {
        Kind::DeniedIn | Kind::Accepted | Kind::NoRoute | Kind::NullRouted => None,
        Kind::DeniedOut => Some(Step::Stopped),
        Kind::Unreachable => if_so(is_loopback, Step::Leaving),
        Kind::Exits => if_so(!is_loopback && !leads_on(plane, interface), Step::Rest),
        Kind::Delivered => if_so(!is_loopback, Step::Kept),
    }
}

/// Which step an ending takes of a hop with a gateway.
fn gateway_step(plane: &Plane<'_>, kind: Kind, gateway: &Addr, interface: &IfId) -> Option<Step>
    ensures { result ≡ steps.gateway_step plane.now.links kind gateway.now interface.now }
{
    let is_loopback = plane.links().is_loopback(*interface);
    match kind {
        Kind::DeniedIn | Kind::Accepted | Kind::NoRoute | Kind::NullRouted | Kind::Delivered =>
            None,
        Kind::DeniedOut => Some(Step::Stopped),
        Kind::Unreachable => if_so(is_loopback, Step::Leaving),
        Kind::Exits => if_so(
            !is_loopback && is_free(plane, interface, *gateway),
            Step::Leaving,
        ),
    }
}

/// Which step an ending takes of a hop, where it takes any.
fn stop_step(plane: &Plane<'_>, kind: Kind, hop: &Hop) -> Option<Step>
    ensures { result ≡ steps.stop_step plane.now.links kind hop.now }
{
    match hop {
        Hop::Null => None,
        Hop::Dev(interface) => straight_step(plane, kind, interface),
        Hop::Via(gateway, through) => match through {
            Some(interface) => gateway_step(plane, kind, gateway, interface),
            None => None,
        },
    }
}

/// What the hops before one give to an ending, and what that one gives.
fn with_hop<M: May>(
    alloc: Global,
    work: &mut Work<M>,
    nodes: &Nodes<M>,
    site: &Site<'_>,
    made: &mut RouterSets,
    at: &HopAt,
    kind: Kind,
    set: Ref,
) -> Result<Ref, SetError>
    requires made { IsMade nodes.now work.old site.now.plane.now site.now.position made.old }
    requires at { slice_get (hops_at site.now.plane.now site.now.position) at.now.index ≡ Some at.now.hop }
    requires before { SeatKnows work.old set.index (tree (union (flat_map (ends_over site.now.plane.now site.now.position kind) (take at.now.index (hops_at site.now.plane.now site.now.position))))) }
    requires may { HasNodes nodes.now.may (parts (union (flat_map (ends_over site.now.plane.now site.now.position kind) (hops_at site.now.plane.now site.now.position)))) }
    ensures seat { IsSeatOf nodes.now work.new }
    ensures made { IfOk result (λ _. IsMade nodes.now work.new site.now.plane.now site.now.position made.new) }
    ensures keeps { Keeps work.old work.new }
    ensures set { IfOk result (λ r. SeatKnows work.new r.index (tree (union (flat_map (ends_over site.now.plane.now site.now.position kind) (take (at.now.index + 1) (hops_at site.now.plane.now site.now.position)))))) }
    ensures cause { IfErr result (IsCause nodes.now work.new) }
{
    let Some(step) = stop_step(site.plane, kind, &at.hop) else {
        return Ok(set);
    };
    let more = step_set(alloc, work, nodes, site, made, at, step)?;
    work.or(nodes, set, more)
}

/// What all hops give to an ending.
fn over_hops_set<M: May>(
    alloc: Global,
    work: &mut Work<M>,
    nodes: &Nodes<M>,
    site: &Site<'_>,
    made: &mut RouterSets,
    kind: Kind,
) -> Result<Ref, SetError>
    requires made { IsMade nodes.now work.old site.now.plane.now site.now.position made.old }
    requires may { HasNodes nodes.now.may (parts (union (flat_map (ends_over site.now.plane.now site.now.position kind) (hops_at site.now.plane.now site.now.position)))) }
    ensures seat { IsSeatOf nodes.now work.new }
    ensures made { IfOk result (λ _. IsMade nodes.now work.new site.now.plane.now site.now.position made.new) }
    ensures keeps { Keeps work.old work.new }
    ensures set { IfOk result (λ r. SeatKnows work.new r.index (tree (union (flat_map (ends_over site.now.plane.now site.now.position kind) (hops_at site.now.plane.now site.now.position))))) }
    ensures cause { IfErr result (IsCause nodes.now work.new) }
{
    let mut set = NEVER;
    for index in 0..made.hops.len() {
        let at = hop_at(made.hops.as_slice(), index);
        set = with_hop(alloc, work, nodes, site, made, &at, kind, set)?;
    }
    Ok(set)
}

/// The headers that end at a position in one way.
pub(crate) fn end_set<M: May>(
    alloc: Global,
    work: &mut Work<M>,
    nodes: &Nodes<M>,
    site: &Site<'_>,
    made: &mut RouterSets,
    kind: Kind,
) -> Result<Ref, SetError>
    requires made { IsMade nodes.now work.old site.now.plane.now site.now.position made.old }
    requires may { HasNodes nodes.now.may (parts (spec.end site.now.plane.now site.now.position kind)) }
    ensures seat { IsSeatOf nodes.now work.new }
    ensures made { IfOk result (λ _. IsMade nodes.now work.new site.now.plane.now site.now.position made.new) }
    ensures keeps { Keeps work.old work.new }
    ensures set { IfOk result (λ r. SeatKnows work.new r.index (tree (spec.end site.now.plane.now site.now.position kind))) }
    ensures cause { IfErr result (IsCause nodes.now work.new) }
{
    match kind {
        Kind::DeniedIn => denied_in_set(work, nodes, site),
        Kind::Accepted => accepted_set(alloc, work, nodes, site, made),
        Kind::NoRoute => no_route_set(alloc, work, nodes, site, made),
        Kind::NullRouted => null_routed_set(alloc, work, nodes, site, made),
        Kind::DeniedOut | Kind::Unreachable | Kind::Exits | Kind::Delivered => {
            over_hops_set(alloc, work, nodes, site, made, kind)
        }
    }
}
