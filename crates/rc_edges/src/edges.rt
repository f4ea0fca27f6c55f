//! What a position sends to the next ones, hop by hop.
ghost use Rattle.std.specs.Prelude.{◌≡◌, ◌<◌, ◌∷◌, ◌+◌, [], IfOk, IfErr, Some, length, slice_get, take, true};
ghost use Rattle.rc_bdd.specs.Work.{IsCause};
ghost use Rattle.rc_router_sets.specs.Edges as spec;
ghost use Rattle.rc_config.specs.Members.{positions};
ghost use Rattle.rc_edges.specs.Given.{Gives, IsRow, MayGet, given_by, hop_targets, joined, leads_onto, nothing};
ghost use Rattle.rc_router_sets.specs.Made.{IsMade};
ghost use Rattle.rc_edges.specs.Prepare.{MaySend};
ghost use Rattle.rc_router_sets.specs.Sent.{hops_at, to_interface};
ghost use Rattle.rc_router_sets.specs.Steps.{step_at};
ghost use Rattle.rc_router_sets.specs.declared.hop_steps.Step.TheVariants.{Leaving};
ghost use Rattle.rc_nodes.specs.Seats.{IsSeatOf, Keeps};
ghost use Rattle.rc_places.specs.Places.{position_at};
ghost use Rattle.rc_topology.specs.Ports.{links_of};
ghost use Rattle.rc_route.specs.declared.route.Hop.TheVariants.{Dev as Over};
ghost use Rattle.rc_trees.specs.Recipes.{and, tree};

use crate::outgoing::Row;
use rc_base::{IfId, Pos};
use rc_bdd::{SetError, Work};
use rc_nodes::{May, Nodes};
use rc_places::Places;
use rc_route::Hop;
use rc_router_sets::{
    HopAt, RouterSets, Site, Step, interface_set, linked_of, step_set, takers_of,
};
use std::alloc::{AllocError, Global};

/// Gives what an interface on a link owns of what leaves over a hop.
fn add_owned<M: May>(
    alloc: Global,
    work: &mut Work<M>,
    nodes: &Nodes<M>,
    site: &Site<'_>,
    made: &mut RouterSets,
    row: &mut Row,
    at: &HopAt,
    next: &IfId,
    onto: usize,
) -> Result<(), SetError>
    requires made { IsMade nodes.now work.old site.now.plane.now site.now.position made.old }
    requires at { slice_get (hops_at site.now.plane.now site.now.position) at.now.index ≡ Some at.now.hop }
    requires onto { onto < length row.old.sets.items }
    requires may { MayGet nodes.now work.old row.old onto (and (step_at site.now.plane.now site.now.position Leaving at.now.hop) (to_interface site.now.plane.now next.now) ∷ []) }
    ensures seat { IsSeatOf nodes.now work.new }
    ensures made { IfOk result (λ _. IsMade nodes.now work.new site.now.plane.now site.now.position made.new) }
    ensures keeps { Keeps work.old work.new }
    ensures given { IfOk result (λ _. Gives work.old work.new row.old row.new onto (and (step_at site.now.plane.now site.now.position Leaving at.now.hop) (to_interface site.now.plane.now next.now) ∷ [])) }
    ensures cause { IfErr result (IsCause nodes.now work.new) }
{
    let leaving = step_set(alloc, work, nodes, site, made, at, Step::Leaving)?;
    let there = interface_set(alloc, work, nodes, site.plane, next)?;
    let owned = work.and(nodes, leaving, there)?;
    row.add(work, nodes, onto, owned)
}

/// Gives what a step gives of a hop.
fn add_step<M: May>(
    alloc: Global,
    work: &mut Work<M>,
    nodes: &Nodes<M>,
    site: &Site<'_>,
    made: &mut RouterSets,
    row: &mut Row,
    at: &HopAt,
    step: Step,
    onto: usize,
) -> Result<(), SetError>
    requires made { IsMade nodes.now work.old site.now.plane.now site.now.position made.old }
    requires at { slice_get (hops_at site.now.plane.now site.now.position) at.now.index ≡ Some at.now.hop }
    requires onto { onto < length row.old.sets.items }
    requires may { MayGet nodes.now work.old row.old onto (step_at site.now.plane.now site.now.position step at.now.hop ∷ []) }
    ensures seat { IsSeatOf nodes.now work.new }
    ensures made { IfOk result (λ _. IsMade nodes.now work.new site.now.plane.now site.now.position made.new) }
    ensures keeps { Keeps work.old work.new }
    ensures given { IfOk result (λ _. Gives work.old work.new row.old row.new onto (step_at site.now.plane.now site.now.position step at.now.hop ∷ [])) }
    ensures cause { IfErr result (IsCause nodes.now work.new) }
{
    let set = step_set(alloc, work, nodes, site, made, at, step)?;
    row.add(work, nodes, onto, set)
}

/// Gives what leaves over a hop without a gateway towards an interface on a link: what that one owns, and on a serial line also what
/// nobody there owns.
fn add_on_link<M: May>(
    alloc: Global,
    work: &mut Work<M>,
    nodes: &Nodes<M>,
    site: &Site<'_>,
    made: &mut RouterSets,
    row: &mut Row,
    at: &HopAt,
    interface: &IfId,
    next: &IfId,
    onto: usize,
) -> Result<(), SetError>
    requires made { IsMade nodes.now work.old site.now.plane.now site.now.position made.old }
    requires at { (slice_get (hops_at site.now.plane.now site.now.position) at.now.index ≡ Some at.now.hop) × (at.now.hop ≡ Over interface.now) }
    requires onto { onto < length row.old.sets.items }
    requires may { MayGet nodes.now work.old row.old onto (spec.onto_link site.now.plane.now site.now.position next.now interface.now) }
    ensures seat { IsSeatOf nodes.now work.new }
    ensures made { IfOk result (λ _. IsMade nodes.now work.new site.now.plane.now site.now.position made.new) }
    ensures keeps { Keeps work.old work.new }
    ensures given { IfOk result (λ _. Gives work.old work.new row.old row.new onto (spec.onto_link site.now.plane.now site.now.position next.now interface.now)) }
    ensures cause { IfErr result (IsCause nodes.now work.new) }
{
    add_owned(alloc, work, nodes, site, made, row, at, next, onto)?;
    if !site.plane.links().is_serial(*interface) {
        return Ok(());
    }
    add_step(alloc, work, nodes, site, made, row, at, Step::Rest, onto)
}

/// Gives what a hop sends towards an interface onto which it leads.
fn add_towards<M: May>(
    alloc: Global,
    work: &mut Work<M>,
    nodes: &Nodes<M>,
    site: &Site<'_>,
    made: &mut RouterSets,
    row: &mut Row,
    at: &HopAt,
    next: &IfId,
    onto: usize,
) -> Result<(), SetError>
    requires made { IsMade nodes.now work.old site.now.plane.now site.now.position made.old }
    requires at { slice_get (hops_at site.now.plane.now site.now.position) at.now.index ≡ Some at.now.hop }
    requires leads { leads_onto site.now.plane.now.links at.now.hop next.now ≡ true }
    requires onto { onto < length row.old.sets.items }
    requires may { MayGet nodes.now work.old row.old onto (spec.towards site.now.plane.now site.now.position next.now at.now.hop) }
    ensures seat { IsSeatOf nodes.now work.new }
    ensures made { IfOk result (λ _. IsMade nodes.now work.new site.now.plane.now site.now.position made.new) }
    ensures keeps { Keeps work.old work.new }
    ensures given { IfOk result (λ _. Gives work.old work.new row.old row.new onto (spec.towards site.now.plane.now site.now.position next.now at.now.hop)) }
    ensures cause { IfErr result (IsCause nodes.now work.new) }
{
    match &at.hop {
        Hop::Null => Ok(()),
        Hop::Dev(interface) => add_on_link(
            alloc, work, nodes, site, made, row, at, interface, next, onto,
        ),
        Hop::Via(_, through) => match through {
            Some(_) => add_step(alloc, work, nodes, site, made, row, at, Step::Leaving, onto),
            None => Ok(()),
        },
    }
}

/// The interfaces onto which a hop leads.
fn targets_of(alloc: Global, site: &Site<'_>, hop: &Hop) -> Result<Vec<IfId>, AllocError>
    ensures { IfOk result (λ targets. targets.items ≡ hop_targets site.now.plane.now.links hop.now) }
{
    match hop {
        Hop::Null => Ok(Vec::new(alloc)),
        Hop::Dev(interface) => {
            if site.plane.links().is_loopback(*interface) {
                return Ok(Vec::new(alloc));
            }
            linked_of(alloc, site.plane, interface)
        }
        Hop::Via(gateway, through) => match through {
            Some(interface) => {
                if site.plane.links().is_loopback(*interface) {
                    return Ok(Vec::new(alloc));
                }
                takers_of(alloc, site.plane, interface, *gateway)
            }
            None => Ok(Vec::new(alloc)),
        },
    }
}

/// Gives what one hop sends to each of its targets.
fn add_targets<M: May>(
    alloc: Global,
    work: &mut Work<M>,
    nodes: &Nodes<M>,
    site: &Site<'_>,
    places: &Places<'_>,
    made: &mut RouterSets,
    row: &mut Row,
    at: &HopAt,
    targets: &[IfId],
) -> Result<(), SetError>
    requires places { places.now ≡ site.now.plane.now.network }
    requires links { site.now.plane.now.links ≡ links_of site.now.plane.now.network }
    requires made { IsMade nodes.now work.old site.now.plane.now site.now.position made.old }
    requires at { slice_get (hops_at site.now.plane.now site.now.position) at.now.index ≡ Some at.now.hop }
    requires targets { targets.now ≡ hop_targets site.now.plane.now.links at.now.hop }
    requires row { IsRow work.old row.old (length (positions places.now)) (joined (given_by site.now.plane.now site.now.position (take at.now.index (hops_at site.now.plane.now site.now.position)))) }
    requires may { MaySend nodes.now.may site.now.plane.now site.now.position }
    ensures seat { IsSeatOf nodes.now work.new }
    ensures made { IfOk result (λ _. IsMade nodes.now work.new site.now.plane.now site.now.position made.new) }
    ensures keeps { Keeps work.old work.new }
    ensures row { IfOk result (λ _. IsRow work.new row.new (length (positions places.now)) (joined (given_by site.now.plane.now site.now.position (take (at.now.index + 1) (hops_at site.now.plane.now site.now.position))))) }
    ensures cause { IfErr result (IsCause nodes.now work.new) }
{
    for next in targets {
        let onto = places.number(&Pos::Entering(*next));
        add_towards(alloc, work, nodes, site, made, row, at, next, onto)?;
    }
    Ok(())
}

/// Gives what one hop sends to each position.
fn add_hop<M: May>(
    alloc: Global,
    work: &mut Work<M>,
    nodes: &Nodes<M>,
    site: &Site<'_>,
    places: &Places<'_>,
    made: &mut RouterSets,
    row: &mut Row,
    at: &HopAt,
) -> Result<(), SetError>
    requires places { places.now ≡ site.now.plane.now.network }
    requires links { site.now.plane.now.links ≡ links_of site.now.plane.now.network }
    requires made { IsMade nodes.now work.old site.now.plane.now site.now.position made.old }
    requires at { slice_get (hops_at site.now.plane.now site.now.position) at.now.index ≡ Some at.now.hop }
    requires row { IsRow work.old row.old (length (positions places.now)) (joined (given_by site.now.plane.now site.now.position (take at.now.index (hops_at site.now.plane.now site.now.position)))) }
    requires may { MaySend nodes.now.may site.now.plane.now site.now.position }
    ensures seat { IsSeatOf nodes.now work.new }
    ensures made { IfOk result (λ _. IsMade nodes.now work.new site.now.plane.now site.now.position made.new) }
    ensures keeps { Keeps work.old work.new }
    ensures row { IfOk result (λ _. IsRow work.new row.new (length (positions places.now)) (joined (given_by site.now.plane.now site.now.position (take (at.now.index + 1) (hops_at site.now.plane.now site.now.position))))) }
    ensures cause { IfErr result (IsCause nodes.now work.new) }
{
    let Ok(targets) = targets_of(alloc, site, &at.hop) else {
        return Err(SetError::Memory);
    };
    add_targets(
        alloc,
        work,
        nodes,
        site,
        places,
        made,
        row,
        at,
        targets.as_slice(),
    )
}

/// The hop of an index.
fn hop_of(hops: &[Hop], index: usize) -> Hop
    requires { index < length hops.now }
    ensures { slice_get hops.now index ≡ Some result }
{
    hops[index]
}

/// The hop of an index, with the index.
pub(crate) fn hop_at(hops: &[Hop], index: usize) -> HopAt
    requires { index < length hops.now }
    ensures { (result.index ≡ index) × (slice_get hops.now index ≡ Some result.hop) }
{
    let hop = hop_of(hops, index);
    HopAt { index, hop }
}

/// Gives what a position sends to each other one.
pub(crate) fn add_edges<M: May>(
    alloc: Global,
    work: &mut Work<M>,
    nodes: &Nodes<M>,
    site: &Site<'_>,
    places: &Places<'_>,
    made: &mut RouterSets,
    row: &mut Row,
) -> Result<(), SetError>
    requires places { places.now ≡ site.now.plane.now.network }
    requires links { site.now.plane.now.links ≡ links_of site.now.plane.now.network }
    requires made { IsMade nodes.now work.old site.now.plane.now site.now.position made.old }
    requires row { IsRow work.old row.old (length (positions places.now)) (joined nothing) }
    requires may { MaySend nodes.now.may site.now.plane.now site.now.position }
    ensures seat { IsSeatOf nodes.now work.new }
    ensures made { IfOk result (λ _. IsMade nodes.now work.new site.now.plane.now site.now.position made.new) }
    ensures keeps { Keeps work.old work.new }
    ensures row { IfOk result (λ _. IsRow work.new row.new (length (positions places.now)) (λ t. tree (spec.edge site.now.plane.now site.now.position (position_at places.now t)))) }
    ensures cause { IfErr result (IsCause nodes.now work.new) }
{
    for index in 0..made.hops.len() {
        let at = hop_at(made.hops.as_slice(), index);
        add_hop(alloc, work, nodes, site, places, made, row, &at)?;
    }
    Ok(())
}
