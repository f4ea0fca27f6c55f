//! What has come to an ending.
ghost use Rattle.std.specs.Prelude.{◌≡◌, ◌≤◌, length, IfOk, IfErr};
ghost use Rattle.rc_base.specs.Header.{bit_count};
ghost use Rattle.rc_base.specs.Positions.{is_among};
ghost use Rattle.rc_bdd.specs.Work.{IsCause};
ghost use Rattle.rc_config.specs.Members.{positions};
ghost use Rattle.rc_edges.specs.Prepare.{ends_at};
ghost use Rattle.rc_router_sets.specs.Query.{query_nodes, reaching};
ghost use Rattle.rc_jobs.specs.Flows.{KnowsFlows, flows_of, real_endings};
ghost use Rattle.rc_nodes.specs.Seats.{IsSeatOf, Keeps, SeatKnows};
ghost use Rattle.rc_spread.specs.Known.{KnowsShare};
ghost use Rattle.rc_reach.specs.Rounds.{reached_at, reached_in};
ghost use Rattle.rc_router_sets.specs.Planes.{IsPlane};
ghost use Rattle.rc_sectors.specs.Sectors.{within};
ghost use Rattle.rc_trees.specs.Recipes.{tree};
ghost use Rattle.rc_trees.specs.Trees.{HasNodes};

use rc_base::{Ends, Pos};
use rc_bdd::{SetError, Work};
use rc_jobs::{Ending, Flow, Prepared};
use rc_moves::Plane;
use rc_nodes::{May, Nodes, Ref};
use rc_spread::{passages_of, united_set};
use std::alloc::{AllocError, Global};

/// Of endings the flows of those that are asked for.
pub fn flows_asked(alloc: Global, endings: &[Ending], ends: Ends) -> Result<Vec<Flow>, AllocError>
    ensures { IfOk result (λ flows. flows.items ≡ flows_of (is_among ends) endings.now) }
{
    let mut flows = Vec::new(alloc);
    for ending in endings {
        if ends.has(ending.kind) {
            flows.push(ending.flow)?;
        }
    }
    Ok(flows)
}

/// The headers of a sector that have come from a place to one of some endings, after all rounds: `sets` are what these made of each
/// position, and `flows` the endings that some header may have.
pub fn reaching_in<M: May>(
    alloc: Global,
    work: &mut Work<M>,
    nodes: &Nodes<M>,
    plane: &Plane<'_>,
    place: &Pos,
    ends: Ends,
    flows: &[Flow],
    sector: &[bool],
    sets: &[Ref],
) -> Result<Ref, SetError>
    requires plane { IsPlane plane.now }
    requires short { length sector.now ≤ bit_count }
    requires seat { IsSeatOf nodes.now work.old }
    requires endings { KnowsFlows work.old flows.now (real_endings (ends_at plane.now ends) (length (positions plane.now.network))) }
    requires sets { KnowsShare work.old sets.now (reached_in plane.now place.now sector.now (length (positions plane.now.network))) 0 (length (positions plane.now.network)) }
    requires may { HasNodes nodes.now.may (query_nodes plane.now place.now ends) }
    ensures seat { IsSeatOf nodes.now work.new }
    ensures keeps { Keeps work.old work.new }
    ensures set { IfOk result (λ r. SeatKnows work.new r.index (within sector.now (tree (reaching plane.now place.now ends)))) }
    ensures cause { IfErr result (IsCause nodes.now work.new) }
{
    let _ = plane;
    let _ = place;
    let _ = ends;
    let Ok(passages) = passages_of(alloc, work, nodes, sets, flows, sector) else {
        return Err(SetError::Memory);
    };
    united_set(alloc, work, nodes, passages.as_slice(), sector.len() as u8)
}

/// The headers that have come from a place to one of some endings, after all rounds: `sets` are what these made of each position, and
/// `endings` those that some header may have, among others.
pub fn reaching_set<M: May>(
    alloc: Global,
    work: &mut Work<M>,
    nodes: &Nodes<M>,
    plane: &Plane<'_>,
    place: &Pos,
    ends: Ends,
    endings: &[Ending],
    sets: &[Ref],
) -> Result<Ref, SetError>
    requires plane { IsPlane plane.now }
    requires seat { IsSeatOf nodes.now work.old }
    requires endings { KnowsFlows work.old (flows_of (is_among ends) endings.now) (real_endings (ends_at plane.now ends) (length (positions plane.now.network))) }
    requires sets { KnowsShare work.old sets.now (reached_at plane.now place.now (length (positions plane.now.network))) 0 (length (positions plane.now.network)) }
    requires may { HasNodes nodes.now.may (query_nodes plane.now place.now ends) }
    ensures seat { IsSeatOf nodes.now work.new }
    ensures keeps { Keeps work.old work.new }
    ensures set { IfOk result (λ r. SeatKnows work.new r.index (tree (reaching plane.now place.now ends))) }
    ensures cause { IfErr result (IsCause nodes.now work.new) }
{
    let flows = match flows_asked(alloc, endings, ends) {
        Ok(flows) => flows,
        Err(_) => return Err(SetError::Memory),
    };
    reaching_in(
        alloc,
        work,
        nodes,
        plane,
        place,
        ends,
        flows.as_slice(),
        &[],
        sets,
    )
}

/// The headers that have come from a place to one of the endings that were prepared, after all rounds. Where these failed it makes nothing.
pub fn ended<M: May>(
    alloc: Global,
    work: &mut Work<M>,
    nodes: &Nodes<M>,
    plane: &Plane<'_>,
    place: &Pos,
    ends: Ends,
    prepared: &Prepared,
    sets: Result<Vec<Ref>, SetError>,
) -> Result<Ref, SetError>
    requires plane { IsPlane plane.now }
    requires seat { IsSeatOf nodes.now work.old }
    requires endings { KnowsFlows work.old (flows_of (is_among ends) prepared.now.ends) (real_endings (ends_at plane.now ends) (length (positions plane.now.network))) }
    requires sets { IfOk sets (λ v. KnowsShare work.old v.items (reached_at plane.now place.now (length (positions plane.now.network))) 0 (length (positions plane.now.network))) }
    requires cause { IfErr sets (IsCause nodes.now work.old) }
    requires may { HasNodes nodes.now.may (query_nodes plane.now place.now ends) }
    ensures seat { IsSeatOf nodes.now work.new }
    ensures keeps { Keeps work.old work.new }
    ensures set { IfOk result (λ r. SeatKnows work.new r.index (tree (reaching plane.now place.now ends))) }
    ensures cause { IfErr result (IsCause nodes.now work.new) }
    ensures failed { IfErr sets (λ e. result ≡ Err e) }
{
    match sets {
        Ok(sets) => reaching_set(
            alloc,
            work,
            nodes,
            plane,
            place,
            ends,
            prepared.ends.as_slice(),
            sets.as_slice(),
        ),
        Err(error) => Err(error),
    }
}
