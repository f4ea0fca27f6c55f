//! The endings asked for at a position.
ghost use Rattle.std.specs.Prelude.{◌≡◌, ◌<◌, ◌++◌, ◌∷◌, [], Bool, List, IfOk, IfErr, OnOk, Some, filter, slice_get};
ghost use Rattle.std.specs.List.{fold};
ghost use Rattle.rc_bdd.specs.Work.{IsCause};
ghost use Rattle.rc_router_sets.specs.Made.{IsMade};
ghost use Rattle.rc_base.specs.Positions.{is_among};
ghost use Rattle.rc_base.specs.declared.ending.Kind.{Kind as KindOf};
ghost use Rattle.rc_edges.specs.Prepare.{MayEnd, end_trees};
ghost use Rattle.rc_router_sets.specs.Query.{kinds_of};
ghost use Rattle.rc_edges.specs.Stops.{AreKnown, sets_of};
ghost use Rattle.rc_nodes.specs.Seats.{IsSeatOf, Keeps};
ghost use Rattle.rc_trees.specs.Trees.{Tree};
ghost use Rattle.rc_jobs.specs.Collecting.{with_ending};

use crate::endings::end_set;
use rc_base::{Ends, Items, Kind};
use rc_bdd::{SetError, Work};
use rc_jobs::{Ending, push_ending};
use rc_nodes::{May, Nodes, Ref};
use rc_router_sets::{RouterSets, Site};
use std::alloc::{AllocError, Global};

/// What may end at a position, and how.
#[derive(Clone, Copy)]
pub(crate) struct Stop {
    pub kind: Kind,
    pub set: Ref,
}

/// Puts an ending behind the others.
fn put_stop(stops: &mut Vec<Stop>, kind: Kind, set: Ref) -> Result<(), SetError>
    ensures put { OnOk result (stops.new.items ≡ stops.old.items ++ record { kind = kind; set = set } ∷ []) }
    ensures memory { IfErr result (λ e. e ≡ SetError.Memory) }
{
    match stops.push(Stop { kind, set }) {
        Ok(_) => Ok(()),
        Err(_) => Err(SetError::Memory),
    }
}

/// Puts what may end so at the position behind the others, where that is asked for.
fn add_ending<M: May>(
    alloc: Global,
    work: &mut Work<M>,
    nodes: &Nodes<M>,
    site: &Site<'_>,
    made: &mut RouterSets,
    ends: Ends,
    kind: Kind,
    stops: &mut Vec<Stop>,
) -> Result<(), SetError>
    requires made { IsMade nodes.now work.old site.now.plane.now site.now.position made.old }
    requires may { MayEnd nodes.now.may site.now.plane.now ends site.now.position }
    ensures seat { IsSeatOf nodes.now work.new }
    ensures made { IfOk result (λ _. IsMade nodes.now work.new site.now.plane.now site.now.position made.new) }
    ensures keeps { Keeps work.old work.new }
    ensures stops { OnOk result ((these : KindOf → Bool) (done : List Tree) → AreKnown work.old (sets_of these stops.old.items) done → AreKnown work.new (sets_of these stops.new.items) (done ++ end_trees site.now.plane.now site.now.position (filter these (filter (is_among ends) (kind ∷ []))))) }
    ensures cause { IfErr result (IsCause nodes.now work.new) }
{
    if !ends.has(kind) {
        return Ok(());
    }
    let set = end_set(alloc, work, nodes, site, made, kind)?;
    put_stop(stops, kind, set)
}

/// Puts what may end at the position, ending by ending of those asked for, behind the others.
pub(crate) fn add_endings<M: May>(
    alloc: Global,
    work: &mut Work<M>,
    nodes: &Nodes<M>,
    site: &Site<'_>,
    made: &mut RouterSets,
    ends: Ends,
    stops: &mut Vec<Stop>,
) -> Result<(), SetError>
    requires made { IsMade nodes.now work.old site.now.plane.now site.now.position made.old }
    requires may { MayEnd nodes.now.may site.now.plane.now ends site.now.position }
    ensures seat { IsSeatOf nodes.now work.new }
    ensures made { IfOk result (λ _. IsMade nodes.now work.new site.now.plane.now site.now.position made.new) }
    ensures keeps { Keeps work.old work.new }
    ensures stops { OnOk result ((these : KindOf → Bool) (done : List Tree) → AreKnown work.old (sets_of these stops.old.items) done → AreKnown work.new (sets_of these stops.new.items) (done ++ end_trees site.now.plane.now site.now.position (filter these (kinds_of ends)))) }
    ensures cause { IfErr result (IsCause nodes.now work.new) }
{
    for index in 0..8 {
        let kind = Kind::at(index);
        add_ending(alloc, work, nodes, site, made, ends, kind, stops)?;
    }
    Ok(())
}

/// Puts what may end at one position behind the endings, where its set holds some header.
pub(crate) fn put_stops(
    endings: &mut Items<Ending>,
    stops: &[Stop],
    from: usize,
) -> Result<(), AllocError>
    ensures { OnOk result (endings.new ≡ fold (λ es s. with_ending es from s.kind s.set) endings.old stops.now) }
{
    for stop in stops {
        push_ending(endings, stop.kind, from, stop.set)?;
    }
    Ok(())
}
