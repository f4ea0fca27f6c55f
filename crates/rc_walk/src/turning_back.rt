//! The shortest walk that comes back.
ghost use Rattle.std.specs.Prelude.{◌≡◌, ℕ, ◌+◌, ◌<◌, List, IfOk, MatchOption, Some, length, slice_get};
ghost use Rattle.rc_base.specs.declared.header.Header.{Header as HeaderOf};
ghost use Rattle.rc_base.specs.declared.position.Pos.{Pos as Place};
ghost use Rattle.rc_walk.specs.Loops.{IsShortestLoop, NoLoop};
ghost use Rattle.rc_walk.specs.Searching.{IsAllLooked, IsAtEnd};
ghost use Rattle.rc_walk.specs.Ways.{IsBest, IsOneOfFirst, itself};
ghost use Rattle.rc_walk.specs.declared.goal.Goal.TheVariants.{Nothing, Onto};
ghost use Rattle.rc_moves.specs.Moves.{DataPlane};

use crate::goal::Goal;
use crate::search::{Search, Seeking, Sought, seek};
use crate::way::{Way, come_before};
use rc_base::{Header, Items, Pos};
use rc_moves::{Plane, Stop, Walk};
use std::alloc::{AllocError, Global};

/// All positions that moves lead to from a position.
fn everything(
    alloc: Global,
    plane: &Plane<'_>,
    header: &Header,
    start: &Pos,
) -> Result<Search, AllocError>
    ensures { IfOk result (λ s. IsAllLooked plane.now header.now Nothing start.now s.found s.from.items s.by.items) }
{
    let seeking = Seeking {
        plane: &*plane,
        header: *header,
        start: *start,
        goal: Goal::Nothing,
    };
    let sought = seek(alloc, &seeking)?;
    let Sought { search, end: _ } = sought;
    Ok(search)
}

/// A search for a way from a position back to it.
fn seek_back(
    alloc: Global,
    plane: &Plane<'_>,
    header: &Header,
    turn: &Pos,
) -> Result<Sought, AllocError>
    ensures { IfOk result (λ s. MatchOption s.end (IsAllLooked plane.now header.now (Onto turn.now) turn.now s.search.found s.search.from.items s.search.by.items) (λ e. IsAtEnd plane.now header.now (Onto turn.now) turn.now s.search.found s.search.from.items s.search.by.items e.place e.met.choice e.met.last)) }
{
    let seeking = Seeking {
        plane: &*plane,
        header: *header,
        start: *turn,
        goal: Goal::Onto(*turn),
    };
    seek(alloc, &seeking)
}

/// The first way to the position of a place, and from there back to it.
fn round_at(
    alloc: Global,
    plane: &Plane<'_>,
    header: &Header,
    start: &Pos,
    all: &Search,
    place: usize,
) -> Result<Option<Way>, AllocError>
    requires all { IsAllLooked plane.now header.now Nothing start.now all.now.found all.now.from.items all.now.by.items }
    requires place { place < length all.now.found }
    ensures { IfOk result (λ way. (t : Place) → slice_get all.now.found place ≡ Some t → IsBest plane.now header.now start.now (itself t) way) }
{
    let _ = start;
    let turn = all.found.at(place);
    let Sought { search, end } = seek_back(alloc, plane, header, &turn)?;
    let Some(end) = end else {
        return Ok(None);
    };
    let out = all.way_to(alloc, place)?;
    let back = search.way_to(alloc, end.place)?;
    let way = out.and_back(back, end.met.choice)?;
    Ok(Some(way))
}

/// Of two ways the one whose choices come first.
fn first_of(best: Option<Way>, other: Option<Way>) -> Option<Way>
    ensures { (plane : DataPlane) (h : HeaderOf) (q t : Place) (found : List Place) (place : ℕ) → slice_get found place ≡ Some t → IsBest plane h q (IsOneOfFirst found place) best → IsBest plane h q (itself t) other → IsBest plane h q (IsOneOfFirst found (place + 1)) result }
{
    match (best, other) {
        (None, other) => other,
        (Some(best), None) => Some(best),
        (Some(best), Some(other)) => {
            if come_before(other.choices.as_slice(), best.choices.as_slice()) {
                Some(other)
            } else {
                Some(best)
            }
        }
    }
}

/// Of the first ways to all positions and back to them the one whose choices come first.
fn best_round(
    alloc: Global,
    plane: &Plane<'_>,
    header: &Header,
    start: &Pos,
    all: &Search,
) -> Result<Option<Way>, AllocError>
    requires { IsAllLooked plane.now header.now Nothing start.now all.now.found all.now.from.items all.now.by.items }
    ensures { IfOk result (λ way. IsBest plane.now header.now start.now (IsOneOfFirst all.now.found (length all.now.found)) way) }
{
    let mut best = None;
    for place in 0..all.found.len() {
        let round = round_at(alloc, plane, header, start, all, place)?;
        let next = first_of(best, round);
        best = next;
    }
    Ok(best)
}

/// The shortest walk of a packet from a position whose last position has one of the walk's own positions among its moves: of as many
/// choices among the moves, the returning move's last, the walk whose choices come first. `None` exactly where no walk comes back. It errs
/// only where memory runs out.
pub fn looping(
    alloc: Global,
    plane: &Plane<'_>,
    position: Pos,
    header: &Header,
) -> Result<Option<Walk>, AllocError>
    ensures { IfOk result (λ walk. MatchOption walk (NoLoop plane.now header.now position) (IsShortestLoop plane.now header.now position)) }
{
    let all = everything(alloc, plane, header, &position)?;
    let best = best_round(alloc, plane, header, &position, &all)?;
    let Some(way) = best else {
        return Ok(None);
    };
    let Way {
        positions,
        choices: _,
    } = way;
    Ok(Some(Walk {
        positions: Items::from_vec(positions),
        stop: Stop::Loop,
    }))
}
