//! A search for a move, breadth first.
ghost use Rattle.std.specs.Prelude.{◌≡◌, ℕ, ◌<◌, [], ◌∷◌, ◌++◌, List, length, reverse, if◌then◌else◌, IfOk, OnOk, MatchOption};
ghost use Rattle.rc_base.specs.declared.position.Pos.{Pos as Place};
ghost use Rattle.rc_moves.specs.Moves.{moves};
ghost use Rattle.rc_walk.specs.Searching.{by_with, found_with, from_with, AreLinked, HasLooked, IsAllLooked, IsAtEnd, IsUnderWay, WaysBack};
ghost use Rattle.rc_moves.specs.Walks.{stands_in};

use crate::goal::Goal;
use crate::walked::Walked;
use crate::way::Way;
use rc_base::{Header, Pos};
use rc_moves::{Move, Plane, step};
use std::alloc::{AllocError, Global};

/// What is sought: from a position a move that meets a goal.
#[derive(Drop)]
pub(crate) struct Seeking<'a> {
    pub plane: &'a Plane<'a>,
    pub header: Header,
    pub start: Pos,
    pub goal: Goal,
}

/// A move that was sought, and its place among the moves.
#[derive(Clone, Copy, Drop)]
pub(crate) struct Met {
    pub choice: usize,
    pub last: Move,
}

/// The positions that were found, each once, in the order in which they were; for each the place among them of the one from which a move
/// leads there, and the place of that move among its moves.
pub(crate) struct Search {
    pub found: Walked,
    pub from: Vec<usize>,
    pub by: Vec<usize>,
}

/// By a function of its own, so that what holds a search drops it by one call.
impl Drop for Search {
    fn drop(self) {
        let Search {
            found: _,
            from: _,
            by: _,
        } = self;
    }
}

/// The moves at a position, in order.
fn moves_of(alloc: Global, seeking: &Seeking<'_>, position: Pos) -> Result<Vec<Move>, AllocError>
    ensures { IfOk result (λ v. v.items ≡ moves seeking.now.plane.now seeking.now.header position) }
{
    let mut all = Vec::new(alloc);
    let mut steps = step(seeking.plane, position, &seeking.header);
    while let Some(next) = steps.next() {
        all.push(next)?;
    }
    Ok(all)
}

impl Search {
    /// A search that sets out from a position.
    pub fn set_out(alloc: Global, start: &Pos) -> Result<Search, AllocError>
        ensures found { IfOk result (λ search. search.found ≡ start.now ∷ []) }
        ensures from { IfOk result (λ search. search.from.items ≡ 0 ∷ []) }
        ensures by { IfOk result (λ search. search.by.items ≡ 0 ∷ []) }
    {
        let mut from = Vec::new(alloc);
        from.push(0)?;
        let mut by = Vec::new(alloc);
        by.push(0)?;
        let found = Walked::from(alloc, start)?;
        Ok(Search { found, from, by })
    }

    /// Puts a position behind the others, where it isn't among them, as one to which a move leads from a place.
    fn put(&mut self, position: &Pos, place: usize, choice: usize) -> Result<(), AllocError>
        ensures found { OnOk result (self.new.found ≡ (if stands_in self.old.found position.now then self.old.found else self.old.found ++ position.now ∷ [])) }
        ensures from { OnOk result (self.new.from.items ≡ (if stands_in self.old.found position.now then self.old.from.items else self.old.from.items ++ place ∷ [])) }
        ensures by { OnOk result (self.new.by.items ≡ (if stands_in self.old.found position.now then self.old.by.items else self.old.by.items ++ choice ∷ [])) }
    {
        let is_new = self.found.put(position)?;
        if is_new {
            self.from.push(place)?;
            self.by.push(choice)?;
        }
        Ok(())
    }

    /// Follows a move of the position at a place.
    fn follow(&mut self, next: &Move, place: usize, choice: usize) -> Result<(), AllocError>
        ensures found { OnOk result (self.new.found ≡ found_with self.old.found next.now) }
        ensures from { OnOk result (self.new.from.items ≡ from_with self.old.found self.old.from.items place next.now) }
        ensures by { OnOk result (self.new.by.items ≡ by_with self.old.found self.old.by.items choice next.now) }
    {
        match next {
            Move::End(_) => Ok(()),
            Move::Next(position) => self.put(position, place, choice),
        }
    }

    /// Looks at the moves of the position at a place, in order, up to one that meets the goal.
    pub fn look(
        &mut self,
        alloc: Global,
        seeking: &Seeking<'_>,
        place: usize,
    ) -> Result<Option<Met>, AllocError>
        requires { IsUnderWay seeking.now.plane.now seeking.now.header seeking.now.goal seeking.now.start self.old.found self.old.from.items self.old.by.items place 0 }
        ensures { IfOk result (λ met. MatchOption met (HasLooked seeking.now.plane.now seeking.now.header seeking.now.goal seeking.now.start self.new.found self.new.from.items self.new.by.items place) (λ m. IsAtEnd seeking.now.plane.now seeking.now.header seeking.now.goal seeking.now.start self.new.found self.new.from.items self.new.by.items place m.choice m.last)) }
    {
        let here = self.found.at(place);
        let all = moves_of(alloc, seeking, here)?;
        for choice in 0..all.len() {
            let next = all[choice];
            if seeking.goal.is_met(&next) {
                return Ok(Some(Met { choice, last: next }));
            }
            self.follow(&next, place, choice)?;
        }
        Ok(None)
    }

    /// The positions from the first one found to the one at a place, with the choices that lead there.
    pub fn way_to(&self, alloc: Global, place: usize) -> Result<Way, AllocError>
        requires place { place < length self.now.found }
        requires from { length self.now.from.items ≡ length self.now.found }
        requires by { length self.now.by.items ≡ length self.now.found }
        requires linked { AreLinked self.now.found self.now.from.items }
        ensures { IfOk result (λ way. (back : List Place) × (choices : List ℕ) × WaysBack self.now.found self.now.from.items self.now.by.items place back choices × (way.positions.items ≡ reverse back) × (way.choices.items ≡ reverse choices)) }
    {
        let mut positions = Vec::new(alloc);
        let mut choices = Vec::new(alloc);
        let mut at = place;
        while at != 0 {
            positions.push(self.found.at(at))?;
            choices.push(self.by[at])?;
            at = self.from[at];
        }
        positions.push(self.found.at(0))?;
        positions.reverse();
        choices.reverse();
        Ok(Way { positions, choices })
    }
}

/// Where a search ended: at the position of a place, at a move that was sought.
#[derive(Clone, Copy, Drop)]
pub(crate) struct End {
    pub place: usize,
    pub met: Met,
}

/// What a search found, and where it ended, if it met its goal.
#[derive(Drop)]
pub(crate) struct Sought {
    pub search: Search,
    pub end: Option<End>,
}

/// Looks at all positions that moves lead to, one after another, until a move meets the goal.
pub(crate) fn seek(alloc: Global, seeking: &Seeking<'_>) -> Result<Sought, AllocError>
    ensures { IfOk result (λ s. MatchOption s.end (IsAllLooked seeking.now.plane.now seeking.now.header seeking.now.goal seeking.now.start s.search.found s.search.from.items s.search.by.items) (λ e. IsAtEnd seeking.now.plane.now seeking.now.header seeking.now.goal seeking.now.start s.search.found s.search.from.items s.search.by.items e.place e.met.choice e.met.last)) }
{
    let mut search = Search::set_out(alloc, &seeking.start)?;
    let mut place = 0;
    loop {
        let met = search.look(alloc, seeking, place)?;
        if let Some(met) = met {
            return Ok(Sought {
                search,
                end: Some(End { place, met }),
            });
        }
        place += 1;
        if place == search.found.len() {
            return Ok(Sought { search, end: None });
        }
    }
}
