//! The positions of a walk so far, or of a search.
ghost use Rattle.std.specs.Prelude.{◌≡◌, ◌<◌, ◌∷◌, ◌++◌, [], length, not, slice_get, Some, if◌then◌else◌, IfOk};
ghost use Rattle.rc_moves.specs.Walks.{stands_in};

use indexmap::IndexSet;
use rc_base::{Items, Pos};
use rc_moves::{Stop, Walk};
use std::alloc::{AllocError, Global};
use std::marker::Model;

/// The positions of a walk so far, or those that a search has found, each once, seen as their list.
///
/// They may be every interface of the network: a set tells a repeat without a scan of those before.
pub(crate) struct Walked {
    positions: IndexSet<Pos>,
}

/// By a function of its own, so that a walk drops its positions by one call.
impl Drop for Walked {
    fn drop(self) {
        let Walked { positions: _ } = self;
    }
}

impl Model for Walked {
    ghost use Rattle.std.specs.Prelude.{List};
    ghost use Rattle.rc_base.specs.declared.position.Pos.{Pos};

    ghost Value = { List Pos };

    ghost view = { λ w. w.positions.keys };
}

impl Walked {
    /// A walk that sets out from a position.
    pub fn from(alloc: Global, position: &Pos) -> Result<Walked, AllocError>
        ensures { IfOk result (λ walked. walked ≡ position.now ∷ []) }
    {
        let mut positions = IndexSet::new(alloc);
        positions.insert(*position)?;
        Ok(Walked { positions })
    }

    /// Puts a position at the end, and says so, where it isn't among the others already.
    #[tactic(auto, using(rc_moves::proofs::PositionLaws::same_any))]
    pub fn put(&mut self, position: &Pos) -> Result<bool, AllocError>
        ensures added { IfOk result (λ added. added ≡ not (stands_in self.old position.now)) }
        ensures positions { IfOk result (λ added. self.new ≡ (if added then self.old ++ position.now ∷ [] else self.old)) }
    {
        let added = self.positions.insert(*position)?;
        Ok(added)
    }

    /// How many positions there are.
    pub fn len(&self) -> usize
        ensures { result ≡ length self.now }
    {
        self.positions.len()
    }

    /// The position at a place, counted from 0.
    pub fn at(&self, place: usize) -> Pos
        requires { place < length self.now }
        ensures { slice_get self.now place ≡ Some result }
    {
        self.positions.as_slice()[place]
    }

    /// The walk of these positions.
    pub fn walk(&self, alloc: Global, stop: Stop) -> Result<Walk, AllocError>
        ensures { IfOk result (λ w. w ≡ record { positions = self.now; stop = stop }) }
    {
        let positions = Vec::from_slice(alloc, self.positions.as_slice())?;
        Ok(Walk {
            positions: Items::from_vec(positions),
            stop,
        })
    }
}
