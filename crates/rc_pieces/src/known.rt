//! What routers know, in pieces.
ghost use Rattle.std.specs.Prelude.{◌≡◌, ◌↔◌, IfOk, IsTrue, slice_get};
ghost use Rattle.std.specs.Option.{option_copied};
ghost use Rattle.rc_pieces.specs.Knowing.{nothing_known};

use crate::again::Again;
use crate::alike::same;
use crate::listed::Listed;
use crate::pieces::Pieces;
use rc_base::{Items, RouterId};
use rc_route::{Best, Parts, Route, RouterState};
use std::alloc::{AllocError, Global};
use std::collections::VecDeque;
use std::marker::Model;

/// What one router knows, in pieces: its table, and its best BGP paths. It is seen as rc_route's `RouterState`.
pub struct Known {
    pub table: Pieces<Route>,
    pub paths: Pieces<Best>,
}

/// By a function of its own, so that what holds states drops each by one call.
impl Drop for Known {
    fn drop(self) {
        let Known { table: _, paths: _ } = self;
    }
}

impl Model for Known {
    ghost use Rattle.rc_route.specs.declared.state.RouterState.{RouterState};
    ghost use Rattle.rc_pieces.specs.Knowing.{known_as};

    ghost Value = { RouterState };

    ghost view = { λ k. known_as k.table k.paths };
}

/// A state: what each router of a network knows, in the network's order. It is seen as rc_route's `State`.
pub type Knowledge = Items<Known>;

impl Known {
    /// What a router knows that knows nothing.
    pub fn nothing() -> Known
        ensures { result ≡ nothing_known }
    {
        Known {
            table: Pieces::new(),
            paths: Pieces::new(),
        }
    }

    /// What is known in two lists.
    pub fn of(table: Pieces<Route>, paths: Pieces<Best>) -> Known
        ensures table { result.table ≡ table }
        ensures paths { result.paths ≡ paths }
    {
        Known { table, paths }
    }

    /// Its table.
    pub fn table(&self) -> Listed<'_, Route>
        ensures { result ≡ self.now.table }
    {
        self.table.listed()
    }

    /// Its best paths.
    pub fn paths(&self) -> Listed<'_, Best>
        ensures { result ≡ self.now.paths }
    {
        self.paths.listed()
    }

    /// The same again, which shares all pieces at once. It takes no memory, and errs only where as many hold them as can be counted.
    pub fn share(&self) -> Result<Known, AllocError>
        ensures { IfOk result (λ shared. shared ≡ self.now) }
    {
        let table = self.table.share()?;
        let paths = self.paths.share()?;
        Ok(Known { table, paths })
    }

    /// Whether another one is the same, in all that both hold.
    #[tactic(auto, using(crate::proofs::SameLaws::known_same))]
    pub fn is_same(&self, other: &Known) -> bool
        ensures { IsTrue result ↔ (self.now ≡ other.now) }
    {
        same(&self.table, &other.table) && same(&self.paths, &other.paths)
    }

    /// The same in parts, for which nothing is copied or moved.
    pub fn into_state(self, alloc: Global) -> Result<RouterState, AllocError>
        ensures { IfOk result (λ state. state ≡ self) }
    {
        let Known { table, paths } = self;
        let table = in_parts(alloc, table)?;
        let paths = in_parts(alloc, paths)?;
        Ok(RouterState { table, paths })
    }
}

/// A list in parts, for which nothing is copied or moved.
fn in_parts<T: Again>(alloc: Global, pieces: Pieces<T>) -> Result<Parts<T>, AllocError>
    ensures { IfOk result (λ parts. parts ≡ pieces) }
{
    let mut parts = Parts::new(alloc);
    let mut left = VecDeque::from(pieces.into_pieces(alloc)?.into_vec());
    while let Some(piece) = left.pop_front() {
        parts.push(piece.into_shared())?;
    }
    Ok(parts)
}

/// What a router knows in a state, or `None` exactly past its end.
pub fn known_at(state: &Knowledge, router: RouterId) -> Option<&Known>
    ensures { option_copied result ≡ slice_get state.now router }
{
    state.as_slice().get(router.index())
}

/// A state, with what each router knows in parts, for which nothing is copied or moved.
pub fn into_state(alloc: Global, state: Knowledge) -> Result<rc_route::State, AllocError>
    ensures { IfOk result (λ made. made ≡ state) }
{
    let mut made = Items::with_room(alloc, state.len())?;
    let mut left = VecDeque::from(state.into_vec());
    while let Some(known) = left.pop_front() {
        made.push(known.into_state(alloc)?)?;
    }
    Ok(made)
}
