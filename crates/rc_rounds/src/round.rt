//! What a round makes of all routers, put together.
ghost use Rattle.std.specs.Prelude.{◌≡◌, ◌++◌, ◌∷◌, [], IfOk, OnOk, length, map, unwrap_or, slice_get};
ghost use Rattle.rc_rib.specs.declared.made.Made.{Made as MadeModel};
ghost use Rattle.rc_route.specs.Tables.{IsStateOf};
ghost use Rattle.rc_rounds.specs.Renewing as spec;
ghost use Rattle.rc_rounds.specs.Rounds.{empty_state};

use crate::parts::Fresh;
use rc_base::{Items, RouterId};
use rc_bgp::Changes;
use rc_config::Network;
use rc_pieces::{Knowledge, Known, known_at};
use rc_rib::Made;
use std::alloc::{AllocError, Global};
use std::collections::VecDeque;

/// What a round makes of all routers, put together.
pub(crate) struct Round {
    pub(crate) state: Knowledge,
    /// What changed in best paths from the state before.
    pub(crate) changes: Changes,
    /// A flag for each router, which is set only where it knows the same as in the state before.
    pub(crate) stayed: Items<bool>,
}

/// By a function of its own, so that what holds a round drops its states by one call.
impl Drop for Round {
    fn drop(self) {
        let Round {
            state: _,
            changes: _,
            stayed: _,
        } = self;
    }
}

/// The state in which no router knows anything.
pub(crate) fn empty_state(alloc: Global, net: &Network) -> Result<Knowledge, AllocError>
    ensures value { IfOk result (λ s. s ≡ empty_state net.now) }
    ensures in_order { IfOk result (IsStateOf (length net.now.routers)) }
{
    let mut state = Items::new(alloc);
    for _ in 0..net.routers.len() {
        state.push(Known::nothing())?;
    }
    Ok(state)
}

/// What a router knows in a state, again; nothing where the state has no such router.
fn again(last: &Knowledge, router: RouterId) -> Result<Known, AllocError>
    ensures { IfOk result (λ known. known ≡ unwrap_or (slice_get last.now router) spec.nothing_known) }
{
    let known = known_at(last, router);
    match known {
        None => Ok(Known::nothing()),
        Some(known) => known.share(),
    }
}

/// What was made of a router, where what isn't made anew is what it knows in a state.
fn renewed(
    alloc: Global,
    made: Option<Made>,
    last: &Knowledge,
    router: RouterId,
) -> Result<Made, AllocError>
    ensures { IfOk result (λ m. m ≡ spec.renewed made (unwrap_or (slice_get last.now router) spec.nothing_known)) }
{
    match made {
        Some(made) => Ok(made),
        None => {
            let state = again(last, router)?;
            Ok(Made {
                state,
                has_same_table: true,
                changed: Items::new(alloc),
            })
        }
    }
}

impl Round {
    /// No router yet, with room for so many.
    fn with_room(alloc: Global, routers: usize) -> Result<Round, AllocError>
        ensures state { IfOk result (λ r. r.state ≡ []) }
        ensures changes { IfOk result (λ r. r.changes ≡ []) }
        ensures stayed { IfOk result (λ r. r.stayed ≡ []) }
    {
        let state = Items::with_room(alloc, routers)?;
        let changes = Items::with_room(alloc, routers)?;
        let stayed = Items::with_room(alloc, routers)?;
        Ok(Round {
            state,
            changes,
            stayed,
        })
    }

    /// Puts in what was made of one router more.
    fn push(&mut self, made: Made) -> Result<(), AllocError>
        ensures state { OnOk result (self.new.state ≡ self.old.state ++ made.state ∷ []) }
        ensures changes { OnOk result (self.new.changes ≡ self.old.changes ++ made.changed ∷ []) }
        ensures stayed { OnOk result (self.new.stayed ≡ self.old.stayed ++ spec.has_stayed made ∷ []) }
    {
        let Made {
            state,
            has_same_table,
            changed,
        } = made;
        self.stayed.push(has_same_table && changed.is_empty())?;
        self.state.push(state)?;
        self.changes.push(changed)
    }

    /// The state, what changed, and who stayed.
    pub(crate) fn into_parts(self) -> (Knowledge, Changes, Items<bool>)
        ensures state { result.0 ≡ self.state }
        ensures changes { result.1 ≡ self.changes }
        ensures stayed { result.2 ≡ self.stayed }
    {
        let Round {
            state,
            changes,
            stayed,
        } = self;
        (state, changes, stayed)
    }
}

/// What was made anew of each router, put together as one state and what changed in it: who wasn't made anew knows what it knows in the last
/// state, and both states share that.
pub(crate) fn put_together(
    alloc: Global,
    fresh: Fresh,
    last: &Knowledge,
) -> Result<Round, AllocError>
    ensures state { IfOk result (λ r. r.state ≡ map (λ (m : MadeModel). m.state) (spec.all_renewed fresh last.now)) }
    ensures changes { IfOk result (λ r. r.changes ≡ map (λ (m : MadeModel). m.changed) (spec.all_renewed fresh last.now)) }
    ensures stayed { IfOk result (λ r. r.stayed ≡ map spec.has_stayed (spec.all_renewed fresh last.now)) }
{
    let mut round = Round::with_room(alloc, fresh.len())?;
    let mut left = VecDeque::from(fresh.into_vec());
    while let Some(made) = left.pop_front() {
        let router = RouterId::at(round.state.len());
        let made = renewed(alloc, made, last, router)?;
        round.push(made)?;
    }
    Ok(round)
}
