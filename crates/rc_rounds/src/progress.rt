//! What the rounds keep from one to the next.
ghost use Rattle.std.specs.Prelude.{◌≡◌, ◌+◌, ◌≤◌, ◌<◌, ◌⊎◌, All, IfOk, MatchOption, length, if◌then◌else◌};
ghost use Rattle.rc_bgp.specs.Changes.{AreChanges, AreChangesInside};
ghost use Rattle.rc_config.specs.declared.network.Network.{Network as NetworkModel};
ghost use Rattle.rc_rib.specs.Next as rib;
ghost use Rattle.rc_outside.specs.Gate.{passage};
ghost use Rattle.rc_ospf.specs.declared.model.Internal.{Internal as InternalModel};
ghost use Rattle.rc_reads.specs.Stayed.{AreFlagged};
ghost use Rattle.rc_route.specs.Tables.{IsRouterState, IsStateOf};
ghost use Rattle.rc_rounds.specs.Progress.{IsProgress, IsPowerBelow, IsRound, IsSame, IsUnderWay, checkpoint_state};
ghost use Rattle.rc_rounds.specs.Renewing.{AreMadeAnew};
ghost use Rattle.rc_rounds.specs.Rounds.{GoesOn};
ghost use Rattle.rc_rounds.specs.Setting.{IsSetting};

use crate::parts::{Fresh, Setting};
use crate::round::{Round, empty_state, put_together};
use crate::shares::next_shares;
use rc_base::Items;
use rc_bgp::{Changes, ConfiguredSessions, changed_inside, told_inside};
use rc_config::Network;
use rc_external::externals;
use rc_ospf::Internal;
use rc_outside::{Gate, Passed};
use rc_pieces::{Knowledge, equal};
use rc_reads::{have_all_stayed, who_stayed};
use std::alloc::{AllocError, Global};
use std::thread::Threads;

/// How far the rounds are.
///
/// Beside the state that is made three are kept: those after the last two rounds, and that of the checkpoint, the round of the
/// greatest power of two below. Where the checkpoint is one of these two rounds, its state is kept once. They share what didn't change from
/// one to the other.
pub(crate) struct Progress {
    /// How many rounds are made.
    pub done: u32,
    /// The checkpoint of the next round.
    pub checkpoint: u32,
    /// The state after the last round.
    pub last: Knowledge,
    /// The state of the round before the last one, where two are made: a router that reads the same as there isn't made anew.
    pub before: Knowledge,
    /// What changed in best paths from there to the last round, where two are made: only that is decided anew.
    pub changes: Changes,
    /// A flag for each router, where two are made, which is set only where it knows the same after the last round as before it.
    pub stayed: Items<bool>,
    /// The state of the checkpoint, where that is an earlier round yet.
    pub kept: Knowledge,
}

/// By a function of its own, so that what holds the rounds drops their states by one call.
impl Drop for Progress {
    fn drop(self) {
        let Progress {
            done: _,
            checkpoint: _,
            last: _,
            before: _,
            changes: _,
            stayed: _,
            kept: _,
        } = self;
    }
}

/// Which earlier state the state of a round is.
#[derive(Clone, Copy)]
pub(crate) enum Same {
    /// That of the round before.
    Last,
    /// That of the checkpoint, and not that of the round before.
    Checkpoint,
    /// Neither.
    Neither,
}

/// The checkpoint of the round after this one: this round where it is a power of two.
fn next_checkpoint(round: u32, checkpoint: u32) -> u32
    requires { checkpoint ≤ 100000 }
    ensures power { IsPowerBelow round checkpoint → IsPowerBelow (round + 1) result }
    ensures one_of_both { (result ≡ round) ⊎ (result ≡ checkpoint) }
{
    if round == 1 || round == 2 * checkpoint {
        round
    } else {
        checkpoint
    }
}

/// The state that is kept of the checkpoint, where the round before the last one leaves, and the one that isn't kept.
fn kept_of(is_checkpoint: bool, leaving: Knowledge, kept: Knowledge) -> (Knowledge, Knowledge)
    ensures { result.0 ≡ (if is_checkpoint then leaving else kept) }
{
    if is_checkpoint {
        (leaving, kept)
    } else {
        (kept, leaving)
    }
}

impl Progress {
    /// No round is made.
    pub fn start(alloc: Global, net: &Network) -> Result<Progress, AllocError>
        ensures done { IfOk result (λ p. p.done ≡ 0) }
        ensures made { IfOk result (λ p. (internal : InternalModel) → IsProgress net.now internal p) }
    {
        let last = empty_state(alloc, net)?;
        Ok(Progress {
            done: 0,
            checkpoint: 0,
            last,
            before: Items::new(alloc),
            changes: Items::new(alloc),
            stayed: Items::new(alloc),
            kept: Items::new(alloc),
        })
    }

    /// The state of the checkpoint.
    fn checkpoint_state(&self) -> &Knowledge
        requires { self.now.checkpoint ≤ 100000 }
        ensures { result.now ≡ checkpoint_state self.now }
    {
        if self.checkpoint == self.done {
            return &self.last;
        }
        if self.checkpoint + 1 == self.done {
            return &self.before;
        }
        &self.kept
    }

    /// Which earlier state this one is. Flags are set only for routers that know the same as in the round before.
    pub fn same(&self, next: &Knowledge, stayed: &[bool]) -> Same
        requires few { self.now.checkpoint ≤ 100000 }
        requires long { length self.now.last ≡ length next.now }
        requires stayed { AreFlagged stayed.now self.now.last next.now }
        ensures { IsSame self.now next.now result }
    {
        if have_all_stayed(stayed, &self.last, next) {
            return Same::Last;
        }
        if equal(next, self.checkpoint_state()) {
            return Same::Checkpoint;
        }
        Same::Neither
    }

    /// What changed in the last round in what routers may tell inside, where two rounds are made.
    fn changes_inside(
        &self,
        alloc: Global,
        sessions: &ConfiguredSessions,
    ) -> Result<Changes, AllocError>
        requires changes { 1 ≤ self.now.done → AreChanges self.now.changes self.now.before self.now.last }
        requires before { All IsRouterState self.now.before }
        requires last { All IsRouterState self.now.last }
        ensures { IfOk result (λ inside. 1 ≤ self.now.done → AreChangesInside inside self.now.before self.now.last) }
    {
        if self.done == 0 {
            return Ok(Items::new(alloc));
        }
        let inside = changed_inside(alloc, sessions, &self.changes, &self.before, &self.last)?;
        Ok(inside)
    }

    /// What the next round makes anew; nothing where it changes nothing, as can be told without making it. Its number is the phase in which
    /// all its workers have passed the gate.
    pub fn next<R: Threads + Sync, G: Gate>(
        &self,
        rt: &R,
        alloc: Global,
        net: &Network,
        internal: &Internal,
        sessions: &ConfiguredSessions,
        workers: u32,
        gate: &G,
    ) -> Result<(Passed, Option<Fresh>), AllocError>
        requires setting { IsSetting net.now internal.now sessions.now }
        requires made { IsProgress net.now internal.now self.now }
        requires few { self.now.done < 100000 }
        requires some_workers { 1 ≤ workers }
        requires few_workers { workers ≤ 64 }
        ensures passed { IfOk result (λ p. p.0 ≡ passage (self.now.done + 1) 0 workers) }
        ensures value { IfOk result (λ p. MatchOption p.1 (rib.next_state net.now internal.now self.now.last ≡ self.now.last) (AreMadeAnew net.now internal.now self.now.last)) }
    {
        let externals = externals(alloc, net, &self.last)?;
        let inside = told_inside(alloc, sessions, &self.last)?;
        let changes_inside = self.changes_inside(alloc, sessions)?;
        let setting = Setting {
            network: net,
            internal,
            sessions,
            externals: &externals,
            has_earlier: self.done > 0,
            changes: &self.changes,
            changes_inside: &changes_inside,
        };
        let phase = self.done + 1;
        if setting.is_settled(alloc, &inside, &self.last, &self.before)? {
            return Ok((Passed::in_turn(gate, phase, 0, workers), None));
        }
        let flags = self.stayed.copy(alloc)?;
        let stayed = who_stayed(net, flags);
        let (passed, fresh) = next_shares(
            rt,
            alloc,
            &setting,
            &inside,
            &stayed,
            &self.last,
            &self.before,
            workers,
            phase,
            gate,
        );
        Ok((passed, Some(fresh?)))
    }

    /// What the next round makes, put together from what it makes anew and what routers know again.
    pub fn put_together(&self, alloc: Global, fresh: Fresh) -> Result<Round, AllocError>
        ensures { (net : NetworkModel) (internal : InternalModel) → IsProgress net internal self.now → AreMadeAnew net internal self.now.last fresh → IfOk result (IsRound net internal self.now.last) }
    {
        let round = put_together(alloc, fresh, &self.last)?;
        Ok(round)
    }

    /// The last state alone.
    pub fn into_last(self) -> Knowledge
        ensures { result ≡ self.last }
    {
        let Progress {
            done: _,
            checkpoint: _,
            last,
            before: _,
            changes: _,
            stayed: _,
            kept: _,
        } = self;
        last
    }

    /// One round further, and the state that isn't kept any more.
    pub fn after(
        self,
        next: Knowledge,
        changed: Changes,
        stayed: Items<bool>,
    ) -> (Progress, Knowledge)
        requires few { self.done < 100000 }
        requires checkpoint { self.checkpoint ≤ 100000 }
        ensures done { result.0.done ≡ self.done + 1 }
        ensures made { (net : NetworkModel) (internal : InternalModel) → IsUnderWay net internal self → IsStateOf (length net.routers) next → next ≡ rib.next_state net internal self.last → AreChanges changed self.last next → AreFlagged stayed self.last next → GoesOn net internal (self.done + 1) → IsProgress net internal result.0 }
    {
        let Progress {
            done,
            checkpoint,
            last,
            before,
            changes: _,
            stayed: _,
            kept,
        } = self;
        let round = done + 1;
        let (kept, left) = kept_of(checkpoint + 1 == done, before, kept);
        let further = Progress {
            done: round,
            checkpoint: next_checkpoint(round, checkpoint),
            last: next,
            changes: changed,
            stayed,
            kept,
            before: last,
        };
        (further, left)
    }
}
