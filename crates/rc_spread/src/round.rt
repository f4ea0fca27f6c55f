//! A round as a job for workers.
ghost use Rattle.std.specs.Prelude.{◌≡◌, ◌+◌, ◌++◌, ◌≤◌, IfOk, IfErr};
ghost use Rattle.rc_bdd.specs.Work.{IsCause};
ghost use Rattle.rc_nodes.specs.Seats.{IsSeatOf, Keeps};
ghost use Rattle.rc_spread.specs.Known.{IsAtHand, KnowsShare};

use crate::spread::Spread;
use rc_bdd::{SetError, Work};
use rc_jobs::Job;
use rc_nodes::{May, Nodes, Ref};
use std::alloc::{AllocError, Global};

/// A round: what stands at each position before it, and where the last one changed something.
#[derive(Drop)]
pub struct Round<'a, S: Spread> {
    pub spread: &'a S,
    pub sets: &'a [Ref],
    pub fresh: &'a [bool],
    /// How many rounds were made before.
    pub number: u32,
}

/// The sets of the positions from `from` up to `to` after the round.
fn share_of<M: May, S: Spread>(
    alloc: Global,
    work: &mut Work<M>,
    nodes: &Nodes<M>,
    round: &Round<S>,
    from: usize,
    to: usize,
) -> Result<Vec<Ref>, SetError>
    requires seat { IsSeatOf nodes.now work.old }
    requires ready { IsAtHand (S.ready round.now.spread.now nodes.now work.old) work.old round.now.sets.now round.now.fresh.now (S.set_after round.now.spread.now) (S.count round.now.spread.now) round.now.number }
    requires order { from ≤ to }
    requires end { to ≤ S.count round.now.spread.now }
    ensures seat { IsSeatOf nodes.now work.new }
    ensures keeps { Keeps work.old work.new }
    ensures made { IfOk result (λ v. KnowsShare work.new v.items (S.set_after round.now.spread.now (round.now.number + 1)) from to) }
    ensures cause { IfErr result (IsCause nodes.now work.new) }
{
    let Ok(mut made) = Vec::with_capacity(alloc, to - from) else {
        return Err(SetError::Memory);
    };
    for q in from..to {
        let set = round
            .spread
            .next_set(work, nodes, round.sets, round.fresh, round.number, q)?;
        if made.push(set).is_err() {
            return Err(SetError::Memory);
        }
    }
    Ok(made)
}

/// Sets of positions in a row, and behind them those of the next ones.
fn joined(mut left: Vec<Ref>, mut right: Vec<Ref>) -> Result<Vec<Ref>, AllocError>
    ensures { IfOk result (λ v. v.items ≡ left.items ++ right.items) }
{
    left.append(&mut right)?;
    Ok(left)
}

impl<'a, S: Spread + Sync> Job for Round<'a, S> {
    ghost use Rattle.std.specs.Prelude.{◌+◌};
    ghost use Rattle.rc_spread.specs.Kept.{at_hand_kept, share_kept};
    ghost use Rattle.rc_spread.specs.Known.{IsAtHand, KnowsShare};

    type Made = Vec<Ref>;

    ghost count = { λ r. S.count r.spread.now };

    ghost ready = { λ r nodes seat. IsAtHand (S.ready r.spread.now nodes seat) seat r.sets.now r.fresh.now (S.set_after r.spread.now) (S.count r.spread.now) r.number };

    ghost knows = { λ r seat a b made. KnowsShare seat made.items (S.set_after r.spread.now (r.number + 1)) a b };

    fn items(&self) -> usize {
        self.spread.positions()
    }

    fn share<M: May>(
        &self,
        alloc: Global,
        work: &mut Work<M>,
        nodes: &Nodes<M>,
        from: usize,
        to: usize,
    ) -> Result<Vec<Ref>, SetError> {
        share_of(alloc, work, nodes, self, from, to)
    }

    fn together(&self, left: Vec<Ref>, right: Vec<Ref>) -> Result<Vec<Ref>, AllocError> {
        joined(left, right)
    }

    ghost stays_ready = { λ r nodes v w keeps ready. at_hand_kept v w keeps (S.stays_ready r.spread.now nodes v w keeps) ready };

    ghost stays_known = { λ r v w a b made keeps known. share_kept v w keeps known };
}
