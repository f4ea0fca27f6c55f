//! Rounds until a state comes again.
ghost use Rattle.std.specs.Prelude.{◌≡◌, ◌≤◌, All, IfOk, length};
ghost use Rattle.rc_config.specs.Lawful.{IsLawful};
ghost use Rattle.rc_ospf.specs.Internal.{IsInternal};
ghost use Rattle.rc_route.specs.Tables.{IsTable};
ghost use Rattle.rc_route.specs.Outcomes.{IsInOrder};
ghost use Rattle.rc_rounds.specs.Rounds.{EndsAs, IsOutcome, HasOneOutcome};
ghost use Rattle.rc_rounds.specs.Setting.{IsSetting};
ghost use Rattle.rc_rounds.specs.Silent.{AreAsked};

use crate::Outcome;
use crate::leaving::drop_state;
use crate::progress::{Progress, Same};
use crate::silent::links_asked;
use rc_bgp::{ConfiguredSessions, configured_sessions};
use rc_config::Network;
use rc_ospf::{Internal, internal};
use rc_outside::Gate;
use rc_pieces::{Knowledge, into_state};
use std::alloc::{AllocError, AllocGlobal, Global};
use std::thread::Threads;

/// How the rounds of a network end, of which at most so many are made.
///
/// What OSPF gives by the configurations alone, by all workers at once, and the sessions of BGP are made once, before the first round;
/// what AS boundary routers send is made once in each round. `limit` is from 1 to 100,000 and `workers` from 1 to 64. Each worker passes the gate in each round, whose number is the phase. At a
/// fixed point each router's table is in order. It errs only where memory runs out.
pub fn run_rounds<R: Threads + Sync + AllocGlobal, G: Gate>(
    rt: &R,
    net: &Network,
    limit: u32,
    workers: u32,
    gate: &G,
) -> Result<Outcome, AllocError>
    requires lawful { IsLawful net.now }
    requires some_rounds { 1 ≤ limit }
    requires few_rounds { limit ≤ 100000 }
    requires some_workers { 1 ≤ workers }
    requires few_workers { workers ≤ 64 }
    ensures outcome { IfOk result (IsOutcome net.now limit) }
    ensures in_order { IfOk result (IsInOrder (length net.now.routers)) }
{
    rounds_of(rt, rt.alloc(), net, limit, workers, gate)
}

/// The same, with memory from `alloc`: who shares networks among workers of its own, each of whom makes the rounds of one, can't have what
/// gives memory among what its workers hand on.
pub fn rounds_of<R: Threads + Sync, G: Gate>(
    rt: &R,
    alloc: Global,
    net: &Network,
    limit: u32,
    workers: u32,
    gate: &G,
) -> Result<Outcome, AllocError>
    requires lawful { IsLawful net.now }
    requires some_rounds { 1 ≤ limit }
    requires few_rounds { limit ≤ 100000 }
    requires some_workers { 1 ≤ workers }
    requires few_workers { workers ≤ 64 }
    ensures outcome { IfOk result (IsOutcome net.now limit) }
    ensures in_order { IfOk result (IsInOrder (length net.now.routers)) }
{
    let internal = internal_of(rt, alloc, net, workers)?;
    let sessions = configured_sessions(alloc, net, &internal.links)?;
    rounds_within(rt, alloc, net, &internal, &sessions, limit, workers, gate)
}

/// What OSPF gives without a state, which the workers share.
fn internal_of<R: Threads + Sync>(
    rt: &R,
    alloc: Global,
    net: &Network,
    workers: u32,
) -> Result<Internal, AllocError>
    requires { IsLawful net.now }
    ensures links { IfOk result (λ i. AreAsked net.now i.links) }
    ensures internal { IfOk result (IsInternal net.now) }
    ensures in_order { IfOk result (λ i. All IsTable i.routes) }
{
    let links = links_asked(alloc, net)?;
    internal(rt, alloc, net, links, workers)
}

/// The end at a fixed point. What no other state shares is moved into its lists, so the other states are dropped before.
fn fixed(alloc: Global, rounds: u32, state: Knowledge) -> Result<Outcome, AllocError>
    ensures { IfOk result (λ o. o ≡ Outcome.Fixed rounds state) }
{
    let state = into_state(alloc, state)?;
    Ok(Outcome::Fixed(rounds, state))
}

/// How the rounds of a network end beside what no round changes, where at most so many are made.
fn rounds_within<R: Threads + Sync, G: Gate>(
    rt: &R,
    alloc: Global,
    net: &Network,
    internal: &Internal,
    sessions: &ConfiguredSessions,
    limit: u32,
    workers: u32,
    gate: &G,
) -> Result<Outcome, AllocError>
    requires setting { IsSetting net.now internal.now sessions.now }
    requires few_rounds { limit ≤ 100000 }
    requires some_workers { 1 ≤ workers }
    requires few_workers { workers ≤ 64 }
    ensures outcome { IfOk result (EndsAs net.now internal.now limit) }
    ensures in_order { IfOk result (IsInOrder (length net.now.routers)) }
{
    let mut progress = Progress::start(alloc, net)?;
    for done in 0..limit {
        let (_passed, fresh) = progress.next(rt, alloc, net, internal, sessions, workers, gate)?;
        let Some(fresh) = fresh else {
            return fixed(alloc, done + 1, progress.into_last());
        };
        let round = progress.put_together(alloc, fresh)?;
        let (next, changes, stayed) = round.into_parts();
        let same = progress.same(&next, stayed.as_slice());
        match same {
            Same::Last => {
                drop(progress);
                return fixed(alloc, done + 1, next);
            }
            Same::Checkpoint => return Ok(Outcome::Repeats(progress.checkpoint, done + 1)),
            Same::Neither => {
                let (further, left) = progress.after(next, changes, stayed);
                progress = further;
                drop_state(rt, left, workers);
            }
        }
    }
    Ok(Outcome::Limit(limit))
}

/// A network has one outcome within a limit of rounds.
#[tactic(auto, using(crate::proofs::OutcomeLaws::one_outcome))]
pub fn one_outcome()
    ensures { HasOneOutcome }
{}
