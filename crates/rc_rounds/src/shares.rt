//! The work of a round, which its workers share.
//!
//! All of them read the state before, which nobody changes, so nothing has to be locked; what they make stands in the order of the
//! routers.
ghost use Rattle.std.specs.Prelude.{◌≡◌, ◌≤◌, ◌<◌, IfOk, IfSome, length, true};
ghost use Rattle.rc_rib.specs.Next.{next_state};
ghost use Rattle.rc_rounds.specs.Parts.{AreRead, IsReady};
ghost use Rattle.rc_outside.specs.Gate.{passage};
ghost use Rattle.rc_reads.specs.Stayed.{IsMadeAnew};
ghost use Rattle.rc_shares.specs.Stretches.{IsStretch};

use crate::parts::{Fresh, Setting};
use rc_base::RouterId;
use rc_bgp::{Changes, Inside};
use rc_config::Network;
use rc_outside::{Gate, Passed};
use rc_pieces::Knowledge;
use rc_reads::{Stayed, table_anew};
use rc_rib::{Earlier, Inputs, Made, is_settled};
use rc_shares::{Each, each_at_once};
use std::alloc::{AllocError, Global};
use std::thread::Threads;

/// So many routers, or fewer, are left to one worker, where a round does little for each.
const FEW: usize = 64;

/// So many static routes of a router, or fewer, are looked up in less time than a thread for some tens of such routers takes to start.
const FEW_STATIC: usize = 16;

/// How much a round does for a router.
#[derive(Clone, Copy, PartialEq, Eq, PartialOrd, Ord)]
enum Load {
    /// It merges routes, looks no gateway up, and decides nothing.
    Light,
    /// It looks up a few gateways beside that.
    Small,
    /// It looks up many, or decides between paths.
    Great,
}

/// How much a round does for a router.
fn load_of(net: &Network, router: RouterId) -> Load {
    match net.router_at(router) {
        Some(file) if file.bgp.is_some() || file.static_routes.len() > FEW_STATIC => Load::Great,
        Some(file) if !file.static_routes.is_empty() => Load::Small,
        _ => Load::Light,
    }
}

/// The most that a round does for a router.
fn greatest_load(net: &Network) -> Load {
    let mut greatest = Load::Light;
    for index in 0..net.routers.len() {
        greatest = greatest.max(load_of(net, RouterId::at(index)));
    }
    greatest
}

/// So many of these routers, or fewer, are left to one worker. Where routers look gateways up, the first round goes at least in two halves.
fn few_routers(net: &Network, has_earlier: bool) -> usize {
    match greatest_load(net) {
        Load::Small if !has_earlier => net.routers.len().div_ceil(2).min(FEW),
        Load::Light | Load::Small => FEW,
        Load::Great => 1,
    }
}

/// A state and what changed since, where there was a round earlier yet.
fn earlier_of<'a>(
    has_earlier: bool,
    state: &'a Knowledge,
    changes: &'a Changes,
    inside: &'a Changes,
) -> Option<Earlier<'a>>
    ensures { IfSome result (λ e. (has_earlier ≡ true) × (e.state.now ≡ state.now) × (e.changes.now ≡ changes.now) × (e.inside.now ≡ inside.now)) }
{
    if has_earlier {
        Some(Earlier {
            state,
            changes,
            inside,
        })
    } else {
        None
    }
}

/// What makes what each router knows next, from what all workers read: this, what a round reads, who stayed in the round before, and what
/// was read a round earlier.
/// These are parts, so that each by itself is shown to be shared by workers.
pub(crate) trait Makes<B, I, S>: Sync {
    ghost use Rattle.std.specs.Prelude.{Option, ℕ};
    ghost use Rattle.rc_rib.specs.declared.made.Made.{Made as Known};

    /// How many routers there are.
    ghost count: { Self → ℕ };

    /// What is read is as it has to be.
    ghost ready: { Self → I → S → B → B → Type 0 };

    /// That this is made of a router then, by its index.
    ghost makes: { Self → S → B → ℕ → Option Known → Type 0 };

    /// How many routers there are.
    fn routers(&self) -> usize
        ensures { result ≡ count self.now };

    /// So many routers, or fewer, are left to one worker: to start a thread would take longer.
    fn few(&self) -> usize;

    /// What is made anew of a router.
    fn make(
        &self,
        inside: &I,
        stayed: &S,
        read: &B,
        earlier: &B,
        alloc: Global,
        router: usize,
    ) -> Result<Option<Made>, AllocError>
        requires ready { ready self.now inside.now stayed.now read.now earlier.now }
        requires router { router < count self.now }
        ensures { IfOk result (makes self.now stayed.now read.now router) };
}

impl<'a> Setting<'a> {
    /// Whether the next round changes nothing, as can be told without making it.
    pub fn is_settled(
        &self,
        alloc: Global,
        inside: &Inside,
        read: &Knowledge,
        earlier: &Knowledge,
    ) -> Result<bool, AllocError>
        requires { AreRead self.now inside.now read.now earlier.now }
        ensures { IfOk result (λ is. is ≡ true → next_state self.now.network.now self.now.internal.now read.now ≡ read.now) }
    {
        let inputs = Inputs {
            network: self.network,
            internal: self.internal,
            sessions: self.sessions,
            externals: self.externals,
            inside,
            previous: read,
            earlier: earlier_of(self.has_earlier, earlier, self.changes, self.changes_inside),
        };
        is_settled(alloc, &inputs)
    }
}

impl<'a> Makes<Knowledge, Inside, Stayed> for Setting<'a> {
    ghost use Rattle.std.specs.Prelude.{length};
    ghost use Rattle.rc_rounds.specs.Parts.{IsReady};
    ghost use Rattle.rc_reads.specs.Stayed.{IsMadeAnew};

    ghost count = { λ s. length s.network.now.routers };

    ghost ready = { IsReady };

    ghost makes = { λ s stayed b. IsMadeAnew s.network.now s.internal.now stayed.routers b };

    fn routers(&self) -> usize
        ensures { result ≡ length self.now.network.now.routers }
    {
        self.network.routers.len()
    }

    fn few(&self) -> usize {
        few_routers(self.network, self.has_earlier)
    }

    fn make(
        &self,
        inside: &Inside,
        stayed: &Stayed,
        read: &Knowledge,
        earlier: &Knowledge,
        alloc: Global,
        router: usize,
    ) -> Result<Option<Made>, AllocError>
        requires ready { IsReady self.now inside.now stayed.now read.now earlier.now }
        requires router { router < length self.now.network.now.routers }
        ensures { IfOk result (IsMadeAnew self.now.network.now self.now.internal.now stayed.now.routers read.now router) }
    {
        let inputs = Inputs {
            network: self.network,
            internal: self.internal,
            sessions: self.sessions,
            externals: self.externals,
            inside,
            previous: read,
            earlier: earlier_of(self.has_earlier, earlier, self.changes, self.changes_inside),
        };
        table_anew(alloc, &inputs, stayed, RouterId::at(router))
    }
}

/// The routers of a network, each of which is made anew where something changed that it reads.
#[derive(Drop)]
struct Routers<'a, W, B, I, S> {
    round: &'a W,
    few: usize,
    inside: &'a I,
    stayed: &'a S,
    read: &'a B,
    earlier: &'a B,
}

impl<'a, W: Makes<B, I, S>, B: Sync, I: Sync, S: Sync> Each for Routers<'a, W, B, I, S> {
    type Made = Option<Made>;

    ghost count = { λ s. W.count s.round.now };

    ghost ready = { λ s. W.ready s.round.now s.inside.now s.stayed.now s.read.now s.earlier.now };

    ghost makes = { λ s. W.makes s.round.now s.stayed.now s.read.now };

    fn items(&self) -> usize {
        self.round.routers()
    }

    fn few(&self) -> usize {
        self.few
    }

    fn make(&self, alloc: Global, item: usize) -> Result<Option<Made>, AllocError> {
        self.round.make(
            self.inside,
            self.stayed,
            self.read,
            self.earlier,
            alloc,
            item,
        )
    }
}

/// What is made anew of all routers, and that all workers have passed the gate.
pub(crate) fn all_shares<R: Threads + Sync, W: Makes<B, I, S>, B: Sync, I: Sync, S: Sync, G: Gate>(
    rt: &R,
    alloc: Global,
    round: &W,
    inside: &I,
    stayed: &S,
    read: &B,
    earlier: &B,
    workers: u32,
    phase: u32,
    gate: &G,
) -> (Passed, Result<Fresh, AllocError>)
    requires ready { W.ready round.now inside.now stayed.now read.now earlier.now }
    requires some_workers { 1 ≤ workers }
    ensures passed { result.0 ≡ passage phase 0 workers }
    ensures stretch { IfOk result.1 (IsStretch (W.makes round.now stayed.now read.now) 0 (W.count round.now)) }
{
    let routers = Routers {
        round,
        few: round.few(),
        inside,
        stayed,
        read,
        earlier,
    };
    each_at_once(rt, alloc, &routers, workers, phase, gate)
}

/// What is made anew of all routers in a round in which all read these states.
///
/// Workers share the routers and work at once. Each worker passes the gate before its work, also where its share is empty; in every
/// outcome all have passed.
pub(crate) fn next_shares<R: Threads + Sync, G: Gate>(
    rt: &R,
    alloc: Global,
    setting: &Setting<'_>,
    inside: &Inside,
    stayed: &Stayed,
    read: &Knowledge,
    earlier: &Knowledge,
    workers: u32,
    phase: u32,
    gate: &G,
) -> (Passed, Result<Fresh, AllocError>)
    requires ready { IsReady setting.now inside.now stayed.now read.now earlier.now }
    requires some_workers { 1 ≤ workers }
    ensures passed { result.0 ≡ passage phase 0 workers }
    ensures stretch { IfOk result.1 (IsStretch (IsMadeAnew setting.now.network.now setting.now.internal.now stayed.now.routers read.now) 0 (length setting.now.network.now.routers)) }
{
    all_shares(
        rt, alloc, setting, inside, stayed, read, earlier, workers, phase, gate,
    )
}
