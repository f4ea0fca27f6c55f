//! What a router knows next, where something that it reads changed.
ghost use Rattle.std.specs.Prelude.{◌≡◌, All, IfOk, length};
ghost use Rattle.std.specs.List.Sorted.{IsStrictlySortedBy};
ghost use Rattle.rc_base.specs.Prefix.{prefix_cmp};
ghost use Rattle.rc_bgp.specs.Sessions.{configured_sessions as sessions_of};
ghost use Rattle.rc_bgp.specs.Telling.{told_inside as inside_of};
ghost use Rattle.rc_config.specs.Lawful.{IsLawful, IsRouter};
ghost use Rattle.rc_external.specs.Externals.{externals as externals_of, IsByPrefix};
ghost use Rattle.rc_ospf.specs.Internal.{IsInternal};
ghost use Rattle.rc_reads.specs.Nexts.{IsNext};
ghost use Rattle.rc_reads.specs.Reads as spec;
ghost use Rattle.rc_rib.specs.Next.{next_router};
ghost use Rattle.rc_route.specs.Tables.{IsStateOf, IsTable};

use crate::reading::Reads;
use crate::same::are_same;
use rc_base::RouterId;
use rc_bgp::{ConfiguredSessions, Inside, configured_sessions, told_inside};
use rc_config::Network;
use rc_external::{Externals, externals};
use rc_ospf::Internal;
use rc_pieces::{Knowledge, Known};
use rc_rib::{Inputs, Made, table};
use std::alloc::{AllocError, Global};

/// What a router knows next.
pub enum Next {
    /// What it knows: nothing that it reads changed.
    Kept,
    /// This, made anew.
    Made(Known),
}

/// By a function of its own, so that what holds one drops it by one call.
impl Drop for Next {
    fn drop(self) {
        match self {
            Next::Kept => {}
            Next::Made(_) => {}
        }
    }
}

/// What a router knows next, made anew from this.
fn made_from<'a>(
    alloc: Global,
    net: &'a Network,
    internal: &'a Internal,
    sessions: &'a ConfiguredSessions,
    externals: &'a Externals,
    inside: &'a Inside,
    now: &'a Knowledge,
    router: RouterId,
) -> Result<Known, AllocError>
    requires lawful { IsLawful net.now }
    requires router { IsRouter net.now router }
    requires routes { All IsTable internal.now.routes }
    requires own { All (IsStrictlySortedBy prefix_cmp) internal.now.own }
    requires sessions { sessions.now ≡ sessions_of net.now internal.now.links }
    requires externals { externals.now ≡ externals_of net.now now.now }
    requires by_prefix { IsByPrefix externals.now }
    requires inside { inside.now ≡ inside_of sessions.now now.now }
    requires now { IsStateOf (length net.now.routers) now.now }
    ensures { IfOk result (λ s. s ≡ next_router net.now internal.now now.now router) }
{
    let inputs = Inputs {
        network: net,
        internal,
        sessions,
        externals,
        inside,
        previous: now,
        earlier: None,
    };
    let made = table(alloc, &inputs, router)?;
    let Made {
        state,
        has_same_table: _,
        changed: _,
    } = made;
    Ok(state)
}

/// What a router knows next, made anew.
fn made_of(
    alloc: Global,
    net: &Network,
    internal: &Internal,
    now: &Knowledge,
    router: RouterId,
) -> Result<Known, AllocError>
    requires lawful { IsLawful net.now }
    requires router { IsRouter net.now router }
    requires routes { All IsTable internal.now.routes }
    requires own { All (IsStrictlySortedBy prefix_cmp) internal.now.own }
    requires now { IsStateOf (length net.now.routers) now.now }
    ensures { IfOk result (λ s. s ≡ next_router net.now internal.now now.now router) }
{
    let sessions = configured_sessions(alloc, net, &internal.links)?;
    let externals = externals(alloc, net, now)?;
    let inside = told_inside(alloc, &sessions, now)?;
    made_from(
        alloc, net, internal, &sessions, &externals, &inside, now, router,
    )
}

/// What a router knows next: what it knows, exactly where two states tell the same of each router that it reads, and else what all that
/// it reads now gives it. It errs only where memory runs out.
pub fn next_of(
    alloc: Global,
    net: &Network,
    internal: &Internal,
    reads: &Reads,
    before: &Knowledge,
    now: &Knowledge,
    router: RouterId,
) -> Result<Next, AllocError>
    requires lawful { IsLawful net.now }
    requires router { IsRouter net.now router }
    requires internal { IsInternal net.now internal.now }
    requires routes { All IsTable internal.now.routes }
    requires reads { reads.now ≡ spec.reads net.now router }
    requires now { IsStateOf (length net.now.routers) now.now }
    ensures { IfOk result (IsNext net.now internal.now before.now now.now router) }
{
    if are_same(reads.as_slice(), before, now) {
        return Ok(Next::Kept);
    }
    let made = made_of(alloc, net, internal, now, router)?;
    Ok(Next::Made(made))
}
