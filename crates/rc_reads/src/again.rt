//! What is made anew of a router.
ghost use Rattle.std.specs.Prelude.{◌≡◌, ◌⊎◌, [], IfOk, IfSome, IsTrue, Some, slice_get, true};
ghost use Rattle.std.specs.List.{AllByRecursion};
ghost use Rattle.rc_bgp.specs.Sessions.{sessions_of};
ghost use Rattle.rc_bgp_session.specs.declared.session.Session.{Session as SessionModel};
ghost use Rattle.rc_config.specs.Lawful.{IsRouter};
ghost use Rattle.rc_ospf.specs.Internal.{boundaries_of};
ghost use Rattle.rc_reads.specs.Stayed.{HaveStayed, IsMadeAnew, ReadsTheSame};
ghost use Rattle.rc_rib.specs.Inputs.{AreInputs};
ghost use Rattle.rc_rib.specs.Next.{next_router};
ghost use Rattle.rc_rib.specs.declared.inputs.Earlier.{Earlier};

use crate::stayed::{Stayed, is_flagged};
use rc_base::RouterId;
use rc_bgp::{ConfiguredSessions, Session};
use rc_ospf::Internal;
use rc_pieces::{Known, known_at};
use rc_rib::{Inputs, Made, table};
use std::alloc::{AllocError, Global};

/// Whether the flags of the senders of some sessions are set.
fn senders_are_flagged(flags: &[bool], sessions: &[Session]) -> bool
    ensures { IsTrue result → AllByRecursion (λ (s : SessionModel). slice_get flags.now s.sender ≡ Some true) sessions.now }
{
    for session in sessions {
        if !is_flagged(flags, session.sender) {
            return false;
        }
    }
    true
}

/// Whether so it is with all sessions to a router.
fn all_senders_are_flagged(flags: &[bool], sessions: &ConfiguredSessions, router: RouterId) -> bool
    ensures { IsTrue result → AllByRecursion (λ (s : SessionModel). slice_get flags.now s.sender ≡ Some true) (sessions_of sessions.now router) }
{
    let found = sessions.as_slice().get(router.index());
    match found {
        Some(sessions) => senders_are_flagged(flags, sessions.as_slice()),
        None => true,
    }
}

/// Whether all AS boundary routers stayed as they were, or a router has no path to one.
fn hears_the_same_outside(internal: &Internal, stayed: &Stayed, router: RouterId) -> bool
    ensures { IsTrue result → (stayed.now.boundaries ≡ true) ⊎ (boundaries_of internal.now router ≡ []) }
{
    stayed.boundaries || internal.boundaries_of(router).is_empty()
}

/// Whether by these flags nothing changed that a router reads.
fn reads_the_same(inputs: &Inputs<'_>, stayed: &Stayed, router: RouterId) -> bool
    ensures { IsTrue result → ReadsTheSame inputs.now.internal.now inputs.now.sessions.now stayed.now router }
{
    let flags = stayed.routers.as_slice();
    is_flagged(flags, router)
        && hears_the_same_outside(inputs.internal, stayed, router)
        && all_senders_are_flagged(flags, inputs.sessions, router)
}

/// What a router knows in the state before, where by these flags nothing changed that it reads.
fn unmoved<'a>(inputs: &Inputs<'a>, stayed: &Stayed, router: RouterId) -> Option<&'a Known>
    ensures { IfSome result (λ s. ReadsTheSame inputs.now.internal.now inputs.now.sessions.now stayed.now router × (slice_get inputs.now.previous.now router ≡ Some s.now)) }
{
    if reads_the_same(inputs, stayed, router) {
        known_at(inputs.previous, router)
    } else {
        None
    }
}

/// The same, where that state came from an earlier one: so the router knows it after the next round too.
fn kept<'a>(inputs: &Inputs<'a>, stayed: &Stayed, router: RouterId) -> Option<&'a Known>
    requires inputs { AreInputs inputs.now }
    requires router { IsRouter inputs.now.network.now router }
    requires stayed { IfSome inputs.now.earlier (λ (e : Earlier). HaveStayed inputs.now.network.now stayed.now e.state.now inputs.now.previous.now) }
    ensures { IfSome result (λ s. (slice_get inputs.now.previous.now router ≡ Some s.now) × (s.now ≡ next_router inputs.now.network.now inputs.now.internal.now inputs.now.previous.now router) × (slice_get stayed.now.routers router ≡ Some true)) }
{
    match &inputs.earlier {
        None => None,
        Some(_earlier) => unmoved(inputs, stayed, router),
    }
}

/// What is made anew of a router in a round, and `None` where nothing that it reads changed in the round before: then it knows the same
/// again, and who makes the rounds has that already. It errs only where memory runs out.
pub fn table_anew(
    alloc: Global,
    inputs: &Inputs<'_>,
    stayed: &Stayed,
    router: RouterId,
) -> Result<Option<Made>, AllocError>
    requires inputs { AreInputs inputs.now }
    requires router { IsRouter inputs.now.network.now router }
    requires stayed { IfSome inputs.now.earlier (λ (e : Earlier). HaveStayed inputs.now.network.now stayed.now e.state.now inputs.now.previous.now) }
    ensures { IfOk result (IsMadeAnew inputs.now.network.now inputs.now.internal.now stayed.now.routers inputs.now.previous.now router) }
{
    let known = kept(inputs, stayed, router);
    match known {
        Some(_known) => Ok(None),
        None => {
            let made = table(alloc, inputs, router)?;
            Ok(Some(made))
        }
    }
}
