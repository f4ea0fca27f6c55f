//! Routers that read nothing.
ghost use Rattle.std.specs.Prelude.{◌≡◌, IsTrue};
ghost use Rattle.rc_bgp.specs.Sessions.{configured_sessions};
ghost use Rattle.rc_rib.specs.Again.{AllReadNothing, HasNoLines, ReadsNoOthers};

use crate::next::{has_no_boundaries, has_no_lines, has_no_process, has_no_sessions};
use rc_base::RouterId;
use rc_bgp::ConfiguredSessions;
use rc_config::Network;
use rc_ospf::Internal;

/// Whether a router reads no other router beside these sessions.
fn hears_nothing(
    net: &Network,
    internal: &Internal,
    sessions: &ConfiguredSessions,
    router: RouterId,
) -> bool
    ensures { IsTrue result → ReadsNoOthers net.now internal.now sessions.now router }
{
    has_no_process(net, router)
        && has_no_sessions(sessions, router)
        && has_no_boundaries(internal, router)
}

/// Whether no line of it reads its own table either.
fn reads_nothing(
    net: &Network,
    internal: &Internal,
    sessions: &ConfiguredSessions,
    router: RouterId,
) -> bool
    ensures { IsTrue result → HasNoLines net.now router × ReadsNoOthers net.now internal.now sessions.now router }
{
    has_no_lines(net, router) && hears_nothing(net, internal, sessions, router)
}

/// Whether no router reads what any router knows, beside these sessions, which are the configured ones: then a round makes the same of
/// any two states.
pub fn all_read_nothing(net: &Network, internal: &Internal, sessions: &ConfiguredSessions) -> bool
    requires { sessions.now ≡ configured_sessions net.now internal.now.links }
    ensures { IsTrue result → AllReadNothing net.now internal.now }
{
    for index in 0..net.routers.len() {
        if !reads_nothing(net, internal, sessions, RouterId::at(index)) {
            return false;
        }
    }
    true
}
