//! The senders of sessions, asked for one prefix after another.
ghost use Rattle.std.specs.Prelude.{◌≡◌, All, IfOk, OnOk};
ghost use Rattle.std.specs.Option.{option_copied};
ghost use Rattle.rc_route.specs.Tables.{IsBestList, IsRouterState, best_path_for};
ghost use Rattle.rc_bgp.specs.Listening.{heard_from, tellers};
ghost use Rattle.rc_bgp.specs.RouterStates.{paths_of};

use crate::Session;
use crate::listener::Listener;
use crate::resolver::Resolver;
use crate::router_state::paths_of;
use rc_base::Prefix;
use rc_config::Network;
use rc_pieces::{Finder, Knowledge};
use rc_route::{Best, KeptPath};
use std::alloc::{AllocError, Global};
use std::marker::Model;

/// The best paths of the sender of a session, and the receiver that is told them.
pub(crate) struct Sender<'a> {
    paths: Finder<'a, Best>,
    listener: Listener<'a>,
}

/// By a function of its own, so that what holds senders drops each by one call.
impl<'a> Drop for Sender<'a> {
    fn drop(self) {
        let Sender {
            paths: _,
            listener: _,
        } = self;
    }
}

impl<'a> Model for Sender<'a> {
    ghost use Rattle.rc_route.specs.Tables.{IsBestList};
    ghost use Rattle.rc_bgp.specs.Listening.{Teller};

    ghost Value = { Teller };

    ghost view = { λ s. record { net = s.listener.net; session = s.listener.session; paths = s.paths } };

    ghost invariant = { λ s. IsBestList s.paths };
}

/// Those of some sessions, in order.
pub(crate) type Senders<'a> = Vec<Sender<'a>>;

/// The sender of a session.
#[tactic(auto, using(crate::proofs::KnownLaws::paths_in_order))]
fn sender_of<'a>(net: &'a Network, state: &'a Knowledge, session: &'a Session) -> Sender<'a>
    requires { All IsRouterState state.now }
    ensures { result ≡ record { net = net.now; session = session.now; paths = paths_of state.now session.now.sender } }
{
    Sender {
        paths: Finder::of(&paths_of(state, session.sender)),
        listener: Listener::new(net, session),
    }
}

/// The senders of some sessions.
pub(crate) fn senders_of<'a>(
    alloc: Global,
    net: &'a Network,
    state: &'a Knowledge,
    sessions: &'a [Session],
) -> Result<Senders<'a>, AllocError>
    requires { All IsRouterState state.now }
    ensures { IfOk result (λ senders. senders.items ≡ tellers net.now state.now sessions.now) }
{
    let mut senders = Vec::new(alloc);
    for session in sessions {
        senders.push(sender_of(net, state, session))?;
    }
    Ok(senders)
}

/// The best path for a prefix.
fn best_path_of<'a>(paths: &mut Finder<'a, Best>, prefix: &Prefix) -> Option<&'a KeptPath>
    requires { IsBestList paths.old }
    ensures value { option_copied result ≡ best_path_for paths.old prefix.now }
    ensures same { paths.new ≡ paths.old }
{
    let found = paths.at(prefix);
    match found {
        Some(best) => Some(&best.path),
        None => None,
    }
}

impl<'a> Sender<'a> {
    /// What the receiver, with this table, hears of it for a prefix.
    pub fn heard(
        &mut self,
        alloc: Global,
        resolver: &mut Resolver<'_>,
        prefix: &Prefix,
    ) -> Result<Option<KeptPath>, AllocError>
        ensures value { IfOk result (λ made. made ≡ heard_from resolver.old prefix.now self.old) }
        ensures same { OnOk result (resolver.new ≡ resolver.old) }
        ensures same_sender { OnOk result (self.new ≡ self.old) }
    {
        let best = best_path_of(&mut self.paths, prefix);
        self.listener.hear_for(alloc, resolver, best, prefix)
    }
}
