//! Which statements make sessions.
ghost use Rattle.std.specs.Prelude.{◌≡◌, ◌++◌, IfOk, OnOk, map};
ghost use Rattle.rc_bgp.specs.Sessions as spec;

use crate::Session;
use crate::speaker::{OwnAddr, Speaker, speakers};
use crate::statement::{Statement, has_process, statement_about};
use rc_base::{Addr, Items};
use rc_config::Network;
use rc_topology::Links;
use std::alloc::{AllocError, Global};

/// The sessions that the statements of a network make: for each router those to it, by sender, then the sender's address.
pub type ConfiguredSessions = Items<Items<Session>>;

/// Whether two own addresses are of interfaces that share a link, with one prefix.
fn are_on_one_subnet(links: &Links, one: &OwnAddr, other: &OwnAddr) -> bool
    ensures { result ≡ spec.are_on_one_subnet links.now one.now other.now }
{
    one.prefix == other.prefix && links.are_linked(one.interface, other.interface)
}

/// Whether one of the others is this address, on a subnet of the own one.
fn some_shares(links: &Links, one: &OwnAddr, others: &[OwnAddr], addr: Addr) -> bool
    ensures { result ≡ spec.some_shares links.now one.now others.now addr }
{
    others.iter().any(|other| other.addr == addr && are_on_one_subnet(links, one, other))
}

/// Whether two addresses are on a shared subnet.
fn are_shared(links: &Links, own: &[OwnAddr], local: Addr, others: &[OwnAddr], remote: Addr) -> bool
    ensures { result ≡ spec.are_shared links.now own.now local others.now remote }
{
    own.iter().any(|one| one.addr == local && some_shares(links, one, others, remote))
}

/// Whether the statements of two routers each name the local address and the AS of the other.
fn fit(to: &Speaker, from: &Speaker, x: &Statement, y: &Statement) -> bool
    ensures { result ≡ spec.fit to.now from.now x.now y.now }
{
    to.router != from.router
        && x.neighbor == y.local
        && y.neighbor == x.local
        && x.remote_as == from.asn
        && y.remote_as == to.asn
}

/// Whether a session may be off a shared subnet.
fn may_be_far(is_external: bool, x: &Statement, y: &Statement) -> bool
    ensures { result ≡ spec.may_be_far is_external x.now y.now }
{
    !is_external || (x.is_multihop && y.is_multihop)
}

/// The session of a receiver and a sender.
fn session_between(to: &Speaker, from: &Speaker, x: &Statement, is_shared: bool) -> Session
    ensures { result ≡ spec.session_between to.now from.now x.now is_shared }
{
    Session {
        sender: from.router,
        sender_address: x.neighbor,
        sender_id: from.id,
        receiver: to.router,
        receiver_address: x.local,
        is_external: from.asn != to.asn,
        is_shared,
    }
}

/// The session of two statements, the first that of the receiver.
fn session_of(
    links: &Links,
    to: &Speaker,
    from: &Speaker,
    x: &Statement,
    y: &Statement,
) -> Option<Session>
    ensures { result ≡ spec.session_of links.now to.now from.now x.now y.now }
{
    if !fit(to, from, x, y) {
        return None;
    }
    let is_shared = are_shared(
        links,
        to.own.as_slice(),
        x.local,
        from.own.as_slice(),
        x.neighbor,
    );
    if is_shared || may_be_far(from.asn != to.asn, x, y) {
        Some(session_between(to, from, x, is_shared))
    } else {
        None
    }
}

/// The session from an address of the sender.
fn session_from(
    links: &Links,
    net: &Network,
    to: &Speaker,
    from: &Speaker,
    addr: Addr,
) -> Option<Session>
    ensures { result ≡ spec.session_from links.now net.now to.now from.now addr }
{
    let named = statement_about(net, to, addr);
    match named {
        None => None,
        Some(x) => {
            let answer = statement_about(net, from, x.local);
            match answer {
                None => None,
                Some(y) => session_of(links, to, from, &x, &y),
            }
        }
    }
}

/// Puts the sessions from a sender at the end.
fn add_sessions_from(
    links: &Links,
    net: &Network,
    to: &Speaker,
    from: &Speaker,
    all: &mut Items<Session>,
) -> Result<(), AllocError>
    ensures { OnOk result (all.new ≡ all.old ++ spec.sessions_from links.now net.now to.now from.now) }
{
    for addr in from.locals.as_slice() {
        let session = session_from(links, net, to, from, *addr);
        match session {
            Some(session) => all.push(session)?,
            None => {}
        }
    }
    Ok(())
}

/// The sessions to a receiver, of all senders.
fn sessions_from_all(
    alloc: Global,
    links: &Links,
    net: &Network,
    senders: &[Speaker],
    to: &Speaker,
) -> Result<Items<Session>, AllocError>
    ensures { IfOk result (λ all. all ≡ spec.sessions_to links.now net.now senders.now to.now) }
{
    let mut all = Items::new(alloc);
    for from in senders {
        add_sessions_from(links, net, to, from, &mut all)?;
    }
    Ok(all)
}

/// The sessions to a receiver. Where it has no process there are none, whoever sends.
fn sessions_to(
    alloc: Global,
    links: &Links,
    net: &Network,
    senders: &[Speaker],
    to: &Speaker,
) -> Result<Items<Session>, AllocError>
    ensures { IfOk result (λ all. all ≡ spec.sessions_to links.now net.now senders.now to.now) }
{
    if !has_process(net, to) {
        return Ok(Items::new(alloc));
    }
    sessions_from_all(alloc, links, net, senders, to)
}

/// The sessions among speakers, for each those to it.
fn sessions_among(
    alloc: Global,
    links: &Links,
    net: &Network,
    speakers: &[Speaker],
) -> Result<ConfiguredSessions, AllocError>
    ensures { IfOk result (λ all. all ≡ map (spec.sessions_to links.now net.now speakers.now) speakers.now) }
{
    let mut all = Items::new(alloc);
    for to in speakers {
        all.push(sessions_to(alloc, links, net, speakers, to)?)?;
    }
    Ok(all)
}

/// The sessions that the statements of a network make: for each router those to it, by sender, then the sender's address. Which of them
/// are up is told by each state; nothing else of them changes. It errs only where memory runs out.
#[tactic(auto, unfolding(crate::specs::Sessions::configured_sessions))]
pub fn configured_sessions(
    alloc: Global,
    net: &Network,
    links: &Links,
) -> Result<ConfiguredSessions, AllocError>
    ensures { IfOk result (λ all. all ≡ spec.configured_sessions net.now links.now) }
{
    let speakers = speakers(alloc, net)?;
    sessions_among(alloc, links, net, speakers.as_slice())
}
