//! Statements that may make sessions.
ghost use Rattle.std.specs.Prelude.{◌≡◌};
ghost use Rattle.rc_bgp.specs.Speakers as spec;

use crate::speaker::{OwnAddr, Speaker};
use rc_base::{Addr, Name};
use rc_config::{Neighbor, Network, RouterText};

/// A `neighbor` statement that may make sessions.
#[derive(Clone, Copy)]
pub struct Statement {
    /// The router's own address in its sessions.
    pub local: Addr,
    /// The address that it names.
    pub neighbor: Addr,
    /// The AS that it names.
    pub remote_as: u32,
    pub is_multihop: bool,
}

/// The primary address of an interface while it is up.
fn source_address(file: &RouterText, name: &Name) -> Option<Addr>
    ensures { result ≡ spec.source_address file.now.interfaces name.now }
{
    if file.is_down(name) {
        return None;
    }
    let found = file.interfaces.get(name);
    match found {
        Some(interface) => match interface.primary {
            Some(primary) => Some(primary.addr()),
            None => None,
        },
        None => None,
    }
}

/// The first own address whose prefix holds an address.
fn facing(own: &[OwnAddr], addr: Addr) -> Option<Addr>
    ensures { result ≡ spec.facing own.now addr }
{
    let found = own.iter().find(|o| o.prefix.contains(addr));
    match found {
        Some(found) => Some(found.addr),
        None => None,
    }
}

/// The local address of a statement.
fn local_address(file: &RouterText, own: &[OwnAddr], neighbor: &Neighbor) -> Option<Addr>
    ensures { result ≡ spec.local_address file.now.interfaces own.now neighbor.now }
{
    match neighbor.settings.update_source {
        Some(name) => source_address(file, &name),
        None => facing(own, neighbor.address),
    }
}

/// A statement, where it is active and not shut down, names an AS and has a local address.
pub(crate) fn statement_of(
    file: &RouterText,
    own: &[OwnAddr],
    neighbor: &Neighbor,
) -> Option<Statement>
    ensures { result ≡ spec.statement_of file.now.interfaces own.now neighbor.now }
{
    if neighbor.settings.is_shutdown || !neighbor.is_active {
        return None;
    }
    match neighbor.settings.remote_as {
        None => None,
        Some(remote_as) => {
            let local = local_address(file, own, neighbor);
            match local {
                None => None,
                Some(local) => Some(Statement {
                    local,
                    neighbor: neighbor.address,
                    remote_as,
                    is_multihop: neighbor.settings.is_multihop,
                }),
            }
        }
    }
}

/// The statement of a file about an address.
fn statement_in(file: &RouterText, own: &[OwnAddr], addr: Addr) -> Option<Statement>
    ensures { result ≡ spec.statement_in own.now addr file.now }
{
    match &file.bgp {
        None => None,
        Some(process) => {
            let found = process.neighbors.get(addr.bits());
            match found {
                None => None,
                Some(neighbor) => statement_of(file, own, neighbor),
            }
        }
    }
}

/// Whether the router of a speaker has a process.
pub(crate) fn has_process(net: &Network, speaker: &Speaker) -> bool
    ensures { result ≡ spec.has_process net.now speaker.now }
{
    let found = net.router_at(speaker.router);
    match found {
        None => false,
        Some(file) => file.bgp.is_some(),
    }
}

/// The statement of a speaker about an address.
pub(crate) fn statement_about(net: &Network, speaker: &Speaker, addr: Addr) -> Option<Statement>
    ensures { result ≡ spec.statement_about net.now speaker.now addr }
{
    let found = net.router_at(speaker.router);
    match found {
        None => None,
        Some(file) => statement_in(file, speaker.own.as_slice(), addr),
    }
}
