//! What each router says in BGP.
ghost use Rattle.std.specs.Prelude.{◌≡◌, IfOk, OnOk};
ghost use Rattle.std.specs.List.{fold, filter_map};
ghost use Rattle.std.specs.Option.{option_map_or};
ghost use Rattle.std.specs.Ordering.{nat_cmp};
ghost use Rattle.std.specs.BTreeSet.{keys, insert_key};
ghost use Rattle.rc_bgp.specs.Speakers as spec;

use crate::own_addresses::{identifier, router_addresses};
use crate::statement::statement_of;
use rc_base::{Addr, IfId, Items, Prefix, RouterId};
use rc_config::{BgpProcess, Network, RouterText};
use std::alloc::{AllocError, Global};
use std::collections::BTreeSet;

/// An own address of a router.
#[derive(Clone, Copy)]
pub struct OwnAddr {
    pub interface: IfId,
    pub addr: Addr,
    /// The prefix that it makes connected.
    pub prefix: Prefix,
    pub is_loopback: bool,
}

/// What a router says in BGP.
pub struct Speaker {
    pub router: RouterId,
    /// The number of its AS, 0 where it has no process.
    pub asn: u32,
    /// Its BGP identifier (RFC 4271 s.4.2).
    pub id: Addr,
    /// Its own addresses, as declared.
    pub own: Items<OwnAddr>,
    /// The addresses from which it speaks, rising, each once.
    pub locals: Items<Addr>,
}

/// By a function of its own, so that what holds speakers drops each by one call.
impl Drop for Speaker {
    fn drop(self) {
        let Speaker {
            router: _,
            asn: _,
            id: _,
            own: _,
            locals: _,
        } = self;
    }
}

/// Puts an address into a set.
fn insert(set: &mut BTreeSet<Addr>, addr: Addr) -> Result<(), AllocError>
    ensures { OnOk result (keys set.new ≡ insert_key nat_cmp (keys set.old) addr) }
{
    set.insert(addr)?;
    Ok(())
}

/// The local addresses of a process, as a set.
fn local_set(
    alloc: Global,
    file: &RouterText,
    own: &[OwnAddr],
    process: &BgpProcess,
) -> Result<BTreeSet<Addr>, AllocError>
    ensures { IfOk result (λ set. keys set ≡ spec.local_addresses file.now.interfaces own.now process.now.neighbors) }
{
    let mut set = BTreeSet::new(alloc);
    for neighbor in process.neighbors.iter() {
        let statement = statement_of(file, own, neighbor);
        match statement {
            Some(statement) => insert(&mut set, statement.local)?,
            None => {}
        }
    }
    Ok(set)
}

/// The addresses of a set as a list.
fn listed(alloc: Global, set: BTreeSet<Addr>) -> Result<Items<Addr>, AllocError>
    ensures { IfOk result (λ addresses. addresses ≡ keys set) }
{
    let mut addresses = Items::new(alloc);
    for addr in set {
        addresses.push(addr)?;
    }
    Ok(addresses)
}

/// What a router with this process says.
fn speaker_with(
    alloc: Global,
    router: RouterId,
    file: &RouterText,
    process: &BgpProcess,
) -> Result<Speaker, AllocError>
    ensures { IfOk result (λ s. s ≡ spec.speaker_with router file.now.interfaces process.now (spec.router_addresses router file.now.interfaces)) }
{
    let own = router_addresses(alloc, router, file)?;
    let set = local_set(alloc, file, own.as_slice(), process)?;
    let locals = listed(alloc, set)?;
    Ok(Speaker {
        router,
        asn: process.asn,
        id: identifier(process, own.as_slice()),
        own,
        locals,
    })
}

/// A router that says nothing.
fn silent(alloc: Global, router: RouterId) -> Speaker
    ensures { result ≡ spec.silent router }
{
    Speaker {
        router,
        asn: 0,
        id: Addr::new(0),
        own: Items::new(alloc),
        locals: Items::new(alloc),
    }
}

/// What a router says.
fn speaker_at(alloc: Global, net: &Network, router: RouterId) -> Result<Speaker, AllocError>
    ensures { IfOk result (λ s. s ≡ spec.speaker_at net.now router) }
{
    let found = net.router_at(router);
    match found {
        None => Ok(silent(alloc, router)),
        Some(file) => match &file.bgp {
            None => Ok(silent(alloc, router)),
            Some(process) => speaker_with(alloc, router, file, process),
        },
    }
}

/// What each router says, in the network's order.
#[tactic(auto, unfolding(crate::specs::Speakers::speakers))]
pub(crate) fn speakers(alloc: Global, net: &Network) -> Result<Items<Speaker>, AllocError>
    ensures { IfOk result (λ all. all ≡ spec.speakers net.now) }
{
    let mut all = Items::new(alloc);
    for index in 0..net.routers.len() {
        all.push(speaker_at(alloc, net, RouterId::at(index))?)?;
    }
    Ok(all)
}
