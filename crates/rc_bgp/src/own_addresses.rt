//! The own addresses of a router, and its identifier.
ghost use Rattle.std.specs.Prelude.{◌≡◌, ◌++◌, IfOk, OnOk, map};
ghost use Rattle.std.specs.List.{filter, fold};
ghost use Rattle.rc_config.specs.IfType.{type_of};
ghost use Rattle.rc_config.specs.Interface.{declared_addresses};
ghost use Rattle.rc_topology.specs.Ports.{is_loopback_type};
ghost use Rattle.rc_bgp.specs.Speakers as spec;

use crate::speaker::OwnAddr;
use rc_base::{Addr, IfId, Items, Name, RouterId};
use rc_config::{BgpProcess, IfAddr, IfType, Interface, RouterText, type_of_name};
use std::alloc::{AllocError, Global};

/// Whether an interface of this name is a loopback.
fn is_loopback(name: &Name) -> bool
    ensures { result ≡ is_loopback_type (type_of name.now) }
{
    let kind = type_of_name(name);
    match kind {
        Some(IfType::Loopback) => true,
        _ => false,
    }
}

/// An own address of an interface.
fn own_addr(id: &IfId, name: &Name, address: &IfAddr) -> OwnAddr
    ensures { result ≡ spec.own_addr id.now name.now address.now }
{
    OwnAddr {
        interface: *id,
        addr: address.addr(),
        prefix: address.prefix(),
        is_loopback: is_loopback(name),
    }
}

/// Puts addresses of an interface at the end.
fn add_addresses(
    own: &mut Items<OwnAddr>,
    id: &IfId,
    name: &Name,
    addresses: &[IfAddr],
) -> Result<(), AllocError>
    ensures { OnOk result (own.new ≡ own.old ++ map (spec.own_addr id.now name.now) addresses.now) }
{
    for address in addresses {
        own.push(own_addr(id, name, address))?;
    }
    Ok(())
}

/// Puts all addresses of an interface at the end, the primary one first.
fn add_declared(
    own: &mut Items<OwnAddr>,
    id: &IfId,
    name: &Name,
    interface: &Interface,
) -> Result<(), AllocError>
    ensures { OnOk result (own.new ≡ own.old ++ map (spec.own_addr id.now name.now) (declared_addresses interface.now)) }
{
    match interface.primary {
        Some(primary) => {
            own.push(own_addr(id, name, &primary))?;
            add_addresses(own, id, name, interface.secondary.as_slice())
        }
        None => add_addresses(own, id, name, interface.secondary.as_slice()),
    }
}

/// Puts the addresses of the interface at an index at the end, while it is up.
fn add_interface(
    own: &mut Items<OwnAddr>,
    router: RouterId,
    file: &RouterText,
    index: usize,
) -> Result<(), AllocError>
    ensures { OnOk result (own.new ≡ own.old ++ spec.addresses_at router file.now.interfaces index) }
{
    let found = file.interfaces.at(index);
    match found {
        None => Ok(()),
        Some((name, interface)) => {
            if file.is_down(name) {
                return Ok(());
            }
            add_declared(own, &IfId { router, index }, name, interface)
        }
    }
}

/// The own addresses of a router: those of all interfaces that are up, as declared.
pub(crate) fn router_addresses(
    alloc: Global,
    router: RouterId,
    file: &RouterText,
) -> Result<Items<OwnAddr>, AllocError>
    ensures { IfOk result (λ own. own ≡ spec.router_addresses router file.now.interfaces) }
{
    let mut own = Items::new(alloc);
    for index in 0..file.interfaces.len() {
        add_interface(&mut own, router, file, index)?;
    }
    Ok(own)
}

/// The greater of a known address and one more.
fn greater(known: Option<Addr>, addr: Addr) -> Option<Addr>
    ensures { result ≡ spec.greater known addr }
{
    match known {
        None => Some(addr),
        Some(known) => Some(Addr::new(known.bits().max(addr.bits()))),
    }
}

/// The greatest of some addresses.
fn greatest(own: &[OwnAddr]) -> Option<Addr>
    ensures { result ≡ spec.greatest own.now }
{
    let mut known = None;
    for o in own {
        known = greater(known, o.addr);
    }
    known
}

/// The greatest of those that are on loopbacks.
fn greatest_of_loopbacks(own: &[OwnAddr]) -> Option<Addr>
    ensures { result ≡ spec.greatest (filter (λ o. o.is_loopback) own.now) }
{
    let mut known = None;
    for o in own {
        if o.is_loopback {
            known = greater(known, o.addr);
        }
    }
    known
}

/// The greatest address of a loopback, else the greatest address, else 0.
fn greatest_or_zero(own: &[OwnAddr]) -> Addr
    ensures { result ≡ spec.by_address own.now }
{
    let loopback = greatest_of_loopbacks(own);
    match loopback {
        Some(addr) => addr,
        None => {
            let any = greatest(own);
            match any {
                Some(addr) => addr,
                None => Addr::new(0),
            }
        }
    }
}

/// The BGP identifier (RFC 4271 s.4.2) of a router with these own addresses.
pub(crate) fn identifier(process: &BgpProcess, own: &[OwnAddr]) -> Addr
    ensures { result ≡ spec.identifier process.now own.now }
{
    match process.router_id {
        Some(id) => id,
        None => greatest_or_zero(own),
    }
}
