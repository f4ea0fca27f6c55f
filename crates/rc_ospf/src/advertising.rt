//! What the interfaces advertise (RFC 2328, section 12.4.1).
ghost use Rattle.std.specs.Prelude.{◌≡◌, ◌++◌, [], IfOk, OnOk, map};
ghost use Rattle.std.specs.List.{flat_map};
ghost use Rattle.rc_config.specs.Interface.{declared_addresses};
ghost use Rattle.rc_ospf.specs.Adverts as spec;

use crate::{Advert, Offer, OspfInterface};
use rc_base::{Items, Name, Prefix};
use rc_config::{IfAddr, IfType, Interface, Network, NetworkType, type_of_name};
use std::alloc::{AllocError, Global};

/// Whether an interface of this name advertises its addresses as hosts: a loopback, unless its network type is
/// point-to-point.
fn is_host(interface: &OspfInterface, name: &Name) -> bool
    ensures { result ≡ spec.is_host interface.now name.now }
{
    match type_of_name(name) {
        Some(IfType::Loopback) => interface.network != NetworkType::PointToPoint,
        _ => false,
    }
}

/// An address as a prefix of 32 bits.
fn host_prefix(address: &IfAddr) -> Prefix
    ensures { result ≡ spec.host_prefix address.now }
{
    Prefix::new(address.addr(), 32).unwrap()
}

/// What an interface advertises for one of its addresses, at its cost in its area.
fn advert_of(interface: &OspfInterface, as_host: bool, address: &IfAddr) -> Advert
    ensures { result ≡ spec.advert_of interface.now as_host address.now }
{
    let prefix = if as_host {
        host_prefix(address)
    } else {
        address.prefix()
    };
    let cost = u32::from(interface.cost);
    Advert {
        prefix,
        offer: Offer::new(interface.id.router, interface.area, cost),
    }
}

/// Puts what an interface advertises for some addresses at the end.
fn add_addresses(
    all: &mut Items<Advert>,
    interface: &OspfInterface,
    as_host: bool,
    addresses: &[IfAddr],
) -> Result<(), AllocError>
    ensures { OnOk result (all.new ≡ all.old ++ map (spec.advert_of interface.now as_host) addresses.now) }
{
    for address in addresses {
        all.push(advert_of(interface, as_host, address))?;
    }
    Ok(())
}

/// Puts what an interface advertises for its addresses at the end, the primary one first.
fn add_declared(
    all: &mut Items<Advert>,
    interface: &OspfInterface,
    as_host: bool,
    block: &Interface,
) -> Result<(), AllocError>
    ensures { OnOk result (all.new ≡ all.old ++ map (spec.advert_of interface.now as_host) (declared_addresses block.now)) }
{
    match block.primary {
        Some(primary) => {
            all.push(advert_of(interface, as_host, &primary))?;
            add_addresses(all, interface, as_host, block.secondary.as_slice())
        }
        None => add_addresses(all, interface, as_host, block.secondary.as_slice()),
    }
}

/// Puts what an interface advertises at the end.
fn add_interface(
    all: &mut Items<Advert>,
    net: &Network,
    interface: &OspfInterface,
) -> Result<(), AllocError>
    ensures { OnOk result (all.new ≡ all.old ++ spec.adverts_of net.now interface.now) }
{
    let found = net.interface_at(interface.id);
    match found {
        Some((name, block)) => add_declared(all, interface, is_host(interface, name), block),
        None => Ok(()),
    }
}

/// What the interfaces of a network advertise, in their order. It errs only where memory runs out.
pub fn adverts(
    alloc: Global,
    net: &Network,
    interfaces: &[OspfInterface],
) -> Result<Items<Advert>, AllocError>
    ensures { IfOk result (λ all. all ≡ flat_map (spec.adverts_of net.now) interfaces.now) }
{
    let mut all = Items::new(alloc);
    for interface in interfaces {
        add_interface(&mut all, net, interface)?;
    }
    Ok(all)
}
