//! The indexes of a network's interfaces.
ghost use Rattle.std.specs.Prelude.{◌≡◌, [], IfOk, OnOk, map};
ghost use Rattle.std.specs.List.{fold};
ghost use Rattle.rc_topology.specs.Ports.{link_prefixes};
ghost use Rattle.rc_topology.specs.Filling.{host, hosts, with_interface, with_ports, with_routers};

use crate::{Port, PortAddr};
use rc_base::{Addr, IfId, Items, Prefix, PrefixIndex, RouterId};
use std::alloc::{AllocError, Global};

/// The interfaces of a network under the prefixes of their links, and under their own addresses.
pub struct Indexes {
    /// Under a prefix: the interfaces that have it and aren't loopbacks.
    pub by_prefix: PrefixIndex,
    /// Under an address, as a prefix of length 32: the interfaces that have it.
    pub by_addr: PrefixIndex,
}

/// By a function of its own, so that what holds indexes drops them by one call.
impl Drop for Indexes {
    fn drop(self) {
        let Indexes {
            by_prefix: _,
            by_addr: _,
        } = self;
    }
}

/// An address as a prefix of length 32.
pub(crate) fn host(addr: Addr) -> Prefix
    ensures { result ≡ host addr }
{
    Prefix::new(addr, 32).unwrap()
}

/// Puts an interface under some prefixes.
fn add_prefixes(
    index: &mut PrefixIndex,
    interface: &IfId,
    prefixes: &[Prefix],
) -> Result<(), AllocError>
    ensures { OnOk result (index.new ≡ fold (with_interface interface.now) index.old prefixes.now) }
{
    for prefix in prefixes {
        index.add(*prefix, *interface)?;
    }
    Ok(())
}

/// Puts an interface under some addresses.
fn add_addresses(
    index: &mut PrefixIndex,
    interface: &IfId,
    addresses: &[PortAddr],
) -> Result<(), AllocError>
    ensures { OnOk result (index.new ≡ fold (with_interface interface.now) index.old (map (λ a. host a.addr) addresses.now)) }
{
    for address in addresses {
        index.add(host(address.addr), *interface)?;
    }
    Ok(())
}

/// Puts an interface under its prefixes and addresses.
fn add_port(indexes: &mut Indexes, interface: &IfId, port: &Port) -> Result<(), AllocError>
    ensures by_prefix { OnOk result (indexes.new.by_prefix ≡ fold (with_interface interface.now) indexes.old.by_prefix (link_prefixes port.now)) }
    ensures by_addr { OnOk result (indexes.new.by_addr ≡ fold (with_interface interface.now) indexes.old.by_addr (hosts port.now)) }
{
    add_prefixes(&mut indexes.by_prefix, interface, port.link_prefixes())?;
    add_addresses(&mut indexes.by_addr, interface, port.addresses.as_slice())?;
    Ok(())
}

/// Puts the interfaces of a router under their prefixes and addresses.
fn add_router(indexes: &mut Indexes, router: RouterId, ports: &[Port]) -> Result<(), AllocError>
    ensures by_prefix { OnOk result (indexes.new.by_prefix ≡ with_ports link_prefixes router 0 indexes.old.by_prefix ports.now) }
    ensures by_addr { OnOk result (indexes.new.by_addr ≡ with_ports hosts router 0 indexes.old.by_addr ports.now) }
{
    for (index, port) in ports.iter().enumerate() {
        let interface = IfId { router, index };
        add_port(indexes, &interface, port)?;
    }
    Ok(())
}

/// The interfaces of a network under their prefixes and addresses.
pub(crate) fn indexes_of(alloc: Global, links: &[Items<Port>]) -> Result<Indexes, AllocError>
    ensures by_prefix { IfOk result (λ x. x.by_prefix ≡ with_routers link_prefixes 0 [] links.now) }
    ensures by_addr { IfOk result (λ x. x.by_addr ≡ with_routers hosts 0 [] links.now) }
{
    let mut indexes = Indexes {
        by_prefix: PrefixIndex::new(alloc),
        by_addr: PrefixIndex::new(alloc),
    };
    for (index, ports) in links.iter().enumerate() {
        add_router(&mut indexes, RouterId::at(index), ports.as_slice())?;
    }
    Ok(indexes)
}
