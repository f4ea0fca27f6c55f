//! What is kept of an interface.
ghost use Rattle.std.specs.Prelude.{◌≡◌, ◌++◌, false, IfOk, OnOk, map};
ghost use Rattle.rc_config.specs.Interface.{declared_addresses};
ghost use Rattle.rc_topology.specs.Ports as spec;

use crate::PrefixSet;
use rc_base::{Addr, Items, Name, Prefix};
use rc_config::{IfAddr, IfType, Interface, RouterText, type_of_name};
use std::alloc::{AllocError, Global};

/// An address of an interface.
#[derive(Clone, Copy, PartialEq, Eq)]
pub struct PortAddr {
    pub addr: Addr,
    /// The prefix that it makes connected.
    pub prefix: Prefix,
    /// Whether it is the primary one. The others are secondary.
    pub is_primary: bool,
}

/// An interface as links see it.
pub struct Port {
    /// Its own addresses while it is up, the primary one first, then the others as written.
    pub addresses: Items<PortAddr>,
    /// The prefixes of these, by address, then length, each once.
    pub prefixes: PrefixSet,
    /// Its type, where it is one that may have addresses.
    pub kind: Option<IfType>,
}

/// By a function of its own, so that what holds interfaces drops each by one call.
impl Drop for Port {
    fn drop(self) {
        let Port {
            addresses: _,
            prefixes: _,
            kind: _,
        } = self;
    }
}

/// Appends addresses.
fn append(all: &mut Items<IfAddr>, addresses: &[IfAddr]) -> Result<(), AllocError>
    ensures { OnOk result (all.new ≡ all.old ++ addresses.now) }
{
    for address in addresses {
        all.push(*address)?;
    }
    Ok(())
}

/// The addresses of an interface, the primary one first, then the others as written.
fn declared(alloc: Global, interface: &Interface) -> Result<Items<IfAddr>, AllocError>
    ensures { IfOk result (λ all. all ≡ declared_addresses interface.now) }
{
    let mut all = Items::new(alloc);
    match interface.primary {
        Some(primary) => {
            all.push(primary)?;
            append(&mut all, interface.secondary.as_slice())?;
            Ok(all)
        }
        None => {
            append(&mut all, interface.secondary.as_slice())?;
            Ok(all)
        }
    }
}

/// An address with its prefix.
fn port_addr(is_primary: bool, address: &IfAddr) -> PortAddr
    ensures { result ≡ spec.port_addr is_primary address.now }
{
    PortAddr {
        addr: address.addr(),
        prefix: address.prefix(),
        is_primary,
    }
}

/// Appends secondary addresses.
fn add_secondary(all: &mut Items<PortAddr>, addresses: &[IfAddr]) -> Result<(), AllocError>
    ensures { OnOk result (all.new ≡ all.old ++ map (spec.port_addr false) addresses.now) }
{
    for address in addresses {
        all.push(port_addr(false, address))?;
    }
    Ok(())
}

/// The addresses of an interface with their prefixes, the primary one first, then the others as written.
fn block_addresses(alloc: Global, interface: &Interface) -> Result<Items<PortAddr>, AllocError>
    ensures { IfOk result (λ all. all ≡ spec.block_addresses interface.now) }
{
    let mut all = Items::new(alloc);
    match interface.primary {
        Some(primary) => {
            all.push(port_addr(true, &primary))?;
            add_secondary(&mut all, interface.secondary.as_slice())?;
            Ok(all)
        }
        None => {
            add_secondary(&mut all, interface.secondary.as_slice())?;
            Ok(all)
        }
    }
}

/// What is kept of an interface that is up.
fn port_up(alloc: Global, kind: Option<IfType>, interface: &Interface) -> Result<Port, AllocError>
    ensures { IfOk result (λ p. p ≡ spec.port_up kind interface.now) }
{
    let declared = declared(alloc, interface)?;
    let prefixes = PrefixSet::of(alloc, declared.as_slice())?;
    let addresses = block_addresses(alloc, interface)?;
    Ok(Port {
        addresses,
        prefixes,
        kind,
    })
}

impl Port {
    /// What is kept of an interface of a file.
    pub(crate) fn of(
        alloc: Global,
        file: &RouterText,
        name: &Name,
        interface: &Interface,
    ) -> Result<Port, AllocError>
        ensures { IfOk result (λ p. p ≡ spec.port_of file.now.interfaces (name.now, interface.now)) }
    {
        let kind = type_of_name(name);
        if file.is_down(name) {
            return Ok(Port {
                addresses: Items::new(alloc),
                prefixes: PrefixSet::new(alloc),
                kind,
            });
        }
        port_up(alloc, kind, interface)
    }

    /// Whether it is a loopback.
    pub(crate) fn is_loopback(&self) -> bool
        ensures { result ≡ spec.is_loopback self.now }
    {
        match self.kind {
            Some(IfType::Loopback) => true,
            _ => false,
        }
    }

    /// Whether it is a serial line.
    pub(crate) fn is_serial(&self) -> bool
        ensures { result ≡ spec.is_serial self.now }
    {
        match self.kind {
            Some(IfType::Serial) => true,
            _ => false,
        }
    }

    /// Whether an address is one of its own.
    pub(crate) fn owns(&self, addr: Addr) -> bool
        ensures { result ≡ spec.owns addr self.now }
    {
        self.addresses
            .as_slice()
            .iter()
            .any(|other| addr == other.addr)
    }

    /// Whether an address lies in one of its prefixes.
    pub(crate) fn holds(&self, addr: Addr) -> bool
        ensures { result ≡ spec.holds addr self.now }
    {
        self.prefixes.holds(addr)
    }

    /// The prefixes by which it shares links: none where it is a loopback.
    pub(crate) fn link_prefixes(&self) -> &[Prefix]
        ensures { result.now ≡ spec.link_prefixes self.now }
    {
        if self.is_loopback() {
            return &[];
        }
        self.prefixes.as_slice()
    }

    /// Whether it has a prefix and is no loopback.
    pub(crate) fn is_on(&self, prefix: &Prefix) -> bool
        ensures { result ≡ spec.is_on prefix.now self.now }
    {
        !self.is_loopback() && self.prefixes.has(prefix)
    }

    /// Whether it shares a prefix with another, where neither is a loopback.
    pub(crate) fn shares_prefix(&self, other: &Port) -> bool
        ensures { result ≡ spec.share_prefix self.now other.now }
    {
        !self.is_loopback() && !other.is_loopback() && self.prefixes.shares(&other.prefixes)
    }
}
