//! Which routers a router's next table and best paths are made from.
ghost use Rattle.std.specs.Prelude.{◌≡◌, false, IfOk, IfSome, IsTrue, None, slice_get};
ghost use Rattle.std.specs.List.{flat_map, list_any};
ghost use Rattle.std.specs.Option.{option_map_or};
ghost use Rattle.rc_config.specs.Members.{router_at};
ghost use Rattle.rc_ospf.specs.Boundaries as boundary;
ghost use Rattle.rc_reads.specs.Reads as spec;

use rc_base::{Addr, Items, RouterId};
use rc_config::{Interface, Named, Network, OspfProcess, Redistribution, RouterText};
use std::alloc::{AllocError, Global};

/// The routers that one reads, in the network's order.
pub type Reads = Items<RouterId>;

/// Whether a `neighbor` statement of a file names an address.
fn named_by(file: &RouterText, addr: Addr) -> bool
    ensures { result ≡ spec.named_by file.now.bgp addr }
{
    match &file.bgp {
        Some(process) => process.neighbors.has(addr.bits()),
        None => false,
    }
}

/// Whether a `neighbor` statement of a router names an address.
fn names_address(net: &Network, router: RouterId, addr: Addr) -> bool
    ensures { result ≡ spec.names_address net.now router addr }
{
    let found = net.router_at(router);
    match found {
        Some(file) => named_by(file, addr),
        None => false,
    }
}

/// Whether a `neighbor` statement of a router names a primary address.
fn names_primary(net: &Network, router: RouterId, interface: &Interface) -> bool
    ensures { result ≡ option_map_or (λ a. spec.names_address net.now router a.addr) interface.now.primary false }
{
    match interface.primary {
        Some(primary) => names_address(net, router, primary.addr()),
        None => false,
    }
}

/// Whether a `neighbor` statement of a router names a secondary address.
fn names_secondary(net: &Network, router: RouterId, interface: &Interface) -> bool
    ensures { result ≡ list_any (λ a. spec.names_address net.now router a.addr) interface.now.secondary }
{
    interface
        .secondary
        .as_slice()
        .iter()
        .any(|a| names_address(net, router, a.addr()))
}

/// Whether a `neighbor` statement of a router names an address of an interface.
#[tactic(auto, using(crate::proofs::NameLaws::named_parts))]
fn names_interface(net: &Network, router: RouterId, interface: &Interface) -> bool
    ensures { result ≡ list_any (spec.names_address net.now router) (spec.addresses_of interface.now) }
{
    names_primary(net, router, interface) || names_secondary(net, router, interface)
}

/// The same of the interface at an index.
fn names_at(net: &Network, router: RouterId, interfaces: &Named<Interface>, index: usize) -> bool
    ensures { result ≡ option_map_or (λ e. list_any (spec.names_address net.now router) (spec.addresses_of e.1)) (slice_get interfaces.now index) false }
{
    let found = interfaces.at(index);
    match found {
        Some((_name, interface)) => names_interface(net, router, interface),
        None => false,
    }
}

/// Whether a `neighbor` statement of a router names an address of some interface.
fn names_some(net: &Network, router: RouterId, interfaces: &Named<Interface>) -> bool
    ensures { result ≡ list_any (spec.names_address net.now router) (flat_map spec.addresses_of_entry interfaces.now) }
{
    for index in 0..interfaces.len() {
        if names_at(net, router, interfaces, index) {
            return true;
        }
    }
    false
}

/// Whether a router has no BGP process.
fn has_no_process(net: &Network, router: RouterId) -> bool
    ensures { IsTrue result → IfSome (router_at net.now router) (λ file. file.bgp ≡ None) }
{
    let found = net.router_at(router);
    match found {
        Some(file) => file.bgp.is_none(),
        None => true,
    }
}

/// Whether a `neighbor` statement of a router names an address that is declared on another.
fn names(net: &Network, router: RouterId, other: RouterId) -> bool
    ensures { result ≡ spec.names net.now router other }
{
    if has_no_process(net, router) {
        return false;
    }
    let found = net.router_at(other);
    match found {
        Some(file) => names_some(net, router, &file.interfaces),
        None => false,
    }
}

/// Whether a router has an OSPF process.
fn runs_ospf(net: &Network, router: RouterId) -> bool
    ensures { result ≡ spec.runs_ospf net.now router }
{
    let found = net.router_at(router);
    match found {
        Some(file) => file.ospf.is_some(),
        None => false,
    }
}

/// Whether there is a line.
fn has_any(lines: &[Redistribution]) -> bool
    ensures { result ≡ boundary.has_any lines.now }
{
    match lines {
        [_, ..] => true,
        _ => false,
    }
}

/// Whether a process sends routes from outside of the AS.
fn is_boundary_process(process: &OspfProcess) -> bool
    ensures { result ≡ boundary.is_boundary_process process.now }
{
    has_any(process.redistributions.as_slice()) || process.default_information.is_some()
}

/// Whether the process of a file does.
fn is_boundary_file(file: &RouterText) -> bool
    ensures { result ≡ boundary.is_boundary_file file.now }
{
    match &file.ospf {
        Some(process) => is_boundary_process(process),
        None => false,
    }
}

/// Whether a router is an AS boundary router.
pub(crate) fn is_boundary(net: &Network, router: RouterId) -> bool
    ensures { result ≡ boundary.is_boundary net.now router }
{
    let found = net.router_at(router);
    match found {
        Some(file) => is_boundary_file(file),
        None => false,
    }
}

/// Whether one router reads what another knows.
fn is_read(net: &Network, router: RouterId, other: RouterId) -> bool
    ensures { result ≡ spec.is_read net.now router other }
{
    other.index() == router.index()
        || names(net, router, other)
        || names(net, other, router)
        || runs_ospf(net, router) && is_boundary(net, other)
}

/// The routers that one reads: itself, whom it names and who names it in BGP, and by OSPF each AS boundary router. It errs only where
/// memory runs out.
pub fn reads(alloc: Global, net: &Network, router: RouterId) -> Result<Reads, AllocError>
    ensures { IfOk result (λ routers. routers ≡ spec.reads net.now router) }
{
    let mut routers = Items::new(alloc);
    for index in 0..net.routers.len() {
        let other = RouterId::at(index);
        if is_read(net, router, other) {
            routers.push(other)?;
        }
    }
    Ok(routers)
}
