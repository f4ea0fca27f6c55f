//! Interfaces on which OSPF runs (RFC 2328, section 9).
ghost use Rattle.std.specs.Prelude.{◌≡◌, ◌++◌, ◌*◌, ◌/◌, Some, [], is_some, IfOk, OnOk, length, slice_get};
ghost use Rattle.std.specs.List.{filter_map, flat_map, cons_option, range_with_len};
ghost use Rattle.std.specs.Option.{option_map_or};
ghost use Rattle.rc_config.specs.Members.{router_at};
ghost use Rattle.rc_ospf_interfaces.specs.Interfaces as spec;

use rc_base::{Addr, IfId, Items, Name, Prefix, RouterId};
use rc_config::{
    IfAddr, IfType, Interface, Network, NetworkType, OspfNetwork, OspfProcess, OspfSettings,
    RouterText, type_of_name,
};
use std::alloc::{AllocError, Global};

/// An interface on which OSPF runs.
#[derive(Clone, Copy)]
pub struct OspfInterface {
    pub id: IfId,
    pub area: u32,
    /// The cost of leaving by it, from 1 to 65,535.
    pub cost: u16,
    /// Its primary address.
    pub addr: Addr,
    /// The prefix of that address.
    pub prefix: Prefix,
    pub network: NetworkType,
    /// HelloInterval (RFC 2328, C.3), in seconds.
    pub hello: u32,
    /// RouterDeadInterval (RFC 2328, C.3), in seconds.
    pub dead: u32,
    /// Whether its area is a stub area there (RFC 2328, section 3.6).
    pub is_stub: bool,
    /// Whether it takes no neighbours.
    pub is_passive: bool,
}

/// Whether a `network` line matches an address: they agree in the bits whose wildcard bit is 0.
fn is_matched(address: Addr, line: &OspfNetwork) -> bool
    ensures { result ≡ spec.is_matched address line.now }
{
    let free = line.wildcard.bits();
    (address.bits() | free) == (line.address.bits() | free)
}

/// The area of the first `network` line that matches an address.
fn area_by_line(process: &OspfProcess, address: Addr) -> Option<u32>
    ensures { result ≡ spec.area_by_line process.now address }
{
    for line in process.networks.as_slice() {
        if is_matched(address, line) {
            return Some(line.area);
        }
    }
    None
}

/// The area that `ip ospf P area N` gives in this process, whatever such lines say of other ones.
fn area_by_setting(process: &OspfProcess, settings: &OspfSettings) -> Option<u32>
    ensures { result ≡ spec.area_by_setting process.now settings.now }
{
    match settings.areas.get(process.process) {
        Some(area) => Some(area.area),
        None => None,
    }
}

/// The area of an interface with this primary address.
fn area_of(process: &OspfProcess, settings: &OspfSettings, address: Addr) -> Option<u32>
    ensures { result ≡ spec.area_of process.now settings.now address }
{
    let area = area_by_setting(process, settings);
    match area {
        Some(area) => Some(area),
        None => area_by_line(process, address),
    }
}

/// The bandwidth of an interface in kbit/s: that of its block, else that of its type.
fn bandwidth_of(kind: Option<IfType>, interface: &Interface) -> u32
    ensures { result ≡ spec.bandwidth_of kind interface.now }
{
    match interface.bandwidth {
        Some(kbits) => kbits,
        None => match kind {
            Some(kind) => kind.nominal_bandwidth(),
            None => 0,
        },
    }
}

/// A reference bandwidth in Mbit/s over a bandwidth in kbit/s, rounded down; 0 where there is no bandwidth.
fn bandwidth_ratio(mbits: u32, kbits: u32) -> u64
    ensures { result ≡ mbits * 1000 / kbits }
{
    if kbits == 0 {
        return 0;
    }
    u64::from(mbits) * 1000 / u64::from(kbits)
}

/// The cost of leaving by an interface.
fn cost_of(process: &OspfProcess, kind: Option<IfType>, interface: &Interface) -> u16
    ensures { result ≡ spec.cost_of process.now kind interface.now }
{
    let cost = match interface.ospf.cost {
        Some(cost) => u64::from(cost),
        None => bandwidth_ratio(process.reference_bandwidth, bandwidth_of(kind, interface)),
    };
    cost.max(1).min(65_535) as u16
}

/// The network type of an interface: the configured one, else point-to-point on a serial line and broadcast elsewhere.
fn network_of(kind: Option<IfType>, settings: &OspfSettings) -> NetworkType
    ensures { result ≡ spec.network_of kind settings.now }
{
    match settings.network {
        Some(network) => network,
        None => match kind {
            Some(IfType::Serial) => NetworkType::PointToPoint,
            _ => NetworkType::Broadcast,
        },
    }
}

/// HelloInterval: 10 seconds where none is given.
fn hello_of(settings: &OspfSettings) -> u32
    ensures { result ≡ spec.hello_of settings.now }
{
    match settings.hello {
        Some(seconds) => u32::from(seconds),
        None => 10,
    }
}

/// RouterDeadInterval: four times HelloInterval where none is given.
fn dead_of(settings: &OspfSettings) -> u32
    ensures { result ≡ spec.dead_of settings.now }
{
    match settings.dead {
        Some(seconds) => u32::from(seconds),
        None => match settings.hello {
            Some(seconds) => 4 * u32::from(seconds),
            None => 40,
        },
    }
}

/// The OSPF interface of an interface that is up, in an area.
fn ospf_interface(
    process: &OspfProcess,
    id: IfId,
    name: &Name,
    interface: &Interface,
    primary: &IfAddr,
    area: u32,
) -> OspfInterface
    ensures { result ≡ spec.ospf_interface process.now id name.now interface.now primary.now area }
{
    let kind = type_of_name(name);
    let stub = process.stub_areas.get(area);
    OspfInterface {
        id,
        area,
        cost: cost_of(process, kind, interface),
        addr: primary.addr(),
        prefix: primary.prefix(),
        network: network_of(kind, &interface.ospf),
        hello: hello_of(&interface.ospf),
        dead: dead_of(&interface.ospf),
        is_stub: stub.is_some(),
        is_passive: process.is_passive(name),
    }
}

/// The OSPF interface that an interface is, if it is one.
fn interface_on(
    file: &RouterText,
    process: &OspfProcess,
    id: IfId,
    name: &Name,
    interface: &Interface,
) -> Option<OspfInterface>
    ensures { result ≡ spec.interface_on file.now.interfaces process.now id (name.now, interface.now) }
{
    if file.is_down(name) {
        return None;
    }
    match interface.primary {
        None => None,
        Some(primary) => {
            let area = area_of(process, &interface.ospf, primary.addr());
            match area {
                Some(area) => Some(ospf_interface(process, id, name, interface, &primary, area)),
                None => None,
            }
        }
    }
}

/// The OSPF interface that the interface of an index is, if it is one.
fn interface_at(
    router: RouterId,
    file: &RouterText,
    process: &OspfProcess,
    index: usize,
) -> Option<OspfInterface>
    ensures { result ≡ spec.interface_at router file.now.interfaces process.now index }
{
    let found = file.interfaces.at(index);
    match found {
        Some((name, interface)) => {
            interface_on(file, process, IfId { router, index }, name, interface)
        }
        None => None,
    }
}

/// Puts an interface at the end.
fn push(all: &mut Items<OspfInterface>, interface: OspfInterface) -> Result<(), AllocError>
    ensures { OnOk result (all.new ≡ all.old ++ cons_option (Some interface) []) }
{
    // For the proof: that of a push wants each enum within the element named in the function.
    let _network: Option<NetworkType> = None;
    all.push(interface)?;
    Ok(())
}

/// Puts the OSPF interfaces of a process at the end, in the order of declaration.
pub fn add_interfaces(
    all: &mut Items<OspfInterface>,
    router: RouterId,
    file: &RouterText,
    process: &OspfProcess,
) -> Result<(), AllocError>
    ensures { OnOk result (all.new ≡ all.old ++ filter_map (spec.interface_at router file.now.interfaces process.now) (range_with_len 0 (length file.now.interfaces))) }
{
    for index in 0..file.interfaces.len() {
        if let Some(interface) = interface_at(router, file, process, index) {
            push(all, interface)?;
        }
    }
    Ok(())
}

/// Puts the OSPF interfaces of a router at the end.
pub fn add_router(
    all: &mut Items<OspfInterface>,
    net: &Network,
    router: RouterId,
) -> Result<(), AllocError>
    ensures { OnOk result (all.new ≡ all.old ++ spec.interfaces_at net.now router) }
{
    let found = net.router_at(router);
    match found {
        None => Ok(()),
        Some(file) => match &file.ospf {
            Some(process) => add_interfaces(all, router, file, process),
            None => Ok(()),
        },
    }
}

/// The OSPF interfaces of a network, by router, then in the order of declaration. It errs only where memory runs out.
#[tactic(auto, unfolding(crate::specs::Interfaces::ospf_interfaces))]
pub fn ospf_interfaces(alloc: Global, net: &Network) -> Result<Items<OspfInterface>, AllocError>
    ensures { IfOk result (λ all. all ≡ spec.ospf_interfaces net.now) }
{
    let mut all = Items::new(alloc);
    for index in 0..net.routers.len() {
        add_router(&mut all, net, RouterId::at(index))?;
    }
    Ok(all)
}
