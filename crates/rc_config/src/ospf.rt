//! What a configuration says of OSPF (RFC 2328): the process of a router, and the settings of its interfaces.
ghost use Rattle.std.specs.Prelude.{◌≡◌};
ghost use Rattle.rc_config.specs.Ospf as spec;

use crate::{ByNumber, Mention, MetricType, Named, Numbered};
use rc_base::{Addr, Items, Name};
use std::alloc::Global;

/// The kind of network to which an interface attaches (RFC 2328 s.1.2).
#[derive(Clone, Copy, PartialEq, Eq)]
pub enum NetworkType {
    Broadcast,
    PointToPoint,
}

/// A process and an area of it.
#[derive(Clone, Copy)]
pub struct OspfArea {
    /// The number of the process, from 1 to 65535.
    pub process: u32,
    /// The area ID (RFC 2328 s.3): 0 is the backbone.
    pub area: u32,
}

impl Numbered for OspfArea {
    ghost number = { λ a. a.process };

    fn number(&self) -> u32 {
        self.process
    }
}

/// What the `ip ospf` lines in the block of an interface set, each by its last line.
pub struct OspfSettings {
    /// The cost of sending out of the interface (RFC 2328 s.9), from 1 to 65535.
    pub cost: Option<u16>,
    /// HelloInterval (RFC 2328 C.3), from 1 to 65535 seconds.
    pub hello: Option<u16>,
    /// RouterDeadInterval (RFC 2328 C.3), from 1 to 65535 seconds.
    pub dead: Option<u16>,
    /// The network type.
    pub network: Option<NetworkType>,
    /// The areas to which the lines themselves put the interface, at most one for each process, by the number of the process.
    /// The router need not have these processes.
    pub areas: ByNumber<OspfArea>,
}

/// By a function of its own, so that what holds an interface drops it by one call.
impl Drop for OspfSettings {
    fn drop(self) {
        let OspfSettings {
            cost: _,
            hello: _,
            dead: _,
            network: _,
            areas: _,
        } = self;
    }
}

/// What one `ip ospf` line in the block of an interface says.
#[derive(Clone, Copy)]
pub enum OspfSetting {
    /// `ip ospf cost N`, from 1 to 65535.
    Cost(u16),
    /// `ip ospf hello-interval N`, from 1 to 65535 seconds.
    HelloInterval(u16),
    /// `ip ospf dead-interval N`, from 1 to 65535 seconds.
    DeadInterval(u16),
    /// `ip ospf network broadcast`, or `ip ospf network point-to-point`.
    NetworkType(NetworkType),
    /// `ip ospf P area N`
    Area(OspfArea),
}

impl OspfSettings {
    /// Nothing is set. It takes no memory.
    pub fn new(alloc: Global) -> OspfSettings
        ensures { result ≡ spec.no_settings }
    {
        OspfSettings {
            cost: None,
            hello: None,
            dead: None,
            network: None,
            areas: ByNumber::new(alloc),
        }
    }
}

/// A `network` line: the interfaces whose primary address agrees with this one in the bits whose wildcard bit is 0 are in this
/// area. The ones of a wildcard may stand anywhere.
#[derive(Clone, Copy)]
pub struct OspfNetwork {
    pub address: Addr,
    pub wildcard: Addr,
    pub area: u32,
}

/// A stub area (RFC 2328 s.3.6).
#[derive(Clone, Copy)]
pub struct StubArea {
    /// The area ID, which isn't 0.
    pub area: u32,
    /// Whether its border router sends no summary into it but the default.
    pub no_summary: bool,
}

impl Numbered for StubArea {
    ghost number = { λ s. s.area };

    fn number(&self) -> u32 {
        self.area
    }
}

/// The routes that an AS boundary router redistributes.
#[derive(Clone, Copy)]
pub enum RedistributedSource {
    Connected,
    Static,
    /// Those of BGP in the AS of this number.
    Bgp(u32),
}

/// Routes of one source as AS-external routes (RFC 2328 s.12.4.4).
#[derive(Clone, Copy)]
pub struct Redistribution {
    pub source: RedistributedSource,
    /// From 0 to 16777214, which is below LSInfinity (RFC 2328 appendix B).
    pub metric: Option<u32>,
    pub metric_type: Option<MetricType>,
    /// Whether also routes pass whose length isn't the natural one of their address's class.
    pub subnets: bool,
    /// The route map through which they pass.
    pub route_map: Option<Mention>,
}

/// The default route as an AS-external route.
#[derive(Clone, Copy)]
pub struct DefaultInformation {
    /// Whether it is sent also where the router has none.
    pub always: bool,
    /// Any number: as a metric it is at most 16777214.
    pub metric: Option<u32>,
    pub metric_type: Option<MetricType>,
}

/// What one line in the block of a process says.
#[derive(Clone, Copy)]
pub enum OspfLine {
    /// `router-id A`
    RouterId(Addr),
    /// `network A W area N`
    Network(OspfNetwork),
    /// `passive-interface default`
    PassiveDefault,
    /// `passive-interface IF`, or `no passive-interface IF`. The interface need not be declared.
    Passive { interface: Name, passive: bool },
    /// `auto-cost reference-bandwidth N`, from 1 to 4294967 Mbit/s.
    ReferenceBandwidth(u32),
    /// `area N stub`, or `area N stub no-summary`.
    Stub(StubArea),
    /// `redistribute connected`, `redistribute static` or `redistribute bgp N`, with its options.
    Redistribute(Redistribution),
    /// `default-information originate`, with its options.
    DefaultInformation(DefaultInformation),
}

/// The OSPF process of a router: what the lines of its block say.
pub struct OspfProcess {
    /// The number of the process, from 1 to 65535.
    pub process: u32,
    /// The router ID (RFC 2328 s.1.2), where a line gives one.
    pub router_id: Option<Addr>,
    /// The `network` lines in file order.
    pub networks: Items<OspfNetwork>,
    /// Whether an interface is passive of which no line speaks.
    pub passive_default: bool,
    /// Whether an interface is passive, by the last line that names it. It need not be declared.
    pub passive: Named<bool>,
    /// The bandwidth of cost 1, from 1 to 4294967 Mbit/s.
    pub reference_bandwidth: u32,
    /// The stub areas, by area ID.
    pub stub_areas: ByNumber<StubArea>,
    /// What is redistributed, at most once from each source.
    pub redistributions: Items<Redistribution>,
    /// The default route that is sent, where one is.
    pub default_information: Option<DefaultInformation>,
}

/// By a function of its own, so that what holds one drops it by one call.
impl Drop for OspfProcess {
    fn drop(self) {
        let OspfProcess {
            process: _,
            router_id: _,
            networks: _,
            passive_default: _,
            passive: _,
            reference_bandwidth: _,
            stub_areas: _,
            redistributions: _,
            default_information: _,
        } = self;
    }
}

impl OspfProcess {
    /// A process with no line in its block. It takes no memory.
    pub fn new(alloc: Global, process: u32) -> OspfProcess
        ensures { result ≡ spec.no_lines process }
    {
        OspfProcess {
            process,
            router_id: None,
            networks: Items::new(alloc),
            passive_default: false,
            passive: Named::new(alloc),
            reference_bandwidth: 100,
            stub_areas: ByNumber::new(alloc),
            redistributions: Items::new(alloc),
            default_information: None,
        }
    }

    /// Whether an interface of this name is passive: it forms no adjacency.
    pub fn is_passive(&self, interface: &Name) -> bool
        ensures { result ≡ spec.is_passive self.now interface.now }
    {
        match self.passive.get(interface) {
            Some(passive) => *passive,
            None => self.passive_default,
        }
    }
}
