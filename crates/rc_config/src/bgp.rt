//! What a configuration says of BGP (RFC 4271): the process of a router, its neighbours, and what it redistributes.
ghost use Rattle.std.specs.Prelude.{◌≡◌};
ghost use Rattle.rc_config.specs.Bgp as spec;

use crate::{ByNumber, Direction, Mention, Numbered, Peer, Peering, Settings};
use rc_base::{Addr, Items, Name, Prefix};
use std::alloc::Global;

/// A neighbour. While a file is read it has the settings of its own lines; in a network it has what holds of it in the end.
#[derive(Clone, Copy)]
pub struct Neighbor {
    pub address: Addr,
    pub settings: Settings,
    /// Whether it takes part in IPv4 routing. While a file is read this is not told yet.
    pub is_active: bool,
}

impl Numbered for Neighbor {
    ghost number = { λ n. n.address };

    fn number(&self) -> u32 {
        self.address.bits()
    }
}

/// What one `neighbor` line sets of the neighbour or of the peer group that it is about.
#[derive(Clone, Copy)]
pub enum NeighborSetting {
    /// `remote-as N`
    RemoteAs(u32),
    /// `update-source IF`. The interface need not be declared.
    UpdateSource(Name),
    /// `ebgp-multihop`, or `ebgp-multihop N`.
    EbgpMultihop,
    /// `shutdown`
    Shutdown,
    /// `next-hop-self`
    NextHopSelf,
    /// `default-originate`
    DefaultOriginate,
    /// `send-community`, or `send-community` with `standard` or `both`.
    SendCommunity,
    /// `weight N`
    Weight(u16),
    /// `route-map NAME in`, or `route-map NAME out`.
    RouteMap { map: Mention, direction: Direction },
    /// `prefix-list NAME in`, or `prefix-list NAME out`.
    PrefixList { list: Mention, direction: Direction },
}

impl Neighbor {
    /// The neighbour of this address, of which no line says anything yet.
    pub fn new(address: Addr) -> Neighbor
        ensures { result ≡ spec.fresh address }
    {
        Neighbor {
            address,
            settings: Settings::none(),
            is_active: true,
        }
    }
}

/// What becomes of redistributed routes as BGP paths.
#[derive(Clone, Copy)]
pub struct BgpRedistribution {
    /// Their MULTI_EXIT_DISC (RFC 4271 s.5.1.4), where the line gives one.
    pub metric: Option<u32>,
    /// The route map through which they pass. The file may have no route map of this name.
    pub route_map: Option<Mention>,
}

/// Kinds of OSPF routes.
#[derive(Clone, Copy)]
pub struct OspfKinds {
    /// Those within areas and between them (RFC 2328 s.11), and the prefixes of its interfaces.
    pub internal: bool,
    /// External ones of type 1 (RFC 2328 s.2.3).
    pub external_1: bool,
    /// External ones of type 2.
    pub external_2: bool,
}

/// Routes of the OSPF process of a number that are redistributed into BGP. The router need not have this process.
#[derive(Clone, Copy)]
pub struct OspfRedistribution {
    pub process: u32,
    pub kinds: OspfKinds,
    pub redistribution: BgpRedistribution,
}

impl Numbered for OspfRedistribution {
    ghost number = { λ o. o.process };

    fn number(&self) -> u32 {
        self.process
    }
}

/// What is redistributed into BGP, at most once from each source.
#[derive(Drop)]
pub struct BgpRedistributions {
    /// Connected routes.
    pub connected: Option<BgpRedistribution>,
    /// Static routes.
    pub static_routes: Option<BgpRedistribution>,
    /// The routes of OSPF processes, by the number of the process.
    pub ospf: ByNumber<OspfRedistribution>,
}

/// How many paths of one prefix may carry its packets, from 1 to 32: the best path, and others that are as good.
#[derive(Clone, Copy)]
pub struct MaximumPaths {
    /// Where the best path is external.
    pub external: u8,
    /// Where the best path is internal.
    pub internal: u8,
}

/// What one line in the block of a process says.
#[derive(Clone, Copy)]
pub enum BgpLine {
    /// `bgp router-id A`
    RouterId(Addr),
    /// `maximum-paths N`, N from 1 to 32.
    MaximumExternalPaths(u8),
    /// `maximum-paths ibgp N`, N from 1 to 32.
    MaximumInternalPaths(u8),
    /// `network A`, or `network A mask M`.
    Network(Prefix),
    /// `neighbor A ..`, or `neighbor NAME ..` of a peer group that was declared.
    Setting {
        whom: Peer,
        setting: NeighborSetting,
    },
    /// `neighbor A activate`, or `no neighbor A activate`, or the same of a peer group.
    Active {
        whom: Peer,
        is_active: bool,
    },
    /// `neighbor NAME peer-group`
    GroupDeclared(Name),
    /// `neighbor A peer-group NAME`, of a peer group that was declared.
    MemberOf {
        address: Addr,
        group: Name,
    },
    /// `no bgp default ipv4-unicast`
    InactiveByDefault,
    /// `redistribute connected ..`
    RedistributeConnected(BgpRedistribution),
    /// `redistribute static ..`
    RedistributeStatic(BgpRedistribution),
    /// `redistribute ospf N ..`
    RedistributeOspf(OspfRedistribution),
}

/// The BGP process of a router: what the lines of its block say.
pub struct BgpProcess {
    /// The number of the router's AS, from 1 on.
    pub asn: u32,
    /// The BGP identifier (RFC 4271 s.4.2), where a line gives one.
    pub router_id: Option<Addr>,
    /// 1 of each kind where no line gives a number.
    pub maximum_paths: MaximumPaths,
    /// The prefixes of the `network` lines in file order, the same one twice too.
    pub networks: Items<Prefix>,
    /// The neighbours of which a line sets something or which a line makes members of a group, by address. An `activate` line
    /// alone makes none.
    pub neighbors: ByNumber<Neighbor>,
    pub redistributions: BgpRedistributions,
    /// The peer groups and which neighbours are active. In a network, whose neighbours are settled, it says nothing.
    pub peering: Peering,
}

/// By a function of its own, so that what holds one drops it by one call.
impl Drop for BgpProcess {
    fn drop(self) {
        let BgpProcess {
            asn: _,
            router_id: _,
            maximum_paths: _,
            networks: _,
            neighbors: _,
            redistributions: _,
            peering: _,
        } = self;
    }
}

impl BgpProcess {
    /// The process of an AS with no line in its block. It takes no memory.
    pub fn new(alloc: Global, asn: u32) -> BgpProcess
        ensures { result ≡ spec.no_lines asn }
    {
        BgpProcess {
            asn,
            router_id: None,
            maximum_paths: MaximumPaths {
                external: 1,
                internal: 1,
            },
            networks: Items::new(alloc),
            neighbors: ByNumber::new(alloc),
            redistributions: BgpRedistributions {
                connected: None,
                static_routes: None,
                ospf: ByNumber::new(alloc),
            },
            peering: Peering::new(alloc),
        }
    }
}
