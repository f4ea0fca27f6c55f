//! The forms of lines: what a line may say, by the words that it begins with.
//!
//! There is one for each form opening of each kind of block. Where a choice of words follows at once, each of them makes an
//! opening of its own, and so a form.

/// The form of a line, with the grammar that reads it.
#[derive(Clone, Copy)]
pub enum Form {
    General(GeneralForm),
    Interface(InterfaceForm),
    AccessList(AccessListForm),
    Policy(PolicyForm),
    MapEntry(MapEntryForm),
    Ospf(OspfForm),
    Bgp(BgpForm),
}

/// The forms of host names and static routes, and of the line that opens the block of an interface.
#[derive(Clone, Copy)]
pub enum GeneralForm {
    /// `hostname` with no indent.
    Hostname,
    /// `interface` with no indent.
    Interface,
    /// `ip route` with no indent.
    StaticRoute,
}

/// The forms of lines in the block of an interface.
#[derive(Clone, Copy)]
pub enum InterfaceForm {
    /// `ip address` under `interface`.
    IpAddress,
    /// `shutdown` under `interface`.
    Shutdown,
    /// `no shutdown` under `interface`.
    NoShutdown,
    /// `bandwidth` under `interface`.
    Bandwidth,
    /// `ip access-group` under `interface`.
    AccessGroup,
    /// `ip ospf cost` under `interface`.
    OspfCost,
    /// `ip ospf hello-interval` under `interface`.
    OspfHelloInterval,
    /// `ip ospf dead-interval` under `interface`.
    OspfDeadInterval,
    /// `ip ospf network` under `interface`.
    OspfNetworkType,
    /// `ip ospf network broadcast` under `interface`.
    OspfNetworkBroadcast,
    /// `ip ospf network point-to-point` under `interface`.
    OspfNetworkPointToPoint,
    /// `ip ospf * area` under `interface`.
    OspfArea,
}

/// The forms of access lists.
#[derive(Clone, Copy)]
pub enum AccessListForm {
    /// `access-list` with no indent.
    Numbered,
    /// `ip access-list standard` with no indent.
    Standard,
    /// `ip access-list extended` with no indent.
    Extended,
    /// `permit` under `ip access-list`.
    Permit,
    /// `deny` under `ip access-list`.
    Deny,
    /// `remark` under `ip access-list`.
    Remark,
}

/// The forms of prefix lists and community lists, and of the line that opens the block of an entry of a route map.
#[derive(Clone, Copy)]
pub enum PolicyForm {
    /// `ip prefix-list` with no indent.
    PrefixList,
    /// `ip community-list` with no indent.
    CommunityList,
    /// `ip community-list standard` with no indent.
    StandardCommunityList,
    /// `route-map` with no indent.
    RouteMap,
}

/// The forms of lines in the block of an entry of a route map.
#[derive(Clone, Copy)]
pub enum MapEntryForm {
    /// `match ip address` under `route-map`.
    MatchAddress,
    /// `match ip address prefix-list` under `route-map`.
    MatchPrefixList,
    /// `match community` under `route-map`.
    MatchCommunity,
    /// `set local-preference` under `route-map`.
    SetLocalPreference,
    /// `set metric` under `route-map`.
    SetMetric,
    /// `set metric-type type-1` under `route-map`.
    SetMetricType1,
    /// `set metric-type type-2` under `route-map`.
    SetMetricType2,
    /// `set weight` under `route-map`.
    SetWeight,
    /// `set origin` under `route-map`.
    SetOrigin,
    /// `set origin igp` under `route-map`.
    SetOriginIgp,
    /// `set origin incomplete` under `route-map`.
    SetOriginIncomplete,
    /// `set community` under `route-map`.
    SetCommunity,
    /// `set as-path prepend` under `route-map`.
    PrependAsPath,
}

/// The forms of the OSPF process of a router.
#[derive(Clone, Copy)]
pub enum OspfForm {
    /// `router ospf` with no indent.
    RouterOspf,
    /// `router-id` under `router ospf`.
    RouterId,
    /// `network` under `router ospf`.
    Network,
    /// `area * stub` under `router ospf`.
    StubArea,
    /// `passive-interface` under `router ospf`.
    PassiveInterface,
    /// `no passive-interface` under `router ospf`.
    NoPassiveInterface,
    /// `passive-interface default` under `router ospf`.
    PassiveInterfaceDefault,
    /// `auto-cost reference-bandwidth` under `router ospf`.
    ReferenceBandwidth,
    /// `redistribute connected` under `router ospf`.
    RedistributeConnected,
    /// `redistribute static` under `router ospf`.
    RedistributeStatic,
    /// `redistribute bgp` under `router ospf`.
    RedistributeBgp,
    /// `default-information originate` under `router ospf`.
    DefaultInformationOriginate,
}

/// The forms of the BGP process of a router.
#[derive(Clone, Copy)]
pub enum BgpForm {
    /// `router bgp` with no indent.
    RouterBgp,
    /// `bgp router-id` under `router bgp`.
    RouterId,
    /// `maximum-paths` under `router bgp`.
    MaximumPaths,
    /// `maximum-paths ibgp` under `router bgp`.
    MaximumPathsIbgp,
    /// `network` under `router bgp`.
    Network,
    /// `neighbor * remote-as` under `router bgp`.
    NeighborRemoteAs,
    /// `neighbor * update-source` under `router bgp`.
    NeighborUpdateSource,
    /// `neighbor * ebgp-multihop` under `router bgp`.
    NeighborEbgpMultihop,
    /// `neighbor * next-hop-self` under `router bgp`.
    NeighborNextHopSelf,
    /// `neighbor * shutdown` under `router bgp`.
    NeighborShutdown,
    /// `neighbor * default-originate` under `router bgp`.
    NeighborDefaultOriginate,
    /// `neighbor * activate` under `router bgp`.
    NeighborActivate,
    /// `no neighbor * activate` under `router bgp`.
    NoNeighborActivate,
    /// `neighbor * send-community` under `router bgp`.
    NeighborSendCommunity,
    /// `neighbor * route-map` under `router bgp`.
    NeighborRouteMap,
    /// `neighbor * prefix-list` under `router bgp`.
    NeighborPrefixList,
    /// `neighbor * weight` under `router bgp`.
    NeighborWeight,
    /// `neighbor * peer-group` under `router bgp`.
    NeighborPeerGroup,
    /// `no bgp default ipv4-unicast` under `router bgp`.
    NoDefaultIpv4Unicast,
    /// `redistribute connected` under `router bgp`.
    RedistributeConnected,
    /// `redistribute static` under `router bgp`.
    RedistributeStatic,
    /// `redistribute ospf` under `router bgp`.
    RedistributeOspf,
    /// `address-family ipv4`, also with `unicast` behind it, under `router bgp`.
    AddressFamilyIpv4,
    /// `address-family ipv6` under `router bgp`.
    AddressFamilyIpv6,
    /// `exit-address-family` under `address-family`.
    ExitAddressFamily,
}
