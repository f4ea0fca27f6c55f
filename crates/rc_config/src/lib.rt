//! The model that the lines of a configuration make: a file's host name, interfaces, static routes, access lists, routing
//! policy, OSPF process and BGP process, and the network of all files.
//!
//! It stands on the names and addresses of rc_base. The layer above knows a file's model as
//! what `after` makes of its commands one by one, a map as its list of names and values in the order of first mention,
//! things by number as their list, and a router or an interface by its index in such a list. The calls that put a command
//! into a model are those of rc_commands, so that all that only reads a network needn't wait for them.
//!
//! The crate goes one way: what words say (`class`, `action_word`, `direction_word`, `down`, `if_type`), values by number and
//! by name (`by_number`, `named`); the parts of a file, each with what its lines say: `interface`, `static_route`, the lists
//! (`access_list` with its `ports`, `prefix_list`, `community_list`, together in `lists`), `route_map` (`map_line`, `sets`),
//! `ospf`, `bgp` with what `neighbor` lines set (`settings`) and the peer groups (`peering`); where a line stands (`context`)
//! and what it says (`command`); the file that these make (`router_text`), and the network of all files (`routers`, `network`),
//! whose neighbours have what holds of them in the end, and which may be cut between interfaces.
#![tactic(auto)]

mod access_list;
mod action_word;
mod bgp;
mod by_number;
mod class;
mod command;
mod community_list;
mod context;
mod direction_word;
mod down;
mod if_type;
mod interface;
mod lists;
mod map_line;
mod named;
mod network;
mod ospf;
mod peering;
mod ports;
mod prefix_list;
mod route_map;
mod router_text;
mod routers;
mod sets;
mod settings;
mod static_route;

pub use access_list::{
    AccessList, AccessListKind, AccessListLine, Action, AddressTest, FurtherTest, PortTest,
    ProtocolTest,
};
pub use action_word::action_of;
pub use bgp::{
    BgpLine, BgpProcess, BgpRedistribution, BgpRedistributions, MaximumPaths, Neighbor,
    NeighborSetting, OspfKinds, OspfRedistribution,
};
pub use by_number::{ByNumber, Numbered};
pub use class::natural_len;
pub use command::Command;
pub use community_list::{CommunityLine, CommunityList};
pub use context::{Context, OpenBlock};
pub use direction_word::direction_of;
pub use if_type::{IfType, type_of_name};
pub use interface::{Direction, IfAddr, Interface, InterfaceLine};
pub use lists::{ListLine, Lists};
pub use map_line::{MapLine, MatchKind, SetLine};
pub use named::Named;
pub use network::{Network, Pair};
pub use ospf::{
    DefaultInformation, NetworkType, OspfArea, OspfLine, OspfNetwork, OspfProcess, OspfSetting,
    OspfSettings, RedistributedSource, Redistribution, StubArea,
};
pub use peering::{Activity, Group, Member, Peer, Peering};
pub use ports::Ports;
pub use prefix_list::{PrefixLine, PrefixList};
pub use route_map::{MapEntry, Mention, RouteMap};
pub use router_text::{HostLine, RouterText};
pub use routers::Routers;
pub use sets::{CommunityChange, MetricType, Sets, compare_metric_types};
pub use settings::Settings;
pub use static_route::{StaticRoute, Target};
