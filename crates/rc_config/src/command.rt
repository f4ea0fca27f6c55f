//! What one line of a configuration says.
use crate::{Action, BgpLine, InterfaceLine, ListLine, MapLine, OspfLine, StaticRoute};
use rc_base::Name;

/// What one line of a configuration says. A line of a part, as an interface or a process, is a value of that part's own,
/// beside the name or the number of the part: only the part knows its kinds of lines.
#[derive(Drop)]
pub enum Command {
    /// A line that says nothing here.
    Passed,
    /// A line of a form that has no effect, as `remark ..` or `neighbor A send-community extended`. Other than a line that is passed over,
    /// it opens no block.
    Remark,
    /// `hostname NAME`, with the number of its line.
    Hostname {
        name: Name,
        line: u64,
    },
    /// `interface IF`, with the number of its line: the block of a new interface, or that of a known one again.
    Interface {
        name: Name,
        line: u64,
    },
    /// A line in the block of an interface.
    InterfaceLine {
        interface: Name,
        line: InterfaceLine,
    },
    /// `ip route A M TARGET ..`
    StaticRoute {
        route: StaticRoute,
    },
    /// A line of the list of a name, or one that opens it.
    ListLine {
        list: Name,
        line: ListLine,
    },
    /// `route-map NAME permit N`, or `route-map NAME deny N`, N from 0 to 65535: the block of a new entry, or that of a known
    /// one again.
    MapOpened {
        map: Name,
        number: u32,
        action: Action,
    },
    /// A line in the block of an entry of a route map.
    MapLine {
        map: Name,
        number: u32,
        line: MapLine,
    },
    /// `router ospf N`, N from 1 to 65535: the block of the router's process, of a new one or of the known one again.
    OspfOpened {
        process: u32,
    },
    /// A line in the block of the router's OSPF process.
    OspfLine {
        line: OspfLine,
    },
    /// `router bgp N`, N from 1 on: the block of the router's process in this AS, of a new one or of the known one again.
    BgpOpened {
        asn: u32,
    },
    /// A line in the block of the router's BGP process.
    BgpLine {
        line: BgpLine,
    },
    /// `address-family ipv4`, or `address-family ipv4 unicast`: the lines up to its end are the process's too.
    FamilyOpened,
    /// `address-family ipv6 ..`: the lines up to its end are passed over.
    OtherFamilyOpened,
    /// `exit-address-family`: the block of the process goes on.
    FamilyClosed,
}
