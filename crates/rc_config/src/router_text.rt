//! The model of a file.
ghost use Rattle.std.specs.Prelude.{◌≡◌};
ghost use Rattle.rc_config.specs.Lawful.{HasLawfulBgp, HasLawfulInterfaces, HasLawfulLists, HasLawfulOspf, HasLawfulRoutes};
ghost use Rattle.rc_config.specs.Update.{empty};

use crate::{BgpProcess, Interface, Lists, Named, OspfProcess, RouteMap, StaticRoute};
use rc_base::{Items, Name};
use std::alloc::Global;

/// A host name, and the number of the line that gives it.
#[derive(Clone, Copy)]
pub struct HostLine {
    pub name: Name,
    pub line: u64,
}

/// What the lines of a file say of its router.
pub struct RouterText {
    /// The host name, where a line gives one.
    pub host: Option<HostLine>,
    /// The interfaces in the order of declaration.
    pub interfaces: Named<Interface>,
    /// The static routes in file order, all of them: several to one prefix, and one that is written twice.
    pub static_routes: Items<StaticRoute>,
    /// The access lists, prefix lists and community lists.
    pub lists: Lists,
    /// The route maps in the order of first mention. A route map is there where a line opens an entry of it, and not where it
    /// is only named elsewhere.
    pub route_maps: Named<RouteMap>,
    /// The OSPF process, where a line opens its block.
    pub ospf: Option<OspfProcess>,
    /// The BGP process, likewise.
    pub bgp: Option<BgpProcess>,
}

/// By a function of its own, so that what holds a model drops it by one call.
impl Drop for RouterText {
    fn drop(self) {
        let RouterText {
            host: _,
            interfaces: _,
            static_routes: _,
            lists: _,
            route_maps: _,
            ospf: _,
            bgp: _,
        } = self;
    }
}

impl RouterText {
    /// The model of a file with no line. It takes no memory.
    pub fn new(alloc: Global) -> RouterText
        ensures value { result ≡ empty }
        ensures lawful { HasLawfulInterfaces result }
        ensures routes { HasLawfulRoutes result }
        ensures lists { HasLawfulLists result }
        ensures ospf { HasLawfulOspf result }
        ensures bgp { HasLawfulBgp result }
    {
        RouterText {
            host: None,
            interfaces: Named::new(alloc),
            static_routes: Items::new(alloc),
            lists: Lists::new(alloc),
            route_maps: Named::new(alloc),
            ospf: None,
            bgp: None,
        }
    }
}
