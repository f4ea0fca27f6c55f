//! The names of routers and interfaces in a network.
ghost use Rattle.std.specs.Prelude.{◌≡◌};
ghost use Rattle.rc_report.specs.RouteText.{interface_name, router_name};

use rc_base::{IfId, RouterId};
use rc_config::Network;

/// The host name of a router, empty where the network has none of this index.
pub(crate) fn router_name(net: &Network, router: RouterId) -> &[u8]
    ensures { result.now ≡ router_name net.now router }
{
    let found = net.routers.at(router.index());
    match found {
        Some((name, _)) => name.as_bytes(),
        None => &[],
    }
}

/// The name of an interface, empty where the network has none of this index.
pub(crate) fn interface_name(net: &Network, interface: IfId) -> &[u8]
    ensures { result.now ≡ interface_name net.now interface }
{
    let found = net.interface_at(interface);
    match found {
        Some((name, _)) => name.as_bytes(),
        None => &[],
    }
}
