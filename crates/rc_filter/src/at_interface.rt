//! Access groups at the interfaces of a network.
ghost use Rattle.std.specs.Prelude.{◌≡◌};
ghost use Rattle.rc_filter.specs.Groups.{passes_at};

use crate::passes;
use rc_base::{Header, IfId};
use rc_config::{Direction, Network};

/// Whether an interface lets a header pass in a direction, by its access group there and the lists of its router, also
/// while it is down. An interface that the network doesn't have lets everything pass.
pub fn passes_at(network: &Network, interface: IfId, direction: Direction, header: &Header) -> bool
    ensures { result ≡ passes_at network.now direction header.now interface }
{
    let Some(router) = network.router_at(interface.router) else {
        return true;
    };
    match router.interfaces.at(interface.index) {
        Some((_, block)) => passes(&router.lists.access_lists, block.group(direction), header),
        None => true,
    }
}
