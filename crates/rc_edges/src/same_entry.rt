//! Positions of a router at which the same packets enter.
ghost use Rattle.std.specs.Prelude.{◌≡◌};
ghost use Rattle.std.specs.Option.{option_copied};
ghost use Rattle.rc_edges.specs.Likes as spec;

use rc_base::{IfId, Name, Pos};
use rc_config::{Direction, Network};

/// The inbound access group of an interface.
fn group_in<'a>(net: &'a Network, interface: &IfId) -> Option<&'a Name>
    ensures { option_copied result ≡ spec.group_in net.now interface.now }
{
    let Some(router) = net.router_at(interface.router) else {
        return None;
    };
    match router.interfaces.at(interface.index) {
        Some((_, block)) => block.group(Direction::In),
        None => None,
    }
}

/// Whether two groups are one.
fn same_group(one: Option<&Name>, other: Option<&Name>) -> bool
    ensures { result ≡ spec.same_group (option_copied one.entry) (option_copied other.entry) }
{
    match one {
        Some(one) => match other {
            Some(other) => one.as_bytes() == other.as_bytes(),
            None => false,
        },
        None => other.is_none(),
    }
}

/// Whether two positions are of one router, and the same packets enter there and leave it: the same position, or interfaces with one
/// inbound group.
pub(crate) fn is_like(net: &Network, one: &Pos, other: &Pos) -> bool
    ensures { result ≡ spec.is_like net.now one.now other.now }
{
    match one {
        Pos::Own(router) => match other {
            Pos::Own(same) => *router == *same,
            Pos::Entering(_) => false,
        },
        Pos::Entering(interface) => match other {
            Pos::Own(_) => false,
            Pos::Entering(second) => {
                interface.router == second.router
                    && same_group(group_in(net, interface), group_in(net, second))
            }
        },
    }
}
