//! What interfaces have in common that can be adjacent.
ghost use Rattle.std.specs.Prelude.{◌≡◌};
ghost use Rattle.rc_link_state.specs.Grouping as spec;

use rc_base::Prefix;
use rc_config::NetworkType;
use rc_ospf_interfaces::OspfInterface;

/// What two interfaces have to agree on to be adjacent (RFC 2328, section 10.5): the prefix of their primary addresses, the area and
/// whether it is a stub area, the network type and the intervals.
#[derive(Clone, Copy, PartialEq, Eq, PartialOrd, Ord)]
pub(crate) struct Segment {
    pub prefix: Prefix,
    pub area: u32,
    pub hello: u32,
    pub dead: u32,
    pub is_stub: bool,
    /// Whether its network type is broadcast.
    pub is_broadcast: bool,
}

/// The segment of an interface.
pub(crate) fn segment_of(interface: &OspfInterface) -> Segment
    ensures { result ≡ spec.segment_of interface.now }
{
    Segment {
        prefix: interface.prefix,
        area: interface.area,
        hello: interface.hello,
        dead: interface.dead,
        is_stub: interface.is_stub,
        is_broadcast: interface.network == NetworkType::Broadcast,
    }
}
