//! What the decision reads of a path.
ghost use Rattle.std.specs.Prelude.{◌≡◌};
ghost use Rattle.rc_bgp_decide.specs.Decision.{standing};

use rc_base::{Addr, Origin};
use rc_route::{BgpPath, KeptPath, PathSource};

/// What the decision reads of a path (RFC 4271 s.9.1.2.2). It can be had before the path is built.
#[derive(Clone, Copy)]
pub struct Standing {
    /// The weight, which no other router sees. The highest is preferred.
    pub weight: u32,
    /// LOCAL_PREF (RFC 4271 s.5.1.5). The highest is preferred.
    pub local_preference: u32,
    /// MULTI_EXIT_DISC (RFC 4271 s.5.1.4). It counts among paths of one first AS alone.
    pub med: u32,
    /// The metric of the route to the next hop.
    pub igp_metric: u32,
    /// The BGP identifier of the sender.
    pub sender_id: Addr,
    /// The address of the sender on the session.
    pub neighbor: Addr,
    /// How many numbers the AS path has.
    pub path_length: usize,
    /// The first AS of the AS path, the nearest one.
    pub first_as: Option<u32>,
    /// ORIGIN (RFC 4271 s.5.1.1).
    pub origin: Origin,
    /// How the router came to the path.
    pub source: PathSource,
}

impl Standing {
    /// The standing of a path.
    pub fn of(path: &KeptPath) -> Standing
        ensures { result ≡ standing path.now }
    {
        Standing::of_whole(path.like())
    }

    /// That of a path in one piece: its prefix doesn't count.
    fn of_whole(path: &BgpPath) -> Standing
        ensures { result ≡ standing path.now }
    {
        Standing {
            weight: path.weight,
            local_preference: path.local_preference,
            med: path.med,
            igp_metric: path.igp_metric,
            sender_id: path.sender_id,
            neighbor: path.neighbor,
            path_length: path.as_path.len(),
            first_as: path.as_path.first(),
            origin: path.origin,
            source: path.source,
        }
    }
}
