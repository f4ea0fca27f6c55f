//! BGP paths.

ghost use Rattle.std.specs.Prelude.{◌≡◌, ◌↔◌, IfOk, IsTrue};
ghost use Rattle.std.specs.Ordering.{nat_cmp};
ghost use Rattle.rc_route.specs.Paths.{for_prefix, path_source_rank};

use rc_as_path::AsPath;
use rc_base::{Addr, Communities, Origin, Prefix, RouterId};
use std::alloc::AllocError;
use std::cmp::Ordering;

/// How a router came to a path. Of equal paths that it originates itself the one that stands first is preferred.
#[derive(Clone, Copy, PartialEq, Eq, PartialOrd, Ord)]
pub enum PathSource {
    /// A line `network`.
    Network,
    /// Redistribution of a connected route.
    Connected,
    /// Redistribution of a static route.
    Static,
    /// Redistribution of an OSPF route.
    Ospf,
    /// A peer in another AS.
    External,
    /// A peer in the router's own AS.
    Internal,
}

/// A BGP path with its attributes (RFC 4271 s.5, RFC 1997), in one piece: as it is told and heard. What is dear to compare comes last.
#[derive(PartialEq, Eq)]
pub struct BgpPath {
    pub prefix: Prefix,
    /// NEXT_HOP (RFC 4271 s.5.1.3), 0 where the router originates the path.
    pub next_hop: Addr,
    /// MULTI_EXIT_DISC (RFC 4271 s.5.1.4).
    pub med: u32,
    /// LOCAL_PREF (RFC 4271 s.5.1.5).
    pub local_preference: u32,
    /// The weight, which no other router sees.
    pub weight: u32,
    /// The BGP identifier of the sender, 0 where the router originates the path.
    pub sender_id: Addr,
    /// The address of the sender on the session, 0 where the router originates the path.
    pub neighbor: Addr,
    /// The metric of the route to the next hop, 0 where the router originates the path.
    pub igp_metric: u32,
    /// ORIGIN (RFC 4271 s.5.1.1).
    pub origin: Origin,
    pub source: PathSource,
    /// The router that sent the path, or that originates it.
    pub sender: RouterId,
    /// COMMUNITIES (RFC 1997).
    pub communities: Communities,
    /// AS_PATH (RFC 4271 s.5.1.2), the nearest AS first. Paths of one origin share it.
    pub as_path: AsPath,
}

/// By a function of its own, so that what holds paths drops each by one call.
impl Drop for BgpPath {
    fn drop(self) {
        let BgpPath {
            prefix: _,
            next_hop: _,
            med: _,
            local_preference: _,
            weight: _,
            sender_id: _,
            neighbor: _,
            igp_metric: _,
            origin: _,
            source: _,
            sender: _,
            communities: _,
            as_path: _,
        } = self;
    }
}

impl BgpPath {
    /// The path again, which shares the AS path and the communities of this one. It takes no memory, and errs only where as many
    /// hold these as can be counted.
    pub fn copy(&self) -> Result<BgpPath, AllocError>
        ensures { IfOk result (λ copied. copied ≡ self.now) }
    {
        let communities = self.communities.share()?;
        let as_path = self.as_path.share()?;
        Ok(BgpPath {
            prefix: self.prefix,
            next_hop: self.next_hop,
            med: self.med,
            local_preference: self.local_preference,
            weight: self.weight,
            sender_id: self.sender_id,
            neighbor: self.neighbor,
            igp_metric: self.igp_metric,
            origin: self.origin,
            source: self.source,
            sender: self.sender,
            communities,
            as_path,
        })
    }

    /// Whether this path is another one but for the prefix. What mostly differs is asked first.
    pub fn is_like(&self, other: &BgpPath) -> bool
        ensures { IsTrue result ↔ (for_prefix other.now.prefix self.now ≡ other.now) }
    {
        self.next_hop == other.next_hop
            && self.med == other.med
            && self.local_preference == other.local_preference
            && self.weight == other.weight
            && self.sender_id == other.sender_id
            && self.neighbor == other.neighbor
            && self.igp_metric == other.igp_metric
            && self.origin == other.origin
            && self.source == other.source
            && self.sender == other.sender
            && self.communities == other.communities
            && self.as_path == other.as_path
    }
}

/// Sources of paths in the order of preference among equal paths that a router originates, which is that of `PathSource` too.
pub fn compare_path_sources(a: PathSource, b: PathSource) -> Ordering
    ensures { result ≡ nat_cmp (path_source_rank a) (path_source_rank b) }
{
    a.cmp(&b)
}
