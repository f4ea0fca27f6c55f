//! What one line of a route map says (IOS `match` and `set`).
use crate::MetricType;
use rc_base::{Communities, Items, Name, Origin};

/// The openings of `match` lines. Each makes a condition of its own.
#[derive(Clone, Copy)]
pub enum MatchKind {
    /// `match ip address`: standard access lists, which test the network address of the route.
    AccessList,
    /// `match ip address prefix-list`
    PrefixList,
    /// `match community`
    CommunityList,
}

/// A `set` line.
#[derive(Drop)]
pub enum SetLine {
    /// `set local-preference` (RFC 4271 s.5.1.5)
    LocalPreference(u32),
    /// `set metric`: the metric of a route, of a BGP path its MULTI_EXIT_DISC (RFC 4271 s.5.1.4)
    Metric(u32),
    /// `set metric-type` (RFC 2328 s.2.3)
    MetricType(MetricType),
    /// `set weight`
    Weight(u16),
    /// `set origin` (RFC 4271 s.5.1.1)
    Origin(Origin),
    /// `set community` (RFC 1997), `additive` where the communities are joined to those of the route.
    Communities {
        communities: Communities,
        additive: bool,
    },
    /// `set as-path prepend`: one to ten numbers of AS, from 1 on, in the order written (RFC 4271 s.5.1.2)
    Prepend(Items<u32>),
}

/// What one line in a block of a route map says.
#[derive(Drop)]
pub enum MapLine {
    /// A `match` line with its names and its number.
    Match {
        kind: MatchKind,
        names: Items<Name>,
        line: u64,
    },
    /// A `set` line.
    Set(SetLine),
}
