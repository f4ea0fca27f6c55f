//! What a route map reads and sets of a route.
use rc_as_path::AsPath;
use rc_base::{Communities, Origin, Prefix};
use rc_config::MetricType;

/// The attributes of a route (RFC 4271 s.5, RFC 1997) that a route map may read or set.
#[derive(Drop)]
pub struct Attrs {
    pub prefix: Prefix,
    /// The metric, of a BGP path its MULTI_EXIT_DISC (RFC 4271 s.5.1.4).
    pub metric: u32,
    /// How the metric counts in OSPF (RFC 2328 s.2.3).
    pub metric_type: MetricType,
    /// LOCAL_PREF (RFC 4271 s.5.1.5).
    pub local_preference: u32,
    /// The weight, which no other router sees.
    pub weight: u32,
    /// ORIGIN (RFC 4271 s.5.1.1).
    pub origin: Origin,
    /// AS_PATH (RFC 4271 s.5.1.2), the nearest AS first.
    pub as_path: AsPath,
    /// COMMUNITIES (RFC 1997).
    pub communities: Communities,
}
