//! What an entry of a route map sets.
ghost use Rattle.std.specs.Prelude.{◌≡◌};
ghost use Rattle.std.specs.Ordering.{nat_cmp};
ghost use Rattle.rc_config.specs.Sets.{metric_type_number, no_sets};

use rc_base::{Communities, Items, Origin};
use std::alloc::Global;
use std::cmp::Ordering;

/// How the metric of an external route counts in OSPF (RFC 2328 s.2.3), the preferred type first.
#[derive(Clone, Copy, PartialEq, Eq, PartialOrd, Ord)]
pub enum MetricType {
    /// In the units of the costs within OSPF: both are summed.
    Type1,
    /// Greater than any cost within OSPF.
    Type2,
}

/// Types of external metrics, type 1 before type 2, which is the derived order too.
pub fn compare_metric_types(a: MetricType, b: MetricType) -> Ordering
    ensures { result ≡ nat_cmp (metric_type_number a) (metric_type_number b) }
{
    a.cmp(&b)
}

/// What becomes of the communities of a route (RFC 1997).
#[derive(Drop)]
pub enum CommunityChange {
    /// They stay.
    Keep,
    /// The route has these instead.
    Replace(Communities),
    /// The route has these too.
    Add(Communities),
}

/// What an entry of a route map sets: of each opening the last line, where there is one.
#[derive(Drop)]
pub struct Sets {
    /// LOCAL_PREF (RFC 4271 s.5.1.5).
    pub local_preference: Option<u32>,
    /// The metric, of a BGP path its MULTI_EXIT_DISC (RFC 4271 s.5.1.4).
    pub metric: Option<u32>,
    pub metric_type: Option<MetricType>,
    /// The weight of a BGP path, which no other router sees.
    pub weight: Option<u16>,
    /// ORIGIN (RFC 4271 s.5.1.1).
    pub origin: Option<Origin>,
    pub communities: CommunityChange,
    /// One to ten numbers of AS that are put before the AS path, in their order, or none.
    pub prepended: Items<u32>,
}

impl Sets {
    /// Nothing is set. It takes no memory.
    pub fn new(alloc: Global) -> Sets
        ensures { result ≡ no_sets }
    {
        Sets {
            local_preference: None,
            metric: None,
            metric_type: None,
            weight: None,
            origin: None,
            communities: CommunityChange::Keep,
            prepended: Items::new(alloc),
        }
    }
}
