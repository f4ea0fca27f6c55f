//! What a way to a prefix outside of the AS costs (RFC 2328 s.2.3 and 16.4).
ghost use Rattle.std.specs.Prelude.{◌≡◌, ◌<◌, ◌^◌};
ghost use Rattle.rc_external.specs.Costs as costs;

use crate::External;
use rc_config::{MetricType, compare_metric_types};
use std::cmp::Ordering;

/// The cost of a way. Any of type 1 is lower than any of type 2; then the metric counts, and then the distance.
#[derive(Clone, Copy)]
pub struct ExternalCost {
    pub metric_type: MetricType,
    /// Of type 1 the distance of the boundary router and the metric together, of type 2 the metric alone.
    pub metric: u32,
    /// Of type 1 it is 0, of type 2 the distance of the boundary router.
    pub distance: u32,
}

/// The cost of a way to a boundary router at a distance, and on to what it sends.
pub(crate) fn cost_over(external: &External, distance: u32) -> ExternalCost
    requires { distance < 2 ^ 27 }
    ensures { result ≡ costs.cost_over external.now distance }
{
    match external.metric_type() {
        MetricType::Type1 => ExternalCost {
            metric_type: MetricType::Type1,
            metric: distance + external.metric(),
            distance: 0,
        },
        MetricType::Type2 => ExternalCost {
            metric_type: MetricType::Type2,
            metric: external.metric(),
            distance,
        },
    }
}

/// External costs, the lower one first (RFC 2328 s.16.4).
#[tactic(auto, using(crate::proofs::CostLaws::three_in_row))]
pub fn compare_costs(a: &ExternalCost, b: &ExternalCost) -> Ordering
    ensures { result ≡ costs.cost_cmp a.now b.now }
{
    let by_type = compare_metric_types(a.metric_type, b.metric_type);
    let by_metric = a.metric.cmp(&b.metric);
    let by_distance = a.distance.cmp(&b.distance);
    by_type.then(by_metric.then(by_distance))
}
