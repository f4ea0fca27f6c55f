//! What a `set` line of a route map changes.
ghost use Rattle.std.specs.Prelude.{◌≡◌};
ghost use Rattle.rc_config.specs.Sets.{with_set};

use rc_config::{CommunityChange, SetLine, Sets};

/// Puts one more line, which counts in place of an earlier one of the same opening. It takes no memory.
pub(crate) fn put_line(sets: &mut Sets, line: SetLine)
    ensures { sets.new ≡ with_set sets.old line }
{
    match line {
        SetLine::LocalPreference(number) => sets.local_preference = Some(number),
        SetLine::Metric(number) => sets.metric = Some(number),
        SetLine::MetricType(metric_type) => sets.metric_type = Some(metric_type),
        SetLine::Weight(number) => sets.weight = Some(number),
        SetLine::Origin(origin) => sets.origin = Some(origin),
        SetLine::Communities {
            communities,
            additive,
        } => {
            sets.communities = if additive {
                CommunityChange::Add(communities)
            } else {
                CommunityChange::Replace(communities)
            }
        }
        SetLine::Prepend(numbers) => sets.prepended = numbers,
    }
}
