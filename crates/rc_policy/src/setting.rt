//! What the sets of an entry make of a route.
ghost use Rattle.std.specs.Prelude.{◌≡◌, IfOk};
ghost use Rattle.rc_policy.specs.Policy.{communities_after, with_sets};

use crate::Attrs;
use rc_base::Communities;
use rc_config::{CommunityChange, Sets};
use std::alloc::{AllocError, Global};

/// The communities after a change.
fn with_change(
    alloc: Global,
    change: &CommunityChange,
    communities: Communities,
) -> Result<Communities, AllocError>
    ensures { IfOk result (λ made. made ≡ communities_after change.now communities) }
{
    match change {
        CommunityChange::Keep => Ok(communities),
        CommunityChange::Replace(others) => others.share(),
        CommunityChange::Add(others) => communities.union(alloc, others),
    }
}

/// A route with what an entry sets.
pub(crate) fn with_sets(alloc: Global, sets: &Sets, attrs: Attrs) -> Result<Attrs, AllocError>
    ensures { IfOk result (λ made. made ≡ with_sets sets.now attrs) }
{
    let Attrs {
        prefix,
        metric,
        metric_type,
        local_preference,
        weight,
        origin,
        as_path,
        communities,
    } = attrs;
    let as_path = as_path.prepend_all(alloc, sets.prepended.as_slice())?;
    let communities = with_change(alloc, &sets.communities, communities)?;
    Ok(Attrs {
        prefix,
        metric: sets.metric.unwrap_or(metric),
        metric_type: sets.metric_type.unwrap_or(metric_type),
        local_preference: sets.local_preference.unwrap_or(local_preference),
        weight: sets.weight.map_or(weight, u32::from),
        origin: sets.origin.unwrap_or(origin),
        as_path,
        communities,
    })
}
