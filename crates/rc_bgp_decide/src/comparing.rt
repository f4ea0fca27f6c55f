//! The tests of the decision, in turn.
ghost use Rattle.std.specs.Prelude.{◌≡◌};
ghost use Rattle.rc_base.specs.Orders.{origin_number};
ghost use Rattle.rc_route.specs.Paths.{path_source_rank};
ghost use Rattle.rc_bgp_decide.specs.Decision.{is_internal, is_originated, same_first_as};
ghost use Rattle.rc_bgp_decide.specs.Tests.{first_tests, last_tests};

use crate::Standing;
use rc_base::Origin;
use rc_route::PathSource;

/// Whether the router originates a path of this source.
pub(crate) fn is_originated(source: PathSource) -> bool
    ensures { result ≡ is_originated source }
{
    !matches!(source, PathSource::External | PathSource::Internal)
}

/// Whether a peer in the own AS sent it.
fn is_internal(source: PathSource) -> bool
    ensures { result ≡ is_internal source }
{
    matches!(source, PathSource::Internal)
}

/// The number of an origin, the lowest preferred (RFC 4271 s.9.1.2.2 b).
pub(crate) fn origin_number(origin: Origin) -> u8
    ensures { result ≡ origin_number origin }
{
    match origin {
        Origin::Igp => 0,
        Origin::Egp => 1,
        Origin::Incomplete => 2,
    }
}

/// The place of a source among those that are equal otherwise.
pub(crate) fn source_rank(source: PathSource) -> u8
    ensures { result ≡ path_source_rank source }
{
    match source {
        PathSource::Network => 0,
        PathSource::Connected => 1,
        PathSource::Static => 2,
        PathSource::Ospf => 3,
        PathSource::External => 4,
        PathSource::Internal => 5,
    }
}

/// Whether two paths have one first AS. Those without any are one group.
fn has_same_first_as(one: Option<u32>, other: Option<u32>) -> bool
    ensures { result ≡ same_first_as one other }
{
    match (one, other) {
        (None, None) => true,
        (Some(one), Some(other)) => one == other,
        _ => false,
    }
}

/// Whether the first is better by weight, local preference, origination, length of AS path, origin or MED.
#[tactic(auto, unfolding(crate::specs::Tests::first_tests))]
pub(crate) fn is_better_first(x: &Standing, y: &Standing) -> bool
    ensures { result ≡ first_tests x.now y.now }
{
    if x.weight != y.weight {
        return x.weight > y.weight;
    }
    if x.local_preference != y.local_preference {
        return x.local_preference > y.local_preference;
    }
    if is_originated(x.source) != is_originated(y.source) {
        return is_originated(x.source);
    }
    if x.path_length != y.path_length {
        return x.path_length < y.path_length;
    }
    if origin_number(x.origin) != origin_number(y.origin) {
        return origin_number(x.origin) < origin_number(y.origin);
    }
    has_same_first_as(x.first_as, y.first_as) && x.med < y.med
}

/// Whether the first is better by the tests behind the MED: session, IGP metric, sender, neighbour, source.
#[tactic(auto, unfolding(crate::specs::Tests::last_tests))]
pub(crate) fn is_better_last(x: &Standing, y: &Standing) -> bool
    ensures { result ≡ last_tests x.now y.now }
{
    if is_internal(x.source) != is_internal(y.source) {
        return is_internal(y.source);
    }
    if x.igp_metric != y.igp_metric {
        return x.igp_metric < y.igp_metric;
    }
    if x.sender_id != y.sender_id {
        return x.sender_id < y.sender_id;
    }
    if x.neighbor != y.neighbor {
        return x.neighbor < y.neighbor;
    }
    source_rank(x.source) < source_rank(y.source)
}
