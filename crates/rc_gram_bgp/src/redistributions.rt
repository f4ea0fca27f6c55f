//! What stands behind `redistribute` and its source. A line that fits no row is none.
ghost use Rattle.std.specs.Prelude.{◌≡◌, ◌<◌, IfSome, MatchOption, length};
ghost use Rattle.rc_openings.specs.Words.{words_left};
ghost use Rattle.rc_gram_bgp.specs.Redistributions as rows;

use crate::neighbor_lines::mention_of;
use rc_config::{BgpRedistribution, Mention, OspfKinds, OspfRedistribution};
use rc_openings::{Words, word_u32};

/// No option.
fn without_options() -> BgpRedistribution
    ensures { result ≡ rows.without_options }
{
    BgpRedistribution {
        metric: None,
        route_map: None,
    }
}

fn by_metric(metric: Option<u32>) -> Option<BgpRedistribution>
    ensures { result ≡ rows.by_metric metric }
{
    match metric {
        Some(metric) => Some(BgpRedistribution {
            metric: Some(metric),
            route_map: None,
        }),
        None => None,
    }
}

fn by_map(map: Option<Mention>) -> Option<BgpRedistribution>
    ensures { result ≡ rows.by_map map }
{
    match map {
        Some(map) => Some(BgpRedistribution {
            metric: None,
            route_map: Some(map),
        }),
        None => None,
    }
}

fn by_both(metric: Option<u32>, map: Option<Mention>) -> Option<BgpRedistribution>
    ensures { result ≡ rows.by_both metric map }
{
    match (metric, map) {
        (Some(metric), Some(map)) => Some(BgpRedistribution {
            metric: Some(metric),
            route_map: Some(map),
        }),
        _ => None,
    }
}

/// `metric N`, or `route-map NAME`
fn one_option(number: u64, word: &[u8], value: &[u8]) -> Option<BgpRedistribution>
    ensures { result ≡ rows.one_option number word.now value.now }
{
    if word == b"metric".as_slice() {
        return by_metric(word_u32(value));
    }
    if word == b"route-map".as_slice() {
        return by_map(mention_of(number, value));
    }
    None
}

/// `metric N route-map NAME`
fn two_options(
    number: u64,
    first: &[u8],
    metric: &[u8],
    second: &[u8],
    name: &[u8],
) -> Option<BgpRedistribution>
    ensures { result ≡ rows.two_options number first.now metric.now second.now name.now }
{
    if first == b"metric".as_slice() && second == b"route-map".as_slice() {
        by_both(word_u32(metric), mention_of(number, name))
    } else {
        None
    }
}

/// `[metric N] [route-map NAME]`, in this order
fn options_in_order(number: u64, mut words: Words) -> Option<BgpRedistribution>
    ensures { result ≡ rows.options_in_order number (words_left words.entry) }
{
    let Some(first) = words.next_word() else {
        return Some(without_options());
    };
    let Some(value) = words.next_word() else {
        return None;
    };
    match (words.next_word(), words.next_word(), words.next_word()) {
        (None, _, _) => one_option(number, first, value),
        (Some(second), Some(name), None) => two_options(number, first, value, second, name),
        _ => None,
    }
}

/// `metric N route-map NAME`, or `route-map NAME metric N`
fn either_way(
    number: u64,
    first: &[u8],
    value: &[u8],
    second: &[u8],
    other: &[u8],
) -> Option<BgpRedistribution>
    ensures { result ≡ rows.either_way number first.now value.now second.now other.now }
{
    match two_options(number, first, value, second, other) {
        Some(both) => Some(both),
        None => two_options(number, second, other, first, value),
    }
}

/// `[metric N] [route-map NAME]`, in either order
pub(crate) fn options(number: u64, mut words: Words) -> Option<BgpRedistribution>
    ensures { result ≡ rows.options number (words_left words.entry) }
{
    let Some(first) = words.next_word() else {
        return Some(without_options());
    };
    let Some(value) = words.next_word() else {
        return None;
    };
    match (words.next_word(), words.next_word(), words.next_word()) {
        (None, _, _) => one_option(number, first, value),
        (Some(second), Some(other), None) => either_way(number, first, value, second, other),
        _ => None,
    }
}

/// No kind of OSPF routes.
fn no_kinds() -> OspfKinds
    ensures { result ≡ rows.no_kinds }
{
    OspfKinds {
        internal: false,
        external_1: false,
        external_2: false,
    }
}

/// All that is redistributed without `match`.
fn internal_kinds() -> OspfKinds
    ensures { result ≡ rows.internal_kinds }
{
    OspfKinds {
        internal: true,
        external_1: false,
        external_2: false,
    }
}

/// The external ones of type 1.
fn type_1_kinds() -> OspfKinds
    ensures { result ≡ rows.type_1_kinds }
{
    OspfKinds {
        internal: false,
        external_1: true,
        external_2: false,
    }
}

/// The external ones of type 2.
fn type_2_kinds() -> OspfKinds
    ensures { result ≡ rows.type_2_kinds }
{
    OspfKinds {
        internal: false,
        external_1: false,
        external_2: true,
    }
}

/// The external ones of both types.
fn external_kinds() -> OspfKinds
    ensures { result ≡ rows.external_kinds }
{
    OspfKinds {
        internal: false,
        external_1: true,
        external_2: true,
    }
}

/// The kinds of both.
fn joined(kinds: OspfKinds, more: OspfKinds) -> OspfKinds
    ensures { result ≡ rows.joined kinds more }
{
    OspfKinds {
        internal: kinds.internal || more.internal,
        external_1: kinds.external_1 || more.external_1,
        external_2: kinds.external_2 || more.external_2,
    }
}

/// The kinds that the first word names, `external` with the type behind it, and the words that are left.
fn first_kinds<'a>(words: Words<'a>) -> Option<(OspfKinds, Words<'a>)>
    ensures kinds { MatchOption result (rows.kinds_in_front (words_left words.entry) ≡ (rows.no_kinds, words_left words.entry)) (λ p. rows.kinds_in_front (words_left words.entry) ≡ rows.beside p.0 (rows.kinds_in_front (words_left p.1))) }
    ensures shorter { IfSome result (λ p. length (words_left p.1) < length (words_left words.entry)) }
{
    let mut behind = words;
    let Some(word) = behind.next_word() else {
        return None;
    };
    if word == b"internal".as_slice() {
        return Some((internal_kinds(), behind));
    }
    if word != b"external".as_slice() {
        return None;
    }
    let mut last = behind;
    let Some(of_type) = last.next_word() else {
        return Some((external_kinds(), behind));
    };
    if of_type == b"1".as_slice() {
        return Some((type_1_kinds(), last));
    }
    if of_type == b"2".as_slice() {
        return Some((type_2_kinds(), last));
    }
    Some((external_kinds(), behind))
}

/// The kinds that the words in front name, and the words behind them.
fn kinds_in_front<'a>(words: Words<'a>) -> (OspfKinds, Words<'a>)
    ensures { rows.kinds_in_front (words_left words.entry) ≡ (result.0, words_left result.1) }
{
    let mut kinds = no_kinds();
    let mut rest = words;
    while let Some((more, behind)) = first_kinds(rest) {
        kinds = joined(kinds, more);
        rest = behind;
    }
    (kinds, rest)
}

fn has_kind(kinds: OspfKinds) -> bool
    ensures { result ≡ rows.has_kind kinds }
{
    kinds.internal || kinds.external_1 || kinds.external_2
}

/// The kinds that the words in front name, one or more, and the words behind them.
fn some_kinds<'a>(words: Words<'a>) -> Option<(OspfKinds, Words<'a>)>
    ensures { rows.IsMatched (rows.some_kinds (rows.kinds_in_front (words_left words.entry))) result }
{
    let (kinds, rest) = kinds_in_front(words);
    if has_kind(kinds) {
        Some((kinds, rest))
    } else {
        None
    }
}

/// `[match KINDS]` in front, and the words behind it.
fn matched<'a>(words: Words<'a>) -> Option<(OspfKinds, Words<'a>)>
    ensures { rows.IsMatched (rows.matched (words_left words.entry)) result }
{
    let mut behind = words;
    match behind.next_word() {
        Some(word) if word == b"match".as_slice() => some_kinds(behind),
        _ => Some((internal_kinds(), words)),
    }
}

fn from_process(
    process: Option<u32>,
    kinds: OspfKinds,
    redistribution: Option<BgpRedistribution>,
) -> Option<OspfRedistribution>
    ensures { result ≡ rows.from_process process kinds redistribution }
{
    match (process, redistribution) {
        (Some(process), Some(redistribution)) => Some(OspfRedistribution {
            process,
            kinds,
            redistribution,
        }),
        _ => None,
    }
}

/// `N [match KINDS] [metric N] [route-map NAME]`, in this order
pub(crate) fn ospf_redistribution(number: u64, mut words: Words) -> Option<OspfRedistribution>
    ensures { result ≡ rows.ospf_redistribution number (words_left words.entry) }
{
    let Some(process) = words.next_word() else {
        return None;
    };
    match matched(words) {
        Some((kinds, rest)) => from_process(
            word_u32(process),
            kinds,
            options_in_order(number, rest),
        ),
        None => None,
    }
}
