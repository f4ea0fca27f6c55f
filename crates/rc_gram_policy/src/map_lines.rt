//! The lines in the block of a route map.
ghost use Rattle.std.specs.Prelude.{◌≡◌, ◌≤◌, IfOk, IfSome, option_map};
ghost use Rattle.rc_openings.specs.Words.{words_left};
ghost use Rattle.rc_config.specs.RouteMap.{IsLawfulMapLine};
ghost use Rattle.rc_config.specs.Sets.{IsLawfulSet};
ghost use Rattle.rc_openings.specs.Reading.{Gives};
ghost use Rattle.rc_gram_policy.specs.MapLines as lines;
ghost use Rattle.rc_gram_policy.specs.Lines.{map_answer};

use crate::as_path::read_prepended;
use crate::communities::read_communities;
use crate::names::read_names;
use crate::refused::{refusal_of, refused_in_entry};
use rc_base::{Communities, Origin};
use rc_config::{MapLine, MatchKind, MetricType, SetLine};
use rc_openings::{LineError, MapEntryForm, Words, number_in};
use std::alloc::{AllocError, Global};

/// `NAME..`
fn match_row(
    alloc: Global,
    kind: MatchKind,
    line: u64,
    words: Words,
) -> Result<Option<MapLine>, AllocError>
    ensures row { IfOk result (λ read. read ≡ lines.match_row kind line (words_left words.entry)) }
    ensures lawful { IfOk result (λ read. IfSome read IsLawfulMapLine) }
{
    match read_names(alloc, words)? {
        Some(names) => Ok(Some(MapLine::Match { kind, names, line })),
        None => Ok(None),
    }
}

/// Whether one of the words is `exact-match`.
fn asks_exact(words: Words) -> bool
    ensures { result ≡ lines.asks_exact (words_left words.entry) }
{
    let mut rest = words;
    while let Some(word) = rest.next_word() {
        if word == b"exact-match".as_slice() {
            return true;
        }
    }
    false
}

/// `NAME..`, none of them `exact-match`
fn match_community(alloc: Global, line: u64, words: Words) -> Result<Option<MapLine>, AllocError>
    ensures row { IfOk result (λ read. read ≡ lines.match_community line (words_left words.entry)) }
    ensures lawful { IfOk result (λ read. IfSome read IsLawfulMapLine) }
{
    if asks_exact(words) {
        return Ok(None);
    }
    match_row(alloc, MatchKind::CommunityList, line, words)
}

/// One number, up to a limit.
fn number_alone(limit: u32, mut words: Words) -> Option<u32>
    ensures value { result ≡ lines.number_alone limit (words_left words.entry) }
    ensures within { IfSome result (λ n. n ≤ limit) }
{
    match (words.next_word(), words.next_word()) {
        (Some(word), None) => number_in(0, limit, word),
        _ => None,
    }
}

fn local_preference(words: Words) -> Option<SetLine>
    ensures row { result ≡ option_map SetLine.LocalPreference (lines.number_alone 4294967295 (words_left words.entry)) }
    ensures lawful { IfSome result IsLawfulSet }
{
    match number_alone(u32::MAX, words) {
        Some(number) => Some(SetLine::LocalPreference(number)),
        None => None,
    }
}

fn metric(words: Words) -> Option<SetLine>
    ensures row { result ≡ option_map SetLine.Metric (lines.number_alone 4294967295 (words_left words.entry)) }
    ensures lawful { IfSome result IsLawfulSet }
{
    match number_alone(u32::MAX, words) {
        Some(number) => Some(SetLine::Metric(number)),
        None => None,
    }
}

fn weight(words: Words) -> Option<SetLine>
    ensures row { result ≡ option_map SetLine.Weight (lines.number_alone 65535 (words_left words.entry)) }
    ensures lawful { IfSome result IsLawfulSet }
{
    match number_alone(65535, words) {
        Some(number) => Some(SetLine::Weight(number as u16)),
        None => None,
    }
}

fn metric_type(metric_type: MetricType, words: Words) -> Option<SetLine>
    ensures row { result ≡ lines.if_alone (SetLine.MetricType metric_type) (words_left words.entry) }
    ensures lawful { IfSome result IsLawfulSet }
{
    if words.is_empty() {
        Some(SetLine::MetricType(metric_type))
    } else {
        None
    }
}

fn origin(origin: Origin, words: Words) -> Option<SetLine>
    ensures row { result ≡ lines.if_alone (SetLine.Origin origin) (words_left words.entry) }
    ensures lawful { IfSome result IsLawfulSet }
{
    if words.is_empty() {
        Some(SetLine::Origin(origin))
    } else {
        None
    }
}

/// `[additive]`
fn additive_of(mut words: Words) -> Option<bool>
    ensures { result ≡ lines.additive_of (words_left words.entry) }
{
    match (words.next_word(), words.next_word()) {
        (None, _) => Some(false),
        (Some(word), None) if word == b"additive".as_slice() => Some(true),
        _ => None,
    }
}

/// `COMM.. [additive]`
fn community_change(alloc: Global, words: Words) -> Result<Option<SetLine>, AllocError>
    ensures row { IfOk result (λ read. read ≡ lines.community_change (words_left words.entry)) }
    ensures lawful { IfOk result (λ read. IfSome read IsLawfulSet) }
{
    let (numbers, rest) = read_communities(alloc, words)?;
    if numbers.is_empty() {
        return Ok(None);
    }
    let Some(additive) = additive_of(rest) else {
        return Ok(None);
    };
    let communities = Communities::of(numbers.into_vec())?;
    Ok(Some(SetLine::Communities {
        communities,
        additive,
    }))
}

/// `N..`
fn prepend(alloc: Global, words: Words) -> Result<Option<SetLine>, AllocError>
    ensures row { IfOk result (λ read. read ≡ option_map SetLine.Prepend (lines.prepended (words_left words.entry))) }
    ensures lawful { IfOk result (λ read. IfSome read IsLawfulSet) }
{
    match read_prepended(alloc, words)? {
        Some(numbers) => Ok(Some(SetLine::Prepend(numbers))),
        None => Ok(None),
    }
}

/// A line that sets this, where it is something.
fn set_line(set: Option<SetLine>) -> Option<MapLine>
    requires { IfSome set IsLawfulSet }
    ensures row { result ≡ lines.set_line set }
    ensures lawful { IfSome result IsLawfulMapLine }
{
    match set {
        Some(set) => Some(MapLine::Set(set)),
        None => None,
    }
}

/// `set community`
fn set_community(alloc: Global, words: Words) -> Result<Option<MapLine>, AllocError>
    ensures row { IfOk result (λ read. read ≡ lines.set_line (lines.community_change (words_left words.entry))) }
    ensures lawful { IfOk result (λ read. IfSome read IsLawfulMapLine) }
{
    let set = community_change(alloc, words)?;
    Ok(set_line(set))
}

/// `set as-path prepend`
fn set_prepended(alloc: Global, words: Words) -> Result<Option<MapLine>, AllocError>
    ensures row { IfOk result (λ read. read ≡ lines.set_line (option_map SetLine.Prepend (lines.prepended (words_left words.entry)))) }
    ensures lawful { IfOk result (λ read. IfSome read IsLawfulMapLine) }
{
    let set = prepend(alloc, words)?;
    Ok(set_line(set))
}

/// What a line of a form says.
fn map_row(
    alloc: Global,
    form: MapEntryForm,
    line: u64,
    words: Words,
) -> Result<Option<MapLine>, AllocError>
    ensures row { IfOk result (λ read. read ≡ lines.map_row line form (words_left words.entry)) }
    ensures lawful { IfOk result (λ read. IfSome read IsLawfulMapLine) }
{
    match form {
        MapEntryForm::MatchAddress => match_row(alloc, MatchKind::AccessList, line, words),
        MapEntryForm::MatchPrefixList => match_row(alloc, MatchKind::PrefixList, line, words),
        MapEntryForm::MatchCommunity => match_community(alloc, line, words),
        MapEntryForm::SetLocalPreference => Ok(set_line(local_preference(words))),
        MapEntryForm::SetMetric => Ok(set_line(metric(words))),
        MapEntryForm::SetMetricType1 => Ok(set_line(metric_type(MetricType::Type1, words))),
        MapEntryForm::SetMetricType2 => Ok(set_line(metric_type(MetricType::Type2, words))),
        MapEntryForm::SetWeight => Ok(set_line(weight(words))),
        MapEntryForm::SetOrigin => Ok(None),
        MapEntryForm::SetOriginIgp => Ok(set_line(origin(Origin::Igp, words))),
        MapEntryForm::SetOriginIncomplete => Ok(set_line(origin(Origin::Incomplete, words))),
        MapEntryForm::SetCommunity => set_community(alloc, words),
        MapEntryForm::PrependAsPath => set_prepended(alloc, words),
    }
}

/// What a line in the block of a route map says, by its form and the words behind the opening: names behind `match ip
/// address`, `match ip address prefix-list` and `match community`, to which the line's number is added; and behind the
/// forms of `set` a number (for `weight` to 65535), communities with or without `additive`, one to ten numbers of AS from 1
/// on, or nothing where the opening says all.
///
/// It is refused exactly where the words don't fit: as unsupported where a word is one
/// whose meaning isn't modelled, and as a bad value else.
pub(crate) fn read_map_line(
    alloc: Global,
    form: MapEntryForm,
    line: u64,
    words: Words,
) -> Result<MapLine, LineError>
    ensures row { Gives result (map_answer line form (words_left words.entry)) }
    ensures lawful { IfOk result IsLawfulMapLine }
{
    match map_row(alloc, form, line, words) {
        Ok(Some(read)) => Ok(read),
        Ok(None) => Err(LineError::Refused(refusal_of(refused_in_entry(form), words))),
        Err(_) => Err(LineError::Memory),
    }
}
