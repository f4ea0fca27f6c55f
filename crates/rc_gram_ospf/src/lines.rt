//! The lines in the block of an OSPF process, by the words behind their openings. A line that fits no row is none.
ghost use Rattle.std.specs.Prelude.{◌≡◌, ◌≤◌, IfSome, option_map};
ghost use Rattle.rc_openings.specs.Words.{words_left};
ghost use Rattle.rc_config.specs.Ospf.{IsLawfulOspfLine};
ghost use Rattle.rc_gram_ospf.specs.Lines as lines;

use crate::redistribute_options::{RedistributeOptions, metric_type_of, read_options};
use rc_base::{Addr, Name};
use rc_config::{
    DefaultInformation, Mention, MetricType, OspfLine, OspfNetwork, RedistributedSource,
    Redistribution, StubArea,
};
use rc_openings::{Words, number_in, word_addr, word_area, word_interface, word_u32};

/// `router-id A`
pub(crate) fn router_id(mut words: Words) -> Option<OspfLine>
    ensures row { result ≡ lines.router_id (words_left words.entry) }
    ensures lawful { IfSome result IsLawfulOspfLine }
{
    match (words.next_word(), words.next_word()) {
        (Some(word), None) => match word_addr(word) {
            Some(id) => Some(OspfLine::RouterId(id)),
            None => None,
        },
        _ => None,
    }
}

fn network_in(address: Option<Addr>, wildcard: Option<Addr>, area: Option<u32>) -> Option<OspfLine>
    ensures row { result ≡ lines.network_in address wildcard area }
    ensures lawful { IfSome result IsLawfulOspfLine }
{
    match (address, wildcard, area) {
        (Some(address), Some(wildcard), Some(area)) => Some(OspfLine::Network(OspfNetwork {
            address,
            wildcard,
            area,
        })),
        _ => None,
    }
}

/// `network A W area N`
pub(crate) fn network(mut words: Words) -> Option<OspfLine>
    ensures row { result ≡ lines.network (words_left words.entry) }
    ensures lawful { IfSome result IsLawfulOspfLine }
{
    let (Some(address), Some(wildcard)) = (words.next_word(), words.next_word()) else {
        return None;
    };
    match (words.next_word(), words.next_word(), words.next_word()) {
        (Some(word), Some(area), None) if word == b"area".as_slice() => network_in(
            word_addr(address),
            word_addr(wildcard),
            word_area(area),
        ),
        _ => None,
    }
}

/// `passive-interface IF`, or `no passive-interface IF`
pub(crate) fn passive_interface(passive: bool, mut words: Words) -> Option<OspfLine>
    ensures row { result ≡ lines.passive_interface passive (words_left words.entry) }
    ensures lawful { IfSome result IsLawfulOspfLine }
{
    match (words.next_word(), words.next_word()) {
        (Some(word), None) => match word_interface(word) {
            Some(interface) => Some(OspfLine::Passive { interface, passive }),
            None => None,
        },
        _ => None,
    }
}

/// `passive-interface default`
pub(crate) fn passive_default(mut words: Words) -> Option<OspfLine>
    ensures row { result ≡ lines.passive_default (words_left words.entry) }
    ensures lawful { IfSome result IsLawfulOspfLine }
{
    match words.next_word() {
        None => Some(OspfLine::PassiveDefault),
        Some(_) => None,
    }
}

/// `auto-cost reference-bandwidth N`
pub(crate) fn reference_bandwidth(mut words: Words) -> Option<OspfLine>
    ensures row { result ≡ lines.reference_bandwidth (words_left words.entry) }
    ensures lawful { IfSome result IsLawfulOspfLine }
{
    match (words.next_word(), words.next_word()) {
        (Some(word), None) => match number_in(1, 4_294_967, word) {
            Some(mbits) => Some(OspfLine::ReferenceBandwidth(mbits)),
            None => None,
        },
        _ => None,
    }
}

/// `[no-summary]`, and nothing behind.
fn no_summary_of(mut words: Words) -> Option<bool>
    ensures { result ≡ lines.no_summary_of (words_left words.entry) }
{
    match (words.next_word(), words.next_word()) {
        (None, _) => Some(false),
        (Some(word), None) if word == b"no-summary".as_slice() => Some(true),
        _ => None,
    }
}

/// An area that may be a stub: any but the backbone.
fn stub_in(area: Option<u32>, no_summary: Option<bool>) -> Option<OspfLine>
    ensures row { result ≡ lines.stub_in area no_summary }
    ensures lawful { IfSome result IsLawfulOspfLine }
{
    let (Some(area), Some(no_summary)) = (area, no_summary) else {
        return None;
    };
    if area == 0 {
        return None;
    }
    Some(OspfLine::Stub(StubArea { area, no_summary }))
}

/// `area N stub [no-summary]`, by all words of the line: the opening fits any word in the place of N.
pub(crate) fn stub_area(mut line: Words) -> Option<OspfLine>
    ensures row { result ≡ lines.stub_area (words_left line.entry) }
    ensures lawful { IfSome result IsLawfulOspfLine }
{
    match (line.next_word(), line.next_word(), line.next_word()) {
        (Some(_), Some(area), Some(_)) => stub_in(word_area(area), no_summary_of(line)),
        _ => None,
    }
}

/// A route map that the line of this number names.
fn mention_of(name: Option<Name>, line: u64) -> Option<Mention>
    ensures { result ≡ option_map (λ name. record { name = name; line = line }) name }
{
    match name {
        Some(name) => Some(Mention { name, line }),
        None => None,
    }
}

/// A `redistribute` line with these options.
fn redistributed(source: RedistributedSource, number: u64, options: RedistributeOptions) -> OspfLine
    requires { IfSome options.metric (λ n. n ≤ 16777214) }
    ensures row { result ≡ lines.redistributed source number options }
    ensures lawful { IsLawfulOspfLine result }
{
    OspfLine::Redistribute(Redistribution {
        source,
        metric: options.metric,
        metric_type: options.metric_type,
        subnets: options.subnets,
        route_map: mention_of(options.route_map, number),
    })
}

/// `redistribute connected ..` and `redistribute static ..`, with options in any order, each at most once.
pub(crate) fn redistribute(
    source: RedistributedSource,
    number: u64,
    behind: Words,
) -> Option<OspfLine>
    ensures row { result ≡ lines.redistribute source number (words_left behind.entry) }
    ensures lawful { IfSome result IsLawfulOspfLine }
{
    match read_options(behind) {
        Some(options) => Some(redistributed(source, number, options)),
        None => None,
    }
}

/// `redistribute bgp N ..`, N the number of an AS.
pub(crate) fn redistribute_bgp(number: u64, mut words: Words) -> Option<OspfLine>
    ensures row { result ≡ lines.redistribute_bgp number (words_left words.entry) }
    ensures lawful { IfSome result IsLawfulOspfLine }
{
    let Some(word) = words.next_word() else {
        return None;
    };
    match word_u32(word) {
        Some(asn) => redistribute(RedistributedSource::Bgp(asn), number, words),
        None => None,
    }
}

fn default_with(always: bool, metric: Option<u32>, metric_type: Option<MetricType>) -> OspfLine
    ensures row { result ≡ lines.default_with always metric metric_type }
    ensures lawful { IsLawfulOspfLine result }
{
    OspfLine::DefaultInformation(DefaultInformation {
        always,
        metric,
        metric_type,
    })
}

/// `[metric-type 1|2]`, and nothing behind.
fn default_typed(always: bool, metric: Option<u32>, mut words: Words) -> Option<OspfLine>
    ensures row { result ≡ lines.default_typed always metric (words_left words.entry) }
    ensures lawful { IfSome result IsLawfulOspfLine }
{
    match (words.next_word(), words.next_word(), words.next_word()) {
        (None, _, _) => Some(default_with(always, metric, None)),
        (Some(key), Some(word), None) if key == b"metric-type".as_slice() => {
            match metric_type_of(word) {
                Some(metric_type) => Some(default_with(always, metric, Some(metric_type))),
                None => None,
            }
        }
        _ => None,
    }
}

/// `[metric N] [metric-type 1|2]`
fn default_measured(always: bool, words: Words) -> Option<OspfLine>
    ensures row { result ≡ lines.default_measured always (words_left words.entry) }
    ensures lawful { IfSome result IsLawfulOspfLine }
{
    let mut rest = words;
    match (rest.next_word(), rest.next_word()) {
        (Some(key), Some(word)) if key == b"metric".as_slice() => match word_u32(word) {
            Some(metric) => default_typed(always, Some(metric), rest),
            None => None,
        },
        _ => default_typed(always, None, words),
    }
}

/// `default-information originate [always] [metric N] [metric-type 1|2]`, in this order.
pub(crate) fn default_information(words: Words) -> Option<OspfLine>
    ensures row { result ≡ lines.default_information (words_left words.entry) }
    ensures lawful { IfSome result IsLawfulOspfLine }
{
    let mut rest = words;
    match rest.next_word() {
        Some(word) if word == b"always".as_slice() => default_measured(true, rest),
        _ => default_measured(false, words),
    }
}
