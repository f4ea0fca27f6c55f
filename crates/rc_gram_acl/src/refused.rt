//! The words that make a line of an access list one that isn't modelled, where it fits no row.
ghost use Rattle.std.specs.Prelude.{◌≡◌, take};
ghost use Rattle.std.specs.List.{list_any};
ghost use Rattle.rc_openings.specs.Words.{words_left};
ghost use Rattle.rc_gram_acl.specs.Address.{address};
ghost use Rattle.rc_gram_acl.specs.Port.{end_point, listed, until_end};
ghost use Rattle.rc_gram_acl.specs.Refused as refused;
ghost use Rattle.rc_gram_acl.specs.Values.{is_unknown_port as is_unknown};

use crate::addresses::read_address;
use crate::further::is_log;
use crate::ports::{Operator, Side, has_ports, operator_of, read_end_point};
use crate::values::{is_unknown_icmp_type, is_unknown_port, word_protocol};
use rc_config::ProtocolTest;
use rc_openings::{Words, begins_with_letter};

/// The words that make a line of an access list one that isn't modelled, wherever they stand behind its opening, where it fits no
/// row.
#[tactic(auto, unfolding(crate::specs::Refused::refused_words))]
pub(crate) fn refused_words() -> Words<'static>
    ensures { words_left result ≡ refused.refused_words }
{
    Words::new(
        b"fragments dscp tos precedence time-range object-group ttl option reflect dynamic match-any match-all ack rst syn fin psh urg",
    )
}

/// Whether one of the words up to one that ends the ports is a name of no port.
fn has_unknown_listed(side: Side, words: Words) -> bool
    ensures { result ≡ list_any is_unknown (until_end side (words_left words.entry)) }
{
    let mut rest = words;
    while let Some(word) = rest.next_word() {
        if side.ends_ports(word) {
            return false;
        }
        if is_unknown_port(word) {
            return true;
        }
    }
    false
}

/// Whether the first word is a name of no port.
fn is_first_unknown(mut words: Words) -> bool
    ensures { result ≡ list_any is_unknown (take 1 (words_left words.entry)) }
{
    match words.next_word() {
        Some(word) => is_unknown_port(word),
        None => false,
    }
}

/// Whether one of the first two words is a name of no port.
fn is_one_of_two_unknown(words: Words) -> bool
    ensures { result ≡ list_any is_unknown (take 2 (words_left words.entry)) }
{
    let mut rest = words;
    match rest.next_word() {
        Some(word) => is_unknown_port(word) || is_first_unknown(rest),
        None => false,
    }
}

/// Whether the first word, or one behind it up to one that ends the ports, is a name of no port.
fn is_one_listed_unknown(side: Side, words: Words) -> bool
    ensures { result ≡ list_any is_unknown (listed side (words_left words.entry)) }
{
    let mut rest = words;
    match rest.next_word() {
        Some(word) => is_unknown_port(word) || has_unknown_listed(side, rest),
        None => false,
    }
}

/// Whether one of the words that stand for ports behind an operator is a name of no port.
fn has_unknown_operand(operator: Operator, side: Side, words: Words) -> bool
    ensures { result ≡ list_any is_unknown (refused.port_words operator side (words_left words.entry)) }
{
    match operator {
        Operator::Equal => is_one_listed_unknown(side, words),
        Operator::NotEqual => is_one_listed_unknown(side, words),
        Operator::Below => is_first_unknown(words),
        Operator::Above => is_first_unknown(words),
        Operator::Within => is_one_of_two_unknown(words),
    }
}

/// Whether a name of no port stands where ports are named.
fn has_unknown_port(side: Side, words: Words) -> bool
    ensures { result ≡ refused.has_unknown_port side (words_left words.entry) }
{
    let mut rest = words;
    match rest.next_word() {
        Some(word) => match operator_of(word) {
            Some(operator) => has_unknown_operand(operator, side, rest),
            None => false,
        },
        None => false,
    }
}

/// Whether a word is a name of no ICMP type, and doesn't log either.
fn is_refused_message(word: &[u8]) -> bool
    ensures { result ≡ refused.is_refused_message word.now }
{
    is_unknown_icmp_type(word) && !is_log(word)
}

/// Whether one of the words is such a name.
fn has_refused_message(words: Words) -> bool
    ensures { result ≡ list_any refused.is_refused_message (words_left words.entry) }
{
    let mut rest = words;
    while let Some(word) = rest.next_word() {
        if is_refused_message(word) {
            return true;
        }
    }
    false
}

/// Whether a refused word stands behind the destination, by the protocol: each word in a line of igmp, names of no ICMP type
/// in one of icmp, names of no port in one of tcp or udp.
fn has_refused_word(protocol: ProtocolTest, words: Words) -> bool
    ensures { result ≡ refused.has_refused_word protocol (words_left words.entry) }
{
    match protocol {
        ProtocolTest::Is(1) => has_refused_message(words),
        ProtocolTest::Is(2) => !words.is_empty(),
        _ => has_ports(protocol) && has_unknown_port(Side::Destination, words),
    }
}

/// Whether a refused word stands behind the address of the source.
fn is_refused_behind_source(protocol: ProtocolTest, words: Words) -> bool
    ensures { result ≡ refused.refused_behind_source protocol (address (words_left words.entry)) }
{
    match read_address(words) {
        Some((_, rest)) => has_ports(protocol) && has_unknown_port(Side::Source, rest),
        None => false,
    }
}

/// Whether a refused word stands behind the address of the destination.
fn is_refused_behind_destination(protocol: ProtocolTest, words: Words) -> bool
    ensures { result ≡ refused.refused_behind_destination protocol (address (words_left words.entry)) }
{
    match read_address(words) {
        Some((_, rest)) => has_refused_word(protocol, rest),
        None => false,
    }
}

/// Whether a refused word stands behind the address of the destination, where the words in front of it are a source.
fn is_refused_from_destination(protocol: ProtocolTest, words: Words) -> bool
    ensures { result ≡ refused.refused_from_destination protocol (end_point protocol Side.Source (words_left words.entry)) }
{
    match read_end_point(protocol, Side::Source, words) {
        Some((_, rest)) => is_refused_behind_destination(protocol, rest),
        None => false,
    }
}

fn is_refused_behind_protocol(protocol: ProtocolTest, words: Words) -> bool
    ensures { result ≡ refused.refused_behind_protocol protocol (words_left words.entry) }
{
    is_refused_behind_source(protocol, words) || is_refused_from_destination(protocol, words)
}

/// Whether an extended line, read as far as it fits, names a protocol, a port or an ICMP type that isn't known here, or
/// has a message of igmp.
pub(crate) fn has_refused_place(words: Words) -> bool
    ensures { result ≡ refused.has_refused_place (words_left words.entry) }
{
    let mut rest = words;
    match rest.next_word() {
        Some(word) => match word_protocol(word) {
            Some(protocol) => is_refused_behind_protocol(protocol, rest),
            None => begins_with_letter(word),
        },
        None => false,
    }
}
