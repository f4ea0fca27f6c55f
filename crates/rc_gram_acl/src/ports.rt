//! Tests of ports, as words write them, and of an address with the ports there.
ghost use Rattle.std.specs.Prelude.{◌≡◌, ◌≤◌, ◌++◌, ◌∷◌, [], true, false, IfSome};
ghost use Rattle.std.specs.Option.{option_and_then};
ghost use Rattle.rc_openings.specs.Words.{words_left};
ghost use Rattle.rc_openings.specs.Part.{IsPart};
ghost use Rattle.rc_config.specs.AccessList.{IsPortTest, has_ports as protocol_has_ports};
ghost use Rattle.rc_config.specs.PortLists.{are_ports, ports_of};
ghost use Rattle.rc_gram_acl.specs.Port as tests;
ghost use Rattle.rc_gram_acl.specs.Values.{port_of};

use crate::addresses::read_address;
use crate::further::{is_established, is_log};
use crate::values::word_port;
use rc_config::{AddressTest, PortTest, Ports, ProtocolTest};
use rc_openings::{Words, word_addr};

/// The word with which a test of ports begins.
#[derive(Clone, Copy)]
pub(crate) enum Operator {
    /// `eq`
    Equal,
    /// `neq`
    NotEqual,
    /// `lt`
    Below,
    /// `gt`
    Above,
    /// `range`
    Within,
}

/// The end of a packet's way that a test asks.
#[derive(Clone, Copy)]
pub(crate) enum Side {
    Source,
    Destination,
}

/// The tests of one end of a packet's way: its address, and its port.
#[derive(Clone, Copy)]
pub(crate) struct EndPoint {
    pub addr: AddressTest,
    pub port: PortTest,
}

/// The operator that a word is.
pub(crate) fn operator_of(word: &[u8]) -> Option<Operator>
    ensures { result ≡ tests.operator_of word.now }
{
    if word == b"eq".as_slice() {
        return Some(Operator::Equal);
    }
    if word == b"neq".as_slice() {
        return Some(Operator::NotEqual);
    }
    if word == b"lt".as_slice() {
        return Some(Operator::Below);
    }
    if word == b"gt".as_slice() {
        return Some(Operator::Above);
    }
    if word == b"range".as_slice() {
        return Some(Operator::Within);
    }
    None
}

fn begins_address(word: &[u8]) -> bool
    ensures { result ≡ tests.begins_address word.now }
{
    word == b"any".as_slice() || word == b"host".as_slice() || word_addr(word).is_some()
}

impl Side {
    /// Whether a word ends the ports behind `eq` or `neq`.
    pub(crate) fn ends_ports(self, word: &[u8]) -> bool
        ensures { result ≡ tests.ends_ports self word.now }
    {
        match self {
            Side::Source => begins_address(word),
            Side::Destination => is_log(word) || is_established(word),
        }
    }
}

/// The ports with the one that a word is, or `None` exactly where it is none or there are ten already.
fn with_port(ports: Ports, word: &[u8]) -> Option<Ports>
    requires { are_ports ports ≡ true }
    ensures { result ≡ option_and_then (λ p. ports_of (ports ++ p ∷ [])) (port_of word.now) }
{
    match word_port(word) {
        Some(port) => ports.with_port(port),
        None => None,
    }
}

/// These ports with all that follow them.
fn ports_from(side: Side, first: Ports, words: Words) -> Option<(Ports, Words)>
    requires { are_ports first ≡ true }
    ensures { IsPart (tests.ports_with side first (words_left words.entry)) result }
{
    let mut ports = first;
    let mut rest = words;
    let mut behind = words;
    while let Some(word) = behind.next_word() {
        if side.ends_ports(word) {
            return Some((ports, rest));
        }
        match with_port(ports, word) {
            Some(more) => ports = more,
            None => return None,
        }
        rest = behind;
    }
    Some((ports, behind))
}

/// One to ten ports.
fn port_list(side: Side, words: Words) -> Option<(Ports, Words)>
    ensures { IsPart (tests.port_list side (words_left words.entry)) result }
{
    let mut rest = words;
    match rest.next_word() {
        Some(word) => match word_port(word) {
            Some(port) => ports_from(side, Ports::new(port), rest),
            None => None,
        },
        None => None,
    }
}

fn one_port(words: Words) -> Option<(u16, Words)>
    ensures { IsPart (tests.one_port (words_left words.entry)) result }
{
    let mut rest = words;
    match rest.next_word() {
        Some(word) => match word_port(word) {
            Some(port) => Some((port, rest)),
            None => None,
        },
        None => None,
    }
}

/// The test of the ports from the one that a word is to that of another.
fn range_of(low: &[u8], high: &[u8]) -> Option<PortTest>
    ensures row { result ≡ tests.range_of (port_of low.now) (port_of high.now) }
    ensures lawful { IfSome result IsPortTest }
{
    match (word_port(low), word_port(high)) {
        (Some(low), Some(high)) if low <= high => Some(PortTest::Within(low, high)),
        _ => None,
    }
}

fn port_range(words: Words) -> Option<(PortTest, Words)>
    ensures row { IsPart (tests.port_range (words_left words.entry)) result }
    ensures lawful { IfSome result (λ p. IsPortTest p.0) }
{
    let mut rest = words;
    let (Some(low), Some(high)) = (rest.next_word(), rest.next_word()) else {
        return None;
    };
    match range_of(low, high) {
        Some(test) => Some((test, rest)),
        None => None,
    }
}

/// The test by an operator and what stands behind it.
fn read_operands(operator: Operator, side: Side, words: Words) -> Option<(PortTest, Words)>
    ensures row { IsPart (tests.operands operator side (words_left words.entry)) result }
    ensures lawful { IfSome result (λ p. IsPortTest p.0) }
{
    match operator {
        Operator::Equal => match port_list(side, words) {
            Some((ports, rest)) => Some((PortTest::Equal(ports), rest)),
            None => None,
        },
        Operator::NotEqual => match port_list(side, words) {
            Some((ports, rest)) => Some((PortTest::NotEqual(ports), rest)),
            None => None,
        },
        Operator::Below => match one_port(words) {
            Some((port, rest)) => Some((PortTest::Below(port), rest)),
            None => None,
        },
        Operator::Above => match one_port(words) {
            Some((port, rest)) => Some((PortTest::Above(port), rest)),
            None => None,
        },
        Operator::Within => port_range(words),
    }
}

/// `eq X..`, `neq X..`, `lt X`, `gt X`, `range X X` or nothing, which is every port.
fn read_port_test(side: Side, words: Words) -> Option<(PortTest, Words)>
    ensures row { IsPart (tests.port_test side (words_left words.entry)) result }
    ensures lawful { IfSome result (λ p. IsPortTest p.0) }
{
    let mut rest = words;
    let Some(word) = rest.next_word() else {
        return Some((PortTest::Any, rest));
    };
    match operator_of(word) {
        Some(operator) => read_operands(operator, side, rest),
        None => Some((PortTest::Any, words)),
    }
}

/// Whether a protocol has ports: tcp and udp do.
pub(crate) fn has_ports(protocol: ProtocolTest) -> bool
    ensures { result ≡ protocol_has_ports protocol }
{
    match protocol {
        ProtocolTest::Any => false,
        ProtocolTest::Is(number) => number == 6 || number == 17,
    }
}

/// The test of ports where the protocol has them.
fn read_port_part(protocol: ProtocolTest, side: Side, words: Words) -> Option<(PortTest, Words)>
    ensures row { IsPart (tests.port_part protocol side (words_left words.entry)) result }
    ensures lawful { IfSome result (λ p. IsPortTest p.0) }
    ensures no_ports { IfSome result (λ p. protocol_has_ports protocol ≡ false → p.0 ≡ PortTest.Any) }
{
    if has_ports(protocol) {
        read_port_test(side, words)
    } else {
        Some((PortTest::Any, words))
    }
}

/// An address and the ports there.
pub(crate) fn read_end_point(
    protocol: ProtocolTest,
    side: Side,
    words: Words,
) -> Option<(EndPoint, Words)>
    ensures row { IsPart (tests.end_point protocol side (words_left words.entry)) result }
    ensures lawful { IfSome result (λ p. IsPortTest p.0.port) }
    ensures no_ports { IfSome result (λ p. protocol_has_ports protocol ≡ false → p.0.port ≡ PortTest.Any) }
{
    let Some((addr, rest)) = read_address(words) else {
        return None;
    };
    match read_port_part(protocol, side, rest) {
        Some((port, rest)) => Some((EndPoint { addr, port }, rest)),
        None => None,
    }
}
