//! The words that are values: protocols, ports and ICMP types, by number or by name.
ghost use Rattle.std.specs.Prelude.{◌≡◌, ◌≤◌, IfSome, map};
ghost use Rattle.rc_openings.specs.Values.{number_of};
ghost use Rattle.rc_gram_acl.specs.NumberName.{row_of};
ghost use Rattle.rc_gram_acl.specs.Values as values;

use crate::number_name::{NumberName, icmp_type_names, number_named, port_names, protocol_names};
use rc_config::ProtocolTest;
use rc_openings::{begins_with_letter, number_in, word_u32};

/// The number that a word is, or that it names in a table.
fn number_or_name(rows: &[NumberName], word: &[u8]) -> Option<u32>
    ensures { result ≡ values.number_or_name (map row_of rows.now) word.now (number_of word.now) }
{
    match word_u32(word) {
        Some(number) => Some(number),
        None => match number_named(rows, word) {
            Some(number) => Some(u32::from(number)),
            None => None,
        },
    }
}

/// The same, where it is at most the limit.
fn number_up_to(limit: u32, rows: &[NumberName], word: &[u8]) -> Option<u32>
    ensures small { IfSome result (λ n. n ≤ limit) }
    ensures value { result ≡ values.number_up_to limit (map row_of rows.now) word.now }
{
    match number_or_name(rows, word) {
        Some(number) if number <= limit => Some(number),
        _ => None,
    }
}

/// The port that a word is: a number from 0 to 65535, or the name of one.
pub(crate) fn word_port(word: &[u8]) -> Option<u16>
    ensures { result ≡ values.port_of word.now }
{
    match number_up_to(65535, port_names(), word) {
        Some(port) => Some(port as u16),
        None => None,
    }
}

/// The protocol that a word is: `ip`, which is all of them, a number from 0 to 255, or the name of one.
pub(crate) fn word_protocol(word: &[u8]) -> Option<ProtocolTest>
    ensures { result ≡ values.protocol_of word.now }
{
    if word == b"ip".as_slice() {
        return Some(ProtocolTest::Any);
    }
    match number_up_to(255, protocol_names(), word) {
        Some(protocol) => Some(ProtocolTest::Is(protocol as u8)),
        None => None,
    }
}

/// The ICMP type that a word is: a number from 0 to 255, or the name of one.
pub(crate) fn word_icmp_type(word: &[u8]) -> Option<u8>
    ensures { result ≡ values.icmp_type_of word.now }
{
    match number_up_to(255, icmp_type_names(), word) {
        Some(icmp_type) => Some(icmp_type as u8),
        None => None,
    }
}

/// The ICMP type or code that a word is as a number, from 0 to 255.
pub(crate) fn word_icmp_number(word: &[u8]) -> Option<u8>
    ensures { result ≡ values.icmp_number_of word.now }
{
    match number_in(0, 255, word) {
        Some(number) => Some(number as u8),
        None => None,
    }
}

/// Whether a word is a name, and that of no ICMP type.
pub(crate) fn is_unknown_icmp_type(word: &[u8]) -> bool
    ensures { result ≡ values.is_unknown_icmp_type word.now }
{
    begins_with_letter(word) && word_icmp_type(word).is_none()
}

/// Whether a word is a name, and that of no port.
pub(crate) fn is_unknown_port(word: &[u8]) -> bool
    ensures { result ≡ values.is_unknown_port word.now }
{
    begins_with_letter(word) && word_port(word).is_none()
}
