//! What an extended line tests behind its destination: the ICMP type in icmp lines, ACK and RST in tcp lines.
ghost use Rattle.std.specs.Prelude.{◌≡◌, IfSome};
ghost use Rattle.rc_openings.specs.Words.{words_left};
ghost use Rattle.rc_config.specs.AccessList.{IsFurtherTestOf};
ghost use Rattle.rc_gram_acl.specs.Further as tests;

use crate::values::{word_icmp_number, word_icmp_type};
use rc_config::{FurtherTest, ProtocolTest};
use rc_openings::Words;

/// Whether a word at the end of a line asks to log what matches, which changes no answer.
pub(crate) fn is_log(word: &[u8]) -> bool
    ensures { result ≡ tests.is_log word.now }
{
    word == b"log".as_slice() || word == b"log-input".as_slice()
}

/// Whether a word asks for ACK or RST.
pub(crate) fn is_established(word: &[u8]) -> bool
    ensures { result ≡ tests.is_established word.now }
{
    word == b"established".as_slice()
}

/// The test that one word is.
fn by_word(protocol: ProtocolTest, word: &[u8]) -> Option<FurtherTest>
    ensures row { result ≡ tests.by_word protocol word.now }
    ensures lawful { IfSome result (IsFurtherTestOf protocol) }
{
    match protocol {
        ProtocolTest::Is(1) => match word_icmp_type(word) {
            Some(icmp_type) => Some(FurtherTest::Icmp {
                icmp_type,
                code: None,
            }),
            None => None,
        },
        ProtocolTest::Is(6) if is_established(word) => Some(FurtherTest::Established),
        _ => None,
    }
}

/// The test that a type and a code are.
fn by_type_and_code(protocol: ProtocolTest, first: &[u8], second: &[u8]) -> Option<FurtherTest>
    ensures row { result ≡ tests.by_type_and_code protocol first.now second.now }
    ensures lawful { IfSome result (IsFurtherTestOf protocol) }
{
    match (protocol, word_icmp_number(first), word_icmp_number(second)) {
        (ProtocolTest::Is(1), Some(icmp_type), Some(code)) => Some(FurtherTest::Icmp {
            icmp_type,
            code: Some(code),
        }),
        _ => None,
    }
}

/// The test that the words between the destination and the end of a line are, where a word that logs may stand last.
/// `None` where they are none of a line of this protocol.
pub(crate) fn read_further(protocol: ProtocolTest, mut words: Words) -> Option<FurtherTest>
    ensures row { result ≡ tests.further protocol (words_left words.entry) }
    ensures lawful { IfSome result (IsFurtherTestOf protocol) }
{
    let Some(first) = words.next_word() else {
        return Some(FurtherTest::Any);
    };
    match (words.next_word(), words.next_word(), words.next_word()) {
        (None, _, _) if is_log(first) => Some(FurtherTest::Any),
        (None, _, _) => by_word(protocol, first),
        (Some(second), None, _) if is_log(second) => by_word(protocol, first),
        (Some(second), None, _) => by_type_and_code(protocol, first, second),
        (Some(second), Some(third), None) if is_log(third) => {
            by_type_and_code(protocol, first, second)
        }
        _ => None,
    }
}
