//! Tests of addresses, as words write them.
ghost use Rattle.std.specs.Prelude.{◌≡◌};
ghost use Rattle.rc_openings.specs.Words.{words_left};
ghost use Rattle.rc_openings.specs.Part.{IsPart};
ghost use Rattle.rc_gram_acl.specs.Address as tests;

use rc_base::Addr;
use rc_config::AddressTest;
use rc_openings::{Words, word_addr};

/// The address behind `host`.
fn host(words: Words) -> Option<(AddressTest, Words)>
    ensures { IsPart (tests.host (words_left words.entry)) result }
{
    let mut rest = words;
    match rest.next_word() {
        Some(word) => match word_addr(word) {
            Some(addr) => Some((AddressTest::host(addr), rest)),
            None => None,
        },
        None => None,
    }
}

/// The wildcard behind an address.
fn wildcard_from(addr: Addr, words: Words) -> Option<(AddressTest, Words)>
    ensures { IsPart (tests.wildcard_from addr (words_left words.entry)) result }
{
    let mut rest = words;
    match rest.next_word() {
        Some(word) => match word_addr(word) {
            Some(wildcard) => Some((AddressTest { addr, wildcard }, rest)),
            None => None,
        },
        None => None,
    }
}

/// The wildcard behind an address, or the address alone.
fn wildcard_or_alone(addr: Addr, rest: Words) -> (AddressTest, Words)
    ensures { tests.or_alone addr (words_left rest.entry) (tests.wildcard_from addr (words_left rest.entry)) ≡ Some (result.0, words_left result.1) }
{
    match wildcard_from(addr, rest) {
        Some(part) => part,
        None => (AddressTest::host(addr), rest),
    }
}

/// A test of an extended line: `any`, `host A` or `A W`.
pub(crate) fn read_address(words: Words) -> Option<(AddressTest, Words)>
    ensures { IsPart (tests.address (words_left words.entry)) result }
{
    let mut rest = words;
    let Some(word) = rest.next_word() else {
        return None;
    };
    if word == b"any".as_slice() {
        return Some((AddressTest::any(), rest));
    }
    if word == b"host".as_slice() {
        return host(rest);
    }
    match word_addr(word) {
        Some(addr) => wildcard_from(addr, rest),
        None => None,
    }
}

/// The test of a standard line: `any`, `host A`, `A` or `A W`.
pub(crate) fn read_source(words: Words) -> Option<(AddressTest, Words)>
    ensures { IsPart (tests.source (words_left words.entry)) result }
{
    let mut rest = words;
    let Some(word) = rest.next_word() else {
        return None;
    };
    if word == b"any".as_slice() {
        return Some((AddressTest::any(), rest));
    }
    if word == b"host".as_slice() {
        return host(rest);
    }
    match word_addr(word) {
        Some(addr) => Some(wildcard_or_alone(addr, rest)),
        None => None,
    }
}
