//! The words of policies that are values.
ghost use Rattle.std.specs.Prelude.{◌≡◌, ◌==◌, ◌≤◌, IfSome};
ghost use Rattle.std.specs.List.{slice_split};
ghost use Rattle.rc_openings.specs.Values.{number_within};
ghost use Rattle.rc_gram_policy.specs.Values as values;

use rc_base::Communities;
use rc_openings::{before_mark, number_in, word_u32};

/// The community of these two halves, each to 65535.
fn from_halves(upper: &[u8], lower: &[u8]) -> Option<u32>
    ensures { result ≡ values.from_halves (number_within 0 65535 upper.now) (number_within 0 65535 lower.now) }
{
    match (number_in(0, 65535, upper), number_in(0, 65535, lower)) {
        (Some(upper), Some(lower)) => Some(upper * 65536 + lower),
        _ => None,
    }
}

/// The community that a word without a name is: `N:N`, or a number.
fn numbered(word: &[u8]) -> Option<u32>
    ensures { result ≡ values.community_of_parts (slice_split (λ b. b == 58) word.now) }
{
    let Some((upper, rest)) = before_mark(word, b':') else {
        return word_u32(word);
    };
    match before_mark(rest, b':') {
        None => from_halves(upper, rest),
        Some(_) => None,
    }
}

/// The community that a word is: `N:N` with both parts to 65535, a number, `no-export` or `no-advertise` (RFC 1997).
pub(crate) fn word_community(word: &[u8]) -> Option<u32>
    ensures { result ≡ values.community_of word.now }
{
    if word == b"no-export".as_slice() {
        return Some(Communities::NO_EXPORT);
    }
    if word == b"no-advertise".as_slice() {
        return Some(Communities::NO_ADVERTISE);
    }
    numbered(word)
}

/// The number of an AS that a word is, from 1 on.
pub(crate) fn word_as(word: &[u8]) -> Option<u32>
    ensures value { result ≡ values.as_number_of word.now }
    ensures within { IfSome result (λ n. 1 ≤ n) }
{
    number_in(1, u32::MAX, word)
}
