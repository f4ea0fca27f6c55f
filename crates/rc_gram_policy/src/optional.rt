//! Numbers behind a word of their own, which may be absent.
ghost use Rattle.std.specs.Prelude.{◌≡◌, ◌≤◌, IfSome};
ghost use Rattle.rc_openings.specs.Part.{IsPart};
ghost use Rattle.rc_openings.specs.Words.{words_left};
ghost use Rattle.rc_gram_policy.specs.Parts as parts;

use rc_openings::{Words, number_in};

/// `[KEY N]`, with N from `low` to `high`.
pub(crate) fn read_optional<'a>(
    key: &[u8],
    low: u32,
    high: u32,
    words: Words<'a>,
) -> Option<(Option<u32>, Words<'a>)>
    ensures row { IsPart (parts.optional key.now low high (words_left words.entry)) result }
    ensures within { IfSome result (λ p. IfSome p.0 (λ n. (low ≤ n) × (n ≤ high))) }
{
    let mut rest = words;
    let (Some(word), Some(value)) = (rest.next_word(), rest.next_word()) else {
        return Some((None, words));
    };
    if word != key {
        return Some((None, words));
    }
    match number_in(low, high, value) {
        Some(number) => Some((Some(number), rest)),
        None => None,
    }
}

/// `[KEY N]`, with N a length of prefixes from `low` to 32.
pub(crate) fn read_bound<'a>(
    key: &[u8],
    low: u8,
    words: Words<'a>,
) -> Option<(Option<u8>, Words<'a>)>
    ensures row { IsPart (parts.optional key.now low 32 (words_left words.entry)) result }
    ensures within { IfSome result (λ p. IfSome p.0 (λ n. (low ≤ n) × (n ≤ 32))) }
{
    match read_optional(key, u32::from(low), 32, words) {
        Some((Some(bound), rest)) => Some((Some(bound as u8), rest)),
        Some((None, rest)) => Some((None, rest)),
        None => None,
    }
}
