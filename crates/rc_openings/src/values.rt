//! The values that words write.
ghost use Rattle.std.specs.Prelude.{◌≡◌, ◌==◌, ◌≤◌, [], ◌∷◌, drop, Some, None, IfSome, MatchOption};
ghost use Rattle.std.specs.List.{slice_split, position};
ghost use Rattle.rc_openings.specs.Values.{digits_from, at_most, number_of, number_within, octet, first_octet, address_of, mask_length_of, prefix_from, prefix_of, area_of, begins_with_letter, interface_of};

use rc_base::{Addr, Name, Prefix, len_of};

/// The number of these digits, where it is at most the limit.
fn digits_value(digits: &[u8], limit: u32) -> Option<u32>
    ensures small { IfSome result (λ n. n ≤ limit) }
    ensures value { result ≡ at_most limit (digits_from 0 digits.now) }
{
    let mut value = 0u64;
    for digit in digits {
        if !digit.is_ascii_digit() {
            return None;
        }
        value = 10 * value + u64::from(*digit - b'0');
        if value > u64::from(limit) {
            return None;
        }
    }
    Some(value as u32)
}

/// The number that a word is: one to ten decimal digits, which may begin with zeros, of a number below 2^32.
pub fn word_u32(word: &[u8]) -> Option<u32>
    ensures { result ≡ number_of word.now }
{
    if word.is_empty() || word.len() > 10 {
        return None;
    }
    digits_value(word, u32::MAX)
}

/// The number that a word is, where it is from `low` to `high`.
pub fn number_in(low: u32, high: u32, word: &[u8]) -> Option<u32>
    ensures within { IfSome result (λ n. (low ≤ n) × (n ≤ high)) }
    ensures value { result ≡ number_within low high word.now }
{
    match word_u32(word) {
        Some(value) if low <= value && value <= high => Some(value),
        _ => None,
    }
}

/// The octet that one digit is.
#[inline(always)]
fn one_digit(ones: u8) -> Option<u32>
    ensures small { IfSome result (λ n. n ≤ 255) }
    ensures value { result ≡ octet (ones ∷ []) }
{
    if !ones.is_ascii_digit() {
        return None;
    }
    Some(u32::from(ones - b'0'))
}

/// The octet that two digits are.
#[inline(always)]
fn two_digits(tens: u8, ones: u8) -> Option<u32>
    ensures small { IfSome result (λ n. n ≤ 255) }
    ensures value { result ≡ octet (tens ∷ ones ∷ []) }
{
    if !tens.is_ascii_digit() || !ones.is_ascii_digit() {
        return None;
    }
    Some(10 * u32::from(tens - b'0') + u32::from(ones - b'0'))
}

/// The octet that three digits are.
#[inline(always)]
fn three_digits(hundreds: u8, tens: u8, ones: u8) -> Option<u32>
    ensures small { IfSome result (λ n. n ≤ 255) }
    ensures value { result ≡ octet (hundreds ∷ tens ∷ ones ∷ []) }
{
    if !hundreds.is_ascii_digit() || !tens.is_ascii_digit() || !ones.is_ascii_digit() {
        return None;
    }
    let front = 10 * u32::from(hundreds - b'0') + u32::from(tens - b'0');
    let value = 10 * front + u32::from(ones - b'0');
    if value > 255 {
        return None;
    }
    Some(value)
}

/// The octet that these digits are.
fn octet_value(digits: &[u8]) -> Option<u32>
    ensures value { result ≡ octet digits.now }
    ensures small { IfSome result (λ n. n ≤ 255) }
{
    match digits {
        [ones] => one_digit(*ones),
        [tens, ones] => two_digits(*tens, *ones),
        [hundreds, tens, ones] => three_digits(*hundreds, *tens, *ones),
        _ => None,
    }
}

/// The octet that stands before the first dot of a word, and what stands behind that dot. An octet has at most three
/// digits, so a dot further on isn't looked for.
#[inline(always)]
fn octet_and_rest(word: &[u8]) -> Option<(u32, &[u8])>
    ensures small { IfSome result (λ found. found.0 ≤ 255) }
    ensures value { MatchOption result (first_octet (slice_split (λ b. b == 46) word.now) ≡ None)
        (λ found. (first_octet (slice_split (λ b. b == 46) word.now) ≡ Some found.0)
        × (drop 1 (slice_split (λ b. b == 46) word.now) ≡ slice_split (λ b. b == 46) found.1.now)) }
{
    match word {
        [ones, b'.', rest @ ..] => Some((one_digit(*ones)?, rest)),
        [tens, ones, b'.', rest @ ..] => Some((two_digits(*tens, *ones)?, rest)),
        [hundreds, tens, ones, b'.', rest @ ..] => {
            Some((three_digits(*hundreds, *tens, *ones)?, rest))
        }
        _ => None,
    }
}

fn mark_at(word: &[u8], mark: u8) -> Option<usize>
    ensures { result ≡ position (λ b. b == mark) word.now }
{
    word.iter().position(|b| *b == mark)
}

/// What stands before the first such byte of a word, and after it, or `None` exactly where it has none.
pub fn before_mark(word: &[u8], mark: u8) -> Option<(&[u8], &[u8])>
    ensures { MatchOption result (slice_split (λ b. b == mark) word.now ≡ word.now ∷ [])
        (λ parts. slice_split (λ b. b == mark) word.now ≡ parts.0.now ∷ slice_split (λ b. b == mark) parts.1.now) }
{
    match mark_at(word, mark) {
        Some(end) => Some((&word[..end], &word[end + 1..])),
        None => None,
    }
}

/// The address that a word is: four decimal parts of one to three digits, each at most 255, with dots between them.
pub fn word_addr(word: &[u8]) -> Option<Addr>
    ensures { result ≡ address_of word.now }
{
    let Some((first, rest)) = octet_and_rest(word) else {
        return None;
    };
    let Some((second, rest)) = octet_and_rest(rest) else {
        return None;
    };
    let Some((third, rest)) = octet_and_rest(rest) else {
        return None;
    };
    match octet_value(rest) {
        Some(fourth) => Some(Addr::new(((first * 256 + second) * 256 + third) * 256 + fourth)),
        None => None,
    }
}

/// The length, from 0 to 32, of the mask that a word is: an address whose ones are a front.
pub fn word_mask(word: &[u8]) -> Option<u8>
    ensures short { IfSome result (λ n. n ≤ 32) }
    ensures value { result ≡ mask_length_of word.now }
{
    match word_addr(word) {
        Some(addr) => len_of(addr),
        None => None,
    }
}

/// The two parts of a word between slashes.
fn two_parts(word: &[u8]) -> Option<(&[u8], &[u8])>
    ensures { MatchOption result (prefix_of word.now ≡ None) (λ p. slice_split (λ b. b == 47) word.now ≡ p.0.now ∷ p.1.now ∷ []) }
{
    let Some((first, second)) = before_mark(word, b'/') else {
        return None;
    };
    match before_mark(second, b'/') {
        None => Some((first, second)),
        Some(_) => None,
    }
}

/// The prefix that a word is: an address, a slash and a length from 0 to 32. Its host bits are cleared.
pub fn word_prefix(word: &[u8]) -> Option<Prefix>
    ensures { result ≡ prefix_of word.now }
{
    let Some((addr, len)) = two_parts(word) else {
        return None;
    };
    match (word_addr(addr), number_in(0, 32, len)) {
        (Some(addr), Some(len)) => Prefix::new(addr, len as u8),
        _ => None,
    }
}

/// The prefix that an address and a mask are, two words: its host bits are cleared.
pub fn prefix_under(addr: &[u8], mask: &[u8]) -> Option<Prefix>
    ensures { result ≡ prefix_from (address_of addr.now) (mask_length_of mask.now) }
{
    match (word_addr(addr), word_mask(mask)) {
        (Some(addr), Some(len)) => Prefix::new(addr, len),
        _ => None,
    }
}

/// The number of an area that a word is (RFC 2328 C.2): a number, or a dotted word of that value.
pub fn word_area(word: &[u8]) -> Option<u32>
    ensures { result ≡ area_of word.now }
{
    match word_u32(word) {
        Some(area) => Some(area),
        None => match word_addr(word) {
            Some(dotted) => Some(dotted.bits()),
            None => None,
        },
    }
}

/// Whether a word begins with a letter.
pub fn begins_with_letter(word: &[u8]) -> bool
    ensures { result ≡ begins_with_letter word.now }
{
    match word {
        [first, ..] => first.is_ascii_alphabetic(),
        [] => false,
    }
}

/// The name of an interface that a word is: a name that begins with a letter.
pub fn word_interface(word: &[u8]) -> Option<Name>
    ensures { result ≡ interface_of word.now }
{
    match Name::new(word) {
        Some(name) if begins_with_letter(word) => Some(name),
        _ => None,
    }
}
