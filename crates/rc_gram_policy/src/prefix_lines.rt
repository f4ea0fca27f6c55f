//! The lines of prefix lists.
ghost use Rattle.std.specs.Prelude.{◌≡◌, ◌≤◌, false, IfOk, IfSome};
ghost use Rattle.std.specs.Option.{option_copied};
ghost use Rattle.rc_openings.specs.Words.{words_left};
ghost use Rattle.rc_config.specs.Named.{named};
ghost use Rattle.rc_config.specs.PrefixList.{IsLawfulLine, greatest_sequence, has_sequence};
ghost use Rattle.rc_gram_policy.specs.PrefixLines as lines;
ghost use Rattle.rc_gram_policy.specs.Lines.{fitted, prefix_answer};

use crate::optional::{read_bound, read_optional};
use rc_base::{Name, Prefix};
use rc_config::{Action, Named, PrefixLine, PrefixList, action_of};
use rc_openings::{LineRefusal, Words, word_prefix};

/// `[ge G] [le E]` behind a prefix.
fn bounded(sequence: u32, action: Action, prefix: Prefix, words: Words) -> Option<PrefixLine>
    ensures row { result ≡ lines.bounded sequence action prefix (words_left words.entry) }
    ensures numbered { IfSome result (λ l. l.sequence ≡ sequence) }
    ensures lawful { IfSome result IsLawfulLine }
{
    let over = prefix.len() + 1;
    let Some((ge, rest)) = read_bound(b"ge", over, words) else {
        return None;
    };
    let Some((le, behind)) = read_bound(b"le", ge.unwrap_or(over), rest) else {
        return None;
    };
    if !behind.is_empty() {
        return None;
    }
    Some(PrefixLine {
        sequence,
        action,
        prefix,
        ge,
        le,
    })
}

/// `permit|deny P/L [ge G] [le E]`
fn line_numbered(sequence: u32, mut words: Words) -> Option<PrefixLine>
    ensures row { result ≡ lines.line_numbered sequence (words_left words.entry) }
    ensures numbered { IfSome result (λ l. l.sequence ≡ sequence) }
    ensures lawful { IfSome result IsLawfulLine }
{
    let (Some(action), Some(prefix)) = (words.next_word(), words.next_word()) else {
        return None;
    };
    match (action_of(action), word_prefix(prefix)) {
        (Some(action), Some(prefix)) => bounded(sequence, action, prefix, words),
        _ => None,
    }
}

/// The number, where it is one to 4294967295 that no line of the list has.
fn if_free(list: &PrefixList, number: u64) -> Option<u32>
    ensures value { result ≡ lines.if_free list.now.lines number }
    ensures free { IfSome result (λ n. has_sequence list.now.lines n ≡ false) }
{
    if number > 4_294_967_295 {
        return None;
    }
    let number = number as u32;
    if list.has_line(number) {
        None
    } else {
        Some(number)
    }
}

/// The number of a line behind the last one, which has the greatest.
fn number_behind(list: &PrefixList) -> u64
    ensures { result ≡ lines.number_behind (greatest_sequence list.now.lines) }
{
    match list.greatest() {
        Some(last) => u64::from(last) + 5,
        None => 5,
    }
}

/// The number of one more line of a list, which may have one written.
fn sequence_for(list: Option<&PrefixList>, written: Option<u32>) -> Option<u32>
    ensures value { result ≡ lines.sequence_for (lines.lines_in (option_copied list.entry)) written }
    ensures free { IfSome result (λ n. has_sequence (lines.lines_in (option_copied list.entry)) n ≡ false) }
{
    match list {
        None => Some(written.unwrap_or(5)),
        Some(list) => match written {
            Some(number) => if_free(list, u64::from(number)),
            None => if_free(list, number_behind(list)),
        },
    }
}

/// `[seq N] permit|deny P/L [ge G] [le E]`
fn line_behind(list: Option<&PrefixList>, words: Words) -> Option<PrefixLine>
    ensures row { result ≡ lines.line_behind (lines.lines_in (option_copied list.entry)) (words_left words.entry) }
    ensures free { IfSome result (λ l. has_sequence (lines.lines_in (option_copied list.entry)) l.sequence ≡ false) }
    ensures lawful { IfSome result IsLawfulLine }
{
    let Some((written, rest)) = read_optional(b"seq", 0, u32::MAX, words) else {
        return None;
    };
    match sequence_for(list, written) {
        Some(sequence) => line_numbered(sequence, rest),
        None => None,
    }
}

/// One more line of the list of this name.
fn line_of(
    lists: &Named<PrefixList>,
    name: Option<Name>,
    words: Words,
) -> Result<(Name, PrefixLine), LineRefusal>
    ensures row { result ≡ fitted (lines.line_of lists.now name (words_left words.entry)) }
    ensures free { IfOk result (λ p. has_sequence (lines.lines_in (named lists.now p.0)) p.1.sequence ≡ false) }
    ensures lawful { IfOk result (λ p. IsLawfulLine p.1) }
{
    let Some(name) = name else {
        return Err(LineRefusal::BadValue);
    };
    match line_behind(lists.get(&name), words) {
        Some(line) => Ok((name, line)),
        None => Err(LineRefusal::BadValue),
    }
}

/// The line of a prefix list that the words behind `ip prefix-list` say, with the list's name:
/// `NAME [seq N] permit|deny P/L [ge G] [le E]`, given the lists so far. The line gets the number N, and where none is
/// written 5 above the greatest of the list, or 5 where it has no lines or isn't there. Host bits of the prefix are cleared.
///
/// It errs, as a bad value, exactly where the words don't fit: G and E are over L and at most 32, G is at most E, no line
/// of the list has the number, and a number that isn't written is at most 4294967295. It takes no memory.
pub(crate) fn read_prefix_line(
    lists: &Named<PrefixList>,
    mut words: Words,
) -> Result<(Name, PrefixLine), LineRefusal>
    ensures row { result ≡ prefix_answer lists.now (words_left words.entry) }
    // So the list stays lawful with the line.
    ensures free { IfOk result (λ p. has_sequence (lines.lines_in (named lists.now p.0)) p.1.sequence ≡ false) }
    ensures lawful { IfOk result (λ p. IsLawfulLine p.1) }
{
    match words.next_word() {
        Some(word) => line_of(lists, Name::new(word), words),
        None => Err(LineRefusal::BadValue),
    }
}
