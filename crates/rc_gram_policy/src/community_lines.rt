//! The lines of community lists.
ghost use Rattle.std.specs.Prelude.{◌≡◌, IfOk};
ghost use Rattle.rc_openings.specs.Values.{number_within};
ghost use Rattle.rc_openings.specs.Words.{words_left};
ghost use Rattle.rc_gram_policy.specs.CommunityLines as lines;
ghost use Rattle.rc_openings.specs.Reading.{Gives};
ghost use Rattle.rc_gram_policy.specs.Lines.{numbered_answer, standard_answer};

use crate::communities::read_communities;
use crate::refused::{refusal_of, refused_in_list};
use rc_base::{Communities, Name};
use rc_config::{Action, CommunityLine, action_of};
use rc_openings::{LineError, Words, number_in};
use std::alloc::{AllocError, Global};

/// The line of an action and the communities behind it.
fn line_with(
    alloc: Global,
    action: Action,
    words: Words,
) -> Result<Option<CommunityLine>, AllocError>
    ensures { IfOk result (λ line. line ≡ lines.line_with action (words_left words.entry)) }
{
    let (numbers, rest) = read_communities(alloc, words)?;
    if numbers.is_empty() || !rest.is_empty() {
        return Ok(None);
    }
    let communities = Communities::of(numbers.into_vec())?;
    Ok(Some(CommunityLine {
        action,
        communities,
    }))
}

/// `permit|deny COMM..`
fn community_line(alloc: Global, mut words: Words) -> Result<Option<CommunityLine>, AllocError>
    ensures { IfOk result (λ line. line ≡ lines.community_line (words_left words.entry)) }
{
    let Some(word) = words.next_word() else {
        return Ok(None);
    };
    match action_of(word) {
        Some(action) => line_with(alloc, action, words),
        None => Ok(None),
    }
}

/// The line with the list's name.
fn line_of(
    alloc: Global,
    name: Option<Name>,
    words: Words,
) -> Result<Option<(Name, CommunityLine)>, AllocError>
    ensures { IfOk result (λ line. line ≡ lines.line_of name (words_left words.entry)) }
{
    let Some(name) = name else {
        return Ok(None);
    };
    match community_line(alloc, words)? {
        Some(line) => Ok(Some((name, line))),
        None => Ok(None),
    }
}

/// The name of the list of the number that a word is, from 1 to 99.
fn number_name(word: &[u8]) -> Option<Name>
    ensures { result ≡ lines.number_name word.now }
{
    match number_in(1, 99, word) {
        Some(number) => Some(Name::of_number(number)),
        None => None,
    }
}

fn numbered_row(
    alloc: Global,
    mut words: Words,
) -> Result<Option<(Name, CommunityLine)>, AllocError>
    ensures { IfOk result (λ line. line ≡ lines.numbered_row (words_left words.entry)) }
{
    match words.next_word() {
        Some(word) => line_of(alloc, number_name(word), words),
        None => Ok(None),
    }
}

fn standard_row(
    alloc: Global,
    mut words: Words,
) -> Result<Option<(Name, CommunityLine)>, AllocError>
    ensures { IfOk result (λ line. line ≡ lines.standard_row (words_left words.entry)) }
{
    match words.next_word() {
        Some(word) => line_of(alloc, Name::new(word), words),
        None => Ok(None),
    }
}

/// The line of a community list that the words behind `ip community-list` say, with the list's name, which is its number's
/// digits: `N permit|deny COMM..`, N from 1 to 99 and COMM `N:N` with both parts to 65535, a number, `no-export` or
/// `no-advertise` (RFC 1997).
///
/// It is refused exactly where the words don't fit: as unsupported where a word is one whose meaning isn't modelled, and as
/// a bad value else.
pub(crate) fn read_numbered_community_line(
    alloc: Global,
    words: Words,
) -> Result<(Name, CommunityLine), LineError>
    ensures { Gives result (numbered_answer (words_left words.entry)) }
{
    match numbered_row(alloc, words) {
        Ok(Some(line)) => Ok(line),
        Ok(None) => Err(LineError::Refused(refusal_of(refused_in_list(), words))),
        Err(_) => Err(LineError::Memory),
    }
}

/// The same by name, behind `ip community-list standard`: `NAME permit|deny COMM..`.
pub(crate) fn read_standard_community_line(
    alloc: Global,
    words: Words,
) -> Result<(Name, CommunityLine), LineError>
    ensures { Gives result (standard_answer (words_left words.entry)) }
{
    match standard_row(alloc, words) {
        Ok(Some(line)) => Ok(line),
        Ok(None) => Err(LineError::Refused(refusal_of(refused_in_list(), words))),
        Err(_) => Err(LineError::Memory),
    }
}
