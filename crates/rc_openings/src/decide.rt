//! The opening that decides a line.
ghost use Rattle.std.specs.Prelude.{◌≡◌, true, List, [], ◌∷◌, ◌++◌, length, map, nat_lt};
ghost use Rattle.std.specs.List.{list_all};
ghost use Rattle.std.specs.Option.{option_copied, option_map};
ghost use Rattle.rc_openings.specs.Groups.{has_one_word};
ghost use Rattle.rc_openings.specs.Words.{words_left, words_of};
ghost use Rattle.rc_openings.specs.Opening.{begins_with as begins, begins_form as begins_form_of, IsAnswer, Row, row_of};

use crate::opening::Glance;
use crate::{Opening, Words};

/// Whether a line with these words begins with the words of the opening.
#[inline(never)]
fn begins_with(mut line: Words, mut opening: Words) -> bool
    ensures { result ≡ begins (words_left line.entry) (words_left opening.entry) }
{
    while let Some(token) = opening.next_word() {
        match line.next_word() {
            Some(word) if token == b"*".as_slice() || token == word => {}
            _ => return false,
        }
    }
    true
}

/// Whether the first has more words than the second.
fn is_longer(mut first: Words, mut second: Words) -> bool
    ensures { result ≡ nat_lt (length (words_left second.entry)) (length (words_left first.entry)) }
{
    while first.next_word().is_some() {
        if second.next_word().is_none() {
            return true;
        }
    }
    false
}

/// Whether a line of this text begins with the words of the opening: a glance tells it of most.
#[inline(always)]
fn begins_opening(opening: &Opening, text: &[u8]) -> bool
    ensures { result ≡ begins (words_of text.now) (words_of opening.now.text.now) }
{
    match opening.look(text) {
        Glance::Begins => true,
        Glance::Differs => false,
        Glance::Unclear => begins_with(Words::new(text), opening.words()),
    }
}

/// The decisive one of some openings and one more, for a line of this text.
fn better<'a>(best: Option<&'a Opening>, opening: &'a Opening, text: &[u8]) -> Option<&'a Opening>
    ensures { (rows : List Row) → IsAnswer rows (words_of text.now) (option_map row_of (option_copied best.entry)) → IsAnswer (rows ++ row_of opening.entry.now ∷ []) (words_of text.now) (option_map row_of (option_copied result)) }
{
    if !begins_opening(opening, text) {
        return best;
    }
    match best {
        None => Some(opening),
        Some(other) => {
            if is_longer(opening.words(), other.words()) {
                Some(opening)
            } else {
                best
            }
        }
    }
}

/// The decisive one of some openings and these, for a line of this text. Openings are lent, since a line is held against several and
/// a copy of each answer would cost more than the look at its words.
pub(crate) fn decisive_from<'a>(
    best: Option<&'a Opening>,
    openings: &'a [Opening],
    text: &[u8],
) -> Option<&'a Opening>
    ensures { (rows : List Row) → IsAnswer rows (words_of text.now) (option_map row_of (option_copied best.entry)) → IsAnswer (rows ++ map row_of openings.entry.now) (words_of text.now) (option_map row_of (option_copied result)) }
{
    let mut decided = best;
    for opening in openings {
        decided = better(decided, opening, text);
    }
    decided
}

/// The first of some openings with which a line of this text begins: where each has one word, it is the decisive one.
#[inline(always)]
pub(crate) fn first_fitting<'a>(openings: &'a [Opening], text: &[u8]) -> Option<&'a Opening>
    ensures { list_all has_one_word (map row_of openings.entry.now) ≡ true → IsAnswer (map row_of openings.entry.now) (words_of text.now) (option_map row_of (option_copied result)) }
{
    for opening in openings {
        if begins_opening(opening, text) {
            return Some(opening);
        }
    }
    None
}

/// The opening that is lent.
pub(crate) fn copied(lent: Option<&Opening>) -> Option<Opening>
    ensures { result ≡ option_copied lent.entry }
{
    match lent {
        Some(opening) => Some(*opening),
        None => None,
    }
}

/// The same as `decisive`, lent.
pub(crate) fn decisive_of<'a>(openings: &'a [Opening], line: Words) -> Option<&'a Opening>
    ensures { IsAnswer (map row_of openings.entry.now) (words_left line.entry) (option_map row_of (option_copied result)) }
{
    decisive_from(None, openings, line.text())
}

/// Of the openings with which the line begins, the one with most words, or `None` exactly where it begins with none.
pub fn decisive(openings: &[Opening], line: Words) -> Option<Opening>
    ensures { IsAnswer (map row_of openings.now) (words_left line.entry) (option_map row_of result) }
{
    copied(decisive_of(openings, line))
}

/// Whether the line begins with one of the openings that begin a form.
pub(crate) fn begins_form(openings: &[Opening], line: Words) -> bool
    ensures { result ≡ begins_form_of (map row_of openings.now) (words_left line.entry) }
{
    for opening in openings {
        if opening.is_form() && begins_with(line, opening.words()) {
            return true;
        }
    }
    false
}
