//! An opening, and what it says of a line.
ghost use Rattle.std.specs.Prelude.{◌≡◌, ◌≤◌, true, false, [], Some, length, drop};
ghost use Rattle.std.specs.Option.{option_map};
ghost use Rattle.rc_openings.specs.Words.{words_of, words_left, ends_word as ends};
ghost use Rattle.rc_openings.specs.Opening.{begins_with, byte_before, common, told_by, glance, left_behind, is_form_verdict};

use crate::words::is_blank;
use crate::{Form, Words};

/// What an opening says of a line that it decides.
#[derive(Clone, Copy)]
pub enum Verdict {
    /// The line is of this form.
    Form(Form),
    /// The line means what is not modelled.
    Refused,
    /// The line is passed over.
    Ignored,
}

/// The words with which a line begins, and what they say of it. The word `*` stands for any one word.
#[derive(Clone, Copy)]
pub struct Opening {
    /// The words, with blanks between them.
    pub text: &'static [u8],
    pub verdict: Verdict,
}

/// What the texts of an opening and of a line tell at a glance, byte by byte.
#[derive(Clone, Copy)]
pub(crate) enum Glance {
    /// The line's text begins with that of the opening, and a blank or the end follows: the line begins with its words.
    Begins,
    /// They differ within a word, at a byte of the opening that no `*` has: the line doesn't begin with its words.
    Differs,
    /// The words have to be held against each other.
    Unclear,
}

/// What is told where the texts differ at these bytes, behind that one. No byte up to `*` surely stands for itself, and none up to that of a
/// space is surely within a word; but a blank behind a byte of a word ends a word that the opening's goes on.
fn at_difference(before: u8, byte: u8, other: u8) -> Glance
    ensures { result ≡ told_by (Some (before, byte, other)) }
{
    if byte > b'*' && (other > b' ' || is_blank(other) && !is_blank(before)) {
        Glance::Differs
    } else {
        Glance::Unclear
    }
}

/// What is told where the text of the opening ends, and this is left of the line.
fn at_end(rest: &[u8]) -> Glance
    ensures { result ≡ glance [] rest.now }
{
    match rest {
        [] => Glance::Begins,
        [byte, ..] => {
            if is_blank(*byte) {
                Glance::Begins
            } else {
                Glance::Unclear
            }
        }
    }
}

/// How many bytes texts have in common at their fronts.
fn common(first: &[u8], second: &[u8]) -> usize
    ensures count { result ≡ common first.now second.now }
    ensures first { result ≤ length first.now }
    ensures second { result ≤ length second.now }
{
    let most = first.len().min(second.len());
    for count in 0..most {
        if first[count] != second[count] {
            return count;
        }
    }
    most
}

/// The byte before the one at an index, and a blank where there is none.
fn byte_before(text: &[u8], index: usize) -> u8
    requires { index ≤ length text.now }
    ensures { result ≡ byte_before 32 text.now index }
{
    if index == 0 {
        return b' ';
    }
    text[index - 1]
}

/// What the texts of an opening and of a line tell at a glance, by the first bytes at which they differ.
fn compared(opening: &[u8], line: &[u8]) -> Glance
    ensures { result ≡ glance opening.now line.now }
{
    let count = common(opening, line);
    if count == opening.len() {
        return at_end(&line[count..]);
    }
    if count == line.len() {
        return Glance::Unclear;
    }
    at_difference(byte_before(opening, count), opening[count], line[count])
}

/// Whether a word ends where this is left of a text.
fn ends_word(rest: &[u8]) -> bool
    ensures { result ≡ ends rest.now }
{
    match rest {
        [byte, ..] => is_blank(*byte),
        [] => true,
    }
}

/// What is left of a text behind another one with which it begins.
pub fn left_behind<'a>(front: &[u8], text: &'a [u8]) -> Option<&'a [u8]>
    ensures { option_map (λ rest. rest.now) result ≡ left_behind front.now text.entry.now }
{
    let count = common(front, text);
    if count == front.len() {
        Some(&text[count..])
    } else {
        None
    }
}

impl Opening {
    /// Its words.
    pub fn words(&self) -> Words<'static>
        ensures { words_left result ≡ words_of self.now.text.now }
    {
        Words::new(self.text)
    }

    /// The words of a line behind as many as the opening has: mostly its text begins with that of the opening.
    pub fn behind<'a>(&self, line: Words<'a>) -> Words<'a>
        ensures { words_left result ≡ drop (length (words_of self.now.text.now)) (words_left line.entry) }
    {
        let Some(rest) = left_behind(self.text, line.text()) else {
            return self.behind_words(line);
        };
        if ends_word(rest) {
            Words::new(rest)
        } else {
            self.behind_words(line)
        }
    }

    /// The same, word by word.
    fn behind_words<'a>(&self, line: Words<'a>) -> Words<'a>
        ensures { words_left result ≡ drop (length (words_of self.now.text.now)) (words_left line.entry) }
    {
        let mut rest = line;
        let mut words = self.words();
        while words.next_word().is_some() {
            let _ = rest.next_word();
        }
        rest
    }

    /// Whether it begins a form.
    pub(crate) fn is_form(&self) -> bool
        ensures { result ≡ is_form_verdict self.now.verdict }
    {
        matches!(self.verdict, Verdict::Form(_))
    }

    /// What a line with this text tells of it at a glance: the quick test that settles most openings.
    pub(crate) fn look(&self, line: &[u8]) -> Glance
        ensures begins { result ≡ Glance.Begins → begins_with (words_of line.now) (words_of self.now.text.now) ≡ true }
        ensures differs { result ≡ Glance.Differs → begins_with (words_of line.now) (words_of self.now.text.now) ≡ false }
    {
        compared(self.text, line)
    }
}
