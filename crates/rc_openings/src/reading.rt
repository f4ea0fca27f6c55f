//! The refusals of a line, and the answers that all grammars share.
ghost use Rattle.std.specs.Prelude.{◌≡◌, [], ◌∷◌};
ghost use Rattle.rc_openings.specs.Words.{words_left};
ghost use Rattle.rc_openings.specs.Reading.{code_of, share_a_word as have_one_word, judged as judged_answer, unopened as unopened_refusal};

use crate::{Words, is_form};

/// Why a line is refused.
#[derive(Clone, Copy)]
pub enum LineRefusal {
    /// No opening of any block begins the line.
    Unknown,
    /// The line means what is not modelled.
    Unsupported,
    /// The line fits no row of its form.
    BadValue,
    /// The line is of a form of another block.
    OutOfPlace,
}

impl LineRefusal {
    /// The number of the refusal.
    pub fn code(self) -> u8
        ensures { result ≡ code_of self }
    {
        match self {
            LineRefusal::Unknown => 1,
            LineRefusal::Unsupported => 2,
            LineRefusal::BadValue => 3,
            LineRefusal::OutOfPlace => 4,
        }
    }
}

/// Why a line gives no command, in every grammar.
#[derive(Clone, Copy)]
pub enum LineError {
    /// It is refused.
    Refused(LineRefusal),
    /// Memory ran out.
    Memory,
}

/// Whether the word is one of these.
fn is_one_of(word: &[u8], mut words: Words) -> bool
    ensures { result ≡ have_one_word (word.now ∷ []) (words_left words.entry) }
{
    while let Some(other) = words.next_word() {
        if word == other {
            return true;
        }
    }
    false
}

/// Whether one of the words is one of the refused ones.
fn share_a_word(mut words: Words, refused: Words) -> bool
    ensures { result ≡ have_one_word (words_left words.entry) (words_left refused.entry) }
{
    while let Some(word) = words.next_word() {
        if is_one_of(word, refused) {
            return true;
        }
    }
    false
}

/// The answer to a line of a form, given that of its rows: one that fits no row is not modelled where one of the words
/// behind the opening is a refused one.
pub fn judged<C>(
    answer: Result<C, LineRefusal>,
    rest: Words,
    refused: Words,
) -> Result<C, LineRefusal>
    ensures { result ≡ judged_answer (words_left refused.entry) (words_left rest.entry) answer }
{
    match answer {
        Err(LineRefusal::BadValue) if share_a_word(rest, refused) => Err(LineRefusal::Unsupported),
        _ => answer,
    }
}

/// The refusal of a line that begins with no opening of its block. Few lines are refused, so what this needs is a call of its own.
#[inline(never)]
pub fn unopened(line: Words) -> LineRefusal
    ensures { result ≡ unopened_refusal (words_left line.entry) }
{
    if is_form(line, 0) {
        LineRefusal::OutOfPlace
    } else {
        LineRefusal::Unknown
    }
}
