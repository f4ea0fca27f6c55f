//! Several names.
ghost use Rattle.std.specs.Prelude.{◌≡◌, ◌≤◌, IfOk, IfSome, length};
ghost use Rattle.rc_base.specs.Name.{name_of};
ghost use Rattle.rc_openings.specs.Words.{words_left};
ghost use Rattle.rc_gram_policy.specs.Parts.{values_in_front, values_of};

use rc_base::{Items, Name};
use rc_openings::Words;
use std::alloc::{AllocError, Global};

/// The names that the words in front are, and the words behind them.
fn names_from<'a>(alloc: Global, words: Words<'a>) -> Result<(Items<Name>, Words<'a>), AllocError>
    ensures { IfOk result (λ p. values_in_front name_of (words_left words.entry) ≡ (p.0, words_left p.1)) }
{
    let mut names = Items::new(alloc);
    let mut rest = words;
    let mut behind = words;
    while let Some(word) = behind.next_word() {
        match Name::new(word) {
            Some(name) => names.push(name)?,
            None => return Ok((names, rest)),
        }
        rest = behind;
    }
    Ok((names, behind))
}

/// The names that the words are, one or more of them.
pub(crate) fn read_names(alloc: Global, words: Words) -> Result<Option<Items<Name>>, AllocError>
    ensures names { IfOk result (λ names. names ≡ values_of name_of (words_left words.entry)) }
    ensures some { IfOk result (λ names. IfSome names (λ ns. 1 ≤ length ns)) }
{
    let (names, rest) = names_from(alloc, words)?;
    if names.is_empty() || !rest.is_empty() {
        return Ok(None);
    }
    Ok(Some(names))
}
