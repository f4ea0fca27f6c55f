//! The numbers of AS that are put before a path.
ghost use Rattle.std.specs.Prelude.{◌≡◌, ◌≤◌, All, IfOk, IfSome, length};
ghost use Rattle.rc_openings.specs.Words.{words_left};
ghost use Rattle.rc_config.specs.Sets.{IsPrepended};
ghost use Rattle.rc_gram_policy.specs.MapLines.{prepended};
ghost use Rattle.rc_gram_policy.specs.Parts.{values_in_front};
ghost use Rattle.rc_gram_policy.specs.Values.{as_number_of};

use crate::values::word_as;
use rc_base::Items;
use rc_openings::Words;
use std::alloc::{AllocError, Global};

/// The numbers of AS that the words in front are, and the words behind them.
fn numbers_from<'a>(alloc: Global, words: Words<'a>) -> Result<(Items<u32>, Words<'a>), AllocError>
    ensures numbers { IfOk result (λ p. values_in_front as_number_of (words_left words.entry) ≡ (p.0, words_left p.1)) }
    ensures each { IfOk result (λ p. All (λ n. 1 ≤ n) p.0) }
{
    let mut numbers = Items::new(alloc);
    let mut rest = words;
    let mut behind = words;
    while let Some(word) = behind.next_word() {
        match word_as(word) {
            Some(number) => numbers.push(number)?,
            None => return Ok((numbers, rest)),
        }
        rest = behind;
    }
    Ok((numbers, behind))
}

/// The numbers of AS that the words are, one to ten of them.
pub(crate) fn read_prepended(alloc: Global, words: Words) -> Result<Option<Items<u32>>, AllocError>
    ensures numbers { IfOk result (λ read. read ≡ prepended (words_left words.entry)) }
    ensures lawful { IfOk result (λ read. IfSome read (λ ns. (1 ≤ length ns) × IsPrepended ns)) }
{
    let (numbers, rest) = numbers_from(alloc, words)?;
    if numbers.is_empty() || numbers.len() > 10 || !rest.is_empty() {
        return Ok(None);
    }
    Ok(Some(numbers))
}
