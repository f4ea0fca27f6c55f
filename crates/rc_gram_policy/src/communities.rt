//! Several communities.
ghost use Rattle.std.specs.Prelude.{◌≡◌, IfOk};
ghost use Rattle.rc_openings.specs.Words.{words_left};
ghost use Rattle.rc_gram_policy.specs.Parts.{values_in_front};
ghost use Rattle.rc_gram_policy.specs.Values.{community_of};

use crate::values::word_community;
use rc_base::Items;
use rc_openings::Words;
use std::alloc::{AllocError, Global};

/// The communities that the words in front are, as they are written, and the words behind them.
pub(crate) fn read_communities<'a>(
    alloc: Global,
    words: Words<'a>,
) -> Result<(Items<u32>, Words<'a>), AllocError>
    ensures { IfOk result (λ p. values_in_front community_of (words_left words.entry) ≡ (p.0, words_left p.1)) }
{
    let mut numbers = Items::new(alloc);
    let mut rest = words;
    let mut behind = words;
    while let Some(word) = behind.next_word() {
        match word_community(word) {
            Some(number) => numbers.push(number)?,
            None => return Ok((numbers, rest)),
        }
        rest = behind;
    }
    Ok((numbers, behind))
}
