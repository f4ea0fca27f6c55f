//! The words with which lines say in which direction a list filters.
ghost use Rattle.std.specs.Prelude.{◌≡◌};
ghost use Rattle.rc_config.specs.DirectionWord as words;

use crate::Direction;

/// The direction that a word is, `in` or `out`, or `None` exactly where it is another word.
pub fn direction_of(word: &[u8]) -> Option<Direction>
    ensures { result ≡ words.direction_of word.now }
{
    if word == b"in".as_slice() {
        return Some(Direction::In);
    }
    if word == b"out".as_slice() {
        return Some(Direction::Out);
    }
    None
}
