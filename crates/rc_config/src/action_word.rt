//! The words with which lines of lists say what becomes of what they match.
ghost use Rattle.std.specs.Prelude.{◌≡◌};
ghost use Rattle.rc_config.specs.ActionWord as words;

use crate::Action;

/// The action that a word is, `permit` or `deny`, or `None` exactly where it is another word.
pub fn action_of(word: &[u8]) -> Option<Action>
    ensures { result ≡ words.action_of word.now }
{
    if word == b"permit".as_slice() {
        return Some(Action::Permit);
    }
    if word == b"deny".as_slice() {
        return Some(Action::Deny);
    }
    None
}
