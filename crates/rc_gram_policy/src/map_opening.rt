//! The lines that open an entry of a route map.
ghost use Rattle.std.specs.Prelude.{◌≡◌, ◌≤◌, IfOk};
ghost use Rattle.rc_openings.specs.Words.{words_left};
ghost use Rattle.rc_gram_policy.specs.MapLines as lines;
ghost use Rattle.rc_gram_policy.specs.Lines.{fitted, opening_answer};

use rc_base::Name;
use rc_config::{Action, action_of};
use rc_openings::{LineRefusal, Words, number_in};

/// The entry of a route map that a line opens.
#[derive(Clone, Copy)]
pub(crate) struct OpenedEntry {
    pub map: Name,
    /// The entry's number, from 0 to 65535.
    pub number: u32,
    pub action: Action,
}

fn entry_of(
    map: Option<Name>,
    action: Option<Action>,
    number: Option<u32>,
) -> Result<OpenedEntry, LineRefusal>
    ensures row { result ≡ fitted (lines.entry_of map action number) }
    ensures number { IfOk result (λ e. number ≡ Some e.number) }
{
    match (map, action, number) {
        (Some(map), Some(action), Some(number)) => Ok(OpenedEntry {
            map,
            number,
            action,
        }),
        _ => Err(LineRefusal::BadValue),
    }
}

/// The entry that the words behind `route-map` open: `NAME permit|deny N`, N from 0 to 65535.
///
/// It errs, as a bad value, exactly where the words don't fit. It takes no memory.
pub(crate) fn read_map_opening(mut words: Words) -> Result<OpenedEntry, LineRefusal>
    ensures row { result ≡ opening_answer (words_left words.entry) }
    ensures lawful { IfOk result (λ e. e.number ≤ 65535) }
{
    let (Some(map), Some(action), Some(number), None) = (
        words.next_word(),
        words.next_word(),
        words.next_word(),
        words.next_word(),
    ) else {
        return Err(LineRefusal::BadValue);
    };
    entry_of(
        Name::new(map),
        action_of(action),
        number_in(0, 65535, number),
    )
}
