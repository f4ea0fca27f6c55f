//! Edits of a list.
ghost use Rattle.std.specs.Prelude.{◌≡◌};
ghost use Rattle.std.specs.Ordering.{is_lt};
ghost use Rattle.rc_base.specs.Prefix.{prefix_cmp};
ghost use Rattle.rc_pieces.specs.Editing.{goes_before};

use rc_base::Prefix;
use std::cmp::Ordering;
use std::collections::VecDeque;

/// What is there for a prefix from now on, in place of what was.
#[derive(Drop)]
pub struct Edit<T> {
    pub prefix: Prefix,
    /// Nothing, or what has this prefix.
    pub value: Option<T>,
}

/// Edits in order of prefix, which are taken from the front.
pub type Edits<T> = VecDeque<Edit<T>>;

/// Whether a prefix stands before another.
fn stands_before(prefix: Prefix, end: Prefix) -> bool
    ensures { result ≡ is_lt (prefix_cmp prefix end) }
{
    match prefix.cmp(&end) {
        Ordering::Less => true,
        Ordering::Equal => false,
        Ordering::Greater => false,
    }
}

/// Whether the first of some edits is of a prefix before an end, if there is one.
pub(crate) fn goes_before<T>(edits: &Edits<T>, end: &Option<Prefix>) -> bool
    ensures { result ≡ goes_before edits.now.items end.now }
{
    match edits.front() {
        None => false,
        Some(edit) => match end {
            None => true,
            Some(end) => stands_before(edit.prefix, *end),
        },
    }
}

/// How many of some edits, which stand in order, are of a prefix before an end, if there is one.
pub(crate) fn number_before<T>(edits: &Edits<T>, end: &Option<Prefix>) -> usize {
    let Some(end) = end else {
        return edits.len();
    };
    let mut number: usize = 0;
    for edit in edits.iter() {
        if !stands_before(edit.prefix, *end) {
            return number;
        }
        number = number.saturating_add(1);
    }
    number
}
