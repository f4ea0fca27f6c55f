//! What one hand has made.
ghost use Rattle.std.specs.Prelude.{◌≡◌, ◌∷◌, MatchOption, slice_get};
ghost use Rattle.std.specs.Option.{option_map};

use rc_base::Items;
use std::collections::VecDeque;
use std::marker::Model;

/// What one hand has made of items, each with its number, seen as the list of what is left of it.
pub(crate) struct Hand<T> {
    left: VecDeque<(usize, T)>,
}

/// By a function of its own, so that what holds hands drops each by one call.
impl<T: Drop> Drop for Hand<T> {
    fn drop(self) {
        let Hand { left: _ } = self;
    }
}

impl<T> Model for Hand<T> {
    ghost use Rattle.std.specs.Prelude.{List, ℕ};

    ghost Value = { List (ℕ × T) };

    ghost view = { λ h. h.left.items };
}

impl<T> Hand<T> {
    /// What was made, in the order of the items.
    pub fn of(made: Items<(usize, T)>) -> Hand<T>
        ensures { result ≡ made }
    {
        Hand {
            left: VecDeque::from(made.into_vec()),
        }
    }

    /// The number of the item of which the next element is made, if there is one.
    fn next_item(&self) -> Option<usize>
        ensures { result ≡ option_map (λ e. e.0) (slice_get self.now 0) }
    {
        match self.left.front() {
            None => None,
            Some(next) => Some(next.0),
        }
    }

    /// What was made of the item of this number, taken out of it, where that is the next element; else nothing.
    pub fn take(&mut self, item: usize) -> Option<T>
        ensures { MatchOption result (self.new ≡ self.old) (λ made. self.old ≡ (item, made) ∷ self.new) }
    {
        let next = self.next_item()?;
        if next != item {
            return None;
        }
        let (_, made) = self.left.pop_front()?;
        Some(made)
    }
}
