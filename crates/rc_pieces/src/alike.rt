//! Whether two lists are the same.
ghost use Rattle.std.specs.Prelude.{◌≡◌, ◌↔◌, ◌∷◌, ◌++◌, [], IsTrue, MatchOption};
ghost use Rattle.rc_pieces.specs.Pieces.{joined};

use crate::piece::Piece;
use crate::pieces::Pieces;
use rc_route::{Best, HasPrefix, Route};
use std::marker::Model;

/// What is there for a prefix, and can be told from anything else.
pub trait Alike: HasPrefix {
    ghost use Rattle.std.specs.Prelude.{◌≡◌, ◌↔◌, IsTrue};

    /// Whether two are the same, in all that they hold.
    fn is_same(&self, other: &Self) -> bool
        ensures { IsTrue result ↔ (self.now ≡ other.now) };
}

impl Alike for Route {
    #[inline]
    #[tactic(auto, using(rc_route::proofs::EqualLaws::route_decides))]
    fn is_same(&self, other: &Route) -> bool {
        *self == *other
    }
}

impl Alike for Best {
    fn is_same(&self, other: &Best) -> bool {
        Best::is_same(self, other)
    }
}

/// What is left of a list in pieces that is read from its front, seen as the list of that.
#[derive(Drop)]
struct Left<'a, T: HasPrefix> {
    /// Of the piece that was begun.
    items: &'a [T],
    pieces: &'a [Piece<T>],
}

impl<'a, T: HasPrefix> Model for Left<'a, T> {
    ghost use Rattle.std.specs.Prelude.{◌++◌, List};
    ghost use Rattle.rc_pieces.specs.Pieces.{joined};

    ghost Value = { List T };

    ghost view = { λ l. l.items.now ++ joined l.pieces.now };
}

impl<'a, T: HasPrefix> Left<'a, T> {
    /// All of a list.
    fn of(list: &'a Pieces<T>) -> Left<'a, T>
        ensures { result ≡ list.now }
    {
        Left {
            items: &[],
            pieces: list.listed().pieces(),
        }
    }

    /// The next element, or `None` exactly at the end.
    fn next(&mut self) -> Option<&'a T>
        ensures { MatchOption result (self.old ≡ []) (λ item. self.old ≡ item.now ∷ self.new) }
    {
        let (items, pieces) = begin(self.items, self.pieces);
        match items {
            [] => None,
            [item, behind @ ..] => {
                self.items = behind;
                self.pieces = pieces;
                Some(item)
            }
        }
    }
}

/// What is left of a piece, and the pieces behind it; of the next piece, where nothing is left of that one.
fn begin<'a, T: HasPrefix>(items: &'a [T], pieces: &'a [Piece<T>]) -> (&'a [T], &'a [Piece<T>])
    ensures same { result.0.now ++ joined result.1.now ≡ items.now ++ joined pieces.now }
    ensures end { result.0.now ≡ [] → result.1.now ≡ [] }
{
    match items {
        [_, ..] => (items, pieces),
        [] => match pieces {
            [] => (&[], &[]),
            [piece, behind @ ..] => (piece.as_slice(), behind),
        },
    }
}

/// Whether what is left of two lists is the same.
fn same_left<T: Alike>(items: Left<'_, T>, others: Left<'_, T>) -> bool
    ensures { IsTrue result ↔ (items ≡ others) }
{
    let mut items = items;
    let mut others = others;
    while let Some(item) = items.next() {
        let other = others.next();
        match other {
            None => return false,
            Some(other) => {
                if !item.is_same(other) {
                    return false;
                }
            }
        }
    }
    others.next().is_none()
}

/// Whether two lists are the same, in all that they hold: how many elements they have is asked first.
pub fn same<T: Alike>(one: &Pieces<T>, other: &Pieces<T>) -> bool
    ensures { IsTrue result ↔ (one.now ≡ other.now) }
{
    one.len() == other.len() && same_left(Left::of(one), Left::of(other))
}
