//! A list in pieces as it is read.
ghost use Rattle.std.specs.Prelude.{◌≡◌, ◌↔◌, [], IfOk, IsTrue, length};
ghost use Rattle.std.specs.Option.{option_copied};
ghost use Rattle.rc_route.specs.Tables.{IsListed, listed_at};
ghost use Rattle.rc_pieces.specs.Pieces.{AreEachInOrder, AreFilled, ArePieces, IsPlaceFor, joined, piece_before};

use crate::again::{Again, append_again};
use crate::piece::Piece;
use rc_base::{Items, Prefix};
use rc_route::{HasPrefix, listed_at};
use std::alloc::{AllocError, Global};
use std::marker::Model;

/// A list in pieces as it is read, seen as the list of all elements.
pub struct Listed<'a, T: HasPrefix> {
    pieces: &'a [Piece<T>],
    /// How many elements they have in all.
    len: usize,
}

/// By a function of its own, so that what holds one drops it by one call.
impl<'a, T: HasPrefix> Drop for Listed<'a, T> {
    fn drop(self) {
        let Listed { pieces: _, len: _ } = self;
    }
}

impl<'a, T: HasPrefix> Model for Listed<'a, T> {
    ghost use Rattle.std.specs.Prelude.{List};
    ghost use Rattle.rc_pieces.specs.Pieces.{ArePieces, joined};

    ghost Value = { List T };

    ghost view = { λ l. joined l.pieces.now };

    ghost invariant = { λ l. ArePieces l.pieces.now l.len };
}

/// How many pieces begin at a prefix or before it, by bisection: the last of them has what is there for the prefix.
pub(crate) fn place_for<T: HasPrefix>(pieces: &[Piece<T>], prefix: &Prefix) -> usize
    requires filled { AreFilled pieces.now }
    requires in_order { IsListed T.prefix_of (joined pieces.now) }
    ensures { IsPlaceFor T.prefix_of pieces.now prefix.now result }
{
    pieces.partition_point(|piece| !(*prefix < piece.prefix()))
}

/// The elements of the piece before a place.
pub(crate) fn before<T: HasPrefix>(pieces: &[Piece<T>], place: usize) -> &[T]
    ensures { result.now ≡ piece_before place pieces.now }
{
    if place == 0 {
        return &[];
    }
    match pieces.get(place - 1) {
        None => &[],
        Some(piece) => piece.as_slice(),
    }
}

impl<'a, T: HasPrefix> Listed<'a, T> {
    /// Pieces, with so many elements in all, as one list.
    pub(crate) fn of(pieces: &'a [Piece<T>], len: usize) -> Listed<'a, T>
        requires { ArePieces pieces.now len }
        ensures { result ≡ joined pieces.now }
    {
        Listed { pieces, len }
    }

    /// The empty list.
    pub fn none() -> Listed<'a, T>
        ensures { result ≡ [] }
    {
        Listed {
            pieces: &[],
            len: 0,
        }
    }

    /// How many elements it has, at once.
    pub fn len(&self) -> usize
        ensures { result ≡ length self.now }
    {
        self.len
    }

    /// Whether it has none.
    pub fn is_empty(&self) -> bool
        ensures { IsTrue result ↔ (self.now ≡ []) }
    {
        self.len == 0
    }

    /// Its pieces, in order.
    #[tactic(auto, using(crate::proofs::OrderLaws::each_in_order))]
    pub fn pieces(&self) -> &'a [Piece<T>]
        ensures whole { joined result.now ≡ self.now }
        ensures filled { AreFilled result.now }
        ensures in_order { IsListed T.prefix_of self.now → AreEachInOrder T.prefix_of result.now }
    {
        self.pieces
    }

    /// What is there for just this prefix, by two bisections.
    pub fn at(&self, prefix: &Prefix) -> Option<&'a T>
        requires { IsListed T.prefix_of self.now }
        ensures { option_copied result ≡ listed_at T.prefix_of self.now prefix.now }
    {
        let place = place_for(self.pieces, prefix);
        listed_at(before(self.pieces, place), prefix)
    }
}

impl<'a, T: Again> Listed<'a, T> {
    /// The same in one list, in memory of its own. It errs only where memory runs out, or as many hold a part that is shared as can be
    /// counted.
    pub fn copied(&self, alloc: Global) -> Result<Items<T>, AllocError>
        ensures { IfOk result (λ items. items ≡ self.now) }
    {
        let mut items = Items::with_room(alloc, self.len)?;
        for piece in self.pieces {
            append_again(alloc, &mut items, piece.as_slice())?;
        }
        Ok(items)
    }
}
