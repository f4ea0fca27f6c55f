//! A list in pieces in the making.
ghost use Rattle.std.specs.Prelude.{◌≡◌, ◌++◌, [], IfOk, OnOk};

use crate::again::Again;
use crate::piece::Piece;
use crate::pieces::Pieces;
use rc_base::Items;
use rc_route::HasPrefix;
use std::alloc::{AllocError, Global};
use std::collections::VecDeque;
use std::marker::Model;

/// How many elements a piece has at most: so many are copied where one of them changes.
pub(crate) const MOST: usize = 64;

/// A list in the making, seen as that list, to whose end pieces are put.
pub(crate) struct Growing<T: HasPrefix> {
    pieces: Items<Piece<T>>,
    /// How many elements they have in all.
    len: usize,
}

/// By a function of its own, so that what holds one drops it by one call.
impl<T: HasPrefix + Drop> Drop for Growing<T> {
    fn drop(self) {
        let Growing { pieces: _, len: _ } = self;
    }
}

impl<T: HasPrefix> Model for Growing<T> {
    ghost use Rattle.std.specs.Prelude.{List};
    ghost use Rattle.rc_pieces.specs.Pieces.{ArePieces, joined};

    ghost Value = { List T };

    ghost view = { λ g. joined g.pieces };

    ghost invariant = { λ g. ArePieces g.pieces g.len };
}

impl<T: HasPrefix> Growing<T> {
    /// The empty list. It takes no memory.
    pub(crate) fn new(alloc: Global) -> Growing<T>
        ensures { result ≡ [] }
    {
        Growing {
            pieces: Items::new(alloc),
            len: 0,
        }
    }
}

impl<T: Again> Growing<T> {
    /// Puts a piece at the end. It errs only where memory runs out, or behind as many elements as can be counted.
    fn push(&mut self, piece: Piece<T>) -> Result<(), AllocError>
        ensures { OnOk result (self.new ≡ self.old ++ piece) }
    {
        let more = piece.as_slice().len();
        let len = self.len.checked_add(more).ok_or(AllocError)?;
        self.pieces.push(piece)?;
        self.len = len;
        Ok(())
    }

    /// Puts a piece of another list at the end, which both share.
    pub(crate) fn push_shared(&mut self, piece: &Piece<T>) -> Result<(), AllocError>
        ensures { OnOk result (self.new ≡ self.old ++ piece.now) }
    {
        self.push(piece.share()?)
    }

    /// Puts elements at the end as one piece, if there are some.
    pub(crate) fn push_items(&mut self, alloc: Global, items: Items<T>) -> Result<(), AllocError>
        ensures { OnOk result (self.new ≡ self.old ++ items) }
    {
        let piece = Piece::of(alloc, items)?;
        match piece {
            None => Ok(()),
            Some(piece) => self.push(piece),
        }
    }

    /// Puts elements at the end, in pieces of up to so many.
    fn push_parts(&mut self, alloc: Global, each: usize, items: Items<T>) -> Result<(), AllocError>
        ensures { OnOk result (self.new ≡ self.old ++ items) }
    {
        let mut part = Items::with_room(alloc, each)?;
        let mut left = VecDeque::from(items.into_vec());
        while let Some(item) = left.pop_front() {
            part.push(item)?;
            if part.len() >= each {
                self.push_items(alloc, part)?;
                part = Items::with_room(alloc, each)?;
            }
        }
        self.push_items(alloc, part)
    }

    /// Puts elements at the end, in as few pieces as may be, of about the same length.
    pub(crate) fn push_all(&mut self, alloc: Global, items: Items<T>) -> Result<(), AllocError>
        ensures { OnOk result (self.new ≡ self.old ++ items) }
    {
        let parts = items.len().div_ceil(MOST);
        if parts <= 1 {
            return self.push_items(alloc, items);
        }
        let each = items.len().div_ceil(parts);
        self.push_parts(alloc, each, items)
    }

    /// The list that was made. It errs only where memory runs out.
    pub(crate) fn finish(self, alloc: Global) -> Result<Pieces<T>, AllocError>
        ensures { IfOk result (λ made. made ≡ self) }
    {
        let Growing { pieces, len } = self;
        Pieces::of_pieces(alloc, pieces, len)
    }
}
