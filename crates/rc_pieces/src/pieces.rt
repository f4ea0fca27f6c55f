//! A list in pieces.
ghost use Rattle.std.specs.Prelude.{◌≡◌, ◌↔◌, [], IfOk, IsTrue, length};
ghost use Rattle.std.specs.Arc.{arc_value};
ghost use Rattle.rc_pieces.specs.Pieces.{ArePieces, joined, kept_pieces};

use crate::again::Again;
use crate::growing::Growing;
use crate::listed::Listed;
use crate::piece::{Piece, share_all, unshared};
use rc_base::Items;
use rc_route::HasPrefix;
use std::alloc::{AllocError, Global};
use std::marker::Model;
use std::sync::Arc;

/// The pieces, where there are some.
type Kept<T> = Option<Arc<Items<Piece<T>>, Global>>;

/// A list, seen as that list, in pieces. Lists share pieces, and a list and its copies all of them at once.
pub struct Pieces<T: HasPrefix> {
    kept: Kept<T>,
    /// How many elements they have in all.
    len: usize,
}

/// By a function of its own, so that what holds such lists drops each by one call.
impl<T: HasPrefix + Drop> Drop for Pieces<T> {
    fn drop(self) {
        let Pieces { kept: _, len: _ } = self;
    }
}

impl<T: HasPrefix> Model for Pieces<T> {
    ghost use Rattle.std.specs.Prelude.{List};
    ghost use Rattle.rc_pieces.specs.Pieces.{ArePieces, joined, kept_pieces};

    ghost Value = { List T };

    ghost view = { λ p. joined (kept_pieces p.kept) };

    ghost invariant = { λ p. ArePieces (kept_pieces p.kept) p.len };
}

/// The pieces that are kept, in order.
fn pieces_of<T: HasPrefix>(kept: &Kept<T>) -> &[Piece<T>]
    ensures { result.now ≡ kept_pieces kept.now }
{
    match kept {
        None => &[],
        Some(pieces) => pieces.as_slice(),
    }
}

/// What is kept again, which both share.
fn share<T: HasPrefix>(kept: &Kept<T>) -> Result<Kept<T>, AllocError>
    ensures { IfOk result (λ shared. kept_pieces shared ≡ kept_pieces kept.now) }
{
    match kept {
        None => Ok(None),
        Some(pieces) => {
            let shared = Arc::try_clone(pieces)?;
            Ok(Some(shared))
        }
    }
}

impl<T: HasPrefix> Pieces<T> {
    /// The empty list. It takes no memory.
    pub fn new() -> Pieces<T>
        ensures { result ≡ [] }
    {
        Pieces { kept: None, len: 0 }
    }

    /// How many elements it has, at once.
    pub fn len(&self) -> usize
        ensures { result ≡ length self.now }
    {
        self.len
    }

    /// Whether it has none.
    pub fn is_empty(&self) -> bool
        ensures { IsTrue result ↔ (self.now ≡ []) }
    {
        self.len == 0
    }

    /// The list as it is read.
    pub fn listed(&self) -> Listed<'_, T>
        ensures { result ≡ self.now }
    {
        Listed::of(pieces_of(&self.kept), self.len)
    }
}

impl<T: Again> Pieces<T> {
    /// The list of some pieces, with so many elements in all. It takes no memory where there are none.
    pub(crate) fn of_pieces(
        alloc: Global,
        pieces: Items<Piece<T>>,
        len: usize,
    ) -> Result<Pieces<T>, AllocError>
        requires { ArePieces pieces len }
        ensures { IfOk result (λ made. made ≡ joined pieces) }
    {
        if pieces.is_empty() {
            return Ok(Pieces::new());
        }
        let kept = Arc::new(alloc, pieces)?;
        Ok(Pieces {
            kept: Some(kept),
            len,
        })
    }

    /// A list in one piece, which is cut only where something is edited in it: so what isn't edited is never copied. It errs only where
    /// memory runs out.
    pub fn of(alloc: Global, items: Items<T>) -> Result<Pieces<T>, AllocError>
        ensures { IfOk result (λ made. made ≡ items) }
    {
        let mut made = Growing::new(alloc);
        made.push_items(alloc, items)?;
        made.finish(alloc)
    }

    /// The same again, which shares all pieces at once. It takes no memory, and errs only where as many hold them as can be counted.
    pub fn share(&self) -> Result<Pieces<T>, AllocError>
        ensures { IfOk result (λ shared. shared ≡ self.now) }
    {
        let kept = share(&self.kept)?;
        Ok(Pieces {
            kept,
            len: self.len,
        })
    }

    /// Its pieces. Where nobody else holds them they are moved, and take no memory.
    pub(crate) fn into_pieces(self, alloc: Global) -> Result<Items<Piece<T>>, AllocError>
        ensures { IfOk result (λ pieces. joined pieces ≡ self) }
    {
        let Pieces { kept, len: _ } = self;
        match kept {
            None => Ok(Items::new(alloc)),
            Some(shared) => owned(alloc, shared),
        }
    }
}

/// Pieces that others may hold. Where nobody does they are moved, and take no memory; else both share each.
fn owned<T: Again>(
    alloc: Global,
    pieces: Arc<Items<Piece<T>>, Global>,
) -> Result<Items<Piece<T>>, AllocError>
    ensures { IfOk result (λ own. own ≡ arc_value pieces) }
{
    match unshared(pieces) {
        Ok(pieces) => Ok(pieces),
        Err(pieces) => share_all(alloc, pieces.as_slice()),
    }
}
