//! A piece of a list in order of prefix.
ghost use Rattle.std.specs.Prelude.{◌≡◌, ◌≢◌, [], IfErr, IfOk, MatchOption};
ghost use Rattle.std.specs.Arc.{arc_value};
ghost use Rattle.rc_pieces.specs.Pieces.{IsFirst};

use rc_base::{Items, Prefix};
use rc_route::HasPrefix;
use std::alloc::{AllocError, Global};
use std::marker::Model;
use std::sync::Arc;

/// A piece of a list, seen as the list of its elements, of which there is one at least. Lists share it.
pub struct Piece<T: HasPrefix> {
    /// The prefix of its first element, which is read without a look at the elements.
    first: Prefix,
    items: Arc<Items<T>, Global>,
}

/// By a function of its own, so that what holds pieces drops each by one call.
impl<T: HasPrefix + Drop> Drop for Piece<T> {
    fn drop(self) {
        let Piece { first: _, items: _ } = self;
    }
}

impl<T: HasPrefix> Model for Piece<T> {
    ghost use Rattle.std.specs.Prelude.{List};
    ghost use Rattle.std.specs.Arc.{arc_value};
    ghost use Rattle.rc_pieces.specs.Pieces.{IsPiece};

    ghost Value = { List T };

    ghost view = { λ p. arc_value p.items };

    ghost invariant = { λ p. IsPiece T.prefix_of (arc_value p.items) p.first };
}

impl<T: HasPrefix> HasPrefix for Piece<T> {
    ghost use Rattle.rc_pieces.specs.Pieces.{first_prefix};

    ghost prefix_of = { first_prefix T.prefix_of };

    fn prefix(&self) -> Prefix {
        self.first
    }
}

impl<T: HasPrefix> Piece<T> {
    /// Its elements.
    pub fn as_slice(&self) -> &[T]
        ensures value { result.now ≡ self.now }
        ensures some { self.now ≢ [] }
    {
        self.items.as_slice()
    }

    /// Its elements, as lists share them. It takes no memory.
    pub(crate) fn into_shared(self) -> Arc<Items<T>, Global>
        ensures { arc_value result ≡ self }
    {
        let Piece { first: _, items } = self;
        items
    }

    /// The same again, which both share. It takes no memory, and errs only where as many hold it as can be counted.
    pub(crate) fn share(&self) -> Result<Piece<T>, AllocError>
        ensures { IfOk result (λ shared. shared ≡ self.now) }
    {
        let items = Arc::try_clone(&self.items)?;
        Ok(Piece {
            first: self.first,
            items,
        })
    }
}

/// Pieces again, each of which both share. It errs only where memory runs out, or as many hold one as can be counted.
pub(crate) fn share_all<T: HasPrefix + Drop>(
    alloc: Global,
    pieces: &[Piece<T>],
) -> Result<Items<Piece<T>>, AllocError>
    ensures { IfOk result (λ shared. shared ≡ pieces.now) }
{
    let mut shared = Items::with_room(alloc, pieces.len())?;
    for piece in pieces {
        shared.push(piece.share()?)?;
    }
    Ok(shared)
}

/// The elements of what lists share, where nobody else holds them; else what they share.
pub(crate) fn unshared<T>(items: Arc<Items<T>, Global>) -> Result<Items<T>, Arc<Items<T>, Global>>
    ensures ok { IfOk result (λ moved. moved ≡ arc_value items) }
    ensures err { IfErr result (λ again. again ≡ items) }
{
    Arc::try_unwrap(items)
}

/// The prefix of the first of some elements, or `None` exactly where there are none.
fn first_of<T: HasPrefix>(items: &[T]) -> Option<Prefix>
    ensures { IsFirst T.prefix_of items.now result }
{
    match items.first() {
        None => None,
        Some(item) => Some(item.prefix()),
    }
}

impl<T: HasPrefix + Drop> Piece<T> {
    /// A piece of some elements, or `None` exactly where there are none.
    pub(crate) fn of(alloc: Global, items: Items<T>) -> Result<Option<Piece<T>>, AllocError>
        ensures { IfOk result (λ made. MatchOption made (items ≡ []) (λ piece. piece ≡ items)) }
    {
        let first = first_of(items.as_slice());
        match first {
            None => Ok(None),
            Some(first) => {
                let items = Arc::new(alloc, items)?;
                Ok(Some(Piece { first, items }))
            }
        }
    }
}
