//! A list in pieces that is filled element by element.
ghost use Rattle.std.specs.Prelude.{◌≡◌, ◌++◌, ◌∷◌, [], IfOk, OnOk};

use crate::again::Again;
use crate::growing::{Growing, MOST};
use crate::pieces::Pieces;
use rc_base::Items;
use rc_route::HasPrefix;
use std::alloc::{AllocError, Global};
use std::marker::Model;
use std::mem::replace;

/// A list in the making, seen as that list, to whose end elements are put one by one. They fill one piece after the other, so that
/// another list which differs from it at some prefixes shares most pieces.
pub struct Filling<T: HasPrefix> {
    full: Growing<T>,
    /// What stands behind the full pieces.
    part: Items<T>,
    /// With how many elements a piece is full.
    each: usize,
    /// Lists for the pieces to come. They stand side by side in memory, with nothing between them that outlives the list, so that what takes
    /// its place fits there.
    spare: Vec<Items<T>>,
}

/// By a function of its own, so that what holds one drops it by one call.
impl<T: HasPrefix + Drop> Drop for Filling<T> {
    fn drop(self) {
        let Filling {
            full: _,
            part: _,
            each: _,
            spare: _,
        } = self;
    }
}

impl<T: HasPrefix> Model for Filling<T> {
    ghost use Rattle.std.specs.Prelude.{List, ◌++◌};

    ghost Value = { List T };

    ghost view = { λ f. f.full ++ f.part };
}

/// How long pieces are, where so many elements stand in as few as may be, of about the same length.
fn piece_length(elements: usize) -> usize {
    let pieces = elements.div_ceil(MOST);
    if pieces <= 1 {
        return elements.max(1);
    }
    elements.div_ceil(pieces)
}

/// Lists for the pieces behind the first one, with room for so many elements each.
fn spare_parts<T: Drop>(
    alloc: Global,
    elements: usize,
    each: usize,
) -> Result<Vec<Items<T>>, AllocError> {
    let pieces = elements.div_ceil(MOST);
    let mut spare = Vec::with_capacity(alloc, pieces)?;
    for _ in 1..pieces {
        spare.push(Items::with_room(alloc, each)?)?;
    }
    Ok(spare)
}

/// An empty list: one that is kept, or a new one with room for so many elements.
fn next_part<T: Drop>(
    alloc: Global,
    spare: &mut Vec<Items<T>>,
    each: usize,
) -> Result<Items<T>, AllocError>
    ensures { IfOk result (λ part. part ≡ []) }
{
    match spare.pop() {
        Some(part) if part.is_empty() => Ok(part),
        _ => Items::with_room(alloc, each),
    }
}

impl<T: Again> Filling<T> {
    /// The empty list, with room for so many elements. It errs only where memory runs out.
    pub fn with_room(alloc: Global, elements: usize) -> Result<Filling<T>, AllocError>
        ensures { IfOk result (λ f. f ≡ []) }
    {
        let each = piece_length(elements);
        let part = Items::with_room(alloc, each)?;
        let spare = spare_parts(alloc, elements, each)?;
        Ok(Filling {
            full: Growing::new(alloc),
            part,
            each,
            spare,
        })
    }

    /// Makes a piece of what stands behind the full ones.
    #[inline(never)]
    fn close(&mut self, alloc: Global) -> Result<(), AllocError>
        ensures { OnOk result (self.new ≡ self.old) }
    {
        let next = next_part(alloc, &mut self.spare, self.each)?;
        let part = replace(&mut self.part, next);
        self.full.push_items(alloc, part)
    }

    /// Puts an element at the end. It errs only where memory runs out, or behind as many as can be counted.
    #[inline(always)]
    pub fn push(&mut self, alloc: Global, item: T) -> Result<(), AllocError>
        ensures { OnOk result (self.new ≡ self.old ++ item ∷ []) }
    {
        if self.part.len() >= self.each {
            self.close(alloc)?;
        }
        self.part.push(item)
    }

    /// The list that was made. It errs only where memory runs out.
    pub fn finish(self, alloc: Global) -> Result<Pieces<T>, AllocError>
        ensures { IfOk result (λ made. made ≡ self) }
    {
        let Filling {
            full,
            part,
            each: _,
            spare: _,
        } = self;
        let mut made = full;
        made.push_items(alloc, part)?;
        made.finish(alloc)
    }
}
