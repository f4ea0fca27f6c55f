//! Lists in parts.
ghost use Rattle.std.specs.Prelude.{◌≡◌, ◌++◌, [], length, IfOk, OnOk};
ghost use Rattle.std.specs.Arc.{arc_value};
ghost use Rattle.rc_route.specs.Parts.{joined_parts};

use rc_base::Items;
use std::alloc::{AllocError, Global};
use std::marker::Model;
use std::sync::Arc;

/// A list, seen as that list, in parts that others may share: so nothing is copied or moved where parts are put together.
pub struct Parts<T> {
    parts: Items<Arc<Items<T>, Global>>,
    /// How many elements they have in all.
    len: usize,
}

/// By a function of its own, so that what holds such lists drops each by one call.
impl<T: Drop> Drop for Parts<T> {
    fn drop(self) {
        let Parts { parts: _, len: _ } = self;
    }
}

impl<T> Model for Parts<T> {
    ghost use Rattle.std.specs.Prelude.{◌≡◌, List, length};
    ghost use Rattle.rc_route.specs.Parts.{joined_parts};

    ghost Value = { List T };

    ghost view = { λ p. joined_parts p.parts };

    ghost invariant = { λ p. p.len ≡ length (joined_parts p.parts) };
}

impl<T: Drop> Parts<T> {
    /// No element. It takes no memory.
    pub fn new(alloc: Global) -> Parts<T>
        ensures { result ≡ [] }
    {
        Parts {
            parts: Items::new(alloc),
            len: 0,
        }
    }

    /// Puts a part at the end. It errs only where memory runs out, or behind as many elements as can be counted.
    pub fn push(&mut self, part: Arc<Items<T>, Global>) -> Result<(), AllocError>
        ensures { OnOk result (self.new ≡ self.old ++ arc_value part) }
    {
        let len = self.len.checked_add(part.len()).ok_or(AllocError)?;
        self.parts.push(part)?;
        self.len = len;
        Ok(())
    }

    /// How many elements it has, at once.
    pub fn len(&self) -> usize
        ensures { result ≡ length self.now }
    {
        self.len
    }

    /// Its parts, in order.
    pub fn parts(&self) -> &[Arc<Items<T>, Global>]
        ensures { joined_parts result.now ≡ self.now }
    {
        self.parts.as_slice()
    }
}
