//! Where the shares of a job begin.
ghost use Rattle.std.specs.Prelude.{◌≡◌, ◌+◌, ◌<◌, ◌≤◌, ◌++◌, ◌∷◌, [], IfOk, OnOk, OnErr, length};
ghost use Rattle.rc_jobs.specs.Bounds.{begin_of, next_begin};

use rc_base::Items;
use std::alloc::{AllocError, Global};
use std::marker::Model;

/// Shares in a row of so many items: each begins at an item and ends where the next one begins, and the last one behind all items.
pub struct Bounds {
    begins: Items<usize>,
    items: usize,
}

/// By a function of its own, so that what holds bounds drops them by one call.
impl Drop for Bounds {
    fn drop(self) {
        let Bounds {
            begins: _,
            items: _,
        } = self;
    }
}

impl Model for Bounds {
    ghost use Rattle.rc_jobs.specs.Bounds.{AreBounds, Shares};

    ghost Value = { Shares };

    ghost view = { λ b. record { begins = b.begins; items = b.items } };

    ghost invariant = { λ b. AreBounds (record { begins = b.begins; items = b.items }) };
}

impl Bounds {
    /// All of so many items in one share. It errs only where memory runs out.
    pub fn whole(alloc: Global, items: usize) -> Result<Bounds, AllocError>
        ensures { IfOk result (λ b. (b.begins ≡ 0 ∷ []) × (b.items ≡ items)) }
    {
        let mut begins = Items::new(alloc);
        begins.push(0)?;
        Ok(Bounds { begins, items })
    }

    /// So many shares of so many items, about as long as one another; at least one. It errs only where memory runs out.
    pub fn even(alloc: Global, items: usize, shares: usize) -> Result<Bounds, AllocError>
        ensures { IfOk result (λ b. b.items ≡ items) }
    {
        let mut bounds = Bounds::whole(alloc, items)?;
        for share in 1..shares {
            bounds.begin_at(items.saturating_mul(share) / shares)?;
        }
        Ok(bounds)
    }

    /// How many shares there are: at least one, of which the first begins at the first item, and the last ends behind all items.
    pub fn len(&self) -> usize
        ensures len { result ≡ length self.now.begins }
        ensures some { 0 < result }
        ensures first { begin_of self.now 0 ≡ 0 }
        ensures last { begin_of self.now result ≡ self.now.items }
    {
        self.begins.len()
    }

    /// Where a share begins, by its number; behind the last one, where all items end.
    fn begin(&self, share: usize) -> usize
        ensures begin { result ≡ begin_of self.now share }
        ensures next { result ≤ begin_of self.now (share + 1) }
        ensures within { result ≤ self.now.items }
    {
        let found = self.begins.as_slice().get(share);
        match found {
            Some(begin) => *begin,
            None => self.items,
        }
    }

    /// The share of a number: the item at which it begins, and that before which it ends.
    pub fn share(&self, number: usize) -> (usize, usize)
        requires { number < length self.now.begins }
        ensures begin { result.0 ≡ begin_of self.now number }
        ensures end { result.1 ≡ begin_of self.now (number + 1) }
        ensures order { result.0 ≤ result.1 }
        ensures within { result.1 ≤ self.now.items }
    {
        // A share's number is below their count, so the next one is a number of this type.
        let _count = self.len();
        (self.begin(number), self.begin(number + 1))
    }

    /// Begins one share more at an item, but not before the last one and not behind all items. Where memory runs out nothing changes.
    pub fn begin_at(&mut self, at: usize) -> Result<(), AllocError>
        ensures items { self.new.items ≡ self.old.items }
        ensures begins { OnOk result (self.new.begins ≡ self.old.begins ++ next_begin self.old at ∷ []) }
        ensures same { OnErr result (self.new ≡ self.old) }
    {
        let last = self.begin(self.len() - 1);
        self.begins.push(last.max(at.min(self.items)))?;
        Ok(())
    }
}
