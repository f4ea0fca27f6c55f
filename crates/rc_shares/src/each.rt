//! What is made of each item by itself.
ghost use Rattle.std.specs.Prelude.{◌≡◌, ◌++◌, ◌≤◌, ◌<◌, ℕ, List, Ok, IfOk};
ghost use Rattle.rc_outside.specs.Gate.{passage};
ghost use Rattle.rc_shares.specs.Stretches.{IsStretch};
ghost use Rattle.rc_shares.specs.Hands.{IsHand};

use crate::hand::Hand;
use crate::shared::Shared;
use crate::taking::{Taking, hands_for};
use crate::workers::at_once;
use rc_base::Items;
use rc_outside::{Gate, Passed};
use std::alloc::{AllocError, Global};
use std::thread::Threads;

/// Items in a row, of each of which something is made by itself, from what all workers read.
pub trait Each {
    /// What is made of an item.
    type Made: Drop + Send;

    /// How many items there are.
    ghost count: { Self → ℕ };

    /// What is read is as it has to be.
    ghost ready: { Self → Type 0 };

    /// That this is made of an item, by its number.
    ghost makes: { Self → ℕ → Self.Made → Type 0 };

    /// How many items there are.
    fn items(&self) -> usize
        ensures { result ≡ count self.now };

    /// So many items, or fewer, are left to one worker: to start a thread would take longer.
    fn few(&self) -> usize;

    /// What is made of an item. It errs only where memory runs out.
    fn make(&self, alloc: Global, item: usize) -> Result<Self::Made, AllocError>
        requires ready { ready self.now }
        requires item { item < count self.now }
        ensures { IfOk result (makes self.now item) };
}

/// Two lists, one behind the other.
fn appended<T: Drop>(left: Items<T>, right: Items<T>) -> Result<Items<T>, AllocError>
    ensures { IfOk result (λ all. all ≡ left ++ right) }
{
    let mut all = left.into_vec();
    let mut right = right.into_vec();
    all.append(&mut right)?;
    Ok(Items::from_vec(all))
}

/// Both, or want of memory.
fn both<T: Drop>(
    left: Result<Items<T>, AllocError>,
    right: Result<Items<T>, AllocError>,
) -> Result<Items<T>, AllocError>
    ensures { IfOk result (λ all. (a : List T) × (b : List T) × (left ≡ Ok a) × (right ≡ Ok b) × (all ≡ a ++ b)) }
{
    let left = left?;
    let right = right?;
    appended(left, right)
}

/// The lists of what is made of items.
#[derive(Drop)]
struct Lists<'a, W> {
    each: &'a W,
}

impl<'a, W: Each + Sync> Shared for Lists<'a, W> {
    ghost use Rattle.std.specs.Prelude.{IfOk};
    ghost use Rattle.rc_shares.specs.Stretches.{IsStretch};

    type Own = ();

    type Made = Result<Items<W::Made>, AllocError>;

    ghost count = { λ s. W.count s.each.now };

    ghost ready = { λ s own. W.ready s.each.now };

    ghost parts = { λ s own mine theirs. Unit {0} };

    ghost makes = { λ s own a b made. IfOk made (IsStretch (W.makes s.each.now) a b) };

    fn items(&self) -> usize {
        self.each.items()
    }

    fn few(&self) -> usize {
        self.each.few()
    }

    fn share(
        &self,
        alloc: Global,
        _own: (),
        from: usize,
        to: usize,
    ) -> Result<Items<W::Made>, AllocError> {
        let mut made = Items::with_room(alloc, to - from)?;
        for item in from..to {
            made.push(self.each.make(alloc, item)?)?;
        }
        Ok(made)
    }

    fn part(&self, _own: ()) -> ((), ()) {
        ((), ())
    }

    fn together(
        &self,
        left: Result<Items<W::Made>, AllocError>,
        right: Result<Items<W::Made>, AllocError>,
    ) -> Result<Items<W::Made>, AllocError> {
        both(left, right)
    }
}

/// What is made of all items, in order, where hands made what they took of it, or want of memory.
fn put_together<W: Each>(
    alloc: Global,
    taking: &Taking<'_, W>,
    hands: Result<Items<Hand<W::Made>>, AllocError>,
) -> Result<Items<W::Made>, AllocError>
    requires ready { W.ready taking.now.each.now }
    requires hands { IfOk hands (IsStretch (λ _hand. IsHand (W.makes taking.now.each.now)) 0 taking.now.hands) }
    ensures { IfOk result (IsStretch (W.makes taking.now.each.now) 0 (W.count taking.now.each.now)) }
{
    taking.in_order(alloc, hands?)
}

/// What is made of each item, in order, by all workers at once, each of whom has passed the gate once, before its share: who is done with an
/// item takes the next one. There is at least one worker. It errs only where memory runs out.
pub fn each_at_once<R: Threads + Sync, W: Each + Sync, G: Gate>(
    rt: &R,
    alloc: Global,
    work: &W,
    workers: u32,
    phase: u32,
    gate: &G,
) -> (Passed, Result<Items<W::Made>, AllocError>)
    requires ready { W.ready work.now }
    requires some { 1 ≤ workers }
    ensures passed { result.0 ≡ passage phase 0 workers }
    ensures made { IfOk result.1 (IsStretch (W.makes work.now) 0 (W.count work.now)) }
{
    let hands = hands_for(work.items(), work.few(), workers);
    if hands <= 1 {
        return at_once(rt, alloc, &Lists { each: work }, (), workers, phase, gate);
    }
    let taking = Taking::of(work, hands);
    let all = Lists { each: &taking };
    let (passed, made) = at_once(rt, alloc, &all, (), workers, phase, gate);
    (passed, put_together(alloc, &taking, made))
}
