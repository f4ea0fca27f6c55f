//! Items that hands take one after another.
ghost use Rattle.std.specs.Prelude.{◌≡◌, ◌<◌, All, IfOk, IfSome};
ghost use Rattle.rc_shares.specs.Stretches.{IsStretch};
ghost use Rattle.rc_shares.specs.Hands.{IsHand};

use crate::each::Each;
use crate::hand::Hand;
use rc_base::Items;
use std::alloc::{AllocError, Global};
use std::sync::atomic::{AtomicUsize, Ordering};

/// Items that so many hands take one after another: who is done with one takes the next one, so nobody waits while others have items left.
///
/// That each is taken once isn't asked: what nobody made is made in the end.
#[derive(Drop)]
pub(crate) struct Taking<'a, W> {
    each: &'a W,
    hands: usize,
    /// The item that is taken next.
    next: AtomicUsize,
}

impl<'a, W: Each> Each for Taking<'a, W> {
    type Made = Hand<W::Made>;

    ghost count = { λ s. s.hands };

    ghost ready = { λ s. W.ready s.each.now };

    ghost makes = { λ s _hand. IsHand (W.makes s.each.now) };

    fn items(&self) -> usize {
        self.hands
    }

    fn few(&self) -> usize {
        1
    }

    fn make(&self, alloc: Global, _hand: usize) -> Result<Hand<W::Made>, AllocError> {
        let items = self.each.items();
        let mut made = Items::new(alloc);
        for _turn in 0..items {
            let item = self.next.fetch_add(1, Ordering::Relaxed);
            if item >= items {
                return Ok(Hand::of(made));
            }
            made.push((item, self.each.make(alloc, item)?))?;
        }
        Ok(Hand::of(made))
    }
}

/// How many hands take items, where so many or fewer are left to one of so many workers.
pub(crate) fn hands_for(items: usize, few: usize, workers: u32) -> usize {
    if few == 0 {
        return workers as usize;
    }
    items.div_ceil(few).min(workers as usize)
}

/// What one of some hands made of an item, taken out of it, where that is its next element.
fn take_from<W: Each>(each: &W, hands: &mut Vec<Hand<W::Made>>, item: usize) -> Option<W::Made>
    requires hands { All (IsHand (W.makes each.now)) hands.old.items }
    ensures value { IfSome result (W.makes each.now item) }
    ensures hands { All (IsHand (W.makes each.now)) hands.new.items }
{
    for index in 0..hands.len() {
        let taken = hands[index].take(item);
        if taken.is_some() {
            return taken;
        }
    }
    None
}

impl<'a, W: Each> Taking<'a, W> {
    /// Items of which nobody has taken one.
    pub fn of(each: &'a W, hands: usize) -> Taking<'a, W>
        ensures { result.each.now ≡ each.now }
    {
        Taking {
            each,
            hands,
            next: AtomicUsize::new(0),
        }
    }

    /// What was made of an item by one of these hands; what none of them made is made now.
    fn made_of(
        &self,
        alloc: Global,
        hands: &mut Vec<Hand<W::Made>>,
        item: usize,
    ) -> Result<W::Made, AllocError>
        requires ready { W.ready self.now.each.now }
        requires item { item < W.count self.now.each.now }
        requires hands { All (IsHand (W.makes self.now.each.now)) hands.old.items }
        ensures value { IfOk result (W.makes self.now.each.now item) }
        ensures hands { All (IsHand (W.makes self.now.each.now)) hands.new.items }
    {
        let taken = take_from(self.each, hands, item);
        match taken {
            Some(made) => Ok(made),
            None => self.each.make(alloc, item),
        }
    }

    /// What is made of all items, in order, where these hands made what they took.
    pub fn in_order(
        &self,
        alloc: Global,
        hands: Items<Hand<W::Made>>,
    ) -> Result<Items<W::Made>, AllocError>
        requires ready { W.ready self.now.each.now }
        requires hands { All (IsHand (W.makes self.now.each.now)) hands }
        ensures { IfOk result (IsStretch (W.makes self.now.each.now) 0 (W.count self.now.each.now)) }
    {
        let items = self.each.items();
        let mut all = Items::with_room(alloc, items)?;
        let mut hands = hands.into_vec();
        for item in 0..items {
            let made = self.made_of(alloc, &mut hands, item)?;
            all.push(made)?;
        }
        Ok(all)
    }
}
