//! Nodes that wait at a cost, the nearest first.
//!
//! Where costs are alike, as those of most networks are, a node nearly always starts to wait at no less than any other, so that
//! those that do stand in the order in which they came. Only the others are in a heap.
ghost use Rattle.std.specs.Prelude.{◌≡◌, ℕ, ◌+◌, ◌≤◌, [], ◌∷◌, ◌++◌, true, false, length, IfOk, IfSome, IfNone, OnSome, All, IsPermutation};
ghost use Rattle.std.specs.List.{AllPairs};
ghost use Rattle.rc_spf.specs.Waiting.{IsNearerThan, IsLeastOf, IsFirst, AreBefore};

use std::alloc::{AllocError, Global};
use std::cmp::Reverse;
use std::collections::BinaryHeap;
use std::marker::Model;

/// Nodes that wait in the order in which they came, each at no less than those before it.
struct Rising {
    entries: Vec<(u32, usize)>,
    /// How many of them wait no longer.
    gone: usize,
}

/// By a function of its own, so that what holds it drops it by one call.
impl Drop for Rising {
    fn drop(self) {
        let Rising {
            entries: _,
            gone: _,
        } = self;
    }
}

impl Model for Rising {
    ghost use Rattle.std.specs.Prelude.{ℕ, List, drop};
    ghost use Rattle.rc_spf.specs.Waiting.{IsRising};

    ghost Value = { List (ℕ × ℕ) };

    ghost view = { λ r. drop r.gone r.entries.items };

    ghost invariant = { λ r. IsRising r.entries.items r.gone };
}

/// Whether no entry waits at more than that cost.
fn is_behind(entries: &[(u32, usize)], cost: u32) -> bool
    requires { AllPairs IsNearerThan entries.now }
    ensures { result ≡ true → AreBefore cost entries.now }
{
    let len = entries.len();
    if len == 0 {
        return true;
    }
    entries[len - 1].0 <= cost
}

impl Rising {
    fn new(alloc: Global) -> Rising
        ensures { result ≡ [] }
    {
        Rising {
            entries: Vec::new(alloc),
            gone: 0,
        }
    }

    /// Lets a node wait at the end, if none waits at more, and gives whether it does.
    fn push(&mut self, cost: u32, node: usize) -> Result<bool, AllocError>
        ensures put { IfOk result (λ is_put. is_put ≡ true → self.new ≡ self.old ++ (cost, node) ∷ []) }
        ensures same { IfOk result (λ is_put. is_put ≡ false → self.new ≡ self.old) }
    {
        if is_behind(self.entries.as_slice(), cost) {
            self.entries.push((cost, node))?;
            return Ok(true);
        }
        Ok(false)
    }

    /// The cost at which the first node waits.
    fn least(&self) -> Option<u32>
        ensures { IsLeastOf result self.now }
    {
        if self.gone < self.entries.len() {
            return Some(self.entries[self.gone].0);
        }
        None
    }

    /// Takes out the first node.
    fn pop(&mut self) -> Option<(u32, usize)>
        ensures none { IfNone result (self.old ≡ []) }
        ensures rest { IfSome result (λ p. self.old ≡ p ∷ self.new) }
        ensures least { IfSome result (λ p. All (IsNearerThan p) self.old) }
    {
        if self.gone < self.entries.len() {
            let first = self.entries[self.gone];
            self.gone += 1;
            return Some(first);
        }
        None
    }
}

/// Nodes that wait in no order that is known, but for the nearest.
struct Heap {
    entries: BinaryHeap<Reverse<(u32, usize)>>,
}

/// By a function of its own, so that what holds a heap drops it by one call.
impl Drop for Heap {
    fn drop(self) {
        let Heap { entries: _ } = self;
    }
}

impl Model for Heap {
    ghost use Rattle.std.specs.Prelude.{ℕ, List};
    ghost use Rattle.std.specs.BinaryHeap.{IsHeap, heap_items};
    ghost use Rattle.rc_spf.specs.Waiting.{is_after, waiting};

    ghost Value = { List (ℕ × ℕ) };

    ghost view = { λ h. waiting (heap_items h.entries) };

    ghost invariant = { λ h. IsHeap is_after (heap_items h.entries) };
}

impl Heap {
    fn new(alloc: Global) -> Heap
        ensures { result ≡ [] }
    {
        Heap {
            entries: BinaryHeap::new(alloc),
        }
    }

    /// Lets a node wait at a cost.
    fn push(&mut self, cost: u32, node: usize) -> Result<(), AllocError>
        ensures { IfOk result (λ u. IsPermutation ((cost, node) ∷ self.old) self.new) }
    {
        self.entries.push(Reverse((cost, node)))?;
        Ok(())
    }

    /// The least cost at which a node waits.
    fn least(&self) -> Option<u32>
        ensures { IsLeastOf result self.now }
    {
        match self.entries.peek() {
            Some(top) => Some(top.0.0),
            None => None,
        }
    }

    /// Takes out a node that waits at the least cost.
    fn pop(&mut self) -> Option<(u32, usize)>
        ensures none { IfNone result (self.old ≡ []) }
        ensures rest { IfSome result (λ p. IsPermutation self.old (p ∷ self.new)) }
        ensures least { IfSome result (λ p. All (IsNearerThan p) self.old) }
    {
        if let Some(Reverse(top)) = self.entries.pop() {
            return Some(top);
        }
        None
    }
}

/// Nodes with a cost each. A node may wait more than once, at any costs.
pub(crate) struct Queue {
    rising: Rising,
    heap: Heap,
}

/// By a function of its own, so that what holds a queue drops it by one call.
impl Drop for Queue {
    fn drop(self) {
        let Queue { rising: _, heap: _ } = self;
    }
}

impl Model for Queue {
    ghost use Rattle.std.specs.Prelude.{ℕ, List, ◌++◌};

    ghost Value = { List (ℕ × ℕ) };

    ghost view = { λ q. q.rising ++ q.heap };
}

/// Whether the first cost is the lower one. What is not there is behind all.
fn is_first(cost: Option<u32>, other: Option<u32>) -> bool
    ensures yes { result ≡ true → IsFirst cost other }
    ensures no { result ≡ false → IsFirst other cost }
{
    match other {
        None => true,
        Some(other) => match cost {
            None => false,
            Some(cost) => cost <= other,
        },
    }
}

impl Queue {
    pub(crate) fn new(alloc: Global) -> Queue
        ensures { result ≡ [] }
    {
        Queue {
            rising: Rising::new(alloc),
            heap: Heap::new(alloc),
        }
    }

    /// Lets a node wait at a cost. It errs only where memory runs out.
    pub(crate) fn push(&mut self, cost: u32, node: usize) -> Result<(), AllocError>
        ensures { IfOk result (λ u. IsPermutation ((cost, node) ∷ self.old) self.new) }
    {
        if self.rising.push(cost, node)? {
            return Ok(());
        }
        self.heap.push(cost, node)?;
        Ok(())
    }

    /// Takes out a node that waits at the least cost, or gives `None` exactly where none waits.
    pub(crate) fn pop(&mut self) -> Option<(u32, usize)>
        ensures none { IfNone result (self.old ≡ []) }
        ensures rest { IfSome result (λ p. IsPermutation self.old (p ∷ self.new)) }
        ensures least { IfSome result (λ p. All (λ q. p.0 ≤ q.0) self.old) }
        ensures len { OnSome result (length self.new + 1 ≡ length self.old) }
    {
        if is_first(self.rising.least(), self.heap.least()) {
            return self.rising.pop();
        }
        self.heap.pop()
    }
}
