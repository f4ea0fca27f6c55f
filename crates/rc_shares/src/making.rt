//! What is made of each of some things that stand in a list.
ghost use Rattle.std.specs.Prelude.{IfOk, All};
ghost use Rattle.rc_shares.specs.Making.{AreMade};

use crate::each::{Each, each_at_once};
use rc_base::Items;
use rc_outside::OpenGate;
use std::alloc::{AllocError, Global};
use std::thread::Threads;

/// What is made of each thing by itself, from what all workers read.
pub trait Makes: Sync {
    /// What something is made of.
    type Thing: Sync;

    /// What is made.
    type Made: Drop + Send;

    /// What is read is as it has to be for a thing.
    ghost fits: { Self → Self.Thing → Type 0 };

    /// The second is what is made of the first.
    ghost made: { Self → Self.Thing → Self.Made → Type 0 };

    /// What is made of a thing. It errs only where memory runs out.
    fn make(&self, alloc: Global, thing: &Self::Thing) -> Result<Self::Made, AllocError>
        requires { fits self.now thing.now }
        ensures { IfOk result (made self.now thing.now) };
}

/// Some things, and the work on each.
#[derive(Drop)]
struct Things<'a, W: Makes> {
    work: &'a W,
    things: &'a [W::Thing],
    few: usize,
}

impl<'a, W: Makes> Each for Things<'a, W> {
    ghost use Rattle.std.specs.Prelude.{All, length, slice_index_or};

    type Made = W::Made;

    ghost count = { λ s. length s.things.now };

    ghost ready = { λ s. All (W.fits s.work.now) s.things.now };

    ghost makes = { λ s i m. (d : W.Thing) → W.made s.work.now (slice_index_or s.things.now i d) m };

    fn items(&self) -> usize {
        self.things.len()
    }

    fn few(&self) -> usize {
        self.few
    }

    fn make(&self, alloc: Global, item: usize) -> Result<W::Made, AllocError> {
        self.work.make(alloc, &self.things[item])
    }
}

/// What is made of each of some things, in order, by workers side by side; one, or none, is the caller alone. So many things as `few`, or
/// fewer, are left to one. Nobody watches these workers: their gate is an open one. It errs only where memory runs out.
pub fn made_at_once<R: Threads + Sync, W: Makes>(
    rt: &R,
    alloc: Global,
    work: &W,
    things: &[W::Thing],
    few: usize,
    workers: u32,
) -> Result<Items<W::Made>, AllocError>
    requires fits { All (W.fits work.now) things.now }
    ensures { IfOk result (AreMade (W.made work.now) things.now) }
{
    let things = Things { work, things, few };
    let (_passed, made) = each_at_once(rt, alloc, &things, workers.max(1), 0, &OpenGate);
    made
}
