//! Workers at once.
ghost use Rattle.std.specs.Prelude.{◌≡◌, ◌<◌, ◌≤◌};
ghost use Rattle.std.specs.Thread.{IsSync};
ghost use Rattle.rc_outside.specs.Gate.{passage};
ghost use Rattle.rc_outside.specs.Shares.{share_start};

use crate::shared::Shared;
use crate::starts::share_start;
use rc_outside::{Gate, Passed};
use std::alloc::Global;
use std::thread::{Threads, join};

/// What the workers from `first` up to `last` make: those of one half and those of the other work side by side, until a worker stands alone
/// or few items are left. Then all who are left pass the gate, and the first of them works.
fn by_halves<R: Threads + Sync, W: Shared + Sync, G: Gate>(
    rt: &R,
    alloc: Global,
    work: &W,
    own: W::Own,
    workers: u32,
    first: u32,
    last: u32,
    phase: u32,
    gate: &G,
) -> (Passed, W::Made)
    requires ready { W.ready work.now own }
    requires some { first < last }
    requires end { last ≤ workers }
    ensures passed { result.0 ≡ passage phase first last }
    ensures made { W.makes work.now own (share_start (W.count work.now) workers first) (share_start (W.count work.now) workers last) result.1 }
{
    let items = work.items();
    let from = share_start(items, workers, first);
    let to = share_start(items, workers, last);
    if last - first == 1 || to - from <= work.few() {
        let passed = Passed::in_turn(gate, phase, first, last);
        return (passed, work.share(alloc, own, from, to));
    }
    let middle = first + (last - first) / 2;
    let (mine, theirs) = work.part(own);
    let ((passed, left), (behind, right)) = join(
        rt,
        || -> (Passed, W::Made)
            requires { IsSync R.row × IsSync W.row × W.ready work.now mine × (first < middle) × (middle ≤ workers) }
            ensures { (result.0 ≡ passage phase first middle) × W.makes work.entry.now mine (share_start (W.count work.entry.now) workers first) (share_start (W.count work.entry.now) workers middle) result.1 }
        { by_halves(rt, alloc, work, mine, workers, first, middle, phase, gate) },
        || -> (Passed, W::Made)
            requires { IsSync R.row × IsSync W.row × W.ready work.now theirs × (middle < last) × (last ≤ workers) }
            ensures { (result.0 ≡ passage phase middle last) × W.makes work.entry.now theirs (share_start (W.count work.entry.now) workers middle) (share_start (W.count work.entry.now) workers last) result.1 }
        { by_halves(rt, alloc, work, theirs, workers, middle, last, phase, gate) },
    );
    (passed.and(behind), work.together(left, right))
}

/// What all workers make at once of all items, each of whom has passed the gate once, before its share. There is at least one.
pub fn at_once<R: Threads + Sync, W: Shared + Sync, G: Gate>(
    rt: &R,
    alloc: Global,
    work: &W,
    own: W::Own,
    workers: u32,
    phase: u32,
    gate: &G,
) -> (Passed, W::Made)
    requires ready { W.ready work.now own }
    requires some { 1 ≤ workers }
    ensures passed { result.0 ≡ passage phase 0 workers }
    ensures made { W.makes work.now own 0 (W.count work.now) result.1 }
{
    by_halves(rt, alloc, work, own, workers, 0, workers, phase, gate)
}
