//! States that nobody needs any more.
ghost use Rattle.std.specs.Prelude.{◌≤◌};

use rc_pieces::{Knowledge, Known};
use std::thread::{Threads, for_each_mut};

/// Drops what a router knows.
fn forget(known: &mut Known) {
    *known = Known::nothing();
}

/// So many routes and paths of all routers, or fewer, are dropped in less time than a thread takes to start.
const FEW: usize = 20_000;

/// Whether a state has so few routes and paths that one worker drops it.
fn is_small(state: &[Known]) -> bool {
    let mut held: usize = 0;
    for known in state {
        held = held.saturating_add(known.table.len());
        held = held.saturating_add(known.paths.len());
    }
    held <= FEW
}

/// Drops a state, which the workers share where it is no small one: to drop many paths takes as long as to copy them.
pub(crate) fn drop_state<R: Threads + Sync>(rt: &R, state: Knowledge, workers: u32)
    requires { 1 ≤ workers }
{
    if is_small(state.as_slice()) {
        return;
    }
    let mut left = state.into_vec();
    for_each_mut(
        rt,
        left.as_mut_slice(),
        workers as usize,
        &|_, known: &mut Known| forget(known),
    );
}
