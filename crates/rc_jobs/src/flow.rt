//! What positions send to one another, and what may end at them.

use rc_base::{Items, Kind};
use rc_nodes::Ref;

/// What leaves a position: of the headers that came there those of a set.
#[derive(Clone, Copy)]
pub struct Flow {
    /// The place of the position in the list of positions, counted from 0.
    pub from: usize,
    pub set: Ref,
}

/// What may end at a position, and how: of the headers that came there those of a set.
#[derive(Clone, Copy)]
pub struct Ending {
    pub kind: Kind,
    pub flow: Flow,
}

/// The sets of a query, which are made before its first round.
pub struct Prepared {
    /// For each position the flows into it that let some header pass, in the order of where they come from.
    pub into: Items<Items<Flow>>,
    /// The endings asked for that some header may have, in the order of the positions that they are at.
    pub ends: Items<Ending>,
}

/// By a function of its own, so that what holds the sets drops them by one call.
impl Drop for Prepared {
    fn drop(self) {
        let Prepared { into: _, ends: _ } = self;
    }
}
