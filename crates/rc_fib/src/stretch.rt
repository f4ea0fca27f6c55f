//! Routes side by side that have the same hops.
use rc_route::SharedHops;

/// Routes of a prepared table that stand side by side and have the same hops: their hops stand in memory once.
#[derive(PartialEq, Eq)]
pub struct Stretch {
    /// The place behind its last route.
    pub end: usize,
    /// In their order, each once.
    pub hops: SharedHops,
}

/// By a function of its own, so that what holds stretches drops each by one call.
impl Drop for Stretch {
    fn drop(self) {
        let Stretch { end: _, hops: _ } = self;
    }
}
