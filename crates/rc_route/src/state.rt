//! What the routers know after a round.
use crate::{Best, Parts, Route};
use rc_base::Items;

/// What one router knows: its table, and its best BGP paths with what goes with them, one for each prefix, by address, then length.
pub struct RouterState {
    pub table: Parts<Route>,
    pub paths: Parts<Best>,
}

/// By a function of its own, so that what holds states drops each by one call.
impl Drop for RouterState {
    fn drop(self) {
        let RouterState { table: _, paths: _ } = self;
    }
}

/// A state: what each router of a network knows, in the network's order.
pub type State = Items<RouterState>;
