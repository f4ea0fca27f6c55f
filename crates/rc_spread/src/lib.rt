//! Sets of headers at positions that are made in rounds, each round from the sets of the one before, by workers at once.
//!
//! It stands on the workers of rc_jobs and on the sectors of rc_sectors, and knows of positions only their numbers. The layer above says how
//! one set is made (`Spread`), and knows that all sets are those after as many rounds as there are positions, for every number of workers;
//! it may know that what comes together at a position is what stood there with all that is sent, in a sector or in all.
//!
//! The crate goes one way: what comes together at a position (`gather`), and all that comes of many (`united`); sets that are made in
//! rounds (`spread`), a round of them (`round`), what stands before the first one and what a round changed (`first`), all rounds (`rounds`);
//! all rounds that look at those positions only to which something fresh leads, by one alone (`alone`) and by several (`by_flows`); and the
//! flows out of positions, of those into them (`turning`).
#![tactic(auto)]

mod alone;
mod by_flows;
mod first;
mod gather;
mod round;
mod rounds;
mod spread;
mod turning;
mod united;

pub use alone::rounds_alone;
pub use by_flows::rounds_by_flows;
pub use first::{first_fresh, first_sets};
pub use gather::{are_settled, gathered_set};
pub use rounds::all_rounds;
pub use spread::Spread;
pub use turning::flows_out;
pub use united::{Passage, passages_of, united_set};
