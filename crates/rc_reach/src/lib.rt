//! The headers that reach an ending from a place, that loop, or that arrive by one walk and fail by another: in rounds, by workers at once.
//!
//! It stands on the edges and endings of rc_edges, on the sectors of rc_sectors and on the rounds of rc_spread. The layer above knows each
//! result by the walks of rc_walk: it is the reduced tree of exactly the headers with such walks, for every number of workers; and it knows
//! that a table is full only where the question's operations have more different trees than the table has slots.
//!
//! The crate goes one way: what comes from a place (`coming`) and of it what ends as asked (`result`), in all sectors of the headers that a
//! worker makes (`sectored`) and in all of them together (`by_sectors`), for some endings (`reaching`) and for two sets of them (`end_sets`,
//! `both_ways`); what goes on from positions (`going_on`) and what goes on without end (`endless`); any of these questions (`asked`), in a
//! table of its own (`asked_table`), which is a smaller one first (`first_try`).
#![tactic(auto)]

mod asked;
mod asked_table;
mod both_ways;
mod by_sectors;
mod coming;
mod end_sets;
mod endless;
mod first_try;
mod going_on;
mod laws;
mod reaching;
mod result;
mod sectored;

pub use asked::{Asked, AskedQuery, asked_set};
pub use asked_table::{AskedSet, asked_in_table};
pub use both_ways::uneven;
pub use end_sets::{arrivals, failures};
pub use endless::loops;
pub use first_try::first_room;
pub use laws::{a_result_is_what_loops, one_set_for_each_question, rounds_are_chains};
pub use reaching::reach;
