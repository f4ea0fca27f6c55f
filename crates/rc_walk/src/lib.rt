//! The walks of a packet: its first one, and the shortest to an ending and back to itself.
//!
//! It stands on the moves of rc_moves. The layer above knows a packet's first walk as the one that takes the first move each time, and
//! its shortest walk to an ending, or back to itself, as the one whose choices among the moves are the fewest and the first.
#![tactic(auto)]

mod finding;
mod goal;
mod laws;
mod search;
mod turning_back;
mod walked;
mod walking;
mod way;

pub use finding::shortest;
pub use laws::{
    first_walk_is_a_walk, loops_are_chains, none_exactly_where_none_loops, one_first_walk,
    one_shortest_loop, one_shortest_walk, shortest_loop_is_a_walk, shortest_walk_is_a_walk,
    there_is_a_first_walk, there_is_a_shortest_loop, there_is_a_shortest_walk,
};
pub use turning_back::looping;
pub use walking::trace;
