//! The sets of headers with each move of a network, as trees, and what they say of a packet; and those of one router by itself, made.
//!
//! It stands on the moves of rc_moves and on the sets of rc_sets. The layers above may know that an edge, or an ending, holds exactly the
//! headers that have such a move, that a query's result holds exactly those that reach, and which trees a query makes (`query`, `laws`);
//! and they make the edges and endings of a position of what is made once for its router, which they know by `IsMade`.
//!
//! The crate goes one way: the sets of one router's access groups (`groups`), of the addresses that it and its neighbours own
//! (`destinations`, `neighbors`) and of its hops (`hop_steps`), each made once (`router_sets`); what the router at a position sends over a
//! hop, step by step of these (`hop_sets`).
#![tactic(auto)]

mod destinations;
mod groups;
mod hop_sets;
mod hop_steps;
mod laws;
mod neighbors;
mod query;
mod router_sets;

pub use destinations::interface_set;
pub use groups::let_in_set;
pub use hop_sets::{HopAt, Site, forwarded_set, router_at, step_set};
pub use hop_steps::{Part, Step};
pub use laws::{
    a_result_is_reduced, a_result_is_what_reaches, an_edge_is_a_move, an_ending_is_a_move,
    rounds_are_steps,
};
pub use neighbors::{linked_of, takers_of};
pub use query::Query;
pub use router_sets::{HopParts, RouterSets, over_set, owned_set, part_set};
