//! The moves of a packet at a position, and what a walk of such moves is.
//!
//! It stands on the links of rc_topology, the hops of rc_fib, the access groups of rc_filter and the workers of rc_shares. The layers
//! above know the moves of a header at a position as a list (RFC 1812 s.5.2), and a walk as positions without repeats, each a move of
//! the one before, which are no more than those of the network. It looks for no walk: that is rc_walk's. The sets of headers with such
//! moves are rc_edges'.
#![tactic(auto)]

mod begun;
mod laws;
mod plane;
mod sending;
mod steps;
mod tables;
mod walk;

pub use laws::{positions_are_told_apart, walks_are_short};
pub use plane::Plane;
pub use steps::{Steps, step};
pub use tables::Tables;
pub use walk::{Move, Stop, Walk};
