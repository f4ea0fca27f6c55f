//! The positions of a network as numbers: their places in its list.
//!
//! It stands on the network of rc_config. The layer above may know that a position's number is below the count of positions, that it is
//! the place where the position stands, and that no other place has it.
#![tactic(auto)]

mod places;

pub use places::Places;
