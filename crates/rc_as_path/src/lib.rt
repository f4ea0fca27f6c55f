//! AS paths, which share their tails.
//!
//! It stands on nothing but std. The layer above knows a path as the list of its AS numbers, the nearest first; that a copy
//! or a longer path is made in no memory but that of the numbers put in front; and that `==` decides equality.
#![tactic(auto)]

mod as_path;
mod segment;

pub use as_path::AsPath;
