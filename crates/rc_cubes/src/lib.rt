//! The cubes of a set of headers, in order: the paths through its tree to true, low side first.
//!
//! It stands on rc_bdd. The layer above may know that the cubes come in the order of their definition, that each header of the set is in
//! exactly one of them and no other header in any, and that the value of a cube has 0 in each bit that the cube doesn't test.
#![tactic(auto)]

mod cube;
mod cubes_of;
mod laws;

pub use cube::Cube;
pub use cubes_of::Cubes;
pub use laws::{cubes_part_the_set, free_bits_are_zero, what_is_left_stands_behind};
