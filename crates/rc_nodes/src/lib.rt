//! The table of decision nodes that all callers share, without locks.
//!
//! It stands on rc_trees, and on the kit's `atomic_table`. A node is one word, written once by one compare-exchange; a reference
//! stands for a tree. The layer above may know: what a seat knows of references it knows for good, equal trees have equal references,
//! a full table has fewer slots than there are trees that may be made, and whatever callers do at once, the table stays in a good state.
#![tactic(auto)]

mod laws;
mod may;
mod rule;
mod table;
mod words;

pub use laws::{
    a_full_table_is_too_small, a_new_table_is_empty, equal_trees_have_one_reference,
    known_trees_are_reduced,
};
pub use may::{Chains, May};
pub use table::{Full, Nodes, Seat};
pub use words::{ALWAYS, NEVER, Node, Ref};
