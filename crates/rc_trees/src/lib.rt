//! Decision trees over the bits of a header: definitions, and their laws as the contracts of empty functions.
//!
//! It stands on rc_base, for headers and prefixes. The layer above may know what a tree holds, what the operations and recipes on
//! trees make, which trees they may make on the way, and that each set of headers has one reduced tree.
#![tactic(auto)]

mod laws;

pub use laws::{
    a_chain_holds_its_prefix, one_tree_for_each_set, operations_combine, operations_go_by_sides,
    parts_are_subtrees, results_are_reduced,
};
