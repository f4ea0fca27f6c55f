//! Operations on sets of headers, as decision trees over the shared table of nodes.
//!
//! It stands on rc_nodes. A `Work` is a seat with a memo of the operations that it did. The layer above may know that `and`, `or` and
//! `minus` answer a reference that the seat knows as the tree of their definition, when a table is full, and what a tree holds.
#![tactic(auto)]

mod memo;
mod operation;
mod value;
mod work;

pub use value::eval;
pub use work::{SetError, Work};
