//! The lines of access lists that never decide, router by router.
//!
//! It stands on what sets of headers tell of one list's lines (rc_sets), in one table of nodes (rc_nodes), and on the routers, lists and lines
//! that rc_report writes. The layer above knows of the access lists of a router, or of all, exactly the lines that never decide, or that memory ran out, or that
//! more nodes are needed than the table may have.
#![tactic(auto)]

mod first_try;
mod found;
mod telling;

pub use telling::idle_told;
