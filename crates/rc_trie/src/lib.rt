//! Values by prefix, and the longest prefix that holds an address (RFC 1812 s.5.2.4.3): the tree of prefixes as one list in the tree's own
//! order.
//!
//! It stands on the addresses and prefixes of rc_base, and on rc_route for what has a prefix. The layer above knows a tree as a map: the
//! list of its prefixes, by address, then length, each with its value. A look-up in any list that is in that order needs no tree at all.
#![tactic(auto)]

mod row;
mod search;
mod tree;

pub use search::{longest_at, longest_in, read_prefixes};
pub use tree::PrefixTree;
