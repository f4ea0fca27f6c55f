//! The hops of an address in a route table: longest prefix match, and gateways resolved through the table itself.
//!
//! It stands on the addresses, prefixes and lists of rc_base, on the routes of rc_route and on the look-up of rc_trie, which serves any list
//! in order of prefix: the prefixes of a prepared table are one. The layer above knows such a table as the list of its routes' prefixes,
//! each with the hops that it resolves to, and an address by that list.
#![tactic(auto)]

mod fib;
mod growing;
mod hop_set;
mod laws;
mod layers;
mod making;
mod resolve;
mod seen;
mod stretch;

pub use fib::Fib;
pub use laws::{hops_by_depth, prepared_hops_are_resolved};
pub use making::FibMaking;
pub use stretch::Stretch;
