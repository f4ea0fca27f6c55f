//! What an access list does with a packet: the first line that matches decides, and the end denies.
//!
//! It stands on the headers of rc_base and on the lists of rc_config. The layer above knows the answer of each call as that
//! of the definition, and an access group as the name of a list that may not be there. No call takes memory.
#![tactic(auto)]

mod at_interface;
mod group;
mod lines;

pub use at_interface::passes_at;
pub use group::passes;
pub use lines::{matches_address, matches_line, verdict};
