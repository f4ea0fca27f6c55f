//! The decision of BGP (RFC 4271 s.9.1.2.2): the best of the paths to one prefix, and the further ones that a router uses with it.
//!
//! It stands on the paths of rc_route and the AS paths of rc_as_path. The layer above knows the place of the best path as that of
//! the eliminations, also where it has of each path no more than its standing, and the places of several paths as the definition's list.
//! Only several paths take memory.
#![tactic(auto)]

mod choice;
mod comparing;
mod leader;
mod multipath;
mod standing;
mod turn;

pub use choice::{best, best_standing};
pub use multipath::multi;
pub use standing::Standing;
