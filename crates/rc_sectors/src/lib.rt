//! Sectors of headers: those whose destination begins with some bits.
//!
//! It stands on the trees and operations of rc_trees and rc_bdd. Operations on sets go by sides, so what they make of some sets is, in a
//! sector, what they make of what these sets are there; and what a set is in each of some sectors that are all headers together gives the
//! set again. So workers may each make sectors of a set, without a word to each other. The layer above knows what a set is in a sector, that
//! the sectors of a cut are all headers, and the set that is put together.
#![tactic(auto)]

mod cut;
mod laws;
mod sector;
mod together;

pub use cut::cut_of;
pub use laws::{a_sector_has_its_headers, each_header_has_a_sector};
pub use sector::set_in;
pub use together::whole;
