//! Which routers a router's next table and best paths are made from, and what a router knows next where they changed.
//!
//! It stands on the next table of one router (rc_rib), and on what routers know, in pieces (rc_pieces). The layer above knows whom a router
//! reads as a list, that states which tell the same of all these give the router the same after a round, and what a router knows next as
//! `Kept` exactly where two states do. Rounds have a flag for each router that says whether it stayed as it was; who reads only such
//! routers isn't made anew.
#![tactic(auto)]

mod again;
mod laws;
mod next;
mod reading;
mod same;
mod stayed;

pub use again::table_anew;
pub use laws::equal_where_read;
pub use next::{Next, next_of};
pub use reading::{Reads, reads};
pub use stayed::{Stayed, have_all_stayed, who_stayed};
