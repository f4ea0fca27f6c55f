//! What the failure of each single link does to a packet.
//!
//! It stands on networks that are cut (rc_config), the pairs of interfaces that share a link (rc_topology), the rounds of tables (rc_rounds)
//! and walks (rc_walk). The layer above knows the rows: one for each pair, by the whole analysis of the network that is cut there; and
//! that there is one such list, whatever the number of workers.
#![tactic(auto)]

mod analysing;
mod laws;
mod packet;
mod plain;
mod rows;
mod sharing;

pub use laws::one_list;
pub use sharing::failures;
