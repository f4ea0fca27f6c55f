//! Sets of headers as trees of the shared table.
//!
//! It stands on rc_bdd, on rc_filter for what access lists permit, and on rc_fib for the hops of an address. The layer above may know each
//! set by its recipe: the headers whose destination a prefix holds are its chain, those that an access list permits come from its lines
//! from the last to the first, and those that a table sends over a hop are the regions of the routes that give it.
#![tactic(auto)]

mod access_list;
mod asked_lists;
mod build;
mod deciding;
mod further;
mod hops;
mod idle_line;
mod idle_lines;
mod interval;
mod laws;
mod lines_query;
mod number;
mod ports;
mod prefix;
mod table_hops;

pub use access_list::filter_set;
pub use asked_lists::idle_of_lists;
pub use hops::hop_set;
pub use idle_line::{Idle, IdleLine};
pub use idle_lines::idle;
pub use laws::{
    a_hop_is_its_set, a_line_is_its_set, an_access_group_is_its_set, an_access_list_is_its_set,
    idle_lines_are_told_by_headers,
};
pub use lines_query::LinesQuery;
pub use prefix::prefix_set;
pub use table_hops::hops_in;
