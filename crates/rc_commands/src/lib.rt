//! What commands do to the model of a file: each is put into it, and in the end each BGP neighbour has what holds of it.
//!
//! It stands on the model of rc_config, which says what a command means (`after`). The layer above knows that a call gives just
//! the model after the command, that a lawful file stays lawful, and that of each value the last line counts that says it.
//!
//! Each kind of lines has a module: `interface`, `ospf`; the lists (`access_list`, `prefix_list`, `community_list`, together in
//! `lists`), `route_map` with its `sets`; `bgp` with what `neighbor` lines set (`settings`) and the peer groups (`peering`). A list
//! or a route map is taken out of its place and put back (`lift`). The file is where they meet (`file`), and `last_line` says which
//! lines count.
#![tactic(auto)]

mod access_list;
mod bgp;
mod community_list;
mod file;
mod interface;
mod last_line;
mod lift;
mod lists;
mod ospf;
mod peering;
mod prefix_list;
mod route_map;
mod sets;
mod settings;

pub use access_list::access_list_with;
pub use community_list::community_list_with;
pub use file::{apply, put, settle};
pub use last_line::last_line_counts;
pub use prefix_list::prefix_list_with;
pub use route_map::{route_map_opened, route_map_with};
