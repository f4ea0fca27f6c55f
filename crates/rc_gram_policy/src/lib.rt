//! The grammar of policies: the lines of prefix lists and community lists, and those that open an entry of a route map or stand
//! in its block.
//!
//! It stands on the openings of lines, the lines of a file and the model. The layer above knows that each such line is one
//! command, or has one refusal, as the rows say, and that each line is lawful.
#![tactic(auto)]

mod as_path;
mod communities;
mod community_lines;
mod map_lines;
mod map_opening;
mod names;
mod optional;
mod prefix_lines;
mod reading;
mod refused;
mod rows;
mod values;

pub use reading::{read_entry_form, read_line, read_list_form};
