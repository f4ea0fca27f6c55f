//! The grammar of what stands outside every other grammar: host names, static routes, interfaces and what their blocks
//! say.
//!
//! It stands on the openings of lines, the lines of a file and the model. The layer above knows that each line in each
//! block is one command, is passed over, or has one refusal, as the tables say, and that each command is in range.
#![tactic(auto)]

mod ospf;
mod reading;
mod route_options;
mod rows;

pub use reading::{read_general_form, read_interface_form, read_line};
