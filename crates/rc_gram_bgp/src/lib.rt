//! The grammar of BGP (RFC 4271): the lines that open a router's process, and those in its block.
//!
//! It stands on the openings of lines, the lines of a file and the model. The layer above knows that each of these lines
//! is one command, or has one refusal, as the rows say, and that each command is in range.
#![tactic(auto)]

mod lines;
mod neighbor_lines;
mod peers;
mod reading;
mod redistributions;
mod rows;

pub use reading::{read_form, read_line};
