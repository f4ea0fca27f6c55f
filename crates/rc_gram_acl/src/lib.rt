//! The grammar of access lists: the lines that open a list, and those that are one of its lines.
//!
//! It stands on the openings of lines, the lines of a file and the model. The layer above knows that each such line is one
//! command, or has one refusal, as the rows say, and that the lists stay lawful with each line.
#![tactic(auto)]

mod addresses;
mod entry;
mod further;
mod lines;
mod list_number;
mod lists;
mod number_name;
mod ports;
mod reading;
mod refused;
mod sequence;
mod values;

pub use reading::{read_form, read_line};
