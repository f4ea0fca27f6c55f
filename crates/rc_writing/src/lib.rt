//! A text is written to a sink, and a status answered.
//!
//! It stands on what words ask for (rc_words), on the refusals of networks, on how rounds end, and on lines to a sink. The layer above knows each status with
//! its number, the usage text, and the lines of a refusal and of a place that isn't there; and of any text that it is written whole with its status, or a front of it where
//! the sink failed, or nothing where memory ran out before.
#![tactic(auto)]

mod lines;
mod status;
mod written;

pub use lines::{NoPlaceLine, RefusedLine};
pub use status::Status;
pub use written::{answer_usage, write, write_ended};
