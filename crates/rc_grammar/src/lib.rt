//! A file: its lines as one model, or its first refusal.
//!
//! It stands on the lines of a file, the grammars of lines and the model. The layer above knows the model of a file's
//! bytes, or the least line that is refused and why, and that a model that is given is lawful.
#![tactic(auto)]

mod grammars;
mod reading;
mod refusal;

pub use reading::{first_refusal, read_file};
pub use refusal::{FileCause, FileRefusal, ReadError};
