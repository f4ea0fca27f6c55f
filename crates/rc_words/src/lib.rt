//! The words of the command line: what is asked for, read by the kit's crate `clap`.
//!
//! It stands on `rc_base` and `rc_openings`. The layer above may know that words are usage exactly where clap refuses the
//! public command `netcheck_app` or the text of a place, an address or an ending isn't read, and else the request of its matches, with every
//! number in its option's range; and that plain words, which `plain_words` writes, make what they say, and else the
//! defaults.
#![tactic(auto)]

mod app;
mod endings;
mod laws;
mod reading;
mod request;

pub use laws::{
    first_word_is_a_command, made_by_sample, numbers_are_in_range, plain_words_are_taken,
    refused_as_by_clap,
};
pub use reading::request_of_words;
pub use request::{Ask, Limits, PlaceName, Request, Source, WordText, WordsFault};
