//! The analyser: the words of a command line and a folder in, a text to a sink and a status out.
//!
//! It stands on the words, on the outside (folders, sinks, gates), on files as models and their network, on the rounds of
//! tables, and on rc_answers, which makes of what was found a text and a status. The layer above knows `run`, whose clauses are the product's headline, and each status.
#![tactic(auto)]

mod answering;
mod findings;
mod found;
mod runs;

pub use findings::one_answer;
pub use rc_answers::{FileFindings, Findings, Subject};
pub use rc_loading::one_listing;
pub use rc_words::{
    Ask, Limits, PlaceName, Request, Source, WordText, WordsFault, first_word_is_a_command,
    made_by_sample, numbers_are_in_range, plain_words_are_taken, refused_as_by_clap,
    request_of_words,
};
pub use rc_writing::Status;
pub use runs::run;
