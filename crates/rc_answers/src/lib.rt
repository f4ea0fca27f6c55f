//! How what files were found to be becomes a text and a status.
//!
//! It stands on the request of rc_words, on networks and their refusals, on the outcome of the rounds as it is, on links, walks and the sets of headers that reach,
//! and on texts to a sink. The layer above knows what of a network is asked about, and of each finding the exact text and status: or that nothing is written, because memory
//! or nodes are lacking. Of files and rounds it knows nothing.
#![tactic(auto)]

mod answering;
mod findings;
mod packets;
mod subject;

pub use answering::{answer_findings, answer_prepared};
pub use findings::{BeforeRounds, FileFindings, Findings, before_rounds};
pub use subject::{Arrival, Detail, PacketSet, Question, Subject, question_of};
