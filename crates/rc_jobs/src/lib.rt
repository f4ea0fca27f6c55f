//! Work on sets that is shared by workers at once, and the flows between positions that such work is done over.
//!
//! It stands on the works of rc_bdd and on the gate of rc_outside. The layer above says by `Job` what a share is, and may know that all
//! shares together are the whole, for every number of workers; and that a worker has a seat and a memo of its own, and hands its seat back in
//! every outcome. Workers each have one share (`at_once_or_in_turn`), or take many, as `Bounds` cuts them, one after another (`by_workers`).
#![tactic(auto)]

mod bounds;
mod collected;
mod flow;
mod job;
mod taking;
mod workers;

pub use bounds::Bounds;
pub use collected::{Collected, push_ending, push_flow};
pub use flow::{Ending, Flow, Prepared};
pub use job::Job;
pub use taking::by_workers;
pub use workers::{Pace, at_once_or_in_turn, in_turn};
