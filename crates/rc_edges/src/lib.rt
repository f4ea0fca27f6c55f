//! The sets of headers that go from one position of a network to the next, and of those that end there (RFC 1812 s.5.2).
//!
//! It stands on the sets of one router by itself, of rc_router_sets, which says what edges and endings are and what they say of a packet,
//! and on the workers of rc_jobs. The layer above may know that the edges and endings of all positions are those, for every number of workers.
//!
//! The crate goes one way: the endings at a position (`endings`, `asked_endings`) and the edges to all other positions (`edges`, position
//! by position in `outgoing`); what goes on from a position, the same for all at which the same packets enter (`same_entry`,
//! `position_sets`); the positions of a worker's share, one after another (`worker_shares`), as a job (`edges_job`); and all of them
//! (`preparing`).
#![tactic(auto)]

mod asked_endings;
mod edges;
mod edges_job;
mod endings;
mod outgoing;
mod position_sets;
mod preparing;
mod same_entry;
mod worker_shares;

pub use preparing::prepare;
