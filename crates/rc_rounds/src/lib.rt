//! Rounds of tables, until they change no more, come again, or reach a limit.
//!
//! It stands on what routers know, in pieces that one round shares with the next (rc_pieces), on the next table of one router (rc_rib), on
//! what OSPF gives without a state (rc_ospf) and the sessions of BGP (rc_bgp), which are made once before the first round, on what AS
//! boundary routers send (rc_external), made once in each round, and on the gate of rc_outside. A router is made anew only where something
//! changed that it reads (rc_reads). The layer above knows the outcome as a relation on the states after all rounds, of which there is one,
//! whatever the number of workers.
#![tactic(auto)]

mod at_address;
mod leaving;
mod parts;
mod progress;
mod round;
mod rounds;
mod shares;
mod silent;

pub use at_address::{KnownAt, known_at, none_ask_tables};
pub use rc_reads::{Next, Reads, next_of, reads};
pub use rc_route::Outcome;
pub use rounds::{one_outcome, rounds_of, run_rounds};
