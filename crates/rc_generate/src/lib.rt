//! A made network of any size, as a folder of configurations: a ring of routers with chords, a LAN at each, access lists at every
//! fourth, and OSPF on all of it.
//!
//! It stands on rc_base and rc_outside. The layer above knows it as a folder that tells its files, each of which is made when it
//! is read, and that never fails but for memory.
#![tactic(auto)]

mod addresses;
mod names;
mod sample;
mod text;

pub use sample::Sample;
