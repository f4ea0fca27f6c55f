//! Tests of `run` where a case file can't say them: folders and sinks that fail, gates and workers, odd bytes and great sizes, the
//! adapters to the system, and `reach` beside `trace`.
//!
//! What words say over files is in the case files of rc_tests_cases. These tests stand above the crate that they try, since a crate with
//! tests of its own is proved twice.
#![tactic(auto)]

#[cfg(test)]
mod answers;
#[cfg(test)]
mod beside;
#[cfg(test)]
mod faults;
#[cfg(test)]
mod gates;
#[cfg(test)]
mod hostile;
#[cfg(test)]
mod pairs;
#[cfg(test)]
mod refusals;
#[cfg(test)]
mod small_tables;
#[cfg(test)]
mod system;
