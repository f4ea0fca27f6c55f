//! The edge to the system: its folders, and its streams of bytes.
//!
//! It stands on the traits of rc_outside. The layer above may know that both adapters tell no content, that they begin with
//! no fault, and that their counts are true to what they answer, as the traits say; that a file which is read is read to its end, or
//! to one byte more than was asked for; and that a sink's writer takes each piece whole where none is refused.
#![tactic(auto)]

mod faults;
mod folder;
mod fronts;
mod listing;
mod sink;

pub use folder::RealFolder;
pub use sink::WriterSink;
