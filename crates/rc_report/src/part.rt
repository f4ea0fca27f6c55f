//! The parts of a line.
use rc_base::{Addr, Prefix};

/// A part of a line.
#[derive(Clone, Copy)]
pub enum Part<'a> {
    /// Bytes as they are.
    Text(&'a [u8]),
    /// A number, in decimal.
    Number(u64),
    /// An address, as four octets in decimal with dots between them.
    Address(Addr),
    /// A prefix, as its address, a slash and its length.
    Prefix(Prefix),
}
