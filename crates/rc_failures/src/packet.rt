//! The packet of which is asked what failures do to it.
use rc_base::{Ends, Header, Pos};

/// A packet at a place, and the endings that are asked for.
#[derive(Clone, Copy)]
pub(crate) struct Packet {
    /// Where it starts.
    pub place: Pos,
    pub header: Header,
    pub ends: Ends,
}
