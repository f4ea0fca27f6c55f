//! Moves and walks.
use rc_base::{Items, Kind, Pos};

/// A move of a packet at a position: on to a next position, or an ending.
#[derive(Clone, Copy, PartialEq, Eq)]
pub enum Move {
    /// The packet enters a next router.
    Next(Pos),
    /// The walk ends.
    End(Kind),
}

/// How a walk stops.
#[derive(Clone, Copy, PartialEq, Eq)]
pub enum Stop {
    /// In an ending.
    At(Kind),
    /// Before a position that is on the walk already.
    Loop,
}

/// A walk: the positions of a packet, each once, and how it stops.
#[derive(Drop)]
pub struct Walk {
    pub positions: Items<Pos>,
    pub stop: Stop,
}
