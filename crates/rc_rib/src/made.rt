//! What a round makes of one router.
use rc_base::{Items, Prefix};
use rc_pieces::Known;

/// What a router knows after a round, and the prefixes whose best path may be another than before.
#[derive(Drop)]
pub struct Made {
    pub state: Known,
    /// It is set only where the table is the one before.
    pub has_same_table: bool,
    pub changed: Items<Prefix>,
}
