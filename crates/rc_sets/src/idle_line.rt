//! Lines of an access list that never decide.

use rc_base::Items;

/// A line of which every header that it matches is matched by an earlier line.
#[derive(Drop)]
pub struct IdleLine {
    /// The line's sequence number.
    pub sequence: u32,
    /// The sequence numbers of the earlier lines that decide some header which it matches, by rising number: none where no header
    /// matches it.
    pub by: Items<u32>,
}

/// The idle lines of an access list, by rising sequence number.
pub type Idle = Items<IdleLine>;
