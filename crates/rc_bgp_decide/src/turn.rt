//! What is read of a path that is as good as the best one.
ghost use Rattle.std.specs.Prelude.{◌≡◌};

use rc_base::Addr;

/// What is read of a path that is as good as the best one. The order is that in which such paths are taken: by who sent them, then by
/// place, which is each one's own.
#[derive(Clone, Copy, PartialEq, Eq, PartialOrd, Ord)]
pub(crate) struct Turn {
    /// The BGP identifier of the sender.
    pub(crate) sender_id: Addr,
    /// The address of the sender on the session.
    pub(crate) neighbor: Addr,
    /// Its place among all paths, counted from 0.
    pub(crate) place: usize,
    pub(crate) next_hop: Addr,
}
