//! What a search looks for.
ghost use Rattle.std.specs.Prelude.{◌≡◌};
ghost use Rattle.rc_walk.specs.Goals.{is_met};

use rc_base::{Ends, Pos};
use rc_moves::Move;

/// What a search looks for among the moves.
#[derive(Clone, Copy, Drop)]
pub(crate) enum Goal {
    /// An ending of these.
    Ending(Ends),
    /// A move onto a position.
    Onto(Pos),
    /// Nothing: it finds all positions.
    Nothing,
}

impl Goal {
    /// Whether a move is what is looked for.
    pub fn is_met(&self, next: &Move) -> bool
        ensures { result ≡ is_met self.now next.now }
    {
        match self {
            Goal::Ending(ends) => match next {
                Move::Next(_) => false,
                Move::End(kind) => ends.has(*kind),
            },
            Goal::Onto(position) => match next {
                Move::Next(onto) => position == onto,
                Move::End(_) => false,
            },
            Goal::Nothing => false,
        }
    }
}
