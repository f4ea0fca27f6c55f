//! How rounds of states end.
ghost use Rattle.std.specs.Prelude.{◌≡◌};

use crate::State;

/// How the rounds of states of a network end. Which end they have is said where they are made.
#[derive(Drop)]
pub enum Outcome {
    /// The state after this round is that after the round before: a fixed point.
    Fixed(u32, State),
    /// The state after the first of these rounds comes again after the second.
    Repeats(u32, u32),
    /// So many rounds went by without either.
    Limit(u32),
}

/// How the rounds of states of a network end, apart from the state in which they do.
#[derive(Clone, Copy)]
pub enum RoundsEnd {
    /// At a fixed point, after this round.
    Fixed(u32),
    /// By repeating: the state after the first of these rounds comes again after the second.
    Repeats(u32, u32),
    /// At the limit of so many rounds, without either.
    Limit(u32),
}

impl Outcome {
    ghost use Rattle.rc_route.specs.Outcomes.{end_of};

    /// How the rounds end, apart from the state of a fixed point.
    pub fn end(&self) -> RoundsEnd
        ensures { result ≡ end_of self.now }
    {
        match self {
            Outcome::Fixed(round, _) => RoundsEnd::Fixed(*round),
            Outcome::Repeats(first, again) => RoundsEnd::Repeats(*first, *again),
            Outcome::Limit(rounds) => RoundsEnd::Limit(*rounds),
        }
    }
}
