//! Positions one after another, with the choices among their moves.
ghost use Rattle.std.specs.Prelude.{◌≡◌, ◌∷◌, ◌++◌, [], true, false, IfOk, drop};
ghost use Rattle.rc_walk.specs.Ways.{IsUpTo};
ghost use Rattle.rc_walk.specs.ShortestWalks.{ComeBefore};

use rc_base::Pos;
use std::alloc::AllocError;

/// Positions, each a move of the one before, and the places of these moves.
#[derive(Drop)]
pub(crate) struct Way {
    pub positions: Vec<Pos>,
    pub choices: Vec<usize>,
}

/// Whether some choices come before others: fewer, or of as many the first that differ.
pub(crate) fn come_before(one: &[usize], other: &[usize]) -> bool
    ensures before { result ≡ true → ComeBefore one.now other.now }
    ensures behind { result ≡ false → IsUpTo other.now one.now }
{
    if one.len() != other.len() {
        return one.len() < other.len();
    }
    for at in 0..one.len() {
        if one[at] != other[at] {
            return one[at] < other[at];
        }
    }
    false
}

impl Way {
    /// Goes on by a way that begins where this one ends, and then by one choice more.
    pub fn and_back(mut self, back: Way, last: usize) -> Result<Way, AllocError>
        ensures positions { IfOk result (λ way. way.positions.items ≡ self.positions.items ++ drop 1 back.positions.items) }
        ensures choices { IfOk result (λ way. way.choices.items ≡ self.choices.items ++ back.choices.items ++ last ∷ []) }
    {
        for at in 1..back.positions.len() {
            self.positions.push(back.positions[at])?;
        }
        for choice in back.choices.as_slice() {
            self.choices.push(*choice)?;
        }
        self.choices.push(last)?;
        Ok(self)
    }
}
