//! The operations, and what they give at once.
ghost use Rattle.std.specs.Prelude.{◌≤◌, ◌&&◌, ◌||◌, MatchOption};
ghost use Rattle.rc_bdd.specs.Work.{Gives, truth};
ghost use Rattle.rc_trees.specs.Combine.{and_not};

use rc_nodes::{ALWAYS, NEVER, Ref};

/// The headers of both sets, of either, of the first alone.
#[derive(Clone, Copy, PartialEq, Eq)]
pub enum Operation {
    And,
    Or,
    Minus,
}

impl Operation {
    /// The result, where it is a constant or one of the two.
    pub fn at_once(self, left: Ref, right: Ref) -> Option<Ref>
        ensures { MatchOption result (2 ≤ right.index) (λ r. Gives (truth self) left.index right.index r.index) }
    {
        match self {
            Operation::And => and_at_once(left, right),
            Operation::Or => or_at_once(left, right),
            Operation::Minus => minus_at_once(left, right),
        }
    }
}

fn and_at_once(left: Ref, right: Ref) -> Option<Ref>
    ensures { MatchOption result (2 ≤ right.index) (λ r. Gives ◌&&◌ left.index right.index r.index) }
{
    if left.index == 0 {
        return Some(NEVER);
    }
    if right.index == 0 {
        return Some(NEVER);
    }
    if left.index == 1 {
        return Some(right);
    }
    if right.index == 1 {
        return Some(left);
    }
    if left.index == right.index {
        return Some(left);
    }
    None
}

fn or_at_once(left: Ref, right: Ref) -> Option<Ref>
    ensures { MatchOption result (2 ≤ right.index) (λ r. Gives ◌||◌ left.index right.index r.index) }
{
    if left.index == 1 {
        return Some(ALWAYS);
    }
    if right.index == 1 {
        return Some(ALWAYS);
    }
    if left.index == 0 {
        return Some(right);
    }
    if right.index == 0 {
        return Some(left);
    }
    if left.index == right.index {
        return Some(left);
    }
    None
}

fn minus_at_once(left: Ref, right: Ref) -> Option<Ref>
    ensures { MatchOption result (2 ≤ right.index) (λ r. Gives and_not left.index right.index r.index) }
{
    if left.index == 0 {
        return Some(NEVER);
    }
    if right.index == 1 {
        return Some(NEVER);
    }
    if right.index == 0 {
        return Some(left);
    }
    if left.index == right.index {
        return Some(NEVER);
    }
    None
}
