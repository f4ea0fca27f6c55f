//! What is shared.
ghost use Rattle.std.specs.Prelude.{◌≡◌, ℕ, ◌≤◌};

use std::alloc::Global;

/// Work on items in a row, each share of which can be done by itself.
pub trait Shared {
    /// What who works has to himself: it is parted where the work is.
    type Own: Drop + Send;

    /// What is made of a share.
    type Made: Drop + Send;

    /// How many items there are.
    ghost count: { Self → ℕ };

    /// What is shared, and what who works has to himself, are as they have to be.
    ghost ready: { Self → Self.Own → Type 0 };

    /// What one had to himself was parted into these two.
    ghost parts: { Self → Self.Own → Self.Own → Self.Own → Type 0 };

    /// With this to himself one makes that of the items from one number up to another.
    ghost makes: { Self → Self.Own → ℕ → ℕ → Self.Made → Type 0 };

    /// How many items there are.
    fn items(&self) -> usize
        ensures { result ≡ count self.now };

    /// So many items, or fewer, are left to one worker: to start a thread would take longer.
    fn few(&self) -> usize;

    /// Makes the share of the items from `from` up to `to`.
    fn share(&self, alloc: Global, own: Self::Own, from: usize, to: usize) -> Self::Made
        requires ready { ready self.now own }
        requires order { from ≤ to }
        requires end { to ≤ count self.now }
        ensures { makes self.now own from to result };

    /// What one has to himself, for two.
    fn part(&self, own: Self::Own) -> (Self::Own, Self::Own)
        requires ready { ready self.now own }
        ensures mine { ready self.now result.0 }
        ensures theirs { ready self.now result.1 }
        ensures parts { parts self.now own result.0 result.1 };

    /// Two shares as one, of which the second begins where the first ends.
    fn together(&self, left: Self::Made, right: Self::Made) -> Self::Made
        requires left { (own : Self.Own) × (a : ℕ) × (b : ℕ) × makes self.now own a b left }
        requires right { (own : Self.Own) × (b : ℕ) × (c : ℕ) × makes self.now own b c right }
        ensures { (own mine theirs : Self.Own) (a b c : ℕ) → parts self.now own mine theirs → makes self.now mine a b left → makes self.now theirs b c right → makes self.now own a c result };
}
