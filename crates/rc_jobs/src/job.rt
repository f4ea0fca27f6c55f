//! What is shared.
ghost use Rattle.std.specs.Prelude.{◌≡◌, ℕ, ◌≤◌, IfOk, IfErr};
ghost use Rattle.rc_bdd.specs.Work.{IsCause};
ghost use Rattle.rc_nodes.specs.Seats.{IsSeatOf, Keeps, SeatView, TableView};

use rc_bdd::{SetError, Work};
use rc_nodes::{May, Nodes};
use std::alloc::{AllocError, Global};

/// Sets to be made for items in a row, each share of which can be made by itself.
pub trait Job: Sync {
    /// What is made of a share.
    type Made: Drop + Send;

    /// How many items there are.
    ghost count: { Self → ℕ };

    /// What a seat has to know for it, and a table has to allow.
    ghost ready: { Self → TableView → SeatView → Type 0 };

    /// What a seat knows of what was made of the items from one number up to another.
    ghost knows: { Self → SeatView → ℕ → ℕ → Self.Made → Type 0 };

    /// How many items there are.
    fn items(&self) -> usize
        ensures { result ≡ count self.now };

    /// Makes the share of the items from `from` up to `to`.
    fn share<M: May>(
        &self,
        alloc: Global,
        work: &mut Work<M>,
        nodes: &Nodes<M>,
        from: usize,
        to: usize,
    ) -> Result<Self::Made, SetError>
        requires seat { IsSeatOf nodes.now work.old }
        requires ready { ready self.now nodes.now work.old }
        requires order { from ≤ to }
        requires end { to ≤ count self.now }
        ensures seat { IsSeatOf nodes.now work.new }
        ensures keeps { Keeps work.old work.new }
        ensures made { IfOk result (knows self.now work.new from to) }
        ensures cause { IfErr result (IsCause nodes.now work.new) };

    /// Two shares as one, of which the second begins where the first ends. It errs only where memory runs out.
    fn together(&self, left: Self::Made, right: Self::Made) -> Result<Self::Made, AllocError>
        ensures { IfOk result (λ whole. (seat : SeatView) (a b c : ℕ) → knows self.now seat a b left → knows self.now seat b c right → knows self.now seat a c whole) };

    ghost stays_ready: { (job : Self) (nodes : TableView) (v w : SeatView) → Keeps v w → ready job nodes v → ready job nodes w };

    ghost stays_known: { (job : Self) (v w : SeatView) (a b : ℕ) (share : Self.Made) → Keeps v w → knows job v a b share → knows job w a b share };
}
