//! Sets that are made in rounds.
ghost use Rattle.std.specs.Prelude.{◌≡◌, ℕ, ◌+◌, ◌<◌, IfOk, IfErr};
ghost use Rattle.rc_bdd.specs.Work.{IsCause};
ghost use Rattle.rc_spread.specs.Known.{IsAfter};
ghost use Rattle.rc_nodes.specs.Seats.{IsSeatOf, Keeps, SeatKnows, SeatView, TableView};
ghost use Rattle.rc_trees.specs.Trees.{Tree};

use rc_bdd::{SetError, Work};
use rc_nodes::{May, Nodes, Ref};

/// Sets of positions that are made in rounds, each round from the sets of the one before. Positions are numbers from 0 on.
pub trait Spread {
    /// How many positions there are.
    ghost count: { Self → ℕ };

    /// The set of a position after so many rounds.
    ghost set_after: { Self → ℕ → ℕ → Tree };

    /// What a seat has to know for the rounds, and a table has to allow.
    ghost ready: { Self → TableView → SeatView → Type 0 };

    /// How many positions there are.
    fn positions(&self) -> usize
        ensures { result ≡ count self.now };

    /// The set of a position after one round more.
    fn next_set<M: May>(
        &self,
        work: &mut Work<M>,
        nodes: &Nodes<M>,
        sets: &[Ref],
        fresh: &[bool],
        number: u32,
        q: usize,
    ) -> Result<Ref, SetError>
        requires seat { IsSeatOf nodes.now work.old }
        requires ready { ready self.now nodes.now work.old }
        requires after { IsAfter work.old sets.now fresh.now (set_after self.now) (count self.now) number }
        requires round { number < count self.now }
        requires position { q < count self.now }
        ensures seat { IsSeatOf nodes.now work.new }
        ensures keeps { Keeps work.old work.new }
        ensures made { IfOk result (λ r. SeatKnows work.new r.index (set_after self.now (number + 1) q)) }
        ensures cause { IfErr result (IsCause nodes.now work.new) };

    ghost stays_ready: { (spread : Self) (nodes : TableView) (v w : SeatView) → Keeps v w → ready spread nodes v → ready spread nodes w };
}
