//! A seat with a memo, and the operations on sets.
ghost use Rattle.std.specs.Prelude.{◌≡◌, ℕ, ◌≤◌, ◌&&◌, not, IfOk, IfErr, MatchOption};
ghost use Rattle.rc_bdd.specs.Work.{AreSides, IsCause, IsFrom, IsRight, IsWantOfRoom, MayBranch, MayCombine, side, truth};
ghost use Rattle.rc_nodes.specs.Seats.{IsFull, IsKnown, IsSeatOf, Keeps, SeatKnows, SeatView};
ghost use Rattle.rc_nodes.specs.Views.{Sound};
ghost use Rattle.rc_trees.specs.Combine.{joined, combined, and, or, minus};
ghost use Rattle.rc_trees.specs.Trees.{Tree, never, top, high_side, low_side, same_tree};

use crate::memo::{Noted, PLACES, memo_of, place_of, result_of};
use crate::operation::Operation;
use rc_base::HEADER_BITS;
use rc_nodes::{Full, May, NEVER, Node, Nodes, Ref, Seat};
use std::alloc::{AllocError, Global};
use std::marker::Model;

/// Want of room in the table, or of memory.
#[derive(Drop)]
pub enum SetError {
    Full,
    Memory,
}

/// Two sets at the least bit that one of them tests: their headers where it is 0, and where it is 1.
#[derive(Clone, Copy)]
struct Sides {
    var: u8,
    left_low: Ref,
    left_high: Ref,
    right_low: Ref,
    right_high: Ref,
}

/// A seat with a memo of operations that were done. Contracts see it as its seat.
#[derive(Drop)]
pub struct Work<M: May> {
    seat: Seat<M>,
    memo: Vec<Noted>,
}

impl<M: May> Model for Work<M> {
    ghost use Rattle.std.specs.List.{All};
    ghost use Rattle.rc_bdd.specs.Work.{IsRight};
    ghost use Rattle.rc_nodes.specs.Seats.{SeatView, seat_view_code};

    ghost Value = { SeatView };

    ghost coded = { seat_view_code };

    ghost view = { λ w. w.seat };

    ghost invariant = { λ w. All (IsRight w.seat) w.memo.items };
}

impl<M: May> Work<M> {
    /// A seat with an empty memo. It takes no memory.
    pub fn new(alloc: Global, seat: Seat<M>) -> Work<M>
        ensures { result ≡ seat }
    {
        Work {
            seat,
            memo: Vec::new(alloc),
        }
    }

    /// The seat.
    pub fn into_seat(self) -> Seat<M>
        ensures { result ≡ self }
    {
        let Work { seat, memo: _ } = self;
        seat
    }

    /// Goes on with another seat that knows as much or more, and gives the seat until now back. The memo stays.
    pub fn replace_seat(&mut self, seat: Seat<M>) -> Seat<M>
        requires { Keeps self.old seat }
        ensures seat { self.new ≡ seat }
        ensures before { result ≡ self.old }
    {
        std::mem::replace(&mut self.seat, seat)
    }

    /// The headers of both sets.
    #[tactic(auto, unfolding(rc_trees::specs::Combine::and))]
    pub fn and(&mut self, nodes: &Nodes<M>, left: Ref, right: Ref) -> Result<Ref, SetError>
        requires seat { IsSeatOf nodes.now self.old }
        requires may { MayCombine nodes.now self.old and left.index right.index }
        ensures seat { IsSeatOf nodes.now self.new }
        ensures keeps { Keeps self.old self.new }
        ensures and { IfOk result (λ r. (s t : Tree) → SeatKnows self.old left.index s → SeatKnows self.old right.index t → SeatKnows self.new r.index (and s t)) }
        ensures cause { IfErr result (IsCause nodes.now self.new) }
    {
        self.operate(nodes, Operation::And, left, right)
    }

    /// The headers of one set or the other.
    #[tactic(auto, unfolding(rc_trees::specs::Combine::or))]
    pub fn or(&mut self, nodes: &Nodes<M>, left: Ref, right: Ref) -> Result<Ref, SetError>
        requires seat { IsSeatOf nodes.now self.old }
        requires may { MayCombine nodes.now self.old or left.index right.index }
        ensures seat { IsSeatOf nodes.now self.new }
        ensures keeps { Keeps self.old self.new }
        ensures or { IfOk result (λ r. (s t : Tree) → SeatKnows self.old left.index s → SeatKnows self.old right.index t → SeatKnows self.new r.index (or s t)) }
        ensures cause { IfErr result (IsCause nodes.now self.new) }
    {
        self.operate(nodes, Operation::Or, left, right)
    }

    /// The headers of the left set that aren't in the right one.
    #[tactic(auto, unfolding(rc_trees::specs::Combine::minus))]
    pub fn minus(&mut self, nodes: &Nodes<M>, left: Ref, right: Ref) -> Result<Ref, SetError>
        requires seat { IsSeatOf nodes.now self.old }
        requires may { MayCombine nodes.now self.old minus left.index right.index }
        ensures seat { IsSeatOf nodes.now self.new }
        ensures keeps { Keeps self.old self.new }
        ensures minus { IfOk result (λ r. (s t : Tree) → SeatKnows self.old left.index s → SeatKnows self.old right.index t → SeatKnows self.new r.index (minus s t)) }
        ensures cause { IfErr result (IsCause nodes.now self.new) }
    {
        self.operate(nodes, Operation::Minus, left, right)
    }

    /// The set of a test of a bit: `low` holds its headers where the bit is 0, `high` those where it is 1. Where both are one set it is
    /// that set, and no node is made.
    pub fn branch(&mut self, nodes: &Nodes<M>, var: u8, low: Ref, high: Ref) -> Result<Ref, Full>
        requires seat { IsSeatOf nodes.now self.old }
        requires may { MayBranch nodes.now self.old var low.index high.index }
        ensures seat { IsSeatOf nodes.now self.new }
        ensures keeps { Keeps self.old self.new }
        ensures joined { IfOk result (λ r. (l h : Tree) → SeatKnows self.old low.index l → SeatKnows self.old high.index h → SeatKnows self.new r.index (joined var l h)) }
        ensures full { IfErr result (λ _. IsFull nodes.now self.new) }
    {
        if low == high {
            return Ok(low);
        }
        nodes.make(&mut self.seat, var, low, high)
    }

    /// The side of a set at a bit, before which it tests none: its headers where that bit is 1, or where it is 0.
    pub fn side(&mut self, nodes: &Nodes<M>, set: Ref, bit: u8, high: bool) -> Ref
        requires seat { IsSeatOf nodes.now self.old }
        requires known { IsKnown self.old set.index }
        requires from { IsFrom self.old bit set.index }
        ensures seat { IsSeatOf nodes.now self.new }
        ensures keeps { Keeps self.old self.new }
        ensures side { (t : Tree) → SeatKnows self.old set.index t → SeatKnows self.new result.index (side high bit t) }
    {
        let node = self.look(nodes, set);
        let (of_low, of_high) = sides_at(bit, set, node);
        if high { of_high } else { of_low }
    }

    /// Whether some header is in both sets. It makes no node.
    #[tactic(auto, unfolding(rc_trees::specs::Combine::and))]
    pub fn meets(&mut self, nodes: &Nodes<M>, left: Ref, right: Ref) -> bool
        requires seat { IsSeatOf nodes.now self.old }
        requires known { IsKnown self.old left.index × IsKnown self.old right.index }
        ensures seat { IsSeatOf nodes.now self.new }
        ensures keeps { Keeps self.old self.new }
        ensures meets { (s t : Tree) → SeatKnows self.old left.index s → SeatKnows self.old right.index t → result ≡ not (same_tree (and s t) never) }
    {
        self.meet(nodes, 0, left, right)
    }

    /// Whether two sets, which test no bit below `from`, have a header in common: they do where their sides at one bit do. The memo knows
    /// it of two that were combined, and is told of two that have none.
    fn meet(&mut self, nodes: &Nodes<M>, from: u8, left: Ref, right: Ref) -> bool
        requires seat { IsSeatOf nodes.now self.old }
        requires known { IsKnown self.old left.index × IsKnown self.old right.index }
        requires from { IsFrom self.old from left.index × IsFrom self.old from right.index }
        ensures seat { IsSeatOf nodes.now self.new }
        ensures keeps { Keeps self.old self.new }
        ensures meets { (s t : Tree) → SeatKnows self.old left.index s → SeatKnows self.old right.index t → result ≡ not (same_tree (combined ◌&&◌ s t) never) }
    {
        if let Some(known) = Operation::And.at_once(left, right) {
            return known.index != 0;
        }
        let place = place_of(Operation::And, left, right);
        if let Some(known) = self.recall(place, Operation::And, left, right) {
            return known.index != 0;
        }
        let sides = self.sides(nodes, left, right);
        let next = sides.var + 1;
        if self.meet(nodes, next, sides.left_low, sides.right_low) {
            return true;
        }
        if self.meet(nodes, next, sides.left_high, sides.right_high) {
            return true;
        }
        self.note(
            place,
            Noted {
                operation: Operation::And,
                left,
                right,
                result: NEVER,
            },
        );
        false
    }

    fn operate(
        &mut self,
        nodes: &Nodes<M>,
        operation: Operation,
        left: Ref,
        right: Ref,
    ) -> Result<Ref, SetError>
        requires seat { IsSeatOf nodes.now self.old }
        requires may { MayCombine nodes.now self.old (combined (truth operation)) left.index right.index }
        ensures seat { IsSeatOf nodes.now self.new }
        ensures keeps { Keeps self.old self.new }
        ensures combined { IfOk result (λ r. (s t : Tree) → SeatKnows self.old left.index s → SeatKnows self.old right.index t → SeatKnows self.new r.index (combined (truth operation) s t)) }
        ensures cause { IfErr result (IsCause nodes.now self.new) }
    {
        if self.prepare().is_err() {
            return Err(SetError::Memory);
        }
        self.combine_all(nodes, operation, left, right)
    }

    /// Two sets combined, where the memo is made: it then fails for want of room in the table alone.
    fn combine_all(
        &mut self,
        nodes: &Nodes<M>,
        operation: Operation,
        left: Ref,
        right: Ref,
    ) -> Result<Ref, SetError>
        requires seat { IsSeatOf nodes.now self.old }
        requires may { MayCombine nodes.now self.old (combined (truth operation)) left.index right.index }
        ensures seat { IsSeatOf nodes.now self.new }
        ensures keeps { Keeps self.old self.new }
        ensures combined { IfOk result (λ r. (s t : Tree) → SeatKnows self.old left.index s → SeatKnows self.old right.index t → SeatKnows self.new r.index (combined (truth operation) s t)) }
        ensures room { IfErr result (IsWantOfRoom nodes.now self.new) }
    {
        match self.combine(nodes, operation, 0, left, right) {
            Ok(set) => Ok(set),
            Err(_) => Err(SetError::Full),
        }
    }

    /// Makes the memo, where it isn't made yet.
    fn prepare(&mut self) -> Result<(), AllocError>
        ensures { self.new ≡ self.old }
    {
        if self.memo.is_empty() {
            self.memo = memo_of(*self.memo.allocator(), PLACES)?;
        }
        Ok(())
    }

    /// Two sets combined, which test no bit below `from`. Half of all results are told at once: that is part of each step, and no call.
    #[inline(always)]
    #[cycle(combine)]
    fn combine(
        &mut self,
        nodes: &Nodes<M>,
        operation: Operation,
        from: u8,
        left: Ref,
        right: Ref,
    ) -> Result<Ref, Full>
        requires seat { IsSeatOf nodes.now self.old }
        requires may { MayCombine nodes.now self.old (combined (truth operation)) left.index right.index }
        requires from { IsFrom self.old from left.index × IsFrom self.old from right.index }
        ensures seat { IsSeatOf nodes.now self.new }
        ensures keeps { Keeps self.old self.new }
        ensures combined { IfOk result (λ r. (s t : Tree) → SeatKnows self.old left.index s → SeatKnows self.old right.index t → SeatKnows self.new r.index (combined (truth operation) s t)) }
        ensures full { IfErr result (λ _. IsFull nodes.now self.new) }
    {
        if let Some(known) = operation.at_once(left, right) {
            return Ok(known);
        }
        self.combine_sides(nodes, operation, from, left, right)
    }

    /// The same where the result isn't told at once: what both are at the least bit that one of them tests is combined, and joined.
    #[inline(never)]
    #[cycle(combine)]
    fn combine_sides(
        &mut self,
        nodes: &Nodes<M>,
        operation: Operation,
        from: u8,
        left: Ref,
        right: Ref,
    ) -> Result<Ref, Full>
        requires two { 2 ≤ right.index }
        requires seat { IsSeatOf nodes.now self.old }
        requires may { MayCombine nodes.now self.old (combined (truth operation)) left.index right.index }
        requires from { IsFrom self.old from left.index × IsFrom self.old from right.index }
        ensures seat { IsSeatOf nodes.now self.new }
        ensures keeps { Keeps self.old self.new }
        ensures combined { IfOk result (λ r. (s t : Tree) → SeatKnows self.old left.index s → SeatKnows self.old right.index t → SeatKnows self.new r.index (combined (truth operation) s t)) }
        ensures full { IfErr result (λ _. IsFull nodes.now self.new) }
    {
        let place = place_of(operation, left, right);
        if let Some(known) = self.recall(place, operation, left, right) {
            return Ok(known);
        }
        let sides = self.sides(nodes, left, right);
        let next = sides.var + 1;
        let low = self.combine(nodes, operation, next, sides.left_low, sides.right_low)?;
        let high = self.combine(nodes, operation, next, sides.left_high, sides.right_high)?;
        let result = self.branch(nodes, sides.var, low, high)?;
        self.note(
            place,
            Noted {
                operation,
                left,
                right,
                result,
            },
        );
        Ok(result)
    }

    /// Two sets at the least bit that one of them tests.
    fn sides(&mut self, nodes: &Nodes<M>, left: Ref, right: Ref) -> Sides
        requires seat { IsSeatOf nodes.now self.old }
        requires known { IsKnown self.old left.index × IsKnown self.old right.index }
        ensures seat { IsSeatOf nodes.now self.new }
        ensures keeps { Keeps self.old self.new }
        ensures sides { (s t : Tree) → SeatKnows self.old left.index s → SeatKnows self.old right.index t → AreSides self.new s t result }
    {
        let of_left = self.look(nodes, left);
        let of_right = self.look(nodes, right);
        let var = of_left.var.min(of_right.var);
        let (left_low, left_high) = sides_at(var, left, of_left);
        let (right_low, right_high) = sides_at(var, right, of_right);
        Sides {
            var,
            left_low,
            left_high,
            right_low,
            right_high,
        }
    }

    /// The bit that a set tests, and its sides; a constant is its own sides.
    fn look(&mut self, nodes: &Nodes<M>, r: Ref) -> Node
        requires seat { IsSeatOf nodes.now self.old }
        requires known { IsKnown self.old r.index }
        ensures seat { IsSeatOf nodes.now self.new }
        ensures keeps { Keeps self.old self.new }
        ensures looked { (t : Tree) → SeatKnows self.old r.index t → (result.var ≡ top t) × SeatKnows self.new result.lo.index (low_side (top t) t) × SeatKnows self.new result.hi.index (high_side (top t) t) }
    {
        if r.index < 2 {
            return Node {
                var: HEADER_BITS,
                lo: r,
                hi: r,
            };
        }
        nodes.open(&mut self.seat, r)
    }

    /// The result of an operation, where it is noted at this place.
    fn recall(&self, place: usize, operation: Operation, left: Ref, right: Ref) -> Option<Ref>
        requires { Sound self.now.view }
        ensures { MatchOption result Unit (λ r. (s t : Tree) → SeatKnows self.now left.index s → SeatKnows self.now right.index t → SeatKnows self.now r.index (combined (truth operation) s t)) }
    {
        if place < self.memo.len() {
            result_of(self.memo[place], operation, left, right)
        } else {
            None
        }
    }

    /// Notes an operation, over what was noted at this place.
    fn note(&mut self, place: usize, noted: Noted)
        requires { IsRight self.old noted }
        ensures { self.new ≡ self.old }
    {
        if place < self.memo.len() {
            self.memo[place] = noted;
        }
    }
}

/// The sides of a set at a bit that it tests on top, or that stands before it.
fn sides_at(var: u8, r: Ref, node: Node) -> (Ref, Ref)
    ensures { (seat : SeatView) (t : Tree) → var ≤ top t → node.var ≡ top t → SeatKnows seat r.index t → SeatKnows seat node.lo.index (low_side (top t) t) → SeatKnows seat node.hi.index (high_side (top t) t) → SeatKnows seat result.0.index (low_side var t) × SeatKnows seat result.1.index (high_side var t) }
{
    if node.var == var {
        (node.lo, node.hi)
    } else {
        (r, r)
    }
}
