//! The table and its seats.
ghost use Rattle.std.specs.Prelude.{◌≡◌, ◌≢◌, ℕ, ◌+◌, ◌*◌, ◌<◌, ◌≤◌, ◌↔◌, IsTrue, IfOk, IfErr, IfSome, [], length, replicate, true, false};
ghost use Rattle.std.specs.Slots.{IsFull, slots_items, slots_len};
ghost use Rattle.rc_trees.specs.Trees.{Tree, node};
ghost use Rattle.rc_nodes.specs.Good.{IsLeft};
ghost use Rattle.rc_nodes.specs.Seats.{HasWord, IsCrowded, IsKnownNode, IsSeatOf, Keeps, MayMake, SawAll, SeatKnows};
ghost use Rattle.rc_nodes.specs.Views.{Claimed, Grows, Has, Looked, MayWrite, StandsAt};
ghost use Rattle.rc_nodes.specs.Words.{word_of};

use crate::may::May;
use crate::rule::{Claim, Halves, Knowledge, Look, NodeRule, Plan};
use crate::words::{Node, Ref, home, pack, unpack};
use atomic_table::{Closed, Seat as Place, Table};
use std::alloc::{AllocError, Global};
use std::marker::{Model, PhantomData};
use std::snapshot::Snapshot;

/// No room: the seat saw every slot taken by another node.
#[derive(Drop)]
pub struct Full;

/// A table of nodes, shared by callers of which each has a seat. It is made for the list of trees that a value of `M` stands for, and
/// holds no others.
pub struct Nodes<M: May> {
    table: Table<(), Knowledge, Plan<M>, NodeRule<M>, Global>,
    capacity: u32,
}

/// By a function of its own, so that what holds a table drops it by one call.
impl<M: May> Drop for Nodes<M> {
    fn drop(self) {
        let Nodes {
            table: _,
            capacity: _,
        } = self;
    }
}

impl<M: May> Model for Nodes<M> {
    ghost use Rattle.std.specs.Prelude.{◌≡◌, ◌<◌, ◌≤◌};
    ghost use Rattle.rc_nodes.specs.Seats.{TableView, table_view_code};

    ghost Value = { TableView };

    ghost coded = { table_view_code };

    ghost view = { λ n. record { table = n.table.shared.table_id; capacity = n.capacity; may = M.trees n.table.shared.key.may.value } };

    ghost invariant = { λ n. (n.capacity ≡ n.table.shared.table_id.words) × (n.capacity ≡ n.table.shared.key.capacity) × (0 < n.capacity) × (n.capacity ≤ 16777216) × (n.table.shared.table_id.slots ≡ 0) };
}

/// A caller's seat at a table: what it has seen there, which contracts see and no run keeps.
#[derive(Drop)]
pub struct Seat<M: May> {
    place: Place<(), Knowledge>,
    marker: PhantomData<M>,
}

// No value of `M` is in it.
unsafe impl<M: May> Send for Seat<M> {}

impl<M: May> Model for Seat<M> {
    ghost use Rattle.std.specs.Prelude.{◌≡◌, []};
    ghost use Rattle.rc_nodes.specs.Seats.{SeatView, seat_view_code};

    ghost Value = { SeatView };

    ghost coded = { seat_view_code };

    ghost view = { λ s. record { table = s.place.table_id; view = s.place.me.0 } };

    ghost invariant = { λ s. s.place.me.1 ≡ [] };
}

/// Slots of 0. A table with no more slots is a copy of them, so no list of zeros is made first: a compiler that sees what they are
/// writes zeros, and keeps them in no file.
static EMPTY_SLOTS: [u64; 524_288] = [0; 524_288];

/// The slots of 0.
fn empty_slots() -> &'static [u64] {
    &EMPTY_SLOTS
}

/// Whether no slot is taken.
fn are_empty(slots: &[u64]) -> bool
    ensures { IsTrue result → slots.now ≡ replicate (length slots.now) 0 }
{
    for index in 0..slots.len() {
        if slots[index] != 0 {
            return false;
        }
    }
    true
}

/// The words of a table of which no slot is taken, where it has few slots.
fn few_words(capacity: u32) -> Option<&'static [u64]>
    ensures { IfSome result (λ words. words.now ≡ replicate capacity 0) }
{
    let slots = empty_slots();
    let count = capacity as usize;
    if slots.len() < count {
        return None;
    }
    let words = &slots[..count];
    if are_empty(words) { Some(words) } else { None }
}

/// The words of a table of which no slot is taken.
fn empty_words(alloc: Global, capacity: u32) -> Result<Vec<u64>, AllocError>
    ensures { IfOk result (λ words. words.items ≡ replicate capacity 0) }
{
    vec![in alloc; 0u64; capacity as usize]
}

impl<M: May> Nodes<M> {
    /// An empty table of `capacity` slots, from 1 to 16,777,216, with its first seat. All memory is taken here: 8 bytes a slot, and for a
    /// moment twice as many where there are more than 524,288.
    pub fn new(alloc: Global, capacity: u32, may: &M) -> Result<(Nodes<M>, Seat<M>), AllocError>
        requires low { 0 < capacity }
        requires high { capacity ≤ 16777216 }
        ensures seat { IfOk result (λ p. IsSeatOf p.0 p.1) }
        ensures table { IfOk result (λ p. (p.0.capacity ≡ capacity) × (p.0.may ≡ M.trees may.now)) }
        ensures empty { IfOk result (λ p. (p.1.view.seen ≡ []) × (p.1.view.moves ≡ 0)) }
    {
        let plan = Plan {
            capacity,
            may: Snapshot::of(may),
        };
        let (table, place) = match few_words(capacity) {
            Some(words) => Table::of_words(alloc, words, &plan)?,
            None => {
                let words = empty_words(alloc, capacity)?;
                Table::of_words(alloc, words.as_slice(), &plan)?
            }
        };
        let nodes = Nodes { table, capacity };
        let seat = Seat {
            place,
            marker: PhantomData,
        };
        Ok((nodes, seat))
    }

    /// The word in a slot now.
    fn look(&self, seat: &mut Seat<M>, at: u32) -> u64
        requires seat { IsSeatOf self.now seat.old }
        requires at { at < self.now.capacity }
        ensures seat { IsSeatOf self.now seat.new }
        ensures looked { Looked at seat.old.view result seat.new.view }
    {
        self.table.shared.load::<Look>(&mut seat.place, at as usize)
    }

    /// Writes a word into a slot where 0 stands, and gives what stood there.
    fn claim(&self, seat: &mut Seat<M>, at: u32, word: u64) -> u64
        requires seat { IsSeatOf self.now seat.old }
        requires at { at < self.now.capacity }
        requires may { MayWrite seat.old.view at word }
        ensures seat { IsSeatOf self.now seat.new }
        ensures claimed { Claimed at word seat.old.view result seat.new.view }
    {
        self.table
            .shared
            .compare_exchange::<Claim>(&mut seat.place, at as usize, 0, word)
    }

    /// One slot of the probe for a word: whether the word stands there now. A slot that another caller took in between decides the step
    /// like one that was taken before.
    fn try_slot(&self, seat: &mut Seat<M>, at: u32, word: u64) -> bool
        requires seat { IsSeatOf self.now seat.old }
        requires at { at < self.now.capacity }
        requires may { MayWrite seat.old.view at word }
        ensures seat { IsSeatOf self.now seat.new }
        ensures grows { Grows seat.old.view seat.new.view }
        ensures there { result ≡ true → Has seat.new.view.seen at word }
        ensures another { result ≡ false → (x : ℕ) × Has seat.new.view.seen at x × (x ≢ word) }
        ensures moves { seat.new.view.moves ≤ seat.old.view.moves + 2 }
    {
        let found = self.look(seat, at);
        if found != 0 {
            return found == word;
        }
        let found = self.claim(seat, at, word);
        found == 0 || found == word
    }

    /// The reference of a node, which the seat knows from now on as the tree of a test of `var` above the two trees: it saw the node's word
    /// in that slot. `Full` comes only where the seat saw each slot taken by another node: then it knows as many other trees that may be
    /// made as there are slots.
    pub fn make(&self, seat: &mut Seat<M>, var: u8, lo: Ref, hi: Ref) -> Result<Ref, Full>
        requires seat { IsSeatOf self.now seat.old }
        requires may { MayMake self.now seat.old var lo.index hi.index }
        ensures seat { IsSeatOf self.now seat.new }
        ensures keeps { Keeps seat.old seat.new }
        ensures made { IfOk result (λ r. (low high : Tree) → SeatKnows seat.old lo.index low → SeatKnows seat.old hi.index high → SeatKnows seat.new r.index (node var low high)) }
        ensures word { IfOk result (λ r. HasWord seat.new r.index (word_of var lo.index hi.index)) }
        ensures saw { IfErr result (λ _. SawAll self.now seat.new (word_of var lo.index hi.index)) }
        ensures full { IfErr result (λ _. (low high : Tree) → SeatKnows seat.old lo.index low → SeatKnows seat.old hi.index high → IsCrowded self.now seat.new (node var low high)) }
        ensures moves { seat.new.view.moves ≤ seat.old.view.moves + 2 * self.now.capacity }
    {
        let capacity = self.capacity;
        let word = pack(Node { var, lo, hi });
        let mut at = home(word, capacity);
        for step in 0..capacity {
            if self.try_slot(seat, at, word) {
                return Ok(Ref { index: at + 2 });
            }
            at = if at + 1 == capacity { 0 } else { at + 1 };
        }
        Err(Full)
    }

    /// The node of a known reference that is no constant. The seat then knows both sides.
    pub fn open(&self, seat: &mut Seat<M>, r: Ref) -> Node
        requires seat { IsSeatOf self.now seat.old }
        requires known { IsKnownNode seat.old r.index }
        ensures seat { IsSeatOf self.now seat.new }
        ensures keeps { Keeps seat.old seat.new }
        ensures node { (var : ℕ) (low high : Tree) → SeatKnows seat.old r.index (node var low high) → (result.var ≡ var) × SeatKnows seat.new result.lo.index low × SeatKnows seat.new result.hi.index high }
        ensures moves { seat.new.view.moves ≡ seat.old.view.moves + 1 }
    {
        let word = self.look(seat, r.index - 2);
        unpack(word)
    }

    /// A seat for another caller, which knows the same.
    pub fn split(&self, seat: &mut Seat<M>) -> Seat<M>
        requires { IsSeatOf self.now seat.old }
        ensures seats { IsSeatOf self.now seat.new × IsSeatOf self.now result }
        ensures keeps { Keeps seat.old seat.new }
        ensures same { Keeps seat.old result × Keeps result seat.old }
        ensures moves { (seat.new.view.moves ≡ seat.old.view.moves + 1) × (result.view.moves ≡ seat.old.view.moves + 1) }
    {
        let place = self.table.shared.split_seat::<Halves>(&mut seat.place);
        Seat {
            place,
            marker: PhantomData,
        }
    }

    /// The seat then knows what both knew; the other one is spent.
    pub fn join(&self, seat: &mut Seat<M>, other: Seat<M>)
        requires seat { IsSeatOf self.now seat.old }
        requires other { IsSeatOf self.now other }
        ensures seat { IsSeatOf self.now seat.new }
        ensures keeps { Keeps seat.old seat.new }
        ensures gains { Keeps other seat.new }
        ensures moves { seat.new.view.moves ≡ seat.old.view.moves + 1 }
    {
        let Seat { place, marker: _ } = other;
        let table = &self.table.shared;
        table.join_seat::<Halves>(&mut seat.place, place);
        // What holds of both together is told by a step on a word alone.
        table.load::<Look>(&mut seat.place, 0);
    }

    /// Whether two references that the seat knows are one tree. It reads no word.
    pub fn is_same(&self, seat: &Seat<M>, left: Ref, right: Ref) -> bool
        requires { IsSeatOf self.now seat.now }
        ensures { (s t : Tree) → SeatKnows seat.now left.index s → SeatKnows seat.now right.index t → (IsTrue result ↔ (s ≡ t)) }
    {
        let _ = seat;
        left.index == right.index
    }

    /// The words, once no caller shares the table any more. Whatever the callers did at once, and in whatever order their steps came, they
    /// left it in a good state: no node stands in two slots, and what a seat has seen stands there still.
    pub fn close(self, alloc: Global, seat: Seat<M>) -> Result<Vec<u64>, AllocError>
        requires { IsSeatOf self seat }
        ensures good { IfOk result (λ words. IsLeft self seat words.items) }
        ensures once { IfOk result (λ words. (k j w : ℕ) → StandsAt words.items k w → StandsAt words.items j w → k ≡ j) }
        ensures seen { IfOk result (λ words. (k w : ℕ) → Has seat.view.seen k w → StandsAt words.items k w) }
    {
        let Nodes { table, capacity } = self;
        let Seat { place, marker: _ } = seat;
        let closed = table.close_with(place);
        let words = words_of(&closed, alloc, capacity);
        closed.free();
        words
    }
}

/// The words of a closed table.
fn words_of(
    closed: &Closed<(), Global>,
    alloc: Global,
    capacity: u32,
) -> Result<Vec<u64>, AllocError>
    requires full { IsFull closed.now.words }
    requires count { slots_len closed.now.words ≡ capacity }
    ensures { IfOk result (λ words. words.items ≡ slots_items closed.now.words) }
{
    let mut words = Vec::with_capacity(alloc, capacity as usize)?;
    for slot in 0..capacity {
        words.push(closed.word(slot as usize))?;
    }
    Ok(words)
}
