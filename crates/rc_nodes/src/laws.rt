//! What follows from the rule, and from what a seat knows.
ghost use Rattle.atomic_table.specs.Table.{opening};
ghost use Rattle.std.specs.Prelude.{◌≡◌, ℕ, ◌<◌, List, [], slice_index};
ghost use Rattle.std.specs.Set.{distinct_count};
ghost use Rattle.rc_nodes.specs.Good.{Good};
ghost use Rattle.rc_nodes.specs.Seats.{IsCrowded, IsSeatOf, SeatKnows, SeatView, TableView};
ghost use Rattle.rc_nodes.specs.Views.{fresh};
ghost use Rattle.rc_trees.specs.Trees.{Tree, IsReduced, same_tree};

/// The words of a new table are all 0: there its one seat has seen none, and the rule has no word that no seat saw.
pub fn a_new_table_is_empty()
    ensures { (capacity : ℕ) (may : List Tree) (words : List ℕ) → Good capacity may (opening words [] (fresh capacity may)) → (slot : ℕ) → slice_index words slot ≡ 0 }
{}

/// A table is full only where more different trees may be made than it has slots.
pub fn a_full_table_is_too_small()
    ensures { (nodes : TableView) (seat : SeatView) (wanted : Tree) → IsCrowded nodes seat wanted → nodes.capacity < distinct_count same_tree nodes.may }
{}

/// What a seat knows are reduced trees.
pub fn known_trees_are_reduced()
    ensures { (nodes : TableView) (seat : SeatView) (r : ℕ) (t : Tree) → IsSeatOf nodes seat → SeatKnows seat r t → IsReduced t }
{}

/// Two references that a seat knows as one tree are equal, so callers whose seats join agree; and a reference is known as one tree alone.
pub fn equal_trees_have_one_reference()
    ensures references { (nodes : TableView) (seat : SeatView) (r q : ℕ) (t : Tree) → IsSeatOf nodes seat → SeatKnows seat r t → SeatKnows seat q t → r ≡ q }
    ensures trees { (nodes : TableView) (seat : SeatView) (r : ℕ) (s t : Tree) → IsSeatOf nodes seat → SeatKnows seat r s → SeatKnows seat r t → s ≡ t }
{}
