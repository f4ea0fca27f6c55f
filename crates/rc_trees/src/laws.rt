//! What decision trees say of headers (Bryant 1986).
ghost use Rattle.std.specs.Prelude.{◌≡◌, ◌↔◌, ◌<◌, ◌≤◌, Bool, not, ◌&&◌, ◌||◌};
ghost use Rattle.rc_base.specs.Header.{IsHeader, bit_count};
ghost use Rattle.rc_base.specs.Prefix.{Cidr, contains};
ghost use Rattle.rc_base.specs.declared.header.Header.{Header};
ghost use Rattle.rc_trees.specs.Combine.{joined, combined, and, or, minus};
ghost use Rattle.rc_trees.specs.Fields.{chain};
ghost use Rattle.rc_trees.specs.Parts.{parts, subtrees};
ghost use Rattle.rc_trees.specs.Recipes.{has};
ghost use Rattle.rc_trees.specs.Trees.{Tree, IsAmong, IsReduced, first_of, high_side, holds, low_side};

/// Each set of headers has one reduced tree: two that hold the same headers are equal.
pub fn one_tree_for_each_set()
    ensures { (s t : Tree) → IsReduced s → IsReduced t → ((h : Header) → IsHeader h → holds s h ≡ holds t h) → s ≡ t }
{}

/// The operations hold the headers of both trees, of either, of the first alone.
pub fn operations_combine()
    ensures and { (s t : Tree) (h : Header) → holds (and s t) h ≡ (holds s h && holds t h) }
    ensures or { (s t : Tree) (h : Header) → holds (or s t) h ≡ (holds s h || holds t h) }
    ensures minus { (s t : Tree) (h : Header) → holds (minus s t) h ≡ (holds s h && not (holds t h)) }
{}

/// Two trees that aren't both constants are combined side by side, at the least bit that one of them tests on top.
pub fn operations_go_by_sides()
    ensures { (table : Bool → Bool → Bool) (s t : Tree) → first_of s t < bit_count → combined table s t ≡ joined (first_of s t) (combined table (low_side (first_of s t) s) (low_side (first_of s t) t)) (combined table (high_side (first_of s t) s) (high_side (first_of s t) t)) }
{}

/// Of reduced trees the operations make reduced trees.
pub fn results_are_reduced()
    ensures { (s t : Tree) → IsReduced s → IsReduced t → IsReduced (and s t) × IsReduced (or s t) × IsReduced (minus s t) }
{}

/// The results on all pairs of sides that an operation comes to are the trees that stand in its result.
pub fn parts_are_subtrees()
    ensures { (table : Bool → Bool → Bool) (s t x : Tree) → IsAmong (subtrees (combined table s t)) x ↔ IsAmong (parts table s t) x }
{}

/// The chain of a prefix is reduced, and holds the headers whose destination the prefix holds.
pub fn a_chain_holds_its_prefix()
    ensures { (p : Cidr) (h : Header) → p.len ≤ 32 → IsHeader h → has (chain p) h ≡ contains p h.dst }
{}
