//! What the sets of a position say of a packet.
ghost use Rattle.std.specs.Prelude.{◌≡◌, ◌↔◌, ℕ, true, Contains};
ghost use Rattle.rc_base.specs.Header.{IsHeader};
ghost use Rattle.rc_base.specs.declared.ending.Ends.{Ends};
ghost use Rattle.rc_base.specs.declared.ending.Kind.{Kind};
ghost use Rattle.rc_base.specs.declared.header.Header.{Header};
ghost use Rattle.rc_base.specs.declared.position.Pos.{Pos};
ghost use Rattle.rc_config.specs.Lawful.{IsPosition};
ghost use Rattle.rc_router_sets.specs.Edges.{edge};
ghost use Rattle.rc_router_sets.specs.Endings.{end};
ghost use Rattle.rc_router_sets.specs.Planes.{IsPlane};
ghost use Rattle.rc_router_sets.specs.Query.{IsBrought, IsReaching, reached, reaching};
ghost use Rattle.rc_trees.specs.Recipes.{has, tree};
ghost use Rattle.rc_trees.specs.Trees.{IsReduced};
ghost use Rattle.rc_moves.specs.Moves.{DataPlane, moves};
ghost use Rattle.rc_moves.specs.declared.walk.Move.TheVariants.{Next, End};

/// The edge from one position to another holds exactly the headers that have the other among their moves at the one.
pub fn an_edge_is_a_move()
    ensures { (plane : DataPlane) (h : Header) (q t : Pos) → IsPlane plane → IsHeader h → (has (edge plane q t) h ≡ true) ↔ Contains (moves plane h q) (Next t) }
{}

/// The set of an ending at a position holds exactly the headers that have the ending among their moves there.
pub fn an_ending_is_a_move()
    ensures { (plane : DataPlane) (h : Header) (q : Pos) (k : Kind) → IsPlane plane → IsHeader h → (has (end plane q k) h ≡ true) ↔ Contains (moves plane h q) (End k) }
{}

/// After so many rounds a position has exactly the headers that a walk of at most as many steps brings there from the place.
pub fn rounds_are_steps()
    ensures { (plane : DataPlane) (h : Header) (place q : Pos) (k : ℕ) → IsPlane plane → IsHeader h → IsPosition plane.network place → (has (reached plane place k q) h ≡ true) ↔ IsBrought plane h place k q }
{}

/// The result of a query holds exactly the headers of which a walk from the place may end as asked.
pub fn a_result_is_what_reaches()
    ensures { (plane : DataPlane) (h : Header) (place : Pos) (ends : Ends) → IsPlane plane → IsHeader h → IsPosition plane.network place → (has (reaching plane place ends) h ≡ true) ↔ IsReaching plane h place ends }
{}

/// The result of a query is a reduced tree.
pub fn a_result_is_reduced()
    ensures { (plane : DataPlane) (place : Pos) (ends : Ends) → IsPlane plane → IsReduced (tree (reaching plane place ends)) }
{}
