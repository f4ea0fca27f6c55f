//! What is known of the sets of headers, whatever makes them.
ghost use Rattle.std.specs.Prelude.{◌≡◌, ◌↔◌, ℕ, true};
ghost use Rattle.rc_base.specs.Header.{IsHeader};
ghost use Rattle.rc_base.specs.declared.header.Header.{Header};
ghost use Rattle.rc_base.specs.declared.position.Pos.{Pos};
ghost use Rattle.rc_config.specs.Lawful.{IsPosition};
ghost use Rattle.rc_router_sets.specs.Planes.{IsPlane};
ghost use Rattle.rc_reach.specs.Asked.{IsAskedSet};
ghost use Rattle.rc_moves.specs.Walks.{HasChain, IsLooping};
ghost use Rattle.rc_reach.specs.Loops.{going_on, looping};
ghost use Rattle.rc_reach.specs.declared.asked.Asked.{Asked};
ghost use Rattle.rc_trees.specs.Recipes.{has};
ghost use Rattle.rc_trees.specs.Trees.{Tree};
ghost use Rattle.rc_moves.specs.Moves.{DataPlane};

/// One reduced tree holds exactly the headers that a question is about: the walks alone say which.
pub fn one_set_for_each_question()
    ensures { (plane : DataPlane) (asked : Asked) (these those : Tree) → IsAskedSet plane asked these → IsAskedSet plane asked those → these ≡ those }
{}

/// After so many rounds a set holds exactly the headers with so many moves one after another.
pub fn rounds_are_chains()
    ensures { (plane : DataPlane) (h : Header) (q : Pos) (k : ℕ) → IsPlane plane → IsHeader h → (has (going_on plane k q) h ≡ true) ↔ HasChain plane h q k }
{}

/// The set of what loops holds exactly the headers of which some walk comes back to one of its own positions.
pub fn a_result_is_what_loops()
    ensures { (plane : DataPlane) (h : Header) (q : Pos) → IsPlane plane → IsHeader h → IsPosition plane.network q → (has (looping plane q) h ≡ true) ↔ IsLooping plane h q }
{}
