//! What the cubes of a tree say of headers.
ghost use Rattle.std.specs.Prelude.{◌≡◌, ◌++◌, ◌∷◌, List, Option, Some, true, false};
ghost use Rattle.std.specs.List.{AllByRecursion};
ghost use Rattle.rc_base.specs.Header.{bit};
ghost use Rattle.rc_base.specs.declared.header.Header.{Header};
ghost use Rattle.rc_cubes.specs.Cubes.{IsInNone, IsInOne, IsTight, cubes, left};
ghost use Rattle.rc_cubes.specs.declared.cube.Cube.{Cube};
ghost use Rattle.rc_trees.specs.Trees.{Tree, IsReduced, holds};

/// A header is in exactly one cube of a reduced tree that holds it, and in none of one that doesn't.
pub fn cubes_part_the_set()
    ensures one { (t : Tree) (h : Header) → IsReduced t → holds t h ≡ true → IsInOne (cubes t) (bit h) }
    ensures none { (t : Tree) (h : Header) → IsReduced t → holds t h ≡ false → IsInNone (cubes t) (bit h) }
{}

/// The value of each cube of a tree has 0 in each bit that the cube doesn't test.
pub fn free_bits_are_zero()
    ensures { (t : Tree) → IsReduced t → AllByRecursion IsTight (cubes t) }
{}

/// What is left behind a cube of a tree is what stands behind it in the list of the tree's cubes; and behind any other cube an end of that
/// list is left.
pub fn what_is_left_stands_behind()
    ensures behind { (t : Tree) (front back : List Cube) (c : Cube) → IsReduced t → cubes t ≡ front ++ c ∷ back → left (Some c) t ≡ back }
    ensures ending { (t : Tree) (last : Option Cube) → (front : List Cube) × (cubes t ≡ front ++ left last t) }
{}
