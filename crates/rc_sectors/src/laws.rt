//! What sectors are, whatever makes them.
ghost use Rattle.std.specs.Prelude.{◌≡◌, ◌<◌, ℕ, Bool, List, [], length, slice_index_or};
ghost use Rattle.rc_sectors.specs.Cuts.{AreCut};
ghost use Rattle.rc_sectors.specs.Sectors.{BeginsWith, within};
ghost use Rattle.rc_trees.specs.Trees.{Tree, value};

/// What a set is in a sector has the headers that begin with the sector's bits and are in the set.
pub fn a_sector_has_its_headers()
    ensures { (sector : List Bool) (t : Tree) (bits : ℕ → Bool) → BeginsWith sector bits → value (within sector t) bits ≡ value t bits }
{}

/// Each header is in some sector of a cut.
pub fn each_header_has_a_sector()
    ensures { (sectors : List (List Bool)) (bits : ℕ → Bool) → AreCut sectors → (i : ℕ) × (i < length sectors) × BeginsWith (slice_index_or sectors i []) bits }
{}
