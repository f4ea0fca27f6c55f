//! What sets of headers say of packets.
ghost use Rattle.std.specs.Prelude.{◌≡◌, List, Option, ℕ};
ghost use Rattle.std.specs.List.{list_any};
ghost use Rattle.rc_base.specs.Header.{IsHeader};
ghost use Rattle.rc_base.specs.declared.header.Header.{Header};
ghost use Rattle.rc_config.specs.declared.access_list.AccessList.{AccessList};
ghost use Rattle.rc_config.specs.declared.access_list.AccessListLine.{AccessListLine};
ghost use Rattle.rc_fib.specs.Entries.{IsFib};
ghost use Rattle.rc_fib.specs.Forwarding.{resolved_hops};
ghost use Rattle.rc_fib.specs.Entry.{Entry};
ghost use Rattle.rc_filter.specs.Verdict.{first_action, matches, passes};
ghost use Rattle.rc_route.specs.Hops.{same_hop};
ghost use Rattle.rc_route.specs.declared.route.Hop.{Hop};
ghost use Rattle.rc_sets.specs.AccessLists.{line_set, lines_set, passing_set};
ghost use Rattle.rc_sets.specs.IdleLines.{AreTold};
ghost use Rattle.rc_sets.specs.Regions.{hop_set};
ghost use Rattle.rc_trees.specs.Recipes.{has, tree};
ghost use Rattle.rc_trees.specs.Trees.{IsReduced};

/// The set of a line of an access list holds the headers that the line matches.
pub fn a_line_is_its_set()
    ensures { (l : AccessListLine) (h : Header) → IsHeader h → has (line_set l) h ≡ matches l h }
{}

/// The set of the lines of an access list holds the headers that they permit, and is a reduced tree.
pub fn an_access_list_is_its_set()
    ensures permits { (lines : List AccessListLine) (h : Header) → IsHeader h → has (lines_set lines) h ≡ first_action lines h }
    ensures reduced { (lines : List AccessListLine) → IsReduced (tree (lines_set lines)) }
{}

/// The set of an access group holds the headers that it lets pass, and is a reduced tree.
pub fn an_access_group_is_its_set()
    ensures passes { (access_lists : List (List ℕ × AccessList)) (group : Option (List ℕ)) (h : Header) → IsHeader h → has (passing_set access_lists group) h ≡ passes access_lists group h }
    ensures reduced { (access_lists : List (List ℕ × AccessList)) (group : Option (List ℕ)) → IsReduced (tree (passing_set access_lists group)) }
{}

/// The set of a hop holds the headers of whose destination the hop is among the hops, and is a reduced tree.
pub fn a_hop_is_its_set()
    ensures hops { (table : List Entry) (hop : Hop) (h : Header) → IsFib table → IsHeader h → has (hop_set table hop) h ≡ list_any (same_hop hop) (resolved_hops table h.dst) }
    ensures reduced { (table : List Entry) (hop : Hop) → IsFib table → IsReduced (tree (hop_set table hop)) }
{}

/// The idle lines of an access list that sets tell are those that the headers tell which lines match, each with the lines that decide
/// something of it; and no other list is.
pub fn idle_lines_are_told_by_headers()
    ensures { AreTold }
{}
