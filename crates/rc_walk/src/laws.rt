//! What holds of every walk.
ghost use Rattle.std.specs.Prelude.{◌≡◌, ◌↔◌, ◌≤◌, List, MatchOption, length};
ghost use Rattle.rc_base.specs.declared.ending.Ends.{Ends};
ghost use Rattle.rc_base.specs.declared.header.Header.{Header};
ghost use Rattle.rc_base.specs.declared.position.Pos.{Pos};
ghost use Rattle.rc_config.specs.declared.network.Network.{Network};
ghost use Rattle.rc_config.specs.Lawful.{IsPosition};
ghost use Rattle.rc_config.specs.Members.{positions};
ghost use Rattle.rc_route.specs.declared.state.RouterState.{RouterState};
ghost use Rattle.rc_topology.specs.Ports.{links_of};
ghost use Rattle.rc_moves.specs.declared.walk.Stop.TheVariants.{Loop};
ghost use Rattle.rc_moves.specs.declared.walk.Walk.{Walk};
ghost use Rattle.rc_walk.specs.Loops.{IsShortestLoop, NoLoop, shortest_loop};
ghost use Rattle.rc_moves.specs.Moves.{DataPlane, plane_of};
ghost use Rattle.rc_walk.specs.ShortestWalks.{IsShortestWalk, NoWalkEnds, shortest_walk};
ghost use Rattle.rc_walk.specs.FirstWalks.{IsFirstWalk, first_walk};
ghost use Rattle.rc_moves.specs.Walks.{GoesOnForEver, HasChain, IsLooping, IsWalk};

/// A packet has one first walk from a position.
pub fn one_first_walk()
    ensures { (plane : DataPlane) (h : Header) (q : Pos) (w v : Walk) → IsFirstWalk plane h q w → IsFirstWalk plane h q v → w ≡ v }
{}

/// The first walk is a walk: each position is among the moves of the one before, and so is the ending among those of the
/// last position, or a move of it leads back.
pub fn first_walk_is_a_walk()
    ensures { (plane : DataPlane) (h : Header) (q : Pos) (w : Walk) → IsFirstWalk plane h q w → IsWalk plane h q w }
{}

/// From each position there is a first walk, and it can be computed.
pub fn there_is_a_first_walk()
    ensures { (net : Network) (state : List RouterState) (h : Header) (q : Pos) → IsFirstWalk (plane_of net state) h q (first_walk (plane_of net state) h q) }
{}

/// A packet has one shortest walk from a position to an ending that is asked for.
pub fn one_shortest_walk()
    ensures { (plane : DataPlane) (h : Header) (ends : Ends) (q : Pos) (w v : Walk) → IsShortestWalk plane h ends q w → IsShortestWalk plane h ends q v → w ≡ v }
{}

/// The shortest walk is a walk, and its ending is asked for.
pub fn shortest_walk_is_a_walk()
    ensures { (plane : DataPlane) (h : Header) (ends : Ends) (q : Pos) (w : Walk) → IsShortestWalk plane h ends q w → IsWalk plane h q w }
{}

/// From each position there is a shortest walk, or none has such an ending, and it can be computed.
pub fn there_is_a_shortest_walk()
    ensures { (plane : DataPlane) (h : Header) (ends : Ends) (q : Pos) → MatchOption (shortest_walk plane h ends q) (NoWalkEnds plane h ends q) (IsShortestWalk plane h ends q) }
{}

/// Some walk comes back to one of its own positions exactly where the packet has as many moves one after another as the network
/// has positions, and exactly where it has moves without end.
pub fn loops_are_chains()
    ensures long { (plane : DataPlane) (h : Header) (q : Pos) → plane.links ≡ links_of plane.network → IsPosition plane.network q → HasChain plane h q (length (positions plane.network)) ↔ IsLooping plane h q }
    ensures endless { (plane : DataPlane) (h : Header) (q : Pos) → plane.links ≡ links_of plane.network → IsPosition plane.network q → IsLooping plane h q ↔ GoesOnForEver plane h q }
{}

/// A packet has one shortest walk from a position that comes back.
pub fn one_shortest_loop()
    ensures { (plane : DataPlane) (h : Header) (q : Pos) (w v : Walk) → IsShortestLoop plane h q w → IsShortestLoop plane h q v → w ≡ v }
{}

/// It is a walk, and stops before a position that is on it already.
pub fn shortest_loop_is_a_walk()
    ensures { (plane : DataPlane) (h : Header) (q : Pos) (w : Walk) → IsShortestLoop plane h q w → IsWalk plane h q w × (w.stop ≡ Loop) }
{}

/// From each position there is a shortest walk that comes back, or none does, and it can be computed.
pub fn there_is_a_shortest_loop()
    ensures { (plane : DataPlane) (h : Header) (q : Pos) → MatchOption (shortest_loop plane h q) (NoLoop plane h q) (IsShortestLoop plane h q) }
{}

/// There is none exactly where no walk has at its last position one of its own positions among the moves.
pub fn none_exactly_where_none_loops()
    ensures { (plane : DataPlane) (h : Header) (q : Pos) → NoLoop plane h q ↔ (¬ (IsLooping plane h q)) }
{}
