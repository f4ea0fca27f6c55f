//! What holds of every walk.
ghost use Rattle.std.specs.Prelude.{◌≡◌, ◌≤◌, List, length};
ghost use Rattle.std.specs.Bool.{Decides};
ghost use Rattle.rc_base.specs.Positions.{same_position};
ghost use Rattle.rc_base.specs.declared.header.Header.{Header};
ghost use Rattle.rc_base.specs.declared.position.Pos.{Pos};
ghost use Rattle.rc_config.specs.declared.network.Network.{Network};
ghost use Rattle.rc_config.specs.Lawful.{IsPosition};
ghost use Rattle.rc_config.specs.Members.{positions};
ghost use Rattle.rc_moves.specs.Moves.{plane_of};
ghost use Rattle.rc_moves.specs.Walks.{IsWalk};
ghost use Rattle.rc_moves.specs.declared.walk.Walk.{Walk};
ghost use Rattle.rc_route.specs.declared.state.RouterState.{RouterState};

/// A walk has at most as many positions as the network.
pub fn walks_are_short()
    ensures { (net : Network) (state : List RouterState) (h : Header) (q : Pos) (w : Walk) → IsPosition net q → IsWalk (plane_of net state) h q w → length w.positions ≤ length (positions net) }
{}

/// The test of two positions decides whether they are equal.
pub fn positions_are_told_apart()
    ensures { (p q : Pos) → Decides (same_position p q) (p ≡ q) }
{}
