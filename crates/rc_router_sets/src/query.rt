//! What a query may make.
use rc_base::{Ends, Pos};
use rc_moves::Plane;
use rc_nodes::May;

/// The trees that the operations of a query make: which headers get from a place to one of some endings. No run computes them.
#[derive(Drop)]
pub struct Query<'a> {
    pub plane: &'a Plane<'a>,
    pub place: Pos,
    pub ends: Ends,
}

impl<'a> May for Query<'a> {
    ghost use Rattle.rc_router_sets.specs.Query.{query_nodes};

    ghost trees = { λ q. query_nodes q.plane.now q.place q.ends };
}
