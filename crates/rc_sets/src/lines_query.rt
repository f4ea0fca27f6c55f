//! What a table for the idle lines of access lists may hold.
use rc_base::RouterId;
use rc_config::Network;
use rc_nodes::May;

/// The trees that are made where the idle lines of a network's access lists are told: those of one router, or of all. No run computes them.
#[derive(Drop)]
pub struct LinesQuery<'a> {
    pub network: &'a Network,
    pub router: Option<RouterId>,
}

impl<'a> May for LinesQuery<'a> {
    ghost use Rattle.rc_sets.specs.LinesQuery.{asked_lists, lists_nodes};

    ghost trees = { λ q. lists_nodes (asked_lists q.network.now q.router) };
}
