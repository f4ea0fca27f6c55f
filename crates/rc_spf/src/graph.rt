//! Graphs, with routers and networks as their nodes (RFC 2328, section 2.1).

/// A step from one node to another. Nodes are numbered from 0.
#[derive(Clone, Copy)]
pub struct Edge {
    pub from: usize,
    pub to: usize,
    /// What the step costs. It may be nothing, as out of a network.
    pub cost: u32,
}

/// So many nodes, numbered from 0, and the steps between them, in any order.
pub struct Graph {
    pub nodes: usize,
    pub edges: Vec<Edge>,
}

/// By a function of its own, so that what holds a graph drops it by one call.
impl Drop for Graph {
    fn drop(self) {
        let Graph { nodes: _, edges: _ } = self;
    }
}

/// The edges of a graph by the node that each leaves, made once for all roots.
pub struct Groups {
    pub outgoing: Vec<Vec<Edge>>,
}

/// By a function of its own, so that what holds groups drops them by one call.
impl Drop for Groups {
    fn drop(self) {
        let Groups { outgoing: _ } = self;
    }
}
