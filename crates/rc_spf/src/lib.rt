//! Shortest paths: the least cost from a root to each node of a graph (RFC 2328, section 16.1).
//!
//! It stands on std alone. The layer above knows of each node that its cost is least among all walks from the root, or that no
//! walk leads there. An edge may cost nothing, so a network is a node as a router is: what leads out of it costs nothing.
#![tactic(auto)]

mod dijkstra;
mod graph;
mod groups;
mod queue;

pub use dijkstra::{costs_by, first_nodes_cost};
pub use graph::{Edge, Graph, Groups};
pub use groups::groups_of;
