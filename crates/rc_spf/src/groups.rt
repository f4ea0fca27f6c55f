//! The edges of a graph by the nodes that they leave.
ghost use Rattle.std.specs.Prelude.{ℕ, ◌<◌, [], IfOk, All};
ghost use Rattle.rc_spf.specs.Steps.{IsGrouped, AreGroups};

use crate::{Edge, Graph, Groups};
use std::alloc::{AllocError, Global};

/// So many empty groups.
fn empty_groups(alloc: Global, nodes: usize) -> Result<Vec<Vec<Edge>>, AllocError>
    ensures { IfOk result (λ g. IsGrouped g.items [] nodes) }
{
    let mut groups = Vec::new(alloc);
    for _ in 0..nodes {
        groups.push(Vec::new(alloc))?;
    }
    Ok(groups)
}

/// The edges by the node that each leaves.
fn grouped(alloc: Global, nodes: usize, edges: &[Edge]) -> Result<Vec<Vec<Edge>>, AllocError>
    requires { All (λ e. e.from < nodes) edges.now }
    ensures { IfOk result (λ g. IsGrouped g.items edges.now nodes) }
{
    let mut groups = empty_groups(alloc, nodes)?;
    for edge in edges {
        groups[edge.from].push(*edge)?;
    }
    Ok(groups)
}

/// The groups of a graph's edges, whose ends are nodes of it. It errs only where memory runs out.
pub fn groups_of(alloc: Global, graph: &Graph) -> Result<Groups, AllocError>
    requires { All (λ e. (e.from < graph.now.nodes) × (e.to < graph.now.nodes)) graph.now.edges.items }
    ensures { IfOk result (λ groups. AreGroups graph.now groups) }
{
    let outgoing = grouped(alloc, graph.nodes, &graph.edges)?;
    Ok(Groups { outgoing })
}
