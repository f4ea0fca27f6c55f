//! The graph of an area: its nodes are the routers, and behind them the transit networks.
ghost use Rattle.std.specs.Prelude.{◌≡◌, ◌++◌, ◌≤◌, ◌<◌, length, map, IfOk, OnOk};
ghost use Rattle.rc_link_state.specs.Graph as spec;
ghost use Rattle.rc_link_state.specs.Graph.{AreOf, IsTurned};

use crate::{Attached, Step, Transit};
use rc_spf::{Edge, Graph};
use std::alloc::{AllocError, Global};

/// Puts the edges of steps at the end.
fn add_steps(edges: &mut Vec<Edge>, steps: &[Step]) -> Result<(), AllocError>
    ensures { OnOk result (edges.new.items ≡ edges.old.items ++ map spec.plain_edge steps.now) }
{
    for step in steps {
        edges.push(Edge {
            from: step.out.router.index(),
            to: step.to.index(),
            cost: step.cost,
        })?;
    }
    Ok(())
}

/// Puts the edges into a network at the end, each at the cost of its interface.
fn add_into(edges: &mut Vec<Edge>, node: usize, attached: &[Attached]) -> Result<(), AllocError>
    ensures { OnOk result (edges.new.items ≡ edges.old.items ++ map (spec.edge_into node) attached.now) }
{
    for interface in attached {
        edges.push(Edge {
            from: interface.out.router.index(),
            to: node,
            cost: interface.cost,
        })?;
    }
    Ok(())
}

/// Puts the edges out of a network at the end, which cost nothing.
fn add_out(edges: &mut Vec<Edge>, node: usize, attached: &[Attached]) -> Result<(), AllocError>
    ensures { OnOk result (edges.new.items ≡ edges.old.items ++ map (spec.edge_out node) attached.now) }
{
    for interface in attached {
        edges.push(Edge {
            from: node,
            to: interface.out.router.index(),
            cost: 0,
        })?;
    }
    Ok(())
}

/// Puts the edges of a network at the end.
fn add_network(edges: &mut Vec<Edge>, node: usize, network: &Transit) -> Result<(), AllocError>
    ensures { OnOk result (edges.new.items ≡ edges.old.items ++ (map (spec.edge_into node) network.now.attached ++ map (spec.edge_out node) network.now.attached)) }
{
    let attached = network.attached.as_slice();
    add_into(edges, node, attached)?;
    add_out(edges, node, attached)
}

/// Puts the edges of networks at the end, whose nodes are numbered from one on.
fn add_networks(edges: &mut Vec<Edge>, node: usize, networks: &[Transit]) -> Result<(), AllocError>
    requires { node ≤ 512 }
    ensures { OnOk result (edges.new.items ≡ edges.old.items ++ spec.network_edges node networks.now) }
{
    let mut at = node;
    for network in networks {
        add_network(edges, at, network)?;
        at += 1;
    }
    Ok(())
}

/// Edges turned round.
fn turned(alloc: Global, edges: &[Edge]) -> Result<Vec<Edge>, AllocError>
    ensures { IfOk result (λ v. v.items ≡ map spec.turned edges.now) }
{
    let mut turned = Vec::with_capacity(alloc, edges.len())?;
    for edge in edges {
        turned.push(Edge {
            from: edge.to,
            to: edge.from,
            cost: edge.cost,
        })?;
    }
    Ok(turned)
}

/// The graph of the steps and networks of an area, its edges turned round. It errs only where memory runs out.
pub(crate) fn turned_graph(
    alloc: Global,
    routers: usize,
    steps: &[Step],
    networks: &[Transit],
) -> Result<Graph, AllocError>
    requires { routers ≤ 512 }
    ensures { IfOk result (IsTurned routers steps.now networks.now) }
{
    let mut edges = Vec::new(alloc);
    add_steps(&mut edges, steps)?;
    add_networks(&mut edges, routers, networks)?;
    let edges = turned(alloc, &edges)?;
    Ok(Graph {
        nodes: routers + networks.len(),
        edges,
    })
}
