//! The search: the nearest node that is not settled is settled, and the edges out of it are followed (RFC 2328, section 16.1,
//! steps 1 to 5). At any moment each node that was reached and is not settled waits in the queue at its cost.
ghost use Rattle.std.specs.Prelude.{◌≡◌, ℕ, ◌+◌, ◌^◌, ◌<◌, ◌≤◌, ◌↔◌, length, IsTrue, IfOk, MatchOption, All, vec_len, replicate, false};
ghost use Rattle.rc_spf.specs.Waiting.{IsQueue, IsNext, IsStillQueue};
ghost use Rattle.rc_spf.specs.Weights.{FirstNodesCost};
ghost use Rattle.rc_spf.specs.Steps.{NoneNearest, IsImproved, IsRelaxed, HasShortWalks, AreBounded, AreGroups, AreLeastCosts, IsStart, AreCostsFrom};

use crate::queue::Queue;
use crate::{Edge, Graph, Groups};
use std::alloc::{AllocError, Global};

/// Takes the node of least cost among those that are not settled out of the queue, with its cost.
fn next(queue: &mut Queue, costs: &[Option<u32>], settled: &[bool]) -> Option<(usize, u32)>
    requires len { length costs.now ≡ length settled.now }
    requires queue { IsQueue queue.old costs.now settled.now }
    ensures { MatchOption result (NoneNearest costs.now settled.now (length settled.now)) (λ p. IsNext queue.new costs.now settled.now p.0 p.1) }
{
    while let Some((cost, node)) = queue.pop() {
        if !settled[node] {
            return Some((node, cost));
        }
    }
    None
}

/// Whether a sum is less than the cost so far.
fn is_lower(cost: Option<u32>, sum: u32) -> bool
    ensures { MatchOption cost (IsTrue result) (λ old. IsTrue result ↔ (sum < old)) }
{
    match cost {
        None => true,
        Some(old) => sum < old,
    }
}

/// Lowers a cost to a sum, if that is less, and lets the node wait at it.
fn improve(
    costs: &mut [Option<u32>],
    queue: &mut Queue,
    at: usize,
    sum: u32,
) -> Result<(), AllocError>
    requires { at < length costs.old }
    ensures costs { IfOk result (λ u. IsImproved at sum costs.old costs.new) }
    ensures queue { IfOk result (λ u. IsStillQueue queue.old queue.new costs.old costs.new) }
{
    if is_lower(costs[at], sum) {
        queue.push(sum, at)?;
        costs[at] = Some(sum);
    }
    Ok(())
}

/// Follows those of some edges that lead out of a node of that cost.
fn relax(
    edges: &[Edge],
    node: usize,
    cost: u32,
    costs: &mut [Option<u32>],
    queue: &mut Queue,
) -> Result<(), AllocError>
    requires ends { All (λ e. e.to < length costs.old) edges.now }
    requires fits { All (λ e. cost + e.cost < 2 ^ 32) edges.now }
    ensures costs { IfOk result (λ u. IsRelaxed edges.now node cost costs.old costs.new) }
    ensures queue { IfOk result (λ u. IsStillQueue queue.old queue.new costs.old costs.new) }
{
    for edge in edges {
        if edge.from == node {
            improve(costs, queue, edge.to, cost + edge.cost)?;
        }
    }
    Ok(())
}

/// A search under way.
struct Search {
    /// By node: the cost of the least walk that is known so far.
    costs: Vec<Option<u32>>,
    /// By node: whether its cost is final.
    settled: Vec<bool>,
    queue: Queue,
}

/// By a function of its own, so that what holds a search drops it by one call.
impl Drop for Search {
    fn drop(self) {
        let Search {
            costs: _,
            settled: _,
            queue: _,
        } = self;
    }
}

/// The costs before the search: the root alone is reached.
fn start(alloc: Global, nodes: usize, root: usize) -> Result<Vec<Option<u32>>, AllocError>
    requires { root < nodes }
    ensures { IfOk result (λ costs. IsStart nodes root costs.items) }
{
    let mut costs = vec![in alloc; None; nodes]?;
    costs[root] = Some(0);
    Ok(costs)
}

impl Search {
    /// A search from a root, at its start.
    fn new(alloc: Global, nodes: usize, root: usize) -> Result<Search, AllocError>
        requires { root < nodes }
        ensures costs { IfOk result (λ s. IsStart nodes root s.costs.items) }
        ensures settled { IfOk result (λ s. s.settled.items ≡ replicate nodes false) }
        ensures queue { IfOk result (λ s. IsQueue s.queue s.costs.items s.settled.items) }
    {
        let mut queue = Queue::new(alloc);
        queue.push(0, root)?;
        let settled = vec![in alloc; false; nodes]?;
        let costs = start(alloc, nodes, root)?;
        Ok(Search {
            costs,
            settled,
            queue,
        })
    }

    /// Settles all nodes to which walks from the root lead, the nearest first.
    fn run(&mut self, graph: &Graph, groups: &Groups, root: usize) -> Result<(), AllocError>
        requires root { root < graph.now.nodes }
        requires ends { All (λ e. (e.from < graph.now.nodes) × (e.to < graph.now.nodes)) graph.now.edges.items }
        requires short { HasShortWalks graph.now }
        requires groups { AreGroups graph.now groups.now }
        requires costs { IsStart graph.now.nodes root self.old.costs.items }
        requires settled { self.old.settled.items ≡ replicate graph.now.nodes false }
        requires queue { IsQueue self.old.queue self.old.costs.items self.old.settled.items }
        ensures { IfOk result (λ u. AreCostsFrom graph.now root self.new.costs.items) }
    {
        while let Some((node, cost)) = next(&mut self.queue, &self.costs, &self.settled) {
            self.settled[node] = true;
            let outgoing = &groups.outgoing[node];
            relax(outgoing, node, cost, &mut self.costs, &mut self.queue)?;
        }
        Ok(())
    }

    /// What the search found.
    fn into_costs(self) -> Vec<Option<u32>>
        ensures { result ≡ self.costs }
    {
        let Search {
            costs,
            settled: _,
            queue: _,
        } = self;
        costs
    }
}

/// The costs of the least walks from a root, by node, from the groups of the graph's edges; `None` where no walk leads.
///
/// To enter each node once by its dearest edge, and to follow one edge more, must cost less than 2^32, so that no sum wraps. No
/// cost that is given is more than what entering each node once costs. It errs only where memory runs out.
pub fn costs_by(
    alloc: Global,
    graph: &Graph,
    groups: &Groups,
    root: usize,
) -> Result<Vec<Option<u32>>, AllocError>
    requires root { root < graph.now.nodes }
    requires ends { All (λ e. (e.from < graph.now.nodes) × (e.to < graph.now.nodes)) graph.now.edges.items }
    requires short { HasShortWalks graph.now }
    requires groups { AreGroups graph.now groups.now }
    ensures nodes { IfOk result (λ costs. vec_len costs ≡ graph.now.nodes) }
    ensures cost { IfOk result (λ costs. AreLeastCosts graph.now root costs.items) }
    ensures small { IfOk result (λ costs. AreBounded costs.items graph.now) }
{
    let mut search = Search::new(alloc, graph.nodes, root)?;
    search.run(graph, groups, root)?;
    Ok(search.into_costs())
}

/// Where each of the first nodes costs so much to enter and the others cost nothing, entering each node once costs no more than
/// the first ones do, however many others there are.
pub fn first_nodes_cost()
    ensures { FirstNodesCost }
{}
