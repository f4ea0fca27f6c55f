//! What is left on the way to each router of an area, from its other routers and its transit networks on: the least costs over the
//! area's edges turned round (RFC 2328, section 16.1).
ghost use Rattle.std.specs.Prelude.{◌≡◌, ◌<◌, ◌≤◌, [], true, false, length, take, drop, map, vec_len, IfOk};
ghost use Rattle.rc_link_state.specs.Columns.{AreSmall};
ghost use Rattle.rc_link_state.specs.Graph.{AreOf, CostLittle, area_edges, turned};
ghost use Rattle.rc_link_state.specs.Inward.{IsReady, IsOut, IsMade, AreColumns};

use crate::costs::Costs;
use crate::graph::turned_graph;
use crate::{Step, Transit};
use rc_base::Items;
use rc_outside::OpenGate;
use rc_shares::{Each, each_at_once};
use rc_spf::{Edge, Graph, Groups, costs_by, groups_of};
use std::alloc::{AllocError, Global};
use std::thread::Threads;

/// What is left on the way to a router.
pub struct Column {
    /// From each router on.
    pub costs: Costs,
    /// From each transit network on.
    pub left: Costs,
}

/// By a function of its own, so that what holds columns drops each by one call.
impl Drop for Column {
    fn drop(self) {
        let Column { costs: _, left: _ } = self;
    }
}

/// The graph of an area turned round, and to which routers it is wanted what is left.
pub(crate) struct Inward {
    pub routers: usize,
    pub graph: Graph,
    pub groups: Groups,
    /// By router.
    pub wanted: Vec<bool>,
    /// Columns of so many routers, or fewer, are left to one worker.
    pub few: usize,
}

/// By a function of its own, so that what holds such graphs drops each by one call.
impl Drop for Inward {
    fn drop(self) {
        let Inward {
            routers: _,
            graph: _,
            groups: _,
            wanted: _,
            few: _,
        } = self;
    }
}

/// The column of a router to which no walk leads from another one.
fn no_column(alloc: Global) -> Column
    ensures costs { result.costs ≡ [] }
    ensures left { result.left ≡ [] }
{
    Column {
        costs: Costs::none(alloc),
        left: Costs::none(alloc),
    }
}

/// Costs of nodes, parted into those of the routers and those of the networks behind them.
fn parted(alloc: Global, routers: usize, costs: &[Option<u32>]) -> Result<Column, AllocError>
    requires small { AreSmall costs.now }
    requires routers { routers ≤ length costs.now }
    ensures costs { IfOk result (λ c. c.costs ≡ take routers costs.now) }
    ensures left { IfOk result (λ c. c.left ≡ drop routers costs.now) }
{
    let left = Costs::of(alloc, &costs[routers..])?;
    let costs = Costs::of(alloc, &costs[..routers])?;
    Ok(Column { costs, left })
}

impl Inward {
    /// Whether it is wanted what is left to a router, and an edge leads to it.
    fn is_asked(&self, router: usize) -> bool
        requires ready { IsReady self.now }
        requires router { router < self.now.routers }
        ensures { result ≡ false → IsOut self.now router }
    {
        let outgoing: &[Edge] = &self.groups.outgoing[router];
        self.wanted[router] && !outgoing.is_empty()
    }

    /// What is left on the way to a router.
    fn column(&self, alloc: Global, router: usize) -> Result<Column, AllocError>
        requires ready { IsReady self.now }
        requires router { router < self.now.routers }
        ensures { IfOk result (IsMade self.now router) }
    {
        if !self.is_asked(router) {
            return Ok(no_column(alloc));
        }
        let costs = costs_by(alloc, &self.graph, &self.groups, router)?;
        parted(alloc, self.routers, &costs)
    }
}

impl Each for Inward {
    ghost use Rattle.rc_link_state.specs.Inward.{IsReady, IsMade};

    type Made = Column;

    ghost count = { λ g. g.routers };

    ghost ready = { IsReady };

    ghost makes = { IsMade };

    fn items(&self) -> usize {
        self.routers
    }

    fn few(&self) -> usize {
        self.few
    }

    fn make(&self, alloc: Global, item: usize) -> Result<Column, AllocError> {
        self.column(alloc, item)
    }
}

/// The graph of the steps and networks of an area, turned round. It errs only where memory runs out.
pub(crate) fn turned_round(
    alloc: Global,
    routers: usize,
    steps: &[Step],
    networks: &[Transit],
    wanted: Vec<bool>,
    few: usize,
) -> Result<Inward, AllocError>
    requires few { routers ≤ 512 }
    requires of { AreOf routers steps.now networks.now }
    requires little { CostLittle steps.now networks.now }
    requires wanted { vec_len wanted ≡ routers }
    ensures ready { IfOk result IsReady }
    ensures routers { IfOk result (λ g. g.routers ≡ routers) }
    ensures edges { IfOk result (λ g. g.graph.edges.items ≡ map turned (area_edges routers steps.now networks.now)) }
    ensures wanted { IfOk result (λ g. g.wanted.items ≡ wanted.items) }
{
    let graph = turned_graph(alloc, routers, steps, networks)?;
    let groups = groups_of(alloc, &graph)?;
    Ok(Inward {
        routers,
        graph,
        groups,
        wanted,
        few,
    })
}

/// What is left on the way to each router, of those that are wanted. The workers share the work. It errs only where memory runs out.
pub(crate) fn columns_of<R: Threads + Sync>(
    rt: &R,
    alloc: Global,
    inward: &Inward,
    workers: u32,
) -> Result<Items<Column>, AllocError>
    requires { IsReady inward.now }
    ensures { IfOk result (AreColumns inward.now) }
{
    let (_passed, columns) = each_at_once(rt, alloc, inward, workers.max(1), 0, &OpenGate);
    columns
}
