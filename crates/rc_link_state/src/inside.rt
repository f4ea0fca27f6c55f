//! What is told of the least walks inside an area.
ghost use Rattle.std.specs.Prelude.{◌≡◌, ◌<◌, ◌++◌, ◌^◌, IfOk, IfSome, OnOk, slice_get};
ghost use Rattle.std.specs.List.{flat_map};
ghost use Rattle.std.specs.Option.{option_copied};
ghost use Rattle.rc_link_state.specs.Columns.{cost_at};
ghost use Rattle.rc_link_state.specs.Kept.{HasSmallCosts};
ghost use Rattle.rc_link_state.specs.Tables as spec;

use crate::Transit;
use crate::columns::Column;
use crate::costs::Costs;
use crate::hops::put_in_order;
use crate::leading::{add_hops_from, add_hops_on};
use crate::table::AreaWalks;
use rc_base::RouterId;
use rc_route::Hops;
use std::alloc::{AllocError, Global};

/// Puts the hops of a router over a network at the end, of which so much is left, if anything.
fn add_hops_left(
    hops: &mut Hops,
    alloc: Global,
    from: RouterId,
    costs: &Costs,
    cost: u32,
    network: &Transit,
    left: Option<u32>,
) -> Result<(), AllocError>
    ensures { OnOk result (hops.new ≡ hops.old ++ spec.hops_left from (cost_at costs.now) cost network.now left) }
{
    match left {
        None => Ok(()),
        Some(left) => {
            let attached = network.attached.as_slice();
            add_hops_from(hops, alloc, from, costs, cost, attached, left)
        }
    }
}

impl AreaWalks {
    /// The cost of the least walks from a router to another one, where there are any.
    pub(crate) fn cost_inside(&self, from: RouterId, to: RouterId) -> Option<u32>
        requires { HasSmallCosts self.now }
        ensures value { result ≡ spec.cost_of (spec.walks_in self.now from to) }
        ensures small { IfSome result (λ c. c < 2 ^ 26) }
    {
        let column = self.columns.as_slice().get(to.index());
        match column {
            Some(column) => column.costs.at(from.index()),
            None => None,
        }
    }

    /// The network of a number.
    fn network_at(&self, number: usize) -> Option<&Transit>
        ensures { option_copied result ≡ slice_get self.now.networks number }
    {
        self.networks.as_slice().get(number)
    }

    /// Puts the hops of a router over the network of a number at the end.
    fn add_hops_over(
        &self,
        hops: &mut Hops,
        alloc: Global,
        from: RouterId,
        column: &Column,
        cost: u32,
        number: usize,
    ) -> Result<(), AllocError>
        ensures { OnOk result (hops.new ≡ hops.old ++ spec.hops_over_place self.now from column.now cost number) }
    {
        let network = self.network_at(number);
        match network {
            None => Ok(()),
            Some(network) => {
                let left = column.left.at(number);
                add_hops_left(hops, alloc, from, &column.costs, cost, network, left)
            }
        }
    }

    /// Puts the hops of a router over some networks at the end.
    fn add_hops_over_all(
        &self,
        hops: &mut Hops,
        alloc: Global,
        from: RouterId,
        column: &Column,
        cost: u32,
        numbers: &[usize],
    ) -> Result<(), AllocError>
        ensures { OnOk result (hops.new ≡ hops.old ++ flat_map (spec.hops_over_place self.now from column.now cost) numbers.now) }
    {
        for number in numbers {
            self.add_hops_over(hops, alloc, from, column, cost, *number)?;
        }
        Ok(())
    }

    /// The first hops of the least walks from a router at that cost, in order.
    fn hops_at_cost(
        &self,
        alloc: Global,
        from: RouterId,
        column: &Column,
        cost: u32,
    ) -> Result<Hops, AllocError>
        ensures { IfOk result (λ hops. hops ≡ spec.hops_towards self.now from column.now cost) }
    {
        let mut hops = Hops::none();
        let steps = self.steps.of_router(from);
        add_hops_on(&mut hops, alloc, &column.costs, cost, steps)?;
        let numbers = self.attached.of_router(from);
        self.add_hops_over_all(&mut hops, alloc, from, column, cost, numbers)?;
        put_in_order(alloc, hops)
    }

    /// The first hops of the least walks from a router, by a column.
    fn hops_by(&self, alloc: Global, from: RouterId, column: &Column) -> Result<Hops, AllocError>
        ensures { IfOk result (λ hops. hops ≡ spec.hops_of (spec.walks_by_column self.now from column.now)) }
    {
        let cost = column.costs.at(from.index());
        match cost {
            Some(cost) => self.hops_at_cost(alloc, from, column, cost),
            None => Ok(Hops::none()),
        }
    }

    /// The first hops of the least walks from a router to another one, in order. It errs only where memory runs out.
    pub(crate) fn hops_inside(
        &self,
        alloc: Global,
        from: RouterId,
        to: RouterId,
    ) -> Result<Hops, AllocError>
        ensures { IfOk result (λ hops. hops ≡ spec.hops_of (spec.walks_in self.now from to)) }
    {
        let column = self.columns.as_slice().get(to.index());
        match column {
            Some(column) => self.hops_by(alloc, from, column),
            None => Ok(Hops::none()),
        }
    }
}
