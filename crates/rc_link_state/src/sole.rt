//! Least walks that all leave by one step.
ghost use Rattle.std.specs.Prelude.{◌≡◌, ◌<◌, ◌^◌, [], ◌∷◌, Some, IfSome, MatchOption};
ghost use Rattle.std.specs.List.{filter_map};
ghost use Rattle.rc_link_state.specs.Adjacency.{hop_of};
ghost use Rattle.rc_link_state.specs.Columns.{AreSmall, cost_at};
ghost use Rattle.rc_link_state.specs.HopsBy.{hop_on};
ghost use Rattle.rc_link_state.specs.Kept.{HasSmallCosts};
ghost use Rattle.rc_link_state.specs.Tables as spec;

use crate::Step;
use crate::columns::Column;
use crate::costs::Costs;
use crate::leading::leads_on;
use crate::table::AreaWalks;
use rc_base::RouterId;

/// What least walks cost that all leave by one step, and this step.
#[derive(Clone, Copy)]
pub struct Sole<'a> {
    pub cost: u32,
    pub step: &'a Step,
}

/// The first of some steps that leads on at the cost, and those behind it.
fn first_leading<'a>(costs: &Costs, cost: u32, steps: &'a [Step]) -> Option<(&'a Step, &'a [Step])>
    ensures { MatchOption result (filter_map (hop_on (cost_at costs.now) cost) steps.entry.now ≡ [])
        (λ found. filter_map (hop_on (cost_at costs.now) cost) steps.entry.now ≡ hop_of found.0.now ∷ filter_map (hop_on (cost_at costs.now) cost) found.1.now) }
{
    let mut left = steps;
    while let [step, behind @ ..] = left {
        if leads_on(costs, cost, step) {
            return Some((step, behind));
        }
        left = behind;
    }
    None
}

/// The one of some steps that leads on at the cost, where no other one does.
fn only_leading<'a>(costs: &Costs, cost: u32, steps: &'a [Step]) -> Option<&'a Step>
    ensures { IfSome result (λ step. filter_map (hop_on (cost_at costs.now) cost) steps.entry.now ≡ hop_of step.now ∷ []) }
{
    match first_leading(costs, cost, steps) {
        None => None,
        Some((step, behind)) => match first_leading(costs, cost, behind) {
            None => Some(step),
            Some(_) => None,
        },
    }
}

impl AreaWalks {
    /// The step by which a router leaves at that cost, where it is the only one and no network stands for others.
    #[tactic(auto, using(crate::proofs::SoleLaws::sole_hops))]
    fn only_step(&self, from: RouterId, column: &Column, cost: u32) -> Option<&Step>
        ensures { IfSome result (λ step. spec.hops_towards self.now from column.now cost ≡ hop_of step.now ∷ []) }
    {
        if self.attached.of_router(from).is_empty() {
            only_leading(&column.costs, cost, self.steps.of_router(from))
        } else {
            None
        }
    }

    /// The least walks from a router, by a column, where it is quickly told that all of them leave by one step.
    fn sole_by(&self, from: RouterId, column: &Column) -> Option<Sole<'_>>
        requires { AreSmall column.now.costs }
        ensures walks { IfSome result (λ sole. spec.walks_by_column self.now from column.now ≡ Some (record { cost = sole.cost; hops = hop_of sole.step.now ∷ [] })) }
        ensures small { IfSome result (λ sole. sole.cost < 2 ^ 26) }
    {
        let cost = column.costs.at(from.index());
        match cost {
            None => None,
            Some(cost) => match self.only_step(from, column, cost) {
                None => None,
                Some(step) => Some(Sole { cost, step }),
            },
        }
    }

    /// The least walks from a router to another one, where it is quickly told that all of them leave by one step.
    pub(crate) fn sole_inside(&self, from: RouterId, to: RouterId) -> Option<Sole<'_>>
        requires { HasSmallCosts self.now }
        ensures walks { IfSome result (λ sole. spec.walks_in self.now from to ≡ Some (record { cost = sole.cost; hops = hop_of sole.step.now ∷ [] })) }
        ensures small { IfSome result (λ sole. sole.cost < 2 ^ 26) }
    {
        let column = self.columns.as_slice().get(to.index());
        match column {
            Some(column) => self.sole_by(from, column),
            None => None,
        }
    }
}
