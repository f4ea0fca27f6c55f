//! Ways to a prefix outside of the AS.
ghost use Rattle.std.specs.Prelude.{◌≡◌, None, IfOk};
ghost use Rattle.std.specs.List.{fold};
ghost use Rattle.std.specs.Option.{option_map};
ghost use Rattle.rc_external.specs.ByPrefix.{as_way, then_to};
ghost use Rattle.rc_external.specs.Costs.{cost_cmp};
ghost use Rattle.rc_route.specs.Ways.{with_way};

use crate::boundary_index::BoundaryIndex;
use crate::cost::cost_over;
use crate::{External, ExternalCost, compare_costs};
use rc_link_state::add_hops;
use rc_route::Hops;
use std::alloc::{AllocError, Global};
use std::cmp::Ordering;

/// A way to a prefix: its cost, and hops in the order in which they were found.
pub(crate) struct ExternalWay {
    pub cost: ExternalCost,
    pub hops: Hops,
}

/// By a function of its own, so that what holds a way drops it by one call.
impl Drop for ExternalWay {
    fn drop(self) {
        let ExternalWay { cost: _, hops: _ } = self;
    }
}

/// The way over these hops, at a cost.
fn way_at(alloc: Global, cost: ExternalCost, hops: &Hops) -> Result<ExternalWay, AllocError>
    ensures { IfOk result (λ way. as_way way ≡ record { cost = cost; hops = hops.now }) }
{
    let hops = hops.copy(alloc)?;
    Ok(ExternalWay { cost, hops })
}

/// The better of a way that is known and one over these hops, or both.
fn add_way(
    alloc: Global,
    known: Option<ExternalWay>,
    cost: ExternalCost,
    hops: &Hops,
) -> Result<ExternalWay, AllocError>
    ensures { IfOk result (λ way. as_way way ≡ with_way cost_cmp (option_map as_way known) (record { cost = cost; hops = hops.now })) }
{
    match known {
        None => way_at(alloc, cost, hops),
        Some(mut known) => match compare_costs(&cost, &known.cost) {
            Ordering::Less => way_at(alloc, cost, hops),
            Ordering::Equal => {
                add_hops(&mut known.hops, alloc, hops.as_slice())?;
                Ok(known)
            }
            Ordering::Greater => Ok(known),
        },
    }
}

/// The best way to what is sent for a prefix.
pub(crate) fn best_external_way(
    alloc: Global,
    paths: &BoundaryIndex<'_>,
    externals: &[External],
) -> Result<Option<ExternalWay>, AllocError>
    ensures { IfOk result (λ best. option_map as_way best ≡ fold (then_to paths.now) None externals.now) }
{
    let mut best = None;
    for external in externals {
        if let Some(path) = paths.path_to(external.boundary()) {
            let cost = cost_over(external, path.cost());
            best = Some(add_way(alloc, best, cost, path.hops())?);
        }
    }
    Ok(best)
}
