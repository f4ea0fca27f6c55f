//! Costs, of which some are none.
ghost use Rattle.std.specs.Prelude.{◌≡◌, ◌==◌, ℕ, ◌<◌, ◌^◌, false, [], IfOk, IfSome, All};
ghost use Rattle.std.specs.Option.{option_map_or};
ghost use Rattle.rc_link_state.specs.Columns.{cost_at, AreSmall};
ghost use Rattle.rc_link_state.specs.Costs as spec;

use rc_base::Items;
use std::alloc::{AllocError, Global};
use std::marker::Model;

/// Stands for no cost.
const NEVER: u32 = u32::MAX;

/// Costs below 2^32 - 1, of which some are none, seen as a list of options. They take four bytes each.
pub struct Costs {
    codes: Items<u32>,
}

/// By a function of its own, so that what holds costs drops them by one call.
impl Drop for Costs {
    fn drop(self) {
        let Costs { codes: _ } = self;
    }
}

impl Model for Costs {
    ghost use Rattle.std.specs.Prelude.{List, Option, ℕ, map};
    ghost use Rattle.rc_link_state.specs.Costs.{told};

    ghost Value = { List (Option ℕ) };

    ghost view = { λ c. map told c.codes };
}

/// What a code stands for.
fn told(code: u32) -> Option<u32>
    ensures { result ≡ spec.told code }
{
    if code == NEVER { None } else { Some(code) }
}

impl Costs {
    /// No costs. They take no memory.
    pub(crate) fn none(alloc: Global) -> Costs
        ensures { result ≡ [] }
    {
        Costs {
            codes: Items::new(alloc),
        }
    }

    /// These costs, which are small. It errs only where memory runs out.
    pub(crate) fn of(alloc: Global, costs: &[Option<u32>]) -> Result<Costs, AllocError>
        requires { AreSmall costs.now }
        ensures { IfOk result (λ c. c ≡ costs.now) }
    {
        let mut codes = Items::with_room(alloc, costs.len())?;
        for cost in costs {
            codes.push(cost.unwrap_or(NEVER))?;
        }
        Ok(Costs { codes })
    }

    /// The cost at a place; none behind the last one.
    pub(crate) fn at(&self, place: usize) -> Option<u32>
        ensures { result ≡ cost_at self.now place }
    {
        let code = self.codes.as_slice().get(place);
        match code {
            Some(code) => told(*code),
            None => None,
        }
    }

    /// Whether the cost at a place is this one.
    #[inline]
    pub(crate) fn is_at(&self, place: usize, cost: u32) -> bool
        ensures { result ≡ option_map_or (λ c. c == cost) (cost_at self.now place) false }
    {
        let code = self.codes.as_slice().get(place);
        match code {
            Some(code) => *code == cost && cost != NEVER,
            None => false,
        }
    }
}
