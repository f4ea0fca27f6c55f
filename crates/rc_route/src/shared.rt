//! Hops that routes share.
ghost use Rattle.std.specs.Prelude.{◌≡◌, ◌↔◌, IfOk, IsTrue, nat_eq};
ghost use Rattle.std.specs.Cmp.Lexicographic.{pointwise};
ghost use Rattle.std.specs.Cmp.Rules.{comparing};
ghost use Rattle.std.specs.Ordering.{on};
ghost use Rattle.std.proofs.Common.{rules};
ghost use Rattle.rc_route.specs.Hops.{hop_key};

use crate::{Hop, Hops};
use std::alloc::{AllocError, Global};
use std::marker::Model;
use std::sync::Arc;

/// The hops of a route, seen as their list. Routes of one router mostly share theirs with others, so a route is small, and its copy takes
/// no memory.
pub struct SharedHops {
    kept: Arc<Hops, Global>,
}

/// By a function of its own, so that what holds them drops each by one call.
impl Drop for SharedHops {
    fn drop(self) {
        let SharedHops { kept: _ } = self;
    }
}

impl Model for SharedHops {
    ghost use Rattle.std.specs.Arc.{arc_value};
    ghost use Rattle.std.specs.Prelude.{List};
    ghost use Rattle.rc_route.specs.declared.route.Hop.{Hop};

    ghost Value = { List Hop };

    ghost view = { λ h. arc_value h.kept };
}

/// Whether two lists of hops are the same.
#[tactic(auto, using(crate::proofs::HopLaws::hops_decide))]
fn are_same(one: &Hops, other: &Hops) -> bool
    ensures { IsTrue result ↔ (one.now ≡ other.now) }
{
    one == other
}

impl SharedHops {
    /// Hops that nothing shares yet. It errs only where memory runs out.
    pub fn of(alloc: Global, hops: Hops) -> Result<SharedHops, AllocError>
        ensures { IfOk result (λ shared. shared ≡ hops) }
    {
        let kept = Arc::new(alloc, hops)?;
        Ok(SharedHops { kept })
    }

    /// Hops that share what others have, where these are the same. It errs only where memory runs out, or as many share them as can be
    /// counted.
    pub fn beside(
        alloc: Global,
        others: Option<&SharedHops>,
        hops: Hops,
    ) -> Result<SharedHops, AllocError>
        ensures { IfOk result (λ shared. shared ≡ hops) }
    {
        match others {
            Some(others) if others.are(&hops) => others.share(),
            _ => SharedHops::of(alloc, hops),
        }
    }

    /// Whether they are these.
    pub fn are(&self, hops: &Hops) -> bool
        ensures { IsTrue result ↔ (self.now ≡ hops.now) }
    {
        are_same(&self.kept, hops)
    }

    /// The hops, in order.
    pub fn as_slice(&self) -> &[Hop]
        ensures { result.now ≡ self.now }
    {
        self.kept.as_slice()
    }

    /// The same again, which both share. It takes no memory, and errs only where as many share them as can be counted.
    pub fn share(&self) -> Result<SharedHops, AllocError>
        ensures { IfOk result (λ shared. shared ≡ self.now) }
    {
        let kept = Arc::try_clone(&self.kept)?;
        Ok(SharedHops { kept })
    }
}

impl PartialEq for SharedHops {
    ghost eq = { pointwise (on hop_key (pointwise nat_eq)) };

    ghost laws = { Prim.search (comparing, rules) };

    #[tactic(auto, using(crate::proofs::HopLaws::same_tests))]
    fn eq(&self, other: &SharedHops) -> bool {
        self.as_slice() == other.as_slice()
    }
}

impl Eq for SharedHops {
    ghost laws = { Prim.search (comparing, rules) };
}
