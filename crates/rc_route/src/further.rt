//! Next hops beside that of a best path.
ghost use Rattle.std.specs.Prelude.{◌≡◌, ◌↔◌, [], IfOk, IsTrue, nat_eq};
ghost use Rattle.std.specs.Cmp.Lexicographic.{pointwise};
ghost use Rattle.std.specs.Cmp.Rules.{comparing};
ghost use Rattle.std.proofs.Common.{rules};
ghost use Rattle.rc_route.specs.Further.{kept_addresses};

use rc_base::{Addr, Items};
use std::alloc::{AllocError, Global};
use std::marker::Model;
use std::sync::Arc;

/// The addresses, where there are some. Copies share them.
type Kept = Option<Arc<Items<Addr>, Global>>;

/// Next hops beside that of a best path, seen as the list of their addresses.
///
/// Most prefixes have none, which take no memory, and copies share theirs.
pub struct FurtherHops {
    kept: Kept,
}

/// By a function of its own, so that what holds them drops each by one call.
impl Drop for FurtherHops {
    fn drop(self) {
        let FurtherHops { kept: _ } = self;
    }
}

impl Model for FurtherHops {
    ghost use Rattle.std.specs.Prelude.{List, ℕ};
    ghost use Rattle.rc_route.specs.Further.{kept_addresses};

    ghost Value = { List ℕ };

    ghost view = { λ h. kept_addresses h.kept };
}

/// Addresses again, which both share.
fn share(kept: &Kept) -> Result<Kept, AllocError>
    ensures { IfOk result (λ shared. kept_addresses shared ≡ kept_addresses kept.now) }
{
    match kept {
        None => Ok(None),
        Some(addresses) => {
            let shared = Arc::try_clone(addresses)?;
            Ok(Some(shared))
        }
    }
}

impl FurtherHops {
    /// None. It takes no memory.
    pub fn none() -> FurtherHops
        ensures { result ≡ [] }
    {
        FurtherHops { kept: None }
    }

    /// Those of a list. An empty one takes no memory.
    pub fn of(alloc: Global, addresses: Items<Addr>) -> Result<FurtherHops, AllocError>
        ensures { IfOk result (λ hops. hops ≡ addresses) }
    {
        if addresses.is_empty() {
            return Ok(FurtherHops::none());
        }
        let shared = Arc::new(alloc, addresses)?;
        Ok(FurtherHops { kept: Some(shared) })
    }

    /// Their addresses, in order.
    pub fn as_slice(&self) -> &[Addr]
        ensures { result.now ≡ self.now }
    {
        match &self.kept {
            None => &[],
            Some(addresses) => addresses.as_slice(),
        }
    }

    /// Whether there is none.
    pub fn is_empty(&self) -> bool
        ensures { IsTrue result ↔ (self.now ≡ []) }
    {
        self.as_slice().is_empty()
    }

    /// The same again, which share all of these. It takes no memory, and errs only where as many hold them as can be counted.
    pub fn share(&self) -> Result<FurtherHops, AllocError>
        ensures { IfOk result (λ shared. shared ≡ self.now) }
    {
        let kept = share(&self.kept)?;
        Ok(FurtherHops { kept })
    }
}

impl PartialEq for FurtherHops {
    ghost eq = { pointwise nat_eq };

    ghost laws = { Prim.search (comparing, rules) };

    fn eq(&self, other: &FurtherHops) -> bool {
        self.as_slice() == other.as_slice()
    }
}

impl Eq for FurtherHops {
    ghost laws = { Prim.search (comparing, rules) };
}
