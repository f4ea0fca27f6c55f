//! What is there for a prefix, once more.
ghost use Rattle.std.specs.Prelude.{◌≡◌, ◌++◌, IfOk, OnOk};

use rc_base::Items;
use rc_route::{Best, HasPrefix, Route};
use std::alloc::{AllocError, Global};

/// What is there for a prefix, and can be had once more.
pub trait Again: HasPrefix + Drop {
    ghost use Rattle.std.specs.Prelude.{◌≡◌, IfOk};

    /// The same again. It errs only where memory runs out, or as many hold a part that is shared as can be counted.
    fn again(&self, alloc: Global) -> Result<Self, AllocError>
        ensures { IfOk result (λ made. made ≡ self.now) };
}

impl Again for Route {
    #[inline]
    fn again(&self, _alloc: Global) -> Result<Route, AllocError> {
        self.copy()
    }
}

impl Again for Best {
    #[inline]
    fn again(&self, _alloc: Global) -> Result<Best, AllocError> {
        self.copy()
    }
}

/// Puts things at the end of a list, again.
pub(crate) fn append_again<T: Again>(
    alloc: Global,
    made: &mut Items<T>,
    others: &[T],
) -> Result<(), AllocError>
    ensures { OnOk result (made.new ≡ made.old ++ others.now) }
{
    for other in others {
        made.push(other.again(alloc)?)?;
    }
    Ok(())
}
