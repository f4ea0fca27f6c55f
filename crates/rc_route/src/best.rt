//! The best path of a prefix, and the next hops that go with it.
ghost use Rattle.std.specs.Prelude.{◌≡◌, ◌↔◌, IfOk, IsTrue};
ghost use Rattle.rc_route.specs.Best.{alone};

use crate::{FurtherHops, KeptPath};
use std::alloc::AllocError;

/// What a router chose for a prefix: the best path, which it tells others, and the next hops of further paths over which it sends
/// packets as well (multipath).
pub struct Best {
    pub path: KeptPath,
    /// Beside the path's own next hop.
    pub also: FurtherHops,
}

/// By a function of its own, so that what holds them drops each by one call.
impl Drop for Best {
    fn drop(self) {
        let Best { path: _, also: _ } = self;
    }
}

impl Best {
    /// A best path without further next hops. It takes no memory.
    pub fn alone(path: KeptPath) -> Best
        ensures { result ≡ alone path }
    {
        Best {
            path,
            also: FurtherHops::none(),
        }
    }

    /// The same again, which shares all of this one but the prefix. It takes no memory, and errs only where as many hold that as can be
    /// counted.
    #[inline]
    pub fn copy(&self) -> Result<Best, AllocError>
        ensures { IfOk result (λ copied. copied ≡ self.now) }
    {
        let path = self.path.share()?;
        let also = self.also.share()?;
        Ok(Best { path, also })
    }

    /// Whether two are the same, in all that they hold.
    pub fn is_same(&self, other: &Best) -> bool
        ensures { IsTrue result ↔ (self.now ≡ other.now) }
    {
        self.path.is_same(&other.path) && self.also == other.also
    }
}
