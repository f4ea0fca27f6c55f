//! The routes of a router in a list.
ghost use Rattle.std.specs.Prelude.{◌≡◌, [], All, IfOk};
ghost use Rattle.rc_ospf.specs.Routes.{IsShortRoute};

use crate::TakesRoutes;
use rc_base::Prefix;
use rc_pieces::{Filling, Pieces};
use rc_route::{Route, SharedHops, Source};
use std::alloc::{AllocError, Global};

/// Routes as they are taken, in one list.
pub(crate) struct Listing {
    pub routes: Filling<Route>,
}

/// By a function of its own, so that what holds one drops it by one call.
impl Drop for Listing {
    fn drop(self) {
        let Listing { routes: _ } = self;
    }
}

impl TakesRoutes for Listing {
    ghost use Rattle.std.specs.Prelude.{◌≡◌, ◌++◌, All};
    ghost use Rattle.rc_ospf.specs.Routes.{IsShortRoute};

    ghost becomes = { λ start routes now. (now.routes ≡ start.routes ++ routes) × (All IsShortRoute start.routes → All IsShortRoute now.routes) };

    #[inline(always)]
    fn take(
        &mut self,
        alloc: Global,
        prefix: Prefix,
        source: Source,
        metric: u32,
        hops: &SharedHops,
    ) -> Result<(), AllocError> {
        let route = Route {
            prefix,
            source,
            distance: 110,
            metric,
            hops: hops.share()?,
        };
        self.routes.push(alloc, route)
    }
}

impl Listing {
    /// No route yet, and room for so many. It errs only where memory runs out.
    pub fn with_room(alloc: Global, routes: usize) -> Result<Listing, AllocError>
        ensures { IfOk result (λ listing. listing.routes ≡ []) }
    {
        let routes = Filling::with_room(alloc, routes)?;
        Ok(Listing { routes })
    }

    /// The list. It errs only where memory runs out.
    pub fn finish(self, alloc: Global) -> Result<Pieces<Route>, AllocError>
        ensures { IfOk result (λ routes. routes ≡ self.routes) }
    {
        let Listing { routes } = self;
        routes.finish(alloc)
    }
}
