//! Routers as OSPF has them.
ghost use Rattle.std.proofs.Props.{props};
ghost use Rattle.rc_ospf.specs.Stays.{StaysIn};

use crate::known_walks::KnownWalks;
use crate::member::Areas;
use rc_base::RouterId;

/// A router, as the others have it.
#[derive(Clone, Copy)]
pub(crate) struct Member<'a> {
    pub router: RouterId,
    pub areas: &'a Areas,
    /// The least walks of the network.
    pub walks: &'a KnownWalks,
    ghost stays: { StaysIn walks.now router areas.now.all } by { Prim.hlevel props },
}
