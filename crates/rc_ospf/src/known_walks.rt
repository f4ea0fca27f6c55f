//! The least walks by which OSPF answers.
ghost use Rattle.std.specs.Prelude.{◌≡◌, ◌≤◌, false, IfOk, All};
ghost use Rattle.rc_link_state.specs.Adjacency.{adjacencies};
ghost use Rattle.rc_link_state.specs.Tables.{AreWalksOf, AreWalksTo, IsFit};

use crate::OspfInterface;
use rc_link_state::{End, WalkTable};
use rc_topology::Links;
use std::alloc::{AllocError, Global};
use std::thread::Threads;

/// The least walks by which OSPF answers.
pub(crate) struct KnownWalks {
    pub table: WalkTable,
    /// Whether the table tells those to all routers, and not to some of them alone.
    pub are_all: bool,
}

/// By a function of its own, so that what holds them drops them by one call.
impl Drop for KnownWalks {
    fn drop(self) {
        let KnownWalks {
            table: _,
            are_all: _,
        } = self;
    }
}

impl KnownWalks {
    /// The least walks of so many routers, of which these are the OSPF interfaces, to all of them. The workers share the work. It errs
    /// only where memory runs out.
    pub fn to_all<R: Threads + Sync>(
        rt: &R,
        alloc: Global,
        routers: usize,
        links: &Links,
        interfaces: &[OspfInterface],
        workers: u32,
    ) -> Result<KnownWalks, AllocError>
        requires few { routers ≤ 512 }
        requires fit { All (IsFit routers) interfaces.now }
        ensures { IfOk result (λ w. AreWalksOf (adjacencies links.now interfaces.now) routers w.table) }
    {
        let table = WalkTable::to_all(rt, alloc, routers, links, interfaces, workers)?;
        Ok(KnownWalks {
            table,
            are_all: true,
        })
    }

    /// The same to some of them alone.
    pub fn to_ends<R: Threads + Sync>(
        rt: &R,
        alloc: Global,
        routers: usize,
        links: &Links,
        interfaces: &[OspfInterface],
        ends: &[End],
        workers: u32,
    ) -> Result<KnownWalks, AllocError>
        requires few { routers ≤ 512 }
        requires fit { All (IsFit routers) interfaces.now }
        ensures walks { IfOk result (λ w. AreWalksTo (adjacencies links.now interfaces.now) routers ends.now w.table) }
        ensures some { IfOk result (λ w. w.are_all ≡ false) }
    {
        let table = WalkTable::to_ends(rt, alloc, routers, links, interfaces, ends, workers)?;
        Ok(KnownWalks {
            table,
            are_all: false,
        })
    }
}
