//! Routes and their hops.

ghost use Rattle.std.specs.Prelude.{◌≡◌, ◌↔◌, IfOk, IsTrue};
ghost use Rattle.std.specs.Ordering.{nat_cmp};
ghost use Rattle.rc_route.specs.Hops.{hop_cmp, same_hop, source_rank};

use crate::SharedHops;
use rc_base::{Addr, IfId, Items, Prefix};
use std::alloc::AllocError;
use std::cmp::Ordering;

/// Where a route leads.
///
/// The order is that in which the hops of a route stand: null, then hops without a gateway, then by the gateway's address;
/// at one gateway the hop without an interface first, then interfaces as declared.
#[derive(Clone, Copy, PartialEq, Eq, PartialOrd, Ord, Hash)]
pub enum Hop {
    /// The packet is dropped.
    Null,
    /// Out of an interface, to the destination itself.
    Dev(IfId),
    /// To a gateway, over an interface where one is named.
    Via(Addr, Option<IfId>),
}

/// Where a route comes from. At one administrative distance the source that stands first is preferred.
#[derive(Clone, Copy, PartialEq, Eq, PartialOrd, Ord)]
pub enum Source {
    /// A prefix of an interface of the router.
    Connected,
    /// A line `ip route`.
    Static,
    /// A BGP path from another AS (RFC 4271).
    Ebgp,
    /// OSPF within an area (RFC 2328 s.16.1).
    Ospf,
    /// OSPF between areas (RFC 2328 s.16.2).
    OspfIa,
    /// OSPF external of type 1 (RFC 2328 s.16.4).
    OspfE1,
    /// OSPF external of type 2 (RFC 2328 s.16.4).
    OspfE2,
    /// A BGP path from the router's own AS (RFC 4271).
    Ibgp,
}

/// A route of a table.
#[derive(PartialEq, Eq)]
pub struct Route {
    pub prefix: Prefix,
    pub source: Source,
    /// The administrative distance, from 0 to 255: of the routes to one prefix the least is used.
    pub distance: u8,
    pub metric: u32,
    /// In their order, each once.
    pub hops: SharedHops,
}

/// By a function of its own, so that what holds routes drops each by one call.
impl Drop for Route {
    fn drop(self) {
        let Route {
            prefix: _,
            source: _,
            distance: _,
            metric: _,
            hops: _,
        } = self;
    }
}

/// A route table: one route for each prefix, by address, then length.
pub type Table = Items<Route>;

impl Route {
    /// The route again, which shares the hops of this one. It takes no memory, and errs only where as many share them as can be counted.
    pub fn copy(&self) -> Result<Route, AllocError>
        ensures { IfOk result (λ copied. copied ≡ self.now) }
    {
        let hops = self.hops.share()?;
        Ok(Route {
            prefix: self.prefix,
            source: self.source,
            distance: self.distance,
            metric: self.metric,
            hops,
        })
    }
}

/// Hops in the order in which those of a route stand, which is that of `Hop` as a key of std's maps and sorts too.
pub fn compare_hops(a: &Hop, b: &Hop) -> Ordering
    ensures { result ≡ hop_cmp a.now b.now }
{
    a.cmp(b)
}

/// Whether two hops are the same, which is the derived `==` too.
#[tactic(auto, using(crate::proofs::HopLaws::same_test))]
pub fn same_hop(a: &Hop, b: &Hop) -> bool
    ensures value { result ≡ same_hop a.now b.now }
    ensures decides { IsTrue result ↔ (a.now ≡ b.now) }
{
    a == b
}

/// Sources in the order of preference at one administrative distance, which is that of `Source` too.
pub fn compare_sources(a: Source, b: Source) -> Ordering
    ensures { result ≡ nat_cmp (source_rank a) (source_rank b) }
{
    a.cmp(&b)
}
