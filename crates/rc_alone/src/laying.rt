//! The connected routes of a router, laid over its routes by OSPF as these come.
ghost use Rattle.std.specs.Prelude.{◌≡◌, ◌≢◌, ◌==◌, ◌&&◌, ◌||◌, ◌∷◌, ℕ, [], IfOk, IfSome, List, MatchOption, OnOk, Some, nat_lt, true};
ghost use Rattle.rc_base.specs.Prefix.{prefix_cmp};
ghost use Rattle.rc_fib.specs.Making.{IsMadeOf};
ghost use Rattle.rc_alone.specs.Laying.{GoesOn, IsLaid, IsLaidAs, front_order, ospf_route};
ghost use Rattle.rc_fib.specs.Entries.{IsFib};
ghost use Rattle.rc_fib.specs.Forwarding.{resolved};
ghost use Rattle.rc_route.specs.Hops.{source_rank};
ghost use Rattle.rc_route.specs.declared.route.Route.{Route as OneRoute};

use rc_base::Prefix;
use rc_fib::{Fib, FibMaking};
use rc_ospf::TakesRoutes;
use rc_route::{Route, SharedHops, Source, Table, compare_sources};
use std::alloc::{AllocError, Global};
use std::cmp::Ordering;
use std::collections::VecDeque;

/// A table in the making, and the connected routes that are left, by address, then length.
pub(crate) struct Laying {
    pub connected: VecDeque<Route>,
    pub made: FibMaking,
}

/// By a function of its own, so that what holds one drops it by one call.
impl Drop for Laying {
    fn drop(self) {
        let Laying {
            connected: _,
            made: _,
        } = self;
    }
}

/// Whether the first of some routes, if there is one, stands behind a prefix.
#[inline(always)]
fn are_behind(left: &VecDeque<Route>, prefix: &Prefix) -> bool
    ensures { result ≡ true → (front_order left.now.items prefix.now ≢ Some Ordering.Less) × (front_order left.now.items prefix.now ≢ Some Ordering.Equal) }
{
    match left.front() {
        Some(front) => front.prefix.cmp(prefix) == Ordering::Greater,
        None => true,
    }
}

/// The first of some routes, where its prefix stands before another one.
fn take_before(left: &mut VecDeque<Route>, prefix: &Prefix) -> Option<Route>
    ensures { MatchOption result ((front_order left.old.items prefix.now ≢ Some Ordering.Less) × (left.new.items ≡ left.old.items)) (λ route. (prefix_cmp route.prefix prefix.now ≡ Ordering.Less) × (left.old.items ≡ route ∷ left.new.items)) }
{
    match left.front() {
        Some(front) if front.prefix.cmp(prefix) == Ordering::Less => left.pop_front(),
        _ => None,
    }
}

/// The first of some routes, where its prefix is this one.
fn take_at(left: &mut VecDeque<Route>, prefix: &Prefix) -> Option<Route>
    ensures { MatchOption result ((front_order left.old.items prefix.now ≢ Some Ordering.Equal) × (left.new.items ≡ left.old.items)) (λ route. (prefix_cmp route.prefix prefix.now ≡ Ordering.Equal) × (left.old.items ≡ route ∷ left.new.items)) }
{
    match left.front() {
        Some(front) if front.prefix.cmp(prefix) == Ordering::Equal => left.pop_front(),
        _ => None,
    }
}

/// The first of some routes, or `None` exactly where there are none.
fn take_first(left: &mut VecDeque<Route>) -> Option<Route>
    ensures { MatchOption result (left.old.items ≡ []) (λ route. left.old.items ≡ route ∷ left.new.items) }
{
    left.pop_front()
}

/// Whether a route of OSPF is preferred to another one.
fn is_preferred(source: Source, other: &Route) -> bool
    ensures { result ≡ (nat_lt 110 other.now.distance || ((110 == other.now.distance) && nat_lt (source_rank source) (source_rank other.now.source))) }
{
    110 < other.distance
        || (110 == other.distance && compare_sources(source, other.source) == Ordering::Less)
}

impl Laying {
    /// Connected routes over no other one yet, of which there are so many at most.
    pub fn of(alloc: Global, connected: Table, most: usize) -> Result<Laying, AllocError>
        ensures connected { IfOk result (λ l. l.connected.items ≡ connected) }
        ensures made { IfOk result (λ l. IsMadeOf [] l.made) }
    {
        let made = FibMaking::with_room(alloc, connected.len().saturating_add(most))?;
        Ok(Laying {
            connected: VecDeque::from(connected.into_vec()),
            made,
        })
    }

    /// Puts the connected routes before a prefix at the end.
    fn put_before(&mut self, alloc: Global, prefix: &Prefix) -> Result<(), AllocError>
        ensures order { OnOk result (front_order self.new.connected.items prefix.now ≢ Some Ordering.Less) }
        ensures whole { OnOk result ((r : OneRoute) → r.prefix ≡ prefix.now → GoesOn self.old self.new (r ∷ []) (r ∷ [])) }
    {
        while let Some(route) = take_before(&mut self.connected, prefix) {
            self.made.push(alloc, route.prefix, &route.hops)?;
        }
        Ok(())
    }

    /// Puts a route of OSPF at the end, or the connected one of its prefix, if that is preferred.
    fn put_at(
        &mut self,
        alloc: Global,
        prefix: Prefix,
        source: Source,
        hops: &SharedHops,
    ) -> Result<(), AllocError>
        requires { front_order self.old.connected.items prefix ≢ Some Ordering.Less }
        ensures { OnOk result ((metric : ℕ) → GoesOn self.old self.new (ospf_route prefix source metric hops.now ∷ []) []) }
    {
        let Some(route) = take_at(&mut self.connected, &prefix) else {
            return self.made.push(alloc, prefix, hops);
        };
        if is_preferred(source, &route) {
            return self.made.push(alloc, prefix, hops);
        }
        self.made.push(alloc, route.prefix, &route.hops)
    }

    /// Puts the connected routes before a route of OSPF at the end, and it or that of its prefix behind them.
    #[inline(never)]
    fn put_among(
        &mut self,
        alloc: Global,
        prefix: Prefix,
        source: Source,
        hops: &SharedHops,
    ) -> Result<(), AllocError>
        ensures { OnOk result ((metric : ℕ) → GoesOn self.old self.new (ospf_route prefix source metric hops.now ∷ []) []) }
    {
        self.put_before(alloc, &prefix)?;
        self.put_at(alloc, prefix, source, hops)
    }

    /// The prepared table of what was made and the connected routes that are left: nothing where a gateway wants to be looked up in it. It errs
    /// only where memory runs out.
    pub fn finish(self, alloc: Global) -> Result<Option<Fib>, AllocError>
        requires { IsLaid self }
        ensures value { IfOk result (λ made. IfSome made (λ fib. (table : List OneRoute) → IsLaidAs table self → fib ≡ resolved table)) }
        ensures in_order { IfOk result (λ made. IfSome made IsFib) }
    {
        let Laying {
            connected,
            mut made,
        } = self;
        let mut left = connected;
        while let Some(route) = take_first(&mut left) {
            made.push(alloc, route.prefix, &route.hops)?;
        }
        made.finish(alloc)
    }
}

impl TakesRoutes for Laying {
    ghost use Rattle.rc_alone.specs.Laying.{Becomes};

    ghost becomes = { Becomes };

    #[inline(always)]
    fn take(
        &mut self,
        alloc: Global,
        prefix: Prefix,
        source: Source,
        _metric: u32,
        hops: &SharedHops,
    ) -> Result<(), AllocError> {
        if are_behind(&self.connected, &prefix) {
            return self.made.push(alloc, prefix, hops);
        }
        self.put_among(alloc, prefix, source, hops)
    }
}
