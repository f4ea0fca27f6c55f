//! A prepared table in the making, to whose end routes are put one by one.
ghost use Rattle.std.specs.Prelude.{◌≡◌, ◌++◌, ◌∷◌, [], All, IfOk, IfSome, List, None, OnOk, Some, true};
ghost use Rattle.rc_base.specs.Prefix.{IsCidr};
ghost use Rattle.rc_fib.specs.Entries.{IsFib};
ghost use Rattle.rc_fib.specs.Forwarding.{resolved};
ghost use Rattle.rc_fib.specs.Making.{IsMadeOf};
ghost use Rattle.rc_route.specs.Tables.{IsTable};
ghost use Rattle.rc_route.specs.declared.route.Route.{Route as OneRoute};

use crate::Fib;
use crate::growing::{Growing, hops_behind, is_alone, is_plain_with};
use crate::stretch::Stretch;
use rc_base::{Items, Prefix};
use rc_route::SharedHops;
use std::alloc::{AllocError, Global};
use std::mem::replace;

/// A table that is prepared while its routes come one by one, each by its prefix and its hops. Routes side by side that have the same hops are
/// one run, whose hops are kept once.
pub struct FibMaking {
    prefixes: Items<Prefix>,
    stretches: Items<Stretch>,
    /// Whether each hop of the stretches says where a packet goes, with no look-up.
    is_plain: bool,
    /// The hops of the run behind the stretches, if there is one.
    hops: Option<SharedHops>,
}

/// By a function of its own, so that what holds such a table drops it by one call.
impl Drop for FibMaking {
    fn drop(self) {
        let FibMaking {
            prefixes: _,
            stretches: _,
            is_plain: _,
            hops: _,
        } = self;
    }
}

/// Whether hops are the same as others. Mostly that is one hop, which is told from another in a few steps.
#[inline]
#[tactic(auto, using(rc_route::proofs::HopLaws::hops_decide))]
fn are_same(known: &SharedHops, hops: &SharedHops) -> bool
    ensures { result ≡ true → known.now ≡ hops.now }
{
    match known.as_slice() {
        [only] => is_alone(only, hops.as_slice()),
        _ => *known == *hops,
    }
}

/// Whether hops are there, and are the same as others.
#[inline]
fn are(known: &Option<SharedHops>, hops: &SharedHops) -> bool
    ensures { result ≡ true → known.now ≡ Some hops.now }
{
    match known {
        Some(known) => are_same(known, hops),
        None => false,
    }
}

/// Puts a prefix at the end.
fn push_prefix(prefixes: &mut Items<Prefix>, prefix: Prefix) -> Result<(), AllocError>
    ensures { OnOk result ((prefixes.new ≡ prefixes.old ++ prefix ∷ []) × (All IsCidr prefixes.old → All IsCidr prefixes.new)) }
{
    // For the proof: reading the network tells that the prefix is one.
    let _network = prefix.network();
    prefixes.push(prefix)
}

impl FibMaking {
    /// No route yet, and room for so many. It errs only where memory runs out.
    pub fn with_room(alloc: Global, count: usize) -> Result<FibMaking, AllocError>
        ensures { IfOk result (IsMadeOf []) }
    {
        let prefixes = Items::with_room(alloc, count)?;
        Ok(FibMaking {
            prefixes,
            stretches: Items::new(alloc),
            is_plain: true,
            hops: None,
        })
    }

    /// Closes the run behind the stretches, if there is one.
    fn close(&mut self, alloc: Global) -> Result<(), AllocError>
        ensures routes { OnOk result ((routes : List OneRoute) → IsMadeOf routes self.old → IsMadeOf routes self.new) }
        ensures none { OnOk result (self.new.hops ≡ None) }
    {
        let Some(hops) = replace(&mut self.hops, None) else {
            return Ok(());
        };
        self.is_plain = is_plain_with(self.is_plain, hops.as_slice());
        let hops = hops_behind(alloc, &Fib::none(alloc), &hops)?;
        let end = self.prefixes.len();
        self.stretches.push(Stretch { end, hops })
    }

    /// Puts a route with other hops than the one before it at the end.
    #[inline(never)]
    fn begin(&mut self, alloc: Global, prefix: Prefix, hops: &SharedHops) -> Result<(), AllocError>
        ensures { OnOk result ((routes : List OneRoute) (r : OneRoute) → IsMadeOf routes self.old → r.prefix ≡ prefix → r.hops ≡ hops.now → IsMadeOf (routes ++ r ∷ []) self.new) }
    {
        self.close(alloc)?;
        self.hops = Some(hops.share()?);
        push_prefix(&mut self.prefixes, prefix)
    }

    /// Puts a route at the end. It errs only where memory runs out, or as many share its hops as can be counted.
    #[inline(always)]
    pub fn push(
        &mut self,
        alloc: Global,
        prefix: Prefix,
        hops: &SharedHops,
    ) -> Result<(), AllocError>
        ensures { OnOk result ((routes : List OneRoute) (r : OneRoute) → IsMadeOf routes self.old → r.prefix ≡ prefix → r.hops ≡ hops.now → IsMadeOf (routes ++ r ∷ []) self.new) }
    {
        if are(&self.hops, hops) {
            return push_prefix(&mut self.prefixes, prefix);
        }
        self.begin(alloc, prefix, hops)
    }

    /// The prefixes, the runs that are closed, and whether each of their hops says where a packet goes.
    fn into_growing(self) -> Growing
        ensures { result ≡ record { prefixes = self.prefixes; stretches = self.stretches; is_plain = self.is_plain } }
    {
        let FibMaking {
            prefixes,
            stretches,
            is_plain,
            hops: _,
        } = self;
        Growing {
            prefixes,
            stretches,
            is_plain,
        }
    }

    /// The table of the routes, where each of their hops says where a packet goes; else the gateways of some want to be looked up in the whole
    /// of it. It errs only where memory runs out.
    pub fn finish(self, alloc: Global) -> Result<Option<Fib>, AllocError>
        requires { (routes : List OneRoute) × IsTable routes × IsMadeOf routes self }
        ensures value { IfOk result (λ made. IfSome made (λ fib. (routes : List OneRoute) → IsTable routes → IsMadeOf routes self → fib ≡ resolved routes)) }
        ensures in_order { IfOk result (λ made. IfSome made IsFib) }
    {
        let mut made = self;
        made.close(alloc)?;
        let (fib, is_plain) = Fib::grown(made.into_growing());
        if is_plain { Ok(Some(fib)) } else { Ok(None) }
    }
}
