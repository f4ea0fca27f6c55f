//! Hops in the order in which they come, each once.
ghost use Rattle.std.specs.Prelude.{◌≡◌, [], IfOk, OnOk};
ghost use Rattle.std.specs.List.{list_any};
ghost use Rattle.indexmap.specs.IndexSet.{insert_key};
ghost use Rattle.rc_base.specs.Lists.{first_seen};
ghost use Rattle.rc_route.specs.Hops as spec;

use crate::seen::Seen;
use rc_route::{Hop, Hops, same_hop};
use std::alloc::{AllocError, Global};
use std::marker::Model;

/// How many hops are told apart by going over them. Beyond that a set does it, since a prefix may have any number of lines.
const FEW: usize = 8;

/// How the hops are kept.
#[derive(Drop)]
enum Found {
    Few(Hops),
    Many(Seen),
}

/// Hops in the order in which they came, each once, seen as their list.
pub(crate) struct HopSet {
    found: Found,
}

/// By a function of its own, so that what holds such a set drops it by one call.
impl Drop for HopSet {
    fn drop(self) {
        let HopSet { found: _ } = self;
    }
}

impl Model for HopSet {
    ghost use Rattle.std.specs.Prelude.{List, ◌≡◌};
    ghost use Rattle.rc_base.specs.Lists.{first_seen};
    ghost use Rattle.rc_route.specs.Hops.{same_hop};
    ghost use Rattle.rc_route.specs.declared.route.Hop.{Hop};
    ghost use Rattle.rc_fib.specs.Found.{hops_found};

    ghost Value = { List Hop };

    ghost view = { λ s. hops_found s.found };

    ghost invariant = { λ s. first_seen same_hop (hops_found s.found) ≡ hops_found s.found };
}

/// Whether a hop is among these.
fn is_among(hops: &[Hop], hop: &Hop) -> bool
    ensures { result ≡ list_any (spec.same_hop hop.now) hops.now }
{
    hops.iter().any(|other| same_hop(hop, other))
}

/// These hops and one more as a set.
fn seen_with(alloc: Global, hops: &[Hop], hop: Hop) -> Result<Seen, AllocError>
    ensures { IfOk result (λ seen. seen ≡ insert_key spec.same_hop (first_seen spec.same_hop hops.now) hop) }
{
    let mut seen = Seen::of(alloc, hops)?;
    seen.insert(hop)?;
    Ok(seen)
}

impl HopSet {
    /// No hop. It takes no memory.
    pub fn new() -> HopSet
        ensures { result ≡ [] }
    {
        HopSet {
            found: Found::Few(Hops::none()),
        }
    }

    /// Puts a hop at the end, where it doesn't stand there already.
    pub fn insert(&mut self, alloc: Global, hop: Hop) -> Result<(), AllocError>
        ensures { OnOk result (self.new ≡ insert_key spec.same_hop self.old hop) }
    {
        match &mut self.found {
            Found::Few(hops) => {
                if is_among(hops.as_slice(), &hop) {
                    return Ok(());
                }
                if hops.len() < FEW {
                    return hops.push(alloc, hop);
                }
                let seen = seen_with(alloc, hops.as_slice(), hop)?;
                self.found = Found::Many(seen);
                Ok(())
            }
            Found::Many(seen) => seen.insert(hop),
        }
    }

    /// The hops as a list. It errs only where memory runs out.
    pub fn into_hops(self, alloc: Global) -> Result<Hops, AllocError>
        ensures { IfOk result (λ hops. hops ≡ self) }
    {
        let HopSet { found } = self;
        match found {
            Found::Few(hops) => Ok(hops),
            Found::Many(seen) => seen.listed(alloc),
        }
    }
}
