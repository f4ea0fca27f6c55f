//! The hops of a route.
ghost use Rattle.std.specs.Prelude.{◌≡◌, [], ◌∷◌, ◌++◌, ◌↔◌, IsTrue, IfOk, IfSome, OnOk, OnErr, length, nat_eq};
ghost use Rattle.std.specs.Cmp.Lexicographic.{pointwise};
ghost use Rattle.std.proofs.Common.{rules};
ghost use Rattle.std.specs.Cmp.Rules.{comparing};
ghost use Rattle.std.specs.Ordering.{on};
ghost use Rattle.rc_route.specs.Hops.{hop_key};

use crate::Hop;
use rc_base::{IfId, Items};
use std::alloc::{AllocError, Global};
use std::marker::Model;
use std::slice::from_ref;

/// How hops are kept. Most routes have one, which needs no list of its own.
#[derive(Drop)]
enum Kept {
    Nothing,
    One(Hop),
    Several(Items<Hop>),
}

/// The hops of a route, seen as their list. None and one take no memory.
pub struct Hops {
    kept: Kept,
}

/// By a function of its own, so that what holds hops drops them by one call.
impl Drop for Hops {
    fn drop(self) {
        let Hops { kept: _ } = self;
    }
}

impl Model for Hops {
    ghost use Rattle.std.specs.Prelude.{List};
    ghost use Rattle.rc_route.specs.declared.route.Hop.{Hop};
    ghost use Rattle.rc_route.specs.Kept.{hops_kept};

    ghost Value = { List Hop };

    ghost view = { λ h. hops_kept h.kept };
}

/// The hop of a list of one.
fn sole(hops: &[Hop]) -> Option<Hop>
    ensures { IfSome result (λ hop. hops.now ≡ hop ∷ []) }
{
    match hops {
        [hop] => Some(*hop),
        _ => None,
    }
}

/// Two hops as a list.
fn pair(alloc: Global, first: Hop, second: Hop) -> Result<Items<Hop>, AllocError>
    ensures { IfOk result (λ hops. hops ≡ first ∷ second ∷ []) }
{
    let mut hops = Items::new(alloc);
    push_hop(&mut hops, first)?;
    push_hop(&mut hops, second)?;
    Ok(hops)
}

/// Puts a hop at the end of a list.
fn push_hop(hops: &mut Items<Hop>, hop: Hop) -> Result<(), AllocError>
    ensures ok { OnOk result (hops.new ≡ hops.old ++ hop ∷ []) }
    ensures err { OnErr result (hops.new ≡ hops.old) }
{
    // For the proof: that of a push wants each enum within the element named in the function.
    let _interface: Option<IfId> = None;
    hops.push(hop)
}

impl Hops {
    /// No hop. It takes no memory.
    pub fn none() -> Hops
        ensures { result ≡ [] }
    {
        Hops {
            kept: Kept::Nothing,
        }
    }

    /// One hop. It takes no memory.
    pub fn one(hop: Hop) -> Hops
        ensures { result ≡ hop ∷ [] }
    {
        Hops {
            kept: Kept::One(hop),
        }
    }

    /// The hops of a list. It takes no memory, and gives back that of a list of one.
    pub fn from_items(hops: Items<Hop>) -> Hops
        ensures { result ≡ hops }
    {
        let sole = sole(hops.as_slice());
        match sole {
            Some(hop) => Hops::one(hop),
            None => Hops {
                kept: Kept::Several(hops),
            },
        }
    }

    /// The hops, in order.
    pub fn as_slice(&self) -> &[Hop]
        ensures { result.now ≡ self.now }
    {
        match &self.kept {
            Kept::Nothing => &[],
            Kept::One(hop) => from_ref(hop),
            Kept::Several(hops) => hops.as_slice(),
        }
    }

    /// How many there are.
    pub fn len(&self) -> usize
        ensures { result ≡ length self.now }
    {
        self.as_slice().len()
    }

    /// Whether there is none.
    pub fn is_empty(&self) -> bool
        ensures { IsTrue result ↔ (self.now ≡ []) }
    {
        self.as_slice().is_empty()
    }

    /// Puts a hop at the end. Where memory runs out the hops stay as they were.
    pub fn push(&mut self, alloc: Global, hop: Hop) -> Result<(), AllocError>
        ensures ok { OnOk result (self.new ≡ self.old ++ hop ∷ []) }
        ensures err { OnErr result (self.new ≡ self.old) }
    {
        match &mut self.kept {
            Kept::Nothing => {
                self.kept = Kept::One(hop);
                Ok(())
            }
            Kept::One(first) => {
                let both = pair(alloc, *first, hop)?;
                self.kept = Kept::Several(both);
                Ok(())
            }
            Kept::Several(hops) => push_hop(hops, hop),
        }
    }

    /// The hops again, in memory of their own.
    pub fn copy(&self, alloc: Global) -> Result<Hops, AllocError>
        ensures { IfOk result (λ copied. copied ≡ self.now) }
    {
        match &self.kept {
            Kept::Nothing => Ok(Hops::none()),
            Kept::One(hop) => Ok(Hops::one(*hop)),
            Kept::Several(hops) => {
                let hops = hops.copy(alloc)?;
                Ok(Hops {
                    kept: Kept::Several(hops),
                })
            }
        }
    }
}

impl PartialEq for Hops {
    ghost eq = { pointwise (on hop_key (pointwise nat_eq)) };

    ghost laws = { Prim.search (comparing, rules) };

    #[tactic(auto, using(crate::proofs::HopLaws::same_tests))]
    fn eq(&self, other: &Hops) -> bool {
        self.as_slice() == other.as_slice()
    }
}

impl Eq for Hops {
    ghost laws = { Prim.search (comparing, rules) };
}
