//! Sets of BGP communities.
ghost use Rattle.std.specs.Prelude.{◌≡◌, [], ◌↔◌, IfOk, IsTrue, OnOk, nat_eq};
ghost use Rattle.std.specs.Cmp.Lexicographic.{pointwise};
ghost use Rattle.std.specs.Cmp.Rules.{comparing};
ghost use Rattle.std.specs.List.Sorted.{IsStrictlySortedBy};
ghost use Rattle.std.specs.Ordering.{nat_cmp};
ghost use Rattle.std.proofs.Common.{rules};
ghost use Rattle.rc_base.specs.Communities.{community_set, has_all, has_community, joined, kept_numbers};

use crate::Items;
use std::alloc::{AllocError, Global};
use std::marker::Model;
use std::sync::Arc;

/// The numbers of a set, where it has some. Sets that were copied of one another share them.
type Kept = Option<Arc<Items<u32>, Global>>;

/// A set of communities (RFC 1997), seen as the list of their 32-bit numbers, rising, each once.
///
/// Most paths have none, which take no memory, and those that were made of one path share theirs.
pub struct Communities {
    kept: Kept,
}

/// By a function of its own, so that what holds sets drops each by one call.
impl Drop for Communities {
    fn drop(self) {
        let Communities { kept: _ } = self;
    }
}

impl Model for Communities {
    ghost use Rattle.std.specs.Prelude.{List, ℕ};
    ghost use Rattle.std.specs.List.Sorted.{IsStrictlySortedBy};
    ghost use Rattle.std.specs.Ordering.{nat_cmp};
    ghost use Rattle.rc_base.specs.Communities.{kept_numbers};

    ghost Value = { List ℕ };

    ghost view = { λ c. kept_numbers c.kept };

    ghost invariant = { λ c. IsStrictlySortedBy nat_cmp (kept_numbers c.kept) };
}

/// The numbers that RFC 1997 gives to the well-known communities, written as `AS:value`.
const _: () = prove!(Communities::NO_EXPORT == 65_535 * 65_536 + 65_281);

const _: () = prove!(Communities::NO_ADVERTISE == 65_535 * 65_536 + 65_282);

const _: () = prove!(Communities::NO_EXPORT_SUBCONFED == 65_535 * 65_536 + 65_283);

/// Puts numbers in rising order, each once. It errs only where memory runs out.
fn settle(numbers: &mut Vec<u32>) -> Result<(), AllocError>
    ensures { OnOk result (numbers.new.items ≡ community_set numbers.old.items) }
{
    numbers.sort()?;
    numbers.dedup();
    Ok(())
}

/// Numbers to share, where there are some.
fn keep(numbers: Vec<u32>) -> Result<Kept, AllocError>
    ensures { IfOk result (λ kept. kept_numbers kept ≡ numbers.items) }
{
    if numbers.is_empty() {
        return Ok(None);
    }
    let alloc = *numbers.allocator();
    let shared = Arc::new(alloc, Items::from_vec(numbers))?;
    Ok(Some(shared))
}

/// Numbers again, which both share.
fn share(kept: &Kept) -> Result<Kept, AllocError>
    ensures { IfOk result (λ shared. kept_numbers shared ≡ kept_numbers kept.now) }
{
    match kept {
        None => Ok(None),
        Some(numbers) => {
            let shared = Arc::try_clone(numbers)?;
            Ok(Some(shared))
        }
    }
}

impl Communities {
    /// A route with this community isn't sent to a peer in another AS (RFC 1997).
    pub const NO_EXPORT: u32 = 0xffff_ff01;

    /// A route with this community is sent to no peer (RFC 1997).
    pub const NO_ADVERTISE: u32 = 0xffff_ff02;

    /// A route with this community isn't sent to a peer in another AS, nor to one in another member of a confederation
    /// (RFC 1997).
    pub const NO_EXPORT_SUBCONFED: u32 = 0xffff_ff03;

    /// No community. It takes no memory.
    #[tactic(auto, using(crate::proofs::CommunityLaws::none_rise))]
    pub fn none() -> Communities
        ensures { result ≡ [] }
    {
        Communities { kept: None }
    }

    /// The communities of these numbers, in whatever order they come. It errs only where memory runs out.
    #[tactic(auto, using(crate::proofs::CommunityLaws::set_rises))]
    pub fn of(numbers: Vec<u32>) -> Result<Communities, AllocError>
        ensures { IfOk result (λ made. made ≡ community_set numbers.items) }
    {
        let mut numbers = numbers;
        settle(&mut numbers)?;
        let kept = keep(numbers)?;
        Ok(Communities { kept })
    }

    /// Their numbers, rising, each once.
    pub fn as_slice(&self) -> &[u32]
        ensures numbers { result.now ≡ self.now }
        ensures rising { IsStrictlySortedBy nat_cmp self.now }
    {
        match &self.kept {
            None => &[],
            Some(numbers) => numbers.as_slice(),
        }
    }

    /// Whether there is none.
    pub fn is_empty(&self) -> bool
        ensures { IsTrue result ↔ (self.now ≡ []) }
    {
        self.as_slice().is_empty()
    }

    /// Whether a number is one of them, by bisection.
    pub fn has(&self, number: u32) -> bool
        ensures { result ≡ has_community self.now number }
    {
        self.as_slice().binary_search(&number).is_ok()
    }

    /// Whether each community of the other set is one of these.
    pub fn includes(&self, other: &Communities) -> bool
        ensures { result ≡ has_all self.now other.now }
    {
        other.as_slice().iter().all(|number| self.has(*number))
    }

    /// Those of either set. It errs only where memory runs out.
    pub fn union(&self, alloc: Global, other: &Communities) -> Result<Communities, AllocError>
        ensures { IfOk result (λ made. made ≡ joined self.now other.now) }
    {
        // Two rising runs one behind the other, which the sort puts into one.
        let mut numbers = Vec::from_slice(alloc, self.as_slice())?;
        numbers.extend_from_slice(other.as_slice())?;
        Communities::of(numbers)
    }

    /// The set again, which shares all of this one. It takes no memory, and errs only where as many hold its numbers as can be
    /// counted.
    pub fn share(&self) -> Result<Communities, AllocError>
        ensures { IfOk result (λ shared. shared ≡ self.now) }
    {
        let kept = share(&self.kept)?;
        Ok(Communities { kept })
    }
}

impl PartialEq for Communities {
    ghost eq = { pointwise nat_eq };

    ghost laws = { Prim.search (comparing, rules) };

    fn eq(&self, other: &Communities) -> bool {
        self.as_slice() == other.as_slice()
    }
}

impl Eq for Communities {
    ghost laws = { Prim.search (comparing, rules) };
}
