//! AS paths (RFC 4271 s.5.1.2).
ghost use Rattle.std.specs.Prelude.{◌≡◌, ◌==◌, [], ◌∷◌, ◌++◌, IfOk, length, nat_eq, slice_get};
ghost use Rattle.std.specs.List.{list_any};
ghost use Rattle.std.specs.Cmp.Lexicographic.{pointwise};
ghost use Rattle.std.specs.Cmp.Rules.{comparing};
ghost use Rattle.std.proofs.Common.{rules};

use crate::segment::{self, Tail};
use std::alloc::{AllocError, Global};
use std::marker::Model;

/// An AS path (RFC 4271 s.5.1.2), seen as the list of its AS numbers, the nearest first.
///
/// A path that was made of another one shares its numbers: 800,000 paths of a chain of 200 routers hold 800,000 numbers, and not
/// 54 million.
pub struct AsPath {
    front: Tail,
}

/// By a function of its own, so that what holds paths drops each by one call.
impl Drop for AsPath {
    fn drop(self) {
        let AsPath { front: _ } = self;
    }
}

impl Model for AsPath {
    ghost use Rattle.std.specs.Prelude.{ℕ, List};
    ghost use Rattle.rc_as_path.specs.Numbers.{numbers};

    ghost Value = { List ℕ };

    ghost view = { λ p. numbers p.front };
}

impl AsPath {
    /// The path of what is originated here. It takes no memory.
    pub fn empty() -> AsPath
        ensures { result ≡ [] }
    {
        AsPath { front: None }
    }

    /// How many numbers it has, at once.
    pub fn len(&self) -> usize
        ensures { result ≡ length self.now }
    {
        segment::len(&self.front) as usize
    }

    /// The nearest AS, or `None` exactly where the path is empty.
    pub fn first(&self) -> Option<u32>
        ensures { result ≡ slice_get self.now 0 }
    {
        segment::first(&self.front)
    }

    /// Whether an AS is on it: RFC 4271 s.9.1.2 has a router refuse a path that holds its own AS. The numbers are read in their order, 16 beside each other.
    pub fn holds(&self, asn: u32) -> bool
        ensures { result ≡ list_any (λ a. a == asn) self.now }
    {
        segment::holds(&self.front, asn)
    }

    /// The path again, which shares all of this one. It takes no memory, and errs only where as many hold the path as can be
    /// counted.
    pub fn share(&self) -> Result<AsPath, AllocError>
        ensures { IfOk result (λ shared. shared ≡ self.now) }
    {
        let front = segment::share(&self.front)?;
        Ok(AsPath { front })
    }

    /// The path with one AS in front (RFC 4271 s.5.1.2), which shares all of this one. It errs only where memory runs out, or
    /// behind 2^32 - 1 numbers.
    pub fn prepend(&self, alloc: Global, asn: u32) -> Result<AsPath, AllocError>
        ensures { IfOk result (λ made. made ≡ asn ∷ self.now) }
    {
        let front = segment::behind(alloc, asn, &self.front)?;
        Ok(AsPath { front })
    }

    /// The path with numbers in front, in their order, which shares all of this one. It errs as `prepend` does.
    pub fn prepend_all(&self, alloc: Global, numbers: &[u32]) -> Result<AsPath, AllocError>
        ensures { IfOk result (λ made. made ≡ numbers.now ++ self.now) }
    {
        let mut path = self.share()?;
        for asn in numbers.iter().rev() {
            path = path.prepend(alloc, *asn)?;
        }
        Ok(path)
    }
}

impl PartialEq for AsPath {
    ghost eq = { pointwise nat_eq };

    ghost laws = { Prim.search (comparing, rules) };

    fn eq(&self, other: &AsPath) -> bool {
        segment::is_same(&self.front, &other.front)
    }
}

impl Eq for AsPath {
    ghost laws = { Prim.search (comparing, rules) };
}
