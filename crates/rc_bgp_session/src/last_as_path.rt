//! The AS path that was put together last.
ghost use Rattle.std.specs.Prelude.{◌≡◌, ◌∷◌, IfOk, IfSome, IsTrue};

use rc_as_path::AsPath;
use std::alloc::{AllocError, Global};

/// An AS path behind an AS, kept for the next one: paths of one origin mostly stand side by side, and then share what stands in memory.
struct Kept {
    asn: u32,
    behind: AsPath,
    whole: AsPath,
    ghost made: { whole ≡ asn ∷ behind },
}

/// By a function of its own, so that what holds one drops it by one call.
impl Drop for Kept {
    fn drop(self) {
        let Kept {
            asn: _,
            behind: _,
            whole: _,
        } = self;
    }
}

/// The AS path that the sender of a session put together last, if it did.
pub struct LastAsPath {
    last: Option<Kept>,
}

/// By a function of its own, so that what holds one drops it by one call.
impl Drop for LastAsPath {
    fn drop(self) {
        let LastAsPath { last: _ } = self;
    }
}

/// The whole of what is kept, where it is that of this AS and this path.
fn whole_of(last: &Option<Kept>, asn: u32, path: &AsPath) -> Result<Option<AsPath>, AllocError>
    ensures { IfOk result (λ found. IfSome found (λ whole. whole ≡ asn ∷ path.now)) }
{
    match last {
        None => Ok(None),
        Some(kept) => {
            if kept.asn == asn && is_same(&kept.behind, path) {
                return Ok(Some(kept.whole.share()?));
            }
            Ok(None)
        }
    }
}

/// Whether two AS paths are the same.
#[tactic(auto, using(crate::proofs::SameLaws::same_numbers))]
fn is_same(path: &AsPath, other: &AsPath) -> bool
    ensures { IsTrue result → path.now ≡ other.now }
{
    *path == *other
}

impl LastAsPath {
    /// None yet. It takes no memory.
    pub fn new() -> LastAsPath {
        LastAsPath { last: None }
    }

    /// An AS path with one AS in front (RFC 4271 s.5.1.2), which shares all of the last one where both are the same. It errs only where
    /// memory runs out, or behind 2^32 - 1 numbers.
    pub(crate) fn prepend(
        &mut self,
        alloc: Global,
        asn: u32,
        path: &AsPath,
    ) -> Result<AsPath, AllocError>
        ensures { IfOk result (λ made. made ≡ asn ∷ path.now) }
    {
        let found = whole_of(&self.last, asn, path)?;
        match found {
            Some(whole) => Ok(whole),
            None => {
                let whole = path.prepend(alloc, asn)?;
                self.last = Some(Kept {
                    asn,
                    behind: path.share()?,
                    whole: whole.share()?,
                });
                Ok(whole)
            }
        }
    }
}
