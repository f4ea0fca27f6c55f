//! Folders of files.
ghost use Rattle.std.specs.Prelude.{◌≡◌, ◌+◌, List, ℕ, Bool, take, Option, Some, None, IsTrue, IsSome, IfOk, IfSome, IsPermutation};
ghost use Rattle.rc_outside.specs.Causes.{HasCause};
ghost use Rattle.rc_outside.specs.Folder.{File, names_in, bytes_at, is_config};

use rc_base::{FileName, Items};
use std::alloc::Global;

/// Why a folder gives no answer.
#[derive(Clone, Copy, PartialEq, Eq)]
pub enum SourceError {
    /// It failed, and counted a fault.
    Failed,
    /// Memory ran out.
    Memory,
}

/// Names of files, seen as the list of their texts.
pub type Names = Items<FileName>;

/// A folder of files. Each call names the folder's text, so one value may serve several folders.
pub trait Folder {
    /// The files, where it tells them.
    ghost told: { Self → Option (List File) };

    /// The folder texts that may be asked for.
    ghost allows: { Self → List ℕ → Bool };

    /// How often it has failed, up to 2^64 - 1.
    ghost faults: { Self → ℕ };

    /// The names in a folder, in some order.
    ///
    /// `Failed` comes only where the count of faults rose in this call.
    fn names(&mut self, alloc: Global, dir: &str) -> Result<Names, SourceError>
        requires { IsTrue (allows self.old dir.now) }
        ensures names { IfOk result (λ names. IfSome (told self.old) (λ files. IsPermutation (names_in dir.now files) names)) }
        ensures same_files { told self.new ≡ told self.old }
        ensures same_allowed { allows self.new ≡ allows self.old }
        ensures cause { HasCause (faults self.old) (faults self.new) result };

    /// The bytes of a file, or the first `most + 1` where it has more than `most`: so a file that is too long is seen.
    ///
    /// `Failed` comes only where the count of faults rose in this call.
    fn read(
        &mut self,
        alloc: Global,
        dir: &str,
        name: &str,
        most: usize,
    ) -> Result<Vec<u8>, SourceError>
        requires allowed { IsTrue (allows self.old dir.now) }
        requires config { IsTrue (is_config name.now) }
        requires there { IfSome (told self.old) (λ files. IsSome (bytes_at dir.now name.now files)) }
        ensures bytes { IfOk result (λ bytes. IfSome (told self.old) (λ files. IfSome (bytes_at dir.now name.now files) (λ all. bytes.items ≡ take (most + 1) all))) }
        ensures same_files { told self.new ≡ told self.old }
        ensures same_allowed { allows self.new ≡ allows self.old }
        ensures cause { HasCause (faults self.old) (faults self.new) result };
}
