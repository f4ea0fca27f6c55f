//! The real folder.
ghost use Rattle.std.specs.Prelude.{◌≡◌, true, None};

use crate::faults::answered;
use crate::fronts::front;
use crate::listing::listed;
use rc_outside::{Folder, Names, SourceError};
use std::alloc::Global;
use std::rt::Files;

/// The folders of the system. No clause says which bytes the system gives, so this tells no content.
///
/// - The files of a folder are its regular files and the links that lead to one. Other entries, as folders and pipes,
///   are passed over, whatever their names.
/// - A link that leads nowhere is passed over too. Any other link that cannot be followed is a fault, and so is a name
///   that isn't UTF-8: passing over it could leave a router out of the answer unseen.
/// - Want of memory is no fault.
#[derive(Drop)]
pub struct RealFolder<R: Files + AllocGlobal + Clone + Drop> {
    rt: R,
    faults: u64,
}

impl<R: Files + AllocGlobal + Clone + Drop> RealFolder<R> {
    /// The folders of the system, which have not failed yet.
    pub fn new(rt: R) -> RealFolder<R>
        ensures { result.faults ≡ 0 }
    {
        RealFolder { rt, faults: 0 }
    }

    /// How often it has failed, up to 2^64 - 1.
    pub fn faults(&self) -> u64
        ensures { result ≡ self.now.faults }
    {
        self.faults
    }
}

impl<R: Files + AllocGlobal + Clone + Drop> Folder for RealFolder<R> {
    ghost told = { λ _. None };

    ghost allows = { λ _ _. true };

    ghost faults = { λ f. f.faults };

    fn names(&mut self, alloc: Global, dir: &str) -> Result<Names, SourceError> {
        let given = listed(&self.rt, alloc, dir);
        answered(given, &mut self.faults)
    }

    fn read(
        &mut self,
        alloc: Global,
        dir: &str,
        name: &str,
        most: usize,
    ) -> Result<Vec<u8>, SourceError> {
        let given = front(&self.rt, alloc, dir, name, most);
        answered(given, &mut self.faults)
    }
}
