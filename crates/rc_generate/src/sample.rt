//! The made network as a folder.
ghost use Rattle.std.specs.Prelude.{◌≡◌, ◌+◌, ◌≤◌, Some, true, take, vec_len};
ghost use Rattle.rc_generate.specs.Files.{files};

use crate::addresses::Place;
use crate::names::{file_names, number_in};
use crate::text::configuration;
use rc_base::Items;
use rc_outside::{Folder, Names, SourceError};
use std::alloc::Global;

/// The folder of a made network: under the empty folder text a file for each router, which is made when it is read.
#[derive(Drop)]
pub struct Sample {
    routers: u32,
    ghost some: { 4 ≤ routers },
    ghost few: { routers ≤ 512 },
}

impl Sample {
    /// The network of 4 to 512 routers. It takes no memory.
    pub fn new(routers: u32) -> Sample
        requires some { 4 ≤ routers }
        requires few { routers ≤ 512 }
        ensures files { ⟦<Sample as Folder>⟧.told result ≡ Some (files routers) }
        ensures allows { ⟦<Sample as Folder>⟧.allows result ≡ (λ _. true) }
        ensures faults { ⟦<Sample as Folder>⟧.faults result ≡ 0 }
    {
        Sample { routers }
    }
}

/// The first bytes of a text, at most `most` and one more.
fn front_of(mut text: Vec<u8>, most: usize) -> Vec<u8>
    ensures { result.items ≡ take (most + 1) text.items }
{
    if most < text.len() {
        text.truncate(most + 1);
    }
    text
}

impl Folder for Sample {
    ghost use Rattle.rc_generate.specs.Files.{files};

    ghost told = { λ s. Some (files s.routers) };

    ghost allows = { λ _ _. true };

    ghost faults = { λ _. 0 };

    fn names(&mut self, alloc: Global, dir: &str) -> Result<Names, SourceError> {
        if dir.is_empty() {
            return match file_names(alloc, self.routers) {
                Ok(names) => Ok(Items::from_vec(names)),
                Err(_) => Err(SourceError::Memory),
            };
        }
        Ok(Items::new(alloc))
    }

    fn read(
        &mut self,
        alloc: Global,
        _dir: &str,
        name: &str,
        most: usize,
    ) -> Result<Vec<u8>, SourceError> {
        let place = Place {
            router: number_in(name.as_bytes()),
            routers: self.routers,
        };
        match configuration(alloc, place) {
            Ok(text) => Ok(front_of(text, most)),
            Err(_) => Err(SourceError::Memory),
        }
    }
}
