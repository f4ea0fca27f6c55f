//! Folders in memory.
ghost use Rattle.std.specs.Prelude.{◌≡◌, ◌+◌, ◌&&◌, not, [], List, ℕ, Bool, true, length, map, take, string_bytes, Some, None, option_copied, IfOk, IfSome, IsSome, IsTrue, IsPermutation, Err, ◌↔◌, if◌then◌else◌};
ghost use Rattle.std.specs.List.{list_any};
ghost use Rattle.std.specs.Str.{bytes_eq};
ghost use Rattle.rc_outside.specs.Folder.{File, is_in, is_config, names_in, bytes_at, first_of_each};
ghost use Rattle.rc_outside.specs.MemFolder.{file_of, files_of, fails_next};
ghost use Rattle.rc_outside.specs.Causes.{HasCause, counted};

use crate::{Folder, Names, SourceError};
use rc_base::{FileName, Items};
use std::alloc::{AllocError, Global};

/// A file for a folder in memory.
#[derive(Drop)]
pub struct MemFile {
    /// The text of the folder that it is in.
    pub folder: String,
    /// Its name in that folder.
    pub name: String,
    /// What it holds.
    pub bytes: Vec<u8>,
}

/// A folder in memory, which tells its files and may be asked for any folder text. Of the files at one path it has
/// the first alone. Chosen calls fail, so that a caller can be tried on a folder that does.
#[derive(Drop)]
pub struct MemFolder {
    files: Vec<MemFile>,
    /// The numbers of the calls that fail, counted from 1 over both kinds of call.
    pub failures: Vec<u64>,
    /// How many calls there were, up to 2^64 - 1.
    pub calls: u64,
    /// How many of them failed, up to 2^64 - 1.
    pub faults: u64,
}

impl MemFolder {
    /// The folder of these files, whose calls of the numbers in `failures` fail. It takes no memory.
    pub fn new(files: Vec<MemFile>, failures: Vec<u64>) -> MemFolder
        ensures files { ⟦<MemFolder as Folder>⟧.told result ≡ Some (first_of_each [] (files_of files.items)) }
        ensures allows { ⟦<MemFolder as Folder>⟧.allows result ≡ (λ _. true) }
        ensures faults { ⟦<MemFolder as Folder>⟧.faults result ≡ 0 }
        ensures failures { result.failures.items ≡ failures.items }
        ensures calls { result.calls ≡ 0 }
    {
        MemFolder {
            files,
            failures,
            calls: 0,
            faults: 0,
        }
    }

    // Counts a call, and says whether it is to fail.
    fn fails(&mut self) -> bool
        ensures fails { result ≡ fails_next self.old }
        ensures files { self.new.files ≡ self.old.files }
        ensures failures { self.new.failures ≡ self.old.failures }
        ensures calls { self.new.calls ≡ counted self.old.calls }
        ensures faults { self.new.faults ≡ self.old.faults }
    {
        self.calls = self.calls.saturating_add(1);
        self.failures.contains(&self.calls)
    }
}

// Whether the name is among them.
fn has_name(names: &[FileName], name: &str) -> bool
    ensures { result ≡ list_any (λ f. bytes_eq f name.now) names.now }
{
    names.iter().any(|n| n.as_str() == name)
}

// Whether the file is in the folder, and its name is not among them.
fn is_new_in(names: &[FileName], file: &MemFile, dir: &str) -> bool
    ensures { result ≡ (is_in dir.now (file_of file.now) && not (list_any (λ f. bytes_eq f (string_bytes file.now.name)) names.now)) }
{
    file.folder.as_str() == dir && !has_name(names, file.name.as_str())
}

// The names in a folder, each once.
fn names_of(alloc: Global, files: &[MemFile], dir: &str) -> Result<Vec<FileName>, AllocError>
    ensures { IfOk result (λ v. v.items ≡ names_in dir.now (first_of_each [] (files_of files.now))) }
{
    let mut names: Vec<FileName> = Vec::new(alloc);
    for file in files {
        if is_new_in(names.as_slice(), file, dir) {
            let text = String::from_str(alloc, file.name.as_str())?;
            names.push(FileName::new(text))?;
        }
    }
    Ok(names)
}

// The bytes of the first file at that path.
fn file_bytes<'a>(files: &'a [MemFile], dir: &str, name: &str) -> Option<&'a [u8]>
    ensures { option_copied result ≡ bytes_at dir.now name.now (files_of files.now) }
{
    for file in files {
        if file.folder.as_str() == dir && file.name.as_str() == name {
            return Some(file.bytes.as_slice());
        }
    }
    None
}

// The first bytes, at most `most` and one more.
fn front_of(alloc: Global, bytes: &[u8], most: usize) -> Result<Vec<u8>, AllocError>
    ensures { IfOk result (λ v. v.items ≡ take (most + 1) bytes.now) }
{
    let len = if bytes.len() <= most {
        bytes.len()
    } else {
        most + 1
    };
    Vec::from_slice(alloc, &bytes[..len])
}

impl Folder for MemFolder {
    ghost told = { λ m. Some (first_of_each [] (files_of m.files.items)) };

    ghost allows = { λ _ _. true };

    ghost faults = { λ m. m.faults };

    fn names(&mut self, alloc: Global, dir: &str) -> Result<Names, SourceError>
        ensures names { IfOk result (λ names. IfSome (⟦<MemFolder as Folder>⟧.told self.old) (λ files. IsPermutation (names_in dir.now files) names)) }
        ensures same_files { ⟦<MemFolder as Folder>⟧.told self.new ≡ ⟦<MemFolder as Folder>⟧.told self.old }
        ensures same_allowed { ⟦<MemFolder as Folder>⟧.allows self.new ≡ ⟦<MemFolder as Folder>⟧.allows self.old }
        ensures cause { HasCause self.old.faults self.new.faults result }

        // What a folder in memory says beyond that.
        ensures failed { result ≡ Err SourceError.Failed ↔ IsTrue (fails_next self.old) }
        ensures fault { self.new.faults ≡ (if fails_next self.old then counted self.old.faults else self.old.faults) }
        ensures call { self.new.calls ≡ counted self.old.calls }
        ensures same_failures { self.new.failures ≡ self.old.failures }
    {
        if self.fails() {
            self.faults = self.faults.saturating_add(1);
            return Err(SourceError::Failed);
        }
        match names_of(alloc, self.files.as_slice(), dir) {
            Ok(items) => Ok(Items::from_vec(items)),
            Err(_) => Err(SourceError::Memory),
        }
    }

    fn read(
        &mut self,
        alloc: Global,
        dir: &str,
        name: &str,
        most: usize,
    ) -> Result<Vec<u8>, SourceError>
        requires config { IsTrue (is_config name.now) }
        requires there { IfSome (⟦<MemFolder as Folder>⟧.told self.old) (λ files. IsSome (bytes_at dir.now name.now files)) }
        ensures bytes { IfOk result (λ bytes. IfSome (⟦<MemFolder as Folder>⟧.told self.old) (λ files. IfSome (bytes_at dir.now name.now files) (λ all. bytes.items ≡ take (most + 1) all))) }
        ensures same_files { ⟦<MemFolder as Folder>⟧.told self.new ≡ ⟦<MemFolder as Folder>⟧.told self.old }
        ensures same_allowed { ⟦<MemFolder as Folder>⟧.allows self.new ≡ ⟦<MemFolder as Folder>⟧.allows self.old }
        ensures cause { HasCause self.old.faults self.new.faults result }

        // What a folder in memory says beyond that.
        ensures failed { result ≡ Err SourceError.Failed ↔ IsTrue (fails_next self.old) }
        ensures fault { self.new.faults ≡ (if fails_next self.old then counted self.old.faults else self.old.faults) }
        ensures call { self.new.calls ≡ counted self.old.calls }
        ensures same_failures { self.new.failures ≡ self.old.failures }
    {
        if self.fails() {
            self.faults = self.faults.saturating_add(1);
            return Err(SourceError::Failed);
        }
        let Some(bytes) = file_bytes(self.files.as_slice(), dir, name) else {
            unreachable!()
        };
        match front_of(alloc, bytes, most) {
            Ok(bytes) => Ok(bytes),
            Err(_) => Err(SourceError::Memory),
        }
    }
}
