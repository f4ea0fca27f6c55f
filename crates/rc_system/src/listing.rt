//! The files of a folder.
ghost use Rattle.std.specs.Prelude.{◌≡◌, ◌⊎◌, All, IfErr, IfOk, IfSome, IsOk, List, Some, Err};
ghost use Rattle.std.specs.Iterator.{Drains, YieldsThen, IsFinite};
ghost use Rattle.std.specs.Fs.{dir_entry_name};
ghost use Rattle.std.specs.IoError.{error_kind};
ghost use Rattle.rc_system.specs.Edge.{Found, name_where, names_in, regular_in};

use rc_base::FileName;
use rc_outside::Names;
use std::alloc::Global;
use std::fs::{self, DirEntry, Metadata};
use std::io::{self, ErrorKind};
use std::rt::Files;

/// Whether a path leads to a regular file, by what is found there: a link that leads nowhere leads to none, and any other error
/// stays one.
fn is_regular(found: io::Result<Metadata>) -> io::Result<bool>
    ensures { result ≡ regular_in found }
{
    let error = match found {
        Ok(there) => return Ok(there.is_file()),
        Err(error) => error,
    };
    match error.kind() {
        ErrorKind::NotFound => Ok(false),
        _ => Err(error),
    }
}

/// A name as that of a file, where it is one.
fn file_name(alloc: Global, name: &str, is_file: bool) -> io::Result<Option<FileName>>
    ensures name { IfOk result (λ named. named ≡ name_where is_file name.now) }
    ensures memory { IfErr result (λ e. error_kind e ≡ ErrorKind.OutOfMemory) }
{
    if !is_file {
        return Ok(None);
    }
    let text = String::from_str(alloc, name)?;
    Ok(Some(FileName::new(text)))
}

/// The name of an entry, where it leads to a regular file. An entry that can't be told is an error.
fn name_in<R: Files + AllocGlobal + Clone + Drop>(
    rt: &R,
    alloc: Global,
    entry: io::Result<DirEntry<R>>,
) -> io::Result<Option<FileName>>
    ensures untold { IfErr entry (λ e. result ≡ Err e) }
    ensures name { IfOk entry (λ entry. IfOk result (λ found. IfSome found (λ name. name ≡ dir_entry_name entry))) }
{
    let entry = entry?;
    let is_file = is_regular(fs::metadata(rt, entry.path()))?;
    file_name(alloc, entry.file_name(), is_file)
}

/// The names that entries give, in their order; or the first error.
fn gathered<I: Iterator<Item = io::Result<Option<FileName>>> + Drop>(
    alloc: Global,
    entries: I,
) -> io::Result<Names>
    requires can { I.can_next entries }
    requires ends { IsFinite (I.remaining entries) }
    ensures names { IfOk result (λ names. (found : List Found) × Drains I.next_gives entries found × All IsOk found × (names ≡ names_in found)) }
    ensures error { IfErr result (λ e. (error_kind e ≡ ErrorKind.OutOfMemory) ⊎ ((before : List Found) × (left : I) × YieldsThen I.next_gives entries before (Some (Err e)) left)) }
{
    let mut names = Names::new(alloc);
    for found in entries {
        if let Some(name) = found? {
            names.push(name)?;
        }
    }
    Ok(names)
}

/// The names of the files of a folder.
pub(crate) fn listed<R: Files + AllocGlobal + Clone + Drop>(
    rt: &R,
    alloc: Global,
    dir: &str,
) -> io::Result<Names> {
    let entries = fs::read_dir(rt, dir)?;
    gathered(alloc, entries.map(|entry| name_in(rt, alloc, entry)))
}
