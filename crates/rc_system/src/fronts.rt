//! The first bytes of a file.
ghost use Rattle.std.specs.Prelude.{◌≡◌, ◌+◌, IfOk, IfSome, take};

use std::alloc::Global;
use std::fs;
use std::io::{self, Read};
use std::rt::Files;

/// The room with which the reading of a file begins: a short configuration fits, and a longer one's room doubles as it is read. What is
/// read into is set to zero first, so more room would cost each short file more than a long one gains.
const ROOM: usize = 4096;

/// The first bytes that a reader has left, at most `most + 1` of them: no more are read, however many there are.
fn front_of<F: Read + Drop>(alloc: Global, file: F, most: usize) -> io::Result<Vec<u8>>
    ensures { IfOk result (λ bytes. IfSome (F.remaining file) (λ all. bytes.items ≡ take (most + 1) all)) }
{
    let mut bytes = Vec::with_capacity(alloc, ROOM)?;
    let limit = (most as u64).saturating_add(1);
    file.take(limit).read_to_end(&mut bytes)?;
    Ok(bytes)
}

fn opened<R: Files + AllocGlobal>(
    rt: &R,
    alloc: Global,
    dir: &str,
    name: &str,
) -> io::Result<R::File> {
    let path = format!(in alloc; "{dir}/{name}")?;
    fs::open(rt, path.as_str())
}

/// The first bytes of a file, at most `most + 1` of them.
pub(crate) fn front<R: Files + AllocGlobal>(
    rt: &R,
    alloc: Global,
    dir: &str,
    name: &str,
    most: usize,
) -> io::Result<Vec<u8>>
    ensures { IfOk result (λ bytes. (file : R.File) × IfSome (R.File.remaining file) (λ all. bytes.items ≡ take (most + 1) all)) }
{
    let file = opened(rt, alloc, dir, name)?;
    front_of(alloc, file, most)
}
