//! Runs over files in memory.
use rc_analyse::{Status, run};
use rc_outside::{Gate, MemFile, MemFolder, MemSink};
use std::alloc::{AllocError, AllocGlobal, Global};
use std::process::Abort;
use std::test::Fail;
use std::thread::Threads;

/// What a run and its tests want of a host.
pub trait Host: Threads + Sync + AllocGlobal + Abort {}

impl<R: Threads + Sync + AllocGlobal + Abort> Host for R {}

/// A router with one subnet.
pub const BASE: &str =
    "hostname R1\ninterface GigabitEthernet0/0\n ip address 10.0.0.1 255.255.255.0\n";

/// The routes of that router.
pub const CONNECTED: &str =
    "outcome fixed 2\nrouter R1\n10.0.0.0/24 connected 0/0 dev GigabitEthernet0/0\n";

/// Two routes of which each resolves through the other, once the third has brought the first of them.
pub const CIRCLE: &str =
    "hostname R1\ninterface GigabitEthernet0/0\n ip address 10.0.0.1 255.255.255.0\nip route 2.2.2.0 255.255.255.0 10.0.0.2\nip route 1.1.1.0 255.255.255.0 2.2.2.2\nip route 2.2.2.2 255.255.255.255 1.1.1.1\n";

/// A name and a text.
pub type NamedText<'a> = (&'a str, &'a str);

/// A file of a folder.
pub fn file_in(
    alloc: Global,
    folder: &str,
    name: &str,
    bytes: &[u8],
) -> Result<MemFile, AllocError> {
    Ok(MemFile {
        folder: String::from_str(alloc, folder)?,
        name: String::from_str(alloc, name)?,
        bytes: Vec::from_slice(alloc, bytes)?,
    })
}

/// The files of the folder `d`, and one of another folder before them.
fn files_in(alloc: Global, files: &[NamedText<'_>]) -> Result<Vec<MemFile>, AllocError> {
    let mut held = Vec::new(alloc);
    held.push(file_in(alloc, "elsewhere", "a.cfg", b"frobnicate")?)?;
    for (name, text) in files {
        held.push(file_in(alloc, "d", name, text.as_bytes())?)?;
    }
    Ok(held)
}

/// These files in memory, where the calls of these numbers fail.
pub fn folder_of(
    alloc: Global,
    files: &[NamedText<'_>],
    failures: &[u64],
) -> Result<MemFolder, AllocError> {
    let failures = Vec::from_slice(alloc, failures)?;
    let files = files_in(alloc, files)?;
    Ok(MemFolder::new(files, failures))
}

/// A sink with room for so many bytes that doesn't fail.
pub fn sink_of(alloc: Global, room: usize) -> Result<MemSink, AllocError> {
    MemSink::new(alloc, room, Vec::new(alloc))
}

/// How a run over the folder ends. By a function of its own, so that what `run` promises is read once.
pub fn ran<R: Host, G: Gate>(
    rt: &R,
    words: &[&str],
    folder: &mut MemFolder,
    out: &mut MemSink,
    gate: &G,
) -> Status {
    run(rt, words, folder, out, gate)
}

/// How the words of a line, parted by blanks, end over files. Its workers pass this gate.
pub fn ended_at<R: Host, G: Gate>(
    rt: &R,
    files: &[NamedText<'_>],
    line: &str,
    gate: &G,
) -> Result<Status, Fail> {
    let words: Vec<&str> = line.split(' ').collect(rt.alloc())?;
    let mut folder = folder_of(rt.alloc(), files, &[])?;
    let mut out = sink_of(rt.alloc(), 4096)?;
    Ok(ran(rt, words.as_slice(), &mut folder, &mut out, gate))
}
