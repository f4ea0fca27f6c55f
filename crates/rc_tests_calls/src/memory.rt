//! Folders and sinks in memory, and their failures.
ghost use Rattle.std.specs.Prelude.{◌≡◌, [], ◌∷◌, Some, IfOk, codes};
ghost use Rattle.rc_outside.specs.MemFolder.{file_of};

use rc_outside::{Folder, Gate, MemFile, MemFolder, MemSink, Names, OpenGate, Sink, SourceError};
use std::alloc::{AllocError, Global};

fn file(alloc: Global, folder: &str, bytes: &[u8]) -> Result<MemFile, AllocError>
    ensures { IfOk result (λ f. file_of f ≡ record { folder = folder.now; name = codes "a.cfg"; bytes = bytes.now }) }
{
    Ok(MemFile {
        folder: String::from_str(alloc, folder)?,
        name: String::from_str(alloc, "a.cfg")?,
        bytes: Vec::from_slice(alloc, bytes)?,
    })
}

/// Two files in one place, and one of the same name in another folder. The call of this number fails.
fn folder_of(alloc: Global, bytes: &[u8], failure: u64) -> Result<MemFolder, AllocError>
    ensures { IfOk result (λ m. ⟦<MemFolder as Folder>⟧.told m ≡ Some (record { folder = codes "d"; name = codes "a.cfg"; bytes = bytes.now } ∷ record { folder = codes "e"; name = codes "a.cfg"; bytes = [] } ∷ [])) }
{
    let mut files = Vec::new(alloc);
    files.push(file(alloc, "d", bytes)?)?;
    files.push(file(alloc, "d", b"second")?)?;
    files.push(file(alloc, "e", b"")?)?;
    let failures = Vec::from_slice(alloc, &[failure])?;
    Ok(MemFolder::new(files, failures))
}

/// Whether these bytes were read.
fn are_read(read: &Result<Vec<u8>, SourceError>, wanted: &[u8]) -> bool {
    match read {
        Ok(bytes) => bytes.as_slice() == wanted,
        Err(_) => false,
    }
}

#[test]
fn a_file_is_read_to_one_byte_past_the_limit(rt: HostRuntime) {
    let alloc = rt.alloc();
    let mut folder = folder_of(alloc, b"first", 9).expect(&rt, "memory");
    let whole = are_read(&folder.read(alloc, "d", "a.cfg", 4), b"first");
    let front = are_read(&folder.read(alloc, "d", "a.cfg", 2), b"fir");
    assert!(rt; whole && front);
}

#[test]
fn a_call_fails_by_its_number(rt: HostRuntime) {
    let alloc = rt.alloc();
    let mut folder = folder_of(alloc, b"first", 2).expect(&rt, "memory");
    let first = are_read(&folder.read(alloc, "d", "a.cfg", 5), b"first");
    let failed = folder.read(alloc, "d", "a.cfg", 5).err();
    assert!(rt;
        first
            && matches!(failed, Some(SourceError::Failed))
            && folder.calls == 2
            && folder.faults == 1
    );
}

/// Whether just this name was told, or none.
fn is_told(told: &Result<Names, SourceError>, wanted: Option<&str>) -> bool {
    match told {
        Ok(names) => match (names.as_slice(), wanted) {
            ([name], Some(text)) => name.as_str() == text,
            ([], None) => true,
            _ => false,
        },
        Err(_) => false,
    }
}

#[test]
fn names_are_those_of_the_folder_alone(rt: HostRuntime) {
    let alloc = rt.alloc();
    let mut folder = folder_of(alloc, b"first", 2).expect(&rt, "memory");
    let one = is_told(&folder.names(alloc, "d"), Some("a.cfg"));
    let failed = folder.names(alloc, "d").err();
    let none = is_told(&folder.names(alloc, "f"), None);
    assert!(rt; one && matches!(failed, Some(SourceError::Failed)) && none);
}

/// Whether a put is taken, or fails, as it should, and the sink holds this then.
fn says(sink: &mut MemSink, bytes: &[u8], is_taken: bool, held: &[u8]) -> bool {
    sink.put(bytes).is_ok() == is_taken && sink.bytes.as_slice() == held
}

const TAKEN: bool = true;

const FAILS: bool = false;

/// A sink with so much room that takes so many bytes of the call of this number, and fails.
fn failing_sink(
    alloc: Global,
    room: usize,
    call: u64,
    taken: usize,
) -> Result<MemSink, AllocError> {
    let failures = Vec::from_slice(alloc, &[(call, taken)])?;
    MemSink::new(alloc, room, failures)
}

#[test]
fn a_sink_fails_in_its_second_call(rt: HostRuntime) {
    let mut sink = failing_sink(rt.alloc(), 16, 2, 3).expect(&rt, "memory");
    assert!(rt;
        says(&mut sink, b"one ", TAKEN, b"one ")
            && says(&mut sink, b"second ", FAILS, b"one sec")
            && says(&mut sink, b" third", TAKEN, b"one sec third")
            && sink.calls == 3
            && sink.faults == 1
    );
}

#[test]
fn a_sink_without_room_takes_what_fits(rt: HostRuntime) {
    let mut sink = failing_sink(rt.alloc(), 3, 9, 0).expect(&rt, "memory");
    assert!(rt;
        says(&mut sink, b"four", FAILS, b"fou")
            && says(&mut sink, b"x", FAILS, b"fou")
            && says(&mut sink, b"", TAKEN, b"fou")
            && sink.calls == 3
            && sink.faults == 2
    );
    OpenGate.pass(1, 0);
}
