//! Files of odd bytes or of great size, folders of many files, and what is read of a folder.
use crate::answers::{Host, NamedText, file_in, folder_of, ran, sink_of};
use rc_analyse::Status;
use rc_outside::{MemFolder, OpenGate};
use std::alloc::{AllocError, Global};
use std::str::from_utf8;
use std::test::Fail;

/// How a run ends, what it says where that is told here, and after how many calls of its folder, of which how many failed.
type End = (Status, &'static str, u64, u64);

/// Asserts how a run over a folder ends.
fn check_end(rt: &impl Host, mut folder: MemFolder, end: &End) -> Result<(), Fail> {
    let (status, text, calls, faults) = *end;
    let mut out = sink_of(rt.alloc(), 65_536)?;
    let found = ran(rt, &["routes", "d"], &mut folder, &mut out, &OpenGate);
    let is_said = text.is_empty() || out.bytes.as_slice() == text.as_bytes();
    assert!(rt;
        found == status && is_said && folder.calls == calls && folder.faults == faults,
        "{text}"
    );
    Ok(())
}

/// A file of any bytes in the folder `d`.
fn folder_of_bytes(alloc: Global, bytes: &[u8]) -> Result<MemFolder, AllocError> {
    let mut held = Vec::new(alloc);
    held.push(file_in(alloc, "d", "a.cfg", bytes)?)?;
    Ok(MemFolder::new(held, Vec::new(alloc)))
}

/// Files of bytes that no line has, or without a line end behind their last line.
const BYTES: [(&[u8], &str); 7] = [
    (b"\x00", "refused a.cfg:1: 1\n"),
    (b"\n\xff", "refused a.cfg:2: 1\n"),
    (b"\r", "refused a.cfg:1: 1\n"),
    (b"hostname R1\r", "refused a.cfg:1: 3\n"),
    (b"hostname R1\x00\n", "refused a.cfg:1: 3\n"),
    (b"hostname", "refused a.cfg:1: 3\n"),
    (
        b"hostname R1\ninterface GigabitEthernet0/0\n ip address 10.0.0.1",
        "refused a.cfg:3: 3\n",
    ),
];

/// Asserts how each of these files is refused.
fn check_all_bytes(rt: &impl Host, rows: &[(&'static [u8], &'static str)]) -> Result<(), Fail> {
    for (bytes, text) in rows {
        let folder = folder_of_bytes(rt.alloc(), bytes)?;
        check_end(rt, folder, &(Status::Refused, *text, 2, 0))?;
    }
    Ok(())
}

#[test]
fn bytes_that_are_refused(rt: HostRuntime) -> Result<(), Fail> {
    check_all_bytes(&rt, &BYTES)
}

/// A file of every byte once, in order.
#[test]
fn a_file_of_all_bytes(rt: HostRuntime) -> Result<(), Fail> {
    let mut bytes = Vec::new(rt.alloc());
    for byte in 0..=255u8 {
        bytes.push(byte)?;
    }
    let folder = folder_of_bytes(rt.alloc(), bytes.as_slice())?;
    check_end(
        &rt,
        folder,
        &(Status::Refused, "refused a.cfg:1: 1\n", 2, 0),
    )
}

/// A first line, so many lines of comment, and an end.
fn comments(alloc: Global, first: &[u8], lines: u32, end: &[u8]) -> Result<MemFolder, AllocError> {
    let mut bytes = Vec::from_slice(alloc, first)?;
    for _ in 0..lines {
        bytes.extend_from_slice(b"!\n")?;
    }
    bytes.extend_from_slice(end)?;
    folder_of_bytes(alloc, bytes.as_slice())
}

/// A file of as many bytes as may be is taken, and one of more is refused, whatever its first line is.
#[test]
fn a_file_at_the_limit(rt: HostRuntime) -> Result<(), Fail> {
    let too_long = (Status::Refused, "refused a.cfg:0: 11\n", 2, 0);
    let most = comments(rt.alloc(), b"hostname R1\n", 524_282, b"")?;
    check_end(
        &rt,
        most,
        &(Status::Done, "outcome fixed 1\nrouter R1\n", 2, 0),
    )?;
    let more = comments(rt.alloc(), b"hostname R1\n", 524_282, b"!")?;
    check_end(&rt, more, &too_long)?;
    let unknown = comments(rt.alloc(), b"frobnicate\n", 524_283, b"")?;
    check_end(&rt, unknown, &too_long)
}

/// A folder of so many files, where the call of this number fails.
fn many_files(alloc: Global, count: u32, failure: u64) -> Result<MemFolder, AllocError> {
    let failures = Vec::from_slice(alloc, &[failure])?;
    let mut held = Vec::new(alloc);
    for number in 0..count {
        let name = format!(in alloc; "{number}.cfg")?;
        let text = format!(in alloc; "hostname r{number}\n")?;
        held.push(file_in(alloc, "d", name.as_str(), text.as_str().as_bytes())?)?;
    }
    Ok(MemFolder::new(held, failures))
}

/// As many files as may be are all read, and of more none.
#[test]
fn as_many_files_as_may_be(rt: HostRuntime) -> Result<(), Fail> {
    let too_many = (Status::Refused, "refused folder: 10\n", 1, 0);
    check_end(
        &rt,
        many_files(rt.alloc(), 512, 0)?,
        &(Status::Done, "", 513, 0),
    )?;
    check_end(&rt, many_files(rt.alloc(), 513, 0)?, &too_many)?;
    check_end(&rt, many_files(rt.alloc(), 513, 2)?, &too_many)
}

/// Each of them has a line in the answer.
#[test]
fn each_file_has_its_router(rt: HostRuntime) -> Result<(), Fail> {
    let mut folder = many_files(rt.alloc(), 512, 0)?;
    let mut out = sink_of(rt.alloc(), 65_536)?;
    let status = ran(&rt, &["routes", "d"], &mut folder, &mut out, &OpenGate);
    let text = from_utf8(out.bytes.as_slice()).unwrap_or("");
    let mut routers = 0u32;
    for line in text.lines() {
        if line.strip_prefix("router r").is_some() {
            routers = routers.saturating_add(1);
        }
    }
    assert!(rt; status == Status::Done && text.starts_with("outcome fixed 1\n") && routers == 512);
    Ok(())
}

const BEFORE_A_REFUSED_ONE: [NamedText<'static>; 3] = [
    ("c.cfg", "hostname R3\n"),
    ("b.cfg", "frobnicate\n"),
    ("a.cfg", "hostname R1\n"),
];

#[test]
fn no_file_is_read_behind_a_refused_one(rt: HostRuntime) -> Result<(), Fail> {
    let unread = folder_of(rt.alloc(), &BEFORE_A_REFUSED_ONE, &[4])?;
    check_end(
        &rt,
        unread,
        &(Status::Refused, "refused b.cfg:1: 1\n", 3, 0),
    )?;
    let failing = folder_of(rt.alloc(), &BEFORE_A_REFUSED_ONE, &[2])?;
    check_end(&rt, failing, &(Status::Source, "", 2, 1))
}
