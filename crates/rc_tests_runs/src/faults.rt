//! Folders and sinks that fail.
use crate::answers::{BASE, CONNECTED, Host, folder_of, ran, sink_of};
use rc_analyse::Status;
use rc_outside::{MemSink, OpenGate};
use std::test::Fail;

/// The call in which the folder fails, the room of the sink, the call in which it fails and how many bytes of that it takes, how the run
/// ends, what is written, and in how many calls. No call has the number 0.
type Row = (u64, usize, u64, usize, Status, &'static str, u64);

/// A folder that fails where its files are listed, where the one is read, or never; a sink that fails at once, in the middle of a piece,
/// or for want of room.
const FAULTS: [Row; 6] = [
    (1, 4096, 0, 0, Status::Source, "", 0),
    (2, 4096, 0, 0, Status::Source, "", 0),
    (3, 4096, 0, 0, Status::Done, CONNECTED, 3),
    (0, 4096, 1, 0, Status::Sink, "", 1),
    (0, 4096, 2, 3, Status::Sink, "outcome fixed 2\nrou", 2),
    (0, 26, 9, 0, Status::Sink, "outcome fixed 2\nrouter R1\n", 3),
];

/// Asserts how a run over one router ends.
fn check_fault(rt: &impl Host, row: &Row) -> Result<(), Fail> {
    let (call, room, piece, taken, status, text, calls) = *row;
    let mut folder = folder_of(rt.alloc(), &[("a.cfg", BASE)], &[call])?;
    let failures = Vec::from_slice(rt.alloc(), &[(piece, taken)])?;
    let mut out = MemSink::new(rt.alloc(), room, failures)?;
    let found = ran(rt, &["routes", "d"], &mut folder, &mut out, &OpenGate);
    assert!(rt;
        found == status && out.bytes.as_slice() == text.as_bytes() && out.calls == calls,
        "{text}"
    );
    Ok(())
}

/// Asserts it of each row.
fn check_faults(rt: &impl Host, rows: &[Row]) -> Result<(), Fail> {
    for row in rows {
        check_fault(rt, row)?;
    }
    Ok(())
}

#[test]
fn folders_and_sinks_that_fail(rt: HostRuntime) -> Result<(), Fail> {
    check_faults(&rt, &FAULTS)
}

/// Asserts that a refusal of a file of this name goes out in two calls.
fn check_two_pieces(rt: &impl Host, name: &str) -> Result<(), Fail> {
    let mut folder = folder_of(rt.alloc(), &[(name, "")], &[])?;
    let mut out = sink_of(rt.alloc(), 4096)?;
    let status = ran(rt, &["routes", "d"], &mut folder, &mut out, &OpenGate);
    assert!(rt; status == Status::Refused && out.calls == 2);
    Ok(())
}

/// A name of 512 bytes.
#[test]
fn a_line_goes_out_in_pieces(rt: HostRuntime) -> Result<(), Fail> {
    let name = format!(in rt.alloc(); "{:x>508}.cfg", "")?;
    check_two_pieces(&rt, name.as_str())
}
