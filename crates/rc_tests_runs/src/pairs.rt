//! The pairs of `failures` among workers: each of these passes the gate once, and their number changes no byte.
use crate::answers::{BASE, CIRCLE, Host, NamedText, ended_at, folder_of, ran, sink_of};
use rc_analyse::Status;
use rc_outside::{Gate, MeetGate, OpenGate};
use std::sync::atomic::{AtomicU32, AtomicU64, Ordering};
use std::test::Fail;

/// The phase in which the workers begin with their pairs.
const PHASE: u32 = 400_000;

/// Two routers with two lines between them, and a loopback behind.
const TWO_LINES: [NamedText<'_>; 2] = [
    (
        "r1.cfg",
        "hostname R1
interface Serial0/0
 ip address 10.0.1.1 255.255.255.252
interface Serial0/1
 ip address 10.0.2.1 255.255.255.252
router ospf 1
 network 0.0.0.0 255.255.255.255 area 0
",
    ),
    (
        "r2.cfg",
        "hostname R2
interface Serial0/0
 ip address 10.0.1.2 255.255.255.252
interface Serial0/1
 ip address 10.0.2.2 255.255.255.252
interface Loopback0
 ip address 9.9.9.9 255.255.255.255
router ospf 1
 network 0.0.0.0 255.255.255.255 area 0
",
    ),
];

const TEXT: &str = "outcome fixed 2
without R1 Serial0/0 R2 Serial0/0 fixed 2 yes
without R1 Serial0/1 R2 Serial0/1 fixed 2 yes
";

/// Notes which workers pass in the phase of the pairs, how often one passes there twice, and how many pass in the rounds of tables.
#[derive(Drop)]
struct Passes {
    /// A bit for each worker.
    passed: AtomicU64,
    twice: AtomicU32,
    in_rounds: AtomicU32,
}

impl Gate for Passes {
    fn pass(&self, phase: u32, worker: u32) {
        if phase != PHASE {
            self.in_rounds.fetch_add(1, Ordering::SeqCst);
            return;
        }
        let bit = 1u64.checked_shl(worker).unwrap_or(0);
        let before = self.passed.fetch_or(bit, Ordering::SeqCst);
        if bit == 0 || before & bit != 0 {
            self.twice.fetch_add(1, Ordering::SeqCst);
        }
    }
}

/// Words, a bit for each worker that passes in the phase of the pairs, and how often one passes in the rounds of the whole network's tables.
type Row = (&'static str, u64, u32);

/// Also where there are fewer pairs than workers. The rounds of a network without a pair pass no gate of the run's.
const ROWS: [Row; 4] = [
    ("failures d --from R1 --dst 9.9.9.9 --workers 1", 0b1, 2),
    ("failures d --from R1 --dst 9.9.9.9 --workers 2", 0b11, 4),
    ("failures d --from R1 --dst 9.9.9.9 --workers 3", 0b111, 6),
    (
        "failures d --from R1 --dst 9.9.9.9 --workers 64",
        u64::MAX,
        128,
    ),
];

/// Where there are no pairs, and where the tables never settle, so that nobody sees to pairs.
const WITHOUT_PAIRS: Row = ("failures d --from R1 --dst 9.9.9.9 --workers 2", 0b11, 4);

const UNSETTLED: Row = ("failures d --from R1 --dst 9.9.9.9 --workers 2", 0, 14);

/// Asserts who passes, and how often.
fn check_passes(rt: &impl Host, files: &[NamedText<'_>], row: &Row) -> Result<(), Fail> {
    let (line, workers, rounds) = *row;
    let gate = Passes {
        passed: AtomicU64::new(0),
        twice: AtomicU32::new(0),
        in_rounds: AtomicU32::new(0),
    };
    let _ = ended_at(rt, files, line, &gate)?;
    let passed = gate.passed.load(Ordering::SeqCst);
    let twice = gate.twice.load(Ordering::SeqCst);
    let in_rounds = gate.in_rounds.load(Ordering::SeqCst);
    assert!(rt;
        passed == workers && twice == 0 && in_rounds == rounds,
        "{line}"
    );
    Ok(())
}

/// Asserts it of each row.
fn check_all_passes(rt: &impl Host, rows: &[Row]) -> Result<(), Fail> {
    for row in rows {
        check_passes(rt, &TWO_LINES, row)?;
    }
    Ok(())
}

#[test]
fn each_worker_passes_once_before_its_pairs(rt: HostRuntime) -> Result<(), Fail> {
    check_all_passes(&rt, &ROWS)
}

#[test]
fn workers_pass_where_there_are_no_pairs(rt: HostRuntime) -> Result<(), Fail> {
    check_passes(&rt, &[("a.cfg", BASE)], &WITHOUT_PAIRS)
}

#[test]
fn nobody_passes_where_the_tables_never_settle(rt: HostRuntime) -> Result<(), Fail> {
    check_passes(&rt, &[("a.cfg", CIRCLE)], &UNSETTLED)
}

/// Asserts that two workers are at the gate at once before their pairs.
fn check_meets(rt: &impl Host, line: &str) -> Result<(), Fail> {
    let gate = MeetGate::new(PHASE);
    let status = ended_at(rt, &TWO_LINES, line, &gate)?;
    assert!(rt; status == Status::Done && gate.met());
    Ok(())
}

#[test]
fn workers_meet_before_their_pairs(rt: HostRuntime) -> Result<(), Fail> {
    check_meets(&rt, "failures d --from R1 --dst 9.9.9.9 --workers 2")
}

/// Asserts that so many workers write the text.
fn check_text(rt: &impl Host, workers: &str) -> Result<(), Fail> {
    let words = [
        "failures",
        "d",
        "--from",
        "R1",
        "--dst",
        "9.9.9.9",
        "--workers",
        workers,
    ];
    let mut folder = folder_of(rt.alloc(), &TWO_LINES, &[])?;
    let mut out = sink_of(rt.alloc(), 4096)?;
    let status = ran(rt, &words, &mut folder, &mut out, &OpenGate);
    assert!(rt;
        status == Status::Done && out.bytes.as_slice() == TEXT.as_bytes(),
        "{workers} workers"
    );
    Ok(())
}

/// Asserts it of each number of workers.
fn check_texts(rt: &impl Host, numbers: &[&str]) -> Result<(), Fail> {
    for workers in numbers {
        check_text(rt, workers)?;
    }
    Ok(())
}

#[test]
fn any_number_of_workers_writes_the_same(rt: HostRuntime) -> Result<(), Fail> {
    check_texts(&rt, &["1", "2", "3", "64"])
}
