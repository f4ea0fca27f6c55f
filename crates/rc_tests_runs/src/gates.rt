//! Who passes the gate of a run: in each round each worker once, and as many workers as the words say.
use crate::answers::{BASE, CIRCLE, Host, NamedText, ended_at};
use rc_analyse::Status;
use rc_outside::{Gate, MeetGate};
use std::sync::atomic::{AtomicU32, AtomicU64, Ordering};
use std::test::Fail;

/// Counts who passes behind a phase, and who passes out of turn: in a phase that isn't the next one while workers of the one before are
/// still to pass, a second time in one phase, or beyond the number of workers.
#[derive(Drop)]
struct Counts {
    behind: u32,
    workers: u32,
    passes: AtomicU32,
    /// The workers that passed in this phase, a bit each.
    passed: AtomicU64,
    wrong: AtomicU32,
}

/// Nobody has passed yet behind a phase, of so many workers.
fn counting_behind(behind: u32, workers: u32) -> Counts {
    Counts {
        behind,
        workers,
        passes: AtomicU32::new(0),
        passed: AtomicU64::new(0),
        wrong: AtomicU32::new(0),
    }
}

fn counting(workers: u32) -> Counts {
    counting_behind(0, workers)
}

impl Gate for Counts {
    fn pass(&self, phase: u32, worker: u32) {
        if phase <= self.behind {
            return;
        }
        let before = self.passes.fetch_add(1, Ordering::SeqCst);
        let workers = self.workers.max(1);
        if before % workers == 0 {
            self.passed.store(0, Ordering::SeqCst);
        }
        let bit = 1u64.checked_shl(worker).unwrap_or(0);
        let passed = self.passed.fetch_or(bit, Ordering::SeqCst);
        let is_next = phase - self.behind == (before / workers).saturating_add(1);
        if !is_next || worker >= workers || passed & bit != 0 {
            self.wrong.fetch_add(1, Ordering::SeqCst);
        }
    }
}

/// The text of a file, words, how many workers they ask for, and how many rounds these make.
type Row = (&'static str, &'static str, u32, u32);

/// Each worker passes once in each round, also where its share is empty; nobody does where no round is made.
const ROUNDS: [Row; 14] = [
    (CIRCLE, "routes d", 4, 7),
    (CIRCLE, "routes d --workers 1", 1, 7),
    (CIRCLE, "routes d --workers 5", 5, 7),
    (CIRCLE, "routes d --workers 64", 64, 7),
    (CIRCLE, "routes d --workers 3 --rounds 6", 3, 6),
    (CIRCLE, "trace d --from R1 --dst 10.0.0.1 --workers 2", 2, 7),
    (BASE, "routes d --workers 7", 7, 2),
    (BASE, "routes d --router R1 --workers 8", 8, 2),
    (BASE, "trace d --from R1 --dst 10.0.0.1 --workers 9", 9, 2),
    (BASE, "routes nowhere --workers 6", 6, 1),
    (BASE, "routes", 4, 0),
    (BASE, "routes d --router R9", 4, 0),
    (BASE, "lines d", 4, 0),
    ("frobnicate\n", "routes d", 4, 0),
];

/// Asserts how many rounds of how many workers a run makes.
fn check_rounds(rt: &impl Host, row: &Row) -> Result<(), Fail> {
    let (text, line, workers, rounds) = *row;
    let gate = counting(workers);
    let _ = ended_at(rt, &[("a.cfg", text)], line, &gate)?;
    let passes = gate.passes.load(Ordering::SeqCst);
    let wrong = gate.wrong.load(Ordering::SeqCst);
    assert!(rt;
        passes == rounds.saturating_mul(workers) && wrong == 0,
        "{line}"
    );
    Ok(())
}

/// Asserts it of each row.
fn check_all_rounds(rt: &impl Host, rows: &[Row]) -> Result<(), Fail> {
    for row in rows {
        check_rounds(rt, row)?;
    }
    Ok(())
}

#[test]
fn each_worker_passes_once_in_each_round(rt: HostRuntime) -> Result<(), Fail> {
    check_all_rounds(&rt, &ROUNDS)
}

/// The phase before the first round of propagation.
const BEFORE_PROPAGATION: u32 = 100_000;

/// How often workers pass in the rounds of propagation of a made network, and how often out of turn.
fn passes_of_sample(rt: &impl Host, line: &str, workers: u32) -> Result<(u32, u32), Fail> {
    let gate = counting_behind(BEFORE_PROPAGATION, workers);
    let _ = ended_at(rt, &[], line, &gate)?;
    let passes = gate.passes.load(Ordering::SeqCst);
    let wrong = gate.wrong.load(Ordering::SeqCst);
    Ok((passes, wrong))
}

/// Where each worker makes sectors of the headers, they pass as often as one who makes all.
#[test]
fn each_worker_passes_once_in_each_round_of_propagation(rt: HostRuntime) -> Result<(), Fail> {
    let (alone, _wrong) = passes_of_sample(&rt, "sample 64 --workers 1", 1)?;
    let (passes, wrong) = passes_of_sample(&rt, "sample 64 --workers 3", 3)?;
    assert!(rt; alone > 10 && passes == alone.saturating_mul(3) && wrong == 0);
    Ok(())
}

/// Two routers with default routes to each other.
const IN_CIRCLES: [NamedText<'_>; 2] = [
    (
        "a.cfg",
        "hostname R1\ninterface GigabitEthernet0/0\n ip address 10.0.0.1 255.255.255.0\nip route 0.0.0.0 0.0.0.0 10.0.0.2\n",
    ),
    (
        "b.cfg",
        "hostname R2\ninterface GigabitEthernet0/0\n ip address 10.0.0.2 255.255.255.0\nip route 0.0.0.0 0.0.0.0 10.0.0.1\n",
    ),
];

/// Three workers pass in each of the three rounds of two routers, so the third worker passes too, whose share is one of the two.
#[test]
fn three_workers_pass_in_three_rounds(rt: HostRuntime) -> Result<(), Fail> {
    let gate = counting(3);
    let status = ended_at(&rt, &IN_CIRCLES, "routes d --workers 3", &gate)?;
    let passes = gate.passes.load(Ordering::SeqCst);
    let wrong = gate.wrong.load(Ordering::SeqCst);
    assert!(rt; status == Status::Done && passes == 9 && wrong == 0);
    Ok(())
}

/// A router with two ways of one cost, of which one leads to a router that has the address.
const TWO_WAYS: [NamedText<'_>; 2] = [
    (
        "a.cfg",
        "hostname R1\ninterface GigabitEthernet0/0\n ip address 10.0.0.1 255.255.255.0\nip route 9.0.0.0 255.0.0.0 10.0.0.2\nip route 9.0.0.0 255.0.0.0 10.0.0.3\n",
    ),
    (
        "b.cfg",
        "hostname R2\ninterface GigabitEthernet0/0\n ip address 10.0.0.2 255.255.255.0\ninterface Loopback0\n ip address 9.1.1.1 255.255.255.255\n",
    ),
];

/// Asserts that two workers of a run are at the gate at once in a phase.
fn check_meets(
    rt: &impl Host,
    files: &[NamedText<'_>],
    line: &str,
    phase: u32,
) -> Result<(), Fail> {
    let gate = MeetGate::new(phase);
    let status = ended_at(rt, files, line, &gate)?;
    assert!(rt; status == Status::Done && gate.met(), "{line}");
    Ok(())
}

#[test]
fn workers_meet_at_the_gate(rt: HostRuntime) -> Result<(), Fail> {
    check_meets(&rt, &IN_CIRCLES, "routes d --workers 2", 1)?;
    check_meets(&rt, &IN_CIRCLES, "reach d --from R1 --workers 2", 100_001)?;
    check_meets(&rt, &[], "sample 64 --workers 2", 100_001)?;
    check_meets(
        &rt,
        &IN_CIRCLES,
        "loops d --from R1 --examples 1 --workers 2",
        100_001,
    )?;
    check_meets(
        &rt,
        &TWO_WAYS,
        "uneven d --from R1 --examples 1 --workers 2",
        100_001,
    )
}

/// Asserts that there is no meeting before anybody comes, nor where the second worker comes when the first has waited in vain.
fn check_does_not_meet(rt: &impl Host, gate: &MeetGate) {
    assert!(rt; !gate.met());
    gate.pass(1, 0);
    gate.pass(1, 1);
    assert!(rt; !gate.met());
}

/// The first worker takes all its 200,000,000 turns: a second or two, and some twenty seconds where nothing is optimised (`rt try`).
#[test]
fn one_behind_the_other_is_no_meeting(rt: HostRuntime) {
    check_does_not_meet(&rt, &MeetGate::new(1));
}
