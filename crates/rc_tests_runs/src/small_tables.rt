//! A small network whose set doesn't fit into the small table of nodes in which it is tried first.
//!
//! Two lists on its way deny what has some bit 1 in both addresses, the first one the eight lowest bits and the second one nine
//! others. Each has some hundreds of nodes, and both together more than 131,072. The router at the way's end is the first in order, so of two
//! workers the first one's share fails: the second one passes nevertheless, and not once more when the set is made again.
use crate::answers::{Host, NamedText, ended_at};
use rc_analyse::Status;
use rc_outside::Gate;
use std::sync::atomic::{AtomicU32, AtomicU64, Ordering};
use std::test::Fail;

const ON_A_WAY: [NamedText<'_>; 3] = [
    (
        "a.cfg",
        "hostname R1
interface GigabitEthernet0/0
 ip address 10.1.0.1 255.255.255.0
 ip access-group 101 in
interface GigabitEthernet0/1
 ip address 10.2.0.1 255.255.255.0
ip route 0.0.0.0 0.0.0.0 10.2.0.2
access-list 101 deny ip 0.0.0.1 255.255.255.254 0.0.0.1 255.255.255.254
access-list 101 deny ip 0.0.0.2 255.255.255.253 0.0.0.2 255.255.255.253
access-list 101 deny ip 0.0.0.4 255.255.255.251 0.0.0.4 255.255.255.251
access-list 101 deny ip 0.0.0.8 255.255.255.247 0.0.0.8 255.255.255.247
access-list 101 deny ip 0.0.0.16 255.255.255.239 0.0.0.16 255.255.255.239
access-list 101 deny ip 0.0.0.32 255.255.255.223 0.0.0.32 255.255.255.223
access-list 101 deny ip 0.0.0.64 255.255.255.191 0.0.0.64 255.255.255.191
access-list 101 deny ip 0.0.0.128 255.255.255.127 0.0.0.128 255.255.255.127
access-list 101 permit ip any any
",
    ),
    (
        "b.cfg",
        "hostname R2
interface GigabitEthernet0/0
 ip address 10.2.0.2 255.255.255.0
 ip access-group 101 in
interface GigabitEthernet0/1
 ip address 10.3.0.2 255.255.255.0
ip route 0.0.0.0 0.0.0.0 10.3.0.3
access-list 101 deny ip 0.0.2.0 255.255.253.255 0.0.2.0 255.255.253.255
access-list 101 deny ip 0.0.4.0 255.255.251.255 0.0.4.0 255.255.251.255
access-list 101 deny ip 0.0.8.0 255.255.247.255 0.0.8.0 255.255.247.255
access-list 101 deny ip 0.0.16.0 255.255.239.255 0.0.16.0 255.255.239.255
access-list 101 deny ip 0.0.32.0 255.255.223.255 0.0.32.0 255.255.223.255
access-list 101 deny ip 0.0.64.0 255.255.191.255 0.0.64.0 255.255.191.255
access-list 101 deny ip 0.0.128.0 255.255.127.255 0.0.128.0 255.255.127.255
access-list 101 deny ip 0.1.0.0 255.254.255.255 0.1.0.0 255.254.255.255
access-list 101 deny ip 0.2.0.0 255.253.255.255 0.2.0.0 255.253.255.255
access-list 101 permit ip any any
",
    ),
    (
        "c.cfg",
        "hostname R0
interface GigabitEthernet0/0
 ip address 10.3.0.3 255.255.255.0
",
    ),
];

/// Notes which workers pass in which rounds of propagation, and how often one passes twice in one round.
#[derive(Drop)]
struct Passes {
    workers: u32,
    /// A bit for each worker of each round.
    passed: AtomicU64,
    twice: AtomicU32,
}

impl Gate for Passes {
    fn pass(&self, phase: u32, worker: u32) {
        let Some(round) = phase.checked_sub(100_001) else {
            return;
        };
        let place = round.saturating_mul(self.workers).saturating_add(worker);
        let bit = 1u64.checked_shl(place).unwrap_or(0);
        let before = self.passed.fetch_or(bit, Ordering::SeqCst);
        if bit == 0 || before & bit != 0 {
            self.twice.fetch_add(1, Ordering::SeqCst);
        }
    }
}

/// Words, how many workers they ask for, and a bit for each of these in three rounds of propagation.
type Row = (&'static str, u32, u64);

const ROWS: [Row; 2] = [
    (
        "reach d --from R1:GigabitEthernet0/0 --end accepted --workers 1",
        1,
        0b111,
    ),
    (
        "reach d --from R1:GigabitEthernet0/0 --end accepted --workers 2",
        2,
        0b11_1111,
    ),
];

/// Asserts that each worker passes once in each of three rounds of propagation, and in no others.
fn check_passes(rt: &impl Host, row: &Row) -> Result<(), Fail> {
    let (line, workers, all) = *row;
    let gate = Passes {
        workers,
        passed: AtomicU64::new(0),
        twice: AtomicU32::new(0),
    };
    let status = ended_at(rt, &ON_A_WAY, line, &gate)?;
    let passed = gate.passed.load(Ordering::SeqCst);
    let twice = gate.twice.load(Ordering::SeqCst);
    assert!(rt;
        status == Status::Done && passed == all && twice == 0,
        "{line}"
    );
    Ok(())
}

/// Asserts it of each row.
fn check_all_passes(rt: &impl Host, rows: &[Row]) -> Result<(), Fail> {
    for row in rows {
        check_passes(rt, row)?;
    }
    Ok(())
}

#[test]
fn each_worker_passes_once_though_the_set_is_made_twice(rt: HostRuntime) -> Result<(), Fail> {
    check_all_passes(&rt, &ROWS)
}
