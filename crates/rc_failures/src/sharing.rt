//! The pairs of interfaces that share a link, which workers share.
//!
//! What is made of a share needs threads itself, so it is no trait's method (`Each` of rc_shares): each worker hands on what may start
//! them.
ghost use Rattle.std.specs.Prelude.{◌≡◌, ◌<◌, ◌≤◌, IfOk};
ghost use Rattle.std.specs.Thread.{IsSync};
ghost use Rattle.rc_config.specs.Lawful.{IsLawful};
ghost use Rattle.rc_outside.specs.Gate.{passage};
ghost use Rattle.rc_failures.specs.Failures.{AreFailures};
ghost use Rattle.rc_failures.specs.Shares.{AreRowsOf};

use crate::packet::Packet;
use crate::rows::{both, rows_of};
use rc_base::{Ends, Header, Items, Pos};
use rc_config::{Network, Pair};
use rc_outside::{Gate, Passed};
use rc_report::FailRow;
use rc_shares::share_start;
use rc_topology::Links;
use std::alloc::{AllocError, AllocGlobal, Global};
use std::thread::{Threads, join};

/// The phase of the gate before the pairs are shared.
const PHASE: u32 = 400_000;

/// The rows of the workers from `first` up to `last`: those of one half and those of the other work side by side, until a worker stands
/// alone or one pair is left. Then all who are left pass the gate, and the first of them works.
fn rows_at_once<R: Threads + Sync, G: Gate>(
    rt: &R,
    alloc: Global,
    net: &Network,
    limit: u32,
    packet: &Packet,
    pairs: &[Pair],
    workers: u32,
    first: u32,
    last: u32,
    gate: &G,
) -> (Passed, Result<Items<FailRow>, AllocError>)
    requires lawful { IsLawful net.now }
    requires some_rounds { 1 ≤ limit }
    requires few_rounds { limit ≤ 100000 }
    requires some { first < last }
    requires end { last ≤ workers }
    ensures passed { result.0 ≡ passage 400000 first last }
    ensures rows { IfOk result.1 (AreRowsOf net.now limit packet.now pairs.now workers first last) }
{
    let from = share_start(pairs.len(), workers, first);
    let to = share_start(pairs.len(), workers, last);
    if last - first == 1 || to - from <= 1 {
        let passed = Passed::in_turn(gate, PHASE, first, last);
        return (
            passed,
            rows_of(rt, alloc, net, limit, packet, pairs, from, to),
        );
    }
    let middle = first + (last - first) / 2;
    let ((passed, left), (behind, right)) = join(
        rt,
        || -> (Passed, Result<Items<FailRow>, AllocError>)
            requires { IsSync R.row × IsLawful net.now × (1 ≤ limit) × (limit ≤ 100000) × (first < middle) × (middle ≤ workers) }
            ensures { (result.0 ≡ passage 400000 first middle) × IfOk result.1 (AreRowsOf net.entry.now limit packet.entry.now pairs.entry.now workers first middle) }
        {
            rows_at_once(
                rt, alloc, net, limit, packet, pairs, workers, first, middle, gate,
            )
        },
        || -> (Passed, Result<Items<FailRow>, AllocError>)
            requires { IsSync R.row × IsLawful net.now × (1 ≤ limit) × (limit ≤ 100000) × (middle < last) × (last ≤ workers) }
            ensures { (result.0 ≡ passage 400000 middle last) × IfOk result.1 (AreRowsOf net.entry.now limit packet.entry.now pairs.entry.now workers middle last) }
        {
            rows_at_once(
                rt, alloc, net, limit, packet, pairs, workers, middle, last, gate,
            )
        },
    );
    (passed.and(behind), both(left, right))
}

/// What the failure of each single link does to a packet: a row for each pair of interfaces that share a link, in their order.
///
/// In the network of a row the link of its pair alone is gone, and the rounds, at most `limit`, from 1 to 100,000, are made anew. At a
/// fixed point the row says whether some walk of the packet from the place has one of the endings. Worker w of W, from 1 to 64, has the
/// pairs from floor(n w / W) up to floor(n (w + 1) / W), and passes the gate once before, in phase 400,000. It errs only where memory
/// runs out.
pub fn failures<R: Threads + Sync + AllocGlobal, G: Gate>(
    rt: &R,
    net: &Network,
    limit: u32,
    workers: u32,
    place: Pos,
    header: &Header,
    ends: Ends,
    gate: &G,
) -> Result<Items<FailRow>, AllocError>
    requires lawful { IsLawful net.now }
    requires some_rounds { 1 ≤ limit }
    requires few_rounds { limit ≤ 100000 }
    requires some_workers { 1 ≤ workers }
    requires few_workers { workers ≤ 64 }
    ensures { IfOk result (AreFailures net.now limit place header.now ends) }
{
    let alloc = rt.alloc();
    let links = Links::of(alloc, net)?;
    let pairs = links.pairs(alloc)?;
    let packet = Packet {
        place,
        header: *header,
        ends,
    };
    let (_passed, rows) = rows_at_once(
        rt,
        alloc,
        net,
        limit,
        &packet,
        pairs.as_slice(),
        workers,
        0,
        workers,
        gate,
    );
    rows
}
