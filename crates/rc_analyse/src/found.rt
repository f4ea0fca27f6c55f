//! What is found, as it is answered.
ghost use Rattle.std.specs.Prelude.{◌≡◌, ◌<◌};
ghost use Rattle.rc_analyse.specs.Found.{IsPutFor, IsSoundFound};
ghost use Rattle.rc_outside.specs.Causes.{Rose};
ghost use Rattle.rc_words.specs.Request.{AreInRange};

use rc_alone::Alone;
use rc_answers::{Findings, PacketSet, answer_findings, answer_prepared};
use rc_config::Network;
use rc_outside::{Gate, Sink};
use rc_words::Request;
use rc_writing::Status;
use std::alloc::AllocGlobal;
use std::mem::forget;
use std::thread::Threads;

/// What is found.
#[derive(Drop)]
pub(crate) enum Found {
    /// All of it.
    Whole(Findings),
    /// A network whose rounds end at a fixed point, of whose state the prepared tables stand for all, and which packets are asked about.
    Prepared(Network, Alone, PacketSet),
}

/// Answers what was found. All of its memory is taken before the first line is put. The network and its links are not dropped behind the
/// answer: the program ends there.
pub(crate) fn answer_found<R: Threads + Sync + AllocGlobal, S: Sink, G: Gate>(
    rt: &R,
    request: &Request,
    found: Found,
    out: &mut S,
    gate: &G,
) -> Status
    requires limits { AreInRange request.now.limits }
    requires sound { IsSoundFound found }
    ensures put { IsPutFor request.now found result (S.told out.old) (S.told out.new) }
    ensures sink_only { result ≡ Status.Sink → Rose (S.faults out.old) (S.faults out.new) }
    ensures sink_always { S.faults out.old < S.faults out.new → result ≡ Status.Sink }
{
    match found {
        Found::Whole(found) => answer_findings(rt, request, found, out, gate),
        Found::Prepared(net, alone, packets) => {
            let Alone {
                links,
                tables,
                round,
            } = alone;
            let status = answer_prepared(
                rt, request, &net, round, &links, tables, &packets, out, gate,
            );
            forget(links);
            forget(net);
            status
        }
    }
}
