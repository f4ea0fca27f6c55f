//! What the files that are asked about give.
ghost use Rattle.std.specs.Prelude.{◌≡◌, ◌≢◌, ◌≤◌, [], Ok, Err, IfOk, IfSome};
ghost use Rattle.rc_config.specs.Lawful.{IsLawful};
ghost use Rattle.rc_generate.specs.Files.{files};
ghost use Rattle.rc_outside.specs.Causes.{HasCause};
ghost use Rattle.rc_words.specs.Request.{AreInRange, IsSourceInRange};
ghost use Rattle.rc_analyse.specs.Answer.{HasOneAnswer, HasOneFinding, MayAsk, dir_of, files_asked};
ghost use Rattle.rc_analyse.specs.Found.{AreFoundFor, IsEndedFor, IsFoundFor, IsSoundFound};
ghost use Rattle.rc_loading.specs.Net.{IsNet};
ghost use Rattle.rc_analyse.specs.Sound.{AreRowsAfter, HasEnd, IfOfFiles, IsSoundBefore};
ghost use Rattle.rc_answers.specs.Sound.{StartsIn};
ghost use Rattle.rc_answers.specs.Subject.{before_rounds};

use crate::found::Found;
use rc_alone::tables_alone;
use rc_answers::{Arrival, BeforeRounds, Findings, PacketSet, Subject, before_rounds};
use rc_base::Items;
use rc_config::Network;
use rc_failures::failures;
use rc_generate::Sample;
use rc_loading::read_network;
use rc_network::NetRefusal;
use rc_outside::{Folder, Gate, SourceError};
use rc_report::FailRow;
use rc_rounds::run_rounds;
use rc_route::RoundsEnd;
use rc_words::{Limits, Request, Source};
use std::alloc::{AllocError, AllocGlobal, Global};
use std::thread::Threads;

/// The network of the files of a made network. No folder can fail here.
fn made_network(alloc: Global, routers: u32) -> Result<Result<Network, NetRefusal>, SourceError>
    requires some { 4 ≤ routers }
    requires few { routers ≤ 512 }
    ensures net { IfOk result (IsNet [] (files routers)) }
    ensures lawful { IfOk result (λ net. IfOk net IsLawful) }
    ensures never { result ≢ Err SourceError.Failed }
{
    let mut folder = Sample::new(routers);
    read_network(alloc, "", &mut folder)
}

/// The network of the files that are asked about, or their first refusal.
fn network_asked<F: Folder>(
    alloc: Global,
    source: &Source,
    folder: &mut F,
) -> Result<Result<Network, NetRefusal>, SourceError>
    requires allowed { MayAsk (F.allows folder.old) source.now }
    requires in_range { IsSourceInRange source.now }
    ensures net { IfOk result (λ net. IfSome (files_asked source.now (F.told folder.old)) (λ files. IsNet (dir_of source.now) files net)) }
    ensures lawful { IfOk result (λ net. IfOk net IsLawful) }
    ensures cause { HasCause (F.faults folder.old) (F.faults folder.new) result }
{
    match source {
        Source::Folder(dir) => read_network(alloc, dir.as_str(), folder),
        Source::Made(routers) => made_network(alloc, *routers),
    }
}

/// How the rounds of a network end, with the state of a fixed point.
fn rounds_ended<R: Threads + Sync + AllocGlobal, G: Gate>(
    rt: &R,
    net: Network,
    limits: &Limits,
    subject: Subject,
    gate: &G,
) -> Result<Found, AllocError>
    requires lawful { IsLawful net }
    requires limits { AreInRange limits.now }
    requires starts { StartsIn net subject }
    ensures ended { IfOk result (IsEndedFor net limits.now subject) }
    ensures sound { IfOk result IsSoundFound }
{
    let outcome = run_rounds(rt, &net, limits.rounds, limits.workers, gate)?;
    Ok(Found::Whole(Findings::Ended(net, outcome, subject)))
}

/// The same where packets are asked about. Where no router reads what any router knows, the tables of the fixed point are prepared with no
/// state between.
fn packets_ended<R: Threads + Sync + AllocGlobal, G: Gate>(
    rt: &R,
    net: Network,
    limits: &Limits,
    packets: PacketSet,
    gate: &G,
) -> Result<Found, AllocError>
    requires lawful { IsLawful net }
    requires limits { AreInRange limits.now }
    requires starts { StartsIn net (Subject.Packets packets) }
    ensures ended { IfOk result (IsEndedFor net limits.now (Subject.Packets packets)) }
    ensures sound { IfOk result IsSoundFound }
{
    let (rounds, workers) = (limits.rounds, limits.workers);
    let found = tables_alone(rt, rt.alloc(), &net, rounds, workers, gate)?;
    match found {
        Some(alone) => Ok(Found::Prepared(net, alone, packets)),
        None => rounds_ended(rt, net, limits, Subject::Packets(packets), gate),
    }
}

/// How the rounds of a network end.
fn ended<R: Threads + Sync + AllocGlobal, G: Gate>(
    rt: &R,
    net: Network,
    limits: &Limits,
    subject: Subject,
    gate: &G,
) -> Result<Found, AllocError>
    requires lawful { IsLawful net }
    requires limits { AreInRange limits.now }
    requires starts { StartsIn net subject }
    ensures ended { IfOk result (IsEndedFor net limits.now subject) }
    ensures sound { IfOk result IsSoundFound }
{
    match subject {
        Subject::Packets(packets) => packets_ended(rt, net, limits, packets, gate),
        _ => rounds_ended(rt, net, limits, subject, gate),
    }
}

/// How the rounds of a network end, apart from the state of a fixed point, which is dropped.
fn end_alone<R: Threads + Sync + AllocGlobal, G: Gate>(
    rt: &R,
    net: &Network,
    limits: &Limits,
    gate: &G,
) -> Result<RoundsEnd, AllocError>
    requires lawful { IsLawful net.now }
    requires limits { AreInRange limits.now }
    ensures { IfOk result (HasEnd net.now limits.now) }
{
    let outcome = run_rounds(rt, net, limits.rounds, limits.workers, gate)?;
    Ok(outcome.end())
}

/// What each single link's failure does, where the rounds of the whole network end at a fixed point.
fn rows_after<R: Threads + Sync + AllocGlobal, G: Gate>(
    rt: &R,
    net: &Network,
    end: RoundsEnd,
    limits: &Limits,
    arrival: &Arrival,
    gate: &G,
) -> Result<Items<FailRow>, AllocError>
    requires lawful { IsLawful net.now }
    requires limits { AreInRange limits.now }
    ensures { IfOk result (AreRowsAfter net.now limits.now arrival.now end) }
{
    match end {
        RoundsEnd::Fixed(_) => failures(
            rt,
            net,
            limits.rounds,
            limits.workers,
            arrival.place,
            &arrival.header,
            arrival.ends,
            gate,
        ),
        RoundsEnd::Repeats(_, _) => Ok(Items::new(rt.alloc())),
        RoundsEnd::Limit(_) => Ok(Items::new(rt.alloc())),
    }
}

/// How the rounds of a network end, and what each single link's failure does.
fn failed<R: Threads + Sync + AllocGlobal, G: Gate>(
    rt: &R,
    net: Network,
    limits: &Limits,
    arrival: &Arrival,
    gate: &G,
) -> Result<Found, AllocError>
    requires lawful { IsLawful net }
    requires limits { AreInRange limits.now }
    ensures failures { IfOk result (IsFoundFor limits.now (BeforeRounds.OfFailures net arrival.now)) }
    ensures sound { IfOk result IsSoundFound }
{
    let end = end_alone(rt, &net, limits, gate)?;
    let rows = rows_after(rt, &net, end, limits, arrival, gate)?;
    Ok(Found::Whole(Findings::Failures(net, end, rows)))
}

/// What is found of what is asked. Only what is asked of a network once its rounds have ended needs memory.
fn findings_of<R: Threads + Sync + AllocGlobal, G: Gate>(
    rt: &R,
    limits: &Limits,
    known: BeforeRounds,
    gate: &G,
) -> Result<Found, AllocError>
    requires limits { AreInRange limits.now }
    requires sound { IsSoundBefore known }
    ensures found { IfOk result (IsFoundFor limits.now known) }
    ensures of_files { IfOfFiles known (λ found. result ≡ Ok (Found.Whole (Findings.OfFiles found))) }
    ensures sound { IfOk result IsSoundFound }
{
    match known {
        BeforeRounds::OfFiles(found) => Ok(Found::Whole(Findings::OfFiles(found))),
        BeforeRounds::OfRounds(net, subject) => ended(rt, net, limits, subject, gate),
        BeforeRounds::OfFailures(net, arrival) => failed(rt, net, limits, &arrival, gate),
    }
}

/// What a network, or the refusal of one, is found to be for a request.
fn found_in<R: Threads + Sync + AllocGlobal, G: Gate>(
    rt: &R,
    request: &Request,
    net: Result<Network, NetRefusal>,
    gate: &G,
) -> Result<Found, SourceError>
    requires lawful { IfOk net IsLawful }
    requires limits { AreInRange request.now.limits }
    ensures found { IfOk result (IsFoundFor request.now.limits (before_rounds net request.now.ask)) }
    ensures of_files { IfOfFiles (before_rounds net request.now.ask) (λ found. result ≡ Ok (Found.Whole (Findings.OfFiles found))) }
    ensures sound { IfOk result IsSoundFound }
    ensures never { result ≢ Err SourceError.Failed }
{
    match findings_of(rt, &request.limits, before_rounds(net, &request.ask), gate) {
        Ok(found) => Ok(found),
        Err(_) => Err(SourceError::Memory),
    }
}

/// What the files that are asked about are found to be.
#[tactic(auto, using(crate::proofs::FoundLaws::found_for))]
pub(crate) fn analyse_folder<R: Threads + Sync + AllocGlobal, F: Folder, G: Gate>(
    rt: &R,
    request: &Request,
    folder: &mut F,
    gate: &G,
) -> Result<Found, SourceError>
    requires allowed { MayAsk (F.allows folder.old) request.now.source }
    requires limits { AreInRange request.now.limits }
    requires source { IsSourceInRange request.now.source }
    ensures findings { IfOk result (AreFoundFor (files_asked request.now.source (F.told folder.old)) request.now) }
    ensures sound { IfOk result IsSoundFound }
    ensures cause { HasCause (F.faults folder.old) (F.faults folder.new) result }
{
    let net = network_asked(rt.alloc(), &request.source, folder)?;
    found_in(rt, request, net, gate)
}

/// The files of a folder give one thing to a request: one refusal, or that there is no such place, or one network with one
/// outcome and one thing that is shown after it. So the answer is one, in whatever order the folder lists them and by whatever number of
/// workers.
pub fn one_answer()
    ensures finding { HasOneFinding }
    ensures answer { HasOneAnswer }
{}
