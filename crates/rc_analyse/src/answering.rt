//! What the words ask for is found and written.
ghost use Rattle.std.specs.Prelude.{◌≡◌, ◌≢◌, ◌<◌, IfSome};
ghost use Rattle.rc_outside.specs.Causes.{Rose};
ghost use Rattle.rc_words.specs.Request.{AreInRange, IsSourceInRange};
ghost use Rattle.rc_analyse.specs.Answer.{IsAnswer, IsCompleteWithout, IsSilent, MayAsk, files_asked};

use crate::findings::analyse_folder;
use crate::found::answer_found;
use rc_outside::{Folder, Gate, Sink, SourceError};
use rc_words::Request;
use rc_writing::Status;
use std::alloc::AllocGlobal;
use std::thread::Threads;

/// Answers a request over the files of its folder.
#[tactic(auto, using(crate::proofs::AnswerLaws::complete_where_told))]
pub(crate) fn answer_folder<R: Threads + Sync + AllocGlobal, F: Folder, S: Sink, G: Gate>(
    rt: &R,
    request: &Request,
    folder: &mut F,
    out: &mut S,
    gate: &G,
) -> Status
    requires allowed { MayAsk (F.allows folder.old) request.now.source }
    requires limits { AreInRange request.now.limits }
    requires source { IsSourceInRange request.now.source }
    ensures answer { IfSome (files_asked request.now.source (F.told folder.old)) (λ files. IsAnswer files request.now result (S.told out.old) (S.told out.new)) }
    ensures complete { IfSome (files_asked request.now.source (F.told folder.old)) (λ files. IsCompleteWithout (Rose (F.faults folder.old) (F.faults folder.new)) (Rose (S.faults out.old) (S.faults out.new)) files request.now result (S.told out.old) (S.told out.new)) }
    ensures never_usage { result ≢ Status.Usage }
    ensures silent { IsSilent result → S.told out.new ≡ S.told out.old }
    ensures source_only { result ≡ Status.Source → Rose (F.faults folder.old) (F.faults folder.new) }
    ensures source_always { F.faults folder.old < F.faults folder.new → result ≡ Status.Source }
    ensures sink_only { result ≡ Status.Sink → Rose (S.faults out.old) (S.faults out.new) }
    ensures sink_always { S.faults out.old < S.faults out.new → result ≡ Status.Sink }
{
    match analyse_folder(rt, request, folder, gate) {
        Ok(found) => answer_found(rt, request, found, out, gate),
        Err(SourceError::Failed) => Status::Source,
        Err(SourceError::Memory) => Status::Memory,
    }
}
