//! The top call.
ghost use Rattle.std.specs.Prelude.{◌≡◌, ◌≢◌, ◌<◌, map, IsNone, IfOk, IfErr, IfSome, IfNone};
ghost use Rattle.rc_outside.specs.Causes.{Rose};
ghost use Rattle.rc_words.specs.Request.{AreInRange, IsSourceInRange, request_of};
ghost use Rattle.rc_writing.specs.Texts.{usage_text};
ghost use Rattle.rc_writing.specs.Written.{IsWritten, IsWrittenOrMemory};
ghost use Rattle.rc_analyse.specs.Answer.{MayAsk, files_asked, IsAnswer, IsSilent, IsCompleteWithout, IsTakenWhenPlain};

use crate::answering::answer_folder;
use rc_outside::{Folder, Gate, Sink};
use rc_words::{Request, WordsFault, plain_words_are_taken, request_of_words};
use rc_writing::{Status, answer_usage};
use std::alloc::AllocGlobal;
use std::thread::Threads;

/// The law on plain words, for these words.
#[tactic(auto, using(crate::proofs::AnswerLaws::taken_when_plain))]
fn take_plain_words(words: &[&str])
    ensures { IsTakenWhenPlain (map (λ w. w.now) words.now) }
{
    let _ = words;
    plain_words_are_taken();
}

/// Answers words that make no request: with the usage text, which takes no memory, or with nothing where memory was short.
fn answer_fault<S: Sink>(fault: WordsFault, out: &mut S) -> Status
    ensures usage { fault ≡ WordsFault.Usage → IsWritten Status.Usage usage_text result (S.told out.old) (S.told out.new) }
    ensures memory { fault ≡ WordsFault.Memory → (result ≡ Status.Memory) × (S.told out.new ≡ S.told out.old) }
    ensures sink_only { result ≡ Status.Sink → Rose (S.faults out.old) (S.faults out.new) }
    ensures sink_always { S.faults out.old < S.faults out.new → result ≡ Status.Sink }
{
    match fault {
        WordsFault::Usage => answer_usage(out),
        WordsFault::Memory => Status::Memory,
    }
}

/// Answers a request, or that words make none.
fn answer_request<R: Threads + Sync + AllocGlobal, F: Folder, S: Sink, G: Gate>(
    rt: &R,
    request: Result<Request, WordsFault>,
    folder: &mut F,
    out: &mut S,
    gate: &G,
) -> Status
    requires allowed { IfOk request (λ r. MayAsk (F.allows folder.old) r.source) }
    requires limits { IfOk request (λ r. AreInRange r.limits) }
    requires source { IfOk request (λ r. IsSourceInRange r.source) }
    ensures usage { IfErr request (λ fault. fault ≡ WordsFault.Usage → IsWritten Status.Usage usage_text result (S.told out.old) (S.told out.new)) }
    ensures memory { IfErr request (λ fault. fault ≡ WordsFault.Memory → (result ≡ Status.Memory) × (S.told out.new ≡ S.told out.old)) }
    ensures never_usage { IfOk request (λ r. result ≢ Status.Usage) }
    ensures answer { IfOk request (λ r. IfSome (files_asked r.source (F.told folder.old)) (λ files. IsAnswer files r result (S.told out.old) (S.told out.new))) }
    ensures complete { IfOk request (λ r. IfSome (files_asked r.source (F.told folder.old)) (λ files.
        IsCompleteWithout (Rose (F.faults folder.old) (F.faults folder.new)) (Rose (S.faults out.old) (S.faults out.new)) files r result (S.told out.old) (S.told out.new))) }
    ensures silent { IsSilent result → S.told out.new ≡ S.told out.old }
    ensures source_only { result ≡ Status.Source → Rose (F.faults folder.old) (F.faults folder.new) }
    ensures source_always { F.faults folder.old < F.faults folder.new → result ≡ Status.Source }
    ensures sink_only { result ≡ Status.Sink → Rose (S.faults out.old) (S.faults out.new) }
    ensures sink_always { S.faults out.old < S.faults out.new → result ≡ Status.Sink }
{
    let request = match request {
        Ok(request) => request,
        Err(fault) => return answer_fault(fault, out),
    };
    answer_folder(rt, &request, folder, out, gate)
}

/// Answers words over the files of a folder.
///
/// `words` are those after the program's name. The status says how it ended; what is written goes to `out`.
#[tactic(auto, using(crate::proofs::AnswerLaws::may_ask))]
pub fn run<R: Threads + Sync + AllocGlobal, F: Folder, S: Sink, G: Gate>(
    rt: &R,
    words: &[&str],
    folder: &mut F,
    out: &mut S,
    gate: &G,
) -> Status
    requires { IfSome (request_of (map (λ w. w.now) words.now)) (λ r. MayAsk (F.allows folder.old) r.source) }

    // Words that clap refuses, or in which a place, an address or an ending isn't read, get the usage text, and no others do.
    ensures usage { IfNone (request_of (map (λ w. w.now) words.now)) (IsWrittenOrMemory Status.Usage usage_text result (S.told out.old) (S.told out.new)) }
    ensures usage_only { result ≡ Status.Usage → IsNone (request_of (map (λ w. w.now) words.now)) }

    // Plain words are taken, with the values that they say and else the defaults, where their place, addresses and ending are read.
    ensures plain { IsTakenWhenPlain (map (λ w. w.now) words.now) }

    // Where the files are told, the text and the status are those of the first refusal, or of the place that isn't there, or of the lines of
    // access lists that never decide, or of the rounds' outcome with the routes, the walk, the cubes or the failures of single links that are
    // asked for; or of that text a front, where the sink failed.
    ensures answer { IfSome (request_of (map (λ w. w.now) words.now)) (λ r. IfSome (files_asked r.source (F.told folder.old)) (λ files. IsAnswer files r result (S.told out.old) (S.told out.new))) }

    // Where reading or memory failed, or the table of nodes is too small, nothing is written.
    ensures silent { IsSilent result → S.told out.new ≡ S.told out.old }

    // Without a fault the whole text is written, unless memory runs out or the query needs more different nodes than the table may hold.
    ensures complete { IfSome (request_of (map (λ w. w.now) words.now)) (λ r. IfSome (files_asked r.source (F.told folder.old)) (λ files.
        IsCompleteWithout (Rose (F.faults folder.old) (F.faults folder.new)) (Rose (S.faults out.old) (S.faults out.new)) files r result (S.told out.old) (S.told out.new))) }

    // Where reading failed: only where the folder counted a fault, and always where it did.
    ensures source_only { result ≡ Status.Source → Rose (F.faults folder.old) (F.faults folder.new) }
    ensures source_always { F.faults folder.old < F.faults folder.new → result ≡ Status.Source }

    // Where writing failed: likewise of the sink.
    ensures sink_only { result ≡ Status.Sink → Rose (S.faults out.old) (S.faults out.new) }
    ensures sink_always { S.faults out.old < S.faults out.new → result ≡ Status.Sink }
{
    take_plain_words(words);
    let request = request_of_words(rt.alloc(), words);
    answer_request(rt, request, folder, out, gate)
}
