//! The program: the analyser over a real folder and standard output, ending with its status.
//!
//! It stands on rc_analyse, whose `run` decides all that is answered, and on the two adapters of rc_system, which are the
//! edge to the system. These tell no content and count their failures, so the clauses of `run` on what is told say nothing
//! of them, and those on causes hold. Lines are gathered before they are written, so that many go to the system at once. No text goes to
//! standard error.
#![tactic(auto)]

ghost use Rattle.std.specs.Prelude.{◌≡◌, ◌≢◌, ℕ, List, [], drop, map, string_bytes, IfErr, IfOk, IsErr};
ghost use Rattle.std.specs.IoError.{error_kind};
ghost use Rattle.std.specs.Process.{exit_status};
ghost use Rattle.std.specs.Vec.Iter.{into_iter_items};
ghost use Rattle.rc_writing.specs.Codes.{status_code};
ghost use Rattle.netcheck.specs.Ends.{EndsBy};

use rc_analyse::{Status, run};
use rc_outside::{OpenGate, SinkFailed};
use rc_system::{RealFolder, WriterSink};
use std::alloc::{AllocError, Global};
use std::env::{self, Args};
use std::io::{self, BufWriter, ErrorKind, Write};
use std::process::ExitCode;
use std::rt::Files;
use std::thread::Threads;

/// So many bytes of an answer are gathered before they are written.
const GATHERED: usize = 65_536;

/// The words after the program's name, which is the first of those that are given.
fn words_behind(alloc: Global, given: Args) -> Result<Vec<String>, AllocError>
    ensures { IfOk result (λ words. words.items ≡ drop 1 (into_iter_items given)) }
{
    let mut left = given;
    let _ = left.next();
    let mut words = Vec::new(alloc);
    for word in left {
        words.push(word)?;
    }
    Ok(words)
}

/// The words after the program's name. Where they can't be read, as words that aren't UTF-8, there are none: the answer
/// is then the usage, as for all words that aren't taken.
fn words_of(alloc: Global, given: io::Result<Args>) -> Result<Vec<String>, AllocError>
    ensures words { IfOk given (λ given. IfOk result (λ words. words.items ≡ drop 1 (into_iter_items given))) }
    ensures memory { IfErr given (λ e. error_kind e ≡ ErrorKind.OutOfMemory → IsErr result) }
    ensures unread { IfErr given (λ e. error_kind e ≢ ErrorKind.OutOfMemory → IfOk result (λ words. words.items ≡ [])) }
{
    match given {
        Ok(given) => words_behind(alloc, given),
        Err(error) if error.kind() == ErrorKind::OutOfMemory => Err(AllocError),
        Err(_) => Ok(Vec::new(alloc)),
    }
}

/// Drops a sink. What its writer holds back stays unwritten.
fn abandon<W: Write + Drop>(out: WriterSink<BufWriter<W>>) {
    let _ = out.into_writer().into_parts();
}

/// Writes what the writer of a sink holds back, or drops what can't be written.
fn write_rest<W: Write + Drop>(mut out: WriterSink<BufWriter<W>>) -> Result<(), SinkFailed> {
    let written = out.flush();
    abandon(out);
    written
}

/// How the program ends where a run ended by this status, and its last bytes were written or not.
fn ended_so(status: Status, written: Result<(), SinkFailed>) -> Status
    ensures whole { IfOk written (λ _. result ≡ status) }
    ensures failed { IfErr written (λ _. result ≡ Status.Sink) }
{
    match written {
        Ok(()) => status,
        Err(_) => Status::Sink,
    }
}

/// How the program ends where a run ended by this status: what is held back is written, and where that fails writing failed. Where the run
/// put nothing, or failed in writing, nothing more is written.
fn ended<W: Write + Drop>(status: Status, out: WriterSink<BufWriter<W>>) -> Status
    ensures { (words : List (List ℕ)) → EndsBy words status → EndsBy words result }
{
    match status {
        Status::Nodes | Status::Source | Status::Memory | Status::Sink => {
            abandon(out);
            status
        }
        _ => {
            let written = write_rest(out);
            ended_so(status, written)
        }
    }
}

/// Answers words over the folders of the system, to a writer.
fn answer_to<R, W>(rt: &R, words: &[&str], writer: W) -> Result<Status, AllocError>
where
    R: Threads + Sync + AllocGlobal + Files + Clone + Drop,
    W: Write + Drop,
    ensures { IfOk result (EndsBy (map (λ w. w.now) words.now)) }
{
    let Ok(writer) = BufWriter::with_capacity(rt.alloc(), GATHERED, writer) else {
        return Err(AllocError);
    };
    let mut out = WriterSink::new(writer);
    let mut folder = RealFolder::new(rt.clone()?);
    let status = run(rt, words, &mut folder, &mut out, &OpenGate);
    Ok(ended(status, out))
}

/// Answers words to standard output.
fn answer<R>(rt: &R, given: &[String]) -> Result<Status, AllocError>
where
    R: Threads + Sync + AllocGlobal + Files + Print + Clone + Drop,
    ensures { IfOk result (EndsBy (map string_bytes given.now)) }
{
    let mut words: Vec<&str> = Vec::new(rt.alloc());
    for word in given {
        words.push(word.as_str())?;
    }
    answer_to(rt, words.as_slice(), io::writer(rt))
}

/// How the program ends. Before `run` only memory can be wanting.
fn status_of<R>(rt: &R, given: Result<Vec<String>, AllocError>) -> Status
where
    R: Threads + Sync + AllocGlobal + Files + Print + Clone + Drop,
    ensures ends { IfOk given (λ words. result ≢ Status.Memory → EndsBy (map string_bytes words.items) result) }
    ensures memory { IsErr given → result ≡ Status.Memory }
{
    let Ok(words) = given else {
        return Status::Memory;
    };
    answer(rt, words.as_slice()).unwrap_or(Status::Memory)
}

/// The exit status of the process: the number of the run's status.
fn exit_code(status: Status) -> ExitCode
    ensures { exit_status result ≡ status_code status }
{
    ExitCode::from(status.code())
}

fn main(rt: HostRuntime) -> ExitCode {
    let given = words_of(rt.alloc(), env::args(&rt));
    exit_code(status_of(&rt, given))
}
