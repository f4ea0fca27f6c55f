//! One text is written, and a status answered.
ghost use Rattle.std.specs.Prelude.{◌≡◌, ◌≢◌, ◌++◌, ◌<◌, List, ℕ};
ghost use Rattle.rc_outside.specs.Causes.{Rose};
ghost use Rattle.rc_report.specs.OutcomeText.{outcome_line};
ghost use Rattle.rc_writing.specs.Texts.{head_text, usage_text};
ghost use Rattle.rc_writing.specs.Written.{IsWritten, IsWrittenOrMemory, status_after};

use crate::Status;
use crate::lines::{HeadLine, put_usage};
use rc_outside::Sink;
use rc_report::{Buffer, OutcomeLine, Puts, Then};
use rc_route::RoundsEnd;
use rc_words::Source;
use std::alloc::Global;

/// Answers words that are not taken. It takes no memory.
pub fn answer_usage<S: Sink>(out: &mut S) -> Status
    ensures put { IsWritten Status.Usage usage_text result (S.told out.old) (S.told out.new) }
    ensures sink_only { result ≡ Status.Sink → Rose (S.faults out.old) (S.faults out.new) }
    ensures sink_always { S.faults out.old < S.faults out.new → result ≡ Status.Sink }
{
    match put_usage(out) {
        Ok(()) => Status::Usage,
        Err(_) => Status::Sink,
    }
}

/// Writes a text, and answers with this status, or that the sink failed. The buffer of a line is all the memory that it takes.
pub fn write<S: Sink, T: Puts>(alloc: Global, status: Status, text: T, out: &mut S) -> Status
    requires status { status ≢ Status.Sink }
    requires ready { T.ready text }
    ensures put { (bytes : List ℕ) → T.says text bytes → IsWrittenOrMemory status bytes result (S.told out.old) (S.told out.new) }
    ensures sink_only { result ≡ Status.Sink → Rose (S.faults out.old) (S.faults out.new) }
    ensures sink_always { S.faults out.old < S.faults out.new → result ≡ Status.Sink }
{
    let mut line = match Buffer::new(alloc) {
        Ok(line) => line,
        Err(_) => return Status::Memory,
    };
    match text.put(out, &mut line) {
        Ok(()) => status,
        Err(_) => Status::Sink,
    }
}

/// The status of how rounds ended.
fn status_after(end: RoundsEnd) -> Status
    ensures status { result ≡ status_after end }
    ensures never_sink { result ≢ Status.Sink }
{
    match end {
        RoundsEnd::Fixed(_) => Status::Done,
        RoundsEnd::Repeats(_, _) => Status::Repeats,
        RoundsEnd::Limit(_) => Status::Limit,
    }
}

/// Writes how the rounds ended, behind the size of a made network, and a text behind that.
pub fn write_ended<S: Sink, T: Puts>(
    alloc: Global,
    source: &Source,
    end: RoundsEnd,
    behind: T,
    out: &mut S,
) -> Status
    requires ready { T.ready behind }
    ensures put { (text : List ℕ) → T.says behind text → IsWrittenOrMemory (status_after end) ((head_text source.now ++ outcome_line end) ++ text) result (S.told out.old) (S.told out.new) }
    ensures sink_only { result ≡ Status.Sink → Rose (S.faults out.old) (S.faults out.new) }
    ensures sink_always { S.faults out.old < S.faults out.new → result ≡ Status.Sink }
{
    let first = Then {
        first: HeadLine { source },
        behind: OutcomeLine(end),
    };
    write(alloc, status_after(end), Then { first, behind }, out)
}
