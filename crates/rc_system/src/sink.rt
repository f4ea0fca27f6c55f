//! Standard output, and any other stream of bytes.
ghost use Rattle.std.specs.Prelude.{◌≡◌, ◌≤◌, None, OnOk, OnErr};
ghost use Rattle.std.specs.Io.KnownBytes.{Appends, Keeps};
ghost use Rattle.rc_outside.specs.Causes.{Rose};
ghost use Rattle.rc_outside.specs.Sink.{appended, AppendsFront};

use rc_outside::{Sink, SinkFailed};
use std::io::Write;

/// A sink over a writer. No clause says which bytes reach the system, so this tells no content; where the writer's own clauses tell
/// what it holds, a piece that is put stands there whole.
///
/// A piece is with the writer before `put` answers. A writer that gathers pieces may hold some back: then `flush` writes them, and tells
/// whether that failed. A writer that takes nothing of a piece that isn't empty has failed too.
#[derive(Drop)]
pub struct WriterSink<W: Write + Drop> {
    writer: W,
    faults: u64,
}

impl<W: Write + Drop> WriterSink<W> {
    /// A sink over this writer, which has not failed yet.
    pub fn new(writer: W) -> WriterSink<W>
        ensures faults { result.faults ≡ 0 }
        ensures writer { result.writer ≡ writer }
    {
        WriterSink { writer, faults: 0 }
    }

    /// How often it has failed, up to 2^64 - 1.
    pub fn faults(&self) -> u64
        ensures { result ≡ self.now.faults }
    {
        self.faults
    }

    /// Has the writer write what it holds back.
    pub fn flush(&mut self) -> Result<(), SinkFailed>
        ensures kept { Keeps (W.contents self.old.writer) (W.contents self.new.writer) }
        ensures left { OnOk result (self.new.faults ≡ self.old.faults) }
        ensures later { self.old.faults ≤ self.new.faults }
        ensures cause { OnErr result (Rose self.old.faults self.new.faults) }
    {
        match self.writer.flush() {
            Ok(()) => Ok(()),
            Err(_) => {
                self.faults = self.faults.saturating_add(1);
                Err(SinkFailed)
            }
        }
    }

    /// The writer.
    pub fn into_writer(self) -> W
        ensures { result ≡ self.writer }
    {
        let WriterSink { writer, faults: _ } = self;
        writer
    }
}

impl<W: Write + Drop> Sink for WriterSink<W> {
    ghost told = { λ _. None };

    ghost faults = { λ s. s.faults };

    fn put(&mut self, piece: &[u8]) -> Result<(), SinkFailed>
        ensures written { OnOk result (Appends (W.contents self.old.writer) (W.contents self.new.writer) piece.now) }
        // what every sink says
        ensures ok { None ≡ appended None piece.now }
        ensures err { OnErr result (AppendsFront None None piece.now) }
        ensures left { OnOk result (self.new.faults ≡ self.old.faults) }
        ensures later { self.old.faults ≤ self.new.faults }
        ensures cause { OnErr result (Rose self.old.faults self.new.faults) }
    {
        match self.writer.write_all(piece) {
            Ok(()) => Ok(()),
            Err(_) => {
                self.faults = self.faults.saturating_add(1);
                Err(SinkFailed)
            }
        }
    }
}
