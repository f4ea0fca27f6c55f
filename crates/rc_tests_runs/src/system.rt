//! The adapters to the system: real folders, real streams, and the status with which a run over them ends.
use crate::answers::{BASE, CIRCLE};
use rc_analyse::{Status, run};
use rc_outside::{Folder, OpenGate, Sink, SinkFailed, SourceError};
use rc_system::{RealFolder, WriterSink};
use std::io::{BufWriter, Write};
use std::os::unix::fs::symlink;
use std::process::Abort;
use std::rt::Files;
use std::test::Fail;
use std::thread::Threads;
use std::{fs, io};

// ---- folders

/// A file, a link to it, one that leads nowhere and one to a folder, each of a configuration's name, and a folder of such a name.
fn make_files<R: Files + AllocGlobal>(rt: &R) -> Result<(), Fail> {
    let _ = fs::remove_dir_all(rt, "tried");
    fs::create_dir(rt, "tried")?;
    fs::write(rt, "tried/a.cfg", "hostname R1\n")?;
    symlink(rt, "a.cfg", "tried/b.cfg")?;
    fs::create_dir(rt, "tried/c.cfg")?;
    symlink(rt, "gone.cfg", "tried/d.cfg")?;
    symlink(rt, "c.cfg", "tried/e.cfg")?;
    Ok(())
}

fn names_are_files<R: Files + AllocGlobal + Abort + Clone + Drop>(
    rt: &R,
    folder: &mut RealFolder<R>,
) -> Result<(), Fail> {
    let names = folder.names(rt.alloc(), "tried/").ok().ok_or("names")?;
    let mut names = names.into_vec();
    names.sort()?;
    match names.as_slice() {
        [first, second] => assert!(rt; first.as_str() == "a.cfg" && second.as_str() == "b.cfg"),
        _ => assert!(rt; false, "other names"),
    }
    Ok(())
}

fn fronts_are_read<R: Files + AllocGlobal + Abort + Clone + Drop>(
    rt: &R,
    folder: &mut RealFolder<R>,
    rows: &[(usize, &str)],
) -> Result<(), Fail> {
    for (most, text) in rows {
        let read = folder.read(rt.alloc(), "tried", "b.cfg", *most);
        let bytes = read.ok().ok_or("read")?;
        assert!(rt; bytes.as_slice() == text.as_bytes(), "{text}");
    }
    assert!(rt; folder.faults() == 0);
    Ok(())
}

/// Asserts that listing each of these fails, and how many faults there are then.
fn listings_fail<R: Files + AllocGlobal + Abort + Clone + Drop>(
    rt: &R,
    folder: &mut RealFolder<R>,
    rows: &[(&str, u64)],
) {
    for (dir, faults) in rows {
        let failed = folder.names(rt.alloc(), dir).err();
        assert!(rt;
            failed == Some(SourceError::Failed) && folder.faults() == *faults,
            "{dir}"
        );
    }
}

/// A folder that isn't there, a file in the place of a folder, a link that can't be followed, since it leads to itself, and a file
/// that isn't there.
fn failures_are_counted<R: Files + AllocGlobal + Abort + Clone + Drop>(
    rt: &R,
    folder: &mut RealFolder<R>,
) -> Result<(), Fail> {
    symlink(rt, "f.cfg", "tried/f.cfg")?;
    listings_fail(rt, folder, &[("none", 1), ("tried/a.cfg", 2), ("tried", 3)]);
    let failed = folder.read(rt.alloc(), "tried", "none.cfg", 100).err();
    assert!(rt; failed == Some(SourceError::Failed) && folder.faults() == 4);
    Ok(())
}

/// How many bytes are asked for, and the front that is read.
const FRONTS: [(usize, &str); 3] = [(0, "h"), (7, "hostname"), (100, "hostname R1\n")];

#[test]
fn a_real_folder(rt: HostRuntime) -> Result<(), Fail> {
    make_files(&rt)?;
    let mut folder = RealFolder::new(rt.clone()?);
    names_are_files(&rt, &mut folder)?;
    fronts_are_read(&rt, &mut folder, &FRONTS)?;
    failures_are_counted(&rt, &mut folder)?;
    fs::remove_dir_all(&rt, "tried")?;
    Ok(())
}

// ---- streams

/// A writer that takes one byte at most, and after `room` bytes nothing.
#[derive(Drop)]
struct Narrow {
    room: usize,
}

impl Write for Narrow {
    fn write(&mut self, buf: &[u8]) -> io::Result<usize> {
        if buf.is_empty() || self.room == 0 {
            return Ok(0);
        }
        self.room -= 1;
        Ok(1)
    }

    fn flush(&mut self) -> io::Result<()> {
        Ok(())
    }
}

/// Puts a line in two pieces and nothing between them, and tells the faults.
fn put_line<W: Write + Drop>(out: &mut WriterSink<W>) -> (bool, u64) {
    let is_put = out.put(b"outcome ") == Ok(())
        && out.put(b"") == Ok(())
        && out.put(b"fixed 1\n") == Ok(());
    (is_put, out.faults())
}

#[test]
fn a_real_stream(rt: HostRuntime) -> Result<(), Fail> {
    let mut out = WriterSink::new(fs::create(&rt, "text")?);
    assert!(rt; put_line(&mut out) == (true, 0));
    // What is put is there at once.
    let text = fs::read_to_string(&rt, "text")?;
    assert!(rt; text.as_str() == "outcome fixed 1\n");

    // A file that is open for reading takes no bytes.
    let mut out = WriterSink::new(fs::open(&rt, "text")?);
    assert!(rt; put_line(&mut out) == (false, 1));
    assert!(rt; out.put(b"more") == Err(SinkFailed) && out.faults() == 2);
    fs::remove_file(&rt, "text")?;
    Ok(())
}

#[test]
fn a_writer_that_takes_no_more(rt: HostRuntime) {
    let mut out = WriterSink::new(Narrow { room: 6 });
    assert!(rt;
        out.put(b"four") == Ok(())
            && out.put(b"four") == Err(SinkFailed)
            && out.put(b"") == Ok(())
            && out.faults() == 1
    );
}

#[test]
fn what_a_writer_holds_back(rt: HostRuntime) -> Result<(), Fail> {
    let writer = BufWriter::with_capacity(rt.alloc(), 64, Narrow { room: 6 })?;
    let mut out = WriterSink::new(writer);
    assert!(rt; out.put(b"four") == Ok(()) && out.flush() == Ok(()));
    assert!(rt; out.put(b"four") == Ok(()) && out.faults() == 0);
    assert!(rt; out.flush() == Err(SinkFailed) && out.faults() == 1);
    let (_, held_back) = out.into_writer().into_parts();
    assert!(rt; held_back.as_slice() == b"ur".as_slice());
    Ok(())
}

// ---- whole runs, as the program makes them

/// A configuration with a line that isn't modelled.
const NOT_MODELLED: &str = "hostname R1\ninterface GigabitEthernet0/0\n ip nat inside\n";

/// A folder with one file of this text.
fn make_folder<R: Files + AllocGlobal>(rt: &R, dir: &str, text: &str) -> Result<(), Fail> {
    fs::create_dir(rt, dir)?;
    let path = format!(in rt.alloc(); "{dir}/a.cfg")?;
    fs::write(rt, path.as_str(), text)?;
    Ok(())
}

fn make_folders<R: Files + AllocGlobal + Clone + Drop>(rt: &R) -> Result<(), Fail> {
    let _ = fs::remove_dir_all(rt, "ended");
    fs::create_dir(rt, "ended")?;
    make_folder(rt, "ended/base", BASE)?;
    make_folder(rt, "ended/refused", NOT_MODELLED)?;
    make_folder(rt, "ended/turning", CIRCLE)
}

/// How words end over the folders of the system and to a writer.
fn status_of<R, W>(rt: &R, words: &[&str], writer: W) -> io::Result<Status>
where
    R: Threads + Sync + AllocGlobal + Files + Clone + Drop,
    W: Write + Drop,
{
    let mut out = WriterSink::new(writer);
    let mut folder = RealFolder::new(rt.clone()?);
    Ok(run(rt, words, &mut folder, &mut out, &OpenGate))
}

/// Asserts of each line that its words, over the folders of the system and to a file, end with this exit status.
fn end_with<R>(rt: &R, rows: &[(&str, u8)]) -> Result<(), Fail>
where
    R: Threads + Sync + AllocGlobal + Files + Abort + Clone + Drop,
{
    for (line, code) in rows {
        let words: Vec<&str> = line.split(' ').collect(rt.alloc())?;
        let status = status_of(rt, words.as_slice(), fs::create(rt, "answer")?)?;
        assert!(rt; status.code() == *code, "{line}");
    }
    Ok(())
}

/// A file that is open for reading takes no bytes.
fn ends_with_a_fault<R>(rt: &R) -> Result<(), Fail>
where
    R: Threads + Sync + AllocGlobal + Files + Abort + Clone + Drop,
{
    let status = status_of(rt, &["routes", "ended/base"], fs::open(rt, "answer")?)?;
    assert!(rt; status.code() == 7);
    Ok(())
}

/// Lines, and the exit statuses with which they end.
const CODES: [(&str, u8); 7] = [
    ("routes ended/base", 0),
    ("routes ended/refused", 1),
    ("routes", 2),
    ("routes ended/turning", 3),
    ("routes ended/turning --rounds 6", 4),
    ("routes ended/none", 6),
    ("routes ended/base --router R9", 9),
];

#[test]
fn exit_statuses(rt: HostRuntime) -> Result<(), Fail> {
    make_folders(&rt)?;
    end_with(&rt, &CODES)?;
    ends_with_a_fault(&rt)?;
    fs::remove_file(&rt, "answer")?;
    fs::remove_dir_all(&rt, "ended")?;
    Ok(())
}
