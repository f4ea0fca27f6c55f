//! The cases of a file, a line at a time.
use crate::Host;
use crate::line::{Line, line_of};
use rc_analyse::run;
use rc_outside::{MemFile, MemFolder, MemSink, OpenGate};
use std::alloc::{AllocError, Global};
use std::{io, mem};

/// What the lines behind `|` belong to.
#[derive(Clone, Copy)]
enum Part<'a> {
    /// Nothing: there may be none.
    None,
    /// The file of this name.
    File(&'a str),
    /// The run of these words, parted by blanks, or of none.
    Run(Option<&'a str>),
}

/// The cases of a file, as far as it was read.
pub struct Cases<'a> {
    /// The name of the case file.
    name: &'a str,
    /// How many of its lines were read.
    line: usize,
    /// The files of the folder, each with its name. A file that was put anew stands there twice.
    files: Vec<(&'a str, String)>,
    /// The file or the run that is being read.
    part: Part<'a>,
    /// The line where it begins.
    begin: usize,
    /// Its text.
    text: String,
    /// Its status.
    status: u8,
    /// How many runs there were.
    runs: usize,
    /// How many of them ended or said otherwise, with the lines that aren't ones of a case file.
    otherwise: usize,
}

/// By a function of its own, so that what holds cases drops each of their lists by one call.
impl<'a> Drop for Cases<'a> {
    fn drop(self) {
        let Cases {
            name: _,
            line: _,
            files: _,
            part: _,
            begin: _,
            text: _,
            status: _,
            runs: _,
            otherwise: _,
        } = self;
    }
}

/// How much a run may say.
const ROOM: usize = 65_536;

/// A file of a folder.
fn file_in(alloc: Global, folder: &str, name: &str, text: &str) -> Result<MemFile, AllocError> {
    Ok(MemFile {
        folder: String::from_str(alloc, folder)?,
        name: String::from_str(alloc, name)?,
        bytes: Vec::from_slice(alloc, text.as_bytes())?,
    })
}

/// The files of the folder `d`, and one of another folder before them. Those that were put last come first, since a folder in memory
/// has only the first file of a name.
fn files_in(alloc: Global, files: &[(&str, String)]) -> Result<Vec<MemFile>, AllocError> {
    let mut held = Vec::new(alloc);
    held.push(file_in(alloc, "elsewhere", "a.cfg", "frobnicate")?)?;
    for (name, text) in files.iter().rev() {
        held.push(file_in(alloc, "d", name, text.as_str())?)?;
    }
    Ok(held)
}

/// The words of a line, parted by blanks.
fn words_of<'a>(alloc: Global, line: Option<&'a str>) -> Result<Vec<&'a str>, AllocError> {
    match line {
        Some(line) => line.split(' ').collect(alloc),
        None => Ok(Vec::new(alloc)),
    }
}

/// The status with which the words of a line end over the files. What is said goes to the sink.
fn ran<R: Host>(
    rt: &R,
    line: Option<&str>,
    files: &[(&str, String)],
    sink: &mut MemSink,
) -> io::Result<u8> {
    let words = words_of(rt.alloc(), line)?;
    let mut folder = MemFolder::new(files_in(rt.alloc(), files)?, Vec::new(rt.alloc()));
    let status = run(rt, words.as_slice(), &mut folder, sink, &OpenGate);
    Ok(status.code())
}

impl<'a> Cases<'a> {
    /// No cases yet, of the file of this name.
    pub fn new(alloc: Global, name: &'a str) -> Cases<'a> {
        Cases {
            name,
            line: 0,
            files: Vec::new(alloc),
            part: Part::None,
            begin: 0,
            text: String::new(alloc),
            status: 0,
            runs: 0,
            otherwise: 0,
        }
    }

    /// Counts a run that ended so, and tells of it where it isn't as written.
    fn compare<R: Host>(&mut self, rt: &R, status: u8, said: &[u8]) -> io::Result<()> {
        self.runs = self.runs.saturating_add(1);
        if status == self.status && said == self.text.as_bytes() {
            return Ok(());
        }
        self.otherwise = self.otherwise.saturating_add(1);
        let said = str::from_utf8(said).unwrap_or("no UTF-8\n");
        let (name, begin) = (self.name, self.begin);
        print!(rt; "{name}:{begin}: status {status}, and it said:\n{said}")
    }

    /// Runs the words of a line.
    fn try_run<R: Host>(&mut self, rt: &R, line: Option<&str>) -> io::Result<()> {
        let mut sink = MemSink::new(rt.alloc(), ROOM, Vec::new(rt.alloc()))?;
        let status = ran(rt, line, self.files.as_slice(), &mut sink)?;
        self.compare(rt, status, sink.bytes.as_slice())
    }

    /// Ends the file or the run that was read so far.
    fn close<R: Host>(&mut self, rt: &R) -> io::Result<()> {
        match self.part {
            Part::None => {}
            Part::File(name) => {
                let text = mem::replace(&mut self.text, String::new(rt.alloc()));
                self.files.push((name, text))?;
            }
            Part::Run(line) => self.try_run(rt, line)?,
        }
        self.part = Part::None;
        Ok(())
    }

    /// Begins a file or a run, or neither.
    fn begin<R: Host>(&mut self, rt: &R, part: Part<'a>) -> io::Result<()> {
        self.close(rt)?;
        self.part = part;
        self.begin = self.line;
        self.text.clear();
        self.status = 0;
        Ok(())
    }

    /// Puts a line to the text of the file or the run.
    fn put(&mut self, text: &str) -> io::Result<()> {
        self.text.push_str(text)?;
        self.text.push('\n')?;
        Ok(())
    }

    /// Tells of a line that isn't one of a case file, or not here.
    fn refuse<R: Host>(&mut self, rt: &R, text: &str) -> io::Result<()> {
        self.begin(rt, Part::None)?;
        self.otherwise = self.otherwise.saturating_add(1);
        let (name, line) = (self.name, self.line);
        println!(rt; "{name}:{line}: not a line of a case file here: {text}")
    }

    /// Takes the next line.
    pub fn take<R: Host>(&mut self, rt: &R, text: &'a str) -> io::Result<()> {
        self.line = self.line.saturating_add(1);
        match (line_of(text), self.part) {
            (Line::Silent, _) => self.begin(rt, Part::None),
            (Line::Folder, _) => {
                self.begin(rt, Part::None)?;
                self.files.clear();
                Ok(())
            }
            (Line::File(name), _) => self.begin(rt, Part::File(name)),
            (Line::Run(line), _) => self.begin(rt, Part::Run(line)),
            (Line::Text(text), Part::File(_) | Part::Run(_)) => self.put(text),
            (Line::Status(status), Part::Run(_)) => {
                self.status = status;
                self.begin(rt, Part::None)
            }
            _ => self.refuse(rt, text),
        }
    }

    /// Ends the file, tells how many runs it had, and whether all are as it has them.
    pub fn end<R: Host>(&mut self, rt: &R) -> io::Result<bool> {
        self.begin(rt, Part::None)?;
        let (name, runs, otherwise) = (self.name, self.runs, self.otherwise);
        if otherwise == 0 {
            println!(rt; "{name}: {runs} runs, all as written")?;
        } else {
            println!(rt; "{name}: {runs} runs, {otherwise} otherwise")?;
        }
        Ok(otherwise == 0)
    }
}
