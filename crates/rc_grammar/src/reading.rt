//! The lines of a file, one by one.
//!
//! What the lines so far have said is changed where it stands, so that a line that is passed over, as most are, costs no more
//! than a look at its words.
ghost use Rattle.std.specs.Prelude.{◌≡◌, ◌≢◌, false, IfOk, OnOk, Some, None, Ok, Err};
ghost use Rattle.std.specs.Option.{option_copied};
ghost use Rattle.rc_openings.specs.Words.{is_blank as blank, starts_blank, words_left, words_of};
ghost use Rattle.rc_lines.specs.Lines.{TextLine, is_too_long, lines_of};
ghost use Rattle.rc_config.specs.Lawful.{FitsFile, IsInRange, IsLawfulFile};
ghost use Rattle.rc_grammar.specs.Grammars.{answer_of, says};
ghost use Rattle.rc_grammar.specs.File.{at_line, failed_at, file_of, interface_of, is_one_too_many, is_passed, list_block, open_after, start, step, with_answer, with_command, with_host, with_lines, with_said, with_text, Gives, IsFit, Leaves, RefusesTheFirst};

use crate::grammars::read_form;
use crate::{FileCause, FileRefusal, ReadError};
use rc_base::Name;
use rc_commands::apply;
use rc_config::{Command, ListLine, OpenBlock, RouterText};
use rc_lines::{Line, Lines, Part, kind_of};
use rc_openings::{Decision, Form, LineError, LineRefusal, Words};
use std::alloc::Global;

/// The most interfaces of a file.
const MOST_INTERFACES: usize = 256;

/// What the lines so far have said, and the block that is open.
#[derive(Drop)]
pub(crate) struct Reading {
    pub file: RouterText,
    pub block: OpenBlock,
}

fn is_blank(byte: u8) -> bool
    ensures { result ≡ blank byte }
{
    byte == b' ' || byte == b'\t'
}

/// The text without the blanks at its front.
fn without_blanks(text: &[u8]) -> &[u8]
    ensures same { words_of result.now ≡ words_of text.entry.now }
    ensures front { starts_blank result.now ≡ false }
{
    let mut rest = text;
    while let [first, tail @ ..] = rest {
        if !is_blank(*first) {
            break;
        }
        rest = tail;
    }
    rest
}

/// Whether a line is passed over, which its first byte that is no blank tells.
fn is_passed_over(line: &Line) -> bool
    ensures { result ≡ is_passed (words_of line.now.text) }
{
    match without_blanks(line.text()) {
        [first, ..] => *first == b'!',
        [] => true,
    }
}

fn list_block(list: &Name, line: &ListLine) -> OpenBlock
    ensures { result ≡ list_block list.now line.now }
{
    match line {
        ListLine::AccessListOpened(kind) => OpenBlock::AccessList(*list, *kind),
        _ => OpenBlock::Closed,
    }
}

fn block_after(block: &OpenBlock, command: &Command) -> OpenBlock
    ensures { result ≡ open_after block.now command.now }
{
    match block {
        OpenBlock::Global => match command {
            Command::Interface { name, line: _ } => OpenBlock::Interface(*name),
            Command::ListLine { list, line } => list_block(list, line),
            Command::MapOpened { map, number, .. } => OpenBlock::Map(*map, *number),
            Command::OspfOpened { .. } => OpenBlock::Ospf,
            Command::BgpOpened { .. } => OpenBlock::Bgp,
            Command::Passed => OpenBlock::Ignored,
            _ => OpenBlock::Closed,
        },
        OpenBlock::Bgp => match command {
            Command::FamilyOpened => OpenBlock::InFamily,
            Command::OtherFamilyOpened => OpenBlock::InOtherFamily,
            _ => OpenBlock::Bgp,
        },
        OpenBlock::InFamily | OpenBlock::InOtherFamily => match command {
            Command::FamilyClosed => OpenBlock::Bgp,
            _ => *block,
        },
        _ => *block,
    }
}

fn interface_named(command: &Command) -> Option<&Name>
    ensures { option_copied result ≡ interface_of command.now }
{
    match command {
        Command::Passed => None,
        Command::Remark => None,
        Command::Hostname { .. } => None,
        Command::Interface { name, .. } => Some(name),
        Command::InterfaceLine { interface, .. } => Some(interface),
        Command::StaticRoute { .. } => None,
        Command::ListLine { .. } => None,
        Command::MapOpened { .. } => None,
        Command::MapLine { .. } => None,
        Command::OspfOpened { .. } => None,
        Command::OspfLine { .. } => None,
        Command::BgpOpened { .. } => None,
        Command::BgpLine { .. } => None,
        Command::FamilyOpened => None,
        Command::OtherFamilyOpened => None,
        Command::FamilyClosed => None,
    }
}

/// Whether the command names an interface that is one too many.
fn is_too_many(file: &RouterText, command: &Command) -> bool
    ensures { result ≡ is_one_too_many file.now (interface_of command.now) }
{
    match interface_named(command) {
        None => false,
        Some(name) => {
            file.interfaces.len() >= MOST_INTERFACES && file.interfaces.get(name).is_none()
        }
    }
}

fn refused(line: &Line, cause: FileCause) -> ReadError
    ensures { result ≡ ReadError.Refused (record { line = line.now.number; cause = cause }) }
{
    ReadError::Refused(FileRefusal {
        line: line.number(),
        cause,
    })
}

/// Why the file has no model, where a line gave nothing.
fn unread(line: &Line, error: LineError) -> ReadError
    ensures { result ≡ failed_at line.now.number error }
{
    match error {
        LineError::Refused(refusal) => refused(line, FileCause::Line(refusal)),
        LineError::Memory => ReadError::Memory,
    }
}

impl Reading {
    /// Before the first line.
    fn new(alloc: Global) -> Reading
        ensures start { result ≡ start }
        ensures fit { IsFit result.file }
    {
        Reading {
            file: RouterText::new(alloc),
            block: OpenBlock::Closed,
        }
    }

    /// Puts what a command says.
    fn put_command(&mut self, line: &Line, command: Command) -> Result<(), ReadError>
        requires in_range { IsInRange command }
        requires fits { FitsFile self.old.file command }
        requires fit { IsFit self.old.file }
        ensures step { Leaves result self.new (with_command line.now.number self.old command) }
        ensures memory { result ≡ Err ReadError.Memory → is_one_too_many self.old.file (interface_of command) ≡ false }
        ensures fit { OnOk result (IsFit self.new.file) }
    {
        if is_too_many(&self.file, &command) {
            return Err(refused(line, FileCause::TooManyInterfaces));
        }
        self.block = block_after(&self.block, &command);
        match apply(&mut self.file, command) {
            Ok(()) => Ok(()),
            Err(_) => Err(ReadError::Memory),
        }
    }

    /// Passes over a line by its opening: no more than the open block changes.
    fn pass(&mut self)
        ensures { self.new ≡ record self.old { block = open_after self.old.block Command.Passed } }
    {
        match &self.block {
            OpenBlock::Global => self.block = OpenBlock::Ignored,
            _ => {}
        }
    }

    /// Puts what a line of this form says, by its words behind the opening that decides it. Only such a line needs room for a command, so
    /// it is a call of its own.
    #[inline(never)]
    fn put_form(&mut self, form: Form, behind: Words, line: &Line) -> Result<(), ReadError>
        requires { IsFit self.old.file }
        ensures step { Leaves result self.new (with_answer line.now.number self.old (answer_of self.old.block self.old.file line.now.number (words_of line.now.text) form (words_left behind.entry))) }
        ensures fit { OnOk result (IsFit self.new.file) }
    {
        let said = read_form(form, behind, line, &self.block, &self.file);
        match said {
            Ok(command) => self.put_command(line, command),
            Err(error) => Err(unread(line, error)),
        }
    }

    /// Puts what a line says in the block where it stands: the opening with most words decides, and the row of its form is the meaning.
    fn put_said(&mut self, line: &Line) -> Result<(), ReadError>
        requires { IsFit self.old.file }
        ensures step { Leaves result self.new (with_said says self.old line.now) }
        ensures fit { OnOk result (IsFit self.new.file) }
    {
        let decision = kind_of(&self.block).decided(line.words());
        match decision {
            Decision::Passed => {
                self.pass();
                Ok(())
            }
            Decision::Refused(refusal) => Err(refused(line, FileCause::Line(refusal))),
            Decision::Form(form, behind) => self.put_form(form, behind, line),
        }
    }

    /// Goes to the block where a line stands.
    fn go_to(&mut self, line: &Line)
        ensures { self.new ≡ at_line self.old line.now.text }
    {
        if line.is_flush() {
            self.block = OpenBlock::Global;
        }
    }

    /// Puts what a line outside banners says.
    fn put_text(&mut self, line: &Line) -> Result<(), ReadError>
        requires { IsFit self.old.file }
        ensures step { Leaves result self.new (with_text says self.old line.now) }
        ensures memory { result ≡ Err ReadError.Memory → is_passed (words_of line.now.text) ≡ false }
        ensures fit { OnOk result (IsFit self.new.file) }
    {
        if is_passed_over(line) {
            return Ok(());
        }
        self.go_to(line);
        self.put_said(line)
    }

    /// Puts one line more.
    #[tactic(auto, unfolding(crate::specs::File::step))]
    fn put_line(&mut self, line: &Line) -> Result<(), ReadError>
        requires { IsFit self.old.file }
        ensures step { Leaves result self.new (step says self.old line.now) }
        ensures memory { result ≡ Err ReadError.Memory → (is_too_long line.now.text ≡ false) × (line.now.part ≡ Part.Plain) }
        ensures fit { OnOk result (IsFit self.new.file) }
    {
        if line.is_too_long() {
            return Err(refused(line, FileCause::LineTooLong));
        }
        match line.part() {
            Part::Plain => self.put_text(line),
            Part::InBanner => Ok(()),
            Part::Banner => {
                self.block = OpenBlock::Closed;
                Ok(())
            }
            Part::ShortBanner => Err(refused(line, FileCause::Line(LineRefusal::BadValue))),
            Part::OpenBanner => Err(refused(line, FileCause::OpenBanner)),
        }
    }

    /// Puts all lines of a file.
    fn put_lines(&mut self, bytes: &[u8]) -> Result<(), ReadError>
        requires { IsFit self.old.file }
        ensures lines { Leaves result self.new (with_lines says (Ok self.old) (lines_of bytes.now)) }
        ensures fit { OnOk result (IsFit self.new.file) }
    {
        let mut lines = Lines::new(bytes);
        while let Some(line) = lines.next() {
            match self.put_line(&line) {
                Ok(()) => {}
                Err(error) => return Err(error),
            }
        }
        Ok(())
    }

    /// The model, where a line gives the host name.
    fn finished(self) -> Result<RouterText, ReadError>
        requires { IsFit self.file }
        ensures file { Gives result (with_host (Ok self)) }
        ensures takes_no_memory { result ≢ Err ReadError.Memory }
        ensures lawful { IfOk result IsLawfulFile }
    {
        let Reading { file, block: _ } = self;
        if file.host.is_none() {
            return Err(ReadError::Refused(FileRefusal {
                line: 0,
                cause: FileCause::NoHostName,
            }));
        }
        Ok(file)
    }
}

/// The model of a file's bytes.
///
/// It errs exactly where the file is refused, with the least line that is and its cause, or 0 where no line gives the
/// host name (`first_refusal`); and where memory runs out.
#[tactic(auto, unfolding(crate::specs::File::read_by))]
pub fn read_file(alloc: Global, bytes: &[u8]) -> Result<RouterText, ReadError>
    ensures file { Gives result (file_of bytes.now) }
    ensures lawful { IfOk result IsLawfulFile }
{
    let mut reading = Reading::new(alloc);
    match reading.put_lines(bytes) {
        Ok(()) => reading.finished(),
        Err(error) => Err(error),
    }
}

/// The refusal of a file is that of the least line that is refused, where every line before it is taken; and that of the host
/// name where all lines are taken.
pub fn first_refusal()
    ensures { RefusesTheFirst }
{}
