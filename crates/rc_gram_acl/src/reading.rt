//! One line of an access list where it stands.
ghost use Rattle.std.specs.Prelude.{◌≡◌, ◌≢◌, Err, IfOk};
ghost use Rattle.rc_openings.specs.Reading.{Gives, IfAnswered};
ghost use Rattle.rc_openings.specs.Words.{words_left, words_of};
ghost use Rattle.rc_config.specs.Lawful.{FitsFile, HasLawfulLists, IsInRange};
ghost use Rattle.rc_gram_acl.specs.Reading as reading;

use crate::lists::{line_of, numbered, opened};
use crate::refused::refused_words;
use rc_config::{AccessListKind, Action, Command, Context, OpenBlock, PortTest, RouterText};
use rc_lines::{Line, kind_of};
use rc_openings::{
    AccessListForm, Decision, Form, LineError, LineRefusal, Words, judged, number_in_front,
};

/// One more line of the list in whose block it stands, behind `permit` or `deny`.
fn line_in(
    block: &OpenBlock,
    file: &RouterText,
    written: Option<u32>,
    action: Action,
    behind: Words,
) -> Result<Command, LineRefusal>
    requires { HasLawfulLists file.now }
    ensures row { result ≡ reading.line_in block.now file.now written action (words_left behind.entry) }
    ensures in_range { IfOk result IsInRange }
    ensures fits { IfOk result (FitsFile file.now) }
{
    match *block {
        OpenBlock::AccessList(list, kind) => line_of(file, list, kind, written, action, behind),
        _ => Err(LineRefusal::BadValue),
    }
}

/// The row of a form, where this sequence number is written in front of the line.
fn row(
    form: AccessListForm,
    block: &OpenBlock,
    file: &RouterText,
    written: Option<u32>,
    behind: Words,
) -> Result<Command, LineRefusal>
    requires { HasLawfulLists file.now }
    ensures row { result ≡ reading.row form block.now file.now written (words_left behind.entry) }
    ensures in_range { IfOk result IsInRange }
    ensures fits { IfOk result (FitsFile file.now) }
{
    match form {
        AccessListForm::Numbered => numbered(file, behind),
        AccessListForm::Standard => opened(file, AccessListKind::Standard, behind),
        AccessListForm::Extended => opened(file, AccessListKind::Extended, behind),
        AccessListForm::Permit => line_in(block, file, written, Action::Permit, behind),
        AccessListForm::Deny => line_in(block, file, written, Action::Deny, behind),
        AccessListForm::Remark => Ok(Command::Remark),
    }
}

/// The words that make a line of a form one that isn't modelled, where it fits no row.
#[tactic(auto, unfolding(rc_openings::specs::Words::words_of))]
fn refused_behind(form: AccessListForm) -> Words<'static>
    ensures { words_left result ≡ reading.refused_behind form }
{
    match form {
        AccessListForm::Numbered => refused_words(),
        AccessListForm::Permit => refused_words(),
        AccessListForm::Deny => refused_words(),
        _ => Words::new(b""),
    }
}

/// The sequence number that is written in front of a line.
fn written_at(block: &OpenBlock, line: Words) -> Option<u32>
    ensures { result ≡ reading.written_at block.now (words_left line.entry) }
{
    match block {
        OpenBlock::AccessList(_, _) => number_in_front(line),
        _ => None,
    }
}

/// What a line of a form says by its words behind the opening.
fn row_answer(
    form: AccessListForm,
    block: &OpenBlock,
    file: &RouterText,
    written: Option<u32>,
    behind: Words,
) -> Result<Command, LineRefusal>
    requires { HasLawfulLists file.now }
    ensures row { result ≡ reading.row_answer block.now file.now written form (words_left behind.entry) }
    ensures in_range { IfOk result IsInRange }
    ensures fits { IfOk result (FitsFile file.now) }
{
    // The generated proof of a generic call wants each enum within its type named in the function.
    let _test: PortTest = PortTest::Any;
    judged(
        row(form, block, file, written, behind),
        behind,
        refused_behind(form),
    )
}

/// What a line of this form says where it stands, by its words behind the opening that decides it.
#[inline(never)]
pub fn read_form(
    form: AccessListForm,
    behind: Words,
    line: &Line,
    block: &OpenBlock,
    file: &RouterText,
) -> Result<Command, LineError>
    requires { HasLawfulLists file.now }
    ensures row { Gives result (reading.row_answer block.now file.now (reading.written_at block.now (words_of line.now.text)) form (words_left behind.entry)) }
    ensures takes_no_memory { result ≢ Err LineError.Memory }
    ensures in_range { IfOk result IsInRange }
    ensures fits { IfOk result (FitsFile file.now) }
{
    let written = written_at(block, line.words());
    match row_answer(form, block, file, written, behind) {
        Ok(command) => Ok(command),
        Err(refusal) => Err(LineError::Refused(refusal)),
    }
}

/// What a line says in this block, where its form is one of access lists. Forms of other grammars are a bad value.
fn read_in(line: &Line, block: &OpenBlock, file: &RouterText) -> Result<Command, LineError>
    requires { HasLawfulLists file.now }
    ensures exact { Gives result (reading.says block.now file.now (words_of line.now.text)) }
    ensures takes_no_memory { result ≢ Err LineError.Memory }
    ensures in_range { IfOk result IsInRange }
    ensures fits { IfOk result (FitsFile file.now) }
{
    match kind_of(block).decided(line.words()) {
        Decision::Passed => Ok(Command::Passed),
        Decision::Refused(refusal) => Err(LineError::Refused(refusal)),
        Decision::Form(Form::AccessList(form), behind) => read_form(
            form, behind, line, block, file,
        ),
        Decision::Form(_, _) => Err(LineError::Refused(LineRefusal::BadValue)),
    }
}

/// What a line says where it stands, where its form is one of access lists: a command, or why it is refused.
///
/// It errs exactly where the definition of its openings and rows does, and takes no memory.
pub fn read_line(line: &Line, context: Context) -> Result<Command, LineError>
    requires { HasLawfulLists context.file.now }
    // One opening decides, that with most words, and the row of its form is the meaning.
    ensures decided { IfAnswered result (reading.Says context.entry.block context.entry.file.now (words_of line.now.text)) }
    // So each line says one thing.
    ensures exact { Gives result (reading.says context.entry.block context.entry.file.now (words_of line.now.text)) }
    ensures takes_no_memory { result ≢ Err LineError.Memory }
    // Values are in their ranges, and a line of a list is one of a list of its kind.
    ensures in_range { IfOk result IsInRange }
    // The list that a line opens or goes to is of its kind, where it is there, and no line of it has the line's number.
    ensures fits { IfOk result (FitsFile context.entry.file.now) }
{
    let Context { block, file } = context;
    read_in(line, &block, file)
}
