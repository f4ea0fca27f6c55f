//! One line of OSPF where it stands.
ghost use Rattle.std.specs.Prelude.{◌≡◌, ◌≢◌, Err, IfOk};
ghost use Rattle.rc_openings.specs.Reading.{Gives, IfAnswered};
ghost use Rattle.rc_openings.specs.Words.{words_left, words_of};
ghost use Rattle.rc_config.specs.Lawful.{FitsFile, IsInRange};
ghost use Rattle.rc_gram_ospf.specs.Reading as reading;
ghost use Rattle.rc_gram_ospf.specs.Rows as rows;

use crate::rows::row_answer;
use rc_config::{Command, Context, OpenBlock, RouterText};
use rc_lines::{Line, kind_of};
use rc_openings::{Decision, Form, LineError, LineRefusal, OspfForm, Words};

/// What a line of this form says, by its words behind the opening that decides it.
#[inline(never)]
pub fn read_form(
    form: OspfForm,
    behind: Words,
    line: &Line,
    file: &RouterText,
) -> Result<Command, LineError>
    ensures row { Gives result (rows.row_answer file.now line.now.number (words_of line.now.text) form (words_left behind.entry)) }
    ensures takes_no_memory { result ≢ Err LineError.Memory }
    ensures in_range { IfOk result IsInRange }
    ensures fits { IfOk result (FitsFile file.now) }
{
    match row_answer(form, file, line, behind) {
        Ok(command) => Ok(command),
        Err(refusal) => Err(LineError::Refused(refusal)),
    }
}

/// What a line says in this block, where its form is one of OSPF. Forms of other grammars are a bad value.
fn read_in(line: &Line, block: &OpenBlock, file: &RouterText) -> Result<Command, LineError>
    ensures exact { Gives result (reading.says block.now file.now line.now.number (words_of line.now.text)) }
    ensures takes_no_memory { result ≢ Err LineError.Memory }
    ensures in_range { IfOk result IsInRange }
    ensures fits { IfOk result (FitsFile file.now) }
{
    match kind_of(block).decided(line.words()) {
        Decision::Passed => Ok(Command::Passed),
        Decision::Refused(refusal) => Err(LineError::Refused(refusal)),
        Decision::Form(Form::Ospf(form), behind) => read_form(form, behind, line, file),
        Decision::Form(_, _) => Err(LineError::Refused(LineRefusal::BadValue)),
    }
}

/// What a line says where it stands, where its form is one of OSPF: a command, or why it is refused.
///
/// It errs exactly where the definition of its openings and rows does, and takes no memory.
pub fn read_line(line: &Line, context: Context) -> Result<Command, LineError>
    // One opening decides, that with most words, and the row of its form is the meaning.
    ensures decided { IfAnswered result (reading.Says context.entry.block context.entry.file.now line.now.number (words_of line.now.text)) }
    // So each line says one thing.
    ensures exact { Gives result (reading.says context.entry.block context.entry.file.now line.now.number (words_of line.now.text)) }
    ensures takes_no_memory { result ≢ Err LineError.Memory }
    // Values are in their ranges.
    ensures in_range { IfOk result IsInRange }
    // It changes no access list, and so fits those of the file.
    ensures fits { IfOk result (FitsFile context.entry.file.now) }
{
    let Context { block, file } = context;
    read_in(line, &block, file)
}
