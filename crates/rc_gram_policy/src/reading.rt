//! One line of a policy where it stands.
ghost use Rattle.std.specs.Prelude.{◌≡◌, IfOk};
ghost use Rattle.rc_openings.specs.Reading.{Gives, IfAnswered};
ghost use Rattle.rc_openings.specs.Words.{words_left, words_of};
ghost use Rattle.rc_config.specs.Lawful.{FitsFile, IsInRange};
ghost use Rattle.rc_gram_policy.specs.Reading as reading;
ghost use Rattle.rc_gram_policy.specs.Rows as rows;

use crate::rows::{entry_answer, list_answer};
use rc_config::{Command, Context, OpenBlock, RouterText};
use rc_lines::{Line, kind_of};
use rc_openings::{Decision, Form, LineError, LineRefusal, MapEntryForm, PolicyForm, Words};

/// What a line of this form says, by its words behind the opening that decides it. Memory is taken from where the file's
/// lists have theirs.
#[inline(never)]
pub fn read_list_form(
    form: PolicyForm,
    behind: Words,
    file: &RouterText,
) -> Result<Command, LineError>
    ensures row { Gives result (rows.list_answer file.now form (words_left behind.entry)) }
    ensures in_range { IfOk result IsInRange }
    ensures fits { IfOk result (FitsFile file.now) }
{
    let alloc = file.lists.community_lists.allocator();
    list_answer(alloc, form, file, behind)
}

/// The same in the block of an entry of a route map.
#[inline(never)]
pub fn read_entry_form(
    form: MapEntryForm,
    behind: Words,
    line: &Line,
    block: &OpenBlock,
    file: &RouterText,
) -> Result<Command, LineError>
    ensures row { Gives result (rows.entry_answer block.now line.now.number form (words_left behind.entry)) }
    ensures in_range { IfOk result IsInRange }
    ensures fits { IfOk result (FitsFile file.now) }
{
    let alloc = file.lists.community_lists.allocator();
    entry_answer(alloc, form, block, file, line.number(), behind)
}

/// What a line says in this block, where its form is one of policies. Forms of other grammars are a bad value.
fn read_in(line: &Line, block: &OpenBlock, file: &RouterText) -> Result<Command, LineError>
    ensures exact { Gives result (reading.says block.now file.now line.now.number (words_of line.now.text)) }
    ensures in_range { IfOk result IsInRange }
    ensures fits { IfOk result (FitsFile file.now) }
{
    match kind_of(block).decided(line.words()) {
        Decision::Passed => Ok(Command::Passed),
        Decision::Refused(refusal) => Err(LineError::Refused(refusal)),
        Decision::Form(Form::Policy(form), behind) => read_list_form(form, behind, file),
        Decision::Form(Form::MapEntry(form), behind) => read_entry_form(
            form, behind, line, block, file,
        ),
        Decision::Form(_, _) => Err(LineError::Refused(LineRefusal::BadValue)),
    }
}

/// What a line says where it stands, where its form is one of prefix lists, community lists and route maps: a command, or why
/// it is refused.
///
/// It errs exactly where the definition of its openings and rows does, and where memory runs out.
pub fn read_line(line: &Line, context: Context) -> Result<Command, LineError>
    // One opening decides, that with most words, and the row of its form is the meaning.
    ensures decided { IfAnswered result (reading.Says context.entry.block context.entry.file.now line.now.number (words_of line.now.text)) }
    // So each line says one thing.
    ensures exact { Gives result (reading.says context.entry.block context.entry.file.now line.now.number (words_of line.now.text)) }
    // Values are in their ranges.
    ensures in_range { IfOk result IsInRange }
    // It changes no access list, and so fits those of the file.
    ensures fits { IfOk result (FitsFile context.entry.file.now) }
{
    let Context { block, file } = context;
    read_in(line, &block, file)
}
