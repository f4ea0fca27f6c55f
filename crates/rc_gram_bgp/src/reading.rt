//! One line of BGP where it stands.
ghost use Rattle.std.specs.Prelude.{◌≡◌, ◌≢◌, Err, IfOk};
ghost use Rattle.rc_openings.specs.Reading.{Gives, IfAnswered};
ghost use Rattle.rc_openings.specs.Words.{words_left, words_of};
ghost use Rattle.rc_config.specs.Lawful.{FitsFile, IsInRange};
ghost use Rattle.rc_gram_bgp.specs.Reading as reading;

use crate::rows::row;
use rc_config::{Command, Context, OpenBlock, RouterText};
use rc_lines::{Line, kind_of};
use rc_openings::{BgpForm, Decision, Form, LineError, LineRefusal, Words, judged};

/// The words that make a line of a form one that isn't modelled, where it fits no row.
#[tactic(auto, unfolding(rc_openings::specs::Words::words_of))]
fn refused_words(form: BgpForm) -> Words<'static>
    ensures { words_left result ≡ reading.refused_words form }
{
    match form {
        BgpForm::Network => Words::new(b"route-map backdoor"),
        BgpForm::NeighborDefaultOriginate => Words::new(b"route-map"),
        BgpForm::RedistributeConnected => Words::new(b"tag nssa-only metric-type"),
        BgpForm::RedistributeStatic => Words::new(b"tag nssa-only metric-type"),
        BgpForm::RedistributeOspf => Words::new(b"tag nssa-only metric-type"),
        _ => Words::new(b""),
    }
}

/// What a line of this form says in a block, by its words behind the opening that decides it, and by its number and all its words.
#[inline(never)]
pub fn read_form(
    form: BgpForm,
    behind: Words,
    line: &Line,
    block: &OpenBlock,
    file: &RouterText,
) -> Result<Command, LineError>
    ensures row { Gives result (reading.row_answer block.now file.now line.now.number (words_of line.now.text) form (words_left behind.entry)) }
    ensures takes_no_memory { result ≢ Err LineError.Memory }
    ensures in_range { IfOk result IsInRange }
    ensures fits { IfOk result (FitsFile file.now) }
{
    let said = row(form, block, file, line.number(), line.words(), behind);
    match judged(said, behind, refused_words(form)) {
        Ok(command) => Ok(command),
        Err(refusal) => Err(LineError::Refused(refusal)),
    }
}

/// What a line says in this block, where its form is one of BGP. Forms of other grammars are a bad value.
fn read_in(line: &Line, block: &OpenBlock, file: &RouterText) -> Result<Command, LineError>
    ensures exact { Gives result (reading.says block.now file.now line.now.number (words_of line.now.text)) }
    ensures takes_no_memory { result ≢ Err LineError.Memory }
    ensures in_range { IfOk result IsInRange }
    ensures fits { IfOk result (FitsFile file.now) }
{
    match kind_of(block).decided(line.words()) {
        Decision::Passed => Ok(Command::Passed),
        Decision::Refused(refusal) => Err(LineError::Refused(refusal)),
        Decision::Form(Form::Bgp(form), behind) => read_form(form, behind, line, block, file),
        Decision::Form(_, _) => Err(LineError::Refused(LineRefusal::BadValue)),
    }
}

/// What a line says where it stands, where its form is one of BGP: a command, or why it is refused.
///
/// It errs exactly where the definition of its openings and rows does, and takes no memory.
pub fn read_line(line: &Line, context: Context) -> Result<Command, LineError>
    // One opening decides, that with most words, and the row of its form is the meaning.
    ensures decided { IfAnswered result (reading.Says context.entry.block context.entry.file.now line.now.number (words_of line.now.text)) }
    // So each line says one thing.
    ensures exact { Gives result (reading.says context.entry.block context.entry.file.now line.now.number (words_of line.now.text)) }
    ensures takes_no_memory { result ≢ Err LineError.Memory }
    // Values are in their ranges.
    ensures in_range { IfOk result IsInRange }
    // It changes no access list, and so fits those of the file.
    ensures fits { IfOk result (FitsFile context.entry.file.now) }
{
    let Context { block, file } = context;
    read_in(line, &block, file)
}
