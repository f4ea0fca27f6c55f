//! One line where it stands.
ghost use Rattle.std.specs.Prelude.{◌≡◌, ◌≢◌, Err, IfOk};
ghost use Rattle.rc_openings.specs.Reading.{Gives, IfAnswered};
ghost use Rattle.rc_openings.specs.Words.{words_left, words_of};
ghost use Rattle.rc_config.specs.Lawful.{FitsFile, IsInRange};
ghost use Rattle.rc_gram_if.specs.Own.{IsOwn};
ghost use Rattle.rc_gram_if.specs.Reading as reading;

use crate::ospf::{
    area, cost, dead_interval, hello_interval, network_type, refused_intervals, refused_types, sets,
};
use crate::rows::{
    access_group, bandwidth, hostname, interface, ip_address, refused_in_route, shutdown,
    static_route,
};
use rc_config::{Command, Context, NetworkType, OpenBlock, RouterText};
use rc_lines::{Line, kind_of};
use rc_openings::{
    Decision, Form, GeneralForm, InterfaceForm, LineError, LineRefusal, Words, judged,
};

/// The row of a form that stands in no block, to the line of this number.
fn general_row(
    form: GeneralForm,
    file: &RouterText,
    number: u64,
    behind: Words,
) -> Result<Command, LineRefusal>
    ensures row { result ≡ reading.general_row form file.now number (words_left behind.entry) }
    ensures own { IfOk result IsOwn }
{
    match form {
        GeneralForm::Hostname => hostname(file, number, behind),
        GeneralForm::Interface => interface(number, behind),
        GeneralForm::StaticRoute => static_route(behind),
    }
}

/// The row of a form in the block of an interface, by all words of the line and those behind the opening. In another block a line
/// fits no row.
fn row_in(
    block: &OpenBlock,
    form: InterfaceForm,
    line: Words,
    behind: Words,
) -> Result<Command, LineRefusal>
    ensures row { result ≡ reading.row_in block.now form (words_left line.entry) (words_left behind.entry) }
    ensures own { IfOk result IsOwn }
{
    let OpenBlock::Interface(owner) = *block else {
        return Err(LineRefusal::BadValue);
    };
    match form {
        InterfaceForm::IpAddress => ip_address(owner, behind),
        InterfaceForm::Shutdown => shutdown(owner, true, behind),
        InterfaceForm::NoShutdown => shutdown(owner, false, behind),
        InterfaceForm::Bandwidth => bandwidth(owner, behind),
        InterfaceForm::AccessGroup => access_group(owner, behind),
        InterfaceForm::OspfCost => sets(owner, cost(behind)),
        InterfaceForm::OspfHelloInterval => sets(owner, hello_interval(behind)),
        InterfaceForm::OspfDeadInterval => sets(owner, dead_interval(behind)),
        InterfaceForm::OspfNetworkType => Err(LineRefusal::BadValue),
        InterfaceForm::OspfNetworkBroadcast => {
            sets(owner, network_type(NetworkType::Broadcast, behind))
        }
        InterfaceForm::OspfNetworkPointToPoint => {
            sets(owner, network_type(NetworkType::PointToPoint, behind))
        }
        InterfaceForm::OspfArea => sets(owner, area(line)),
    }
}

/// The words that make a line of a form one that isn't modelled, where it fits no row.
#[tactic(auto, unfolding(rc_openings::specs::Words::words_of))]
fn refused_in_general(form: GeneralForm) -> Words<'static>
    ensures { words_left result ≡ reading.refused_in_general form }
{
    match form {
        GeneralForm::StaticRoute => refused_in_route(),
        _ => Words::new(b""),
    }
}

/// The same in the block of an interface.
#[tactic(auto, unfolding(rc_openings::specs::Words::words_of))]
fn refused_in_interface(form: InterfaceForm) -> Words<'static>
    ensures { words_left result ≡ reading.refused_in_interface form }
{
    match form {
        InterfaceForm::OspfNetworkType => refused_types(),
        InterfaceForm::OspfDeadInterval => refused_intervals(),
        _ => Words::new(b""),
    }
}

/// Why a line that fits no row is refused: one of the refused words behind its opening makes it one that isn't modelled.
fn refusal_of(refusal: LineRefusal, behind: Words, refused: Words) -> LineRefusal
    ensures { result ≡ reading.refusal_of (words_left refused.entry) (words_left behind.entry) refusal }
{
    match judged::<u8>(Err(refusal), behind, refused) {
        Ok(_) => refusal,
        Err(other) => other,
    }
}

/// What a line of a form that stands in no block says, by its words behind the opening that decides it. A command is handed on as it is.
#[inline(never)]
pub fn read_general_form(
    form: GeneralForm,
    behind: Words,
    line: &Line,
    file: &RouterText,
) -> Result<Command, LineError>
    ensures row { Gives result (reading.general_answer file.now line.now.number form (words_left behind.entry)) }
    ensures takes_no_memory { result ≢ Err LineError.Memory }
    ensures in_range { IfOk result IsInRange }
    ensures fits { IfOk result (FitsFile file.now) }
{
    let said = general_row(form, file, line.number(), behind);
    match said {
        Ok(command) => Ok(command),
        Err(refusal) => Err(LineError::Refused(refusal_of(
            refusal,
            behind,
            refused_in_general(form),
        ))),
    }
}

/// What a line of this form says in this block, by its words behind the opening that decides it. It fits any file.
#[inline(never)]
pub fn read_interface_form(
    form: InterfaceForm,
    behind: Words,
    line: &Line,
    block: &OpenBlock,
    file: &RouterText,
) -> Result<Command, LineError>
    ensures row { Gives result (reading.interface_answer block.now (words_of line.now.text) form (words_left behind.entry)) }
    ensures takes_no_memory { result ≢ Err LineError.Memory }
    ensures in_range { IfOk result IsInRange }
    ensures fits { IfOk result (FitsFile file.now) }
{
    let _ = file;
    let said = row_in(block, form, line.words(), behind);
    match said {
        Ok(command) => Ok(command),
        Err(refusal) => Err(LineError::Refused(refusal_of(
            refusal,
            behind,
            refused_in_interface(form),
        ))),
    }
}

/// What a line says in this block, where its form is one of this grammar. Forms of other grammars are a bad value.
fn read_in(line: &Line, block: &OpenBlock, file: &RouterText) -> Result<Command, LineError>
    ensures exact { Gives result (reading.says block.now file.now line.now.number (words_of line.now.text)) }
    ensures takes_no_memory { result ≢ Err LineError.Memory }
    ensures in_range { IfOk result IsInRange }
    ensures fits { IfOk result (FitsFile file.now) }
{
    match kind_of(block).decided(line.words()) {
        Decision::Passed => Ok(Command::Passed),
        Decision::Refused(refusal) => Err(LineError::Refused(refusal)),
        Decision::Form(Form::General(form), behind) => read_general_form(form, behind, line, file),
        Decision::Form(Form::Interface(form), behind) => {
            read_interface_form(form, behind, line, block, file)
        }
        Decision::Form(_, _) => Err(LineError::Refused(LineRefusal::BadValue)),
    }
}

/// What a line says where it stands, where its form is of no other grammar: a command, or why it is refused.
///
/// It errs exactly where the definition of its openings and rows does, and takes no memory.
pub fn read_line(line: &Line, context: Context) -> Result<Command, LineError>
    // One opening decides, that with most words, and the row of its form is the meaning.
    ensures decided { IfAnswered result (reading.Says context.entry.block context.entry.file.now line.now.number (words_of line.now.text)) }
    // So each line says one thing.
    ensures exact { Gives result (reading.says context.entry.block context.entry.file.now line.now.number (words_of line.now.text)) }
    ensures takes_no_memory { result ≢ Err LineError.Memory }
    // An address goes to an interface of a type that may have one, and values are in their ranges.
    ensures in_range { IfOk result IsInRange }
    // It changes no list, and so fits those of the file.
    ensures fits { IfOk result (FitsFile context.entry.file.now) }
{
    let Context { block, file } = context;
    read_in(line, &block, file)
}
