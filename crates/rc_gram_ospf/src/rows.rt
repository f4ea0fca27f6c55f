//! The rows of OSPF: the line that opens the process of a router, and those in its block.
ghost use Rattle.std.specs.Prelude.{◌≡◌, IfOk, IfSome};
ghost use Rattle.std.specs.Option.{option_copied, option_map};
ghost use Rattle.rc_openings.specs.Words.{words_left, words_of};
ghost use Rattle.rc_config.specs.Lawful.{FitsFile, IsInRange};
ghost use Rattle.rc_config.specs.Ospf.{IsLawfulOspfLine, IsOspfNumber};
ghost use Rattle.rc_gram_ospf.specs.Rows as rows;

use crate::lines::{
    default_information, network, passive_default, passive_interface, redistribute,
    redistribute_bgp, reference_bandwidth, router_id, stub_area,
};
use rc_config::{Command, OspfLine, OspfProcess, RedistributedSource, RouterText};
use rc_lines::Line;
use rc_openings::{LineRefusal, OspfForm, Words, judged, number_in};

/// The process of this number, where it is the one that is there or the first one.
fn opened(known: Option<&OspfProcess>, process: u32) -> Result<Command, LineRefusal>
    requires { IsOspfNumber process }
    ensures row { result ≡ rows.opened (option_copied known.entry) process }
    ensures in_range { IfOk result IsInRange }
    ensures fits { (file : RouterText) → IfOk result (FitsFile file) }
{
    match known {
        Some(other) if other.process != process => Err(LineRefusal::Unsupported),
        _ => Ok(Command::OspfOpened { process }),
    }
}

/// `router ospf N`; a second process isn't modelled.
fn router_ospf(file: &RouterText, mut words: Words) -> Result<Command, LineRefusal>
    ensures row { result ≡ rows.router_ospf file.now (words_left words.entry) }
    ensures in_range { IfOk result IsInRange }
    ensures fits { IfOk result (FitsFile file.now) }
{
    match (words.next_word(), words.next_word()) {
        (Some(word), None) => match number_in(1, 65535, word) {
            Some(process) => opened(file.ospf.as_ref(), process),
            None => Err(LineRefusal::BadValue),
        },
        _ => Err(LineRefusal::BadValue),
    }
}

/// A line in the block of the process.
fn in_block(line: Option<OspfLine>) -> Result<Command, LineRefusal>
    requires { IfSome line IsLawfulOspfLine }
    ensures row { result ≡ rows.in_block line }
    ensures in_range { IfOk result IsInRange }
    ensures fits { (file : RouterText) → IfOk result (FitsFile file) }
{
    match line {
        Some(line) => Ok(Command::OspfLine { line }),
        None => Err(LineRefusal::BadValue),
    }
}

/// The row of a form, to a line.
fn row(
    form: OspfForm,
    file: &RouterText,
    line: &Line,
    behind: Words,
) -> Result<Command, LineRefusal>
    ensures row { result ≡ rows.row file.now line.now.number (words_of line.now.text) form (words_left behind.entry) }
    ensures in_range { IfOk result IsInRange }
    ensures fits { IfOk result (FitsFile file.now) }
{
    match form {
        OspfForm::RouterOspf => router_ospf(file, behind),
        OspfForm::RouterId => in_block(router_id(behind)),
        OspfForm::Network => in_block(network(behind)),
        OspfForm::StubArea => in_block(stub_area(line.words())),
        OspfForm::PassiveInterface => in_block(passive_interface(true, behind)),
        OspfForm::NoPassiveInterface => in_block(passive_interface(false, behind)),
        OspfForm::PassiveInterfaceDefault => in_block(passive_default(behind)),
        OspfForm::ReferenceBandwidth => in_block(reference_bandwidth(behind)),
        OspfForm::RedistributeConnected => {
            in_block(redistribute(RedistributedSource::Connected, line.number(), behind))
        }
        OspfForm::RedistributeStatic => {
            in_block(redistribute(RedistributedSource::Static, line.number(), behind))
        }
        OspfForm::RedistributeBgp => in_block(redistribute_bgp(line.number(), behind)),
        OspfForm::DefaultInformationOriginate => in_block(default_information(behind)),
    }
}

/// The words that make a line of a form one that isn't modelled, where it fits no row.
#[tactic(auto, unfolding(rc_openings::specs::Words::words_of, crate::specs::Rows::refused_words))]
fn refused_words(form: OspfForm) -> Words<'static>
    ensures { words_left result ≡ rows.refused_words form }
{
    match form {
        OspfForm::RedistributeConnected => Words::new(b"tag nssa-only"),
        OspfForm::RedistributeStatic => Words::new(b"tag nssa-only"),
        OspfForm::RedistributeBgp => Words::new(b"tag nssa-only"),
        OspfForm::DefaultInformationOriginate => Words::new(b"route-map"),
        _ => Words::new(b""),
    }
}

/// What a line of a form says, by its words behind the opening.
pub(crate) fn row_answer(
    form: OspfForm,
    file: &RouterText,
    line: &Line,
    behind: Words,
) -> Result<Command, LineRefusal>
    ensures row { result ≡ rows.row_answer file.now line.now.number (words_of line.now.text) form (words_left behind.entry) }
    ensures in_range { IfOk result IsInRange }
    ensures fits { IfOk result (FitsFile file.now) }
{
    judged(row(form, file, line, behind), behind, refused_words(form))
}
