//! The rows of policies: the lines of prefix lists and community lists, and those that open an entry of a route map or stand
//! in its block.
ghost use Rattle.std.specs.Prelude.{◌≡◌, IfOk};
ghost use Rattle.rc_openings.specs.Reading.{Gives};
ghost use Rattle.rc_openings.specs.Words.{words_left};
ghost use Rattle.rc_config.specs.Lawful.{FitsFile, IsInRange};
ghost use Rattle.rc_gram_policy.specs.Lines.{map_answer, numbered_answer, opening_answer, prefix_answer, standard_answer};
ghost use Rattle.rc_gram_policy.specs.Rows as rows;

use crate::community_lines::{read_numbered_community_line, read_standard_community_line};
use crate::map_lines::read_map_line;
use crate::map_opening::read_map_opening;
use crate::prefix_lines::read_prefix_line;
use rc_base::Name;
use rc_config::{Command, ListLine, OpenBlock, RouterText};
use rc_openings::{LineError, LineRefusal, MapEntryForm, PolicyForm, Words};
use std::alloc::Global;

/// `ip prefix-list NAME ..`
fn prefix_line(file: &RouterText, behind: Words) -> Result<Command, LineError>
    ensures row { Gives result (rows.said rows.prefix_command (prefix_answer file.now.lists.prefix_lists (words_left behind.entry))) }
    ensures in_range { IfOk result IsInRange }
    ensures fits { IfOk result (FitsFile file.now) }
{
    match read_prefix_line(&file.lists.prefix_lists, behind) {
        Ok((list, line)) => Ok(Command::ListLine {
            list,
            line: ListLine::PrefixLine(line),
        }),
        Err(refusal) => Err(LineError::Refused(refusal)),
    }
}

/// `ip community-list N ..`
fn numbered_community_line(
    alloc: Global,
    file: &RouterText,
    behind: Words,
) -> Result<Command, LineError>
    ensures row { Gives result (rows.said rows.community_command (numbered_answer (words_left behind.entry))) }
    ensures in_range { IfOk result IsInRange }
    ensures fits { IfOk result (FitsFile file.now) }
{
    match read_numbered_community_line(alloc, behind) {
        Ok((list, line)) => Ok(Command::ListLine {
            list,
            line: ListLine::CommunityLine(line),
        }),
        Err(error) => Err(error),
    }
}

/// `ip community-list standard NAME ..`
fn standard_community_line(
    alloc: Global,
    file: &RouterText,
    behind: Words,
) -> Result<Command, LineError>
    ensures row { Gives result (rows.said rows.community_command (standard_answer (words_left behind.entry))) }
    ensures in_range { IfOk result IsInRange }
    ensures fits { IfOk result (FitsFile file.now) }
{
    match read_standard_community_line(alloc, behind) {
        Ok((list, line)) => Ok(Command::ListLine {
            list,
            line: ListLine::CommunityLine(line),
        }),
        Err(error) => Err(error),
    }
}

/// `route-map NAME ..`
fn map_opening(file: &RouterText, behind: Words) -> Result<Command, LineError>
    ensures row { Gives result (rows.said rows.opening_command (opening_answer (words_left behind.entry))) }
    ensures in_range { IfOk result IsInRange }
    ensures fits { IfOk result (FitsFile file.now) }
{
    match read_map_opening(behind) {
        Ok(entry) => Ok(Command::MapOpened {
            map: entry.map,
            number: entry.number,
            action: entry.action,
        }),
        Err(refusal) => Err(LineError::Refused(refusal)),
    }
}

/// What a line of a form that stands in no block says.
pub(crate) fn list_answer(
    alloc: Global,
    form: PolicyForm,
    file: &RouterText,
    behind: Words,
) -> Result<Command, LineError>
    ensures row { Gives result (rows.list_answer file.now form (words_left behind.entry)) }
    ensures in_range { IfOk result IsInRange }
    ensures fits { IfOk result (FitsFile file.now) }
{
    match form {
        PolicyForm::PrefixList => prefix_line(file, behind),
        PolicyForm::CommunityList => numbered_community_line(alloc, file, behind),
        PolicyForm::StandardCommunityList => standard_community_line(alloc, file, behind),
        PolicyForm::RouteMap => map_opening(file, behind),
    }
}

/// A line in the block of the entry of this number of a route map.
fn map_line(
    alloc: Global,
    map: Name,
    entry: u32,
    form: MapEntryForm,
    file: &RouterText,
    number: u64,
    behind: Words,
) -> Result<Command, LineError>
    ensures row { Gives result (rows.said (Command.MapLine map entry) (map_answer number form (words_left behind.entry))) }
    ensures in_range { IfOk result IsInRange }
    ensures fits { IfOk result (FitsFile file.now) }
{
    match read_map_line(alloc, form, number, behind) {
        Ok(line) => Ok(Command::MapLine {
            map,
            number: entry,
            line,
        }),
        Err(error) => Err(error),
    }
}

/// A line of this number in the block of an entry of a route map. In another block it fits no row.
pub(crate) fn entry_answer(
    alloc: Global,
    form: MapEntryForm,
    block: &OpenBlock,
    file: &RouterText,
    number: u64,
    behind: Words,
) -> Result<Command, LineError>
    ensures row { Gives result (rows.entry_answer block.now number form (words_left behind.entry)) }
    ensures in_range { IfOk result IsInRange }
    ensures fits { IfOk result (FitsFile file.now) }
{
    match block {
        OpenBlock::Map(map, entry) => map_line(alloc, *map, *entry, form, file, number, behind),
        _ => Err(LineError::Refused(LineRefusal::BadValue)),
    }
}
