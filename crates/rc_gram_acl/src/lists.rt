//! The rows of access lists: their lines, by number and in their blocks, and the lines that open a list.
ghost use Rattle.std.specs.Prelude.{◌≡◌, Err, None, IfOk, IfSome};
ghost use Rattle.std.specs.Option.{option_copied};
ghost use Rattle.rc_openings.specs.Words.{words_left};
ghost use Rattle.rc_config.specs.AccessList.{IsLawfulAccessList, IsSequence};
ghost use Rattle.rc_config.specs.Lawful.{FitsFile, HasLawfulLists, IsInRange};
ghost use Rattle.rc_gram_acl.specs.Entry.{entry};
ghost use Rattle.rc_gram_acl.specs.ListNumber.{kind_of_number as kind_by_number};
ghost use Rattle.rc_gram_acl.specs.Lists as lists;

use crate::entry::read_entry;
use crate::list_number::kind_of_number;
use crate::sequence::sequence_for;
use rc_base::Name;
use rc_config::{AccessList, AccessListKind, Action, Command, ListLine, RouterText, action_of};
use rc_openings::{LineRefusal, Words, word_u32};

fn same_kind(first: AccessListKind, second: AccessListKind) -> bool
    ensures { result ≡ lists.same_kind first second }
{
    match first {
        AccessListKind::Standard => match second {
            AccessListKind::Standard => true,
            AccessListKind::Extended => false,
        },
        AccessListKind::Extended => match second {
            AccessListKind::Standard => false,
            AccessListKind::Extended => true,
        },
    }
}

/// Whether the list that is there is of this kind, or none is there.
fn may_be(found: Option<&AccessList>, kind: AccessListKind) -> bool
    ensures { result ≡ lists.may_be (option_copied found.entry) kind }
{
    match found {
        None => true,
        Some(access_list) => same_kind(access_list.kind, kind),
    }
}

/// The number of the first line of a list.
fn first_sequence(written: Option<u32>) -> Option<u32>
    ensures value { result ≡ lists.sequence_by None AccessListKind.Standard written }
    ensures within { IfSome result IsSequence }
{
    let number = written.unwrap_or(10);
    if number < 1 || number > 2_147_483_647 {
        return None;
    }
    Some(number)
}

/// The number of one more line of a list, or `None` where it is of the other kind or has no room for it.
fn sequence_by(
    found: Option<&AccessList>,
    kind: AccessListKind,
    written: Option<u32>,
) -> Option<u32>
    requires { IfSome (option_copied found) IsLawfulAccessList }
    ensures value { result ≡ lists.sequence_by (option_copied found.entry) kind written }
    ensures within { IfSome result IsSequence }
{
    match found {
        None => first_sequence(written),
        Some(access_list) => {
            if same_kind(access_list.kind, kind) {
                sequence_for(access_list, written)
            } else {
                None
            }
        }
    }
}

/// The number of one more line of the list of this name and kind, or `None` where the list that is there is of the other
/// kind or has no room for the line.
fn sequence_in(
    file: &RouterText,
    list: &Name,
    kind: AccessListKind,
    written: Option<u32>,
) -> Option<u32>
    requires { HasLawfulLists file.now }
    ensures value { result ≡ lists.sequence_in file.now list.now kind written }
    ensures within { IfSome result IsSequence }
    ensures room { IfSome result (lists.HasRoom file.now list.now kind) }
{
    sequence_by(file.lists.access_lists.get(list), kind, written)
}

/// `permit|deny ..`, one more line of a list.
pub(crate) fn line_of(
    file: &RouterText,
    list: Name,
    kind: AccessListKind,
    written: Option<u32>,
    action: Action,
    words: Words,
) -> Result<Command, LineRefusal>
    requires { HasLawfulLists file.now }
    ensures row { result ≡ lists.line_of file.now list kind written action (words_left words.entry) }
    ensures in_range { IfOk result IsInRange }
    ensures fits { IfOk result (FitsFile file.now) }
{
    let tests = match read_entry(kind, words) {
        Ok(tests) => tests,
        Err(refusal) => return Err(refusal),
    };
    match sequence_in(file, &list, kind, written) {
        Some(sequence) => Ok(Command::ListLine {
            list,
            line: ListLine::AccessListLine {
                kind,
                line: tests.line(sequence, action),
            },
        }),
        None => Err(LineRefusal::BadValue),
    }
}

/// `permit|deny ..` behind a list's number.
fn numbered_line(
    file: &RouterText,
    number: u32,
    action: Action,
    words: Words,
) -> Result<Command, LineRefusal>
    requires { HasLawfulLists file.now }
    ensures row { result ≡ lists.numbered_line file.now number (kind_by_number number) action (words_left words.entry) }
    ensures in_range { IfOk result IsInRange }
    ensures fits { IfOk result (FitsFile file.now) }
{
    let kind = kind_of_number(number);
    match kind {
        None => Err(LineRefusal::BadValue),
        Some(kind) => line_of(file, Name::of_number(number), kind, None, action, words),
    }
}

/// The same, where the number and the action may be none.
fn numbered_by(
    file: &RouterText,
    number: Option<u32>,
    action: Option<Action>,
    words: Words,
) -> Result<Command, LineRefusal>
    requires { HasLawfulLists file.now }
    ensures row { result ≡ lists.numbered_by file.now number action (words_left words.entry) }
    ensures in_range { IfOk result IsInRange }
    ensures fits { IfOk result (FitsFile file.now) }
{
    match (number, action) {
        (Some(number), Some(action)) => numbered_line(file, number, action, words),
        _ => Err(LineRefusal::BadValue),
    }
}

/// `access-list N permit|deny ..`, `access-list N remark ..`
pub(crate) fn numbered(file: &RouterText, mut words: Words) -> Result<Command, LineRefusal>
    requires { HasLawfulLists file.now }
    ensures row { result ≡ lists.numbered file.now (words_left words.entry) }
    ensures in_range { IfOk result IsInRange }
    ensures fits { IfOk result (FitsFile file.now) }
{
    let (Some(number), Some(word)) = (words.next_word(), words.next_word()) else {
        return Err(LineRefusal::BadValue);
    };
    let number = word_u32(number);
    if number.is_some() && word == b"remark".as_slice() {
        return Ok(Command::Remark);
    }
    numbered_by(file, number, action_of(word), words)
}

/// The block of the list of this name and kind.
fn opened_as(
    file: &RouterText,
    kind: AccessListKind,
    list: Option<Name>,
) -> Result<Command, LineRefusal>
    ensures row { result ≡ lists.opened_as file.now kind list }
    ensures in_range { IfOk result IsInRange }
    ensures fits { IfOk result (FitsFile file.now) }
{
    match list {
        None => Err(LineRefusal::BadValue),
        Some(list) => {
            let free = may_be(file.lists.access_lists.get(&list), kind);
            if free {
                Ok(Command::ListLine {
                    list,
                    line: ListLine::AccessListOpened(kind),
                })
            } else {
                Err(LineRefusal::BadValue)
            }
        }
    }
}

/// `ip access-list standard NAME`, `ip access-list extended NAME`
pub(crate) fn opened(
    file: &RouterText,
    kind: AccessListKind,
    mut words: Words,
) -> Result<Command, LineRefusal>
    ensures row { result ≡ lists.opened file.now kind (words_left words.entry) }
    ensures in_range { IfOk result IsInRange }
    ensures fits { IfOk result (FitsFile file.now) }
{
    match (words.next_word(), words.next_word()) {
        (Some(word), None) => opened_as(file, kind, Name::new(word)),
        _ => Err(LineRefusal::BadValue),
    }
}
