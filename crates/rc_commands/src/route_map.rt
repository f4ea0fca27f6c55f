//! What the lines of a route map change.
ghost use Rattle.std.specs.Prelude.{◌≡◌, ◌++◌, ◌≤◌, IfOk, OnOk};
ghost use Rattle.rc_config.specs.ByNumber.{without_number, IsByNumber};
ghost use Rattle.rc_config.specs.RouteMap.{entry_opened, entry_with, mentions, number_of, opened, with_line, with_mentions, IsLawfulMap, IsLawfulMapLine};

use crate::sets::put_line;
use rc_base::{Items, Name};
use rc_config::{Action, ByNumber, MapEntry, MapLine, MatchKind, Mention, RouteMap};
use std::alloc::{AllocError, Global};

/// Puts the names of a `match` line behind the others.
fn add_mentions(known: &mut Items<Mention>, names: &[Name], line: u64) -> Result<(), AllocError>
    ensures { OnOk result (known.new ≡ known.old ++ mentions names.now line) }
{
    for name in names {
        known.push(Mention { name: *name, line })?;
    }
    Ok(())
}

/// The entry with these names behind the others of their opening.
fn with_mentions(
    mut entry: MapEntry,
    kind: MatchKind,
    names: &[Name],
    line: u64,
) -> Result<MapEntry, AllocError>
    ensures { IfOk result (λ e. e ≡ with_mentions entry kind (mentions names.now line)) }
{
    match kind {
        MatchKind::AccessList => add_mentions(&mut entry.access_lists, names, line)?,
        MatchKind::PrefixList => add_mentions(&mut entry.prefix_lists, names, line)?,
        MatchKind::CommunityList => add_mentions(&mut entry.community_lists, names, line)?,
    }
    Ok(entry)
}

/// The entry after one more line.
fn entry_with(mut entry: MapEntry, line: MapLine) -> Result<MapEntry, AllocError>
    ensures { IfOk result (λ e. e ≡ entry_with entry line) }
{
    match line {
        MapLine::Match { kind, names, line } => with_mentions(entry, kind, names.as_slice(), line),
        MapLine::Set(set) => {
            put_line(&mut entry.sets, set);
            Ok(entry)
        }
    }
}

/// Takes out the entry of a number, opened with this action. One that isn't there is an entry without lines.
fn take_opened(
    alloc: Global,
    entries: &mut ByNumber<MapEntry>,
    number: u32,
    action: Action,
) -> MapEntry
    ensures entry { result ≡ entry_opened entries.old number action }
    ensures others { entries.new ≡ without_number number_of number entries.old }
    ensures were_by_number { IsByNumber number_of entries.old }
{
    match entries.take(number) {
        Some(mut entry) => {
            entry.action = action;
            entry
        }
        None => MapEntry::new(alloc, number, action),
    }
}

/// The map in which the entry of this number is opened: a known one again, with this action and the lines that it has,
/// and a new one without lines, by its number. A lawful map stays lawful where the number is at most 65535.
pub fn route_map_opened(
    map: RouteMap,
    alloc: Global,
    number: u32,
    action: Action,
) -> Result<RouteMap, AllocError>
    ensures value { IfOk result (λ m. m ≡ opened map number action) }
    ensures lawful { IfOk result (λ m. IsLawfulMap map → number ≤ 65535 → IsLawfulMap m) }
{
    with_opened(map, alloc, number, action)
}

/// The map in which the entry of this number has one more line: the names of a `match` line stand behind the others of
/// their opening, and a `set` line counts in place of an earlier one of its opening. Where no entry has the number the
/// map stays as it is. A lawful map stays lawful with a lawful line.
pub fn route_map_with(map: RouteMap, number: u32, line: MapLine) -> Result<RouteMap, AllocError>
    ensures value { IfOk result (λ m. m ≡ with_line map number line) }
    ensures lawful { IfOk result (λ m. IsLawfulMap map → IsLawfulMapLine line → IsLawfulMap m) }
{
    with_more(map, number, line)
}

#[tactic(auto, using(crate::proofs::PolicyLaws::opened_over))]
fn with_opened(
    map: RouteMap,
    alloc: Global,
    number: u32,
    action: Action,
) -> Result<RouteMap, AllocError>
    ensures { IfOk result (λ m. m ≡ opened map number action) }
{
    let RouteMap { mut entries } = map;
    let entry = take_opened(alloc, &mut entries, number, action);
    entries.insert(entry)?;
    Ok(RouteMap { entries })
}

#[tactic(auto, using(crate::proofs::PolicyLaws::lined_over, crate::proofs::PolicyLaws::none_lined))]
fn with_more(map: RouteMap, number: u32, line: MapLine) -> Result<RouteMap, AllocError>
    ensures { IfOk result (λ m. m ≡ with_line map number line) }
{
    let RouteMap { mut entries } = map;
    match entries.take(number) {
        None => Ok(RouteMap { entries }),
        Some(entry) => {
            let entry = entry_with(entry, line)?;
            entries.insert(entry)?;
            Ok(RouteMap { entries })
        }
    }
}
