//! What the lines of access lists, prefix lists and community lists change.
ghost use Rattle.std.specs.Prelude.{◌≡◌, OnOk, unwrap_or};
ghost use Rattle.rc_config.specs.AccessList.{no_lines as no_access_list_lines, with_line as access_list_with};
ghost use Rattle.rc_config.specs.CommunityList.{no_lines as no_community_lines, with_line as community_list_with};
ghost use Rattle.rc_config.specs.Lists as spec;
ghost use Rattle.rc_config.specs.Named.{named, with_value};
ghost use Rattle.rc_config.specs.PrefixList.{no_lines as no_prefix_lines, with_line as prefix_list_with};

use crate::access_list::access_list_with;
use crate::community_list::community_list_with;
use crate::lift::lift;
use crate::prefix_list::prefix_list_with;
use rc_base::Name;
use rc_config::{
    AccessList, AccessListKind, AccessListLine, CommunityLine, CommunityList, ListLine, Lists,
    Named, PrefixLine, PrefixList,
};
use std::alloc::AllocError;

/// Puts one more line of the list of a name. A list that is opened again keeps its lines; a line of an access list or of
/// a prefix list stands by its number, and one of a community list goes behind the others.
pub(crate) fn put_line(lists: &mut Lists, name: Name, line: ListLine) -> Result<(), AllocError>
    ensures { OnOk result (lists.new ≡ spec.with_line lists.old name line) }
{
    match line {
        ListLine::AccessListOpened(kind) => {
            put_access_list_opened(&mut lists.access_lists, name, kind)
        }
        ListLine::AccessListLine { kind, line } => {
            put_access_list_line(&mut lists.access_lists, name, kind, line)
        }
        ListLine::PrefixLine(line) => put_prefix_line(&mut lists.prefix_lists, name, line),
        ListLine::CommunityLine(line) => {
            put_community_line(&mut lists.community_lists, name, line)
        }
    }
}

/// `ip access-list standard` and `ip access-list extended`
#[tactic(auto, using(crate::proofs::NamedLaws::with_value_again))]
fn put_access_list_opened(
    access_lists: &mut Named<AccessList>,
    name: Name,
    kind: AccessListKind,
) -> Result<(), AllocError>
    ensures { OnOk result (access_lists.new ≡ with_value access_lists.old name (unwrap_or (named access_lists.old name) (no_access_list_lines kind))) }
{
    let alloc = access_lists.allocator();
    let access_list = lift(
        access_lists,
        name,
        AccessList::new(alloc, kind),
        AccessList::new(alloc, kind),
    )?;
    access_lists.insert(name, access_list)?;
    Ok(())
}

/// A line of an access list. The list is taken out and put back, so that its lines are never copied.
#[tactic(auto, using(crate::proofs::NamedLaws::with_value_again))]
fn put_access_list_line(
    access_lists: &mut Named<AccessList>,
    name: Name,
    kind: AccessListKind,
    line: AccessListLine,
) -> Result<(), AllocError>
    ensures { OnOk result (access_lists.new ≡ with_value access_lists.old name (access_list_with (unwrap_or (named access_lists.old name) (no_access_list_lines kind)) line)) }
{
    let alloc = access_lists.allocator();
    let access_list = lift(
        access_lists,
        name,
        AccessList::new(alloc, kind),
        AccessList::new(alloc, kind),
    )?;
    let access_list = access_list_with(access_list, line)?;
    access_lists.insert(name, access_list)?;
    Ok(())
}

/// `ip prefix-list`
#[tactic(auto, using(crate::proofs::NamedLaws::with_value_again))]
fn put_prefix_line(
    lists: &mut Named<PrefixList>,
    name: Name,
    line: PrefixLine,
) -> Result<(), AllocError>
    ensures { OnOk result (lists.new ≡ with_value lists.old name (prefix_list_with (unwrap_or (named lists.old name) no_prefix_lines) line)) }
{
    let alloc = lists.allocator();
    let known = lift(lists, name, PrefixList::new(alloc), PrefixList::new(alloc))?;
    let known = prefix_list_with(known, line)?;
    lists.insert(name, known)?;
    Ok(())
}

/// `ip community-list`
#[tactic(auto, using(crate::proofs::NamedLaws::with_value_again))]
fn put_community_line(
    lists: &mut Named<CommunityList>,
    name: Name,
    line: CommunityLine,
) -> Result<(), AllocError>
    ensures { OnOk result (lists.new ≡ with_value lists.old name (community_list_with (unwrap_or (named lists.old name) no_community_lines) line)) }
{
    let alloc = lists.allocator();
    let known = lift(
        lists,
        name,
        CommunityList::new(alloc),
        CommunityList::new(alloc),
    )?;
    let known = community_list_with(known, line)?;
    lists.insert(name, known)?;
    Ok(())
}
