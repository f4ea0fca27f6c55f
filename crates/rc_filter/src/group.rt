//! Access groups.
ghost use Rattle.std.specs.Prelude.{◌≡◌};
ghost use Rattle.std.specs.Option.{option_copied};
ghost use Rattle.rc_filter.specs.Verdict.{passes};

use crate::verdict;
use rc_base::{Header, Name};
use rc_config::{AccessList, Named};

/// Whether an access group lets a header pass, `None` where the interface has no access group. A group passes everything
/// where its list isn't there or has no line; else the list decides.
pub fn passes(access_lists: &Named<AccessList>, group: Option<&Name>, header: &Header) -> bool
    ensures { result ≡ passes access_lists.now (option_copied group.entry) header.now }
{
    let Some(name) = group else {
        return true;
    };
    match access_lists.get(name) {
        Some(access_list) => access_list.lines.is_empty() || verdict(access_list, header),
        None => true,
    }
}
