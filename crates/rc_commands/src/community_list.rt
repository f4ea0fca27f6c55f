//! What a line of a community list changes.
ghost use Rattle.std.specs.Prelude.{◌≡◌, IfOk};
ghost use Rattle.rc_config.specs.CommunityList.{with_line};

use rc_config::{CommunityLine, CommunityList};
use std::alloc::AllocError;

/// The list with one more line behind the others.
pub fn community_list_with(
    list: CommunityList,
    line: CommunityLine,
) -> Result<CommunityList, AllocError>
    ensures { IfOk result (λ c. c ≡ with_line list line) }
{
    let CommunityList { mut lines } = list;
    lines.push(line)?;
    Ok(CommunityList { lines })
}
