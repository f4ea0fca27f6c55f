//! Which communities a community list permits.
ghost use Rattle.std.specs.Prelude.{◌≡◌};
ghost use Rattle.rc_policy.specs.Policy.{community_list_permits, community_lines_permit};

use rc_base::Communities;
use rc_config::{Action, CommunityLine, CommunityList};

/// Whether the first of the lines that matches permits.
fn lines_permit(lines: &[CommunityLine], communities: &Communities) -> bool
    ensures { result ≡ community_lines_permit lines.now communities.now }
{
    for line in lines {
        if communities.includes(&line.communities) {
            return matches!(line.action, Action::Permit);
        }
    }
    false
}

/// Whether a community list permits a route with these communities: a line matches where the route has all of its
/// communities, the action of the first line that matches decides, and the end denies.
pub fn community_list_permits(list: &CommunityList, communities: &Communities) -> bool
    ensures { result ≡ community_list_permits list.now communities.now }
{
    lines_permit(list.lines.as_slice(), communities)
}
