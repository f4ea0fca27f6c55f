//! Which entries of a route map match a route.
ghost use Rattle.std.specs.Prelude.{◌≡◌};
ghost use Rattle.rc_policy.specs.Policy.{access_list_permits, community_list_permits, condition_holds, is_permitted, matches_entry, prefix_list_permits, some_permits};

use crate::{Attrs, community_list_permits, permits};
use rc_base::{Addr, Communities, Name, Prefix};
use rc_config::{AccessList, Action, CommunityList, Lists, MapEntry, Mention, Named, PrefixList};
use rc_filter::matches_address;

/// Whether a standard access list permits an address: the action of the first line whose source is the address decides, and
/// the end denies. Of other tests that a line has nothing is asked.
pub fn permits_address(access_list: &AccessList, addr: Addr) -> bool
    ensures { result ≡ access_list_permits access_list.now addr }
{
    for line in access_list.lines.iter() {
        if matches_address(&line.source, addr) {
            return matches!(line.action, Action::Permit);
        }
    }
    false
}

/// Whether the access list of a name is there and permits an address.
fn named_access_list_permits(access_lists: &Named<AccessList>, name: &Name, addr: Addr) -> bool
    ensures { result ≡ is_permitted access_lists.now (λ f. access_list_permits f addr) name.now }
{
    let found = access_lists.get(name);
    match found {
        Some(access_list) => permits_address(access_list, addr),
        None => false,
    }
}

/// Whether the prefix list of a name is there and permits a prefix.
fn named_prefix_list_permits(lists: &Named<PrefixList>, name: &Name, prefix: Prefix) -> bool
    ensures { result ≡ is_permitted lists.now (λ l. prefix_list_permits l prefix) name.now }
{
    let found = lists.get(name);
    match found {
        Some(list) => permits(list, prefix),
        None => false,
    }
}

/// Whether the community list of a name is there and permits a route with these communities.
fn named_community_list_permits(
    lists: &Named<CommunityList>,
    name: &Name,
    communities: &Communities,
) -> bool
    ensures { result ≡ is_permitted lists.now (λ l. community_list_permits l communities.now) name.now }
{
    let found = lists.get(name);
    match found {
        Some(list) => community_list_permits(list, communities),
        None => false,
    }
}

/// Whether one of the access lists so named permits an address.
fn some_access_list_permits(access_lists: &Named<AccessList>, names: &[Mention], addr: Addr) -> bool
    ensures { result ≡ some_permits access_lists.now (λ f. access_list_permits f addr) names.now }
{
    names.iter().any(|mention| named_access_list_permits(access_lists, &mention.name, addr))
}

/// Whether one of the prefix lists so named permits a prefix.
fn some_prefix_list_permits(lists: &Named<PrefixList>, names: &[Mention], prefix: Prefix) -> bool
    ensures { result ≡ some_permits lists.now (λ l. prefix_list_permits l prefix) names.now }
{
    names.iter().any(|mention| named_prefix_list_permits(lists, &mention.name, prefix))
}

/// Whether one of the community lists so named permits a route with these communities.
fn some_community_list_permits(
    lists: &Named<CommunityList>,
    names: &[Mention],
    communities: &Communities,
) -> bool
    ensures { result ≡ some_permits lists.now (λ l. community_list_permits l communities.now) names.now }
{
    names.iter().any(|mention| named_community_list_permits(lists, &mention.name, communities))
}

/// Whether the condition of the lines `match ip address` holds.
fn holds_by_access_lists(access_lists: &Named<AccessList>, names: &[Mention], addr: Addr) -> bool
    ensures { result ≡ condition_holds access_lists.now (λ f. access_list_permits f addr) names.now }
{
    names.is_empty() || some_access_list_permits(access_lists, names, addr)
}

/// Whether the condition of the lines `match ip address prefix-list` holds.
fn holds_by_prefix_lists(lists: &Named<PrefixList>, names: &[Mention], prefix: Prefix) -> bool
    ensures { result ≡ condition_holds lists.now (λ l. prefix_list_permits l prefix) names.now }
{
    names.is_empty() || some_prefix_list_permits(lists, names, prefix)
}

/// Whether the condition of the lines `match community` holds.
fn holds_by_community_lists(
    lists: &Named<CommunityList>,
    names: &[Mention],
    communities: &Communities,
) -> bool
    ensures { result ≡ condition_holds lists.now (λ l. community_list_permits l communities.now) names.now }
{
    names.is_empty() || some_community_list_permits(lists, names, communities)
}

/// Whether each condition of an entry holds for a route.
pub(crate) fn matches_entry(entry: &MapEntry, lists: &Lists, attrs: &Attrs) -> bool
    ensures { result ≡ matches_entry lists.now attrs.now entry.now }
{
    let network = attrs.prefix.network();
    holds_by_access_lists(&lists.access_lists, entry.access_lists.as_slice(), network)
        && holds_by_prefix_lists(
            &lists.prefix_lists,
            entry.prefix_lists.as_slice(),
            attrs.prefix,
        )
        && holds_by_community_lists(
            &lists.community_lists,
            entry.community_lists.as_slice(),
            &attrs.communities,
        )
}
