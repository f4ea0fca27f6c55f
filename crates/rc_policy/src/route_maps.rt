//! What a route map makes of a route.
ghost use Rattle.std.specs.Prelude.{◌≡◌, IfOk};
ghost use Rattle.std.specs.List.{find};
ghost use Rattle.std.specs.Option.{option_copied};
ghost use Rattle.rc_policy.specs.Policy.{matches_entry, route_map};

use crate::Attrs;
use crate::conditions::matches_entry;
use crate::setting::with_sets;
use rc_config::{Action, Lists, MapEntry, RouteMap};
use std::alloc::{AllocError, Global};

/// The first entry that matches.
fn deciding<'a>(map: &'a RouteMap, lists: &Lists, attrs: &Attrs) -> Option<&'a MapEntry>
    ensures { option_copied result ≡ find (matches_entry lists.now attrs.now) map.now.entries }
{
    for entry in map.entries.iter() {
        if matches_entry(entry, lists, attrs) {
            return Some(entry);
        }
    }
    None
}

/// What a route map makes of a route, `None` exactly where it rejects it. By rising number, the first entry that matches
/// decides: `permit` gives the route with what the entry sets, and `deny` rejects it, as the end does. The error is want of
/// memory.
pub fn apply(
    alloc: Global,
    map: &RouteMap,
    lists: &Lists,
    attrs: Attrs,
) -> Result<Option<Attrs>, AllocError>
    ensures { IfOk result (λ made. made ≡ route_map lists.now map.now attrs) }
{
    let Some(entry) = deciding(map, lists, &attrs) else {
        return Ok(None);
    };
    match entry.action {
        Action::Permit => {
            let made = with_sets(alloc, &entry.sets, attrs)?;
            Ok(Some(made))
        }
        Action::Deny => Ok(None),
    }
}
