//! Community lists (IOS `ip community-list`).
ghost use Rattle.std.specs.Prelude.{◌≡◌};
ghost use Rattle.rc_config.specs.CommunityList.{no_lines};

use crate::Action;
use rc_base::{Communities, Items};
use std::alloc::Global;

/// A line of a community list. It matches the routes that have all of its communities (RFC 1997).
#[derive(Drop)]
pub struct CommunityLine {
    pub action: Action,
    pub communities: Communities,
}

/// A community list: its lines in file order.
#[derive(Drop)]
pub struct CommunityList {
    pub lines: Items<CommunityLine>,
}

impl CommunityList {
    /// A list without lines. It takes no memory.
    pub fn new(alloc: Global) -> CommunityList
        ensures { result ≡ no_lines }
    {
        CommunityList {
            lines: Items::new(alloc),
        }
    }
}
