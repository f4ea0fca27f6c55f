//! Route maps (IOS `route-map`).
ghost use Rattle.std.specs.Prelude.{◌≡◌};
ghost use Rattle.rc_config.specs.RouteMap.{fresh_entry, no_entries, IsLawfulMap};

use crate::{Action, ByNumber, Numbered, Sets};
use rc_base::{Items, Name};
use std::alloc::Global;

/// A list that a `match` line names, and the number of the line.
#[derive(Clone, Copy)]
pub struct Mention {
    pub name: Name,
    pub line: u64,
}

/// An entry of a route map. Each of its three lists of names is a condition, which holds where one of the lists so named
/// permits, and no condition where it is empty.
pub struct MapEntry {
    /// The number, from 0 to 65535.
    pub number: u32,
    pub action: Action,
    /// What the lines `match ip address` name, in file order.
    pub access_lists: Items<Mention>,
    /// What the lines `match ip address prefix-list` name.
    pub prefix_lists: Items<Mention>,
    /// What the lines `match community` name.
    pub community_lists: Items<Mention>,
    pub sets: Sets,
}

/// By a function of its own, so that what holds one drops it by one call.
impl Drop for MapEntry {
    fn drop(self) {
        let MapEntry {
            number: _,
            action: _,
            access_lists: _,
            prefix_lists: _,
            community_lists: _,
            sets: _,
        } = self;
    }
}

impl Numbered for MapEntry {
    ghost number = { λ e. e.number };

    fn number(&self) -> u32 {
        self.number
    }
}

impl MapEntry {
    /// An entry without lines. It takes no memory.
    pub fn new(alloc: Global, number: u32, action: Action) -> MapEntry
        ensures { result ≡ fresh_entry number action }
    {
        MapEntry {
            number,
            action,
            access_lists: Items::new(alloc),
            prefix_lists: Items::new(alloc),
            community_lists: Items::new(alloc),
            sets: Sets::new(alloc),
        }
    }
}

/// A route map: its entries by rising number.
#[derive(Drop)]
pub struct RouteMap {
    pub entries: ByNumber<MapEntry>,
}

impl RouteMap {
    /// A map without entries. It takes no memory.
    #[tactic(auto, using(crate::proofs::PolicyLaws::no_entries_lawful))]
    pub fn new(alloc: Global) -> RouteMap
        ensures value { result ≡ no_entries }
        ensures lawful { IsLawfulMap result }
    {
        RouteMap {
            entries: ByNumber::new(alloc),
        }
    }
}
