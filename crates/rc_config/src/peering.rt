//! Peer groups, and which neighbours are active: what their lines say, until each neighbour is settled.
ghost use Rattle.std.specs.Prelude.{◌≡◌};
ghost use Rattle.rc_config.specs.Peering as spec;

use crate::{ByNumber, Named, Numbered, Settings};
use rc_base::{Addr, Name};
use std::alloc::Global;

/// Whom a `neighbor` line is about.
#[derive(Clone, Copy)]
pub enum Peer {
    /// The neighbour of this address.
    Address(Addr),
    /// The peer group of this name.
    Group(Name),
}

/// A peer group: what the `neighbor` lines about its name say.
#[derive(Clone, Copy)]
pub struct Group {
    pub settings: Settings,
    /// By the last `activate` line about the group, where there is one.
    pub is_active: Option<bool>,
}

/// The membership of a neighbour in a peer group.
#[derive(Clone, Copy)]
pub struct Member {
    pub address: Addr,
    pub group: Name,
}

impl Numbered for Member {
    ghost number = { λ m. m.address };

    fn number(&self) -> u32 {
        self.address.bits()
    }
}

/// Whether a neighbour is active, by the last `activate` line about it or the last that takes one back.
#[derive(Clone, Copy)]
pub struct Activity {
    pub address: Addr,
    pub is_active: bool,
}

impl Numbered for Activity {
    ghost number = { λ a. a.address };

    fn number(&self) -> u32 {
        self.address.bits()
    }
}

/// What the lines about peer groups and activity say, until the neighbours are settled.
pub struct Peering {
    /// The peer groups in the order of declaration.
    pub groups: Named<Group>,
    /// The neighbours that are members of a group, by address.
    pub members: ByNumber<Member>,
    /// The neighbours about which an `activate` line says something, by address.
    pub activities: ByNumber<Activity>,
    /// Whether a neighbour is active where no line says anything of it, as it is without `no bgp default ipv4-unicast`.
    pub is_active_by_default: bool,
}

/// By a function of its own, so that what holds one drops it by one call.
impl Drop for Peering {
    fn drop(self) {
        let Peering {
            groups: _,
            members: _,
            activities: _,
            is_active_by_default: _,
        } = self;
    }
}

impl Peering {
    /// No group, and no line about activity. It takes no memory.
    pub fn new(alloc: Global) -> Peering
        ensures { result ≡ spec.no_peering }
    {
        Peering {
            groups: Named::new(alloc),
            members: ByNumber::new(alloc),
            activities: ByNumber::new(alloc),
            is_active_by_default: true,
        }
    }
}
