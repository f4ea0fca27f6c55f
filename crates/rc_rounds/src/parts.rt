//! What the workers of a round read beside states, and what a round makes.
use rc_base::Items;
use rc_bgp::{Changes, ConfiguredSessions};
use rc_config::Network;
use rc_external::Externals;
use rc_ospf::Internal;
use rc_rib::Made;

/// What the workers of a round read beside the states of the round before and of the one earlier yet.
#[derive(Drop)]
pub(crate) struct Setting<'a> {
    pub(crate) network: &'a Network,
    pub(crate) internal: &'a Internal,
    pub(crate) sessions: &'a ConfiguredSessions,
    pub(crate) externals: &'a Externals,
    /// Whether there was a round earlier yet.
    pub(crate) has_earlier: bool,
    /// What changed in best paths since, where there was.
    pub(crate) changes: &'a Changes,
    /// What of that changed in what internal peers may be told.
    pub(crate) changes_inside: &'a Changes,
}

/// What a round makes of all routers, each of which it makes anew where something changed that the router reads.
pub(crate) type Fresh = Items<Option<Made>>;
