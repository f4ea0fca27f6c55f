//! What tables are made from.
use rc_bgp::{Changes, ConfiguredSessions, Inside};
use rc_config::Network;
use rc_external::Externals;
use rc_ospf::Internal;
use rc_pieces::Knowledge;

/// What each router knew a round earlier yet, and what changed from there to the round before.
#[derive(Drop)]
pub struct Earlier<'a> {
    pub state: &'a Knowledge,
    /// The prefixes whose best path may be another since.
    pub changes: &'a Changes,
    /// Those of them for which internal BGP peers may be told other than then.
    pub inside: &'a Changes,
}

/// What the next tables are made from: all routers of a round read the same.
#[derive(Drop)]
pub struct Inputs<'a> {
    pub network: &'a Network,
    /// What OSPF gives without any table, which no round changes.
    pub internal: &'a Internal,
    /// The sessions of BGP that are configured, which no round changes.
    pub sessions: &'a ConfiguredSessions,
    /// What AS boundary routers send of the tables of the round before.
    pub externals: &'a Externals,
    /// What each router may tell its internal BGP peers of what it knows after the round before.
    pub inside: &'a Inside,
    /// What each router knows after the round before.
    pub previous: &'a Knowledge,
    /// What there was a round earlier yet, where there was such a round. Who read the same then knows the same again.
    pub earlier: Option<Earlier<'a>>,
}
