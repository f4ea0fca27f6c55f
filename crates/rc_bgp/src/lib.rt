//! BGP: which sessions there are and which are up, and each router's best paths by what goes over them (RFC 4271, RFC 1997).
//!
//! It stands on the model of rc_config, the links of rc_topology, the interfaces of rc_ospf, the hops of rc_fib, what routers know in
//! the pieces of rc_pieces, the decision of rc_bgp_decide, and on rc_bgp_session for what goes over one session, whose types and calls it hands on. The layer above knows
//! the sessions of a network that are up in a state as a list, and a router's candidates and best paths as functions of the
//! network, the sessions and what all routers knew before, in their order. Rounds keep the sessions that are configured, which no state
//! changes, and see in each state which are up.
//!
//! The crate goes one way: what a router says of itself and its neighbours (`speaker`, `own_addresses`, `statement`), the sessions that two
//! such statements make (`pairing`) and those that are up in a state (`up`, by `reaching` and `resolver`); the paths that a router originates
//! (`originating` by lines `network`, `redistributing`, and `all_originated`), what it knew (`router_state`) and hears of what others knew
//! (`listener`; `hearing`, `senders`), for one prefix or, path by path as its senders tell them, for all (`gathering`), its candidates and the best of them
//! (`deciding`) with as many further next hops as it may use (`maximum`, `further`), and the routes that these give (`learning`).
//! `round_paths` gives a router's best paths from one round to the next and what changed in them (`changes`), and in what internal peers may be
//! told of them (`inside`): where a router reads what it read before (`same_inputs`), only the prefixes that its senders may tell it anew
//! (`news`) are decided again (`redeciding`), as edits of the paths that it knew, and where nothing changed at them its best paths stay.
#![tactic(auto)]

mod all_originated;
mod changes;
mod deciding;
mod further;
mod gathering;
mod hearing;
mod inside;
mod learning;
mod listener;
mod maximum;
mod news;
mod originating;
mod own_addresses;
mod pairing;
mod reaching;
mod redeciding;
mod redistributing;
mod resolver;
mod round_paths;
mod router_state;
mod same_inputs;
mod senders;
mod speaker;
mod statement;
mod telling;
mod up;

pub use changes::{Changes, Renewed};
pub use deciding::candidates;
pub use inside::changed_inside;
pub use learning::learned_route;
pub use pairing::{ConfiguredSessions, configured_sessions};
pub use rc_bgp_session::{Session, export, import};
pub use round_paths::{first_paths, renewed_paths, stay_best};
pub use telling::{Inside, told_inside};
pub use up::{Sessions, sessions};
