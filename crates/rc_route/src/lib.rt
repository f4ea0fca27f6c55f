//! Routes, BGP paths, what all routers know after a round, and how rounds may end.
//!
//! It stands on the addresses, prefixes, lists and communities of rc_base, and on the AS paths of rc_as_path. The layer above
//! knows a table as its list of routes, a route's hops as a list, a list in parts as that list, a state as the list of what
//! each router knows, and what stands there for a prefix.
#![tactic(auto)]

mod best;
mod further;
mod hops;
mod kept_path;
mod listed;
mod outcome;
mod parts;
mod path;
mod route;
mod shared;
mod state;

pub use best::Best;
pub use further::FurtherHops;
pub use hops::Hops;
pub use kept_path::KeptPath;
pub use listed::{HasPrefix, best_path_for, listed_at};
pub use outcome::{Outcome, RoundsEnd};
pub use parts::Parts;
pub use path::{BgpPath, PathSource, compare_path_sources};
pub use route::{Hop, Route, Source, Table, compare_hops, compare_sources, same_hop};
pub use shared::SharedHops;
pub use state::{RouterState, State};
