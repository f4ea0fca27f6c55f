//! Routes from outside of the AS (RFC 2328 s.12.4.4 and 16.4): what AS boundary routers send of their previous tables, and the
//! routes that others have of it.
//!
//! It stands on the model of rc_config, on the tables of rc_route in the pieces of rc_pieces, on the route maps of rc_policy and on
//! the paths of rc_ospf to AS boundary routers. The layer above knows what all boundary routers send from a state, once for all
//! readers, by prefix; and the external routes of a router of what others send, in order of prefix, its own and its internal prefixes
//! not yet set aside.
#![tactic(auto)]

mod as_external;
mod boundary_index;
mod cost;
mod grouping;
mod origination;
mod routes;
mod sending;
mod way;

pub use as_external::{External, ExternalRow, Externals};
pub use cost::{ExternalCost, compare_costs};
pub use routes::external;
pub use sending::externals;
