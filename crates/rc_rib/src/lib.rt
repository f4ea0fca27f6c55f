//! The next table and best paths of one router.
//!
//! It stands on the model of rc_config, on the routes of rc_route, in pieces (rc_pieces), on the hops of addresses of rc_fib, on the routes
//! of rc_ospf and rc_external, and on the best paths of rc_bgp. The layer above knows what a router knows after a round as a function of
//! the network, of what OSPF gives without any table, and of what all routers knew before it, in its order.
#![tactic(auto)]

mod active;
mod alone;
mod connected_routes;
mod grouping;
mod inputs;
mod laying;
mod learned;
mod lone;
mod made;
mod mending;
mod merging;
mod next;
mod outside;
mod rows;
mod settled;
mod sharing;

pub use alone::all_read_nothing;
pub use connected_routes::connected;
pub use inputs::{Earlier, Inputs};
pub use lone::lone_table;
pub use made::Made;
pub use next::table;
pub use settled::is_settled;
