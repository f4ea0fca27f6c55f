//! The interfaces on which OSPF runs (RFC 2328, section 9): of each its area, cost, network type and intervals.
//!
//! It stands on the model of rc_config. The layer above knows the interfaces of a router as the list that the files give
//! (`ospf_interfaces`), in the order of their declaration.
#![tactic(auto)]

mod interface;

pub use interface::{OspfInterface, add_interfaces, add_router, ospf_interfaces};
