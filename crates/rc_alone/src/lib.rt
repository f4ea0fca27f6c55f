//! The tables of a network in which no router reads what any router knows.
//!
//! It stands on the routes of OSPF, as they are taken router by router (rc_ospf), on connected routes and the table of a router that reads
//! nothing (rc_rib), on prepared tables (rc_fib, rc_moves), and on how rounds end (rc_rounds). The layer above knows such tables as those of
//! the state in which the rounds end at a fixed point, though neither a state nor a route of OSPF was ever there: `laying` puts the connected
//! routes of a router and those of OSPF straight into its prepared table.
#![tactic(auto)]

mod laying;
mod preparing;
mod tables;

pub use tables::{Alone, tables_alone};
