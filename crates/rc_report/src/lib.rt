//! Texts to a sink: lines out of parts, the route table of a router, the walk of a packet, the cubes of a set of headers, and what becomes of a packet without each link.
//!
//! It stands on sinks, addresses, networks, routes, walks, and the node table with its cubes. The layer above knows a text as what is appended to the sink, or a
//! front of it where the sink fails, and joins texts by `Puts`. A line of any length goes in pieces of 512 bytes; only `Buffer::new` takes memory.
#![tactic(auto)]

mod behind;
mod buffer;
mod cubes;
mod digits;
mod failures;
mod idle;
mod names;
mod outcomes;
mod part;
mod put;
mod puts;
mod routes;
mod tables;
mod walks;

pub use behind::{CubeLines, WalkLines};
pub use buffer::Buffer;
pub use cubes::put_cubes;
pub use failures::{FailRow, FailureLines, put_failures};
pub use idle::{IdleLines, ListIdle, RouterIdle, put_idle};
pub use outcomes::OutcomeLine;
pub use part::Part;
pub use put::{SinkFault, end_line, put_line, put_parts};
pub use puts::{Nothing, Puts, Then};
pub use routes::put_routes;
pub use tables::{AllRoutes, RoutesLine, RoutesOf};
pub use walks::put_walk;
