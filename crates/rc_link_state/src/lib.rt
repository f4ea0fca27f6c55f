//! The link states of OSPF: which routers are adjacent, and the least walks between them inside each area (RFC 2328, sections 2, 10.5
//! and 16.1).
//!
//! It stands on the interfaces of rc_ospf_interfaces, the links of rc_topology and the least costs of rc_spf. The layer above knows of
//! each router the cost of its least walks to another one inside an area and the first hops of all of them, over the steps between
//! each two interfaces that are adjacent (`adjacencies`), whichever of them a transit network stands for.
//!
//! The crate goes one way: interfaces by what they have to agree on to be adjacent (`segment`, `by_segment`), which of them stand together
//! (`whole`), transit networks and the steps that no network stands for, of a segment (`parts`) and of all (`split`), the graph of an area
//! with its networks as nodes (`graph`), what is left from each node towards a router, and the hops that lead there (`leading`, in order by
//! `hops`), and the table of both (`table`).
#![tactic(auto)]

mod area;
mod areas;
mod by_router;
mod by_segment;
mod columns;
mod costs;
mod end;
mod graph;
mod hops;
mod inside;
mod leading;
mod parts;
mod segment;
mod sole;
mod split;
mod step;
mod table;
mod transit;
mod whole;

pub use end::End;
pub use hops::{add_hops, hops_in_order, put_in_order};
pub use leading::hop_of;
pub use sole::Sole;
pub use step::Step;
pub use table::WalkTable;
use transit::{Attached, Transit};
