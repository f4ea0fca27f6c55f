//! Links between the interfaces of a network, the takers of an address on a link, and each router's own addresses.
//!
//! It stands on the addresses and prefixes of rc_base and on the model of rc_config. The layer above knows the links of a
//! network as a topology, what is kept of each router's interfaces, and every answer by the definitions over that.
#![tactic(auto)]

mod filling;
mod linked;
mod links;
mod order;
mod pairs;
mod port;
mod ports;
mod prefix_set;
mod sharing;
mod takers;

pub use linked::Linked;
pub use links::Links;
pub use port::{Port, PortAddr};
pub use prefix_set::PrefixSet;
pub use takers::Takers;
