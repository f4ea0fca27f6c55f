//! Addresses, prefixes, names, communities, headers, positions and endings: the words that every other crate speaks in.
//!
//! It stands on no crate of this repository. The layer above knows each type by what it means: an address is a number below 2^32, a prefix
//! a network and a length, a name its bytes, a header its fields as one table tells them, and so its bits, a list its elements, a set of
//! communities its rising numbers, and what stands under prefixes as rows in order of prefix. Memory is taken only by calls that put one
//! thing more into a list or under a prefix, or make a set of communities.
#![tactic(auto)]

mod addr;
mod bits;
mod communities;
mod ending;
mod field;
mod file_name;
mod header;
mod items;
mod name;
mod origin;
mod position;
mod prefix;
mod prefix_index;
mod prefix_map;

pub use addr::{Addr, len_of, mask_of};
pub use bits::{header_bit, header_is_free, header_laws, with_header_bit};
pub use communities::Communities;
pub use ending::{Ends, Kind};
pub use field::{
    ACK_LAST, DPORT_LAST, DST_LAST, Field, HEADER_BITS, ICMP_CODE_LAST, ICMP_TYPE_LAST, PROTO_LAST,
    RST_LAST, SPORT_LAST, SRC_LAST,
};
pub use file_name::FileName;
pub use header::{Header, header_ranges};
pub use items::Items;
pub use name::Name;
pub use origin::{Origin, compare_origins};
pub use position::{IfId, Pos, RouterId, compare_interfaces};
pub use prefix::Prefix;
pub use prefix_index::PrefixIndex;
pub use prefix_map::PrefixMap;
