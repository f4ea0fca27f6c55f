//! Where a line stands.
use crate::{AccessListKind, RouterText};
use rc_base::Name;

/// The block that is open at a line.
#[derive(Clone, Copy)]
pub enum OpenBlock {
    /// None is open, and the line is indented.
    Closed,
    /// The line has no indent.
    Global,
    /// The block of this interface.
    Interface(Name),
    /// The block of this named access list, which is of this kind.
    AccessList(Name, AccessListKind),
    /// The block of the entry of this number of a route map.
    Map(Name, u32),
    /// The block of the router's OSPF process.
    Ospf,
    /// The block of the router's BGP process.
    Bgp,
    /// IPv4's address family in the block of the BGP process.
    InFamily,
    /// Another address family there, whose lines are all passed over.
    InOtherFamily,
    /// A block whose lines are all passed over.
    Ignored,
}

/// Where a line stands: the open block, and what the file has said before.
#[derive(Clone, Copy)]
pub struct Context<'a> {
    pub block: OpenBlock,
    pub file: &'a RouterText,
}
