//! Static routes.
use rc_base::{Addr, Name, Prefix};

/// Where a static route leads. The names are those of interfaces, which need not be declared.
#[derive(Clone, Copy)]
pub enum Target {
    /// The packet is dropped.
    Null,
    /// Out of an interface, to the destination itself.
    Dev(Name),
    /// To a gateway.
    Via(Addr),
    /// To a gateway, out of an interface.
    ViaDev(Addr, Name),
}

/// A static route, as one line `ip route` says it.
#[derive(Clone, Copy)]
pub struct StaticRoute {
    pub prefix: Prefix,
    pub target: Target,
    /// The administrative distance, from 1 to 255: 1 where the line gives none.
    pub distance: u8,
}
