//! Transit networks.

use rc_base::{Addr, IfId, Items};

/// An interface that is attached to a transit network.
#[derive(Clone, Copy)]
pub struct Attached {
    pub out: IfId,
    /// The cost of leaving by it, from 1 to 65,535.
    pub cost: u32,
    /// Its primary address.
    pub gateway: Addr,
}

/// A transit network (RFC 2328, section 2.1): interfaces of which each is adjacent to those of all other routers.
pub struct Transit {
    pub area: u32,
    /// By router, then in the order of declaration.
    pub attached: Items<Attached>,
}

/// By a function of its own, so that what holds networks drops each by one call.
impl Drop for Transit {
    fn drop(self) {
        let Transit {
            area: _,
            attached: _,
        } = self;
    }
}
