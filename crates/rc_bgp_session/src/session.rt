//! Sessions.
use rc_base::{Addr, RouterId};

/// One direction of a BGP session (RFC 4271 s.8.2.1): what the sender advertises and the receiver may take.
#[derive(Clone, Copy)]
pub struct Session {
    pub sender: RouterId,
    /// The sender's local address, which the receiver names.
    pub sender_address: Addr,
    /// The sender's BGP identifier (RFC 4271 s.4.2).
    pub sender_id: Addr,
    pub receiver: RouterId,
    /// The receiver's local address, which the sender names.
    pub receiver_address: Addr,
    /// Whether the two are in different ASes.
    pub is_external: bool,
    /// Whether the two addresses are on a shared subnet. Off one, a session is up only where each address resolves.
    pub is_shared: bool,
}
