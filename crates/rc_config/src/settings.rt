//! What `neighbor` lines set, of a neighbour or of a peer group.
ghost use Rattle.std.specs.Prelude.{◌≡◌};
ghost use Rattle.rc_config.specs.Settings as spec;

use crate::Mention;
use rc_base::Name;

/// What the `neighbor` lines about one neighbour or one peer group set, each by its last line.
#[derive(Clone, Copy)]
pub struct Settings {
    /// The number of the AS. Without one there is no session.
    pub remote_as: Option<u32>,
    /// The interface whose address is the local one of sessions. The file may have no interface of this name.
    pub update_source: Option<Name>,
    /// Whether an external session may go beyond a shared subnet.
    pub is_multihop: bool,
    /// Whether sessions are shut down.
    pub is_shutdown: bool,
    /// Whether paths that are sent have the local address as their NEXT_HOP (RFC 4271 s.5.1.3).
    pub next_hop_self: bool,
    /// Whether the default route is sent.
    pub default_originate: bool,
    /// Whether communities (RFC 1997) are sent.
    pub send_community: bool,
    /// The weight of paths that are heard, which no other router sees. Without one it is 0.
    pub weight: Option<u16>,
    /// The route map for paths that are heard. The file may have no route map of this name.
    pub map_in: Option<Mention>,
    /// The route map for paths that are sent, likewise.
    pub map_out: Option<Mention>,
    /// The prefix list for paths that are heard, likewise.
    pub list_in: Option<Mention>,
    /// The prefix list for paths that are sent, likewise.
    pub list_out: Option<Mention>,
}

impl Settings {
    /// Those that no line sets.
    pub fn none() -> Settings
        ensures { result ≡ spec.no_settings }
    {
        Settings {
            remote_as: None,
            update_source: None,
            is_multihop: false,
            is_shutdown: false,
            next_hop_self: false,
            default_originate: false,
            send_community: false,
            weight: None,
            map_in: None,
            map_out: None,
            list_in: None,
            list_out: None,
        }
    }
}
