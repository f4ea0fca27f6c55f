//! One BGP session: what goes over it (RFC 4271 s.5.1, s.9.1, s.9.2, RFC 1997).
//!
//! It stands on the model of rc_config, the lists and maps of rc_policy, the paths of rc_route and, for what is internal or
//! originated, on the decision of rc_bgp_decide. The layer above knows what the sender exports and the receiver imports as
//! functions of the network, the session and the path. Which sessions there are is not asked here. All that errs is memory.
#![tactic(auto)]

mod last_as_path;
mod passing;
mod policy;
mod session;
mod through;

pub use last_as_path::LastAsPath;
pub use passing::{export, import, is_internal, is_originated, originated_default, taken};
pub use policy::mapped_path;
pub use session::Session;
pub use through::{asks_no_prefix, passed};
