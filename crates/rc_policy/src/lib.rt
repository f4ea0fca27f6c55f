//! What prefix lists, community lists and route maps do with a route: the first line, or entry, that matches decides.
//!
//! It stands on the prefixes and communities of rc_base, on the AS paths of rc_as_path, on the lists and maps of rc_config, and on
//! the address test of rc_filter. The layer above knows the answer of each call as that of the definition. Only `apply` takes memory, for what
//! it sets, and it rejects a route exactly where the definition does.
#![tactic(auto)]

mod attrs;
mod community_lists;
mod conditions;
mod prefix_lists;
mod route_maps;
mod setting;

pub use attrs::Attrs;
pub use community_lists::community_list_permits;
pub use conditions::permits_address;
pub use prefix_lists::permits;
pub use route_maps::apply;
