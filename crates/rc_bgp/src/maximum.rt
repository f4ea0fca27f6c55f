//! How many paths to one prefix a router may use at once.
ghost use Rattle.std.specs.Prelude.{◌≡◌};
ghost use Rattle.rc_bgp.specs.Maximum as spec;

use rc_base::RouterId;
use rc_config::{MaximumPaths, Network};
use rc_route::PathSource;

/// How many paths to one prefix a router may use at once, of each kind; one where it has no process.
pub(crate) fn maximum_of(net: &Network, router: RouterId) -> MaximumPaths
    ensures { result ≡ spec.maximum_of net.now router }
{
    let one_each = MaximumPaths {
        external: 1,
        internal: 1,
    };
    let found = net.router_at(router);
    match found {
        None => one_each,
        Some(file) => match &file.bgp {
            None => one_each,
            Some(process) => process.maximum_paths,
        },
    }
}

/// The number for paths of a kind. What the router originates stands alone.
pub(crate) fn number_for(most: MaximumPaths, source: PathSource) -> u8
    ensures { result ≡ spec.number_for most source }
{
    match source {
        PathSource::External => most.external,
        PathSource::Internal => most.internal,
        _ => 1,
    }
}
