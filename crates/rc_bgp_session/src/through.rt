//! What comes over a session, and whether it hangs on the path's prefix.
ghost use Rattle.std.specs.Prelude.{◌≡◌, IfOk, IsTrue, None};
ghost use Rattle.std.specs.Option.{option_copied};
ghost use Rattle.rc_bgp_session.specs.Passed as spec;
ghost use Rattle.rc_bgp_session.specs.Passed.{AsksNoPrefix};

use crate::Session;
use crate::last_as_path::LastAsPath;
use crate::passing::{export_with_last, taken};
use rc_base::{Addr, RouterId};
use rc_config::{Neighbor, Network};
use rc_route::BgpPath;
use std::alloc::{AllocError, Global};

/// What the receiver of a session takes of a path of its sender, or `None` exactly where the sender doesn't advertise it or the receiver
/// refuses it. The AS path that the sender put together last is at hand: mostly the path goes on with that one. It errs only where memory
/// runs out.
pub fn passed(
    alloc: Global,
    last: &mut LastAsPath,
    net: &Network,
    session: &Session,
    path: &BgpPath,
) -> Result<Option<BgpPath>, AllocError>
    ensures { IfOk result (λ made. made ≡ spec.passed net.now session.now path.now) }
{
    let sent = export_with_last(alloc, last, net, session, path)?;
    match sent {
        None => Ok(None),
        Some(path) => taken(alloc, net, session, path),
    }
}

/// The statement of a router about the neighbour at an address.
fn statement(net: &Network, router: RouterId, addr: Addr) -> Option<&Neighbor>
    ensures { option_copied result ≡ spec.statement net.now router addr }
{
    let Some(file) = net.router_at(router) else {
        return None;
    };
    let Some(process) = &file.bgp else {
        return None;
    };
    process.neighbors.get(addr.bits())
}

/// Whether a statement names no prefix list and no route map for what goes to the neighbour.
fn tells_plainly(neighbor: &Neighbor) -> bool
    ensures { IsTrue result → (neighbor.now.settings.list_out ≡ None) × (neighbor.now.settings.map_out ≡ None) }
{
    neighbor.settings.list_out.is_none() && neighbor.settings.map_out.is_none()
}

/// Whether a statement names no prefix list and no route map for what comes from the neighbour.
fn hears_plainly(neighbor: &Neighbor) -> bool
    ensures { IsTrue result → (neighbor.now.settings.list_in ≡ None) × (neighbor.now.settings.map_in ≡ None) }
{
    neighbor.settings.list_in.is_none() && neighbor.settings.map_in.is_none()
}

/// Whether a session asks no prefix, as can be told from the statements of both ends about each other: they name no prefix list and no
/// route map.
#[tactic(auto, using(crate::proofs::PassedLaws::asks_none))]
pub fn asks_no_prefix(net: &Network, session: &Session) -> bool
    ensures { IsTrue result → AsksNoPrefix net.now session.now }
{
    let Some(told) = statement(net, session.sender, session.receiver_address) else {
        return false;
    };
    let Some(heard) = statement(net, session.receiver, session.sender_address) else {
        return false;
    };
    tells_plainly(told) && hears_plainly(heard)
}
