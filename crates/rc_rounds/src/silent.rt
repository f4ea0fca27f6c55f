//! Networks in which nobody asks for links.
ghost use Rattle.std.specs.Prelude.{◌≡◌, IfOk, IfSome, IsTrue, None};
ghost use Rattle.rc_config.specs.Members.{router_at};
ghost use Rattle.rc_rounds.specs.Silent.{AreAsked, AreSilent, IsSilent};

use rc_base::RouterId;
use rc_config::{Named, Network, RouterText};
use rc_topology::Links;
use std::alloc::{AllocError, Global};

/// Whether a router of this file runs neither OSPF nor BGP.
fn is_silent_file(file: &RouterText) -> bool
    ensures { IsTrue result → IsSilent file.now }
{
    file.ospf.is_none() && file.bgp.is_none()
}

/// Whether a router runs neither OSPF nor BGP, or isn't there.
fn is_silent(net: &Network, router: RouterId) -> bool
    ensures { IsTrue result → IfSome (router_at net.now router) IsSilent }
{
    let found = net.router_at(router);
    match found {
        Some(file) => is_silent_file(file),
        None => true,
    }
}

/// Whether no router runs OSPF or BGP.
fn are_silent(net: &Network) -> bool
    ensures { IsTrue result → AreSilent net.now }
{
    for index in 0..net.routers.len() {
        if !is_silent(net, RouterId::at(index)) {
            return false;
        }
    }
    true
}

/// The links of a network; where no router runs OSPF or BGP, so that nobody asks for them, none are told.
pub(crate) fn links_asked(alloc: Global, net: &Network) -> Result<Links, AllocError>
    ensures { IfOk result (λ links. AreAsked net.now links) }
{
    if are_silent(net) {
        let nobody = Network::of(alloc, Named::new(alloc))?;
        return Links::of(alloc, &nobody);
    }
    Links::of(alloc, net)
}
