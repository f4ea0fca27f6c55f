//! Networks.
ghost use Rattle.std.specs.Prelude.{◌≡◌, ◌++◌, [], ◌∷◌, IfOk};
ghost use Rattle.std.specs.Option.{option_copied, option_map};

use crate::{Interface, Named, RouterText, Routers};
use rc_base::{IfId, Items, Name, RouterId};
use std::alloc::{AllocError, Global};

/// Two interfaces.
#[derive(Clone, Copy)]
pub struct Pair {
    pub first: IfId,
    pub second: IfId,
}

/// A network: the models of its files under their host names, in byte order of these, and the pairs of interfaces between which it is
/// cut. The interfaces of such a pair stay up, and share no link.
pub struct Network {
    pub routers: Routers,
    pub cuts: Items<Pair>,
}

/// By a function of its own, so that what holds a network drops it by one call.
impl Drop for Network {
    fn drop(self) {
        let Network {
            routers: _,
            cuts: _,
        } = self;
    }
}

/// Pairs, and one more.
fn with_pair(alloc: Global, pairs: &[Pair], pair: Pair) -> Result<Items<Pair>, AllocError>
    ensures { IfOk result (λ all. all ≡ pairs.now ++ pair ∷ []) }
{
    let mut all = Items::from_vec(Vec::from_slice(alloc, pairs)?);
    all.push(pair)?;
    Ok(all)
}

impl Network {
    ghost use Rattle.rc_config.specs.Members.{router_named, interface_named, router_at, interface_at};
    ghost use Rattle.rc_config.specs.Cuts.{uncut, with_cut};

    /// The network of some routers, which is cut nowhere. It errs only where memory runs out.
    pub fn of(alloc: Global, routers: Named<RouterText>) -> Result<Network, AllocError>
        ensures { IfOk result (λ net. net ≡ uncut routers) }
    {
        let routers = Routers::of(alloc, routers)?;
        Ok(Network {
            routers,
            cuts: Items::new(alloc),
        })
    }

    /// The same network, cut between two interfaces more. Both networks hold the same routers, of which none is copied. It errs only where
    /// memory runs out.
    pub fn with_cut(&self, alloc: Global, first: IfId, second: IfId) -> Result<Network, AllocError>
        ensures { IfOk result (λ net. net ≡ with_cut self.now first second) }
    {
        let cuts = with_pair(alloc, self.cuts.as_slice(), Pair { first, second })?;
        let routers = self.routers.shared()?;
        Ok(Network { routers, cuts })
    }

    /// The router of a host name, or `None` exactly where the network has none.
    pub fn router(&self, name: &Name) -> Option<RouterId>
        ensures { result ≡ router_named self.now name.now }
    {
        let index = self.routers.index_of(name)?;
        Some(RouterId::at(index))
    }

    /// The model of a router, or `None` exactly where the network has none of this id.
    pub fn router_at(&self, router: RouterId) -> Option<&RouterText>
        ensures { option_copied result ≡ router_at self.now router }
    {
        let (_, found) = self.routers.at(router.index())?;
        Some(found)
    }

    /// The interface of a name, or `None` exactly where the router declares none.
    pub fn interface(&self, router: RouterId, name: &Name) -> Option<IfId>
        ensures { result ≡ interface_named self.now router name.now }
    {
        let found = self.router_at(router)?;
        let index = found.interfaces.index_of(name)?;
        Some(IfId { router, index })
    }

    /// The name of an interface and what its block says, or `None` exactly where the network has none of this id.
    pub fn interface_at(&self, interface: IfId) -> Option<(&Name, &Interface)>
        ensures { option_map (λ e. (e.0.now, e.1.now)) result ≡ interface_at self.now interface }
    {
        let found = self.router_at(interface.router)?;
        found.interfaces.at(interface.index)
    }
}
