//! Which interfaces share a link, and whose an address is.
ghost use Rattle.std.specs.Prelude.{◌≡◌, filter, length, IfOk, None, Some};
ghost use Rattle.std.specs.List.{list_any};
ghost use Rattle.std.specs.Option.{option_copied};
ghost use Rattle.rc_topology.specs.Ports as port;
ghost use Rattle.rc_topology.specs.Links as spec;
ghost use Rattle.rc_topology.specs.Order.{AreInPositionOrder};

use crate::filling::{Indexes, host, indexes_of};
use crate::order::some_of_router;
use crate::pairs::pairs_of;
use crate::ports::all_ports;
use crate::sharing::Sharing;
use crate::{Linked, Port, Takers};
use rc_base::{Addr, IfId, Items, Prefix, RouterId};
use rc_config::{IfType, Network, Pair};
use std::alloc::{AllocError, Global};
use std::marker::Model;

/// The links of a network, seen as the interfaces of each router and the pairs between which the network is cut, from which links are
/// told.
///
/// Beside these it keeps the interfaces of each prefix and the owners of each address, so that no call looks at every pair.
pub struct Links {
    ports: Items<Items<Port>>,
    cuts: Items<Pair>,
    indexes: Indexes,
}

/// By a function of its own, so that what holds links drops them by one call.
impl Drop for Links {
    fn drop(self) {
        let Links {
            ports: _,
            cuts: _,
            indexes: _,
        } = self;
    }
}

impl Model for Links {
    ghost use Rattle.rc_topology.specs.Topology.{Topology};

    ghost Value = { Topology };

    ghost use Rattle.rc_topology.specs.Filling.{IsIndexed};

    ghost view = { λ l. record { ports = l.ports; cuts = l.cuts } };

    ghost invariant = { λ l. IsIndexed (record { ports = l.ports; cuts = l.cuts }) l.indexes };
}

/// Whether a pair is of these two interfaces.
fn is_between(one: &IfId, other: &IfId, pair: &Pair) -> bool
    ensures { result ≡ spec.is_between one.now other.now pair.now }
{
    (*one == pair.first && *other == pair.second) || (*one == pair.second && *other == pair.first)
}

/// Whether a pair is of an interface and another one.
fn is_of(interface: &IfId, pair: &Pair) -> bool
    ensures { result ≡ spec.is_named interface.now pair.now }
{
    *interface == pair.first || *interface == pair.second
}

/// The same pairs.
fn copied(alloc: Global, pairs: &[Pair]) -> Result<Items<Pair>, AllocError>
    ensures { IfOk result (λ all. all ≡ pairs.now) }
{
    let items = Vec::from_slice(alloc, pairs)?;
    Ok(Items::from_vec(items))
}

impl Links {
    /// The links of a network. It errs only where memory runs out.
    #[tactic(auto, unfolding(crate::specs::Ports::all_ports, crate::specs::Ports::links_of))]
    pub fn of(alloc: Global, net: &Network) -> Result<Links, AllocError>
        ensures { IfOk result (λ links. links ≡ port.links_of net.now) }
    {
        let ports = all_ports(alloc, net)?;
        let indexes = indexes_of(alloc, ports.as_slice())?;
        let cuts = copied(alloc, net.cuts.as_slice())?;
        Ok(Links {
            ports,
            cuts,
            indexes,
        })
    }

    /// How many routers the network has.
    pub(crate) fn routers(&self) -> usize
        ensures { result ≡ length self.now.ports }
    {
        self.ports.len()
    }

    /// What is kept of the interfaces of a router, as declared; none where the network has no such router.
    pub fn ports(&self, router: RouterId) -> &[Port]
        ensures { result.now ≡ spec.ports_at self.now router }
    {
        let ports = self.ports.as_slice().get(router.index());
        match ports {
            Some(ports) => ports.as_slice(),
            None => &[],
        }
    }

    /// What is kept of an interface, or `None` exactly where the network has none of this index.
    fn port(&self, interface: IfId) -> Option<&Port>
        ensures { option_copied result ≡ spec.port_at self.now interface }
    {
        let ports = self.ports.as_slice().get(interface.router.index())?;
        ports.as_slice().get(interface.index)
    }

    /// The interfaces that have a prefix and aren't loopbacks, in position order.
    pub(crate) fn on_prefix(&self, prefix: &Prefix) -> &[IfId]
        ensures value { result.now ≡ spec.on_prefix self.now prefix.now }
        ensures in_order { AreInPositionOrder result.now }
    {
        self.indexes.by_prefix.members(prefix)
    }

    /// The interfaces that have an address, in position order.
    fn owners(&self, addr: Addr) -> &[IfId]
        ensures value { result.now ≡ spec.owners self.now addr }
        ensures in_order { AreInPositionOrder result.now }
    {
        self.indexes.by_addr.members(&host(addr))
    }

    /// The prefixes by which an interface shares links: none for a loopback, and none where there is no such interface.
    fn link_prefixes(&self, interface: IfId) -> &[Prefix]
        ensures { result.now ≡ spec.link_prefixes_at self.now interface }
    {
        let port = self.port(interface);
        match port {
            Some(port) => port.link_prefixes(),
            None => &[],
        }
    }

    /// Whether two interfaces are of different routers, neither is a loopback, and some address of each has the same prefix.
    fn share_subnet(&self, one: &IfId, other: &IfId) -> bool
        ensures { result ≡ spec.share_subnet self.now one.now other.now }
    {
        if one.router == other.router {
            return false;
        }
        let (Some(this), Some(that)) = (self.port(*one), self.port(*other)) else {
            return false;
        };
        this.shares_prefix(that)
    }

    /// Whether the network is cut between two interfaces.
    pub(crate) fn is_cut(&self, one: &IfId, other: &IfId) -> bool
        ensures { result ≡ spec.is_cut self.now one.now other.now }
    {
        self.cuts
            .as_slice()
            .iter()
            .any(|cut| is_between(one, other, cut))
    }

    /// Whether the network is cut between an interface and some other one.
    pub fn is_cut_off(&self, interface: &IfId) -> bool
        ensures { result ≡ list_any (spec.is_named interface.now) self.now.cuts }
    {
        self.cuts.as_slice().iter().any(|cut| is_of(interface, cut))
    }

    /// Whether two interfaces share a link: they are of different routers, neither is a loopback, some address of each
    /// has the same prefix, and the network isn't cut between them.
    pub fn are_linked(&self, one: IfId, other: IfId) -> bool
        ensures { result ≡ spec.are_linked self.now one other }
    {
        self.share_subnet(&one, &other) && !self.is_cut(&one, &other)
    }

    /// The interfaces that share a subnet with one, in position order.
    #[tactic(auto, using(crate::proofs::LeftLaws::sharing_left))]
    fn sharing(&self, interface: &IfId) -> Sharing<'_>
        ensures { result ≡ filter (spec.share_subnet self.now interface.now) (spec.all_ids self.now) }
    {
        Sharing::new(self, interface.router, self.link_prefixes(*interface))
    }

    /// The interfaces that share a link with one, in position order.
    #[tactic(auto, using(crate::proofs::LeftLaws::linked_left))]
    pub fn linked(&self, interface: IfId) -> Linked<'_>
        ensures { result ≡ spec.linked self.now interface }
    {
        Linked::new(self, interface, self.sharing(&interface))
    }

    /// All pairs of interfaces that share a link, each once: the interface that stands first in position order is the first of its pair,
    /// and pairs are in that order. It errs only where memory runs out.
    pub fn pairs(&self, alloc: Global) -> Result<Items<Pair>, AllocError>
        ensures { IfOk result (λ all. all ≡ spec.pairs self.now) }
    {
        pairs_of(alloc, self)
    }

    /// The takers of an address on a link of an interface: the interfaces that share a link with it and have the address, in
    /// position order.
    #[tactic(auto, using(crate::proofs::LinkLaws::takers_of_owners))]
    pub fn takers(&self, interface: IfId, addr: Addr) -> Takers<'_>
        ensures { result ≡ spec.takers self.now interface addr }
    {
        Takers::new(self, interface, self.owners(addr))
    }

    /// Whether an address is one of a router's own.
    #[tactic(auto, using(crate::proofs::InterfaceLaws::some_owner))]
    pub fn is_own(&self, router: RouterId, addr: Addr) -> bool
        ensures { result ≡ spec.is_own self.now router addr }
    {
        some_of_router(self.owners(addr), router)
    }

    /// Whether an address lies in a prefix of an interface.
    pub fn holds(&self, interface: IfId, addr: Addr) -> bool
        ensures { result ≡ spec.holds self.now interface addr }
    {
        let port = self.port(interface);
        match port {
            Some(port) => port.holds(addr),
            None => false,
        }
    }

    /// Whether an interface is there, has a prefix, and is no loopback.
    pub fn is_on(&self, interface: IfId, prefix: &Prefix) -> bool
        ensures { result ≡ spec.port_is self.now (port.is_on prefix.now) interface }
    {
        let port = self.port(interface);
        match port {
            Some(port) => port.is_on(prefix),
            None => false,
        }
    }

    /// The type of an interface, or `None` exactly where it is there and of no type that may have addresses, or isn't there.
    pub fn kind(&self, interface: IfId) -> Option<IfType>
        ensures { result ≡ spec.kind_of self.now interface }
    {
        let port = self.port(interface);
        match port {
            Some(port) => port.kind,
            None => None,
        }
    }

    /// Whether an interface is there and is a loopback.
    pub fn is_loopback(&self, interface: IfId) -> bool
        ensures { result ≡ spec.port_is self.now port.is_loopback interface }
    {
        let port = self.port(interface);
        match port {
            Some(port) => port.is_loopback(),
            None => false,
        }
    }

    /// Whether an interface is there and is a serial line.
    pub fn is_serial(&self, interface: IfId) -> bool
        ensures { result ≡ spec.port_is self.now port.is_serial interface }
    {
        let port = self.port(interface);
        match port {
            Some(port) => port.is_serial(),
            None => false,
        }
    }
}
