//! What forwards packets.
ghost use Rattle.std.specs.Prelude.{◌≡◌, slice_get};
ghost use Rattle.std.specs.Option.{option_copied};
ghost use Rattle.rc_fib.specs.Forwarding.{resolved_hops};
ghost use Rattle.rc_topology.specs.Ports.{links_of};

use crate::tables::Tables;
use rc_base::{Addr, RouterId};
use rc_config::Network;
use rc_fib::Fib;
use rc_route::Hop;
use rc_topology::Links;
use std::marker::Model;

/// A network, its links, and each router's table prepared for look-ups.
pub struct Plane<'a> {
    network: &'a Network,
    links: &'a Links,
    tables: Tables,
}

/// By a function of its own, so that what holds a plane drops it by one call.
impl<'a> Drop for Plane<'a> {
    fn drop(self) {
        let Plane {
            network: _,
            links: _,
            tables: _,
        } = self;
    }
}

impl<'a> Model for Plane<'a> {
    ghost use Rattle.rc_moves.specs.Moves.{DataPlane};

    ghost Value = { DataPlane };

    ghost view = { λ p. record { network = p.network.now; links = p.links.now; fibs = p.tables } };
}

impl<'a> Plane<'a> {
    ghost use Rattle.rc_moves.specs.Moves.{ArePrepared, plane_with, fib_of};

    /// A network with its links and with these tables, which it takes over.
    pub fn of(net: &'a Network, links: &'a Links, tables: Tables) -> Plane<'a>
        requires { links.now ≡ links_of net.now }
        ensures { result ≡ plane_with net.now tables }
    {
        Plane {
            network: net,
            links,
            tables,
        }
    }

    /// The network.
    pub fn network(&self) -> &Network
        ensures { result.now ≡ self.now.network }
    {
        self.network
    }

    /// Its links.
    pub fn links(&self) -> &Links
        ensures { result.now ≡ self.now.links }
    {
        self.links
    }

    /// The prepared tables of all routers: each is in order, and each of their hops says where a packet goes.
    pub fn fibs(&self) -> &[Fib]
        ensures value { result.now ≡ self.now.fibs }
        ensures prepared { ArePrepared self.now.fibs }
    {
        self.tables.fibs()
    }

    /// The prepared table of a router, or `None` exactly where the network has none of this index.
    pub fn fib(&self, router: RouterId) -> Option<&Fib>
        ensures { option_copied result ≡ slice_get self.now.fibs router }
    {
        self.tables.fibs().get(router.index())
    }

    /// The hops of an address by the table of a router.
    pub(crate) fn hops(&self, router: RouterId, addr: Addr) -> &[Hop]
        ensures { result.now ≡ resolved_hops (fib_of self.now router) addr }
    {
        let fib = self.fib(router);
        match fib {
            Some(fib) => fib.hops(addr),
            None => &[],
        }
    }
}
