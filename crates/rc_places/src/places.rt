//! The list of positions, and where those of each router begin.
ghost use Rattle.std.specs.Prelude.{◌≡◌, ◌∷◌, ◌++◌, ◌<◌, IfOk, OnOk, length, map};
ghost use Rattle.rc_config.specs.Lawful.{IsPosition, IsRouter};
ghost use Rattle.rc_config.specs.Members.{interfaces_of, positions, router_ids};
ghost use Rattle.rc_places.specs.Places.{number_of, position_at, positions_of, start_of};

use rc_base::{IfId, Pos, RouterId};
use rc_config::Network;
use std::alloc::{AllocError, Global};
use std::marker::Model;

/// The positions of a network in their order: by router, its own position first, then its interfaces as declared. Contracts see it as the
/// network.
pub struct Places<'a> {
    network: &'a Network,
    all: Vec<Pos>,
    starts: Vec<usize>,
}

/// By a function of its own, so that what holds the positions drops them by one call.
impl<'a> Drop for Places<'a> {
    fn drop(self) {
        let Places {
            network: _,
            all: _,
            starts: _,
        } = self;
    }
}

impl<'a> Model for Places<'a> {
    ghost use Rattle.std.specs.Prelude.{◌≡◌, map};
    ghost use Rattle.rc_config.specs.Members.{positions, router_ids};
    ghost use Rattle.rc_config.specs.declared.network.Network.{Network as NetworkModel};
    ghost use Rattle.rc_places.specs.Places.{start_of};

    ghost Value = { NetworkModel };

    ghost view = { λ p. p.network.now };

    ghost invariant = { λ p. (p.all.items ≡ positions p.network.now) × (p.starts.items ≡ map (start_of p.network.now) (router_ids p.network.now)) };
}

/// How many interfaces a router declares.
fn interface_count(net: &Network, router: RouterId) -> usize
    ensures { result ≡ length (interfaces_of net.now router) }
{
    let found = net.router_at(router);
    match found {
        Some(text) => text.interfaces.len(),
        None => 0,
    }
}

/// Puts the positions of a router behind others.
fn put_router(all: &mut Vec<Pos>, net: &Network, router: RouterId) -> Result<(), AllocError>
    ensures { OnOk result (all.new.items ≡ all.old.items ++ positions_of net.now router) }
{
    all.push(Pos::Own(router))?;
    for index in 0..interface_count(net, router) {
        all.push(Pos::Entering(IfId { router, index }))?;
    }
    Ok(())
}

impl<'a> Places<'a> {
    /// The positions of a network. It errs only where memory runs out.
    pub fn of(alloc: Global, net: &'a Network) -> Result<Places<'a>, AllocError>
        ensures { IfOk result (λ places. places ≡ net.now) }
    {
        let mut all = Vec::new(alloc);
        let mut starts = Vec::new(alloc);
        for router in 0..net.routers.len() {
            starts.push(all.len())?;
            put_router(&mut all, net, RouterId::at(router))?;
        }
        Ok(Places {
            network: net,
            all,
            starts,
        })
    }

    /// All of them, in their order.
    pub fn as_slice(&self) -> &[Pos]
        ensures { result.now ≡ positions self.now }
    {
        self.all.as_slice()
    }

    /// How many there are.
    pub fn len(&self) -> usize
        ensures { result ≡ length (positions self.now) }
    {
        self.all.len()
    }

    /// The position at a place, which is below their count.
    pub fn at(&self, number: usize) -> Pos
        requires { number < length (positions self.now) }
        ensures { result ≡ position_at self.now number }
    {
        self.all[number]
    }

    /// The place of a router's first position.
    fn start(&self, router: RouterId) -> usize
        requires { IsRouter self.now router }
        ensures { result ≡ start_of self.now router }
    {
        self.starts[router.index()]
    }

    /// The place of a position.
    pub fn number(&self, position: &Pos) -> usize
        requires { IsPosition self.now position.now }
        ensures { result ≡ number_of self.now position.now }
    {
        // A place is below the count of positions, so it is a number of this type.
        let _count = self.len();
        match position {
            Pos::Own(router) => self.start(*router),
            Pos::Entering(interface) => self.start(interface.router) + (interface.index + 1),
        }
    }
}
