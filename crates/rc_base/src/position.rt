//! Routers, interfaces and the positions of a walk.
ghost use Rattle.std.specs.Prelude.{◌≡◌};
ghost use Rattle.rc_base.specs.Orders.{interface_cmp};

use std::cmp::Ordering;
use std::marker::Model;

/// A router of a network, seen as its place in the network's list, which stands in byte order of host names.
#[derive(Clone, Copy, PartialEq, Eq, PartialOrd, Ord, Hash)]
pub struct RouterId {
    index: usize,
}

impl Model for RouterId {
    ghost use Rattle.std.specs.Prelude.{ℕ};

    ghost Value = { ℕ };

    ghost view = { λ r. r.index };

    ghost inverse = { λ n. record { index = n } };
}

impl RouterId {
    /// The router at a place, counted from 0.
    pub fn at(index: usize) -> RouterId
        ensures { result ≡ index }
    {
        RouterId { index }
    }

    /// Its place, counted from 0.
    pub fn index(self) -> usize
        ensures { result ≡ self }
    {
        self.index
    }
}

/// An interface of a router: the router, and the interface's place in the order of declaration, counted from 0.
///
/// Interfaces are ordered by router, then place.
#[derive(Clone, Copy, PartialEq, Eq, PartialOrd, Ord, Hash)]
pub struct IfId {
    pub router: RouterId,
    pub index: usize,
}

/// Interfaces by router, then in the order of declaration, which is the derived order too.
pub fn compare_interfaces(a: &IfId, b: &IfId) -> Ordering
    ensures { result ≡ interface_cmp a.now b.now }
{
    a.cmp(b)
}

/// Where a packet is: at a router that sends it by itself, or entering a router by an interface.
#[derive(Clone, Copy, PartialEq, Eq, Hash)]
pub enum Pos {
    Own(RouterId),
    Entering(IfId),
}
