//! What interfaces offer.
ghost use Rattle.std.specs.Prelude.{◌≡◌, ◌<◌, ◌^◌};

use rc_base::{Prefix, RouterId};
use std::marker::Model;

/// A router offers a destination inside an area, at a cost below 2^26.
#[derive(Clone, Copy)]
pub struct Offer {
    router: RouterId,
    area: u32,
    cost: u32,
}

impl Model for Offer {
    ghost use Rattle.rc_ospf.specs.Offered.{Offered, IsSmall};

    ghost Value = { Offered };

    ghost view = { λ o. record { router = o.router; area = o.area; cost = o.cost } };

    ghost invariant = { λ o. IsSmall (record { router = o.router; area = o.area; cost = o.cost }) };

    ghost inverse = { λ o. record { router = o.router; area = o.area; cost = o.cost } };
}

impl Offer {
    pub(crate) fn new(router: RouterId, area: u32, cost: u32) -> Offer
        requires { cost < 2 ^ 26 }
        ensures { result ≡ record { router = router; area = area; cost = cost } }
    {
        Offer { router, area, cost }
    }

    /// The router that offers it.
    pub fn router(&self) -> RouterId
        ensures { result ≡ self.now.router }
    {
        self.router
    }

    /// The area in which it does.
    pub fn area(&self) -> u32
        ensures { result ≡ self.now.area }
    {
        self.area
    }

    /// The cost at which it does, below 2^26.
    pub fn cost(&self) -> u32
        ensures value { result ≡ self.now.cost }
        ensures small { result < 2 ^ 26 }
    {
        self.cost
    }
}

/// A prefix that is offered.
#[derive(Clone, Copy)]
pub struct Advert {
    pub prefix: Prefix,
    pub offer: Offer,
}
