//! What a router does with a packet at a position.
ghost use Rattle.std.specs.Prelude.{◌≡◌};
ghost use Rattle.rc_moves.specs.Left.{moves_begun};
ghost use Rattle.rc_moves.specs.Moves as spec;

use crate::Plane;
use crate::begun::{Begun, out_of};
use rc_base::{Addr, Header, IfId, Kind, Pos, RouterId};
use rc_config::Direction;
use rc_filter::passes_at;
use rc_route::Hop;

/// A packet at a position of a plane.
#[derive(Drop)]
pub(crate) struct Sending<'a> {
    pub plane: &'a Plane<'a>,
    pub header: Header,
    pub position: Pos,
}

impl<'a> Sending<'a> {
    /// The router at the position.
    pub fn router(&self) -> RouterId
        ensures { result ≡ spec.router_of self.now.position }
    {
        match &self.position {
            Pos::Own(router) => *router,
            Pos::Entering(interface) => interface.router,
        }
    }

    /// Whether the inbound list lets the packet in, where it enters by an interface.
    pub fn is_let_in(&self) -> bool
        ensures { result ≡ spec.is_let_in self.now.plane.now.network self.now.header self.now.position }
    {
        match &self.position {
            Pos::Own(_) => true,
            Pos::Entering(interface) => passes_at(
                self.plane.network(),
                *interface,
                Direction::In,
                &self.header,
            ),
        }
    }

    /// Whether the outbound list of an interface lets the packet out, where the router hasn't made it itself.
    fn is_let_out(&self, interface: &IfId) -> bool
        ensures { result ≡ spec.is_let_out self.now.plane.now.network self.now.header self.now.position interface.now }
    {
        match &self.position {
            Pos::Own(_) => true,
            Pos::Entering(_) => passes_at(
                self.plane.network(),
                *interface,
                Direction::Out,
                &self.header,
            ),
        }
    }

    /// Begins the moves over an interface, to a gateway or straight to the destination.
    fn over(&self, interface: &IfId, gateway: Option<Addr>) -> Begun<'a>
        ensures { moves_begun result ≡ spec.moves_over self.now.plane.now self.now.header self.now.position interface.now gateway }
    {
        if !self.is_let_out(interface) {
            return Begun::ending(Kind::DeniedOut);
        }
        out_of(self.plane.links(), &self.header, interface, gateway)
    }

    /// Begins the moves that a hop gives.
    pub fn moves_by(&self, hop: &Hop) -> Begun<'a>
        ensures { moves_begun result ≡ spec.moves_by self.now.plane.now self.now.header self.now.position hop.now }
    {
        match hop {
            Hop::Null => Begun::ending(Kind::NullRouted),
            Hop::Dev(interface) => self.over(interface, None),
            Hop::Via(gateway, through) => match through {
                Some(interface) => self.over(interface, Some(*gateway)),
                None => Begun::nothing(),
            },
        }
    }
}
