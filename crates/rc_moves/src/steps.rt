//! The moves at a position.
ghost use Rattle.std.specs.Prelude.{◌≡◌, ◌∷◌, []};
ghost use Rattle.std.specs.Iterator.{YieldsFirst, item_count};
ghost use Rattle.rc_moves.specs.Moves as spec;

use crate::begun::Begun;
use crate::sending::Sending;
use crate::{Move, Plane};
use rc_base::{Header, Kind, Pos};
use rc_route::Hop;
use std::marker::Model;

/// The moves of a packet at a position, seen as the list of those that are left. It takes no memory, and each move is
/// looked for only when it is asked for.
#[derive(Drop)]
pub struct Steps<'a> {
    sending: Sending<'a>,
    begun: Begun<'a>,
    hops: &'a [Hop],
}

impl<'a> Model for Steps<'a> {
    ghost use Rattle.std.specs.Prelude.{List, ◌++◌, flat_map};
    ghost use Rattle.rc_moves.specs.declared.walk.Move.{Move};

    ghost Value = { List Move };

    ghost use Rattle.rc_moves.specs.Left.{moves_begun};
    ghost use Rattle.rc_moves.specs.Moves as spec;

    ghost view = { λ s. moves_begun s.begun ++ flat_map (spec.moves_by s.sending.plane.now s.sending.header s.sending.position) s.hops.now };
}

impl<'a> Iterator for Steps<'a> {
    type Item = Move;

    ghost next_gives = { YieldsFirst (λ left. left) };

    ghost remaining = { item_count (λ left. left) };

    fn next(&mut self) -> Option<Move> {
        loop {
            if let Some(found) = self.begun.next_move() {
                return Some(found);
            }
            let [hop, rest @ ..] = self.hops else {
                return None;
            };
            self.hops = rest;
            self.begun = self.sending.moves_by(hop);
        }
    }
}

/// The moves of a packet at a position, in order (RFC 1812 s.5.2).
///
/// An inbound list that denies the packet ends all at the interface by which it would enter. A router takes what is
/// addressed to it. All else goes by the hops of the longest prefix that holds the destination: nowhere, to the gateway or
/// to the destination itself where a router on the link has that address, out of the network, to a host of the subnet, or
/// over a serial line to whoever is there; where the router forwards it, only by an interface whose outbound list lets it.
pub fn step<'a>(plane: &'a Plane<'a>, position: Pos, header: &Header) -> Steps<'a>
    ensures { result ≡ spec.moves plane.now header.now position }
{
    let sending = Sending {
        plane,
        header: *header,
        position,
    };
    if !sending.is_let_in() {
        return ending(plane, &position, header, Kind::DeniedIn);
    }
    let router = sending.router();
    if plane.links().is_own(router, header.dst) {
        return ending(plane, &position, header, Kind::Accepted);
    }
    let hops = plane.hops(router, header.dst);
    if hops.is_empty() {
        return ending(plane, &position, header, Kind::NoRoute);
    }
    Steps {
        sending,
        begun: Begun::nothing(),
        hops,
    }
}

/// An ending alone.
fn ending<'a>(plane: &'a Plane<'a>, position: &Pos, header: &Header, kind: Kind) -> Steps<'a>
    ensures { result ≡ Move.End kind ∷ [] }
{
    Steps {
        sending: Sending {
            plane,
            header: *header,
            position: *position,
        },
        begun: Begun::ending(kind),
        hops: &[],
    }
}
