//! The moves out of one interface, one after another.
ghost use Rattle.std.specs.Prelude.{◌≡◌, ◌∷◌, []};
ghost use Rattle.std.specs.Iterator.{YieldsFirst};
ghost use Rattle.rc_topology.specs.Links.{takers};
ghost use Rattle.rc_moves.specs.Left.{interfaces_left, moves_begun, AreBegun};
ghost use Rattle.rc_moves.specs.Moves as spec;

use crate::Move;
use rc_base::{Addr, Header, IfId, Kind, Pos};
use rc_topology::{Linked, Links, Takers};

/// The interfaces that moves are still to lead onto.
#[derive(Drop)]
pub(crate) enum Onto<'a> {
    Nobody,
    /// The takers of an address.
    Takers(Takers<'a>),
    /// All that share a link with an interface.
    Linked(Linked<'a>),
}

impl<'a> Onto<'a> {
    fn next_interface(&mut self) -> Option<IfId>
        ensures { YieldsFirst interfaces_left self.old result self.new }
    {
        match self {
            Onto::Nobody => None,
            Onto::Takers(takers) => takers.next(),
            Onto::Linked(linked) => linked.next(),
        }
    }
}

/// Moves that are begun: one in hand, and behind it those onto interfaces. It takes no memory.
#[derive(Drop)]
pub(crate) struct Begun<'a> {
    pub single: Option<Move>,
    pub onto: Onto<'a>,
}

fn entering(interface: IfId) -> Move
    ensures { result ≡ Move.Next (Pos.Entering interface) }
{
    Move::Next(Pos::Entering(interface))
}

impl<'a> Begun<'a> {
    /// No moves.
    pub fn nothing() -> Begun<'a>
        ensures { moves_begun result ≡ [] }
    {
        Begun {
            single: None,
            onto: Onto::Nobody,
        }
    }

    /// An ending alone.
    pub fn ending(kind: Kind) -> Begun<'a>
        ensures { moves_begun result ≡ Move.End kind ∷ [] }
    {
        Begun {
            single: Some(Move::End(kind)),
            onto: Onto::Nobody,
        }
    }

    /// Takes the next move.
    pub fn next_move(&mut self) -> Option<Move>
        ensures { YieldsFirst moves_begun self.old result self.new }
    {
        let single = self.single.take();
        match single {
            Some(found) => Some(found),
            None => {
                let interface = self.onto.next_interface();
                match interface {
                    Some(interface) => Some(entering(interface)),
                    None => None,
                }
            }
        }
    }
}

/// The moves onto the takers of an address, where there are any.
fn onto_takers<'a>(mut takers: Takers<'a>) -> Option<Begun<'a>>
    ensures { AreBegun takers.entry result }
{
    let first = takers.next();
    match first {
        Some(taker) => Some(Begun {
            single: Some(entering(taker)),
            onto: Onto::Takers(takers),
        }),
        None => None,
    }
}

/// The moves onto all that share a link, where there are any.
fn onto_linked<'a>(mut linked: Linked<'a>) -> Option<Begun<'a>>
    ensures { AreBegun linked.entry result }
{
    let first = linked.next();
    match first {
        Some(interface) => Some(Begun {
            single: Some(entering(interface)),
            onto: Onto::Linked(linked),
        }),
        None => None,
    }
}

/// The moves out of an interface where nobody there takes the destination and the hop has no gateway.
fn on_link<'a>(links: &'a Links, header: &Header, interface: &IfId) -> Begun<'a>
    ensures { moves_begun result ≡ spec.moves_on_link links.now header.now interface.now }
{
    if links.holds(*interface, header.dst) {
        return Begun::ending(Kind::Delivered);
    }
    if !links.is_serial(*interface) {
        return Begun::ending(Kind::Exits);
    }
    let begun = onto_linked(links.linked(*interface));
    match begun {
        Some(begun) => begun,
        None => Begun::ending(Kind::Exits),
    }
}

/// The moves out of an interface to a gateway.
fn to_gateway<'a>(links: &'a Links, interface: &IfId, gateway: Addr) -> Begun<'a>
    ensures { moves_begun result ≡ spec.moves_onto_or (takers links.now interface.now gateway) (Move.End Kind.Exits ∷ []) }
{
    let begun = onto_takers(links.takers(*interface, gateway));
    match begun {
        Some(begun) => begun,
        None => Begun::ending(Kind::Exits),
    }
}

/// The moves out of an interface straight to the destination.
fn to_destination<'a>(links: &'a Links, header: &Header, interface: &IfId) -> Begun<'a>
    ensures { moves_begun result ≡ spec.moves_onto_or (takers links.now interface.now header.now.dst) (spec.moves_on_link links.now header.now interface.now) }
{
    let begun = onto_takers(links.takers(*interface, header.dst));
    match begun {
        Some(begun) => begun,
        None => on_link(links, header, interface),
    }
}

/// The moves out of an interface, to a gateway or straight to the destination.
pub(crate) fn out_of<'a>(
    links: &'a Links,
    header: &Header,
    interface: &IfId,
    gateway: Option<Addr>,
) -> Begun<'a>
    ensures { moves_begun result ≡ spec.moves_out_of links.now header.now interface.now gateway }
{
    if links.is_loopback(*interface) {
        return Begun::ending(Kind::Unreachable);
    }
    match gateway {
        Some(gateway) => to_gateway(links, interface, gateway),
        None => to_destination(links, header, interface),
    }
}
