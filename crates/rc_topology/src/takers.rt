//! The takers of an address.
ghost use Rattle.std.specs.Prelude.{◌≡◌, filter};
ghost use Rattle.std.specs.Iterator.{YieldsFirst, item_count};
ghost use Rattle.rc_topology.specs.Links.{are_linked};

use crate::Links;
use rc_base::IfId;
use std::marker::Model;

/// The takers of an address that an iterator has left, seen as their list.
#[derive(Drop)]
pub struct Takers<'a> {
    links: &'a Links,
    interface: IfId,
    /// The owners of the address that weren't looked at.
    left: &'a [IfId],
}

impl<'a> Model for Takers<'a> {
    ghost use Rattle.std.specs.Prelude.{List, filter};
    ghost use Rattle.rc_base.specs.declared.position.IfId.{IfId};
    ghost use Rattle.rc_topology.specs.Links.{are_linked};

    ghost Value = { List IfId };

    ghost view = { λ t. filter (are_linked t.links.now t.interface) t.left.now };
}

impl<'a> Takers<'a> {
    /// Those of some interfaces that share a link with one.
    pub(crate) fn new(links: &'a Links, interface: IfId, owners: &'a [IfId]) -> Takers<'a>
        ensures { result ≡ filter (are_linked links.now interface) owners.now }
    {
        Takers {
            links,
            interface,
            left: owners,
        }
    }
}

impl<'a> Iterator for Takers<'a> {
    type Item = IfId;

    ghost next_gives = { YieldsFirst (λ left. left) };

    ghost remaining = { item_count (λ left. left) };

    fn next(&mut self) -> Option<IfId> {
        while let [first, rest @ ..] = self.left {
            self.left = rest;
            if self.links.are_linked(self.interface, *first) {
                return Some(*first);
            }
        }
        None
    }
}
