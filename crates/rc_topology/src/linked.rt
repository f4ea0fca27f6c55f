//! The interfaces that share a link with one.
ghost use Rattle.std.specs.Prelude.{◌≡◌, filter, not};
ghost use Rattle.std.specs.Iterator.{YieldsFirst, item_count};
ghost use Rattle.rc_topology.specs.Links.{is_cut};

use crate::Links;
use crate::sharing::Sharing;
use rc_base::IfId;
use std::marker::Model;

/// The interfaces sharing a link that an iterator has left, seen as their list.
#[derive(Drop)]
pub struct Linked<'a> {
    links: &'a Links,
    interface: IfId,
    /// Those left that share a subnet, whether the network is cut there or not.
    left: Sharing<'a>,
}

impl<'a> Model for Linked<'a> {
    ghost use Rattle.std.specs.Prelude.{List, filter, not};
    ghost use Rattle.rc_base.specs.declared.position.IfId.{IfId};
    ghost use Rattle.rc_topology.specs.Links.{is_cut};

    ghost Value = { List IfId };

    ghost view = { λ t. filter (λ j. not (is_cut t.links.now t.interface j)) t.left };
}

impl<'a> Linked<'a> {
    /// Those of some interfaces between which and one the network isn't cut.
    pub(crate) fn new(links: &'a Links, interface: IfId, left: Sharing<'a>) -> Linked<'a>
        ensures { result ≡ filter (λ j. not (is_cut links.now interface j)) left.entry }
    {
        Linked {
            links,
            interface,
            left,
        }
    }
}

impl<'a> Iterator for Linked<'a> {
    type Item = IfId;

    ghost next_gives = { YieldsFirst (λ left. left) };

    ghost remaining = { item_count (λ left. left) };

    fn next(&mut self) -> Option<IfId> {
        while let Some(first) = self.left.next() {
            if !self.links.is_cut(&self.interface, &first) {
                return Some(first);
            }
        }
        None
    }
}
