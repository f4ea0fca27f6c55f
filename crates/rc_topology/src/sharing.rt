//! The interfaces that share a prefix with one.
ghost use Rattle.std.specs.Prelude.{◌≡◌, None};
ghost use Rattle.std.specs.List.{find, fold};
ghost use Rattle.std.specs.Iterator.{YieldsFirst, item_count};
ghost use Rattle.rc_topology.specs.Links.{all_ids};
ghost use Rattle.rc_topology.specs.Left.{is_next, is_left, left_of, with_prefix};
ghost use Rattle.rc_topology.specs.Order.{AreInPositionOrder};

use crate::Links;
use crate::order::{earlier, first_behind, first_past_router};
use rc_base::{IfId, Prefix, RouterId};
use std::marker::Model;

/// The interfaces sharing a prefix that an iterator has left, seen as their list.
#[derive(Drop)]
pub(crate) struct Sharing<'a> {
    links: &'a Links,
    router: RouterId,
    prefixes: &'a [Prefix],
    /// The one that was given last.
    last: Option<IfId>,
}

impl<'a> Model for Sharing<'a> {
    ghost use Rattle.std.specs.Prelude.{List};
    ghost use Rattle.rc_base.specs.declared.position.IfId.{IfId};
    ghost use Rattle.rc_topology.specs.Left.{left_of};

    ghost Value = { List IfId };

    ghost view = { λ t. left_of t.links.now t.router t.prefixes.now t.last };
}

/// The first of some interfaces that stands behind the last one given and is of another router.
fn next_of(interfaces: &[IfId], router: RouterId, last: &Option<IfId>) -> Option<IfId>
    requires { AreInPositionOrder interfaces.now }
    ensures { result ≡ find (is_next router last.now) interfaces.now }
{
    let first = first_behind(interfaces, last);
    match first {
        None => None,
        Some(first) => {
            if router == first.router {
                return first_past_router(interfaces, router);
            }
            Some(first)
        }
    }
}

/// The first of the interfaces that are left on some prefixes, each prefix looked at by itself.
fn first_on(
    links: &Links,
    router: RouterId,
    prefixes: &[Prefix],
    last: &Option<IfId>,
) -> Option<IfId>
    ensures { result ≡ fold (with_prefix links.now router last.now) None prefixes.now }
{
    let mut first = None;
    for prefix in prefixes {
        let next = next_of(links.on_prefix(prefix), router, last);
        first = earlier(first, next);
    }
    first
}

/// The first of the interfaces that are left.
#[tactic(auto, using(crate::proofs::LeftLaws::first_of_prefixes))]
fn first_left(
    links: &Links,
    router: RouterId,
    prefixes: &[Prefix],
    last: &Option<IfId>,
) -> Option<IfId>
    ensures { result ≡ find (is_left links.now router prefixes.now last.now) (all_ids links.now) }
{
    first_on(links, router, prefixes, last)
}

impl<'a> Sharing<'a> {
    /// The interfaces of other routers that are on some prefixes.
    pub(crate) fn new(links: &'a Links, router: RouterId, prefixes: &'a [Prefix]) -> Sharing<'a>
        ensures { result ≡ left_of links.now router prefixes.now None }
    {
        Sharing {
            links,
            router,
            prefixes,
            last: None,
        }
    }
}

impl<'a> Iterator for Sharing<'a> {
    type Item = IfId;

    ghost next_gives = { YieldsFirst (λ left. left) };

    ghost remaining = { item_count (λ left. left) };

    fn next(&mut self) -> Option<IfId> {
        let first = first_left(self.links, self.router, self.prefixes, &self.last);
        match first {
            Some(found) => {
                self.last = Some(IfId {
                    router: found.router,
                    index: found.index,
                });
                Some(found)
            }
            None => None,
        }
    }
}
