//! Tables prepared for look-ups.
ghost use Rattle.std.specs.Prelude.{◌≡◌, [], IfOk, length, map, true};
ghost use Rattle.rc_route.specs.Tables.{IsTable};
ghost use Rattle.rc_fib.specs.Entry.{Entry};
ghost use Rattle.rc_fib.specs.Entries.{IsFib};
ghost use Rattle.rc_fib.specs.Forwarding as spec;
ghost use Rattle.rc_fib.specs.Stretches.{AreStretches, Cover, Rise, hops_at, spread};

use crate::growing::Growing;
use crate::layers::resolve_table;
use crate::resolve::some_interface;
use crate::stretch::Stretch;
use rc_base::{Addr, Items, Prefix};
use rc_route::{Hop, Parts, Route};
use rc_trie::{longest_at, longest_in};
use std::alloc::{AllocError, Global};
use std::marker::Model;

/// A route table with its hops resolved (RFC 1812 s.5.2.4.3), seen as the list of its entries: one for each route, in the
/// table's order.
///
/// Routes side by side mostly have the same hops. So their prefixes stand in one list, and the hops of such a stretch once.
pub struct Fib {
    prefixes: Items<Prefix>,
    stretches: Items<Stretch>,
}

/// By a function of its own, so that what holds tables drops each by one call.
impl Drop for Fib {
    fn drop(self) {
        let Fib {
            prefixes: _,
            stretches: _,
        } = self;
    }
}

impl Model for Fib {
    ghost use Rattle.std.specs.Prelude.{List};
    ghost use Rattle.rc_fib.specs.Entry.{Entry};
    ghost use Rattle.rc_fib.specs.Entries.{IsFib};
    ghost use Rattle.rc_fib.specs.Stretches.{Cover, spread};

    ghost Value = { List Entry };

    ghost view = { λ f. spread 0 f.prefixes f.stretches };

    ghost invariant = { λ f. Cover 0 f.prefixes f.stretches × IsFib (spread 0 f.prefixes f.stretches) };
}

/// The hops of the stretch in which a place stands.
fn hops_of_place(stretches: &[Stretch], place: usize) -> &[Hop]
    requires { Rise 0 stretches.now }
    ensures { result.now ≡ hops_at stretches.now place }
{
    let before = stretches.partition_point(|stretch| stretch.end <= place);
    match stretches.get(before) {
        Some(stretch) => stretch.hops.as_slice(),
        None => &[],
    }
}

/// Whether these are the same prefixes.
#[tactic(auto, using(crate::proofs::HopLaws::prefixes_decide))]
fn same_prefixes(some: &[Prefix], others: &[Prefix]) -> bool
    ensures { result ≡ true → some.now ≡ others.now }
{
    some == others
}

/// Whether these are the same stretches.
#[tactic(auto, using(crate::proofs::HopLaws::stretches_decide))]
fn same_stretches(some: &[Stretch], others: &[Stretch]) -> bool
    ensures { result ≡ true → some.now ≡ others.now }
{
    some == others
}

impl Fib {
    /// The table without routes. It takes no memory.
    pub(crate) fn none(alloc: Global) -> Fib
        ensures { result ≡ [] }
    {
        Fib {
            prefixes: Items::new(alloc),
            stretches: Items::new(alloc),
        }
    }

    /// The table that was made of routes, and whether each of their hops says where a packet goes, with no look-up.
    pub(crate) fn grown(made: Growing) -> (Fib, bool)
        requires covers { Cover 0 made.prefixes made.stretches }
        requires in_order { IsFib (spread 0 made.prefixes made.stretches) }
        ensures fib { result.0 ≡ spread 0 made.prefixes made.stretches }
        ensures plain { result.1 ≡ made.is_plain }
    {
        let (prefixes, stretches, is_plain) = made.into_parts();
        let fib = Fib {
            prefixes,
            stretches,
        };
        (fib, is_plain)
    }

    /// Prepares a table (RFC 1812 s.5.2.4.3). It errs only where memory runs out.
    pub fn of(alloc: Global, table: &Parts<Route>) -> Result<Fib, AllocError>
        requires { IsTable table.now }
        ensures value { IfOk result (λ f. f ≡ spec.resolved table.now) }
        ensures in_order { IfOk result IsFib }
    {
        resolve_table(alloc, table)
    }

    /// How many routes it has.
    pub fn len(&self) -> usize
        ensures { result ≡ length self.now }
    {
        self.prefixes.len()
    }

    /// Their prefixes, by address, then length.
    pub fn prefixes(&self) -> &[Prefix]
        ensures value { result.now ≡ map (λ (e : Entry). e.prefix) self.now }
        ensures in_order { IsFib self.now }
    {
        self.prefixes.as_slice()
    }

    /// Its stretches, in order: routes side by side that have the same hops.
    pub fn stretches(&self) -> &[Stretch]
        ensures { AreStretches 0 result.now self.now }
    {
        self.stretches.as_slice()
    }

    /// Whether two tables are told at once to be the same.
    pub(crate) fn is_same(&self, other: &Fib) -> bool
        ensures { result ≡ true → self.now ≡ other.now }
    {
        same_prefixes(self.prefixes.as_slice(), other.prefixes.as_slice())
            && same_stretches(self.stretches.as_slice(), other.stretches.as_slice())
    }

    /// The hops of an address: those of the longest prefix that holds it, none where no prefix does (RFC 1812 s.5.2.4.3).
    pub fn hops(&self, addr: Addr) -> &[Hop]
        ensures { result.now ≡ spec.resolved_hops self.now addr }
    {
        let place = longest_at(self.prefixes.as_slice(), addr);
        match place {
            Some(place) => hops_of_place(self.stretches.as_slice(), place),
            None => &[],
        }
    }

    /// The longest prefix that holds an address (RFC 1812 s.5.2.4.3), or `None` exactly where no prefix does.
    pub fn longest(&self, addr: Addr) -> Option<Prefix>
        ensures { result ≡ spec.resolved_prefix self.now addr }
    {
        let found = longest_in(self.prefixes.as_slice(), addr);
        match found {
            Some(prefix) => Some(*prefix),
            None => None,
        }
    }

    /// Whether an address resolves: some hop of it names an interface.
    pub fn resolves(&self, addr: Addr) -> bool
        ensures { result ≡ spec.resolves self.now addr }
    {
        some_interface(self.hops(addr))
    }
}
