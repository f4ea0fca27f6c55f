//! The metrics of the routes to next hops, each looked up once.
ghost use Rattle.std.specs.Prelude.{◌≡◌, IfOk, OnOk, OnErr};
ghost use Rattle.std.specs.Option.{option_map};
ghost use Rattle.rc_config.specs.ByNumber.{placed, with_number};
ghost use Rattle.rc_route.specs.Tables.{IsTable};
ghost use Rattle.rc_bgp.specs.Reaching as spec;
ghost use Rattle.rc_bgp.specs.Ways.{way_addr};

use crate::reaching::metric_to;
use rc_base::Addr;
use rc_config::{ByNumber, Numbered};
use rc_pieces::Listed;
use rc_route::Route;
use std::alloc::{AllocError, Global};
use std::marker::Model;

/// What a table says of an address: the metric of the route to it, where it resolves.
#[derive(Clone, Copy)]
pub struct Way {
    pub addr: Addr,
    pub metric: Option<u32>,
}

impl Numbered for Way {
    ghost number = { λ w. w.addr };

    fn number(&self) -> u32 {
        self.addr.bits()
    }
}

/// A table with what it said of the addresses that were asked for, seen as the table.
///
/// The paths of a round have few different next hops, and a table may have very many routes.
pub struct Resolver<'a> {
    table: Listed<'a, Route>,
    known: ByNumber<Way>,
}

/// By a function of its own, so that what holds one drops it by one call.
impl<'a> Drop for Resolver<'a> {
    fn drop(self) {
        let Resolver { table: _, known: _ } = self;
    }
}

impl<'a> Model for Resolver<'a> {
    ghost use Rattle.std.specs.Prelude.{List};
    ghost use Rattle.rc_route.specs.declared.route.Route.{Route};
    ghost use Rattle.rc_bgp.specs.Ways.{IsAsked};

    ghost Value = { List Route };

    ghost view = { λ r. r.table };

    ghost invariant = { λ r. IsAsked r.table r.known };
}

/// The metric that is known of an address.
fn known_metric(ways: &ByNumber<Way>, addr: Addr) -> Option<Option<u32>>
    ensures { result ≡ option_map (λ w. w.metric) (with_number way_addr addr ways.now) }
{
    let found = ways.get(addr.bits());
    match found {
        Some(way) => Some(way.metric),
        None => None,
    }
}

/// Notes what a table says of an address.
fn note(ways: &mut ByNumber<Way>, addr: Addr, metric: Option<u32>) -> Result<(), AllocError>
    ensures ok { OnOk result (ways.new ≡ placed way_addr (record { addr = addr; metric = metric }) ways.old) }
    ensures err { OnErr result (ways.new ≡ ways.old) }
{
    ways.insert(Way { addr, metric })?;
    Ok(())
}

impl<'a> Resolver<'a> {
    /// A table of which nothing was asked. It takes no memory.
    pub(crate) fn new(alloc: Global, table: Listed<'a, Route>) -> Resolver<'a>
        requires { IsTable table }
        ensures { result ≡ table.entry }
    {
        Resolver {
            table,
            known: ByNumber::new(alloc),
        }
    }

    /// The metric of the route to an address that resolves, or `None` exactly where it doesn't.
    pub(crate) fn metric_to(&mut self, alloc: Global, addr: Addr) -> Result<Option<u32>, AllocError>
        ensures value { IfOk result (λ metric. metric ≡ spec.metric_to self.old addr) }
        ensures same { self.new ≡ self.old }
    {
        let known = known_metric(&self.known, addr);
        match known {
            Some(metric) => Ok(metric),
            None => {
                let metric = metric_to(alloc, &self.table, addr)?;
                note(&mut self.known, addr, metric)?;
                Ok(metric)
            }
        }
    }
}
