//! Whether an address resolves in a table, and the metric of the route to it: a table is in order, so a look-up is a bisection.
ghost use Rattle.std.specs.Prelude.{◌≡◌, IfOk, OnOk, Some};
ghost use Rattle.std.specs.List.{fold, flat_map, list_any};
ghost use Rattle.std.specs.Option.{option_copied};
ghost use Rattle.std.specs.Ordering.{nat_cmp};
ghost use Rattle.std.specs.BTreeSet.{keys, insert_key};
ghost use Rattle.rc_base.specs.Lists.{in_order};
ghost use Rattle.rc_fib.specs.Forwarding.{has_interface, longest};
ghost use Rattle.rc_route.specs.Tables.{IsTable};
ghost use Rattle.rc_bgp.specs.Reaching as spec;
ghost use Rattle.rc_bgp.specs.Levels as level;

use rc_base::{Addr, Items};
use rc_pieces::Listed;
use rc_route::{Hop, Route};
use std::alloc::{AllocError, Global};
use std::collections::BTreeSet;

/// How many look-ups may follow one another.
const DEPTH: usize = 16;

/// The route of the longest prefix that holds an address (RFC 1812 s.5.2.4.3), by bisection.
fn longest_route<'a>(table: &Listed<'a, Route>, addr: Addr) -> Option<&'a Route>
    requires { IsTable table.now }
    ensures { option_copied result ≡ longest table.now addr }
{
    table.read_prefixes();
    table.longest(addr)
}

/// Whether a hop names an interface.
fn has_interface(hop: &Hop) -> bool
    ensures { result ≡ has_interface hop.now }
{
    match hop {
        Hop::Null => false,
        Hop::Dev(_) => true,
        Hop::Via(_, interface) => interface.is_some(),
    }
}

/// The hops of the route of an address.
fn first_hops<'a>(table: &Listed<'a, Route>, addr: Addr) -> &'a [Hop]
    requires { IsTable table.now }
    ensures { result.now ≡ level.first_hops table.now addr }
{
    let found = longest_route(table, addr);
    match found {
        Some(route) => route.hops.as_slice(),
        None => &[],
    }
}

/// Whether some hop names an interface.
fn some_interface(hops: &[Hop]) -> bool
    ensures { result ≡ list_any has_interface hops.now }
{
    hops.iter().any(|hop| has_interface(hop))
}

/// Whether a hop of the route of an address names an interface.
fn is_direct(table: &Listed<'_, Route>, addr: Addr) -> bool
    requires { IsTable table.now }
    ensures { result ≡ level.is_direct table.now addr }
{
    some_interface(first_hops(table, addr))
}

/// Puts an address into a set.
fn insert(set: &mut BTreeSet<Addr>, addr: Addr) -> Result<(), AllocError>
    ensures { OnOk result (keys set.new ≡ insert_key nat_cmp (keys set.old) addr) }
{
    set.insert(addr)?;
    Ok(())
}

/// Puts the gateways of hops into a set.
fn add_gateways(set: &mut BTreeSet<Addr>, hops: &[Hop]) -> Result<(), AllocError>
    ensures { OnOk result (keys set.new ≡ fold (insert_key nat_cmp) (keys set.old) (level.gateways hops.now)) }
{
    for hop in hops {
        match hop {
            Hop::Via(gateway, None) => insert(set, *gateway)?,
            _ => {}
        }
    }
    Ok(())
}

/// The gateways of the routes of some addresses, as a set.
fn gateway_set(
    alloc: Global,
    table: &Listed<'_, Route>,
    addresses: &[Addr],
) -> Result<BTreeSet<Addr>, AllocError>
    requires { IsTable table.now }
    ensures { IfOk result (λ set. keys set ≡ in_order nat_cmp (flat_map (level.gateways_of table.now) addresses.now)) }
{
    let mut set = BTreeSet::new(alloc);
    for addr in addresses {
        add_gateways(&mut set, first_hops(table, *addr))?;
    }
    Ok(set)
}

/// The addresses of a set as a list.
fn listed(alloc: Global, set: BTreeSet<Addr>) -> Result<Vec<Addr>, AllocError>
    ensures { IfOk result (λ addresses. addresses.items ≡ keys set) }
{
    let mut addresses = Vec::new(alloc);
    for addr in set {
        addresses.push(addr)?;
    }
    Ok(addresses)
}

/// Whether one of some addresses is direct.
fn some_direct(table: &Listed<'_, Route>, addresses: &[Addr]) -> bool
    requires { IsTable table.now }
    ensures { result ≡ list_any (level.is_direct table.now) addresses.now }
{
    for addr in addresses {
        if is_direct(table, *addr) {
            return true;
        }
    }
    false
}

/// Whether an address resolves by its gateways: level by level, so that each address is looked up once a level.
fn reaches_on(alloc: Global, table: &Listed<'_, Route>, addr: Addr) -> Result<bool, AllocError>
    requires { IsTable table.now }
    ensures { IfOk result (λ is. is ≡ spec.reaches table.now addr) }
{
    let mut front = Vec::new(alloc);
    front.push(addr)?;
    for _depth in 0..DEPTH {
        if some_direct(table, front.as_slice()) {
            return Ok(true);
        }
        let gateways = gateway_set(alloc, table, front.as_slice())?;
        front = listed(alloc, gateways)?;
    }
    Ok(false)
}

/// Whether an address resolves in a table. Most do at once, which takes no memory.
pub(crate) fn reaches(
    alloc: Global,
    table: &Listed<'_, Route>,
    addr: Addr,
) -> Result<bool, AllocError>
    requires { IsTable table.now }
    ensures { IfOk result (λ is. is ≡ spec.reaches table.now addr) }
{
    if is_direct(table, addr) {
        return Ok(true);
    }
    reaches_on(alloc, table, addr)
}

/// The metric of the route of an address, where the address resolves.
#[tactic(auto, using(crate::proofs::ReachLaws::direct_metric, crate::proofs::ReachLaws::reached_metric, crate::proofs::ReachLaws::unreached_metric))]
fn metric_over(
    alloc: Global,
    table: &Listed<'_, Route>,
    addr: Addr,
    route: &Route,
) -> Result<Option<u32>, AllocError>
    requires table { IsTable table.now }
    requires found { longest table.now addr ≡ Some route.now }
    ensures { IfOk result (λ metric. metric ≡ spec.metric_to table.now addr) }
{
    if some_interface(route.hops.as_slice()) {
        return Ok(Some(route.metric));
    }
    if !reaches_on(alloc, table, addr)? {
        return Ok(None);
    }
    Ok(Some(route.metric))
}

/// The metric of the route to an address that resolves, or `None` exactly where it doesn't.
#[tactic(auto, using(crate::proofs::ReachLaws::no_metric))]
pub(crate) fn metric_to(
    alloc: Global,
    table: &Listed<'_, Route>,
    addr: Addr,
) -> Result<Option<u32>, AllocError>
    requires { IsTable table.now }
    ensures { IfOk result (λ metric. metric ≡ spec.metric_to table.now addr) }
{
    let found = longest_route(table, addr);
    match found {
        None => Ok(None),
        Some(route) => metric_over(alloc, table, addr, route),
    }
}
