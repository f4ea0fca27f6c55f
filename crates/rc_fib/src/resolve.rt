//! The hops of a route, where another table gives those of its gateways.
ghost use Rattle.std.specs.Prelude.{◌≡◌, [], true, IfOk, OnOk, map};
ghost use Rattle.std.specs.List.{fold, list_any};
ghost use Rattle.indexmap.specs.IndexSet.{insert_key};
ghost use Rattle.rc_route.specs.Hops.{same_hop};
ghost use Rattle.rc_fib.specs.Entries as layer;
ghost use Rattle.rc_fib.specs.Forwarding as spec;

use crate::Fib;
use crate::hop_set::HopSet;
use rc_base::Addr;
use rc_route::{Hop, Hops, same_hop};
use std::alloc::{AllocError, Global};

/// The hop with a gateway, where it has an interface and no gateway of its own.
fn with_gateway(hop: &Hop, gateway: Addr) -> Hop
    ensures { result ≡ spec.with_gateway gateway hop.now }
{
    match hop {
        Hop::Dev(interface) => Hop::Via(gateway, Some(*interface)),
        _ => *hop,
    }
}

/// The gateway of a hop that names no interface.
fn gateway_of(hop: &Hop) -> Option<Addr>
    ensures { result ≡ layer.gateway_of hop.now }
{
    match hop {
        Hop::Via(gateway, None) => Some(*gateway),
        _ => None,
    }
}

/// Puts the hops of a gateway, each once.
fn insert_through(
    alloc: Global,
    set: &mut HopSet,
    gateway: Addr,
    through: &[Hop],
) -> Result<(), AllocError>
    ensures { OnOk result (set.new ≡ fold (insert_key same_hop) set.old (map (spec.with_gateway gateway) through.now)) }
{
    for hop in through {
        set.insert(alloc, with_gateway(hop, gateway))?;
    }
    Ok(())
}

/// Puts what a hop resolves to, each hop once.
#[tactic(auto, using(crate::proofs::HopLaws::resolve_by_gateway))]
fn insert_resolved(alloc: Global, set: &mut HopSet, fib: &Fib, hop: &Hop) -> Result<(), AllocError>
    ensures { OnOk result (set.new ≡ fold (insert_key same_hop) set.old (spec.resolve_hop (spec.resolved_hops fib.now) hop.now)) }
{
    let gateway = gateway_of(hop);
    match gateway {
        Some(gateway) => insert_through(alloc, set, gateway, fib.hops(gateway)),
        None => set.insert(alloc, *hop),
    }
}

/// What hops resolve to, in order, without repeats after the first. It errs only where memory runs out.
pub(crate) fn resolve(alloc: Global, fib: &Fib, hops: &[Hop]) -> Result<Hops, AllocError>
    ensures { IfOk result (λ found. found ≡ spec.resolve_all (spec.resolved_hops fib.now) hops.now) }
{
    let mut set = HopSet::new();
    for hop in hops {
        insert_resolved(alloc, &mut set, fib, hop)?;
    }
    set.into_hops(alloc)
}

/// Whether hops resolve to themselves: each says where a packet goes, and none stands there twice. Of three or more it isn't told.
pub(crate) fn is_settled(hops: &[Hop]) -> bool
    ensures { result ≡ true → layer.is_settled hops.now ≡ true }
{
    match hops {
        [] => true,
        [hop] => is_resolved(hop),
        [first, second] => is_resolved(first) && is_resolved(second) && !same_hop(second, first),
        _ => false,
    }
}

/// Whether a hop says where a packet goes: nowhere, or over an interface.
pub(crate) fn is_resolved(hop: &Hop) -> bool
    ensures { result ≡ spec.is_resolved hop.now }
{
    match hop {
        Hop::Via(_, None) => false,
        _ => true,
    }
}

/// Whether a hop names an interface.
fn has_interface(hop: &Hop) -> bool
    ensures { result ≡ spec.has_interface hop.now }
{
    match hop {
        Hop::Null => false,
        Hop::Dev(_) => true,
        Hop::Via(_, interface) => interface.is_some(),
    }
}

/// Whether some hop names an interface.
pub(crate) fn some_interface(hops: &[Hop]) -> bool
    ensures { result ≡ list_any spec.has_interface hops.now }
{
    hops.iter().any(|hop| has_interface(hop))
}
