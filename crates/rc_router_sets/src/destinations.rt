//! The headers to some destinations.
ghost use Rattle.std.specs.Prelude.{◌≡◌, ◌++◌, IfOk, IfErr, OnOk, flat_map, map};
ghost use Rattle.rc_base.specs.Prefix.{prefix_at};
ghost use Rattle.rc_bdd.specs.Work.{IsCause};
ghost use Rattle.rc_router_sets.specs.Made.{hosts_by_port, owned_at};
ghost use Rattle.rc_router_sets.specs.Sent.{taken, to_interface, to_router, to_subnets};
ghost use Rattle.rc_nodes.specs.Seats.{IsSeatOf, Keeps, SeatKnows};
ghost use Rattle.rc_topology.specs.declared.port.PortAddr.{PortAddr as Owned};
ghost use Rattle.rc_trees.specs.Fields.{chain};
ghost use Rattle.rc_trees.specs.Recipes.{parts, tree, union_of};
ghost use Rattle.rc_trees.specs.Trees.{HasNodes};
ghost use Rattle.rc_moves.specs.Moves.{router_of};

use crate::hop_sets::Site;
use crate::neighbors::linked_of;
use rc_base::{Addr, IfId, Prefix};
use rc_bdd::{SetError, Work};
use rc_moves::Plane;
use rc_nodes::{May, NEVER, Nodes, Ref};
use rc_sets::prefix_set;
use rc_topology::{Port, PortAddr};
use std::alloc::{AllocError, Global};

/// The prefix of an address alone.
fn host(addr: Addr) -> Prefix
    ensures { result ≡ prefix_at addr 32 }
{
    Prefix::new(addr, 32).unwrap()
}

/// The headers to an address in one of some prefixes.
fn prefixes_set<M: May>(
    work: &mut Work<M>,
    nodes: &Nodes<M>,
    prefixes: &[Prefix],
) -> Result<Ref, SetError>
    requires seat { IsSeatOf nodes.now work.old }
    requires may { HasNodes nodes.now.may (parts (union_of chain prefixes.now)) }
    ensures seat { IsSeatOf nodes.now work.new }
    ensures keeps { Keeps work.old work.new }
    ensures set { IfOk result (λ r. SeatKnows work.new r.index (tree (union_of chain prefixes.now))) }
    ensures cause { IfErr result (IsCause nodes.now work.new) }
{
    let mut set = NEVER;
    for prefix in prefixes {
        let alone = prefix_set(work, nodes, *prefix)?;
        set = work.or(nodes, set, alone)?;
    }
    Ok(set)
}

/// Puts the addresses at the end, each as a prefix of its own.
fn push_hosts(hosts: &mut Vec<Prefix>, addresses: &[PortAddr]) -> Result<(), AllocError>
    ensures { OnOk result (hosts.new.items ≡ hosts.old.items ++ map (λ (a : Owned). prefix_at a.addr 32) addresses.now) }
{
    for address in addresses {
        hosts.push(host(address.addr))?;
    }
    Ok(())
}

/// The own addresses of a router's interfaces, each as a prefix of its own.
fn router_hosts(alloc: Global, ports: &[Port]) -> Result<Vec<Prefix>, AllocError>
    ensures { IfOk result (λ hosts. hosts.items ≡ flat_map hosts_by_port ports.now) }
{
    let mut hosts = Vec::new(alloc);
    for port in ports {
        push_hosts(&mut hosts, port.addresses.as_slice())?;
    }
    Ok(hosts)
}

/// The headers to an own address of a position's router.
pub fn router_set<M: May>(
    alloc: Global,
    work: &mut Work<M>,
    nodes: &Nodes<M>,
    site: &Site<'_>,
) -> Result<Ref, SetError>
    requires seat { IsSeatOf nodes.now work.old }
    requires may { HasNodes nodes.now.may (parts (to_router site.now.plane.now (router_of site.now.position))) }
    ensures seat { IsSeatOf nodes.now work.new }
    ensures keeps { Keeps work.old work.new }
    ensures set { IfOk result (λ r. SeatKnows work.new r.index (tree (to_router site.now.plane.now (router_of site.now.position)))) }
    ensures cause { IfErr result (IsCause nodes.now work.new) }
{
    let ports = site.plane.links().ports(site.router());
    let Ok(hosts) = router_hosts(alloc, ports) else {
        return Err(SetError::Memory);
    };
    prefixes_set(work, nodes, hosts.as_slice())
}

/// The own addresses of an interface, none where the network has no such interface.
fn addresses_at<'a>(plane: &'a Plane<'a>, interface: &IfId) -> &'a [PortAddr]
    ensures { result.now ≡ owned_at plane.now interface.now }
{
    let port = plane.links().ports(interface.router).get(interface.index);
    match port {
        Some(port) => port.addresses.as_slice(),
        None => &[],
    }
}

/// Some addresses, each as a prefix of its own.
fn hosts_of(alloc: Global, addresses: &[PortAddr]) -> Result<Vec<Prefix>, AllocError>
    ensures { IfOk result (λ hosts. hosts.items ≡ map (λ (a : Owned). prefix_at a.addr 32) addresses.now) }
{
    let mut hosts = Vec::new(alloc);
    push_hosts(&mut hosts, addresses)?;
    Ok(hosts)
}

/// The prefixes of some addresses.
fn prefixes_of(alloc: Global, addresses: &[PortAddr]) -> Result<Vec<Prefix>, AllocError>
    ensures { IfOk result (λ prefixes. prefixes.items ≡ map (λ (a : Owned). a.prefix) addresses.now) }
{
    let mut prefixes = Vec::new(alloc);
    for address in addresses {
        prefixes.push(address.prefix)?;
    }
    Ok(prefixes)
}

/// The headers to an own address of an interface.
pub fn interface_set<M: May>(
    alloc: Global,
    work: &mut Work<M>,
    nodes: &Nodes<M>,
    plane: &Plane<'_>,
    interface: &IfId,
) -> Result<Ref, SetError>
    requires seat { IsSeatOf nodes.now work.old }
    requires may { HasNodes nodes.now.may (parts (to_interface plane.now interface.now)) }
    ensures seat { IsSeatOf nodes.now work.new }
    ensures keeps { Keeps work.old work.new }
    ensures set { IfOk result (λ r. SeatKnows work.new r.index (tree (to_interface plane.now interface.now))) }
    ensures cause { IfErr result (IsCause nodes.now work.new) }
{
    let Ok(hosts) = hosts_of(alloc, addresses_at(plane, interface)) else {
        return Err(SetError::Memory);
    };
    prefixes_set(work, nodes, hosts.as_slice())
}

/// The headers to an address in a prefix of an interface.
pub fn subnets_set<M: May>(
    alloc: Global,
    work: &mut Work<M>,
    nodes: &Nodes<M>,
    plane: &Plane<'_>,
    interface: &IfId,
) -> Result<Ref, SetError>
    requires seat { IsSeatOf nodes.now work.old }
    requires may { HasNodes nodes.now.may (parts (to_subnets plane.now interface.now)) }
    ensures seat { IsSeatOf nodes.now work.new }
    ensures keeps { Keeps work.old work.new }
    ensures set { IfOk result (λ r. SeatKnows work.new r.index (tree (to_subnets plane.now interface.now))) }
    ensures cause { IfErr result (IsCause nodes.now work.new) }
{
    let Ok(prefixes) = prefixes_of(alloc, addresses_at(plane, interface)) else {
        return Err(SetError::Memory);
    };
    prefixes_set(work, nodes, prefixes.as_slice())
}

/// The headers that some interface of these takes.
fn interfaces_set<M: May>(
    alloc: Global,
    work: &mut Work<M>,
    nodes: &Nodes<M>,
    plane: &Plane<'_>,
    interfaces: &[IfId],
) -> Result<Ref, SetError>
    requires seat { IsSeatOf nodes.now work.old }
    requires may { HasNodes nodes.now.may (parts (union_of (to_interface plane.now) interfaces.now)) }
    ensures seat { IsSeatOf nodes.now work.new }
    ensures keeps { Keeps work.old work.new }
    ensures set { IfOk result (λ r. SeatKnows work.new r.index (tree (union_of (to_interface plane.now) interfaces.now))) }
    ensures cause { IfErr result (IsCause nodes.now work.new) }
{
    let mut set = NEVER;
    for interface in interfaces {
        let there = interface_set(alloc, work, nodes, plane, interface)?;
        set = work.or(nodes, set, there)?;
    }
    Ok(set)
}

/// The headers that some interface on a link of this one takes.
pub fn taken_set<M: May>(
    alloc: Global,
    work: &mut Work<M>,
    nodes: &Nodes<M>,
    plane: &Plane<'_>,
    interface: &IfId,
) -> Result<Ref, SetError>
    requires seat { IsSeatOf nodes.now work.old }
    requires may { HasNodes nodes.now.may (parts (taken plane.now interface.now)) }
    ensures seat { IsSeatOf nodes.now work.new }
    ensures keeps { Keeps work.old work.new }
    ensures set { IfOk result (λ r. SeatKnows work.new r.index (tree (taken plane.now interface.now))) }
    ensures cause { IfErr result (IsCause nodes.now work.new) }
{
    let Ok(linked) = linked_of(alloc, plane, interface) else {
        return Err(SetError::Memory);
    };
    interfaces_set(alloc, work, nodes, plane, linked.as_slice())
}
