//! What a line in the block of the BGP process changes, and what holds of its neighbours in the end.
ghost use Rattle.std.specs.Prelude.{◌≡◌, IfOk, OnOk, map};
ghost use Rattle.rc_config.specs.Bgp as spec;
ghost use Rattle.rc_config.specs.ByNumber.{placed};
ghost use Rattle.rc_config.specs.Peering.{settled_in};

use crate::peering::{self, declare, put_activity, put_shared, settled_in};
use crate::settings;
use rc_base::{Addr, Name};
use rc_config::{
    BgpLine, BgpProcess, ByNumber, Mention, Neighbor, NeighborSetting, Peer, Peering, Settings,
};
use std::alloc::{AllocError, Global};

/// What the lines so far say of the neighbour of an address.
fn neighbor_at(neighbors: &ByNumber<Neighbor>, address: Addr) -> Neighbor
    ensures { result ≡ spec.neighbor_at neighbors.now address }
{
    match neighbors.get(address.bits()) {
        Some(known) => *known,
        None => Neighbor::new(address),
    }
}

/// Puts a neighbour in place of the one of its address.
fn put_neighbor(neighbors: &mut ByNumber<Neighbor>, neighbor: Neighbor) -> Result<(), AllocError>
    ensures { OnOk result (neighbors.new ≡ placed spec.address_of neighbor neighbors.old) }
{
    // The generated proof of an insertion wants each type within the element named in the function.
    let _interface: Option<Name> = None;
    let _mention: Option<Mention> = None;
    let _settings: Option<Settings> = None;
    neighbors.insert(neighbor)?;
    Ok(())
}

/// Puts one more line about the neighbour of an address, which is one of the neighbours from then on.
fn put_neighbor_line(
    neighbors: &mut ByNumber<Neighbor>,
    address: Addr,
    setting: NeighborSetting,
) -> Result<(), AllocError>
    ensures { OnOk result (neighbors.new ≡ spec.with_neighbor neighbors.old address setting) }
{
    let mut neighbor = neighbor_at(neighbors, address);
    settings::put_setting(&mut neighbor.settings, setting);
    put_neighbor(neighbors, neighbor)
}

/// Makes the address that of a neighbour, where it isn't yet.
fn put_address(neighbors: &mut ByNumber<Neighbor>, address: Addr) -> Result<(), AllocError>
    ensures { OnOk result (neighbors.new ≡ spec.with_address neighbors.old address) }
{
    let neighbor = neighbor_at(neighbors, address);
    put_neighbor(neighbors, neighbor)
}

/// The neighbours with what holds of each in the end.
fn settle_all(
    alloc: Global,
    neighbors: &ByNumber<Neighbor>,
    peering: &Peering,
) -> Result<ByNumber<Neighbor>, AllocError>
    ensures { IfOk result (λ settled. settled ≡ map (settled_in peering.now) neighbors.now) }
{
    let mut settled = ByNumber::new(alloc);
    for neighbor in neighbors.iter() {
        put_neighbor(&mut settled, settled_in(peering, neighbor))?;
    }
    Ok(settled)
}

/// Puts one more line that sets something of a neighbour or of a peer group.
fn put_setting(
    process: &mut BgpProcess,
    whom: Peer,
    setting: NeighborSetting,
) -> Result<(), AllocError>
    ensures { OnOk result (process.new ≡ spec.with_setting_of process.old whom setting) }
{
    match whom {
        Peer::Address(address) => put_neighbor_line(&mut process.neighbors, address, setting),
        Peer::Group(name) => put_shared(&mut process.peering, name, setting),
    }
}

/// Makes a neighbour a member of a group. It is one of the neighbours from then on.
fn put_member(process: &mut BgpProcess, address: Addr, group: Name) -> Result<(), AllocError>
    ensures { OnOk result (process.new ≡ spec.with_member_of process.old address group) }
{
    put_address(&mut process.neighbors, address)?;
    peering::put_member(&mut process.peering, address, group)
}

/// Puts one more line: a `network` line goes behind the others, and any other counts in place of an earlier one of the same
/// kind, of `neighbor` lines in place of one about the same neighbour or group, and of `redistribute` lines in place of one
/// of the same source.
pub(crate) fn put_line(process: &mut BgpProcess, line: BgpLine) -> Result<(), AllocError>
    ensures { OnOk result (process.new ≡ spec.with_line process.old line) }
{
    match line {
        BgpLine::RouterId(id) => {
            process.router_id = Some(id);
            Ok(())
        }
        BgpLine::MaximumExternalPaths(number) => {
            process.maximum_paths.external = number;
            Ok(())
        }
        BgpLine::MaximumInternalPaths(number) => {
            process.maximum_paths.internal = number;
            Ok(())
        }
        BgpLine::Network(prefix) => process.networks.push(prefix),
        BgpLine::Setting { whom, setting } => put_setting(process, whom, setting),
        BgpLine::Active { whom, is_active } => put_activity(&mut process.peering, whom, is_active),
        BgpLine::GroupDeclared(name) => declare(&mut process.peering, name),
        BgpLine::MemberOf { address, group } => put_member(process, address, group),
        BgpLine::InactiveByDefault => {
            process.peering.is_active_by_default = false;
            Ok(())
        }
        BgpLine::RedistributeConnected(connected) => {
            process.redistributions.connected = Some(connected);
            Ok(())
        }
        BgpLine::RedistributeStatic(static_routes) => {
            process.redistributions.static_routes = Some(static_routes);
            Ok(())
        }
        BgpLine::RedistributeOspf(ospf) => {
            process.redistributions.ospf.insert(ospf)?;
            Ok(())
        }
    }
}

/// Gives each neighbour what holds of it in the end, and lets the peer groups go. Where memory runs out what is left is no
/// settled process.
pub(crate) fn settle(process: &mut BgpProcess, alloc: Global) -> Result<(), AllocError>
    ensures { OnOk result (process.new ≡ spec.settled process.old) }
{
    process.neighbors = settle_all(alloc, &process.neighbors, &process.peering)?;
    process.peering = Peering::new(alloc);
    Ok(())
}
