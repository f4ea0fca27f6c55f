//! The connected routes.
ghost use Rattle.std.specs.Prelude.{◌≡◌, IfOk, OnOk, length, map};
ghost use Rattle.std.specs.List.{fold};
ghost use Rattle.rc_base.specs.Index.{index_of, with_interface, with_member};
ghost use Rattle.rc_config.specs.Down.{prefix_of};
ghost use Rattle.rc_config.specs.Interface.{declared_addresses};
ghost use Rattle.rc_route.specs.declared.route.Hop.TheVariants.{Dev};
ghost use Rattle.rc_route.specs.Tables.{IsTable};
ghost use Rattle.rc_rib.specs.Connected as spec;
ghost use Rattle.rc_rib.specs.Offers.{ids_before, prefixes_of_id, route_of_members};

use crate::rows::routes_of_rows;
use rc_base::{IfId, Prefix, PrefixIndex, RouterId};
use rc_config::{IfAddr, Interface, RouterText};
use rc_route::{Hop, Hops, Route, SharedHops, Source, Table};
use std::alloc::{AllocError, Global};

/// Puts an interface under the prefix of each of these addresses of it.
fn add_addresses(index: &mut PrefixIndex, id: &IfId, addresses: &[IfAddr]) -> Result<(), AllocError>
    ensures { OnOk result (index.new ≡ fold (λ rows p. with_member rows p id.now) index.old (map prefix_of addresses.now)) }
{
    for address in addresses {
        index.add(address.prefix(), *id)?;
    }
    Ok(())
}

/// Puts an interface under the prefix of each address of it.
fn add_interface(
    index: &mut PrefixIndex,
    id: &IfId,
    interface: &Interface,
) -> Result<(), AllocError>
    ensures { OnOk result (index.new ≡ fold (λ rows p. with_member rows p id.now) index.old (map prefix_of (declared_addresses interface.now))) }
{
    match interface.primary {
        Some(address) => {
            index.add(address.prefix(), *id)?;
            add_addresses(index, id, interface.secondary.as_slice())
        }
        None => add_addresses(index, id, interface.secondary.as_slice()),
    }
}

/// Puts an interface of a router under each of its prefixes, where it is up.
fn add_id(index: &mut PrefixIndex, file: &RouterText, id: &IfId) -> Result<(), AllocError>
    ensures { OnOk result (index.new ≡ with_interface (prefixes_of_id file.now.interfaces) index.old id.now) }
{
    let found = file.interfaces.at(id.index);
    match found {
        None => Ok(()),
        Some((name, interface)) => {
            if file.is_down(name) {
                return Ok(());
            }
            add_interface(index, id, interface)
        }
    }
}

/// The interfaces of a router under each of their prefixes.
fn index_of(alloc: Global, router: RouterId, file: &RouterText) -> Result<PrefixIndex, AllocError>
    ensures { IfOk result (λ index. index ≡ index_of (prefixes_of_id file.now.interfaces) (ids_before router (length file.now.interfaces))) }
{
    let mut index = PrefixIndex::new(alloc);
    for number in 0..file.interfaces.len() {
        let id = IfId {
            router,
            index: number,
        };
        add_id(&mut index, file, &id)?;
    }
    Ok(index)
}

/// The hops out of interfaces.
fn hops_over(alloc: Global, members: &[IfId]) -> Result<Hops, AllocError>
    ensures { IfOk result (λ hops. hops ≡ map Dev members.now) }
{
    let mut hops = Hops::none();
    for id in members {
        hops.push(alloc, Hop::Dev(*id))?;
    }
    Ok(hops)
}

/// The connected route of a prefix over interfaces. It shares the hops of another route, where these are the same.
pub(crate) fn connected_route(
    alloc: Global,
    beside: Option<&SharedHops>,
    prefix: Prefix,
    members: &[IfId],
) -> Result<Route, AllocError>
    ensures { IfOk result (λ route. route ≡ route_of_members prefix members.now) }
{
    let hops = SharedHops::beside(alloc, beside, hops_over(alloc, members)?)?;
    Ok(Route {
        prefix,
        source: Source::Connected,
        distance: 0,
        metric: 0,
        hops,
    })
}

/// The connected routes of a router: one for each prefix of an interface that is up, by address, then length.
pub fn connected(alloc: Global, router: RouterId, file: &RouterText) -> Result<Table, AllocError>
    ensures value { IfOk result (λ routes. routes ≡ spec.connected router file.now.interfaces) }
    ensures in_order { IfOk result IsTable }
{
    let index = index_of(alloc, router, file)?;
    routes_of_rows(alloc, index.into_rows())
}
