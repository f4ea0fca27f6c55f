//! What the lines about peer groups and activity change, and what holds of a neighbour by them in the end.
ghost use Rattle.std.specs.Prelude.{◌≡◌, OnOk};
ghost use Rattle.rc_config.specs.Peering as spec;

use crate::settings::{over, put_setting};
use rc_base::{Addr, Name};
use rc_config::{
    Activity, Group, Member, Mention, Neighbor, NeighborSetting, Peer, Peering, Settings,
};
use std::alloc::AllocError;

/// A group of which no line says anything.
fn no_group() -> Group
    ensures { result ≡ spec.no_group }
{
    Group {
        settings: Settings::none(),
        is_active: None,
    }
}

/// The group of a name, one that says nothing where there is none.
fn group_named(peering: &Peering, name: &Name) -> Group
    ensures { result ≡ spec.group_named peering.now name.now }
{
    match peering.groups.get(name) {
        Some(group) => *group,
        None => no_group(),
    }
}

/// The group of a neighbour, one that says nothing where it is in none.
fn group_of(peering: &Peering, address: Addr) -> Group
    ensures { result ≡ spec.group_of peering.now address }
{
    match peering.members.get(address.bits()) {
        Some(member) => group_named(peering, &member.group),
        None => no_group(),
    }
}

/// Whether a neighbour is active by its own last line, where there is one.
fn own_activity(peering: &Peering, address: Addr) -> Option<bool>
    ensures { result ≡ spec.own_activity peering.now address }
{
    match peering.activities.get(address.bits()) {
        Some(activity) => Some(activity.is_active),
        None => None,
    }
}

/// Whether a neighbour of this group is active: by its own last line, else by its group's, else as without a line.
fn is_active(peering: &Peering, address: Addr, group: &Group) -> bool
    requires { group.now ≡ spec.group_of peering.now address }
    ensures { result ≡ spec.is_active_in peering.now address }
{
    match (own_activity(peering, address), group.is_active) {
        (Some(own), _) => own,
        (None, Some(shared)) => shared,
        (None, None) => peering.is_active_by_default,
    }
}

/// What holds of a neighbour in the end.
pub(crate) fn settled_in(peering: &Peering, neighbor: &Neighbor) -> Neighbor
    ensures { result ≡ spec.settled_in peering.now neighbor.now }
{
    let group = group_of(peering, neighbor.address);
    Neighbor {
        address: neighbor.address,
        settings: over(neighbor.settings, group.settings),
        is_active: is_active(peering, neighbor.address, &group),
    }
}

/// Puts a group under its name.
fn put_group(peering: &mut Peering, name: Name, group: Group) -> Result<(), AllocError>
    ensures { OnOk result (peering.new ≡ spec.with_group peering.old name group) }
{
    // The generated proof of an insertion wants each type within the element named in the function.
    let _interface: Option<Name> = None;
    let _mention: Option<Mention> = None;
    let _settings: Option<Settings> = None;
    peering.groups.insert(name, group)?;
    Ok(())
}

/// Declares a group, which stays as it is where it is there.
pub(crate) fn declare(peering: &mut Peering, name: Name) -> Result<(), AllocError>
    ensures { OnOk result (peering.new ≡ spec.with_declared peering.old name) }
{
    let group = group_named(peering, &name);
    put_group(peering, name, group)
}

/// Puts one more line about a group.
pub(crate) fn put_shared(
    peering: &mut Peering,
    name: Name,
    setting: NeighborSetting,
) -> Result<(), AllocError>
    ensures { OnOk result (peering.new ≡ spec.with_shared peering.old name setting) }
{
    let mut group = group_named(peering, &name);
    put_setting(&mut group.settings, setting);
    put_group(peering, name, group)
}

/// Puts one more `activate` line, or one that takes it back.
pub(crate) fn put_activity(
    peering: &mut Peering,
    whom: Peer,
    is_active: bool,
) -> Result<(), AllocError>
    ensures { OnOk result (peering.new ≡ spec.with_activity peering.old whom is_active) }
{
    match whom {
        Peer::Address(address) => {
            peering.activities.insert(Activity { address, is_active })?;
            Ok(())
        }
        Peer::Group(name) => {
            let mut group = group_named(peering, &name);
            group.is_active = Some(is_active);
            put_group(peering, name, group)
        }
    }
}

/// Makes a neighbour a member of a group, and of none that it was in before.
pub(crate) fn put_member(
    peering: &mut Peering,
    address: Addr,
    group: Name,
) -> Result<(), AllocError>
    ensures { OnOk result (peering.new ≡ spec.with_member peering.old address group) }
{
    peering.members.insert(Member { address, group })?;
    Ok(())
}
