//! What a `neighbor` line sets, of a neighbour or of a peer group, and what a member takes over from its group.
ghost use Rattle.std.specs.Prelude.{◌≡◌};
ghost use Rattle.rc_config.specs.Settings as spec;

use rc_config::{Direction, Mention, NeighborSetting, Settings};

/// A member's own ones over those of its group: a value is its own, else the group's, and a flag is on where one has it.
pub(crate) fn over(own: Settings, group: Settings) -> Settings
    ensures { result ≡ spec.over own group }
{
    Settings {
        remote_as: own.remote_as.or(group.remote_as),
        update_source: own.update_source.or(group.update_source),
        is_multihop: own.is_multihop || group.is_multihop,
        is_shutdown: own.is_shutdown || group.is_shutdown,
        next_hop_self: own.next_hop_self || group.next_hop_self,
        default_originate: own.default_originate || group.default_originate,
        send_community: own.send_community || group.send_community,
        weight: own.weight.or(group.weight),
        map_in: own.map_in.or(group.map_in),
        map_out: own.map_out.or(group.map_out),
        list_in: own.list_in.or(group.list_in),
        list_out: own.list_out.or(group.list_out),
    }
}

/// Puts this route map in a direction, in place of any other.
fn put_map(settings: &mut Settings, map: Mention, direction: Direction)
    ensures { settings.new ≡ spec.with_map settings.old map direction }
{
    match direction {
        Direction::In => settings.map_in = Some(map),
        Direction::Out => settings.map_out = Some(map),
    }
}

/// Puts this prefix list in a direction, in place of any other.
fn put_list(settings: &mut Settings, list: Mention, direction: Direction)
    ensures { settings.new ≡ spec.with_list settings.old list direction }
{
    match direction {
        Direction::In => settings.list_in = Some(list),
        Direction::Out => settings.list_out = Some(list),
    }
}

/// Puts one more line, which counts in place of an earlier one of the same kind.
pub(crate) fn put_setting(settings: &mut Settings, setting: NeighborSetting)
    ensures { settings.new ≡ spec.with_setting settings.old setting }
{
    match setting {
        NeighborSetting::RemoteAs(asn) => settings.remote_as = Some(asn),
        NeighborSetting::UpdateSource(interface) => settings.update_source = Some(interface),
        NeighborSetting::EbgpMultihop => settings.is_multihop = true,
        NeighborSetting::Shutdown => settings.is_shutdown = true,
        NeighborSetting::NextHopSelf => settings.next_hop_self = true,
        NeighborSetting::DefaultOriginate => settings.default_originate = true,
        NeighborSetting::SendCommunity => settings.send_community = true,
        NeighborSetting::Weight(weight) => settings.weight = Some(weight),
        NeighborSetting::RouteMap { map, direction } => put_map(settings, map, direction),
        NeighborSetting::PrefixList { list, direction } => put_list(settings, list, direction),
    }
}
