//! What the lines of a file name and none of its lines defines.
ghost use Rattle.std.specs.Prelude.{◌≡◌, [], ◌∷◌, None, slice_get};
ghost use Rattle.std.specs.List.{flat_map};
ghost use Rattle.std.specs.Option.{option_copied, option_map_or};
ghost use Rattle.rc_network.specs.Undefined.{defines, is_standard, least_line, lower, named_by_bgp, named_by_entry, named_by_group, named_by_groups, named_by_map, named_by_maps, named_by_neighbors, named_by_ospf, named_by_process, named_by_processes, named_by_redistribution, named_by_settings, named_by_source, named_by_sources, named_once, of_kind, undefined_line};

use rc_base::Name;
use rc_config::{
    AccessListKind, BgpProcess, BgpRedistribution, BgpRedistributions, ByNumber, Group, MapEntry,
    Mention, Named, Neighbor, OspfRedistribution, Redistribution, RouteMap, RouterText, Settings,
};

/// What a line may name that has to be in its file.
#[derive(Clone, Copy)]
pub(crate) enum NamedKind {
    /// A standard access list.
    AccessList,
    PrefixList,
    CommunityList,
    RouteMap,
}

fn is_standard(kind: AccessListKind) -> bool
    ensures { result ≡ is_standard kind }
{
    match kind {
        AccessListKind::Standard => true,
        AccessListKind::Extended => false,
    }
}

/// Whether the file defines what is of this kind and name.
fn defines(file: &RouterText, kind: NamedKind, name: &Name) -> bool
    ensures { result ≡ defines file.now kind name.now }
{
    match kind {
        NamedKind::AccessList => match file.lists.access_lists.get(name) {
            Some(access_list) => is_standard(access_list.kind),
            None => false,
        },
        NamedKind::PrefixList => file.lists.prefix_lists.get(name).is_some(),
        NamedKind::CommunityList => file.lists.community_lists.get(name).is_some(),
        NamedKind::RouteMap => file.route_maps.get(name).is_some(),
    }
}

/// The lower of two lines, where there are two.
fn lower(line: Option<u64>, other: Option<u64>) -> Option<u64>
    ensures { result ≡ lower line other }
{
    let Some(other) = other else {
        return line;
    };
    match line {
        Some(line) => Some(line.min(other)),
        None => Some(other),
    }
}

/// The line that names something, where it is undefined.
fn line_of(file: &RouterText, kind: NamedKind, mention: &Mention) -> Option<u64>
    ensures { result ≡ least_line file.now ((kind, mention.now) ∷ []) }
{
    if defines(file, kind, &mention.name) {
        None
    } else {
        Some(mention.line)
    }
}

/// The least line that names one of these things of a kind where it is undefined.
fn least_of(file: &RouterText, kind: NamedKind, mentions: &[Mention]) -> Option<u64>
    ensures { result ≡ least_line file.now (of_kind kind mentions.now) }
{
    let mut least = None;
    for mention in mentions {
        least = lower(least, line_of(file, kind, mention));
    }
    least
}

/// The same of the lines of an entry.
fn least_of_entry(file: &RouterText, entry: &MapEntry) -> Option<u64>
    ensures { result ≡ least_line file.now (named_by_entry entry.now) }
{
    let of_access = least_of(file, NamedKind::AccessList, entry.access_lists.as_slice());
    let of_prefix = least_of(file, NamedKind::PrefixList, entry.prefix_lists.as_slice());
    let communities = entry.community_lists.as_slice();
    let of_community = least_of(file, NamedKind::CommunityList, communities);
    lower(lower(of_access, of_prefix), of_community)
}

/// The same of the lines of a route map.
fn least_of_map(file: &RouterText, map: &RouteMap) -> Option<u64>
    ensures { result ≡ least_line file.now (named_by_map map.now) }
{
    let mut least = None;
    for entry in map.entries.iter() {
        least = lower(least, least_of_entry(file, entry));
    }
    least
}

/// The same of the lines of the route map at an index.
fn least_at(file: &RouterText, index: usize) -> Option<u64>
    ensures { result ≡ option_map_or (λ e. least_line file.now (named_by_map e.1)) (slice_get file.now.route_maps index) None }
{
    match file.route_maps.at(index) {
        Some((_, map)) => least_of_map(file, map),
        None => None,
    }
}

/// The same of the lines of all route maps.
fn least_of_maps(file: &RouterText) -> Option<u64>
    ensures { result ≡ least_line file.now (named_by_maps file.now.route_maps) }
{
    let mut least = None;
    for index in 0..file.route_maps.len() {
        least = lower(least, least_at(file, index));
    }
    least
}

/// The same of a `redistribute` line.
fn least_of_redistribution(file: &RouterText, line: &Redistribution) -> Option<u64>
    ensures { result ≡ least_line file.now (named_by_redistribution line.now) }
{
    match &line.route_map {
        Some(mention) => line_of(file, NamedKind::RouteMap, mention),
        None => None,
    }
}

/// The same of some `redistribute` lines.
fn least_of_redistributions(file: &RouterText, lines: &[Redistribution]) -> Option<u64>
    ensures { result ≡ least_line file.now (flat_map named_by_redistribution lines.now) }
{
    let mut least = None;
    for line in lines {
        least = lower(least, least_of_redistribution(file, line));
    }
    least
}

/// The same of the lines of the OSPF process of the file, where there is one.
fn least_of_process(file: &RouterText) -> Option<u64>
    ensures { result ≡ least_line file.now (option_map_or named_by_process file.now.ospf []) }
{
    match &file.ospf {
        Some(process) => least_of_redistributions(file, process.redistributions.as_slice()),
        None => None,
    }
}

/// The same of what may be named once.
fn least_of_mention(file: &RouterText, kind: NamedKind, mention: Option<&Mention>) -> Option<u64>
    ensures { result ≡ least_line file.now (named_once kind (option_copied mention.entry)) }
{
    match mention {
        Some(mention) => line_of(file, kind, mention),
        None => None,
    }
}

/// The same of the lines about a neighbour or a peer group.
fn least_of_settings(file: &RouterText, settings: &Settings) -> Option<u64>
    ensures { result ≡ least_line file.now (named_by_settings settings.now) }
{
    let map_in = least_of_mention(file, NamedKind::RouteMap, settings.map_in.as_ref());
    let map_out = least_of_mention(file, NamedKind::RouteMap, settings.map_out.as_ref());
    let list_in = least_of_mention(file, NamedKind::PrefixList, settings.list_in.as_ref());
    let list_out = least_of_mention(file, NamedKind::PrefixList, settings.list_out.as_ref());
    lower(lower(lower(map_in, map_out), list_in), list_out)
}

/// The same of the lines about all neighbours.
fn least_of_neighbors(file: &RouterText, neighbors: &ByNumber<Neighbor>) -> Option<u64>
    ensures { result ≡ least_line file.now (named_by_neighbors neighbors.now) }
{
    let mut least = None;
    for neighbor in neighbors.iter() {
        least = lower(least, least_of_settings(file, &neighbor.settings));
    }
    least
}

/// The same of the peer group at an index.
fn least_of_group_at(file: &RouterText, groups: &Named<Group>, index: usize) -> Option<u64>
    ensures { result ≡ option_map_or (λ e. least_line file.now (named_by_group e.1)) (slice_get groups.now index) None }
{
    match groups.at(index) {
        Some((_, group)) => least_of_settings(file, &group.settings),
        None => None,
    }
}

/// The same of the lines about all peer groups.
fn least_of_groups(file: &RouterText, groups: &Named<Group>) -> Option<u64>
    ensures { result ≡ least_line file.now (named_by_groups groups.now) }
{
    let mut least = None;
    for index in 0..groups.len() {
        least = lower(least, least_of_group_at(file, groups, index));
    }
    least
}

/// The same of a line that redistributes into BGP, where there is one.
fn least_of_source(file: &RouterText, line: Option<&BgpRedistribution>) -> Option<u64>
    ensures { result ≡ least_line file.now (named_by_source (option_copied line.entry)) }
{
    match line {
        Some(line) => least_of_mention(file, NamedKind::RouteMap, line.route_map.as_ref()),
        None => None,
    }
}

/// The same of the lines that redistribute OSPF into BGP.
fn least_of_ospf(file: &RouterText, lines: &ByNumber<OspfRedistribution>) -> Option<u64>
    ensures { result ≡ least_line file.now (named_by_ospf lines.now) }
{
    let mut least = None;
    for line in lines.iter() {
        let mention = line.redistribution.route_map.as_ref();
        least = lower(least, least_of_mention(file, NamedKind::RouteMap, mention));
    }
    least
}

/// The same of all lines that redistribute into BGP.
fn least_of_sources(file: &RouterText, lines: &BgpRedistributions) -> Option<u64>
    ensures { result ≡ least_line file.now (named_by_sources lines.now) }
{
    let of_connected = least_of_source(file, lines.connected.as_ref());
    let of_static = least_of_source(file, lines.static_routes.as_ref());
    let of_ospf = least_of_ospf(file, &lines.ospf);
    lower(lower(of_connected, of_static), of_ospf)
}

/// The same of the lines of a BGP process.
fn least_of_bgp_process(file: &RouterText, process: &BgpProcess) -> Option<u64>
    ensures { result ≡ least_line file.now (named_by_bgp process.now) }
{
    let of_neighbors = least_of_neighbors(file, &process.neighbors);
    let of_groups = least_of_groups(file, &process.peering.groups);
    let of_sources = least_of_sources(file, &process.redistributions);
    lower(lower(of_neighbors, of_groups), of_sources)
}

/// The same of the lines of the BGP process of the file, where there is one.
fn least_of_bgp(file: &RouterText) -> Option<u64>
    ensures { result ≡ least_line file.now (option_map_or named_by_bgp file.now.bgp []) }
{
    match &file.bgp {
        Some(process) => least_of_bgp_process(file, process),
        None => None,
    }
}

/// The same of the lines of a file's processes.
fn least_of_processes(file: &RouterText) -> Option<u64>
    ensures { result ≡ least_line file.now (named_by_processes file.now) }
{
    lower(least_of_process(file), least_of_bgp(file))
}

/// The least line of a file that names what no line of it defines, or `None` exactly where none does. It takes no memory, and one
/// look-up for each name.
pub(crate) fn undefined_line(file: &RouterText) -> Option<u64>
    ensures { result ≡ undefined_line file.now }
{
    lower(least_of_maps(file), least_of_processes(file))
}
