//! In how large a table access lists are tried first.
//!
//! A table of nodes is dear by its size alone: its memory is taken whole. The usual one is larger than most lists need, and takes longer to
//! make than all else that is done for small ones. So the lists are tried in a table first that fits how many lines they have, and where
//! that is full they are tried again in the one that the words name. Nobody sees the difference: lists have one answer in any table.
ghost use Rattle.std.specs.Prelude.{◌<◌, IfSome};

use rc_base::RouterId;
use rc_config::{Network, RouterText};

/// How many lines the access lists of a router have.
fn lines_in(file: &RouterText) -> usize {
    let lists = &file.lists.access_lists;
    let mut lines: usize = 0;
    for index in 0..lists.len() {
        if let Some((_, list)) = lists.at(index) {
            lines = lines.saturating_add(list.lines.len());
        }
    }
    lines
}

/// How many lines the access lists of one router have, none where there is no such router.
fn lines_at(network: &Network, router: usize) -> usize {
    match network.routers.at(router) {
        Some((_, file)) => lines_in(file),
        None => 0,
    }
}

/// How many lines the access lists of all routers have.
fn lines_of_all(network: &Network) -> usize {
    let mut lines: usize = 0;
    for router in 0..network.routers.len() {
        lines = lines.saturating_add(lines_at(network, router));
    }
    lines
}

/// How many lines the access lists have that are asked about.
fn lines_asked(network: &Network, router: &Option<RouterId>) -> usize {
    match router {
        Some(router) => lines_at(network, router.index()),
        None => lines_of_all(network),
    }
}

/// How many nodes the table of a first try has room for, by how many lines there are: a line makes some 100, and up to 320 where it tests
/// ranges of ports, fewer the more lines there are. For more lines there is no first try: they take longer than the usual table does, and
/// the larger a table is, the longer it takes until it is found full.
fn room_by_lines(lines: usize) -> Option<u32>
    ensures { IfSome result (λ room. 0 < room) }
{
    if lines <= 64 {
        Some(65_536)
    } else if lines <= 256 {
        Some(131_072)
    } else if lines <= 1_024 {
        Some(262_144)
    } else {
        None
    }
}

/// How many nodes the table of a first try has room for, where there is one: fewer than are allowed.
pub fn first_room(network: &Network, router: &Option<RouterId>, allowed: u32) -> Option<u32>
    ensures some { IfSome result (λ room. 0 < room) }
    ensures below { IfSome result (λ room. room < allowed) }
{
    match room_by_lines(lines_asked(network, router)) {
        Some(few) if few < allowed => Some(few),
        _ => None,
    }
}
