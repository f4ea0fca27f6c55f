//! In how large a table a set is tried first.
//!
//! A table of nodes is dear by its size alone: its memory is taken whole, and nodes stand in it far apart. The usual one is larger than most
//! networks need, and takes longer to make than all else that is done for a small one. So a set is tried in a table first that fits the
//! size of the network, and where that is full it is made again in the one that the words name. Nobody sees the difference: a
//! set is one in any table, and each worker passes the gate once in each phase.
ghost use Rattle.std.specs.Prelude.{◌<◌, IfSome};
ghost use Rattle.rc_reach.specs.FirstTry.{IsFirstRoom};

use crate::asked::Asked;
use rc_config::{Network, RouterText};
use rc_outside::Gate;
use std::sync::atomic::{AtomicU32, Ordering};

/// As how many routes a line of an access list counts: it makes about as many nodes.
const ROUTES_A_LINE: usize = 64;

/// How many nodes there is room for in a first try for each interface.
const NODES_AN_INTERFACE: usize = 200;

/// For how many nodes a first try may have room. Its memory is taken twice for a moment, so large ones come in smaller steps.
static ROOMS: [u32; 10] = [
    65_536, 131_072, 262_144, 458_752, 524_288, 917_504, 1_048_576, 1_835_008, 2_097_152, 4_194_304,
];

/// As how many routes a route counts in a question about loops: its sets change at nearly every position in each round.
const ROUTES_IN_LOOPS: usize = 16;

/// How many lines the access lists of a router have.
fn lines_in(file: &RouterText) -> usize {
    let lists = &file.lists.access_lists;
    let mut lines: usize = 0;
    for index in 0..lists.len() {
        if let Some((_, list)) = lists.at(index) {
            lines = lines.saturating_add(list.lines.len());
        }
    }
    lines
}

/// How many routes a network with so many in its tables has, where each line of an access list counts as some.
fn size_of(net: &Network, routes: usize) -> usize {
    let mut size = routes;
    for index in 0..net.routers.len() {
        if let Some((_, file)) = net.routers.at(index) {
            size = size.saturating_add(lines_in(file).saturating_mul(ROUTES_A_LINE));
        }
    }
    size
}

/// As large as how many routes a question is, about a network that is as large as so many.
fn size_asked(asked: &Asked, size: usize) -> usize {
    match asked {
        Asked::Reaching(_, _) => size,
        Asked::Looping(_) => size.saturating_mul(ROUTES_IN_LOOPS),
        Asked::Uneven(_) => size,
    }
}

/// How many interfaces the routers of a network declare.
fn interfaces_in(net: &Network) -> usize {
    let mut interfaces: usize = 0;
    for index in 0..net.routers.len() {
        if let Some((_, file)) = net.routers.at(index) {
            interfaces = interfaces.saturating_add(file.interfaces.len());
        }
    }
    interfaces
}

/// How many nodes the table of a first try has room for, by how many routes a network is as large as. The nodes grow slower than the
/// routes, since the tables of neighbours are alike.
fn room_by_routes(size: usize) -> Option<u32>
    ensures { IfSome result (λ room. 0 < room) }
{
    if size <= 16_384 {
        Some(65_536)
    } else if size <= 65_536 {
        Some(131_072)
    } else if size <= 262_144 {
        Some(262_144)
    } else if size <= 655_360 {
        Some(458_752)
    } else if size <= 1_048_576 {
        Some(524_288)
    } else {
        None
    }
}

/// How many nodes it has room for, by how many interfaces the routers have, where these are not too many: an interface makes some 150, of
/// its addresses and of who is behind it, and a table that is more than three quarters full takes long.
fn room_by_interfaces(interfaces: usize) -> Option<u32>
    ensures { IfSome result (λ room. 0 < room) }
{
    ROOMS
        .iter()
        .find(|room| interfaces.saturating_mul(NODES_AN_INTERFACE) <= **room as usize)
        .copied()
}

/// The larger of both rooms, where there are both.
fn larger(one: Option<u32>, other: Option<u32>) -> Option<u32>
    requires { IfSome one (λ room. 0 < room) }
    ensures { IfSome result (λ room. 0 < room) }
{
    let one = one?;
    let other = other?;
    Some(one.max(other))
}

/// How many nodes the table of a first try has room for, where there is one: fewer than are allowed. The tables of the network have so many
/// routes.
pub fn first_room(net: &Network, routes: usize, asked: &Asked, allowed: u32) -> Option<u32>
    ensures { IfSome result (IsFirstRoom allowed) }
{
    let by_routes = room_by_routes(size_asked(asked, size_of(net, routes)));
    let by_interfaces = room_by_interfaces(interfaces_in(net));
    match larger(by_routes, by_interfaces) {
        Some(few) if few < allowed => Some(few),
        _ => None,
    }
}

/// A gate that is passed only beyond a phase: what was passed in a first try isn't passed again in the second.
#[derive(Drop)]
pub(crate) struct Onward<'a, G> {
    gate: &'a G,
    beyond: u32,
    /// The last phase in which it was passed.
    last: AtomicU32,
}

impl<'a, G: Gate> Onward<'a, G> {
    /// For a first try.
    pub fn first(gate: &'a G) -> Onward<'a, G> {
        Onward {
            gate,
            beyond: 0,
            last: AtomicU32::new(0),
        }
    }

    /// For the try after this one.
    pub fn second(&self) -> Onward<'a, G> {
        Onward {
            gate: self.gate,
            beyond: self.last.load(Ordering::SeqCst),
            last: AtomicU32::new(0),
        }
    }
}

impl<'a, G: Gate> Gate for Onward<'a, G> {
    fn pass(&self, phase: u32, worker: u32) {
        if phase > self.beyond {
            self.last.store(phase, Ordering::SeqCst);
            self.gate.pass(phase, worker);
        }
    }
}
