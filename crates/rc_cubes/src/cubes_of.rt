//! The cubes of a set, one after another.
ghost use Rattle.std.specs.Prelude.{◌≡◌, ℕ, ◌+◌, ◌<◌, ◌≤◌, None, OnSome, slice_get};
ghost use Rattle.std.specs.Option.{option_map};
ghost use Rattle.rc_base.specs.Header.{bit_count};
ghost use Rattle.rc_trees.specs.Trees.{Tree};
ghost use Rattle.rc_nodes.specs.Seats.{IsKnown, IsSeatOf, Keeps, SeatKnows};
ghost use Rattle.rc_bdd.specs.Work.{IsFrom};
ghost use Rattle.rc_cubes.specs.Count.{cubes_left};
ghost use Rattle.rc_cubes.specs.Cubes.{with_test, cubes, later, left, Goes, IsOpened};

use crate::Cube;
use rc_base::header_bit;
use rc_nodes::{May, Node, Nodes, Ref, Seat};

/// The cubes of a set that are left: those behind the last one, or all of them. It takes no memory.
#[derive(Drop)]
pub struct Cubes {
    pub set: Ref,
    pub last: Option<Cube>,
}

/// A cube, if there is one, that tests one bit more.
fn with_test(cube: Option<Cube>, place: u8, bit: bool) -> Option<Cube>
    requires { place < bit_count }
    ensures { result ≡ option_map (with_test place bit) cube }
{
    match cube {
        Some(cube) => Some(cube.with_test(place, bit)),
        None => None,
    }
}

/// The node of a set that is no constant and tests no bit before `from`; its sides test none up to its own.
fn node_of<M: May>(nodes: &Nodes<M>, seat: &mut Seat<M>, from: u8, set: Ref) -> Node
    requires seat { IsSeatOf nodes.now seat.old }
    requires known { IsKnown seat.old set.index }
    requires node { 2 ≤ set.index }
    requires from { IsFrom seat.old from set.index }
    ensures seat { IsSeatOf nodes.now seat.new }
    ensures keeps { Keeps seat.old seat.new }
    ensures bit { (from ≤ result.var) × (result.var < bit_count) }
    ensures low { IsKnown seat.new result.lo.index × IsFrom seat.new (result.var + 1) result.lo.index }
    ensures high { IsKnown seat.new result.hi.index × IsFrom seat.new (result.var + 1) result.hi.index }
    ensures opened { (t : Tree) → SeatKnows seat.old set.index t → IsOpened seat.new result t }
{
    nodes.open(seat, set)
}

/// The first cube of a set that tests no bit before `from`.
fn first<M: May>(nodes: &Nodes<M>, seat: &mut Seat<M>, from: u8, set: Ref) -> Option<Cube>
    requires seat { IsSeatOf nodes.now seat.old }
    requires known { IsKnown seat.old set.index }
    requires from { IsFrom seat.old from set.index }
    ensures seat { IsSeatOf nodes.now seat.new }
    ensures keeps { Keeps seat.old seat.new }
    ensures first { (t : Tree) → SeatKnows seat.old set.index t → result ≡ slice_get (cubes t) 0 }
{
    if set.index == 0 {
        return None;
    }
    if set.index == 1 {
        return Some(Cube::all());
    }
    let node = node_of(nodes, seat, from, set);
    let next = node.var + 1;
    let low = first(nodes, seat, next, node.lo);
    match low {
        Some(cube) => Some(cube.with_test(node.var, false)),
        None => {
            let high = first(nodes, seat, next, node.hi);
            with_test(high, node.var, true)
        }
    }
}

/// The first cube behind another one, of a set that tests no bit before `from`.
fn later<M: May>(
    nodes: &Nodes<M>,
    seat: &mut Seat<M>,
    from: u8,
    set: Ref,
    last: &Cube,
) -> Option<Cube>
    requires seat { IsSeatOf nodes.now seat.old }
    requires known { IsKnown seat.old set.index }
    requires from { IsFrom seat.old from set.index }
    ensures seat { IsSeatOf nodes.now seat.new }
    ensures keeps { Keeps seat.old seat.new }
    ensures later { (t : Tree) → SeatKnows seat.old set.index t → result ≡ slice_get (later last.now t) 0 }
{
    if set.index < 2 {
        return None;
    }
    let node = node_of(nodes, seat, from, set);
    let next = node.var + 1;
    if header_bit(&last.value, node.var) {
        let high = later(nodes, seat, next, node.hi, last);
        return with_test(high, node.var, true);
    }
    let low = later(nodes, seat, next, node.lo, last);
    match low {
        Some(cube) => Some(cube.with_test(node.var, false)),
        None => {
            let high = first(nodes, seat, next, node.hi);
            with_test(high, node.var, true)
        }
    }
}

/// The first cube behind the last one, if there was one.
fn behind<M: May>(
    nodes: &Nodes<M>,
    seat: &mut Seat<M>,
    set: Ref,
    last: &Option<Cube>,
) -> Option<Cube>
    requires seat { IsSeatOf nodes.now seat.old }
    requires known { IsKnown seat.old set.index }
    ensures seat { IsSeatOf nodes.now seat.new }
    ensures keeps { Keeps seat.old seat.new }
    ensures behind { (t : Tree) → SeatKnows seat.old set.index t → result ≡ slice_get (left last.now t) 0 }
{
    match last {
        Some(last) => later(nodes, seat, 0, set, last),
        None => first(nodes, seat, 0, set),
    }
}

impl Cubes {
    /// All cubes of a set.
    pub fn new(set: Ref) -> Cubes
        ensures set { result.set ≡ set }
        ensures all { result.last ≡ None }
    {
        Cubes { set, last: None }
    }

    /// The next cube, or `None` exactly at the end, and from then on.
    pub fn next<M: May>(&mut self, nodes: &Nodes<M>, seat: &mut Seat<M>) -> Option<Cube>
        requires seat { IsSeatOf nodes.now seat.old }
        requires known { IsKnown seat.old self.old.set.index }
        ensures seat { IsSeatOf nodes.now seat.new }
        ensures keeps { Keeps seat.old seat.new }
        ensures set { self.new.set ≡ self.old.set }
        ensures next { (t : Tree) → SeatKnows seat.old self.old.set.index t → Goes (left self.old.last t) result (left self.new.last t) }
        ensures fewer { OnSome result (cubes_left seat.new self.new < cubes_left seat.old self.old) }
    {
        match behind(nodes, seat, self.set, &self.last) {
            Some(cube) => {
                self.last = Some(cube.copy());
                Some(cube)
            }
            None => None,
        }
    }
}
