//! What stands behind an outcome and isn't a table: a walk, or the cubes of a set of headers.
ghost use Rattle.std.specs.Prelude.{◌≡◌};
ghost use Rattle.rc_outside.specs.Put.{IsPut};
ghost use Rattle.rc_cubes.specs.Cubes.{cubes};
ghost use Rattle.rc_nodes.specs.Seats.{IsKnown, IsSeatOf, SeatKnows};
ghost use Rattle.rc_report.specs.CubeText.{cubes_text, shown};
ghost use Rattle.rc_report.specs.WalkText.{walk_text};
ghost use Rattle.rc_trees.specs.Trees.{Tree};

use crate::{Buffer, Puts, SinkFault, put_cubes, put_walk};
use rc_base::Items;
use rc_config::Network;
use rc_moves::Walk;
use rc_nodes::{May, Nodes, Ref, Seat};
use rc_outside::Sink;

/// The walk of a packet.
#[derive(Drop)]
pub struct WalkLines<'a> {
    pub net: &'a Network,
    pub walk: Walk,
}

impl<'a> Puts for WalkLines<'a> {
    ghost ready = { λ w. Unit {0} };

    ghost says = { λ w text. text ≡ walk_text w.net.now w.walk };

    fn put<S: Sink>(self, out: &mut S, line: &mut Buffer) -> Result<(), SinkFault> {
        put_walk(out, line, self.net, &self.walk)
    }
}

/// The cubes of a set, or the first alone, and behind the first ones their examples, as many as there are lists of walks.
#[derive(Drop)]
pub struct CubeLines<'a, M: May> {
    pub net: &'a Network,
    pub nodes: Nodes<M>,
    pub seat: Seat<M>,
    pub set: Ref,
    pub only_first: bool,
    pub examples: Vec<Items<Walk>>,
}

impl<'a, M: May> Puts for CubeLines<'a, M> {
    ghost ready = { λ c. IsSeatOf c.nodes c.seat × IsKnown c.seat c.set.index };

    ghost says = { λ c text. (t : Tree) × SeatKnows c.seat c.set.index t × (text ≡ cubes_text c.net.now (shown c.only_first (cubes t)) c.examples.items) };

    fn put<S: Sink>(self, out: &mut S, line: &mut Buffer) -> Result<(), SinkFault> {
        let CubeLines {
            net,
            nodes,
            mut seat,
            set,
            only_first,
            examples,
        } = self;
        put_cubes(
            out,
            line,
            net,
            &nodes,
            &mut seat,
            set,
            only_first,
            examples.as_slice(),
        )
    }
}
