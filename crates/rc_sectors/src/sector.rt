//! What a set is in a sector.
ghost use Rattle.std.specs.Prelude.{◌≡◌, ◌≤◌, length, take};
ghost use Rattle.rc_base.specs.Header.{bit_count};
ghost use Rattle.rc_nodes.specs.Seats.{IsKnown, IsSeatOf, Keeps, SeatKnows};
ghost use Rattle.rc_sectors.specs.Sectors.{within};
ghost use Rattle.rc_trees.specs.Trees.{Tree};

use rc_bdd::Work;
use rc_nodes::{May, NEVER, Nodes, Ref};

/// What a set is in a sector: the set of what may stand behind the sector's bits, which are the first ones of a header.
pub fn set_in<M: May>(work: &mut Work<M>, nodes: &Nodes<M>, set: Ref, sector: &[bool]) -> Ref
    requires seat { IsSeatOf nodes.now work.old }
    requires known { IsKnown work.old set.index }
    requires short { length sector.now ≤ bit_count }
    ensures seat { IsSeatOf nodes.now work.new }
    ensures keeps { Keeps work.old work.new }
    ensures within { (t : Tree) → SeatKnows work.old set.index t → SeatKnows work.new result.index (within sector.now t) }
{
    let mut set = set;
    for bit in 0..sector.len() {
        if set == NEVER {
            return NEVER;
        }
        set = work.side(nodes, set, bit as u8, sector[bit]);
    }
    set
}
