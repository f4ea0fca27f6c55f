//! The value of a tree on a header.
ghost use Rattle.std.specs.Prelude.{◌≡◌};
ghost use Rattle.rc_nodes.specs.Seats.{IsKnown, IsSeatOf, Keeps, SeatKnows};
ghost use Rattle.rc_trees.specs.Trees.{Tree, holds};

use rc_base::{HEADER_BITS, Header, header_bit};
use rc_nodes::{May, Nodes, Ref, Seat};

/// Whether a set holds a header.
pub fn eval<M: May>(nodes: &Nodes<M>, seat: &mut Seat<M>, set: Ref, header: &Header) -> bool
    requires seat { IsSeatOf nodes.now seat.old }
    requires known { IsKnown seat.old set.index }
    ensures seat { IsSeatOf nodes.now seat.new }
    ensures keeps { Keeps seat.old seat.new }
    ensures value { (t : Tree) → SeatKnows seat.old set.index t → result ≡ holds t header.now }
{
    let mut at = set;
    for _step in 0..HEADER_BITS {
        if at.index < 2 {
            break;
        }
        let node = nodes.open(seat, at);
        at = if header_bit(header, node.var) {
            node.hi
        } else {
            node.lo
        };
    }
    at.index == 1
}
