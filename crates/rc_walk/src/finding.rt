//! Shortest walks.
ghost use Rattle.std.specs.Prelude.{IfOk, MatchOption};
ghost use Rattle.rc_walk.specs.ShortestWalks.{IsShortestWalk, NoWalkEnds};

use crate::goal::Goal;
use crate::search::{Seeking, Sought, seek};
use crate::way::Way;
use rc_base::{Ends, Header, Items, Pos};
use rc_moves::{Move, Plane, Stop, Walk};
use std::alloc::{AllocError, Global};

/// The shortest walk of a packet from a position to an ending that is asked for: of as many choices among the moves the walk
/// whose choices come first. `None` exactly where no walk has such an ending. It errs only where memory runs out.
pub fn shortest(
    alloc: Global,
    plane: &Plane<'_>,
    position: Pos,
    header: &Header,
    ends: Ends,
) -> Result<Option<Walk>, AllocError>
    ensures { IfOk result (λ walk. MatchOption walk (NoWalkEnds plane.now header.now ends position) (IsShortestWalk plane.now header.now ends position)) }
{
    let seeking = Seeking {
        plane: &*plane,
        header: *header,
        start: position,
        goal: Goal::Ending(ends),
    };
    let Sought { search, end } = seek(alloc, &seeking)?;
    let Some(end) = end else {
        return Ok(None);
    };
    let Move::End(kind) = end.met.last else {
        return Ok(None);
    };
    let Way {
        positions,
        choices: _,
    } = search.way_to(alloc, end.place)?;
    Ok(Some(Walk {
        positions: Items::from_vec(positions),
        stop: Stop::At(kind),
    }))
}
