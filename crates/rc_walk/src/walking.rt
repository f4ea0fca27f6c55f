//! First walks.
ghost use Rattle.std.specs.Prelude.{◌≡◌, IfOk, Some};
ghost use Rattle.rc_walk.specs.FirstWalks.{IsFirstWalk, first_move};

use crate::walked::Walked;
use rc_base::{Header, Pos};
use rc_moves::{Move, Plane, Stop, Walk, step};
use std::alloc::{AllocError, Global};

/// The first move of a packet at a position: there is one, since each hop says where a packet goes.
fn first_move(plane: &Plane<'_>, position: &Pos, header: &Header) -> Move
    ensures { first_move plane.now header.now position.now ≡ Some result }
{
    // For the proof: the tables tell that each hop says where a packet goes.
    let _fibs = plane.fibs();
    let mut steps = step(plane, *position, header);
    steps.next().unwrap()
}

/// The first walk of a packet from a position: the first move each time, no position twice, to its ending or up to the first
/// repeat. It errs only where memory runs out.
pub fn trace(
    alloc: Global,
    plane: &Plane<'_>,
    position: Pos,
    header: &Header,
) -> Result<Walk, AllocError>
    ensures { IfOk result (λ w. IsFirstWalk plane.now header.now position w) }
{
    let mut walked = Walked::from(alloc, &position)?;
    let mut here = position;
    loop {
        let first = first_move(plane, &here, header);
        match first {
            Move::End(kind) => return walked.walk(alloc, Stop::At(kind)),
            Move::Next(next) => {
                if !walked.put(&next)? {
                    return walked.walk(alloc, Stop::Loop);
                }
                here = next;
            }
        }
    }
}
