//! A memo of operations, direct-mapped and lossy: an operation has one place, and what was noted there before is forgotten.
ghost use Rattle.std.specs.Prelude.{◌≡◌, IfOk, MatchOption};
ghost use Rattle.std.specs.List.{All};
ghost use Rattle.rc_bdd.specs.Work.{IsRight};
ghost use Rattle.rc_nodes.specs.Seats.{SeatView};

use crate::operation::Operation;
use rc_nodes::{NEVER, Ref};
use std::alloc::{AllocError, Global};

/// How many bits number the places of a memo: it fits beside what else is at hand, and one of four or sixteen times as many finds little more.
const PLACE_BITS: u32 = 12;

/// How many operations a memo notes.
pub const PLACES: usize = 1 << PLACE_BITS;

/// An operation that was done.
#[derive(Clone, Copy)]
pub struct Noted {
    pub operation: Operation,
    pub left: Ref,
    pub right: Ref,
    pub result: Ref,
}

/// A memo of so many notes that nothing and nothing is nothing.
pub fn memo_of(alloc: Global, size: usize) -> Result<Vec<Noted>, AllocError>
    ensures { IfOk result (λ memo. (seat : SeatView) → All (IsRight seat) memo.items) }
{
    let nothing = Noted {
        operation: Operation::And,
        left: NEVER,
        right: NEVER,
        result: NEVER,
    };
    let memo = vec![in alloc; nothing; size]?;
    Ok(memo)
}

/// The result of a note, where it is of this operation on these two. The two are looked at first: they tell most notes apart, while the
/// operation is the same in a third of the looks or more, which a processor guesses badly.
pub fn result_of(noted: Noted, operation: Operation, left: Ref, right: Ref) -> Option<Ref>
    ensures { MatchOption result Unit (λ r. (noted.operation ≡ operation) × (noted.left.index ≡ left.index) × (noted.right.index ≡ right.index) × (noted.result ≡ r)) }
{
    if noted.left == left && noted.right == right && noted.operation == operation {
        Some(noted.result)
    } else {
        None
    }
}

/// The place of an operation: the high bits of a product that mixes all that it depends on.
pub fn place_of(operation: Operation, left: Ref, right: Ref) -> usize {
    let kind = match operation {
        Operation::And => 1u64,
        Operation::Or => 2,
        Operation::Minus => 3,
    };
    let mixed = (u64::from(left.index) << 32 | u64::from(right.index))
        .wrapping_mul(0x9E37_79B9_7F4A_7C15)
        .wrapping_add(kind)
        .wrapping_mul(0xD1B5_4A32_D192_ED03);
    (mixed >> (64 - PLACE_BITS)) as usize
}
