//! AS paths longer than a stack, and about as long as one segment or two.
use rc_as_path::AsPath;
use std::alloc::{AllocError, Global};
use std::test::Fail;

/// A path of so many numbers.
fn long_path(alloc: Global, numbers: u32) -> Result<AsPath, AllocError> {
    let mut path = AsPath::empty();
    for number in 0..numbers {
        path = path.prepend(alloc, number)?;
    }
    Ok(path)
}

/// Whether each of two paths is equal to the other, and they hold so many numbers.
fn are_long(one: &AsPath, other: &AsPath, numbers: u32) -> bool {
    one == other && other == one && !one.holds(numbers) && one.len() == numbers as usize
}

/// More numbers than a stack would hold calls: none of these calls itself for each number.
#[test]
fn a_long_path_is_compared_and_dropped(rt: HostRuntime) -> Result<(), Fail> {
    let one = long_path(rt.alloc(), 1_000_000)?;
    let other = long_path(rt.alloc(), 1_000_000)?;
    assert!(rt; are_long(&one, &other, 1_000_000));
    Ok(())
}

/// A number that isn't on these paths.
const ELSEWHERE: u32 = 4_000_000;

/// Whether a path of one number more than so many has these, and is told from one that begins otherwise and from one that lacks the
/// nearest.
fn is_told_apart(alloc: Global, behind: u32) -> Result<bool, AllocError> {
    let shorter = long_path(alloc, behind)?;
    let path = shorter.prepend(alloc, behind)?;
    let same = long_path(alloc, behind)?.prepend(alloc, behind)?;
    let other = shorter.prepend(alloc, ELSEWHERE)?;
    Ok(
        path == same
            && path != other
            && path != shorter
            && path.first() == Some(behind)
            && path.holds(0)
            && path.holds(behind)
            && !path.holds(ELSEWHERE)
            && other.holds(ELSEWHERE),
    )
}

/// Where a path is cut into segments of 16 numbers.
#[test]
fn paths_about_a_segment_are_told_apart(rt: HostRuntime) -> Result<(), Fail> {
    for behind in [0, 1, 14, 15, 16, 30, 31, 32, 47, 48] {
        assert!(rt; is_told_apart(rt.alloc(), behind)?);
    }
    Ok(())
}
