//! Orders of names and of names of files, lists by vectors, and positions.
use rc_base::{FileName, Items, Name, Pos, RouterId};
use std::alloc::{AllocError, Global};
use std::test::Fail;

#[test]
fn names_in_byte_order(rt: HostRuntime) {
    let short = Name::new(b"R").expect(&rt, "R");
    let long = Name::new(b"R1").expect(&rt, "R1");
    assert!(rt; short < long && short != long && long.as_bytes() == b"R1".as_slice());
}

/// Whether it is a list of one router, and its copy too.
fn is_one_router(alloc: Global, items: &Items<RouterId>) -> Result<bool, AllocError> {
    let copied = items.copy(alloc)?;
    Ok(items.len() == 1 && items.as_slice() == [RouterId::at(7)].as_slice() && copied == *items)
}

#[test]
fn lists_by_vectors(rt: HostRuntime) -> Result<(), Fail> {
    let mut items = Items::new(rt.alloc());
    assert!(rt; items.is_empty());
    items.push(RouterId::at(7))?;
    let same = Items::from_vec(items.into_vec());
    assert!(rt; is_one_router(rt.alloc(), &same)?);
    Ok(())
}

/// Whether the first of two names of files comes before the second.
fn is_before(alloc: Global, first: &str, second: &str) -> Result<bool, AllocError> {
    let first = FileName::new(String::from_str(alloc, first)?);
    let second = FileName::new(String::from_str(alloc, second)?);
    Ok(first < second)
}

#[test]
fn positions_and_names_of_files(rt: HostRuntime) -> Result<(), Fail> {
    assert!(rt; Pos::Own(RouterId::at(0)) != Pos::Own(RouterId::at(1)));
    assert!(rt; is_before(rt.alloc(), "B.cfg", "a.cfg")?);
    Ok(())
}
