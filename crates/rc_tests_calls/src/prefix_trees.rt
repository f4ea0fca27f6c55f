//! The longest prefix of a tree that holds an address.
use rc_base::{Addr, Prefix};
use rc_trie::PrefixTree;
use std::alloc::Global;
use std::test::Fail;

fn prefix(bits: u32, len: u8) -> Result<Prefix, Fail> {
    Ok(Prefix::new(Addr::new(bits), len).ok_or("a prefix")?)
}

/// The default route, 10.0.0.0/8 and 10.0.0.0/24, each with its length as its value, and not in their order.
fn tree(alloc: Global) -> Result<PrefixTree, Fail> {
    let mut tree = PrefixTree::new(alloc);
    tree.insert(prefix(0x0a00_0000, 24)?, 24)?;
    tree.insert(prefix(0, 0)?, 0)?;
    tree.insert(prefix(0x0a00_0000, 8)?, 8)?;
    Ok(tree)
}

/// Whether the longest prefix that holds an address has this length and this value.
fn leads(tree: &PrefixTree, addr: u32, len: u8, value: usize) -> bool {
    match tree.longest(Addr::new(addr)) {
        Some((prefix, found)) => prefix.len() == len && found == value,
        None => false,
    }
}

#[test]
fn the_longest_prefix_that_holds_an_address(rt: HostRuntime) -> Result<(), Fail> {
    let tree = tree(rt.alloc())?;
    assert!(rt;
        leads(&tree, 0x0a00_0009, 24, 24)
            && leads(&tree, 0x0a00_0100, 8, 8)
            && leads(&tree, 0x0a01_0000, 8, 8)
            && leads(&tree, 0x0b00_0000, 0, 0)
    );
    Ok(())
}

#[test]
fn the_empty_tree_holds_no_address(rt: HostRuntime) {
    let tree = PrefixTree::new(rt.alloc());
    assert!(rt; tree.longest(Addr::new(0x0a00_0009)).is_none());
}

/// Also where the prefix is written with bits behind its length.
#[test]
fn a_value_in_place_of_another(rt: HostRuntime) -> Result<(), Fail> {
    let mut tree = tree(rt.alloc())?;
    tree.insert(prefix(0x0a01_0203, 8)?, 7)?;
    assert!(rt; leads(&tree, 0x0a01_0000, 8, 7) && leads(&tree, 0x0a00_0009, 24, 24));
    Ok(())
}
