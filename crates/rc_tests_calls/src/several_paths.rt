//! Several paths of one prefix: with memory enough their places are given.
use rc_as_path::AsPath;
use rc_base::{Addr, Communities, Origin, Prefix, RouterId};
use rc_bgp_decide::multi;
use rc_route::{BgpPath, KeptPath, PathSource};
use std::alloc::Global;
use std::test::Fail;

/// A path of 10.9.1.0/24 from a neighbour in AS 65002, with this next hop, which is the sender's address too.
fn path_over(alloc: Global, next_hop: u32, med: u32) -> Result<KeptPath, Fail> {
    let prefix = Prefix::new(Addr::new(0x0a09_0100), 24).ok_or("a prefix")?;
    let communities = Communities::of(Vec::new(alloc))?;
    let as_path = AsPath::empty().prepend(alloc, 65_002)?;
    let path = BgpPath {
        prefix,
        next_hop: Addr::new(next_hop),
        med,
        local_preference: 100,
        weight: 0,
        sender_id: Addr::new(next_hop),
        neighbor: Addr::new(next_hop),
        igp_metric: 0,
        origin: Origin::Igp,
        source: PathSource::External,
        sender: RouterId::at(0),
        communities,
        as_path,
    };
    Ok(KeptPath::of(alloc, path)?)
}

/// Three equal paths, the best of them last, and one of a greater MED.
fn paths_of(alloc: Global) -> Result<Vec<KeptPath>, Fail> {
    let mut paths = Vec::new(alloc);
    for (next_hop, med) in [(4, 0), (3, 0), (1, 7), (2, 0)] {
        paths.push(path_over(alloc, next_hop, med)?)?;
    }
    Ok(paths)
}

/// Whether just these are the places of up to so many paths.
fn are_chosen(alloc: Global, paths: &[KeptPath], most: usize, places: &[usize]) -> bool {
    if most == 0 {
        return false;
    }
    match multi(alloc, paths, most) {
        Ok(chosen) => chosen.as_slice() == places,
        Err(_) => false,
    }
}

#[test]
fn paths_in_their_turn(rt: HostRuntime) -> Result<(), Fail> {
    let alloc = rt.alloc();
    let paths = paths_of(alloc)?;
    assert!(rt;
        are_chosen(alloc, paths.as_slice(), 1, &[3])
            && are_chosen(alloc, paths.as_slice(), 2, &[3, 1])
            && are_chosen(alloc, paths.as_slice(), 32, &[3, 1, 0])
            && are_chosen(alloc, &[], 32, &[])
    );
    Ok(())
}
