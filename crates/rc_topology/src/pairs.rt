//! All pairs of interfaces that share a link.
ghost use Rattle.std.specs.Prelude.{◌≡◌, ◌++◌, IfOk, OnOk};
ghost use Rattle.std.specs.List.{flat_map};
ghost use Rattle.rc_topology.specs.Links as spec;

use crate::Links;
use crate::order::is_before;
use rc_base::{IfId, Items, RouterId};
use rc_config::Pair;
use std::alloc::{AllocError, Global};

/// Appends the interfaces of a router.
fn add_router(all: &mut Items<IfId>, links: &Links, router: RouterId) -> Result<(), AllocError>
    ensures { OnOk result (all.new ≡ all.old ++ spec.ids_of links.now router) }
{
    for index in 0..links.ports(router).len() {
        all.push(IfId { router, index })?;
    }
    Ok(())
}

/// All interfaces, in position order.
fn all_ids(alloc: Global, links: &Links) -> Result<Items<IfId>, AllocError>
    ensures { IfOk result (λ all. all ≡ spec.all_ids links.now) }
{
    let mut all = Items::new(alloc);
    for router in 0..links.routers() {
        add_router(&mut all, links, RouterId::at(router))?;
    }
    Ok(all)
}

/// Appends the pairs of an interface with those behind it.
fn add_pairs(all: &mut Items<Pair>, links: &Links, first: IfId) -> Result<(), AllocError>
    ensures { OnOk result (all.new ≡ all.old ++ spec.pairs_from links.now first) }
{
    for second in links.linked(first) {
        if is_before(&first, &second) {
            all.push(Pair { first, second })?;
        }
    }
    Ok(())
}

/// Appends those of each of some interfaces.
fn add_all(all: &mut Items<Pair>, links: &Links, ids: &[IfId]) -> Result<(), AllocError>
    ensures { OnOk result (all.new ≡ all.old ++ flat_map (spec.pairs_from links.now) ids.now) }
{
    for first in ids {
        add_pairs(all, links, *first)?;
    }
    Ok(())
}

/// The pairs of each interface with those behind it.
pub(crate) fn pairs_of(alloc: Global, links: &Links) -> Result<Items<Pair>, AllocError>
    ensures { IfOk result (λ all. all ≡ spec.pairs links.now) }
{
    let ids = all_ids(alloc, links)?;
    let mut all = Items::new(alloc);
    add_all(&mut all, links, ids.as_slice())?;
    Ok(all)
}
