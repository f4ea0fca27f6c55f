//! The lines of access lists that never decide are told router by router.
ghost use Rattle.std.specs.Prelude.{◌≡◌, ◌∷◌, ◌++◌, ◌<◌, ◌≤◌, ℕ, List, None, Some, IfOk, IfErr, IfSome, slice_get};
ghost use Rattle.rc_bdd.specs.declared.work.SetError.TheVariants.{Full};
ghost use Rattle.rc_config.specs.declared.access_list.AccessList.{AccessList};
ghost use Rattle.rc_sets.specs.LinesQuery.{access_lists_at, asked_lists, idle_in};
ghost use Rattle.rc_idle.specs.Told.{AreIdleIn, AreTold, AreTooFewForLists, IsListTold, IsRouterTold};

use crate::found::idle_found;
use rc_base::{Items, RouterId};
use rc_bdd::SetError;
use rc_config::{AccessList, Named, Network};
use rc_report::{ListIdle, RouterIdle};
use rc_sets::Idle;
use std::alloc::{AllocError, AllocGlobal, Global};
use std::collections::VecDeque;
use std::thread::Threads;

/// The list at an index with its idle lines, which stand in front of those that are left. There are always such.
fn list_told(lists: &Named<AccessList>, index: usize, left: &mut VecDeque<Idle>) -> Option<ListIdle>
    ensures { IfSome result (λ told. (list : AccessList) × (slice_get lists.now index ≡ Some (told.name, list)) × (left.old.items ≡ told.idle ∷ left.new.items)) }
{
    let (name, _) = lists.at(index)?;
    let idle = left.pop_front()?;
    Some(ListIdle { name: *name, idle })
}

/// The lists of a router with their idle lines, which stand in front of those that are left.
fn lists_told(
    alloc: Global,
    lists: &Named<AccessList>,
    left: &mut VecDeque<Idle>,
) -> Result<Items<ListIdle>, AllocError>
    ensures { IfOk result (λ told. (behind : List (List ℕ × AccessList)) → left.old.items ≡ idle_in (lists.now ++ behind) → AreTold IsListTold lists.now told × (left.new.items ≡ idle_in behind)) }
{
    let mut told = Items::new(alloc);
    for index in 0..lists.len() {
        let Some(list) = list_told(lists, index, left) else {
            return Err(AllocError);
        };
        told.push(list)?;
    }
    Ok(told)
}

/// A router with its lists.
fn router_told(
    alloc: Global,
    network: &Network,
    router: RouterId,
    left: &mut VecDeque<Idle>,
) -> Result<RouterIdle, AllocError>
    ensures { IfOk result (λ told. (behind : List (List ℕ × AccessList)) → left.old.items ≡ idle_in (access_lists_at network.now router ++ behind) → IsRouterTold network.now router told × (left.new.items ≡ idle_in behind)) }
{
    let Some((name, text)) = network.routers.at(router.index()) else {
        return Err(AllocError);
    };
    let lists = lists_told(alloc, &text.lists.access_lists, left)?;
    Ok(RouterIdle {
        router: *name,
        lists,
    })
}

/// All routers with their lists.
fn all_told(
    alloc: Global,
    network: &Network,
    idle: VecDeque<Idle>,
) -> Result<Items<RouterIdle>, AllocError>
    requires { idle.items ≡ idle_in (asked_lists network.now None) }
    ensures { IfOk result (AreIdleIn network.now None) }
{
    let mut left = idle;
    let mut told = Items::new(alloc);
    for index in 0..network.routers.len() {
        let router = router_told(alloc, network, RouterId::at(index), &mut left)?;
        told.push(router)?;
    }
    Ok(told)
}

/// One router with its lists.
fn one_told(
    alloc: Global,
    network: &Network,
    router: RouterId,
    idle: VecDeque<Idle>,
) -> Result<Items<RouterIdle>, AllocError>
    requires { idle.items ≡ idle_in (asked_lists network.now (Some router)) }
    ensures { IfOk result (AreIdleIn network.now (Some router)) }
{
    let mut left = idle;
    let mut told = Items::new(alloc);
    told.push(router_told(alloc, network, router, &mut left)?)?;
    Ok(told)
}

/// The idle lines router by router.
fn routers_told(
    alloc: Global,
    network: &Network,
    router: &Option<RouterId>,
    idle: Items<Idle>,
) -> Result<Items<RouterIdle>, AllocError>
    requires { idle ≡ idle_in (asked_lists network.now router.now) }
    ensures { IfOk result (AreIdleIn network.now router.now) }
{
    let idle = VecDeque::from(idle.into_vec());
    match router {
        None => all_told(alloc, network, idle),
        Some(router) => one_told(alloc, network, *router, idle),
    }
}

/// Which lines of the access lists of a router, or of all, never decide, router by router.
///
/// The largest table of nodes has room for `most`, at most 16,777,216, and from 1 to 64 workers share the lists. It errs with Full only where the
/// operations on these lists have more different trees than that.
pub fn idle_told<R: Threads + Sync + AllocGlobal>(
    rt: &R,
    network: &Network,
    router: &Option<RouterId>,
    most: u32,
    workers: u32,
) -> Result<Items<RouterIdle>, SetError>
    requires low { 0 < most }
    requires high { most ≤ 16777216 }
    requires some_workers { 1 ≤ workers }
    requires few_workers { workers ≤ 64 }
    ensures told { IfOk result (AreIdleIn network.now router.now) }
    ensures full { IfErr result (λ e. e ≡ Full → AreTooFewForLists most network.now router.now) }
{
    let idle = match idle_found(rt, network, router, most, workers) {
        Ok(idle) => idle,
        Err(error) => return Err(error),
    };
    match routers_told(rt.alloc(), network, router, idle) {
        Ok(told) => Ok(told),
        Err(_) => Err(SetError::Memory),
    }
}
