//! What changes from one state to the next in what routers may tell inside of their ASes.
ghost use Rattle.std.specs.Prelude.{◌≡◌, All, IfOk, filter};
ghost use Rattle.rc_bgp.specs.Changes as spec;
ghost use Rattle.rc_bgp.specs.Changes.{AreChanges, AreChangesInside};
ghost use Rattle.rc_route.specs.Tables.{IsBestList, IsRouterState};

use crate::changes::changes_of;
use crate::router_state::paths_of;
use crate::telling::has_internal;
use crate::{Changes, ConfiguredSessions};
use rc_base::{Items, Prefix, RouterId};
use rc_bgp_session::is_internal;
use rc_pieces::{Finder, Knowledge, Listed};
use rc_route::Best;
use std::alloc::{AllocError, Global};

/// Whether internal peers may be told something for a prefix.
fn is_told(paths: &mut Finder<'_, Best>, prefix: &Prefix) -> bool
    requires { IsBestList paths.old }
    ensures value { result ≡ spec.is_told paths.old prefix.now }
    ensures same { paths.new ≡ paths.old }
{
    let found = paths.at(prefix);
    match found {
        Some(best) => !is_internal(best.path.source()),
        None => false,
    }
}

/// Those of some prefixes for which internal peers may be told something of one of two lists of paths.
fn told_by_either(
    alloc: Global,
    old: &Listed<'_, Best>,
    new: &Listed<'_, Best>,
    prefixes: &[Prefix],
) -> Result<Items<Prefix>, AllocError>
    requires old { IsBestList old.now }
    requires new { IsBestList new.now }
    ensures { IfOk result (λ told. told ≡ filter (spec.is_told_by_either old.now new.now) prefixes.now) }
{
    let mut told = Items::new(alloc);
    let mut before = Finder::of(old);
    let mut after = Finder::of(new);
    for prefix in prefixes {
        if is_told(&mut before, prefix) || is_told(&mut after, prefix) {
            told.push(*prefix)?;
        }
    }
    Ok(told)
}

/// Prefixes again.
fn copied(alloc: Global, prefixes: &[Prefix]) -> Result<Items<Prefix>, AllocError>
    ensures { IfOk result (λ copied. copied ≡ prefixes.now) }
{
    let copied = Vec::from_slice(alloc, prefixes)?;
    Ok(Items::from_vec(copied))
}

/// What changed at a router in what its internal peers may be told. Where it has none, all that changed is named: nobody asks for it.
fn changed_inside_at(
    alloc: Global,
    sessions: &ConfiguredSessions,
    changes: &Changes,
    earlier: &Knowledge,
    previous: &Knowledge,
    router: RouterId,
) -> Result<Items<Prefix>, AllocError>
    requires earlier { All IsRouterState earlier.now }
    requires previous { All IsRouterState previous.now }
    ensures { IfOk result (λ changed. changed ≡ spec.changed_inside_at sessions.now changes.now earlier.now previous.now router) }
{
    let changed = changes_of(changes, router);
    if !has_internal(sessions, router) {
        return copied(alloc, changed);
    }
    told_by_either(
        alloc,
        &paths_of(earlier, router),
        &paths_of(previous, router),
        changed,
    )
}

/// What changed at each router in what its internal peers may be told, in order.
fn all_changed_inside(
    alloc: Global,
    sessions: &ConfiguredSessions,
    changes: &Changes,
    earlier: &Knowledge,
    previous: &Knowledge,
) -> Result<Changes, AllocError>
    requires earlier { All IsRouterState earlier.now }
    requires previous { All IsRouterState previous.now }
    ensures { IfOk result (λ inside. inside ≡ spec.changed_inside sessions.now changes.now earlier.now previous.now) }
{
    let mut inside = Items::new(alloc);
    for index in 0..changes.len() {
        let router = RouterId::at(index);
        inside.push(changed_inside_at(alloc, sessions, changes, earlier, previous, router)?)?;
    }
    Ok(inside)
}

/// For each router, in order, the prefixes for which its internal peers may be told other than in the state before: of those whose best
/// path changed, the ones whose path no internal peer told, before or now (RFC 4271 s.9.2.1). It errs only where memory runs out.
pub fn changed_inside(
    alloc: Global,
    sessions: &ConfiguredSessions,
    changes: &Changes,
    earlier: &Knowledge,
    previous: &Knowledge,
) -> Result<Changes, AllocError>
    requires earlier { All IsRouterState earlier.now }
    requires previous { All IsRouterState previous.now }
    requires changes { AreChanges changes.now earlier.now previous.now }
    ensures value { IfOk result (λ inside. inside ≡ spec.changed_inside sessions.now changes.now earlier.now previous.now) }
    ensures covers { IfOk result (λ inside. AreChangesInside inside earlier.now previous.now) }
{
    all_changed_inside(alloc, sessions, changes, earlier, previous)
}
