//! Who knows the same in two states.
ghost use Rattle.std.specs.Prelude.{◌≡◌, ◌↔◌, IsTrue, List, Some, length, slice_get, true};
ghost use Rattle.std.specs.Option.{option_copied};
ghost use Rattle.rc_reads.specs.Stayed.{AreFlagged, BoundariesAreFlagged, HaveStayed};
ghost use Rattle.rc_ospf.specs.Boundaries as boundary;
ghost use Rattle.rc_route.specs.declared.state.RouterState.{RouterState};

use crate::reading::is_boundary;
use crate::same::is_same_at;
use rc_base::{Items, RouterId};
use rc_config::Network;
use rc_pieces::Knowledge;

/// Who knows the same in two states: the one after a round, and the one before it.
#[derive(Drop)]
pub struct Stayed {
    /// A flag for each router, which is set only where both states tell the same of it.
    pub routers: Items<bool>,
    /// It is set only where both states tell the same of each AS boundary router.
    pub boundaries: bool,
}

/// The flag of a router, or `None` exactly past the end.
fn flag_at(flags: &[bool], router: RouterId) -> Option<&bool>
    ensures { option_copied result ≡ slice_get flags.now router }
{
    flags.get(router.index())
}

/// Whether the flag of a router is set.
pub(crate) fn is_flagged(flags: &[bool], router: RouterId) -> bool
    ensures { IsTrue result → slice_get flags.now router ≡ Some true }
{
    let found = flag_at(flags, router);
    match found {
        Some(flag) => *flag,
        None => false,
    }
}

/// Whether a router is no AS boundary router, or its flag is set.
fn is_flagged_boundary(net: &Network, flags: &[bool], router: RouterId) -> bool
    ensures { IsTrue result → boundary.is_boundary net.now router ≡ true → slice_get flags.now router ≡ Some true }
{
    !is_boundary(net, router) || is_flagged(flags, router)
}

/// Whether the flags of all AS boundary routers are set.
fn boundaries_are_flagged(net: &Network, flags: &[bool]) -> bool
    ensures { IsTrue result → BoundariesAreFlagged net.now flags.now }
{
    for index in 0..net.routers.len() {
        if !is_flagged_boundary(net, flags, RouterId::at(index)) {
            return false;
        }
    }
    true
}

/// Who knows the same after a round as before it, by flags that are set only where so it is with a router.
pub fn who_stayed(net: &Network, routers: Items<bool>) -> Stayed
    ensures { (old now : List RouterState) → AreFlagged routers old now → HaveStayed net.now result old now }
{
    let boundaries = boundaries_are_flagged(net, routers.as_slice());
    Stayed {
        routers,
        boundaries,
    }
}

/// Whether a router knows the same in two states, where its flag is set only if it does: without the flag both are compared.
fn has_stayed(routers: &[bool], old: &Knowledge, now: &Knowledge, router: RouterId) -> bool
    requires { AreFlagged routers.now old.now now.now }
    ensures { IsTrue result ↔ (slice_get old.now router ≡ slice_get now.now router) }
{
    is_flagged(routers, router) || is_same_at(old, now, router)
}

/// Whether two states are the same, where flags are set only for routers of which both tell the same: only what other routers know is
/// compared, up to the first that knows something else.
pub fn have_all_stayed(routers: &[bool], old: &Knowledge, now: &Knowledge) -> bool
    requires flags { AreFlagged routers.now old.now now.now }
    requires long { length old.now ≡ length now.now }
    ensures { IsTrue result ↔ (now.now ≡ old.now) }
{
    for index in 0..now.len() {
        if !has_stayed(routers, old, now, RouterId::at(index)) {
            return false;
        }
    }
    true
}
