//! Which lines `ip route` are active, and over which hops.
ghost use Rattle.std.specs.Prelude.{◌≡◌, false, IfOk};
ghost use Rattle.std.specs.Option.{option_map_or};
ghost use Rattle.std.specs.List.{filter_map, list_any};
ghost use Rattle.rc_base.specs.Prefix.{same_prefix};
ghost use Rattle.rc_config.specs.declared.static_route.StaticRoute.{StaticRoute as Line};
ghost use Rattle.rc_rib.specs.Static as spec;

use rc_base::{Addr, IfId, Name, Prefix, RouterId};
use rc_config::{RouterText, StaticRoute, Target};
use rc_fib::Fib;
use rc_route::Hop;
use std::alloc::{AllocError, Global};

/// A line that is active, with its hop.
#[derive(Clone, Copy)]
pub struct ActiveLine {
    pub prefix: Prefix,
    /// The administrative distance, from 1 to 254.
    pub distance: u8,
    pub hop: Hop,
}

/// The interface of a name, where the router declares it and it is up.
fn up_interface(router: RouterId, file: &RouterText, name: &Name) -> Option<IfId>
    ensures { result ≡ spec.up_interface router file.now.interfaces name.now }
{
    if file.is_down(name) {
        return None;
    }
    let index = file.interfaces.index_of(name)?;
    Some(IfId { router, index })
}

fn is_of_prefix(prefix: &Prefix, found: Option<Prefix>) -> bool
    ensures { result ≡ option_map_or (same_prefix prefix.now) found false }
{
    match found {
        Some(found) => *prefix == found,
        None => false,
    }
}

/// Whether the previous table reaches a next hop by another route than one of this prefix.
fn is_reachable(old: &Fib, prefix: &Prefix, gateway: Addr) -> bool
    ensures { result ≡ spec.is_reachable old.now prefix.now gateway }
{
    old.resolves(gateway) && !is_of_prefix(prefix, old.longest(gateway))
}

/// The hop of a line, where it is active.
fn active_hop(
    router: RouterId,
    file: &RouterText,
    old: &Fib,
    prefix: &Prefix,
    target: &Target,
) -> Option<Hop>
    ensures { result ≡ spec.active_hop router file.now.interfaces old.now prefix.now target.now }
{
    match target {
        Target::Null => Some(Hop::Null),
        Target::Dev(name) => {
            let interface = up_interface(router, file, name)?;
            Some(Hop::Dev(interface))
        }
        Target::ViaDev(gateway, name) => {
            let interface = up_interface(router, file, name)?;
            Some(Hop::Via(*gateway, Some(interface)))
        }
        Target::Via(gateway) => {
            if is_reachable(old, prefix, *gateway) {
                Some(Hop::Via(*gateway, None))
            } else {
                None
            }
        }
    }
}

/// Whether a line of this target asks the previous table.
fn asks_table(target: &Target) -> bool
    ensures { result ≡ spec.asks_table target.now }
{
    match target {
        Target::Null => false,
        Target::Dev(_) => false,
        Target::ViaDev(_, _) => false,
        Target::Via(_) => true,
    }
}

/// Whether one of some lines asks the previous table.
pub(crate) fn some_ask_table(lines: &[StaticRoute]) -> bool
    ensures { result ≡ list_any (λ (s : Line). spec.asks_table s.target) lines.now }
{
    lines.iter().any(|line| asks_table(&line.target))
}

/// A line with its hop, where it is active. Distance 255 is never used.
fn active_line(
    router: RouterId,
    file: &RouterText,
    old: &Fib,
    line: &StaticRoute,
) -> Option<ActiveLine>
    ensures { result ≡ spec.active_line router file.now.interfaces old.now line.now }
{
    if line.distance == 255 {
        return None;
    }
    let hop = active_hop(router, file, old, &line.prefix, &line.target)?;
    Some(ActiveLine {
        prefix: line.prefix,
        distance: line.distance,
        hop,
    })
}

/// The active lines of a file, in their order.
pub(crate) fn active_lines(
    alloc: Global,
    router: RouterId,
    file: &RouterText,
    old: &Fib,
) -> Result<Vec<ActiveLine>, AllocError>
    ensures { IfOk result (λ lines. lines.items ≡ spec.active_lines router file.now.interfaces old.now file.now.static_routes) }
{
    // For the proof: that of a push wants each enum within the element named in the function.
    let (_hop, _interface): (Hop, Option<IfId>) = (Hop::Null, None);
    let mut lines = Vec::new(alloc);
    for line in file.static_routes.as_slice() {
        match active_line(router, file, old, line) {
            Some(active) => lines.push(active)?,
            None => {}
        }
    }
    Ok(lines)
}
