//! A table resolved layer by layer: each layer looks the gateways up in the one before it.
ghost use Rattle.std.specs.Prelude.{◌≡◌, ◌++◌, List, IfOk, OnOk, true};
ghost use Rattle.std.specs.List.{list_all};
ghost use Rattle.rc_route.specs.Parts.{joined_parts};
ghost use Rattle.rc_route.specs.Tables.{IsTable};
ghost use Rattle.rc_route.specs.declared.route.Route.{Route as OneRoute};
ghost use Rattle.rc_fib.specs.Entries as layer;
ghost use Rattle.rc_fib.specs.Forwarding.{resolved, is_resolved};
ghost use Rattle.rc_fib.specs.Growing.{IsLayer};

use crate::Fib;
use crate::growing::{Growing, push_routes};
use rc_route::{Parts, Route, Table};
use std::alloc::{AllocError, Global};
use std::sync::Arc;

/// How many look-ups may follow one another.
const DEPTH: u8 = 16;

/// Puts the routes of the parts of a table at the end, where another table gives the hops of their gateways.
fn push_parts(
    made: &mut Growing,
    alloc: Global,
    fib: &Fib,
    parts: &[Arc<Table, Global>],
) -> Result<(), AllocError>
    ensures { OnOk result ((before : List OneRoute) → IsLayer fib.now before made.old → IsLayer fib.now (before ++ joined_parts parts.now) made.new) }
{
    for part in parts {
        push_routes(made, alloc, fib, part.as_slice())?;
    }
    Ok(())
}

/// A table, where another one gives the hops of the gateways, and whether each hop of it says where a packet goes, with no look-up. It is
/// made part by part, with no list of all routes between.
fn layer_over(alloc: Global, fib: &Fib, table: &Parts<Route>) -> Result<(Fib, bool), AllocError>
    requires { IsTable table.now }
    ensures value { IfOk result (λ next. next.0 ≡ layer.entries_over fib.now table.now) }
    ensures plain { IfOk result (λ next. next.1 ≡ true → list_all (λ (r : OneRoute). list_all is_resolved r.hops) table.now ≡ true) }
{
    let mut made = Growing::with_room(alloc, table.len())?;
    push_parts(&mut made, alloc, fib, table.parts())?;
    Ok(Fib::grown(made))
}

/// The table, all gateways resolved.
///
/// Where no hop needs a look-up, one layer is all; and where a layer changes nothing, no later one does.
pub(crate) fn resolve_table(alloc: Global, table: &Parts<Route>) -> Result<Fib, AllocError>
    requires { IsTable table.now }
    ensures { IfOk result (λ fib. fib ≡ resolved table.now) }
{
    let mut fib = Fib::none(alloc);
    for _depth in 0..DEPTH {
        let (next, is_plain) = layer_over(alloc, &fib, table)?;
        if is_plain {
            return Ok(next);
        }
        if next.is_same(&fib) {
            return Ok(next);
        }
        fib = next;
    }
    Ok(fib)
}
