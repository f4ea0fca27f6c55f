//! The static routes, from the active lines.
ghost use Rattle.std.specs.Prelude.{◌≡◌, IfOk, OnOk, None};
ghost use Rattle.rc_base.specs.Groups.{with_thing, grouped};
ghost use Rattle.rc_rib.specs.Offers.{line_prefix, with_line, route_of_hops};
ghost use Rattle.rc_rib.specs.Static as spec;

use crate::active::ActiveLine;
use crate::rows::routes_of_rows;
use rc_base::{Prefix, PrefixMap};
use rc_link_state::hops_in_order;
use rc_route::{Hops, Route, SharedHops, Source, Table};
use std::alloc::{AllocError, Global};

/// The hops of the least distance of some lines, in the order of the lines.
#[derive(Drop)]
pub struct StaticHops {
    pub distance: u8,
    pub hops: Hops,
}

/// The hops of one line.
fn hops_of_line(line: &ActiveLine) -> StaticHops
    ensures { result ≡ with_line None line.now }
{
    StaticHops {
        distance: line.distance,
        hops: Hops::one(line.hop),
    }
}

/// The hops after one more line.
fn with_hop(
    alloc: Global,
    known: Option<StaticHops>,
    line: &ActiveLine,
) -> Result<StaticHops, AllocError>
    ensures { IfOk result (λ v. v ≡ with_line known line.now) }
{
    match known {
        None => Ok(hops_of_line(line)),
        Some(mut known) => {
            if line.distance < known.distance {
                return Ok(hops_of_line(line));
            }
            if line.distance == known.distance {
                known.hops.push(alloc, line.hop)?;
            }
            Ok(known)
        }
    }
}

/// Puts one more line under its prefix. Until it stands there the prefix has no hop.
#[tactic(auto, using(rc_base::proofs::GroupLaws::insert_again))]
fn add_line(
    alloc: Global,
    rows: &mut PrefixMap<StaticHops>,
    line: &ActiveLine,
) -> Result<(), AllocError>
    ensures { OnOk result (rows.new ≡ with_thing line_prefix with_line rows.old line.now) }
{
    let none = StaticHops {
        distance: 255,
        hops: Hops::none(),
    };
    let known = rows.insert(line.prefix, none)?;
    let hops = with_hop(alloc, known, line)?;
    rows.insert(line.prefix, hops)?;
    Ok(())
}

/// The hops of each prefix of the lines.
fn hops_by_prefix(alloc: Global, lines: &[ActiveLine]) -> Result<PrefixMap<StaticHops>, AllocError>
    ensures { IfOk result (λ rows. rows ≡ grouped line_prefix with_line lines.now) }
{
    let mut rows = PrefixMap::new(alloc);
    for line in lines {
        add_line(alloc, &mut rows, line)?;
    }
    Ok(rows)
}

/// The static route of a prefix. It shares the hops of another route, where these are the same.
pub(crate) fn static_route(
    alloc: Global,
    beside: Option<&SharedHops>,
    prefix: Prefix,
    known: &StaticHops,
) -> Result<Route, AllocError>
    ensures { IfOk result (λ route. route ≡ route_of_hops prefix known.now) }
{
    let hops = hops_in_order(alloc, known.hops.as_slice())?;
    let hops = SharedHops::beside(alloc, beside, hops)?;
    Ok(Route {
        prefix,
        source: Source::Static,
        distance: known.distance,
        metric: 0,
        hops,
    })
}

/// The static routes of the active lines: one for each prefix, by address, then length.
pub(crate) fn static_routes(alloc: Global, lines: &[ActiveLine]) -> Result<Table, AllocError>
    ensures { IfOk result (λ routes. routes ≡ spec.static_routes lines.now) }
{
    let rows = hops_by_prefix(alloc, lines)?;
    routes_of_rows(alloc, rows.into_rows())
}
