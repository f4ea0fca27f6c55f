//! The least walks by which OSPF answers for an address. Few routers offer a prefix that holds it, as a rule, and then the walks to
//! these are all that is wanted.
ghost use Rattle.std.specs.Prelude.{◌≡◌, ◌≤◌, IfOk, IfSome, Some, length};
ghost use Rattle.std.specs.List.{list_any};
ghost use Rattle.rc_ospf.specs.Asked.{AreEndsAt, AnswerOver};
ghost use Rattle.rc_ospf.specs.Internal.{adverts_in, steps_of};
ghost use Rattle.rc_ospf.specs.Members.{areas_in, are_border};
ghost use Rattle.rc_ospf.specs.Routes as spec;
ghost use Rattle.rc_ospf_interfaces.specs.Interfaces as interface;

use crate::advertising::adverts;
use crate::boundary::has_boundary;
use crate::destination::rows_wanted;
use crate::ends::ends_of;
use crate::grouping::{Row, offers_by_prefix};
use crate::known_walks::KnownWalks;
use crate::member::Areas;
use crate::router_area::is_border;
use rc_base::{Addr, Items};
use rc_config::Network;
use rc_link_state::End;
use rc_ospf_interfaces::OspfInterface;
use rc_topology::Links;
use std::alloc::{AllocError, Global};
use std::thread::Threads;

/// The rows that hold an address.
fn rows_at(
    alloc: Global,
    net: &Network,
    interfaces: &[OspfInterface],
    address: Addr,
) -> Result<Items<Row>, AllocError>
    requires { interfaces.now ≡ interface.ospf_interfaces net.now }
    ensures { IfOk result (λ rows. rows ≡ spec.rows_asked (Some address) (spec.with_default (spec.offered_rows (adverts_in net.now)))) }
{
    let offered = adverts(alloc, net, interfaces)?;
    let rows = offers_by_prefix(alloc, offered.as_slice())?;
    rows_wanted(alloc, rows, Some(address))
}

/// Whether some router is an area border router.
fn has_border(areas: &[Areas]) -> bool
    ensures { result ≡ list_any are_border areas.now }
{
    for own in areas {
        if is_border(own.all.as_slice()) {
            return true;
        }
    }
    false
}

/// The routers that offer a prefix which holds an address, where they are few and the least walks to these decide the routes at it. It is
/// nothing where some router is an area border router or an AS boundary router, as then more walks are wanted.
fn few_ends(
    alloc: Global,
    net: &Network,
    interfaces: &[OspfInterface],
    areas: &[Areas],
    address: Addr,
) -> Result<Option<Items<End>>, AllocError>
    requires interfaces { interfaces.now ≡ interface.ospf_interfaces net.now }
    requires areas { areas.now ≡ areas_in net.now }
    ensures { IfOk result (λ found. IfSome found (AreEndsAt net.now address)) }
{
    if has_border(areas) {
        return Ok(None);
    }
    if has_boundary(alloc, net)? {
        return Ok(None);
    }
    let rows = rows_at(alloc, net, interfaces, address)?;
    let ends = ends_of(alloc, rows.as_slice())?;
    if ends.len() > net.routers.len() / 4 {
        return Ok(None);
    }
    Ok(Some(ends))
}

/// The least walks by which OSPF answers for an address: to few routers, where these decide, and else to all.
fn walks_at<R: Threads + Sync>(
    rt: &R,
    alloc: Global,
    net: &Network,
    links: &Links,
    interfaces: &[OspfInterface],
    areas: &[Areas],
    address: Addr,
    workers: u32,
) -> Result<KnownWalks, AllocError>
    requires few { length net.now.routers ≤ 512 }
    requires interfaces { interfaces.now ≡ interface.ospf_interfaces net.now }
    requires areas { areas.now ≡ areas_in net.now }
    ensures { IfOk result (AnswerOver net.now (steps_of net.now links.now) (Some address)) }
{
    let routers = net.routers.len();
    let found = few_ends(alloc, net, interfaces, areas, address)?;
    match found {
        Some(ends) => {
            let ends = ends.as_slice();
            KnownWalks::to_ends(rt, alloc, routers, links, interfaces, ends, workers)
        }
        None => KnownWalks::to_all(rt, alloc, routers, links, interfaces, workers),
    }
}

/// The least walks by which OSPF answers, for all or for an address. It errs only where memory runs out.
pub(crate) fn walks<R: Threads + Sync>(
    rt: &R,
    alloc: Global,
    net: &Network,
    links: &Links,
    interfaces: &[OspfInterface],
    areas: &[Areas],
    asked: &Option<Addr>,
    workers: u32,
) -> Result<KnownWalks, AllocError>
    requires few { length net.now.routers ≤ 512 }
    requires interfaces { interfaces.now ≡ interface.ospf_interfaces net.now }
    requires areas { areas.now ≡ areas_in net.now }
    ensures { IfOk result (AnswerOver net.now (steps_of net.now links.now) asked.now) }
{
    match asked {
        Some(address) => walks_at(rt, alloc, net, links, interfaces, areas, *address, workers),
        None => KnownWalks::to_all(rt, alloc, net.routers.len(), links, interfaces, workers),
    }
}
