//! The routes of a router, as lines.
ghost use Rattle.std.specs.Prelude.{◌≡◌, ◌++◌, codes, flat_map};
ghost use Rattle.rc_outside.specs.Put.{IsPut, IsPutByHand};
ghost use Rattle.rc_report.specs.Parts.{part_text};
ghost use Rattle.rc_report.specs.RouteText.{hop_text, interface_name, route_head, route_line, router_line, router_name, routes_text, source_text};

use crate::names::{interface_name, router_name};
use crate::put::close_line;
use crate::{Buffer, Part, SinkFault, put_line, put_parts};
use rc_base::{Addr, IfId, RouterId};
use rc_config::Network;
use rc_outside::Sink;
use rc_route::{Hop, Route, Source, Table};

/// The source of a route, with a blank on each side.
fn source_between(source: Source) -> &'static [u8]
    ensures { result.now ≡ codes " " ++ source_text source ++ codes " " }
{
    match source {
        Source::Connected => b" connected ",
        Source::Static => b" static ",
        Source::Ebgp => b" ebgp ",
        Source::Ibgp => b" ibgp ",
        Source::Ospf => b" ospf ",
        Source::OspfIa => b" ospf-ia ",
        Source::OspfE1 => b" ospf-e1 ",
        Source::OspfE2 => b" ospf-e2 ",
    }
}

/// A hop by a gateway. What it doesn't have is an empty text.
#[tactic(auto, unfolding(crate::specs::RouteText::hop_text))]
fn via_parts<'a>(net: &'a Network, gateway: Addr, interface: Option<IfId>) -> [Part<'a>; 4]
    ensures { flat_map part_text result ≡ hop_text net.now (Hop.Via gateway interface) }
{
    match interface {
        None => [
            Part::Text(b" via "),
            Part::Address(gateway),
            Part::Text(b""),
            Part::Text(b""),
        ],
        Some(interface) => [
            Part::Text(b" via "),
            Part::Address(gateway),
            Part::Text(b" dev "),
            Part::Text(interface_name(net, interface)),
        ],
    }
}

/// A hop. What it doesn't have is an empty text.
#[tactic(auto, unfolding(crate::specs::RouteText::hop_text))]
fn hop_parts<'a>(net: &'a Network, hop: &Hop) -> [Part<'a>; 4]
    ensures { flat_map part_text result ≡ hop_text net.now hop.now }
{
    match hop {
        Hop::Null => [
            Part::Text(b" null"),
            Part::Text(b""),
            Part::Text(b""),
            Part::Text(b""),
        ],
        Hop::Dev(interface) => [
            Part::Text(b" dev "),
            Part::Text(interface_name(net, *interface)),
            Part::Text(b""),
            Part::Text(b""),
        ],
        Hop::Via(gateway, interface) => via_parts(net, *gateway, *interface),
    }
}

/// What stands before the hops of a route.
#[tactic(auto, unfolding(crate::specs::RouteText::route_head))]
fn head_parts(route: &Route) -> [Part<'static>; 5]
    ensures { flat_map part_text result ≡ route_head route.now }
{
    [
        Part::Prefix(route.prefix),
        Part::Text(source_between(route.source)),
        Part::Number(u64::from(route.distance)),
        Part::Text(b"/"),
        Part::Number(u64::from(route.metric)),
    ]
}

fn put_hops<S: Sink>(
    out: &mut S,
    line: &mut Buffer,
    net: &Network,
    hops: &[Hop],
) -> Result<(), SinkFault>
    ensures { IsPutByHand S.Sink out.old out.new result (line.old ++ flat_map (hop_text net.now) hops.now) line.new }
{
    for hop in hops {
        let parts = hop_parts(net, hop);
        put_parts(out, line, &parts)?;
    }
    Ok(())
}

/// A route up to its last hop.
fn put_open_route<S: Sink>(
    out: &mut S,
    line: &mut Buffer,
    net: &Network,
    route: &Route,
) -> Result<(), SinkFault>
    ensures { IsPutByHand S.Sink out.old out.new result (line.old ++ (route_head route.now ++ flat_map (hop_text net.now) route.now.hops)) line.new }
{
    let parts = head_parts(route);
    put_parts(out, line, &parts)?;
    put_hops(out, line, net, route.hops.as_slice())
}

fn put_route<S: Sink>(
    out: &mut S,
    line: &mut Buffer,
    net: &Network,
    route: &Route,
) -> Result<(), SinkFault>
    ensures { IsPut S.Sink out.old out.new result (route_line net.now route.now) }
{
    line.clear();
    put_open_route(out, line, net, route)?;
    close_line(out, line)
}

/// Puts the lines of some routes.
pub(crate) fn put_table<S: Sink>(
    out: &mut S,
    line: &mut Buffer,
    net: &Network,
    routes: &[Route],
) -> Result<(), SinkFault>
    ensures { IsPut S.Sink out.old out.new result (flat_map (route_line net.now) routes.now) }
{
    for route in routes {
        put_route(out, line, net, route)?;
    }
    Ok(())
}

/// Puts the line of a router.
pub(crate) fn put_router<S: Sink>(
    out: &mut S,
    line: &mut Buffer,
    net: &Network,
    router: RouterId,
) -> Result<(), SinkFault>
    ensures { IsPut S.Sink out.old out.new result (router_line (router_name net.now router)) }
{
    put_router_line(out, line, router_name(net, router))
}

/// Puts the line of a router of this name.
pub(crate) fn put_router_line<S: Sink>(
    out: &mut S,
    line: &mut Buffer,
    name: &[u8],
) -> Result<(), SinkFault>
    ensures { IsPut S.Sink out.old out.new result (router_line name.now) }
{
    let parts = router_parts(name);
    put_line(out, line, &parts)
}

/// What stands in the line of a router.
#[tactic(auto, unfolding(crate::specs::RouteText::router_line))]
fn router_parts(name: &[u8]) -> [Part<'_>; 3]
    ensures { flat_map part_text result ≡ router_line name.now }
{
    [Part::Text(b"router "), Part::Text(name), Part::Text(b"\n")]
}

/// Puts the line of a router and those of its routes. What is in hand of an earlier line, which failed, is dropped. A
/// router or an interface that the network doesn't have has the empty name.
pub fn put_routes<S: Sink>(
    out: &mut S,
    line: &mut Buffer,
    net: &Network,
    router: RouterId,
    table: &Table,
) -> Result<(), SinkFault>
    ensures { IsPut S.Sink out.old out.new result (routes_text net.now router table.now) }
{
    put_router(out, line, net, router)?;
    put_table(out, line, net, table.as_slice())
}
