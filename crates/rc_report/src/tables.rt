//! The tables of a state, as lines, and the line of how many routes they have.
ghost use Rattle.std.specs.Prelude.{◌≡◌, flat_map};
ghost use Rattle.rc_outside.specs.Put.{IsPut};
ghost use Rattle.rc_report.specs.RouteText.{routes_text};
ghost use Rattle.rc_report.specs.StateText.{all_routes, part_lines, routes_in, routes_line};

use crate::routes::{put_router, put_table};
use crate::{Buffer, Part, Puts, SinkFault, put_line};
use rc_base::RouterId;
use rc_config::Network;
use rc_outside::Sink;
use rc_route::{RouterState, State, Table};
use std::alloc::Global;
use std::sync::Arc;

/// Puts the lines of the routes of some parts.
fn put_parts<S: Sink>(
    out: &mut S,
    line: &mut Buffer,
    net: &Network,
    parts: &[Arc<Table, Global>],
) -> Result<(), SinkFault>
    ensures { IsPut S.Sink out.old out.new result (flat_map (part_lines net.now) parts.now) }
{
    for part in parts {
        put_table(out, line, net, part.as_slice())?;
    }
    Ok(())
}

/// Puts the line of a router and those of the routes that it knows.
fn put_known<S: Sink>(
    out: &mut S,
    line: &mut Buffer,
    net: &Network,
    router: RouterId,
    known: &RouterState,
) -> Result<(), SinkFault>
    ensures { IsPut S.Sink out.old out.new result (routes_text net.now router known.now.table) }
{
    put_router(out, line, net, router)?;
    put_parts(out, line, net, known.table.parts())
}

/// Puts the routes of the router of an index, where the state has it.
fn put_routes_at<S: Sink>(
    out: &mut S,
    line: &mut Buffer,
    net: &Network,
    state: &State,
    index: usize,
) -> Result<(), SinkFault>
    ensures { IsPut S.Sink out.old out.new result (routes_in net.now state.now index) }
{
    match state.as_slice().get(index) {
        Some(known) => put_known(out, line, net, RouterId::at(index), known),
        None => Ok(()),
    }
}

/// Puts each router and its routes.
fn put_all_routes<S: Sink>(
    out: &mut S,
    line: &mut Buffer,
    net: &Network,
    state: &State,
) -> Result<(), SinkFault>
    ensures { IsPut S.Sink out.old out.new result (all_routes net.now state.now) }
{
    for index in 0..net.routers.len() {
        put_routes_at(out, line, net, state, index)?;
    }
    Ok(())
}

/// Puts the line of the number of routes.
#[tactic(auto, unfolding(crate::specs::StateText::routes_line))]
fn put_route_count<S: Sink>(out: &mut S, line: &mut Buffer, routes: u64) -> Result<(), SinkFault>
    ensures { IsPut S.Sink out.old out.new result (routes_line routes) }
{
    put_line(
        out,
        line,
        &[
            Part::Text(b"routes "),
            Part::Number(routes),
            Part::Text(b"\n"),
        ],
    )
}

/// Each router and its routes in a state.
#[derive(Drop)]
pub struct AllRoutes<'a> {
    pub net: &'a Network,
    pub state: &'a State,
}

impl<'a> Puts for AllRoutes<'a> {
    ghost ready = { λ a. Unit {0} };

    ghost says = { λ a text. text ≡ all_routes a.net.now a.state.now };

    fn put<S: Sink>(self, out: &mut S, line: &mut Buffer) -> Result<(), SinkFault> {
        put_all_routes(out, line, self.net, self.state)
    }
}

/// The routes of one router in a state.
#[derive(Drop)]
pub struct RoutesOf<'a> {
    pub net: &'a Network,
    pub state: &'a State,
    pub router: RouterId,
}

impl<'a> Puts for RoutesOf<'a> {
    ghost ready = { λ r. Unit {0} };

    ghost says = { λ r text. text ≡ routes_in r.net.now r.state.now r.router };

    fn put<S: Sink>(self, out: &mut S, line: &mut Buffer) -> Result<(), SinkFault> {
        put_routes_at(out, line, self.net, self.state, self.router.index())
    }
}

/// The line of the number of routes.
#[derive(Drop)]
pub struct RoutesLine(pub u64);

impl Puts for RoutesLine {
    ghost ready = { λ r. Unit {0} };

    ghost says = { λ r text. text ≡ routes_line r.0 };

    fn put<S: Sink>(self, out: &mut S, line: &mut Buffer) -> Result<(), SinkFault> {
        put_route_count(out, line, self.0)
    }
}
