//! The walk of a packet, as lines.
ghost use Rattle.std.specs.Prelude.{◌≡◌, flat_map};
ghost use Rattle.rc_outside.specs.Put.{IsPut};
ghost use Rattle.rc_report.specs.Parts.{part_text};
ghost use Rattle.rc_report.specs.WalkText.{position_line, stop_line, walk_text};

use crate::names::{interface_name, router_name};
use crate::{Buffer, Part, SinkFault, put_line};
use rc_base::Pos;
use rc_config::Network;
use rc_moves::{Stop, Walk};
use rc_outside::Sink;

/// What stands in the line of a position.
#[tactic(auto, unfolding(crate::specs::WalkText::position_line))]
fn position_parts<'a>(net: &'a Network, position: &Pos) -> [Part<'a>; 5]
    ensures { flat_map part_text result ≡ position_line net.now position.now }
{
    match position {
        Pos::Own(router) => [
            Part::Text(b"at "),
            Part::Text(router_name(net, *router)),
            Part::Text(b" self\n"),
            Part::Text(b""),
            Part::Text(b""),
        ],
        Pos::Entering(interface) => [
            Part::Text(b"at "),
            Part::Text(router_name(net, interface.router)),
            Part::Text(b" "),
            Part::Text(interface_name(net, *interface)),
            Part::Text(b"\n"),
        ],
    }
}

/// What stands in the last line of a walk.
#[tactic(auto, unfolding(crate::specs::WalkText::stop_line))]
fn stop_parts(stop: Stop) -> [Part<'static>; 3]
    ensures { flat_map part_text result ≡ stop_line stop }
{
    match stop {
        Stop::At(kind) => [
            Part::Text(b"end "),
            Part::Text(kind.word().as_bytes()),
            Part::Text(b"\n"),
        ],
        Stop::Loop => [Part::Text(b"end loop\n"), Part::Text(b""), Part::Text(b"")],
    }
}

fn put_positions<S: Sink>(
    out: &mut S,
    line: &mut Buffer,
    net: &Network,
    positions: &[Pos],
) -> Result<(), SinkFault>
    ensures { IsPut S.Sink out.old out.new result (flat_map (position_line net.now) positions.now) }
{
    for position in positions {
        put_position(out, line, net, position)?;
    }
    Ok(())
}

fn put_position<S: Sink>(
    out: &mut S,
    line: &mut Buffer,
    net: &Network,
    position: &Pos,
) -> Result<(), SinkFault>
    ensures { IsPut S.Sink out.old out.new result (position_line net.now position.now) }
{
    let parts = position_parts(net, position);
    put_line(out, line, &parts)
}

fn put_stop<S: Sink>(out: &mut S, line: &mut Buffer, stop: Stop) -> Result<(), SinkFault>
    ensures { IsPut S.Sink out.old out.new result (stop_line stop) }
{
    let parts = stop_parts(stop);
    put_line(out, line, &parts)
}

/// Puts a line for each position of a walk, and one for how it stops. What is in hand of an earlier line, which failed, is
/// dropped. A router or an interface that the network doesn't have has the empty name.
pub fn put_walk<S: Sink>(
    out: &mut S,
    line: &mut Buffer,
    net: &Network,
    walk: &Walk,
) -> Result<(), SinkFault>
    ensures { IsPut S.Sink out.old out.new result (walk_text net.now walk.now) }
{
    put_positions(out, line, net, walk.positions.as_slice())?;
    put_stop(out, line, walk.stop)
}
