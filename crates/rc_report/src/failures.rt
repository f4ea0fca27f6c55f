//! What becomes of a packet without each link, as lines.
ghost use Rattle.std.specs.Prelude.{◌≡◌, flat_map};
ghost use Rattle.rc_outside.specs.Put.{IsPut};
ghost use Rattle.rc_report.specs.FailureText.{arrival_text, failure_line, failures_text, without_text};
ghost use Rattle.rc_report.specs.Parts.{part_text};

use crate::names::{interface_name, router_name};
use crate::outcomes::put_around;
use crate::{Buffer, Part, Puts, SinkFault};
use rc_base::{IfId, Items};
use rc_config::Network;
use rc_outside::Sink;
use rc_route::RoundsEnd;

/// What becomes of a packet in a network that is cut between two interfaces.
#[derive(Clone, Copy)]
pub struct FailRow {
    /// The interface of the pair that is first in position order.
    pub first: IfId,
    /// The other one.
    pub second: IfId,
    /// How the rounds of the network end without the pair.
    pub end: RoundsEnd,
    /// Whether the packet arrives, which is said only at a fixed point.
    pub arrives: bool,
}

/// What stands in a line before the outcome.
#[tactic(auto, unfolding(crate::specs::FailureText::without_text))]
fn without_parts<'a>(net: &'a Network, row: &FailRow) -> [Part<'a>; 9]
    ensures { flat_map part_text result ≡ without_text net.now row.now.first row.now.second }
{
    [
        Part::Text(b"without "),
        Part::Text(router_name(net, row.first.router)),
        Part::Text(b" "),
        Part::Text(interface_name(net, row.first)),
        Part::Text(b" "),
        Part::Text(router_name(net, row.second.router)),
        Part::Text(b" "),
        Part::Text(interface_name(net, row.second)),
        Part::Text(b" "),
    ]
}

/// The end of a line, behind the outcome.
fn arrival_text(end: RoundsEnd, arrives: bool) -> &'static [u8]
    ensures { result.now ≡ arrival_text end arrives }
{
    match end {
        RoundsEnd::Fixed(_) => { if arrives { b" yes\n" } else { b" no\n" } }
        RoundsEnd::Repeats(_, _) | RoundsEnd::Limit(_) => b"\n",
    }
}

fn put_failure<S: Sink>(
    out: &mut S,
    line: &mut Buffer,
    net: &Network,
    row: &FailRow,
) -> Result<(), SinkFault>
    ensures { IsPut S.Sink out.old out.new result (failure_line net.now row.now) }
{
    let before = without_parts(net, row);
    let arrival = arrival_text(row.end, row.arrives);
    put_around(out, line, &before, row.end, &[Part::Text(arrival)])
}

/// Puts a line for each pair without which the network was analysed. What is in hand of an earlier line, which failed, is
/// dropped. A router or an interface that the network doesn't have has the empty name.
pub fn put_failures<S: Sink>(
    out: &mut S,
    line: &mut Buffer,
    net: &Network,
    rows: &[FailRow],
) -> Result<(), SinkFault>
    ensures { IsPut S.Sink out.old out.new result (failures_text net.now rows.now) }
{
    for row in rows {
        put_failure(out, line, net, row)?;
    }
    Ok(())
}

/// What becomes of a packet without each link.
#[derive(Drop)]
pub struct FailureLines<'a> {
    pub net: &'a Network,
    pub rows: Items<FailRow>,
}

impl<'a> Puts for FailureLines<'a> {
    ghost ready = { λ f. Unit {0} };

    ghost says = { λ f text. text ≡ failures_text f.net.now f.rows };

    fn put<S: Sink>(self, out: &mut S, line: &mut Buffer) -> Result<(), SinkFault> {
        put_failures(out, line, self.net, self.rows.as_slice())
    }
}
