//! How rounds ended: as a line, and within one.
ghost use Rattle.std.specs.Prelude.{◌≡◌, ◌++◌, flat_map};
ghost use Rattle.rc_outside.specs.Put.{IsPut, IsPutByHand};
ghost use Rattle.rc_report.specs.OutcomeText.{end_text, outcome_line};
ghost use Rattle.rc_report.specs.Parts.{part_text};

use crate::put::end_with;
use crate::{Buffer, Part, Puts, SinkFault, put_parts};
use rc_outside::Sink;
use rc_route::RoundsEnd;

/// An outcome. What it doesn't have is an empty text.
fn end_parts(end: RoundsEnd) -> [Part<'static>; 4]
    ensures { flat_map part_text result ≡ end_text end }
{
    match end {
        RoundsEnd::Fixed(round) => [
            Part::Text(b"fixed "),
            Part::Number(u64::from(round)),
            Part::Text(b""),
            Part::Text(b""),
        ],
        RoundsEnd::Repeats(first, again) => [
            Part::Text(b"repeats "),
            Part::Number(u64::from(first)),
            Part::Text(b" "),
            Part::Number(u64::from(again)),
        ],
        RoundsEnd::Limit(rounds) => [
            Part::Text(b"limit "),
            Part::Number(u64::from(rounds)),
            Part::Text(b""),
            Part::Text(b""),
        ],
    }
}

/// A line up to an outcome.
fn put_up_to<S: Sink>(
    out: &mut S,
    line: &mut Buffer,
    before: &[Part],
    end: RoundsEnd,
) -> Result<(), SinkFault>
    ensures { IsPutByHand S.Sink out.old out.new result (line.old ++ (flat_map part_text before.now ++ end_text end)) line.new }
{
    put_parts(out, line, before)?;
    let parts = end_parts(end);
    put_parts(out, line, &parts)
}

/// Puts a line that has an outcome between parts. What is in hand of an earlier line, which failed, is dropped.
pub(crate) fn put_around<S: Sink>(
    out: &mut S,
    line: &mut Buffer,
    before: &[Part],
    end: RoundsEnd,
    behind: &[Part],
) -> Result<(), SinkFault>
    ensures { IsPut S.Sink out.old out.new result ((flat_map part_text before.now ++ end_text end) ++ flat_map part_text behind.now) }
{
    line.clear();
    put_up_to(out, line, before, end)?;
    end_with(out, line, behind)
}

/// Puts the line of an outcome.
#[tactic(auto, unfolding(crate::specs::OutcomeText::outcome_line))]
fn put_outcome<S: Sink>(out: &mut S, line: &mut Buffer, end: RoundsEnd) -> Result<(), SinkFault>
    ensures { IsPut S.Sink out.old out.new result (outcome_line end) }
{
    put_around(
        out,
        line,
        &[Part::Text(b"outcome ")],
        end,
        &[Part::Text(b"\n")],
    )
}

/// The line of how the rounds ended.
#[derive(Drop)]
pub struct OutcomeLine(pub RoundsEnd);

impl Puts for OutcomeLine {
    ghost ready = { λ o. Unit {0} };

    ghost says = { λ o text. text ≡ outcome_line o.0 };

    fn put<S: Sink>(self, out: &mut S, line: &mut Buffer) -> Result<(), SinkFault> {
        put_outcome(out, line, self.0)
    }
}
