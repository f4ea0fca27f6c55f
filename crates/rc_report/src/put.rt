//! Lines go to a sink in pieces.
//!
//! A line is put together of parts, whose bytes are gathered in a `Buffer`. Where more bytes follow than it has room for, the
//! full buffer goes to the sink as one piece; at the end of the line the rest does, so that a line that ended is with the
//! sink whole. A sink may fail at any piece, after taking a front of it. Then the call errs at once and nothing more is put,
//! so the sink holds a front of the text.
//!
//! The functions stand from the bytes up: bytes, numbers, addresses and prefixes, parts, a line. All of them say the same
//! two things: `IsPutByHand all hand`, that of all these bytes a front is put and `hand` is left in the buffer, and, where a
//! line is ended, `IsPut text`. No answer is lost between two calls: a text and the next one come to both (`PutLaws` of rc_outside).
ghost use Rattle.std.specs.Prelude.{◌≡◌, ◌++◌, [], codes, decimal, flat_map};
ghost use Rattle.rc_base.specs.Addr.{dotted};
ghost use Rattle.rc_base.specs.Prefix.{prefix_text};
ghost use Rattle.rc_outside.specs.Put.{IsPut, IsPutByHand};
ghost use Rattle.rc_report.specs.Parts.{part_text};

use crate::digits::{write_address, write_number, write_prefix};
use crate::{Buffer, Part};
use rc_base::{Addr, Prefix};
use rc_outside::Sink;

/// The sink failed within a text: a front of the text is written.
#[derive(Clone, Copy)]
pub struct SinkFault;

/// Ends a line: hands over what is in hand, as the last piece. Where nothing is in hand the sink isn't called.
pub fn end_line<S: Sink>(out: &mut S, line: &mut Buffer) -> Result<(), SinkFault>
    ensures put { IsPut S.Sink out.old out.new result line.old }
    ensures empty { line.new ≡ [] }
{
    if line.is_empty() {
        return Ok(());
    }
    let said = out.put(line.as_slice());
    line.clear();
    match said {
        Ok(()) => Ok(()),
        Err(_) => Err(SinkFault),
    }
}

/// Puts bytes at the end of the line begun. A full piece is handed over where more bytes follow. It is seldom called, and
/// never inlined into `put_bytes`, which saves fewer registers so.
#[inline(never)]
fn put_pieces<S: Sink>(out: &mut S, line: &mut Buffer, bytes: &[u8]) -> Result<(), SinkFault>
    ensures { IsPutByHand S.Sink out.old out.new result (line.old ++ bytes.now) line.new }
{
    let mut rest = line.fill(bytes);
    while rest.len() > 0 {
        end_line(out, line)?;
        rest = line.fill(rest);
    }
    Ok(())
}

/// Puts bytes at the end of the line begun: most often there is room for them all.
fn put_bytes<S: Sink>(out: &mut S, line: &mut Buffer, bytes: &[u8]) -> Result<(), SinkFault>
    ensures { IsPutByHand S.Sink out.old out.new result (line.old ++ bytes.now) line.new }
{
    if bytes.is_empty() {
        return Ok(());
    }
    if !line.has_room(bytes.len()) {
        return put_pieces(out, line, bytes);
    }
    line.push(bytes);
    Ok(())
}

/// Puts a number of any size.
fn put_large<S: Sink>(out: &mut S, line: &mut Buffer, number: u64) -> Result<(), SinkFault>
    ensures { IsPutByHand S.Sink out.old out.new result (line.old ++ decimal number) line.new }
{
    let mut digits = itoa::Buffer::new();
    put_bytes(out, line, digits.format(number).as_bytes())
}

fn put_number<S: Sink>(out: &mut S, line: &mut Buffer, number: u64) -> Result<(), SinkFault>
    ensures { IsPutByHand S.Sink out.old out.new result (line.old ++ decimal number) line.new }
{
    if number >= 1000 {
        return put_large(out, line, number);
    }
    let mut text = [0; 18];
    let end = write_number(&mut text, 0, number as u32);
    put_bytes(out, line, &text[..end])
}

fn put_address<S: Sink>(out: &mut S, line: &mut Buffer, addr: Addr) -> Result<(), SinkFault>
    ensures { IsPutByHand S.Sink out.old out.new result (line.old ++ dotted addr) line.new }
{
    let mut text = [0; 18];
    let end = write_address(&mut text, addr);
    put_bytes(out, line, &text[..end])
}

fn put_prefix<S: Sink>(out: &mut S, line: &mut Buffer, prefix: &Prefix) -> Result<(), SinkFault>
    ensures { IsPutByHand S.Sink out.old out.new result (line.old ++ prefix_text prefix.now) line.new }
{
    let mut text = [0; 18];
    let end = write_prefix(&mut text, prefix);
    put_bytes(out, line, &text[..end])
}

fn put_part<S: Sink>(out: &mut S, line: &mut Buffer, part: &Part) -> Result<(), SinkFault>
    ensures { IsPutByHand S.Sink out.old out.new result (line.old ++ part_text part.now) line.new }
{
    match part {
        Part::Text(text) => put_bytes(out, line, text),
        Part::Number(number) => put_number(out, line, *number),
        Part::Address(addr) => put_address(out, line, *addr),
        Part::Prefix(prefix) => put_prefix(out, line, prefix),
    }
}

/// Puts parts at the end of the line begun. Of what was in hand and the parts, a front is handed over then, and the
/// others are in hand.
pub fn put_parts<S: Sink>(out: &mut S, line: &mut Buffer, parts: &[Part]) -> Result<(), SinkFault>
    ensures { IsPutByHand S.Sink out.old out.new result (line.old ++ flat_map part_text parts.now) line.new }
{
    for part in parts {
        put_part(out, line, part)?;
    }
    Ok(())
}

/// Puts a line out of parts. What is in hand of an earlier line, which failed, is dropped.
pub fn put_line<S: Sink>(out: &mut S, line: &mut Buffer, parts: &[Part]) -> Result<(), SinkFault>
    ensures { IsPut S.Sink out.old out.new result (flat_map part_text parts.now) }
{
    line.clear();
    end_with(out, line, parts)
}

/// Ends a line by parts.
pub(crate) fn end_with<S: Sink>(
    out: &mut S,
    line: &mut Buffer,
    parts: &[Part],
) -> Result<(), SinkFault>
    ensures { IsPut S.Sink out.old out.new result (line.old ++ flat_map part_text parts.now) }
{
    put_parts(out, line, parts)?;
    end_line(out, line)
}

/// Ends a line by a line feed.
pub(crate) fn close_line<S: Sink>(out: &mut S, line: &mut Buffer) -> Result<(), SinkFault>
    ensures { IsPut S.Sink out.old out.new result (line.old ++ codes "\n") }
{
    end_with(out, line, &[Part::Text(b"\n")])
}
