//! The lines of access lists that never decide, as lines of text.
ghost use Rattle.std.specs.Prelude.{◌≡◌, ◌++◌, flat_map};
ghost use Rattle.rc_outside.specs.Put.{IsPut, IsPutByHand};
ghost use Rattle.rc_report.specs.IdleText.{by_text, by_word, idle_head, idle_line, idle_text, list_text, number_behind, routers_text, router_text};
ghost use Rattle.rc_report.specs.Parts.{part_text};

use crate::put::close_line;
use crate::routes::put_router_line;
use crate::{Buffer, Part, Puts, SinkFault, put_parts};
use rc_base::{Items, Name};
use rc_outside::Sink;
use rc_sets::{Idle, IdleLine};

/// An access list, and its lines that never decide.
#[derive(Drop)]
pub struct ListIdle {
    pub name: Name,
    pub idle: Idle,
}

/// A router, and its access lists in the order of first mention.
#[derive(Drop)]
pub struct RouterIdle {
    pub router: Name,
    pub lists: Items<ListIdle>,
}

/// A number with the blank before it.
fn number_parts(number: u32) -> [Part<'static>; 2]
    ensures { flat_map part_text result ≡ number_behind number }
{
    [Part::Text(b" "), Part::Number(u64::from(number))]
}

fn put_numbers<S: Sink>(out: &mut S, line: &mut Buffer, numbers: &[u32]) -> Result<(), SinkFault>
    ensures { IsPutByHand S.Sink out.old out.new result (line.old ++ flat_map number_behind numbers.now) line.new }
{
    for number in numbers {
        let parts = number_parts(*number);
        put_parts(out, line, &parts)?;
    }
    Ok(())
}

/// The word that stands before numbers, where there are any.
fn by_word(numbers: &[u32]) -> &'static [u8]
    ensures { result.now ≡ by_word numbers.now }
{
    if numbers.len() == 0 { b"" } else { b" by" }
}

/// The lines that decide in a line's place, where there are any.
fn put_deciding<S: Sink>(out: &mut S, line: &mut Buffer, numbers: &[u32]) -> Result<(), SinkFault>
    ensures { IsPutByHand S.Sink out.old out.new result (line.old ++ by_text numbers.now) line.new }
{
    let word = by_word(numbers);
    put_parts(out, line, &[Part::Text(word)])?;
    put_numbers(out, line, numbers)
}

/// What stands before the lines that decide.
#[tactic(auto, unfolding(crate::specs::IdleText::idle_head))]
fn head_parts(filter: &Name, sequence: u32) -> [Part<'_>; 4]
    ensures { flat_map part_text result ≡ idle_head filter.now sequence }
{
    [
        Part::Text(b"idle "),
        Part::Text(filter.as_bytes()),
        Part::Text(b" "),
        Part::Number(u64::from(sequence)),
    ]
}

/// A line that never decides, up to the last number.
fn put_open_idle<S: Sink>(
    out: &mut S,
    line: &mut Buffer,
    filter: &Name,
    idle: &IdleLine,
) -> Result<(), SinkFault>
    ensures { IsPutByHand S.Sink out.old out.new result (line.old ++ (idle_head filter.now idle.now.sequence ++ by_text idle.now.by)) line.new }
{
    let parts = head_parts(filter, idle.sequence);
    put_parts(out, line, &parts)?;
    put_deciding(out, line, idle.by.as_slice())
}

fn put_idle_line<S: Sink>(
    out: &mut S,
    line: &mut Buffer,
    filter: &Name,
    idle: &IdleLine,
) -> Result<(), SinkFault>
    ensures { IsPut S.Sink out.old out.new result (idle_line filter.now idle.now) }
{
    line.clear();
    put_open_idle(out, line, filter, idle)?;
    close_line(out, line)
}

fn put_idle_lines<S: Sink>(
    out: &mut S,
    line: &mut Buffer,
    filter: &Name,
    lines: &[IdleLine],
) -> Result<(), SinkFault>
    ensures { IsPut S.Sink out.old out.new result (flat_map (idle_line filter.now) lines.now) }
{
    for idle in lines {
        put_idle_line(out, line, filter, idle)?;
    }
    Ok(())
}

/// Puts a line for each line of the access list of this name that never decides. What is in hand of an earlier line, which
/// failed, is dropped.
pub fn put_idle<S: Sink>(
    out: &mut S,
    line: &mut Buffer,
    filter: &Name,
    idle: &Idle,
) -> Result<(), SinkFault>
    ensures { IsPut S.Sink out.old out.new result (idle_text filter.now idle.now) }
{
    put_idle_lines(out, line, filter, idle.as_slice())
}

fn put_list<S: Sink>(out: &mut S, line: &mut Buffer, list: &ListIdle) -> Result<(), SinkFault>
    ensures { IsPut S.Sink out.old out.new result (list_text list.now) }
{
    put_idle(out, line, &list.name, &list.idle)
}

fn put_lists<S: Sink>(out: &mut S, line: &mut Buffer, lists: &[ListIdle]) -> Result<(), SinkFault>
    ensures { IsPut S.Sink out.old out.new result (flat_map list_text lists.now) }
{
    for list in lists {
        put_list(out, line, list)?;
    }
    Ok(())
}

/// The line of a router, and those of its lists.
fn put_router<S: Sink>(out: &mut S, line: &mut Buffer, router: &RouterIdle) -> Result<(), SinkFault>
    ensures { IsPut S.Sink out.old out.new result (router_text router.now) }
{
    put_router_line(out, line, router.router.as_bytes())?;
    put_lists(out, line, router.lists.as_slice())
}

fn put_routers<S: Sink>(
    out: &mut S,
    line: &mut Buffer,
    routers: &[RouterIdle],
) -> Result<(), SinkFault>
    ensures { IsPut S.Sink out.old out.new result (routers_text routers.now) }
{
    for router in routers {
        put_router(out, line, router)?;
    }
    Ok(())
}

/// Routers, and the lines of their access lists that never decide.
#[derive(Drop)]
pub struct IdleLines {
    pub routers: Items<RouterIdle>,
}

impl Puts for IdleLines {
    ghost ready = { λ i. Unit {0} };

    ghost says = { λ i text. text ≡ routers_text i.routers };

    fn put<S: Sink>(self, out: &mut S, line: &mut Buffer) -> Result<(), SinkFault> {
        put_routers(out, line, self.routers.as_slice())
    }
}
