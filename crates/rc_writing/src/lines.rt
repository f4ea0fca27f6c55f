//! The lines that speak of what was asked and of refusals.
ghost use Rattle.std.specs.Prelude.{◌≡◌, ◌++◌, [], flat_map};
ghost use Rattle.std.specs.Option.{option_map_or};
ghost use Rattle.rc_outside.specs.Put.{IsPut};
ghost use Rattle.rc_report.specs.Parts.{part_text};
ghost use Rattle.rc_writing.specs.Places.{behind_colon, name_of_place, place_text};
ghost use Rattle.rc_writing.specs.Texts.{head_text, no_place_line, refused_line, usage_text};

use rc_base::FileName;
use rc_network::{NetCause, NetRefusal};
use rc_outside::Sink;
use rc_report::{Buffer, Part, Puts, SinkFault, put_line};
use rc_words::{Ask, PlaceName, Source, WordText};

/// Puts a line as one piece, as it is. It needs no buffer.
fn put_piece<S: Sink>(out: &mut S, text: &[u8]) -> Result<(), SinkFault>
    ensures { IsPut S.Sink out.old out.new result text.now }
{
    match out.put(text) {
        Ok(()) => Ok(()),
        Err(_) => Err(SinkFault),
    }
}

/// The lines of the usage text.
#[tactic(auto, unfolding(crate::specs::Texts::usage_text))]
fn usage_lines() -> [&'static [u8]; 9]
    ensures { flat_map (λ text. text.now) result ≡ usage_text }
{
    [
        b"usage: netcheck routes DIR [--router R]\n",
        b"       netcheck trace DIR --from PLACE --dst A [--src A] [--proto N] [--sport N] [--dport N] [--type N] [--code N] [--ack N] [--rst N]\n",
        b"       netcheck reach DIR --from PLACE [--end KIND] [--examples N]\n",
        b"       netcheck loops DIR --from PLACE [--examples N]\n",
        b"       netcheck uneven DIR --from PLACE [--examples N]\n",
        b"       netcheck lines DIR [--router R]\n",
        b"       netcheck failures DIR --from PLACE --dst A [--end KIND] [--src A] [--proto N] [--sport N] [--dport N] [--type N] [--code N] [--ack N] [--rst N]\n",
        b"       netcheck sample N\n",
        b"options: --rounds N --workers N --nodes N\n",
    ]
}

/// Puts the usage text. It takes no memory.
pub(crate) fn put_usage<S: Sink>(out: &mut S) -> Result<(), SinkFault>
    ensures { IsPut S.Sink out.old out.new result usage_text }
{
    let lines = usage_lines();
    for text in &lines {
        put_piece(out, text)?;
    }
    Ok(())
}

/// The line of a refusal of a file.
#[tactic(auto, unfolding(crate::specs::Texts::refused_line))]
fn refusal_parts<'a>(file: &'a FileName, line: u64, cause: &NetCause) -> [Part<'a>; 7]
    ensures { flat_map part_text result ≡ refused_line (NetRefusal.InFile file.now line cause.now) }
{
    [
        Part::Text(b"refused "),
        Part::Text(file.as_str().as_bytes()),
        Part::Text(b":"),
        Part::Number(line),
        Part::Text(b": "),
        Part::Number(u64::from(cause.code())),
        Part::Text(b"\n"),
    ]
}

/// Puts the line of a refusal.
#[tactic(auto, unfolding(crate::specs::Texts::refused_line))]
fn put_refusal<S: Sink>(
    out: &mut S,
    line: &mut Buffer,
    refusal: &NetRefusal,
) -> Result<(), SinkFault>
    ensures { IsPut S.Sink out.old out.new result (refused_line refusal.now) }
{
    match refusal {
        NetRefusal::TooManyFiles => { put_line(out, line, &[Part::Text(b"refused folder: 10\n")]) }
        NetRefusal::InFile(file, number, cause) => {
            let parts = refusal_parts(file, *number, cause);
            put_line(out, line, &parts)
        }
    }
}

/// The line of a refusal.
#[derive(Drop)]
pub struct RefusedLine {
    pub refusal: NetRefusal,
}

impl Puts for RefusedLine {
    ghost ready = { λ r. Unit {0} };

    ghost says = { λ r text. text ≡ refused_line r.refusal };

    fn put<S: Sink>(self, out: &mut S, line: &mut Buffer) -> Result<(), SinkFault> {
        put_refusal(out, line, &self.refusal)
    }
}

/// The line of a made network.
#[tactic(auto, unfolding(crate::specs::Texts::head_text))]
fn head_parts(source: &Source) -> [Part<'static>; 3]
    ensures { flat_map part_text result ≡ head_text source.now }
{
    match source {
        Source::Folder(_) => [Part::Text(b""), Part::Text(b""), Part::Text(b"")],
        Source::Made(routers) => [
            Part::Text(b"sample "),
            Part::Number(u64::from(*routers)),
            Part::Text(b"\n"),
        ],
    }
}

/// Puts the line of a made network, and nothing for a folder.
fn put_head<S: Sink>(out: &mut S, line: &mut Buffer, source: &Source) -> Result<(), SinkFault>
    ensures { IsPut S.Sink out.old out.new result (head_text source.now) }
{
    let parts = head_parts(source);
    put_line(out, line, &parts)
}

/// The line of a made network, and nothing for a folder.
#[derive(Drop)]
pub(crate) struct HeadLine<'a> {
    pub source: &'a Source,
}

impl<'a> Puts for HeadLine<'a> {
    ghost ready = { λ h. Unit {0} };

    ghost says = { λ h text. text ≡ head_text h.source.now };

    fn put<S: Sink>(self, out: &mut S, line: &mut Buffer) -> Result<(), SinkFault> {
        put_head(out, line, self.source)
    }
}

/// What stands in the line of a place that isn't there, by its names. What it doesn't have is an empty text.
#[tactic(auto, unfolding(crate::specs::Texts::no_place_line))]
fn named_parts(place: &PlaceName) -> [Part<'_>; 5]
    ensures { flat_map part_text result ≡ no_place_line (name_of_place place.now) }
{
    match &place.interface {
        None => [
            Part::Text(b"no place "),
            Part::Text(place.router.as_bytes()),
            Part::Text(b""),
            Part::Text(b""),
            Part::Text(b"\n"),
        ],
        Some(interface) => [
            Part::Text(b"no place "),
            Part::Text(place.router.as_bytes()),
            Part::Text(b":"),
            Part::Text(interface.as_bytes()),
            Part::Text(b"\n"),
        ],
    }
}

/// The text of a router that isn't there.
fn router_text(router: &Option<WordText>) -> &[u8]
    ensures { result.now ≡ option_map_or (λ text. text) router.now [] }
{
    match router {
        None => &[],
        Some(text) => text.as_str().as_bytes(),
    }
}

/// What stands in the line of a router that isn't there. What it doesn't have is an empty text.
#[tactic(auto, unfolding(crate::specs::Texts::no_place_line))]
fn router_parts(router: &Option<WordText>) -> [Part<'_>; 5]
    ensures { flat_map part_text result ≡ no_place_line (option_map_or (λ text. text) router.now []) }
{
    [
        Part::Text(b"no place "),
        Part::Text(router_text(router)),
        Part::Text(b"\n"),
        Part::Text(b""),
        Part::Text(b""),
    ]
}

/// What stands in the line of a place that isn't there.
#[tactic(auto, unfolding(crate::specs::Texts::no_place_line))]
fn no_place_parts(ask: &Ask) -> [Part<'_>; 5]
    ensures { flat_map part_text result ≡ no_place_line (place_text ask.now) }
{
    match ask {
        Ask::Routes { router } => router_parts(router),
        Ask::Trace { place, header: _ } => named_parts(place),
        Ask::Reach {
            place,
            ends: _,
            examples: _,
        } => named_parts(place),
        Ask::Loops { place, examples: _ } => named_parts(place),
        Ask::Uneven { place, examples: _ } => named_parts(place),
        Ask::Lines { router } => router_parts(router),
        Ask::Failures {
            place,
            header: _,
            ends: _,
        } => named_parts(place),
        Ask::Summary => [
            Part::Text(b"no place "),
            Part::Text(b"r000"),
            Part::Text(b":"),
            Part::Text(b"GigabitEthernet0/3"),
            Part::Text(b"\n"),
        ],
    }
}

/// Puts the line of a place that isn't there.
fn put_no_place<S: Sink>(out: &mut S, line: &mut Buffer, ask: &Ask) -> Result<(), SinkFault>
    ensures { IsPut S.Sink out.old out.new result (no_place_line (place_text ask.now)) }
{
    let parts = no_place_parts(ask);
    put_line(out, line, &parts)
}

/// The line of a place that isn't there.
#[derive(Drop)]
pub struct NoPlaceLine<'a> {
    pub ask: &'a Ask,
}

impl<'a> Puts for NoPlaceLine<'a> {
    ghost ready = { λ n. Unit {0} };

    ghost says = { λ n text. text ≡ no_place_line (place_text n.ask.now) };

    fn put<S: Sink>(self, out: &mut S, line: &mut Buffer) -> Result<(), SinkFault> {
        put_no_place(out, line, self.ask)
    }
}
