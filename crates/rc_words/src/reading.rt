//! The request that words make.
ghost use Rattle.std.specs.Prelude.{◌≡◌, ◌≢◌, ◌<◌, ◌≤◌, ◌^◌, ◌==◌, [], length, map, Some, None, Err, IfOk, IfSome, option_map};
ghost use Rattle.std.specs.List.{position};
ghost use Rattle.clap.specs.Words.{fault_of, kind_of, subcommand_of, subcommand_rows_of, found_of, rows_of, first_of};
ghost use Rattle.rc_base.specs.Fields.{width};
ghost use Rattle.rc_openings.specs.Values.{at_most};
ghost use Rattle.rc_words.specs.App.{netcheck_app};
ghost use Rattle.rc_words.specs.Faults.{fault_by};
ghost use Rattle.rc_words.specs.Request.{place_cut, place_of, number_at, address_at, place_at, limits_at, field_at, header_at, ends_at, trace_at, reach_at, packets_at, failures_at, source_at, ask_at, request_at, request_of, AreInRange, IsSourceInRange, IsAskInRange, is_made, is_summary};

use crate::app::{greatest_of, netcheck_command, word_of};
use crate::endings::endings_in;
use crate::request::{Ask, Limits, PlaceName, Request, Source, WordText, WordsFault};
use clap::error::ErrorKind;
use clap::{ArgMatches, Error};
use rc_base::{Addr, Ends, Field, Header, Name};
use rc_openings::word_addr;
use std::alloc::Global;

fn number_given(found: &ArgMatches, name: &str) -> Option<u32>
    ensures { result ≡ number_at 32 name.now (rows_of (found_of found.now)) }
{
    found.get_one::<u32>(name)
}

fn text_given<'a>(found: &ArgMatches<'a>, name: &str) -> Option<&'a str>
    ensures { option_map (λ s. s.now) result ≡ first_of name.now (rows_of (found_of found.now)) }
{
    found.get_str(name)
}

fn addr_given(found: &ArgMatches, name: &str) -> Option<Addr>
    ensures { result ≡ address_at name.now (rows_of (found_of found.now)) }
{
    match text_given(found, name) {
        Some(text) => word_addr(text.as_bytes()),
        None => None,
    }
}

// The number of an option, where it isn't above the greatest.
fn number_up_to(found: &ArgMatches, name: &str, greatest: u64) -> Option<u32>
    ensures number { result ≡ at_most greatest (number_at 32 name.now (rows_of (found_of found.now))) }
    ensures most { IfSome result (λ n. n ≤ greatest) }
{
    let number = number_given(found, name)?;
    if u64::from(number) <= greatest {
        Some(number)
    } else {
        None
    }
}

// The number of a field of the header.
fn field_given(found: &ArgMatches, field: Field) -> Option<u32>
    ensures number { result ≡ field_at (rows_of (found_of found.now)) field }
    ensures small { IfSome result (λ n. n < 2 ^ width field) }
{
    match field {
        Field::Dst | Field::Src => Some(addr_given(found, word_of(field))?.bits()),
        _ => number_up_to(found, word_of(field), greatest_of(field)),
    }
}

fn first_colon(text: &[u8]) -> Option<usize>
    ensures first { result ≡ position (λ b. b == 58) text.now }
    ensures within { IfSome result (λ n. n < length text.now) }
{
    text.iter().position(|b| *b == b':')
}

fn router_in(text: &[u8]) -> Option<PlaceName>
    ensures { result ≡ place_cut None text.now }
{
    let router = Name::new(text)?;
    Some(PlaceName {
        router,
        interface: None,
    })
}

fn interface_in(text: &[u8], colon: usize) -> Option<PlaceName>
    requires { colon < length text.now }
    ensures { result ≡ place_cut (Some colon) text.now }
{
    let router = Name::new(&text[..colon])?;
    let interface = Name::new(&text[colon + 1..])?;
    Some(PlaceName {
        router,
        interface: Some(interface),
    })
}

// The place that a text names: the router stands before its first colon, the interface after it.
fn place_in(text: &[u8]) -> Option<PlaceName>
    ensures { result ≡ place_of text.now }
{
    match first_colon(text) {
        None => router_in(text),
        Some(colon) => interface_in(text, colon),
    }
}

fn place_given(found: &ArgMatches, name: &str) -> Option<PlaceName>
    ensures { result ≡ place_at name.now (rows_of (found_of found.now)) }
{
    match text_given(found, name) {
        Some(text) => place_in(text.as_bytes()),
        None => None,
    }
}

// The endings that are asked for.
fn ends_given(found: &ArgMatches) -> Option<Ends>
    ensures { result ≡ ends_at (rows_of (found_of found.now)) }
{
    endings_in(text_given(found, "end"))
}

fn limits_given(found: &ArgMatches) -> Option<Limits>
    ensures { result ≡ limits_at (rows_of (found_of found.now)) }
{
    let rounds = number_given(found, "rounds")?;
    let workers = number_given(found, "workers")?;
    let nodes = number_given(found, "nodes")?;
    Some(Limits {
        rounds,
        workers,
        nodes,
    })
}

fn header_given(found: &ArgMatches) -> Option<Header>
    ensures { result ≡ header_at (rows_of (found_of found.now)) }
{
    let mut header = Header::zeros();
    for field in Field::all() {
        let number = field_given(found, *field)?;
        header = field.with(number, &header);
    }
    Some(header)
}

fn kept(alloc: Global, text: &str) -> Result<WordText, WordsFault>
    ensures taken { IfOk result (λ word. word ≡ text.now) }
    ensures memory { result ≢ Err WordsFault.Usage }
{
    match WordText::new(alloc, text) {
        Ok(word) => Ok(word),
        Err(_) => Err(WordsFault::Memory),
    }
}

// The text of an option that may be left out.
fn text_kept(alloc: Global, found: &ArgMatches, name: &str) -> Result<Option<WordText>, WordsFault>
    ensures taken { IfOk result (λ word. word ≡ first_of name.now (rows_of (found_of found.now))) }
    ensures memory { result ≢ Err WordsFault.Usage }
{
    match text_given(found, name) {
        Some(text) => match kept(alloc, text) {
            Ok(word) => Ok(Some(word)),
            Err(fault) => Err(fault),
        },
        None => Ok(None),
    }
}

// The network that the command of this name is about.
fn source_given(alloc: Global, name: &str, found: &ArgMatches) -> Result<Source, WordsFault>
    ensures taken { IfOk result (λ source. source_at name.now (rows_of (found_of found.now)) ≡ Some source) }
    ensures usage { result ≡ Err WordsFault.Usage → source_at name.now (rows_of (found_of found.now)) ≡ None }
{
    if name == "sample" {
        let Some(routers) = number_given(found, "N") else {
            return Err(WordsFault::Usage);
        };
        return Ok(Source::Made(routers));
    }
    let Some(dir) = text_given(found, "DIR") else {
        return Err(WordsFault::Usage);
    };
    let dir = kept(alloc, dir)?;
    Ok(Source::Folder(dir))
}

fn trace_given(found: &ArgMatches) -> Option<Ask>
    ensures { result ≡ trace_at (rows_of (found_of found.now)) }
{
    let place = place_given(found, "from")?;
    let header = header_given(found)?;
    Some(Ask::Trace { place, header })
}

fn reach_given(found: &ArgMatches) -> Option<Ask>
    ensures { result ≡ reach_at (rows_of (found_of found.now)) }
{
    let place = place_given(found, "from")?;
    let ends = ends_given(found)?;
    let examples = number_given(found, "examples")?;
    Some(Ask::Reach {
        place,
        ends,
        examples,
    })
}

fn loops_given(found: &ArgMatches) -> Option<Ask>
    ensures { result ≡ packets_at Ask.Loops (rows_of (found_of found.now)) }
{
    let place = place_given(found, "from")?;
    let examples = number_given(found, "examples")?;
    Some(Ask::Loops { place, examples })
}

fn uneven_given(found: &ArgMatches) -> Option<Ask>
    ensures { result ≡ packets_at Ask.Uneven (rows_of (found_of found.now)) }
{
    let place = place_given(found, "from")?;
    let examples = number_given(found, "examples")?;
    Some(Ask::Uneven { place, examples })
}

fn failures_given(found: &ArgMatches) -> Option<Ask>
    ensures { result ≡ failures_at (rows_of (found_of found.now)) }
{
    let place = place_given(found, "from")?;
    let header = header_given(found)?;
    let ends = ends_given(found)?;
    Some(Ask::Failures {
        place,
        header,
        ends,
    })
}

// What the command of this name asks.
fn ask_given(alloc: Global, name: &str, found: &ArgMatches) -> Result<Ask, WordsFault>
    ensures taken { IfOk result (λ ask. ask_at name.now (rows_of (found_of found.now)) ≡ Some ask) }
    ensures usage { result ≡ Err WordsFault.Usage → ask_at name.now (rows_of (found_of found.now)) ≡ None }
{
    if name == "routes" {
        let router = text_kept(alloc, found, "router")?;
        return Ok(Ask::Routes { router });
    }
    if name == "lines" {
        let router = text_kept(alloc, found, "router")?;
        return Ok(Ask::Lines { router });
    }
    let asked = if name == "trace" {
        trace_given(found)
    } else if name == "reach" {
        reach_given(found)
    } else if name == "loops" {
        loops_given(found)
    } else if name == "uneven" {
        uneven_given(found)
    } else if name == "failures" {
        failures_given(found)
    } else if name == "sample" {
        Some(Ask::Summary)
    } else {
        None
    };
    asked.ok_or(WordsFault::Usage)
}

// The request of what clap found: the command's name decides how its matches are read.
fn request_given(alloc: Global, matches: &ArgMatches) -> Result<Request, WordsFault>
    ensures taken { IfOk result (λ r. request_at (subcommand_rows_of matches.now) ≡ Some r) }
    ensures usage { result ≡ Err WordsFault.Usage → request_at (subcommand_rows_of matches.now) ≡ None }
{
    let Some((name, found)) = matches.subcommand() else {
        return Err(WordsFault::Usage);
    };
    let Some(limits) = limits_given(found) else {
        return Err(WordsFault::Usage);
    };
    let source = source_given(alloc, name, found)?;
    let ask = ask_given(alloc, name, found)?;
    Ok(Request {
        source,
        ask,
        limits,
    })
}

// Why clap gave no matches.
fn fault_from(error: &Error) -> WordsFault
    ensures { result ≡ fault_by (kind_of error.now) }
{
    match error.kind() {
        ErrorKind::OutOfMemory => WordsFault::Memory,
        _ => WordsFault::Usage,
    }
}

// What clap makes of the words.
fn matches_of_words<'a>(alloc: Global, words: &'a [&'a str]) -> Result<ArgMatches<'a>, WordsFault>
    ensures usage { result ≡ Err WordsFault.Usage → fault_of netcheck_app (map (λ w. w.now) words.entry.now) ≢ [] }
    ensures taken { IfOk result (λ _. fault_of netcheck_app (map (λ w. w.now) words.entry.now) ≡ []) }
    ensures rows { IfOk result (λ m. subcommand_rows_of m ≡ subcommand_of netcheck_app (map (λ w. w.now) words.entry.now)) }
{
    let Ok(command) = netcheck_command(alloc) else {
        return Err(WordsFault::Memory);
    };
    match command.try_get_matches_from(words) {
        Ok(matches) => Ok(matches),
        Err(error) => Err(fault_from(&error)),
    }
}

/// The request that the words after the program's name make.
///
/// It errs with `Usage` where they make none, and with `Memory` where memory was short. A made network is asked for its
/// summary, and a folder's for anything else.
pub fn request_of_words(alloc: Global, words: &[&str]) -> Result<Request, WordsFault>
    ensures taken { IfOk result (λ r. request_of (map (λ w. w.now) words.now) ≡ Some r) }
    ensures usage { result ≡ Err WordsFault.Usage → request_of (map (λ w. w.now) words.now) ≡ None }
    ensures in_range { IfOk result (λ r. AreInRange r.limits) }
    ensures source { IfOk result (λ r. IsSourceInRange r.source) }
    ensures ask { IfOk result (λ r. IsAskInRange r.ask) }
    ensures made { IfOk result (λ r. is_made r.source ≡ is_summary r.ask) }
{
    match matches_of_words(alloc, words) {
        Ok(matches) => request_given(alloc, &matches),
        Err(fault) => Err(fault),
    }
}
