//! The command that the words are read by, as clap is told it.
//!
//! Each command is a list of arguments, and one loop tells clap of them; the fields of a packet's header are one list, which
//! the commands about one packet share. Joining takes two commands as they were made, want of memory too, so no function
//! above it has a way on of its own.
ghost use Rattle.std.specs.Prelude.{◌≡◌, false, codes, fold, map, IfOk};
ghost use Rattle.rc_base.specs.Fields.{name};
ghost use Rattle.clap.specs.Words.{App, rule_of, new_app, with_rule, with_subcommand};
ghost use Rattle.rc_words.specs.App.{number_option, text_option, wanted_option, default_option, dir_argument, count_argument, routes_app, trace_app, reach_app, loops_app, uneven_app, lines_app, failures_app, sample_app, with_header, with_limits, with_settings, netcheck_app};
ghost use Rattle.rc_words.specs.Arguments.{IsTold, rule_told};
ghost use Rattle.rc_words.specs.HeaderOptions.{greatest};

use clap::builder::ValueParser;
use clap::{Arg, Command};
use rc_base::Field;
use std::alloc::{AllocError, Global};

fn limit_option<'a>(
    alloc: Global,
    name: &'a str,
    least: u64,
    most: u64,
    default: &'a str,
) -> Arg<'a>
    ensures rule { rule_of result ≡ number_option name.entry.now least most default.entry.now }
    ensures local { result.global ≡ false }
{
    Arg::new(alloc, name)
        .long(name)
        .value_parser(ValueParser::Unsigned(least, most))
        .default_value(default)
}

fn plain_option<'a>(alloc: Global, name: &'a str) -> Arg<'a>
    ensures rule { rule_of result ≡ text_option name.entry.now }
    ensures local { result.global ≡ false }
{
    Arg::new(alloc, name).long(name)
}

fn required_option<'a>(alloc: Global, name: &'a str) -> Arg<'a>
    ensures rule { rule_of result ≡ wanted_option name.entry.now }
    ensures local { result.global ≡ false }
{
    Arg::new(alloc, name).long(name).required(true)
}

fn source_option<'a>(alloc: Global) -> Arg<'a>
    ensures rule { rule_of result ≡ default_option (codes "src") (codes "0.0.0.0") }
    ensures local { result.global ≡ false }
{
    Arg::new(alloc, "src").long("src").default_value("0.0.0.0")
}

/// The word of a field's option.
pub(crate) fn word_of(field: Field) -> &'static str
    ensures { result.now ≡ name field }
{
    match field {
        Field::Dst => "dst",
        Field::Src => "src",
        Field::Proto => "proto",
        Field::Sport => "sport",
        Field::Dport => "dport",
        Field::IcmpType => "type",
        Field::IcmpCode => "code",
        Field::Ack => "ack",
        Field::Rst => "rst",
    }
}

/// The greatest number of a field.
pub(crate) fn greatest_of(field: Field) -> u64
    ensures { result ≡ greatest field }
{
    (1 << field.width()) - 1
}

fn folder_argument<'a>(alloc: Global) -> Arg<'a>
    ensures rule { rule_of result ≡ dir_argument }
    ensures local { result.global ≡ false }
{
    Arg::new(alloc, "DIR").required(true)
}

fn count_of_routers<'a>(alloc: Global) -> Arg<'a>
    ensures rule { rule_of result ≡ count_argument }
    ensures local { result.global ≡ false }
{
    Arg::new(alloc, "N")
        .value_parser(ValueParser::Unsigned(4, 512))
        .required(true)
}

/// An argument of a command.
#[derive(Clone, Copy)]
pub(crate) enum Argument {
    /// `--NAME N`: a number from least to most, and what stands for it where it isn't given.
    Number {
        name: &'static str,
        least: u64,
        most: u64,
        default: &'static str,
    },
    /// `--NAME TEXT`, which may be left out.
    Text(&'static str),
    /// `--NAME TEXT`, which has to be there.
    Wanted(&'static str),
    /// The source address of a packet.
    Source,
    /// DIR.
    Folder,
    /// N, the number of routers of a made network.
    Count,
}

// The same argument, as clap is told it.
fn told<'a>(alloc: Global, argument: &Argument) -> Arg<'a>
    ensures rule { rule_of result ≡ rule_told argument.now }
    ensures local { result.global ≡ false }
{
    match argument {
        Argument::Number {
            name,
            least,
            most,
            default,
        } => limit_option(alloc, name, *least, *most, default),
        Argument::Text(name) => plain_option(alloc, name),
        Argument::Wanted(name) => required_option(alloc, name),
        Argument::Source => source_option(alloc),
        Argument::Folder => folder_argument(alloc),
        Argument::Count => count_of_routers(alloc),
    }
}

// A command with these arguments behind those that it has.
fn with_arguments<'a>(
    alloc: Global,
    mut command: Command<'a>,
    arguments: &[Argument],
) -> Result<Command<'a>, AllocError>
    ensures { (a : App) → IsTold command.entry a → IfOk result (λ c. IsTold c (fold with_rule a (map rule_told arguments.now))) }
{
    for argument in arguments {
        command = command.arg(told(alloc, argument))?;
    }
    Ok(command)
}

// A command with these arguments.
fn command_of<'a>(
    alloc: Global,
    name: &'static str,
    arguments: &[Argument],
) -> Result<Command<'a>, AllocError>
    ensures { IfOk result (λ c. IsTold c (fold with_rule (new_app name.now) (map rule_told arguments.now))) }
{
    with_arguments(alloc, Command::new(alloc, name), arguments)
}

const PROTO: Argument = Argument::Number {
    name: "proto",
    least: 0,
    most: 255,
    default: "0",
};

const SPORT: Argument = Argument::Number {
    name: "sport",
    least: 0,
    most: 65_535,
    default: "0",
};

const DPORT: Argument = Argument::Number {
    name: "dport",
    least: 0,
    most: 65_535,
    default: "0",
};

const TYPE: Argument = Argument::Number {
    name: "type",
    least: 0,
    most: 255,
    default: "0",
};

const CODE: Argument = Argument::Number {
    name: "code",
    least: 0,
    most: 255,
    default: "0",
};

const ACK: Argument = Argument::Number {
    name: "ack",
    least: 0,
    most: 1,
    default: "0",
};

const RST: Argument = Argument::Number {
    name: "rst",
    least: 0,
    most: 1,
    default: "0",
};

const EXAMPLES: Argument = Argument::Number {
    name: "examples",
    least: 0,
    most: 1000,
    default: "0",
};

const ROUNDS: Argument = Argument::Number {
    name: "rounds",
    least: 1,
    most: 100_000,
    default: "1000",
};

const WORKERS: Argument = Argument::Number {
    name: "workers",
    least: 1,
    most: 64,
    default: "4",
};

const NODES: Argument = Argument::Number {
    name: "nodes",
    least: 16,
    most: 16_777_216,
    default: "1048576",
};

fn routes_command<'a>(alloc: Global) -> Result<Command<'a>, AllocError>
    ensures { IfOk result (λ c. IsTold c routes_app) }
{
    command_of(
        alloc,
        "routes",
        &[
            Argument::Folder,
            Argument::Text("router"),
            ROUNDS,
            WORKERS,
            NODES,
        ],
    )
}

// A command about one packet: behind its own arguments come the fields of the packet's header, and the limits.
fn packet_command<'a>(
    alloc: Global,
    name: &'static str,
    own: &[Argument],
) -> Result<Command<'a>, AllocError>
    ensures { IfOk result (λ c. IsTold c (with_limits (with_header (fold with_rule (new_app name.now) (map rule_told own.now))))) }
{
    let command = command_of(alloc, name, own)?;
    with_arguments(
        alloc,
        command,
        &[
            Argument::Wanted("dst"),
            Argument::Source,
            PROTO,
            SPORT,
            DPORT,
            TYPE,
            CODE,
            ACK,
            RST,
            ROUNDS,
            WORKERS,
            NODES,
        ],
    )
}

fn trace_command<'a>(alloc: Global) -> Result<Command<'a>, AllocError>
    ensures { IfOk result (λ c. IsTold c trace_app) }
{
    packet_command(
        alloc,
        "trace",
        &[Argument::Folder, Argument::Wanted("from")],
    )
}

fn reach_command<'a>(alloc: Global) -> Result<Command<'a>, AllocError>
    ensures { IfOk result (λ c. IsTold c reach_app) }
{
    command_of(
        alloc,
        "reach",
        &[
            Argument::Folder,
            Argument::Wanted("from"),
            Argument::Text("end"),
            EXAMPLES,
            ROUNDS,
            WORKERS,
            NODES,
        ],
    )
}

fn loops_command<'a>(alloc: Global) -> Result<Command<'a>, AllocError>
    ensures { IfOk result (λ c. IsTold c loops_app) }
{
    command_of(
        alloc,
        "loops",
        &[
            Argument::Folder,
            Argument::Wanted("from"),
            EXAMPLES,
            ROUNDS,
            WORKERS,
            NODES,
        ],
    )
}

fn uneven_command<'a>(alloc: Global) -> Result<Command<'a>, AllocError>
    ensures { IfOk result (λ c. IsTold c uneven_app) }
{
    command_of(
        alloc,
        "uneven",
        &[
            Argument::Folder,
            Argument::Wanted("from"),
            EXAMPLES,
            ROUNDS,
            WORKERS,
            NODES,
        ],
    )
}

fn lines_command<'a>(alloc: Global) -> Result<Command<'a>, AllocError>
    ensures { IfOk result (λ c. IsTold c lines_app) }
{
    command_of(
        alloc,
        "lines",
        &[
            Argument::Folder,
            Argument::Text("router"),
            ROUNDS,
            WORKERS,
            NODES,
        ],
    )
}

fn failures_command<'a>(alloc: Global) -> Result<Command<'a>, AllocError>
    ensures { IfOk result (λ c. IsTold c failures_app) }
{
    packet_command(
        alloc,
        "failures",
        &[
            Argument::Folder,
            Argument::Wanted("from"),
            Argument::Text("end"),
        ],
    )
}

fn sample_command<'a>(alloc: Global) -> Result<Command<'a>, AllocError>
    ensures { IfOk result (λ c. IsTold c sample_app) }
{
    command_of(alloc, "sample", &[Argument::Count, ROUNDS, WORKERS, NODES])
}

// The words begin with a command's name, and there is no help to ask for.
fn settings<'a>(alloc: Global) -> Command<'a>
    ensures { IsTold result (with_settings (new_app (codes "netcheck"))) }
{
    Command::new(alloc, "netcheck")
        .no_binary_name(true)
        .disable_help_flag(true)
        .disable_help_subcommand(true)
        .subcommand_required(true)
}

// A command with one more command below it, where there was memory for both.
fn with_command<'a>(
    command: Result<Command<'a>, AllocError>,
    below: Result<Command<'a>, AllocError>,
) -> Result<Command<'a>, AllocError>
    ensures { (a b : App) → IfOk command.entry (λ c. IsTold c a) → IfOk below.entry (λ c. IsTold c b) → IfOk result (λ c. IsTold c (with_subcommand a b.top)) }
{
    match command {
        Ok(command) => match below {
            Ok(below) => command.subcommand(below),
            Err(error) => Err(error),
        },
        Err(error) => Err(error),
    }
}

/// The whole command line.
pub(crate) fn netcheck_command<'a>(alloc: Global) -> Result<Command<'a>, AllocError>
    ensures { IfOk result (λ c. IsTold c netcheck_app) }
{
    let command = with_command(Ok(settings(alloc)), routes_command(alloc));
    let command = with_command(command, trace_command(alloc));
    let command = with_command(command, reach_command(alloc));
    let command = with_command(command, loops_command(alloc));
    let command = with_command(command, uneven_command(alloc));
    let command = with_command(command, lines_command(alloc));
    let command = with_command(command, failures_command(alloc));
    with_command(command, sample_command(alloc))
}
