//! Endings as the command line names them.
ghost use Rattle.std.specs.Prelude.{◌≡◌, option_map};
ghost use Rattle.rc_words.specs.Endings as spec;

use rc_base::{Ends, Kind};

/// No ending.
fn no_endings() -> Ends
    ensures { result ≡ spec.no_endings }
{
    Ends {
        denied_in: false,
        accepted: false,
        no_route: false,
        null_routed: false,
        denied_out: false,
        unreachable: false,
        exits: false,
        delivered: false,
    }
}

/// One ending alone.
fn only(kind: Kind) -> Ends
    ensures { result ≡ spec.only kind }
{
    let mut ends = no_endings();
    match kind {
        Kind::DeniedIn => ends.denied_in = true,
        Kind::Accepted => ends.accepted = true,
        Kind::NoRoute => ends.no_route = true,
        Kind::NullRouted => ends.null_routed = true,
        Kind::DeniedOut => ends.denied_out = true,
        Kind::Unreachable => ends.unreachable = true,
        Kind::Exits => ends.exits = true,
        Kind::Delivered => ends.delivered = true,
    }
    ends
}

/// The endings at which a packet comes to its destination: a router takes it, or it leaves onto the subnet that holds it.
fn arrivals() -> Ends
    ensures { result ≡ spec.arrivals }
{
    let mut ends = no_endings();
    ends.accepted = true;
    ends.delivered = true;
    ends
}

/// The endings that are asked for, where the text of `--end`, if there is one, names one.
pub(crate) fn endings_in(text: Option<&str>) -> Option<Ends>
    ensures { result ≡ spec.endings_of (option_map (λ t. t.now) text.entry) }
{
    match text {
        None => Some(arrivals()),
        Some(text) => match Kind::named(text) {
            None => None,
            Some(kind) => Some(only(kind)),
        },
    }
}
