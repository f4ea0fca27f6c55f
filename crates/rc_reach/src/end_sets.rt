//! Sets of endings.
ghost use Rattle.std.specs.Prelude.{◌≡◌};
ghost use Rattle.rc_reach.specs.Uneven.{all_ends, arrivals, failures, no_ends};

use rc_base::Ends;

/// No ending.
pub(crate) fn no_ends() -> Ends
    ensures { result ≡ no_ends }
{
    Ends {
        denied_in: false,
        accepted: false,
        no_route: false,
        null_routed: false,
        denied_out: false,
        unreachable: false,
        exits: false,
        delivered: false,
    }
}

/// Every ending.
pub(crate) fn all_ends() -> Ends
    ensures { result ≡ all_ends }
{
    Ends {
        denied_in: true,
        accepted: true,
        no_route: true,
        null_routed: true,
        denied_out: true,
        unreachable: true,
        exits: true,
        delivered: true,
    }
}

/// The endings at which a packet comes to its destination: a router takes it, or it leaves onto the subnet that holds it.
pub fn arrivals() -> Ends
    ensures { result ≡ arrivals }
{
    let mut ends = no_ends();
    ends.accepted = true;
    ends.delivered = true;
    ends
}

/// The other six endings.
pub fn failures() -> Ends
    ensures { result ≡ failures }
{
    let mut ends = all_ends();
    ends.accepted = false;
    ends.delivered = false;
    ends
}
