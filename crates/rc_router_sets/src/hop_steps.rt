//! The sets of one hop, and what each of them is made of.
ghost use Rattle.std.specs.Prelude.{◌≡◌};
ghost use Rattle.rc_router_sets.specs.Steps as spec;

use rc_base::{IfId, Pos, RouterId};
use rc_route::Hop;

/// A set of a hop that is the same wherever a packet enters the router, but for the router's own packets, of which no outbound list is
/// asked.
#[derive(Clone, Copy)]
pub enum Part {
    /// What the table sends over the hop.
    Over,
    /// What the outbound list of its interface passes.
    LetOut,
    /// The destinations that some interface on a link of its interface takes.
    Taken,
    /// The destinations in a subnet of its interface.
    Subnets,
}

/// A set of a hop at a position. Each but the first is an earlier one with a part of the hop, or without it.
#[derive(Clone, Copy)]
pub enum Step {
    /// What the router takes in and does not keep.
    Forwarded,
    /// Of these what its table sends over the hop.
    Sent,
    /// Of what is sent what the outbound list lets out.
    Leaving,
    /// Of what is sent what the outbound list denies.
    Stopped,
    /// Of what leaves what nobody on the links of the hop's interface takes.
    Untaken,
    /// Of what nobody takes what goes to a subnet of the interface.
    Kept,
    /// Of what nobody takes what goes to no subnet of the interface.
    Rest,
}

impl Step {
    /// Whether it is the first one.
    pub fn is_first(self) -> bool
        ensures { result ≡ spec.is_first self }
    {
        match self {
            Step::Forwarded => true,
            Step::Sent | Step::Leaving | Step::Stopped | Step::Untaken | Step::Kept | Step::Rest =>
                false,
        }
    }

    /// The step before it.
    pub fn earlier(self) -> Step
        ensures { result ≡ spec.earlier self }
    {
        match self {
            Step::Forwarded | Step::Sent => Step::Forwarded,
            Step::Leaving | Step::Stopped => Step::Sent,
            Step::Untaken => Step::Leaving,
            Step::Kept | Step::Rest => Step::Untaken,
        }
    }

    /// The part that it is made with.
    pub fn second(self) -> Part
        ensures { result ≡ spec.second self }
    {
        match self {
            Step::Forwarded | Step::Sent => Part::Over,
            Step::Leaving | Step::Stopped => Part::LetOut,
            Step::Untaken => Part::Taken,
            Step::Kept | Step::Rest => Part::Subnets,
        }
    }

    /// Whether the headers of the part are taken away, and not kept alone.
    pub fn takes_away(self) -> bool
        ensures { result ≡ spec.takes_away self }
    {
        match self {
            Step::Forwarded | Step::Sent | Step::Leaving | Step::Kept => false,
            Step::Stopped | Step::Untaken | Step::Rest => true,
        }
    }
}

/// Whether a part is all headers at a position: no outbound list is asked of the router's own packets.
pub fn is_everything(part: Part, position: &Pos) -> bool
    ensures { result ≡ spec.is_everything part position.now }
{
    match part {
        Part::LetOut => match position {
            Pos::Own(_) => true,
            Pos::Entering(_) => false,
        },
        Part::Over | Part::Taken | Part::Subnets => false,
    }
}

/// The interface of a hop, the first one of all where it has none.
pub fn device(hop: &Hop) -> IfId
    ensures { result ≡ spec.device hop.now }
{
    match hop {
        Hop::Dev(interface) => *interface,
        Hop::Via(_, through) => match through {
            Some(interface) => *interface,
            None => IfId {
                router: RouterId::at(0),
                index: 0,
            },
        },
        Hop::Null => IfId {
            router: RouterId::at(0),
            index: 0,
        },
    }
}
