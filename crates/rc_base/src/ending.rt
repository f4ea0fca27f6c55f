//! The endings of a walk.
ghost use Rattle.std.specs.Prelude.{◌≡◌, ◌<◌, Some, slice_get};
ghost use Rattle.rc_base.specs.Endings.{all_kinds, kind_named, kind_word};
ghost use Rattle.rc_base.specs.Positions.{is_among};

/// How a walk ends.
#[derive(Clone, Copy, PartialEq, Eq)]
pub enum Kind {
    /// An inbound access list denies the packet.
    DeniedIn,
    /// The router owns the destination.
    Accepted,
    /// No route holds the destination, or none of its hops resolves.
    NoRoute,
    /// The route leads to Null0.
    NullRouted,
    /// An outbound access list denies the packet.
    DeniedOut,
    /// The route leads onto a loopback.
    Unreachable,
    /// The packet leaves for a gateway that no router of the network has.
    Exits,
    /// The packet comes to a host of a connected subnet.
    Delivered,
}

/// All endings, in their order.
const KINDS: [Kind; 8] = [
    Kind::DeniedIn,
    Kind::Accepted,
    Kind::NoRoute,
    Kind::NullRouted,
    Kind::DeniedOut,
    Kind::Unreachable,
    Kind::Exits,
    Kind::Delivered,
];

impl Kind {
    /// The ending of an index, from 0 to 7, in their order.
    pub fn at(index: usize) -> Kind
        requires { index < 8 }
        ensures { slice_get all_kinds index ≡ Some result }
    {
        KINDS[index]
    }

    /// The word of the ending, on the command line and at the end of a walk.
    pub fn word(self) -> &'static str
        ensures { result.now ≡ kind_word self }
    {
        match self {
            Kind::DeniedIn => "denied-in",
            Kind::Accepted => "accepted",
            Kind::NoRoute => "no-route",
            Kind::NullRouted => "null-routed",
            Kind::DeniedOut => "denied-out",
            Kind::Unreachable => "unreachable",
            Kind::Exits => "exits",
            Kind::Delivered => "delivered",
        }
    }

    /// The ending for which a text is the word, or `None` exactly where it is the word for none.
    pub fn named(text: &str) -> Option<Kind>
        ensures { result ≡ kind_named text.now }
    {
        KINDS.iter().copied().find(|kind| kind.word() == text)
    }
}

/// A set of endings.
#[derive(Clone, Copy)]
pub struct Ends {
    pub denied_in: bool,
    pub accepted: bool,
    pub no_route: bool,
    pub null_routed: bool,
    pub denied_out: bool,
    pub unreachable: bool,
    pub exits: bool,
    pub delivered: bool,
}

impl Ends {
    /// Whether an ending is in the set.
    pub fn has(&self, kind: Kind) -> bool
        ensures { result ≡ is_among self.now kind }
    {
        match kind {
            Kind::DeniedIn => self.denied_in,
            Kind::Accepted => self.accepted,
            Kind::NoRoute => self.no_route,
            Kind::NullRouted => self.null_routed,
            Kind::DeniedOut => self.denied_out,
            Kind::Unreachable => self.unreachable,
            Kind::Exits => self.exits,
            Kind::Delivered => self.delivered,
        }
    }
}
