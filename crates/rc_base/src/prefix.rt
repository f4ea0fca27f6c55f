//! Prefixes of addresses.
ghost use Rattle.std.specs.Prelude.{◌≡◌, ◌≤◌};
ghost use Rattle.std.specs.Option.{SomeIff};

use crate::Addr;
use std::marker::Model;

/// A prefix (RFC 4632 s.3.1): a length from 0 to 32, and an address whose bits after so many are 0.
///
/// Prefixes are ordered by address, then length.
#[derive(Clone, Copy, PartialEq, Eq, PartialOrd, Ord)]
pub struct Prefix {
    network: Addr,
    len: u8,
}

impl Model for Prefix {
    ghost use Rattle.rc_base.specs.Prefix.{Cidr, IsCidr};

    ghost Value = { Cidr };

    ghost view = { λ p. record { network = p.network; len = p.len } };

    ghost invariant = { λ p. IsCidr (record { network = p.network; len = p.len }) };

    ghost inverse = { λ p. record { network = p.network; len = p.len } };
}

impl Prefix {
    ghost use Rattle.rc_base.specs.Prefix.{prefix_at, contains, covers, default_prefix, is_default, IsCidr};

    /// The prefix of this length that holds an address, or `None` exactly where the length is over 32.
    pub fn new(addr: Addr, len: u8) -> Option<Prefix>
        ensures { SomeIff result (len ≤ 32) (prefix_at addr len) }
    {
        if len > 32 {
            return None;
        }
        let network = addr.without_host_bits(len);
        Some(Prefix { network, len })
    }

    /// 0.0.0.0/0, the prefix of a default route.
    pub fn default_route() -> Prefix
        ensures { result ≡ default_prefix }
    {
        Prefix::new(Addr::new(0), 0).unwrap()
    }

    /// Whether it is 0.0.0.0/0.
    pub fn is_default(&self) -> bool
        ensures { result ≡ is_default self.now }
    {
        *self == Prefix::default_route()
    }

    /// Its first address.
    pub fn network(&self) -> Addr
        ensures value { result ≡ self.now.network }
        ensures canonical { IsCidr self.now }
    {
        self.network
    }

    /// How many of its bits count, from 0 to 32.
    pub fn len(&self) -> u8
        ensures value { result ≡ self.now.len }
        ensures short { result ≤ 32 }
    {
        self.len
    }

    /// Whether the address is one of the prefix's.
    pub fn contains(&self, addr: Addr) -> bool
        ensures { result ≡ contains self.now addr }
    {
        addr.leading_bits(self.len) == self.network.leading_bits(self.len)
    }

    /// Whether each address of the other prefix is one of this one.
    pub fn covers(&self, other: &Prefix) -> bool
        ensures { result ≡ covers self.now other.now }
    {
        self.len <= other.len && self.contains(other.network)
    }
}
