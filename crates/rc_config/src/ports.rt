//! The ports that one test of an access list names.
ghost use Rattle.std.specs.Prelude.{◌≡◌, ◌∷◌, [], ◌++◌, ◌<◌, IsTrue, length, nat_eq};
ghost use Rattle.std.specs.Option.{SomeIff};
ghost use Rattle.std.specs.Cmp.{partial_order_from_own_ties, nat_eq_equiv};
ghost use Rattle.std.specs.Cmp.Rules.{comparing};
ghost use Rattle.std.specs.Cmp.Lexicographic.{pointwise, slice_cmp};
ghost use Rattle.std.specs.Ordering.{nat_cmp, as_partial_cmp};
ghost use Rattle.std.proofs.Common.{rules};
ghost use Rattle.rc_config.specs.PortLists.{are_ports, ports_of};

use std::cmp::Ordering;
use std::marker::Model;

/// The one to ten ports of a test `eq` or `neq`, seen as their list. It takes no memory.
///
/// Ports are equal and ordered as their lists are.
#[derive(Clone, Copy)]
pub struct Ports {
    ports: [u16; 10],
    len: u8,
}

impl Model for Ports {
    ghost use Rattle.std.specs.Prelude.{List, ℕ, length, take};

    ghost Value = { List ℕ };

    ghost use Rattle.rc_config.specs.PortLists.{padded, IsPadded, padded-take};

    ghost view = { λ p. take p.len p.ports };

    ghost invariant = { λ p. IsPadded p.len p.ports };

    ghost inverse = { λ list. record { ports = padded (length list) list; len = length list } };

    ghost inverse_ok = { λ a h. λ i. record { ports = padded-take a.len a.ports h i; len = h.long i } };
}

impl Ports {
    /// The list of this port alone.
    pub fn new(port: u16) -> Ports
        ensures { result ≡ port ∷ [] }
    {
        Ports {
            ports: [port, 0, 0, 0, 0, 0, 0, 0, 0, 0],
            len: 1,
        }
    }

    /// These ports, or `None` exactly where they aren't one to ten.
    pub fn from_slice(list: &[u16]) -> Option<Ports>
        ensures { result ≡ ports_of list.now }
    {
        if list.is_empty() || list.len() > 10 {
            return None;
        }
        let mut ports = [0; 10];
        let len = list.len();
        ports[..len].copy_from_slice(list);
        Some(Ports {
            ports,
            len: len as u8,
        })
    }

    /// The ports with one more at the end, or `None` exactly where there are ten already.
    pub fn with_port(self, port: u16) -> Option<Ports>
        ensures { SomeIff result (length self < 10) (self ++ port ∷ []) }
    {
        let Ports { mut ports, len } = self;
        if len >= 10 {
            return None;
        }
        ports[len as usize] = port;
        Some(Ports {
            ports,
            len: len + 1,
        })
    }

    /// The ports, one to ten of them.
    pub fn as_slice(&self) -> &[u16]
        ensures ports { result.now ≡ self.now }
        ensures few { IsTrue (are_ports self.now) }
    {
        &self.ports[..self.len as usize]
    }
}

impl PartialEq for Ports {
    ghost eq = { pointwise nat_eq };

    ghost laws = { Prim.search (comparing, rules) };

    fn eq(&self, other: &Ports) -> bool {
        self.as_slice() == other.as_slice()
    }
}

impl Eq for Ports {
    ghost laws = { Prim.search (comparing, rules) };
}

impl Ord for Ports {
    ghost cmp = { slice_cmp nat_cmp };

    ghost total = { Prim.search (comparing, rules) };

    ghost matches_partial_cmp = { Prim.search (comparing, rules) };

    ghost matches_eq = { Prim.search (comparing, rules) };

    fn cmp(&self, other: &Ports) -> Ordering {
        self.as_slice().cmp(&other.as_slice())
    }
}

impl PartialOrd for Ports {
    ghost partial_cmp = { as_partial_cmp (slice_cmp nat_cmp) };

    ghost laws = { partial_order_from_own_ties (Prim.search (comparing, rules)) (Prim.search (comparing, rules)) };

    fn partial_cmp(&self, other: &Ports) -> Option<Ordering> {
        Some(self.cmp(other))
    }
}
