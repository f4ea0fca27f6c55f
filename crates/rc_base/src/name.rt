//! Names of hosts, interfaces and lists.
ghost use Rattle.std.specs.Prelude.{◌≡◌, IsTrue, nat_eq};
ghost use Rattle.std.specs.List.{list_all};
ghost use Rattle.std.specs.Hash as fed;
ghost use Rattle.std.specs.Cmp.{partial_order_from_own_ties, nat_eq_equiv};
ghost use Rattle.std.specs.Cmp.Rules.{comparing};
ghost use Rattle.std.specs.Cmp.Lexicographic.{pointwise, slice_cmp, bytes_decides};
ghost use Rattle.std.specs.Ordering.{nat_cmp, as_partial_cmp};
ghost use Rattle.std.proofs.Common.{rules, ap};
ghost use Rattle.rc_base.specs.Name.{is_name_byte, is_name, name_of, name_of_number};

use std::cmp::Ordering;
use std::hash::{Hash, Hasher};
use std::marker::Model;

/// A name of 1 to 63 printable ASCII bytes without a blank, seen as the list of its bytes. It takes no memory.
///
/// Names are equal, ordered and hashed as their bytes are.
#[derive(Clone, Copy)]
pub struct Name {
    bytes: [u8; 63],
    len: u8,
}

impl Model for Name {
    ghost use Rattle.std.specs.Prelude.{List, ℕ, length, take};

    ghost Value = { List ℕ };

    ghost use Rattle.rc_base.specs.Name.{padded, IsPadded, padded-take};

    ghost view = { λ n. take n.len n.bytes };

    ghost invariant = { λ n. IsPadded n.len n.bytes };

    ghost inverse = { λ text. record { bytes = padded (length text) text; len = length text } };

    ghost inverse_ok = { λ a h. λ i. record { bytes = padded-take a.len a.bytes h i; len = h.long i } };
}

fn is_printable(text: &[u8]) -> bool
    ensures { result ≡ list_all is_name_byte text.now }
{
    text.iter().all(|b| 32 < *b && *b < 127)
}

impl Name {
    /// The name that a text is, or `None` exactly where it isn't 1 to 63 printable ASCII bytes without a blank.
    pub fn new(text: &[u8]) -> Option<Name>
        ensures { result ≡ name_of text.now }
    {
        if text.is_empty() || text.len() > 63 || !is_printable(text) {
            return None;
        }
        let mut bytes = [0; 63];
        let len = text.len();
        bytes[..len].copy_from_slice(text);
        Some(Name {
            bytes,
            len: len as u8,
        })
    }

    /// The name of what has a number in place of a name, as some lists do: its decimal digits, without zeros in front.
    pub fn of_number(number: u32) -> Name
        ensures { result ≡ name_of_number number }
    {
        let mut text = [0; 10];
        let mut start = 10;
        let mut left = number;
        while left >= 10 {
            start -= 1;
            text[start] = b'0' + (left % 10) as u8;
            left /= 10;
        }
        start -= 1;
        text[start] = b'0' + left as u8;
        Name::new(&text[start..]).unwrap()
    }

    /// Its text.
    pub fn as_bytes(&self) -> &[u8]
        ensures text { result.now ≡ self.now }
        ensures name { IsTrue (is_name self.now) }
    {
        &self.bytes[..self.len as usize]
    }
}

impl PartialEq for Name {
    ghost eq = { pointwise nat_eq };

    ghost laws = { Prim.search (comparing, rules) };

    fn eq(&self, other: &Name) -> bool {
        self.as_bytes() == other.as_bytes()
    }
}

impl Eq for Name {
    ghost laws = { Prim.search (comparing, rules) };
}

impl Ord for Name {
    ghost cmp = { slice_cmp nat_cmp };

    ghost total = { Prim.search (comparing, rules) };

    ghost matches_partial_cmp = { Prim.search (comparing, rules) };

    ghost matches_eq = { Prim.search (comparing, rules) };

    fn cmp(&self, other: &Name) -> Ordering {
        self.as_bytes().cmp(&other.as_bytes())
    }
}

impl PartialOrd for Name {
    ghost partial_cmp = { as_partial_cmp (slice_cmp nat_cmp) };

    ghost laws = { partial_order_from_own_ties (Prim.search (comparing, rules)) (Prim.search (comparing, rules)) };

    fn partial_cmp(&self, other: &Name) -> Option<Ordering> {
        Some(self.cmp(other))
    }
}

impl Hash for Name {
    ghost hash_input = { fed.slice fed.u8 };

    ghost respects_eq = { λ x y same. ap (fed.slice fed.u8) ((bytes_decides x y).0 same) };

    fn hash<H: Hasher>(&self, state: &mut H) {
        self.as_bytes().hash(state);
    }
}
