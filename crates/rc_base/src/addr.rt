//! IPv4 addresses and masks.
ghost use Rattle.std.specs.Prelude.{◌≡◌, ◌==◌, ◌≤◌, ◌*◌, ◌^◌, ◌-◌, IfSome};
ghost use Rattle.rc_base.specs.Addr.{leading_bits, mask, mask_len};

use std::marker::Model;

/// An IPv4 address (RFC 791 s.3.2), seen as a number below 2^32, its first octet the most significant.
#[derive(Clone, Copy, PartialEq, Eq, PartialOrd, Ord, Hash)]
pub struct Addr {
    bits: u32,
}

impl Model for Addr {
    ghost use Rattle.std.specs.Prelude.{ℕ};

    ghost Value = { ℕ };

    ghost view = { λ a. a.bits };

    ghost inverse = { λ n. record { bits = n } };
}

impl Addr {
    /// The address of these 32 bits.
    pub fn new(bits: u32) -> Addr
        ensures { result ≡ bits }
    {
        Addr { bits }
    }

    /// Its 32 bits.
    pub fn bits(self) -> u32
        ensures { result ≡ self }
    {
        self.bits
    }

    /// Its first `len` bits, as a number.
    pub(crate) fn leading_bits(self, len: u8) -> u64
        requires { len ≤ 32 }
        ensures { result ≡ leading_bits len self }
    {
        u64::from(self.bits) >> (32 - len)
    }

    /// The address with all bits after the first `len` cleared.
    pub(crate) fn without_host_bits(self, len: u8) -> Addr
        requires { len ≤ 32 }
        ensures { result ≡ leading_bits len self * 2 ^ (32 - len) }
    {
        let size = 1u64 << (32 - len);
        let host = u64::from(self.bits) % size;
        Addr {
            bits: self.bits - host as u32,
        }
    }
}

/// The mask of a length from 0 to 32: so many ones and then zeros (RFC 950 s.2.1).
pub fn mask_of(len: u8) -> Addr
    requires { len ≤ 32 }
    ensures { result ≡ mask len }
{
    let bits = ((1u64 << 32) - (1u64 << (32 - len))) as u32;
    Addr { bits }
}

fn has_length(addr: Addr, len: u8) -> bool
    requires { len ≤ 32 }
    ensures { result ≡ (mask len == addr) }
{
    mask_of(len).bits == addr.bits
}

/// The length of a mask, or `None` exactly where its ones aren't a front.
#[tactic(auto, unfolding(crate::specs::Addr::mask_len))]
pub fn len_of(mask: Addr) -> Option<u8>
    ensures short { IfSome result (λ n. n ≤ 32) }
    ensures value { result ≡ mask_len mask }
{
    let mut len = 0;
    while len < 33 {
        if has_length(mask, len) {
            return Some(len);
        }
        len += 1;
    }
    None
}
