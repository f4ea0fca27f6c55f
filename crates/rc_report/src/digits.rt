//! Numbers, addresses and prefixes, written into an array of 18 bytes, as many as the longest prefix takes.
//!
//! Each function writes from a place on, behind what stands before it, and gives the place behind what it wrote.
ghost use Rattle.std.specs.Prelude.{◌≡◌, ◌<◌, ◌≤◌, ◌+◌, ◌++◌, [], ◌∷◌, codes, decimal, take};
ghost use Rattle.rc_base.specs.Addr.{dotted};
ghost use Rattle.rc_base.specs.Prefix.{prefix_text};

use rc_base::{Addr, Prefix};

fn write_byte(bytes: &mut [u8; 18], at: usize, byte: u8) -> usize
    requires { at < 18 }
    ensures text { take result bytes.new ≡ take at bytes.old ++ byte ∷ [] }
    ensures end { result ≡ at + 1 }
{
    bytes[at] = byte;
    at + 1
}

fn write_digit(bytes: &mut [u8; 18], at: usize, digit: u32) -> usize
    requires small { digit < 10 }
    requires room { at < 18 }
    ensures text { take result bytes.new ≡ take at bytes.old ++ (48 + digit) ∷ [] }
    ensures end { result ≡ at + 1 }
{
    write_byte(bytes, at, b'0' + digit as u8)
}

/// A number below 100, in decimal.
fn write_below_hundred(bytes: &mut [u8; 18], at: usize, number: u32) -> usize
    requires small { number < 100 }
    requires room { at + 2 ≤ 18 }
    ensures text { take result bytes.new ≡ take at bytes.old ++ decimal number }
    ensures end { result ≤ at + 2 }
{
    if number < 10 {
        return write_digit(bytes, at, number);
    }
    let last = write_digit(bytes, at, number / 10);
    write_digit(bytes, last, number % 10)
}

/// A number below 1000, in decimal.
pub(crate) fn write_number(bytes: &mut [u8; 18], at: usize, number: u32) -> usize
    requires small { number < 1000 }
    requires room { at + 3 ≤ 18 }
    ensures text { take result bytes.new ≡ take at bytes.old ++ decimal number }
    ensures end { result ≤ at + 3 }
{
    if number < 100 {
        return write_below_hundred(bytes, at, number);
    }
    let last = write_below_hundred(bytes, at, number / 10);
    write_digit(bytes, last, number % 10)
}

/// An octet, and the dot behind it.
fn write_octet(bytes: &mut [u8; 18], at: usize, octet: u32) -> usize
    requires small { octet < 256 }
    requires room { at + 4 ≤ 18 }
    ensures text { take result bytes.new ≡ take at bytes.old ++ (decimal octet ++ codes ".") }
    ensures end { result ≤ at + 4 }
{
    let dot = write_number(bytes, at, octet);
    write_byte(bytes, dot, b'.')
}

/// An address at the front, as four octets in decimal with dots between them.
#[tactic(auto, unfolding(rc_base::specs::Addr::dotted))]
pub(crate) fn write_address(bytes: &mut [u8; 18], addr: Addr) -> usize
    ensures text { take result bytes.new ≡ dotted addr }
    ensures end { result ≤ 15 }
{
    let bits = addr.bits();
    let second = write_octet(bytes, 0, bits / 16_777_216);
    let third = write_octet(bytes, second, bits / 65_536 % 256);
    let fourth = write_octet(bytes, third, bits / 256 % 256);
    write_number(bytes, fourth, bits % 256)
}

/// A prefix at the front, as its address, a slash and its length.
#[tactic(auto, unfolding(rc_base::specs::Prefix::prefix_text))]
pub(crate) fn write_prefix(bytes: &mut [u8; 18], prefix: &Prefix) -> usize
    ensures text { take result bytes.new ≡ prefix_text prefix.now }
    ensures end { result ≤ 18 }
{
    let slash = write_address(bytes, prefix.network());
    let len = write_byte(bytes, slash, b'/');
    write_below_hundred(bytes, len, u32::from(prefix.len()))
}
