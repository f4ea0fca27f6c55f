//! All headers cut into sectors.
ghost use Rattle.std.specs.Prelude.{◌≡◌, ◌≤◌, [], ◌∷◌, ◌++◌, IfOk, OnOk, length};
ghost use Rattle.rc_sectors.specs.Cuts.{AreBelow, AreCut};

use rc_base::{Items, Prefix};
use std::alloc::{AllocError, Global};

/// How many bits of the destination a sector has at most.
const MOST_BITS: usize = 32;

/// Whether a bit of a prefix's network is 1, by its number from the first one on, below 32.
fn has_bit(prefix: &Prefix, bit: usize) -> bool {
    let behind = 31usize.saturating_sub(bit) as u32;
    (prefix.network().bits() >> behind) % 2 == 1
}

/// How many prefixes stand before the first one in which a bit is 1.
fn middle_of(prefixes: &[Prefix], bit: usize) -> usize
    ensures { result ≤ length prefixes.now }
{
    for index in 0..prefixes.len() {
        if has_bit(&prefixes[index], bit) {
            return index;
        }
    }
    prefixes.len()
}

/// A sector with one bit more.
fn longer(alloc: Global, sector: &[bool], high: bool) -> Result<Items<bool>, AllocError>
    ensures { IfOk result (λ bits. bits ≡ sector.now ++ high ∷ []) }
{
    let mut bits = Items::with_room(alloc, sector.len() + 1)?;
    for bit in sector {
        bits.push(*bit)?;
    }
    bits.push(high)?;
    Ok(bits)
}

/// Puts the sectors into which one is cut behind others. These prefixes begin with its bits; a sector in which so few of them lie isn't
/// cut.
fn put_below(
    alloc: Global,
    cut: &mut Items<Items<bool>>,
    sector: Items<bool>,
    prefixes: &[Prefix],
    few: usize,
) -> Result<(), AllocError>
    requires short { length sector ≤ 32 }
    ensures { OnOk result (AreBelow sector cut.old cut.new) }
{
    let bit = sector.len();
    if prefixes.len() <= few || bit >= MOST_BITS {
        return cut.push(sector);
    }
    let middle = middle_of(prefixes, bit);
    let low = longer(alloc, sector.as_slice(), false)?;
    put_below(alloc, cut, low, &prefixes[..middle], few)?;
    let high = longer(alloc, sector.as_slice(), true)?;
    put_below(alloc, cut, high, &prefixes[middle..], few)
}

/// All headers cut into sectors, in which so few of these prefixes lie each. These are in order of address. It errs only where memory runs
/// out.
pub fn cut_of(
    alloc: Global,
    prefixes: &[Prefix],
    few: usize,
) -> Result<Items<Items<bool>>, AllocError>
    ensures { IfOk result AreCut }
{
    let mut cut = Items::new(alloc);
    put_below(alloc, &mut cut, Items::new(alloc), prefixes, few)?;
    Ok(cut)
}
