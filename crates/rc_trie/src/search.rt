//! Look-ups in lists that are in order of prefix.
ghost use Rattle.std.specs.Prelude.{◌≡◌, ◌≤◌, MatchOption, None};
ghost use Rattle.std.specs.Option.{option_copied};
ghost use Rattle.rc_base.specs.Prefix.{prefix_at};
ghost use Rattle.rc_route.specs.Tables.{IsListed};
ghost use Rattle.rc_trie.specs.Search.{AreRows, IsPlace, IsReach, IsShared, ends_before};
ghost use Rattle.rc_trie.specs.Tree.{AreInOrder, IsLongestAt, longest_by};

use crate::row::Row;
use rc_base::{Addr, Prefix};
use rc_route::HasPrefix;

/// How many rows begin at an address or before it.
fn reach<T: HasPrefix>(rows: &[T], addr: Addr) -> usize
    requires { AreInOrder T.prefix_of rows.now }
    ensures { IsReach T.prefix_of rows.now addr result }
{
    rows.partition_point(|row| row.prefix().network().bits() <= addr.bits())
}

/// The prefix of a length that holds an address.
fn prefix_of(addr: Addr, len: u8) -> Prefix
    requires { len ≤ 32 }
    ensures { result ≡ prefix_at addr len }
{
    Prefix::new(addr, len).unwrap()
}

/// The first address of the longest prefix that holds both addresses.
fn shared(first: Addr, second: Addr) -> Addr
    ensures { IsShared first second result }
{
    let len = (first.bits() ^ second.bits()).leading_zeros();
    prefix_of(second, len as u8).network()
}

/// Goes over a list in order of prefix, so that it may be searched: each prefix that is read is one, with no bit set behind its length.
pub fn read_prefixes<T: HasPrefix>(rows: &[T])
    requires { IsListed T.prefix_of rows.now }
    ensures { AreInOrder T.prefix_of rows.now }
{
    for row in rows {
        let _network = row.prefix().network();
    }
}

/// Where the row of the longest prefix stands that holds an address, or `None` exactly where no row's prefix does (RFC 1812 s.5.2.4.3).
///
/// Of the rows that begin at the address or before it the last one holds it, or none does that begins behind the longest prefix of both
/// its first address and this one. So a look-up takes a bisection for each step, and mostly one. It takes no memory.
pub fn longest_at<T: HasPrefix>(rows: &[T], addr: Addr) -> Option<usize>
    requires { AreInOrder T.prefix_of rows.now }
    ensures { MatchOption result (longest_by T.prefix_of rows.now addr ≡ None) (IsLongestAt T.prefix_of rows.now addr) }
{
    let mut end = reach(rows, addr);
    while end > 0 {
        let prefix = rows[end - 1].prefix();
        if prefix.contains(addr) {
            return Some(end - 1);
        }
        let both = shared(prefix.network(), addr);
        end = reach(rows, both).min(end - 1);
    }
    None
}

/// The row of the longest prefix that holds an address, or `None` exactly where no row's prefix does (RFC 1812 s.5.2.4.3). It takes no
/// memory.
pub fn longest_in<T: HasPrefix>(rows: &[T], addr: Addr) -> Option<&T>
    requires { AreInOrder T.prefix_of rows.now }
    ensures { option_copied result ≡ longest_by T.prefix_of rows.now addr }
{
    let place = longest_at(rows, addr);
    match place {
        Some(place) => Some(&rows[place]),
        None => None,
    }
}

/// Whether all rows stand before a prefix, by the last of them.
fn ends_before(rows: &[Row], prefix: &Prefix) -> bool
    ensures { result ≡ ends_before rows.now prefix.now }
{
    let last = rows.last();
    match last {
        Some(row) => row.prefix < *prefix,
        None => true,
    }
}

/// The same by bisection.
fn bisect(rows: &[Row], prefix: &Prefix) -> usize
    requires { AreRows rows.now }
    ensures { IsPlace rows.now prefix.now result }
{
    rows.partition_point(|row| row.prefix < *prefix)
}

/// How many rows stand before a prefix.
pub(crate) fn place(rows: &[Row], prefix: &Prefix) -> usize
    requires { AreRows rows.now }
    ensures { IsPlace rows.now prefix.now result }
{
    if ends_before(rows, prefix) {
        return rows.len();
    }
    bisect(rows, prefix)
}
