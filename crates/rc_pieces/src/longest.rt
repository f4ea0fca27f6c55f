//! Look-ups by address.
ghost use Rattle.std.specs.Prelude.{◌≡◌};
ghost use Rattle.std.specs.Option.{option_copied};
ghost use Rattle.rc_base.specs.Prefix.{prefix_at};
ghost use Rattle.rc_route.specs.Tables.{IsListed};
ghost use Rattle.rc_trie.specs.Tree.{AreInOrder, longest_by};
ghost use Rattle.rc_pieces.specs.Pieces.{AreFilled, joined};

use crate::listed::{Listed, place_for};
use crate::piece::Piece;
use rc_base::{Addr, Prefix};
use rc_route::HasPrefix;
use rc_trie::{longest_in, read_prefixes};

/// The prefix of an address alone.
fn host(addr: Addr) -> Prefix
    ensures { result ≡ prefix_at addr 32 }
{
    Prefix::new(addr, 32).unwrap()
}

/// Goes over pieces, so that they may be searched by address.
fn read_pieces<T: HasPrefix>(pieces: &[Piece<T>])
    requires { IsListed T.prefix_of (joined pieces.now) }
    ensures { AreInOrder T.prefix_of (joined pieces.now) }
{
    for piece in pieces {
        read_prefixes(piece.as_slice());
    }
}

/// What holds an address with the longest prefix, from the last of those pieces backwards that begin at the address or before it: what a
/// piece has for the address is longer than all that the pieces before it have.
fn longest_of<T: HasPrefix>(pieces: &[Piece<T>], addr: Addr) -> Option<&T>
    requires filled { AreFilled pieces.now }
    requires in_order { AreInOrder T.prefix_of (joined pieces.now) }
    ensures { option_copied result ≡ longest_by T.prefix_of (joined pieces.now) addr }
{
    let mut end = place_for(pieces, &host(addr));
    while end > 0 {
        let piece = &pieces[end - 1];
        let found = longest_in(piece.as_slice(), addr);
        if found.is_some() {
            return found;
        }
        end -= 1;
    }
    None
}

impl<'a, T: HasPrefix> Listed<'a, T> {
    /// Goes over the list, so that it may be searched by address: each prefix that is read is one, with no bit set behind its length.
    pub fn read_prefixes(&self)
        requires { IsListed T.prefix_of self.now }
        ensures { AreInOrder T.prefix_of self.now }
    {
        read_pieces(self.pieces())
    }

    /// What is there for the longest prefix that holds an address, or `None` exactly where no prefix does (RFC 1812 s.5.2.4.3). It takes
    /// no memory.
    pub fn longest(&self, addr: Addr) -> Option<&'a T>
        requires { AreInOrder T.prefix_of self.now }
        ensures { option_copied result ≡ longest_by T.prefix_of self.now addr }
    {
        longest_of(self.pieces(), addr)
    }
}
