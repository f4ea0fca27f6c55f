//! The tree of prefixes.
ghost use Rattle.std.specs.Prelude.{◌≡◌, [], OnOk, OnErr};
ghost use Rattle.rc_trie.specs.Tree.{longest_row, with_row};

use crate::row::Row;
use crate::search::{longest_in, place};
use rc_base::{Addr, Prefix};
use std::alloc::{AllocError, Global};
use std::marker::Model;

/// A value under each of some prefixes, seen as the list of its rows: the prefixes by address, then length, each with its value.
///
/// That order is the order of the tree: a prefix stands before all that it covers, and each of these before what isn't covered.
pub struct PrefixTree {
    rows: Vec<Row>,
}

/// By a function of its own, so that what holds such a tree drops it by one call.
impl Drop for PrefixTree {
    fn drop(self) {
        let PrefixTree { rows: _ } = self;
    }
}

impl Model for PrefixTree {
    ghost use Rattle.std.specs.Prelude.{List, map, ℕ};
    ghost use Rattle.rc_base.specs.Prefix.{Cidr};
    ghost use Rattle.rc_trie.specs.Search.{AreRows, row_of};

    ghost Value = { List (Cidr × ℕ) };

    ghost view = { λ t. map row_of t.rows.items };

    ghost invariant = { λ t. AreRows t.rows.items };
}

impl PrefixTree {
    /// The tree without rows. It takes no memory.
    pub fn new(alloc: Global) -> PrefixTree
        ensures { result ≡ [] }
    {
        PrefixTree {
            rows: Vec::new(alloc),
        }
    }

    /// The row of the longest prefix that holds an address, or `None` exactly where no prefix does (RFC 1812 s.5.2.4.3). It takes no
    /// memory.
    pub fn longest(&self, addr: Addr) -> Option<(Prefix, usize)>
        ensures { result ≡ longest_row self.now addr }
    {
        let found = longest_in(self.rows.as_slice(), addr);
        match found {
            Some(row) => Some((row.prefix, row.value)),
            None => None,
        }
    }

    /// Puts a value under a prefix, in place of the one that stood there. It errs only where memory runs out, and the tree is then as
    /// it was.
    pub fn insert(&mut self, prefix: Prefix, value: usize) -> Result<(), AllocError>
        ensures rows { OnOk result (self.new ≡ with_row self.old prefix value) }
        ensures kept { OnErr result (self.new ≡ self.old) }
    {
        // For the proof: reading the network tells that the prefix is one.
        let _network = prefix.network();
        let at = place(self.rows.as_slice(), &prefix);
        if at == self.rows.len() {
            self.rows.push(Row { prefix, value })?;
            return Ok(());
        }
        if self.rows[at].prefix == prefix {
            self.rows[at] = Row { prefix, value };
            return Ok(());
        }
        self.rows.insert(at, Row { prefix, value })?;
        Ok(())
    }
}
