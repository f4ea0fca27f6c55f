//! Values by prefix.
ghost use Rattle.std.specs.Prelude.{◌≡◌, [], IfOk, OnOk, option_copied};
ghost use Rattle.std.specs.BTreeMap.{insert_entry};
ghost use Rattle.rc_base.specs.Groups.{under};
ghost use Rattle.rc_base.specs.Prefix.{prefix_cmp};

use crate::Prefix;
use std::alloc::{AllocError, Global};
use std::collections::BTreeMap;
use std::marker::Model;

/// A value under each of some prefixes, seen as the list of its rows: the prefixes by address, then length, each with its
/// value.
pub struct PrefixMap<V> {
    rows: BTreeMap<Prefix, V>,
}

/// By a function of its own, so that what holds such a map drops it by one call.
impl<V: Drop> Drop for PrefixMap<V> {
    fn drop(self) {
        let PrefixMap { rows: _ } = self;
    }
}

impl<V> Model for PrefixMap<V> {
    ghost use Rattle.std.specs.Prelude.{List};
    ghost use Rattle.rc_base.specs.Prefix.{Cidr};

    ghost Value = { List (Cidr × V) };

    ghost view = { λ m. m.rows.entries };
}

impl<V> PrefixMap<V> {
    /// The map without rows. It takes no memory.
    pub fn new(alloc: Global) -> PrefixMap<V>
        ensures { result ≡ [] }
    {
        PrefixMap {
            rows: BTreeMap::new(alloc),
        }
    }

    /// The value under a prefix, or `None` exactly where none stands there.
    pub fn get(&self, prefix: &Prefix) -> Option<&V>
        ensures { option_copied result ≡ under self.now prefix.now }
    {
        self.rows.get(prefix)
    }

    /// Its rows, in order of prefix. It takes no memory.
    pub fn into_rows(self) -> BTreeMap<Prefix, V>
        ensures { result.entries ≡ self }
    {
        let PrefixMap { rows } = self;
        rows
    }
}

impl<V: Drop> PrefixMap<V> {
    /// Puts a value under a prefix, and gives the one that stood there before. It errs only where memory runs out.
    pub fn insert(&mut self, prefix: Prefix, value: V) -> Result<Option<V>, AllocError>
        ensures rows { OnOk result (self.new ≡ insert_entry prefix_cmp self.old prefix value) }
        ensures before { IfOk result (λ before. before ≡ under self.old prefix) }
    {
        let before = self.rows.insert(prefix, value)?;
        Ok(before)
    }
}
