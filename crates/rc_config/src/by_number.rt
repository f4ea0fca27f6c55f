//! Things that stand by a number of their own.
ghost use Rattle.std.specs.Prelude.{◌≡◌, ◌↔◌, ◌≤◌, [], All, IfOk, IfSome, IsTrue, OnErr, OnOk, length};
ghost use Rattle.std.specs.Option.{option_copied};
ghost use Rattle.std.specs.Map.Iter.{ShowsInOrder, deref};
ghost use Rattle.rc_config.specs.ByNumber.{has_number, last_number, placed, with_number, without_number, IsByNumber};

use std::alloc::{AllocError, Global};
use std::collections::BTreeMap;
use std::collections::btree_map::Values;
use std::marker::Model;

/// What has a number by which it stands among others.
pub trait Numbered {
    ghost use Rattle.std.specs.Prelude.{ℕ};

    ghost number: { Self → ℕ };

    /// Its number.
    fn number(&self) -> u32
        ensures { result ≡ number self.now };
}

/// Things by strictly rising number, seen as their list. Each is found, put in and taken out in the time of a search by its
/// number, in whatever order they come.
pub struct ByNumber<T: Numbered> {
    rows: BTreeMap<u32, T>,
}

/// By a function of its own, so that what holds such a map drops it by one call.
impl<T: Numbered + Drop> Drop for ByNumber<T> {
    fn drop(self) {
        let ByNumber { rows: _ } = self;
    }
}

impl<T: Numbered> Model for ByNumber<T> {
    ghost use Rattle.std.specs.Prelude.{List};
    ghost use Rattle.std.specs.Map.{values_of};
    ghost use Rattle.rc_config.specs.ByNumber.{AreRows};

    ghost Value = { List T };

    ghost view = { λ a. values_of a.rows.entries };

    ghost invariant = { λ a. AreRows T.number a.rows.entries };
}

impl<T: Numbered> ByNumber<T> {
    /// None yet. It takes no memory.
    pub fn new(alloc: Global) -> ByNumber<T>
        ensures { result ≡ [] }
    {
        ByNumber {
            rows: BTreeMap::new(alloc),
        }
    }

    /// How many there are.
    pub fn len(&self) -> usize
        ensures len { result ≡ length self.now }
        ensures by_number { IsByNumber T.number self.now }
    {
        self.rows.len()
    }

    /// Whether there are none.
    pub fn is_empty(&self) -> bool
        ensures { IsTrue result ↔ (self.now ≡ []) }
    {
        self.rows.is_empty()
    }

    /// The one of this number, or `None` exactly where none has it.
    pub fn get(&self, number: u32) -> Option<&T>
        ensures { option_copied result ≡ with_number T.number number self.now }
    {
        self.rows.get(&number)
    }

    /// Whether one has this number.
    pub fn has(&self, number: u32) -> bool
        ensures { result ≡ has_number T.number number self.now }
    {
        self.rows.contains_key(&number)
    }

    /// The number of the last one, which is the greatest, or `None` exactly where there are none.
    pub fn greatest(&self) -> Option<u32>
        ensures last { result ≡ last_number T.number self.now }
        ensures greatest { IfSome result (λ n. All (λ x. T.number x ≤ n) self.now) }
    {
        match self.rows.last_key_value() {
            Some((number, _)) => Some(*number),
            None => None,
        }
    }

    /// All of them, by rising number.
    pub fn iter(&self) -> Values<'_, u32, T>
        ensures all { result ≡ self.now }
        ensures in_order { ShowsInOrder (deref {X = T}) }
        ensures by_number { IsByNumber T.number self.now }
    {
        self.rows.values()
    }
}

impl<T: Numbered + Drop> ByNumber<T> {
    /// Puts one where its number stands, and gives the one of the same number that stood there before. It errs only where
    /// memory runs out, and then all stays as it was.
    pub fn insert(&mut self, item: T) -> Result<Option<T>, AllocError>
        ensures placed { OnOk result (self.new ≡ placed T.number item self.old) }
        ensures before { IfOk result (λ before. before ≡ with_number T.number (T.number item) self.old) }
        ensures unchanged { OnErr result (self.new ≡ self.old) }
        ensures by_number { IsByNumber T.number self.new }
    {
        let before = self.rows.insert(item.number(), item)?;
        Ok(before)
    }

    /// Takes out the one of this number, or gives `None` exactly where none has it.
    pub fn take(&mut self, number: u32) -> Option<T>
        ensures taken { result ≡ with_number T.number number self.old }
        ensures others { self.new ≡ without_number T.number number self.old }
        ensures by_number { IsByNumber T.number self.new }
        ensures were_by_number { IsByNumber T.number self.old }
    {
        self.rows.remove(&number)
    }
}
