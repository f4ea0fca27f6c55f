//! Interfaces by their prefixes.
ghost use Rattle.std.specs.Prelude.{◌≡◌, [], IfOk, OnOk};
ghost use Rattle.std.specs.BTreeMap.{insert_entry};
ghost use Rattle.rc_base.specs.Index as spec;
ghost use Rattle.rc_base.specs.Prefix.{prefix_cmp};

use crate::{IfId, Items, Prefix, PrefixMap};
use std::alloc::{AllocError, Global};
use std::collections::BTreeMap;
use std::marker::Model;

/// Interfaces under each of their prefixes, seen as the list of its rows: the prefixes by address, then length, each with
/// its members.
pub struct PrefixIndex {
    alloc: Global,
    rows: PrefixMap<Items<IfId>>,
}

/// By a function of its own, so that what holds an index drops it by one call.
impl Drop for PrefixIndex {
    fn drop(self) {
        let PrefixIndex { alloc: _, rows: _ } = self;
    }
}

impl Model for PrefixIndex {
    ghost use Rattle.rc_base.specs.Index.{Rows};

    ghost Value = { Rows };

    ghost view = { λ x. x.rows };
}

/// Whether the last of the interfaces is this one.
fn ends_with(known: &[IfId], interface: &IfId) -> bool
    ensures { result ≡ spec.ends_with known.now interface.now }
{
    let last = known.last();
    match last {
        Some(last) => *last == *interface,
        None => false,
    }
}

/// The interfaces with this one, where it isn't the last one already.
fn with_last(mut known: Items<IfId>, interface: IfId) -> Result<Items<IfId>, AllocError>
    ensures { IfOk result (λ made. made ≡ spec.with_last known interface) }
{
    if ends_with(known.as_slice(), &interface) {
        return Ok(known);
    }
    known.push(interface)?;
    Ok(known)
}

/// Takes out the members of a prefix. Until they are put back it has none.
fn lift(
    alloc: Global,
    rows: &mut PrefixMap<Items<IfId>>,
    prefix: Prefix,
) -> Result<Items<IfId>, AllocError>
    ensures rows { OnOk result (rows.new ≡ insert_entry prefix_cmp rows.old prefix []) }
    ensures known { IfOk result (λ known. known ≡ spec.members rows.old prefix) }
{
    let before = rows.insert(prefix, Items::new(alloc))?;
    match before {
        Some(known) => Ok(known),
        None => Ok(Items::new(alloc)),
    }
}

/// Puts an interface under a prefix.
#[tactic(auto, using(crate::proofs::GroupLaws::insert_again))]
fn add_member(
    alloc: Global,
    rows: &mut PrefixMap<Items<IfId>>,
    prefix: Prefix,
    interface: IfId,
) -> Result<(), AllocError>
    ensures { OnOk result (rows.new ≡ spec.with_member rows.old prefix interface) }
{
    let known = lift(alloc, rows, prefix)?;
    let members = with_last(known, interface)?;
    rows.insert(prefix, members)?;
    Ok(())
}

impl PrefixIndex {
    /// The index without rows. It takes no memory.
    pub fn new(alloc: Global) -> PrefixIndex
        ensures { result ≡ [] }
    {
        PrefixIndex {
            alloc,
            rows: PrefixMap::new(alloc),
        }
    }

    /// Puts an interface at the end of a prefix's members, where it isn't the last one already. It errs only where memory
    /// runs out.
    pub fn add(&mut self, prefix: Prefix, interface: IfId) -> Result<(), AllocError>
        ensures { OnOk result (self.new ≡ spec.with_member self.old prefix interface) }
    {
        add_member(self.alloc, &mut self.rows, prefix, interface)
    }

    /// The members of a prefix, none where it has no row.
    pub fn members(&self, prefix: &Prefix) -> &[IfId]
        ensures { result.now ≡ spec.members self.now prefix.now }
    {
        let found = self.rows.get(prefix);
        match found {
            Some(members) => members.as_slice(),
            None => &[],
        }
    }

    /// Its rows, in order of prefix. It takes no memory.
    pub fn into_rows(self) -> BTreeMap<Prefix, Items<IfId>>
        ensures { result.entries ≡ self }
    {
        let PrefixIndex { alloc: _, rows } = self;
        rows.into_rows()
    }
}
