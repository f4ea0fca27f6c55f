//! Prefixes with what is offered of them.
ghost use Rattle.std.specs.Prelude.{◌≡◌, ◌++◌, ◌∷◌, [], IfOk, OnOk, map};
ghost use Rattle.std.specs.List.{list_any};
ghost use Rattle.rc_ospf.specs.Members.{known, is_border_at};
ghost use Rattle.rc_ospf.specs.Routes as spec;
ghost use Rattle.rc_shares.specs.Making.{AreMade};
ghost use Rattle.rc_ospf.specs.Wanted.{IsDestination};
ghost use Rattle.rc_ospf.specs.declared.member.StubAreas.TheVariants.{Kept};

use crate::member::StubAreas;
use crate::ospf_router::Member;
use crate::shares::FEW_LIGHT;
use crate::summaries::{Summaries, has_border, summaries_wanted};
use crate::{Offer, Row};
use rc_base::{Addr, Items, Prefix};
use rc_shares::{Makes, made_at_once};
use std::alloc::{AllocError, Global};
use std::collections::VecDeque;
use std::thread::Threads;

/// A prefix with what is offered of it: by interfaces inside their areas, and by border routers as summaries, where some router wants
/// these.
pub struct Destination {
    pub prefix: Prefix,
    pub inside: Items<Offer>,
    pub summaries: Summaries,
}

/// By a function of its own, so that what holds destinations drops each by one call.
impl Drop for Destination {
    fn drop(self) {
        let Destination {
            prefix: _,
            inside: _,
            summaries: _,
        } = self;
    }
}

/// The row of 0.0.0.0/0, without an offer.
fn default_row(alloc: Global) -> Row
    ensures { result ≡ spec.default_row }
{
    Row {
        prefix: Prefix::default_route(),
        offers: Items::new(alloc),
    }
}

/// Whether the first row is that of 0.0.0.0/0.
fn starts_with_default(rows: &[Row]) -> bool
    ensures { result ≡ spec.starts_with_default rows.now }
{
    match rows {
        [first, ..] => first.prefix.is_default(),
        _ => false,
    }
}

/// The prefix of a row with what is offered of it, as far as routers have use for it.
fn destination_of(
    alloc: Global,
    members: &[Member],
    has_border: bool,
    row: &Row,
) -> Result<Destination, AllocError>
    requires { has_border ≡ list_any (is_border_at Kept) members.now }
    ensures { IfOk result (IsDestination (map (known Kept) members.now) row.now) }
{
    let inside = row.offers.copy(alloc)?;
    let summaries = summaries_wanted(
        alloc,
        members,
        StubAreas::Kept,
        has_border,
        row.prefix.is_default(),
        row.offers.as_slice(),
    )?;
    Ok(Destination {
        prefix: row.prefix,
        inside,
        summaries,
    })
}

/// The rows, and that of the default route in front where there is none.
fn with_default(alloc: Global, rows: Items<Row>) -> Result<Items<Row>, AllocError>
    ensures { IfOk result (λ all. all ≡ spec.with_default rows) }
{
    if starts_with_default(rows.as_slice()) {
        return Ok(rows);
    }
    let mut rows = rows.into_vec();
    rows.insert(0, default_row(alloc))?;
    Ok(Items::from_vec(rows))
}

/// Puts a row at the end of some, where its prefix holds the address.
fn push_holding(held: &mut Items<Row>, row: Row, address: Addr) -> Result<(), AllocError>
    ensures { OnOk result (held.new ≡ held.old ++ spec.rows_holding address (row ∷ [])) }
{
    if row.prefix.contains(address) {
        held.push(row)
    } else {
        Ok(())
    }
}

/// Those of some rows whose prefix holds the address.
fn rows_holding(alloc: Global, rows: Items<Row>, address: Addr) -> Result<Items<Row>, AllocError>
    ensures { IfOk result (λ held. held ≡ spec.rows_holding address rows) }
{
    let mut held = Items::new(alloc);
    let mut left = VecDeque::from(rows.into_vec());
    while let Some(row) = left.pop_front() {
        push_holding(&mut held, row, address)?;
    }
    Ok(held)
}

/// All rows, or those whose prefix holds the address that is asked for.
fn rows_asked(
    alloc: Global,
    rows: Items<Row>,
    asked: Option<Addr>,
) -> Result<Items<Row>, AllocError>
    ensures { IfOk result (λ left. left ≡ spec.rows_asked asked rows) }
{
    match asked {
        Some(address) => rows_holding(alloc, rows, address),
        None => Ok(rows),
    }
}

/// The rows, with that of the default route in front where there is none; where an address is asked for, those that hold it. It errs
/// only where memory runs out.
pub(crate) fn rows_wanted(
    alloc: Global,
    rows: Items<Row>,
    asked: Option<Addr>,
) -> Result<Items<Row>, AllocError>
    ensures { IfOk result (λ left. left ≡ spec.rows_asked asked (spec.with_default rows)) }
{
    let rows = with_default(alloc, rows)?;
    rows_asked(alloc, rows, asked)
}

/// The routers that may summarise what is offered, and whether some of them are border routers.
#[derive(Drop)]
struct Summarising<'m, 'w> {
    members: &'m [Member<'w>],
    has_border: bool,
}

impl<'m, 'w> Makes for Summarising<'m, 'w> {
    type Thing = Row;

    type Made = Destination;

    ghost use Rattle.std.specs.Prelude.{◌≡◌, map};
    ghost use Rattle.std.specs.List.{list_any};
    ghost use Rattle.rc_ospf.specs.Members.{known, is_border_at};
    ghost use Rattle.rc_ospf.specs.Wanted.{IsDestination};
    ghost use Rattle.rc_ospf.specs.declared.member.StubAreas.TheVariants.{Kept};

    ghost fits = { λ s row. s.has_border ≡ list_any (is_border_at Kept) s.members.now };

    ghost made = { λ s row d. IsDestination (map (known Kept) s.members.now) row d };

    fn make(&self, alloc: Global, row: &Row) -> Result<Destination, AllocError>
        requires { self.now.has_border ≡ list_any (is_border_at Kept) self.now.members.now }
        ensures { IfOk result (IsDestination (map (known Kept) self.now.members.now) row.now) }
    {
        destination_of(alloc, self.members, self.has_border, row)
    }
}

/// The prefixes of rows with what is offered of them, as far as routers have use for it, and the default route in front where it has no
/// row; where an address is asked for, those that hold it. It errs only where memory runs out.
pub(crate) fn destinations<R: Threads + Sync>(
    rt: &R,
    alloc: Global,
    members: &[Member],
    rows: Items<Row>,
    asked: Option<Addr>,
    workers: u32,
) -> Result<Items<Destination>, AllocError>
    ensures { IfOk result (AreMade (IsDestination (map (known Kept) members.now)) (spec.rows_asked asked (spec.with_default rows))) }
{
    let rows = rows_wanted(alloc, rows, asked)?;
    let summarising = Summarising {
        members,
        has_border: has_border(members, StubAreas::Kept),
    };
    made_at_once(rt, alloc, &summarising, rows.as_slice(), FEW_LIGHT, workers)
}
