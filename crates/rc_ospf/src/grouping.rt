//! Offers by prefix.
ghost use Rattle.std.specs.Prelude.{◌≡◌, IfOk, OnOk, map};
ghost use Rattle.rc_base.specs.Groups.{with_thing, grouped};
ghost use Rattle.rc_ospf.specs.ByPrefix.{with_offer, row_of};
ghost use Rattle.rc_ospf.specs.Routes.{advert_prefix, offered_rows};

use crate::{Advert, Offer};
use rc_base::{Items, Prefix, PrefixMap};
use std::alloc::{AllocError, Global};

/// A prefix with all its offers.
#[derive(Drop)]
pub struct Row {
    pub prefix: Prefix,
    pub offers: Items<Offer>,
}

/// The offers with one more.
fn add_offer(
    alloc: Global,
    known: Option<Items<Offer>>,
    advert: &Advert,
) -> Result<Items<Offer>, AllocError>
    ensures { IfOk result (λ offers. offers ≡ with_offer known advert.now) }
{
    let mut offers = match known {
        Some(offers) => offers,
        None => Items::new(alloc),
    };
    offers.push(advert.offer)?;
    Ok(offers)
}

/// Puts one more offer under its prefix. Until it stands there the prefix has none.
#[tactic(auto, using(rc_base::proofs::GroupLaws::insert_again))]
fn put(alloc: Global, rows: &mut PrefixMap<Items<Offer>>, advert: &Advert) -> Result<(), AllocError>
    ensures { OnOk result (rows.new ≡ with_thing advert_prefix with_offer rows.old advert.now) }
{
    let known = rows.insert(advert.prefix, Items::new(alloc))?;
    let offers = add_offer(alloc, known, advert)?;
    rows.insert(advert.prefix, offers)?;
    Ok(())
}

/// The offers of each prefix.
fn grouped_offers(alloc: Global, adverts: &[Advert]) -> Result<PrefixMap<Items<Offer>>, AllocError>
    ensures { IfOk result (λ rows. rows ≡ grouped advert_prefix with_offer adverts.now) }
{
    let mut rows = PrefixMap::new(alloc);
    for advert in adverts {
        put(alloc, &mut rows, advert)?;
    }
    Ok(rows)
}

/// The rows of a map, in order of prefix.
fn rows_of_groups(alloc: Global, groups: PrefixMap<Items<Offer>>) -> Result<Items<Row>, AllocError>
    ensures { IfOk result (λ rows. rows ≡ map row_of groups) }
{
    let mut rows = Items::new(alloc);
    for (prefix, offers) in groups.into_rows() {
        rows.push(Row { prefix, offers })?;
    }
    Ok(rows)
}

/// Each prefix that is offered, by address, then length, with its offers in the order of the adverts. It errs only where
/// memory runs out.
pub fn offers_by_prefix(alloc: Global, adverts: &[Advert]) -> Result<Items<Row>, AllocError>
    ensures { IfOk result (λ rows. rows ≡ offered_rows adverts.now) }
{
    let groups = grouped_offers(alloc, adverts)?;
    rows_of_groups(alloc, groups)
}
