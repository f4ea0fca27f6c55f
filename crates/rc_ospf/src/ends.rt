//! The routers that offer what is asked for, each in its area.
ghost use Rattle.std.specs.Prelude.{◌≡◌, IfOk, OnOk};
ghost use Rattle.std.specs.List.{list_any};
ghost use Rattle.rc_ospf.specs.Ends as spec;

use crate::{Offer, Row};
use rc_base::Items;
use rc_link_state::End;
use std::alloc::{AllocError, Global};

/// Whether the router of an offer in its area is among some ends.
fn has_end(ends: &[End], offer: &Offer) -> bool
    ensures { result ≡ list_any (spec.is_end offer.now) ends.now }
{
    for end in ends {
        if end.area == offer.area() && end.router == offer.router() {
            return true;
        }
    }
    false
}

/// Puts the router of an offer in its area at the end of some ends, unless it is among them.
fn add_end(ends: &mut Items<End>, offer: &Offer) -> Result<(), AllocError>
    ensures { OnOk result (ends.new ≡ spec.with_end ends.old offer.now) }
{
    if has_end(ends.as_slice(), offer) {
        return Ok(());
    }
    ends.push(End {
        area: offer.area(),
        router: offer.router(),
    })
}

/// Puts those of some offers there.
fn add_ends(ends: &mut Items<End>, offers: &[Offer]) -> Result<(), AllocError>
    ensures { OnOk result (ends.new ≡ spec.with_ends ends.old offers.now) }
{
    for offer in offers {
        add_end(ends, offer)?;
    }
    Ok(())
}

/// The routers that offer the prefixes of some rows, in their areas, each once. It errs only where memory runs out.
pub(crate) fn ends_of(alloc: Global, rows: &[Row]) -> Result<Items<End>, AllocError>
    ensures { IfOk result (λ ends. ends ≡ spec.ends_of rows.now) }
{
    let mut ends = Items::new(alloc);
    for row in rows {
        add_ends(&mut ends, row.offers.as_slice())?;
    }
    Ok(ends)
}
