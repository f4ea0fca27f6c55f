//! What is sent, by prefix.
ghost use Rattle.std.specs.Prelude.{◌≡◌, IfOk, OnOk, map};
ghost use Rattle.rc_base.specs.Groups.{with_thing, grouped};
ghost use Rattle.rc_external.specs.ByPrefix.{row_of, with_external};
ghost use Rattle.rc_external.specs.Externals.{by_prefix, prefix_of};

use crate::{External, ExternalRow, Externals};
use rc_base::{Items, PrefixMap};
use rc_config::MetricType;
use std::alloc::{AllocError, Global};

/// What is sent for a prefix with one more.
fn add_external(
    alloc: Global,
    known: Option<Items<External>>,
    external: &External,
) -> Result<Items<External>, AllocError>
    ensures { IfOk result (λ sent. sent ≡ with_external known external.now) }
{
    // For the proof: that of a push wants each enum within the element named in the function.
    let _type: Option<MetricType> = None;
    let mut sent = match known {
        Some(sent) => sent,
        None => Items::new(alloc),
    };
    sent.push(*external)?;
    Ok(sent)
}

/// Puts one more under its prefix. Until it stands there the prefix has none.
#[tactic(auto, using(rc_base::proofs::GroupLaws::insert_again))]
fn put(
    alloc: Global,
    rows: &mut PrefixMap<Items<External>>,
    external: &External,
) -> Result<(), AllocError>
    ensures { OnOk result (rows.new ≡ with_thing prefix_of with_external rows.old external.now) }
{
    let prefix = external.prefix();
    let known = rows.insert(prefix, Items::new(alloc))?;
    let sent = add_external(alloc, known, external)?;
    rows.insert(prefix, sent)?;
    Ok(())
}

/// What is sent for each prefix.
fn grouped_externals(
    alloc: Global,
    sent: &[External],
) -> Result<PrefixMap<Items<External>>, AllocError>
    ensures { IfOk result (λ rows. rows ≡ grouped prefix_of with_external sent.now) }
{
    let mut rows = PrefixMap::new(alloc);
    for external in sent {
        put(alloc, &mut rows, external)?;
    }
    Ok(rows)
}

/// The rows of a map, in order of prefix.
fn rows_of_groups(
    alloc: Global,
    groups: PrefixMap<Items<External>>,
) -> Result<Externals, AllocError>
    ensures { IfOk result (λ rows. rows ≡ map row_of groups) }
{
    let mut rows = Items::new(alloc);
    for (prefix, externals) in groups.into_rows() {
        rows.push(ExternalRow { prefix, externals })?;
    }
    Ok(rows)
}

/// Each prefix that is sent, by address, then length, with what is sent for it. It errs only where memory runs out.
pub(crate) fn externals_by_prefix(alloc: Global, sent: &[External]) -> Result<Externals, AllocError>
    ensures { IfOk result (λ rows. rows ≡ by_prefix sent.now) }
{
    let groups = grouped_externals(alloc, sent)?;
    rows_of_groups(alloc, groups)
}
