//! The prefixes that a router advertises itself.
ghost use Rattle.std.specs.Prelude.{◌≡◌, IfOk, OnOk, map};
ghost use Rattle.std.specs.BTreeSet.{keys, insert_key};
ghost use Rattle.rc_base.specs.Lists.{in_order};
ghost use Rattle.rc_base.specs.Prefix.{prefix_cmp};
ghost use Rattle.rc_ospf.specs.Routes as spec;

use crate::Advert;
use crate::advertising::adverts;
use rc_base::{Items, Prefix, RouterId};
use rc_config::Network;
use rc_ospf_interfaces::add_router;
use std::alloc::{AllocError, Global};
use std::collections::BTreeSet;

/// Puts a prefix into a set.
fn insert_prefix(set: &mut BTreeSet<Prefix>, prefix: Prefix) -> Result<(), AllocError>
    ensures { OnOk result (keys set.new ≡ insert_key prefix_cmp (keys set.old) prefix) }
{
    set.insert(prefix)?;
    Ok(())
}

/// The prefixes of adverts, as a set.
fn prefix_set(alloc: Global, adverts: &[Advert]) -> Result<BTreeSet<Prefix>, AllocError>
    ensures { IfOk result (λ set. keys set ≡ in_order prefix_cmp (map spec.advert_prefix adverts.now)) }
{
    let mut set = BTreeSet::new(alloc);
    for advert in adverts {
        insert_prefix(&mut set, advert.prefix)?;
    }
    Ok(set)
}

/// The prefixes of adverts, in order.
fn prefixes_of(alloc: Global, adverts: &[Advert]) -> Result<Items<Prefix>, AllocError>
    ensures { IfOk result (λ prefixes. prefixes ≡ in_order prefix_cmp (map spec.advert_prefix adverts.now)) }
{
    let set = prefix_set(alloc, adverts)?;
    let mut prefixes = Items::new(alloc);
    for prefix in set {
        prefixes.push(prefix)?;
    }
    Ok(prefixes)
}

/// The prefixes that a router advertises itself, by address, then length. It errs only where memory runs out.
pub(crate) fn own_prefixes(
    alloc: Global,
    net: &Network,
    router: RouterId,
) -> Result<Items<Prefix>, AllocError>
    ensures { IfOk result (λ prefixes. prefixes ≡ spec.own_prefixes net.now router) }
{
    let mut interfaces = Items::new(alloc);
    add_router(&mut interfaces, net, router)?;
    let adverts = adverts(alloc, net, interfaces.as_slice())?;
    prefixes_of(alloc, adverts.as_slice())
}
