//! The paths that a router originates.
ghost use Rattle.std.specs.Prelude.{◌≡◌, IfOk, OnOk};
ghost use Rattle.std.specs.List.{fold};
ghost use Rattle.std.specs.BTreeSet.{keys, insert_key};
ghost use Rattle.rc_base.specs.Lists.{in_order};
ghost use Rattle.rc_base.specs.Prefix.{prefix_cmp};
ghost use Rattle.rc_route.specs.Tables.{IsPathList, IsTable};
ghost use Rattle.rc_bgp.specs.Originating as spec;

use rc_as_path::AsPath;
use rc_base::{Addr, Communities, Items, Origin, Prefix, RouterId};
use rc_pieces::{Finder, Listed};
use rc_route::{BgpPath, PathSource, Route, Source};
use std::alloc::{AllocError, Global};
use std::collections::BTreeSet;

fn is_bgp(source: Source) -> bool
    ensures { result ≡ spec.is_bgp source }
{
    match source {
        Source::Ebgp => true,
        Source::Ibgp => true,
        _ => false,
    }
}

/// A path as its router originates it.
pub(crate) fn originated(
    router: RouterId,
    source: PathSource,
    origin: Origin,
    med: u32,
    prefix: Prefix,
) -> BgpPath
    ensures { result ≡ spec.originated router source origin med prefix }
{
    BgpPath {
        prefix,
        next_hop: Addr::new(0),
        med,
        local_preference: 100,
        weight: 32768,
        origin,
        as_path: AsPath::empty(),
        communities: Communities::none(),
        source,
        sender: router,
        sender_id: Addr::new(0),
        neighbor: Addr::new(0),
        igp_metric: 0,
    }
}

/// The metric of a route that isn't from BGP.
fn metric_unless_bgp(route: &Route) -> Option<u32>
    ensures { result ≡ spec.metric_unless_bgp route.now }
{
    if is_bgp(route.source) {
        return None;
    }
    Some(route.metric)
}

/// The metric of a table's route of just this prefix, where it isn't from BGP.
pub(crate) fn metric_for(table: &mut Finder<'_, Route>, prefix: &Prefix) -> Option<u32>
    requires { IsTable table.old }
    ensures value { result ≡ spec.metric_for table.old prefix.now }
    ensures same { table.new ≡ table.old }
{
    let found = table.at(prefix);
    match found {
        Some(route) => metric_unless_bgp(route),
        None => None,
    }
}

/// The path that a line `network` originates, if any.
fn by_network(router: RouterId, table: &mut Finder<'_, Route>, prefix: &Prefix) -> Option<BgpPath>
    requires { IsTable table.old }
    ensures value { result ≡ spec.by_network router table.old prefix.now }
    ensures same { table.new ≡ table.old }
{
    let metric = metric_for(table, prefix);
    match metric {
        Some(metric) => Some(originated(router, PathSource::Network, Origin::Igp, metric, *prefix)),
        None => None,
    }
}

/// Puts a prefix into a set.
pub(crate) fn insert(set: &mut BTreeSet<Prefix>, prefix: Prefix) -> Result<(), AllocError>
    ensures { OnOk result (keys set.new ≡ insert_key prefix_cmp (keys set.old) prefix) }
{
    set.insert(prefix)?;
    Ok(())
}

/// Puts prefixes into a set.
pub(crate) fn insert_all(set: &mut BTreeSet<Prefix>, prefixes: &[Prefix]) -> Result<(), AllocError>
    ensures { OnOk result (keys set.new ≡ fold (insert_key prefix_cmp) (keys set.old) prefixes.now) }
{
    for prefix in prefixes {
        insert(set, *prefix)?;
    }
    Ok(())
}

/// The prefixes of a set as a list.
pub(crate) fn listed(alloc: Global, set: BTreeSet<Prefix>) -> Result<Items<Prefix>, AllocError>
    ensures { IfOk result (λ prefixes. prefixes ≡ keys set) }
{
    let mut prefixes = Items::new(alloc);
    for prefix in set {
        prefixes.push(prefix)?;
    }
    Ok(prefixes)
}

/// The paths that lines `network` originate for prefixes in order.
fn paths_for(
    alloc: Global,
    router: RouterId,
    table: &Listed<'_, Route>,
    prefixes: &[Prefix],
) -> Result<Items<BgpPath>, AllocError>
    requires { IsTable table.now }
    ensures { IfOk result (λ paths. paths ≡ spec.paths_for router table.now prefixes.now) }
{
    let mut paths = Items::new(alloc);
    let mut finder = Finder::of(table);
    for prefix in prefixes {
        let path = by_network(router, &mut finder, prefix);
        match path {
            Some(path) => paths.push(path)?,
            None => {}
        }
    }
    Ok(paths)
}

/// The paths that the lines `network` of a process originate, in order of prefix, two lines of one prefix counting once.
#[tactic(auto, using(crate::proofs::BestLaws::networks_in_order))]
pub(crate) fn by_networks(
    alloc: Global,
    router: RouterId,
    table: &Listed<'_, Route>,
    networks: &[Prefix],
) -> Result<Items<BgpPath>, AllocError>
    requires { IsTable table.now }
    ensures value { IfOk result (λ paths. paths ≡ spec.by_networks router table.now networks.now) }
    ensures in_order { IfOk result IsPathList }
{
    let mut set = BTreeSet::new(alloc);
    insert_all(&mut set, networks)?;
    let prefixes = listed(alloc, set)?;
    paths_for(alloc, router, table, prefixes.as_slice())
}
