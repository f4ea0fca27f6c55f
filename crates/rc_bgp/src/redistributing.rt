//! Routes that are redistributed into BGP.
ghost use Rattle.std.specs.Prelude.{◌≡◌, [], ◌++◌, IfOk, IsTrue, OnOk, map};
ghost use Rattle.std.specs.List.{list_any};
ghost use Rattle.std.specs.Option.{option_copied, option_to_list};
ghost use Rattle.rc_base.specs.Prefix.{same_prefix};
ghost use Rattle.rc_config.specs.Down.{prefix_of};
ghost use Rattle.rc_config.specs.Interface.{declared_addresses};
ghost use Rattle.rc_route.specs.Tables.{IsPathList, IsTable};
ghost use Rattle.rc_bgp.specs.Redistributing as spec;
ghost use Rattle.rc_bgp.specs.Redistributing.{RedistributesNothing};

use crate::originating::originated;
use rc_base::{Items, Origin, Prefix, RouterId};
use rc_bgp_session::mapped_path;
use rc_config::{
    BgpProcess, BgpRedistribution, IfAddr, Interface, Network, OspfKinds, OspfRedistribution,
    RouterText,
};
use rc_ospf_interfaces::{OspfInterface, add_router};
use rc_pieces::Listed;
use rc_route::{BgpPath, PathSource, Route, Source};
use std::alloc::{AllocError, Global};

fn is_connected(source: Source) -> bool
    ensures { result ≡ spec.is_connected source }
{
    match source {
        Source::Connected => true,
        _ => false,
    }
}

fn is_static(source: Source) -> bool
    ensures { result ≡ spec.is_static source }
{
    match source {
        Source::Static => true,
        _ => false,
    }
}

/// Whether `redistribute ospf` takes routes of a source.
fn is_of_kinds(kinds: &OspfKinds, is_on_ospf: bool, source: Source) -> bool
    ensures { result ≡ spec.is_of_kinds kinds.now is_on_ospf source }
{
    match source {
        Source::Connected => kinds.internal && is_on_ospf,
        Source::Ospf => kinds.internal,
        Source::OspfIa => kinds.internal,
        Source::OspfE1 => kinds.external_1,
        Source::OspfE2 => kinds.external_2,
        _ => false,
    }
}

/// Whether a prefix is one of these.
fn is_among(prefixes: &[Prefix], prefix: &Prefix) -> bool
    ensures { result ≡ list_any (same_prefix prefix.now) prefixes.now }
{
    prefixes.iter().any(|other| *prefix == *other)
}

/// Whether a line of a source takes a route.
fn redistributes(source: PathSource, kinds: &OspfKinds, prefixes: &[Prefix], route: &Route) -> bool
    ensures { result ≡ spec.redistributes source kinds.now prefixes.now route.now }
{
    match source {
        PathSource::Connected => is_connected(route.source),
        PathSource::Static => is_static(route.source),
        PathSource::Ospf => is_of_kinds(kinds, is_among(prefixes, &route.prefix), route.source),
        _ => false,
    }
}

/// The MED of a redistributed route.
fn med_of(line: &BgpRedistribution, route: &Route) -> u32
    ensures { result ≡ spec.med_of line.now route.now }
{
    match line.metric {
        Some(metric) => metric,
        None => route.metric,
    }
}

/// The path of a route that a line redistributes, if any.
fn redistributed(
    alloc: Global,
    router: RouterId,
    file: &RouterText,
    source: PathSource,
    kinds: &OspfKinds,
    prefixes: &[Prefix],
    line: &BgpRedistribution,
    route: &Route,
) -> Result<Option<BgpPath>, AllocError>
    ensures { IfOk result (λ made. made ≡ spec.redistributed router file.now source kinds.now prefixes.now line.now route.now) }
{
    if !redistributes(source, kinds, prefixes, route) {
        return Ok(None);
    }
    if route.prefix.is_default() {
        return Ok(None);
    }
    let med = med_of(line, route);
    let path = originated(router, source, Origin::Incomplete, med, route.prefix);
    mapped_path(alloc, file, &line.route_map, path)
}

/// One path more, if there is one.
fn push_some(paths: &mut Items<BgpPath>, path: Option<BgpPath>) -> Result<(), AllocError>
    ensures { OnOk result (paths.new ≡ paths.old ++ option_to_list path) }
{
    match path {
        Some(path) => paths.push(path)?,
        None => {}
    }
    Ok(())
}

/// Puts the paths of those of some routes that a line takes at the end.
fn add_passed(
    alloc: Global,
    router: RouterId,
    file: &RouterText,
    source: PathSource,
    kinds: &OspfKinds,
    prefixes: &[Prefix],
    routes: &[Route],
    line: &BgpRedistribution,
    paths: &mut Items<BgpPath>,
) -> Result<(), AllocError>
    ensures { OnOk result (paths.new ≡ paths.old ++ spec.redistributed_paths router file.now source kinds.now prefixes.now routes.now line.now) }
{
    for route in routes {
        let path = redistributed(alloc, router, file, source, kinds, prefixes, line, route)?;
        push_some(paths, path)?;
    }
    Ok(())
}

/// The paths of the routes that a line takes.
fn passed_paths(
    alloc: Global,
    router: RouterId,
    file: &RouterText,
    source: PathSource,
    kinds: &OspfKinds,
    prefixes: &[Prefix],
    table: &Listed<'_, Route>,
    line: &BgpRedistribution,
) -> Result<Items<BgpPath>, AllocError>
    ensures { IfOk result (λ paths. paths ≡ spec.redistributed_paths router file.now source kinds.now prefixes.now table.now line.now) }
{
    let mut paths = Items::new(alloc);
    for piece in table.pieces() {
        let routes = piece.as_slice();
        add_passed(
            alloc, router, file, source, kinds, prefixes, routes, line, &mut paths,
        )?;
    }
    Ok(paths)
}

/// The paths of a line, in the order of the table.
#[tactic(auto, using(crate::proofs::BestLaws::redistributed_in_order))]
fn redistributed_paths(
    alloc: Global,
    router: RouterId,
    file: &RouterText,
    source: PathSource,
    kinds: &OspfKinds,
    prefixes: &[Prefix],
    table: &Listed<'_, Route>,
    line: &BgpRedistribution,
) -> Result<Items<BgpPath>, AllocError>
    requires { IsTable table.now }
    ensures value { IfOk result (λ paths. paths ≡ spec.redistributed_paths router file.now source kinds.now prefixes.now table.now line.now) }
    ensures in_order { IfOk result IsPathList }
{
    passed_paths(alloc, router, file, source, kinds, prefixes, table, line)
}

/// The paths of a source that isn't OSPF, where a line redistributes it.
#[tactic(auto, using(crate::proofs::KnownLaws::none_listed))]
pub(crate) fn of_source(
    alloc: Global,
    router: RouterId,
    file: &RouterText,
    source: PathSource,
    table: &Listed<'_, Route>,
    line: &Option<BgpRedistribution>,
) -> Result<Items<BgpPath>, AllocError>
    requires { IsTable table.now }
    ensures value { IfOk result (λ paths. paths ≡ spec.of_source router file.now source spec.no_kinds [] table.now line.now) }
    ensures in_order { IfOk result IsPathList }
{
    let kinds = OspfKinds {
        internal: false,
        external_1: false,
        external_2: false,
    };
    match line {
        None => Ok(Items::new(alloc)),
        Some(line) => { redistributed_paths(alloc, router, file, source, &kinds, &[], table, line) }
    }
}

/// Puts the prefixes of addresses at the end.
fn add_addresses(all: &mut Items<Prefix>, addresses: &[IfAddr]) -> Result<(), AllocError>
    ensures { OnOk result (all.new ≡ all.old ++ map prefix_of addresses.now) }
{
    for address in addresses {
        all.push(address.prefix())?;
    }
    Ok(())
}

/// Puts the prefixes of an interface at the end.
fn add_declared(all: &mut Items<Prefix>, interface: &Interface) -> Result<(), AllocError>
    ensures { OnOk result (all.new ≡ all.old ++ map prefix_of (declared_addresses interface.now)) }
{
    match interface.primary {
        Some(primary) => {
            all.push(primary.prefix())?;
            add_addresses(all, interface.secondary.as_slice())
        }
        None => add_addresses(all, interface.secondary.as_slice()),
    }
}

/// Puts the prefixes of an OSPF interface at the end, where it is the router's.
fn add_prefixes_on(
    all: &mut Items<Prefix>,
    net: &Network,
    router: RouterId,
    interface: &OspfInterface,
) -> Result<(), AllocError>
    ensures { OnOk result (all.new ≡ all.old ++ spec.prefixes_on net.now router interface.now) }
{
    if interface.id.router != router {
        return Ok(());
    }
    let found = net.interface_at(interface.id);
    match found {
        None => Ok(()),
        Some((_, interface)) => add_declared(all, interface),
    }
}

/// The prefixes of the OSPF interfaces of a router.
fn ospf_prefixes(
    alloc: Global,
    net: &Network,
    router: RouterId,
) -> Result<Items<Prefix>, AllocError>
    ensures { IfOk result (λ all. all ≡ spec.ospf_prefixes net.now router) }
{
    let mut interfaces = Items::new(alloc);
    add_router(&mut interfaces, net, router)?;
    prefixes_among(alloc, net, router, interfaces.as_slice())
}

/// Those of some OSPF interfaces that are the router's.
fn prefixes_among(
    alloc: Global,
    net: &Network,
    router: RouterId,
    interfaces: &[OspfInterface],
) -> Result<Items<Prefix>, AllocError>
    ensures { IfOk result (λ all. all ≡ spec.prefixes_among net.now router interfaces.now) }
{
    let mut all = Items::new(alloc);
    for interface in interfaces {
        add_prefixes_on(&mut all, net, router, interface)?;
    }
    Ok(all)
}

/// The line for the router's own OSPF process.
fn own_ospf_line<'a>(file: &RouterText, process: &'a BgpProcess) -> Option<&'a OspfRedistribution>
    ensures { option_copied result ≡ spec.own_ospf_line file.now process.now }
{
    match &file.ospf {
        None => None,
        Some(ospf) => process.redistributions.ospf.get(ospf.process),
    }
}

/// Whether a process redistributes nothing.
pub(crate) fn redistributes_nothing(file: &RouterText, process: &BgpProcess) -> bool
    ensures { IsTrue result → RedistributesNothing file.now process.now }
{
    process.redistributions.connected.is_none()
        && process.redistributions.static_routes.is_none()
        && own_ospf_line(file, process).is_none()
}

/// The paths of the routes of OSPF, where a line for the router's own process redistributes them.
#[tactic(auto, using(crate::proofs::KnownLaws::none_listed))]
pub(crate) fn of_ospf(
    alloc: Global,
    net: &Network,
    router: RouterId,
    file: &RouterText,
    process: &BgpProcess,
    table: &Listed<'_, Route>,
) -> Result<Items<BgpPath>, AllocError>
    requires { IsTable table.now }
    ensures value { IfOk result (λ paths. paths ≡ spec.of_ospf net.now router file.now table.now (spec.own_ospf_line file.now process.now)) }
    ensures in_order { IfOk result IsPathList }
{
    let line = own_ospf_line(file, process);
    match line {
        None => Ok(Items::new(alloc)),
        Some(line) => {
            let prefixes = ospf_prefixes(alloc, net, router)?;
            redistributed_paths(
                alloc,
                router,
                file,
                PathSource::Ospf,
                &line.kinds,
                prefixes.as_slice(),
                table,
                &line.redistribution,
            )
        }
    }
}
