//! What an AS boundary router sends of a route of its table (RFC 2328 s.12.4.4).
ghost use Rattle.std.specs.Prelude.{◌≡◌, ◌≤◌, Some, None, IfOk, option_map};
ghost use Rattle.std.specs.List.{find};
ghost use Rattle.std.specs.Option.{option_copied};
ghost use Rattle.rc_base.specs.Prefix.{is_default};
ghost use Rattle.rc_policy.specs.Policy.{mapped};
ghost use Rattle.rc_route.specs.Tables.{IsBestList, IsTable, best_path_for};
ghost use Rattle.rc_external.specs.AsExternal.{sent_metric};
ghost use Rattle.rc_external.specs.Origination as spec;

use crate::External;
use rc_as_path::AsPath;
use rc_base::{Communities, Origin, Prefix, RouterId};
use rc_config::{
    DefaultInformation, Mention, MetricType, OspfProcess, RedistributedSource, Redistribution,
    RouterText, natural_len,
};
use rc_pieces::Listed;
use rc_policy::{Attrs, apply};
use rc_route::{Best, BgpPath, KeptPath, Route, Source};
use std::alloc::{AllocError, Global};

/// The greatest metric that is sent: LSInfinity (RFC 2328 appendix B) less one.
const GREATEST_METRIC: u32 = 16_777_214;

/// A metric as it is sent.
fn sent_metric(metric: u32) -> u32
    ensures value { result ≡ sent_metric metric }
    ensures finite { result ≤ 16777214 }
{
    metric.min(GREATEST_METRIC)
}

/// Whether a prefix has the length of its address's class.
fn has_natural_length(prefix: &Prefix) -> bool
    ensures { result ≡ spec.has_natural_length prefix.now }
{
    match natural_len(prefix.network()) {
        Some(natural) => natural == prefix.len(),
        None => false,
    }
}

/// Whether the router runs BGP in the AS of this number.
fn is_in_as(file: &RouterText, asn: u32) -> bool
    ensures { result ≡ spec.is_in_as file.now asn }
{
    match &file.bgp {
        Some(process) => process.asn == asn,
        None => false,
    }
}

/// Whether a line of this source takes routes of that one.
fn matches_source(file: &RouterText, line: RedistributedSource, source: Source) -> bool
    ensures { result ≡ spec.matches_source file.now line source }
{
    match (line, source) {
        (RedistributedSource::Connected, Source::Connected) => true,
        (RedistributedSource::Static, Source::Static) => true,
        (RedistributedSource::Bgp(asn), Source::Ebgp) => is_in_as(file, asn),
        _ => false,
    }
}

/// The line that takes routes of a source.
fn line_for<'a>(
    file: &RouterText,
    process: &'a OspfProcess,
    source: Source,
) -> Option<&'a Redistribution>
    ensures { option_copied result ≡ spec.line_for file.now process.now source }
{
    process
        .redistributions
        .as_slice()
        .iter()
        .find(|line| matches_source(file, line.source, source))
}

/// Whether a line lets a prefix pass: never the default route, and without `subnets` only one of its class's length.
fn passes(line: &Redistribution, prefix: &Prefix) -> bool
    ensures { result ≡ spec.passes line.now prefix.now }
{
    !prefix.is_default() && (line.subnets || has_natural_length(prefix))
}

/// The metric of a line.
fn metric_of(line: &Redistribution) -> u32
    ensures { result ≡ spec.metric_of line.now }
{
    let default = match line.source {
        RedistributedSource::Connected => 20,
        RedistributedSource::Static => 20,
        RedistributedSource::Bgp(_) => 1,
    };
    line.metric.unwrap_or(default)
}

/// The type of the metric of a line.
fn type_of(line: &Redistribution) -> MetricType
    ensures { result ≡ spec.type_of line.now }
{
    line.metric_type.unwrap_or(MetricType::Type2)
}

/// The best path to a prefix.
fn best_path_for<'a>(paths: &Listed<'a, Best>, prefix: &Prefix) -> Option<&'a KeptPath>
    requires { IsBestList paths.now }
    ensures { option_copied result ≡ best_path_for paths.now prefix.now }
{
    let found = paths.at(prefix);
    match found {
        Some(best) => Some(&best.path),
        None => None,
    }
}

/// The best path that a route of this source came from, where another AS sent it.
fn ebgp_path_of<'a>(
    source: Source,
    prefix: &Prefix,
    paths: &Listed<'a, Best>,
) -> Option<&'a KeptPath>
    requires { IsBestList paths.now }
    ensures { option_copied result ≡ spec.ebgp_path_of source prefix.now paths.now }
{
    match source {
        Source::Ebgp => best_path_for(paths, prefix),
        _ => None,
    }
}

/// What the route map of a line sees of a route that a path gave. The path's own prefix doesn't count.
fn attrs_given(line: &Redistribution, prefix: Prefix, path: &BgpPath) -> Result<Attrs, AllocError>
    ensures { IfOk result (λ attrs. attrs ≡ spec.attrs_with line.now prefix (Some path.now)) }
{
    let communities = path.communities.share()?;
    let as_path = path.as_path.share()?;
    Ok(Attrs {
        prefix,
        metric: metric_of(line),
        metric_type: type_of(line),
        local_preference: path.local_preference,
        weight: path.weight,
        origin: path.origin,
        as_path,
        communities,
    })
}

/// What the route map of a line sees of a route that a path gave, or that begins here.
fn attrs_with(
    line: &Redistribution,
    prefix: Prefix,
    path: Option<&KeptPath>,
) -> Result<Attrs, AllocError>
    ensures { IfOk result (λ attrs. attrs ≡ spec.attrs_with line.now prefix (option_copied path.entry)) }
{
    match path {
        Some(path) => attrs_given(line, prefix, path.like()),
        None => Ok(Attrs {
            prefix,
            metric: metric_of(line),
            metric_type: type_of(line),
            local_preference: 100,
            weight: 32768,
            origin: Origin::Incomplete,
            as_path: AsPath::empty(),
            communities: Communities::none(),
        }),
    }
}

/// What the route map of a line sees of a route.
fn attrs_of_route(
    paths: &Listed<'_, Best>,
    line: &Redistribution,
    route: &Route,
) -> Result<Attrs, AllocError>
    requires { IsBestList paths.now }
    ensures { IfOk result (λ attrs. attrs ≡ spec.attrs_of_route paths.now line.now route.now) }
{
    let path = ebgp_path_of(route.source, &route.prefix, paths);
    attrs_with(line, route.prefix, path)
}

/// What a route map of the file makes of a route, `None` exactly where it rejects it, as one does that isn't there.
fn mapped(
    alloc: Global,
    file: &RouterText,
    name: &Mention,
    attrs: Attrs,
) -> Result<Option<Attrs>, AllocError>
    ensures { IfOk result (λ made. made ≡ mapped file.now (Some name.now) attrs) }
{
    let found = file.route_maps.get(&name.name);
    match found {
        Some(map) => apply(alloc, map, &file.lists, attrs),
        None => Ok(None),
    }
}

/// What a router sends of a route with these attributes.
fn external_of(router: RouterId, prefix: Prefix, attrs: &Attrs) -> External
    ensures { result ≡ spec.external_of router prefix attrs.now }
{
    External::new(router, prefix, sent_metric(attrs.metric), attrs.metric_type)
}

/// What a router sends of a route that the route map of a line has let pass.
fn sent_through(
    alloc: Global,
    router: RouterId,
    file: &RouterText,
    prefix: Prefix,
    name: &Mention,
    attrs: Attrs,
) -> Result<Option<External>, AllocError>
    ensures { IfOk result (λ sent. sent ≡ option_map (spec.external_of router prefix) (mapped file.now (Some name.now) attrs)) }
{
    match mapped(alloc, file, name, attrs)? {
        Some(attrs) => Ok(Some(external_of(router, prefix, &attrs))),
        None => Ok(None),
    }
}

/// What a router sends of a route by this line. Where it has no route map, nothing but its metric and its type counts.
fn redistributed_by(
    alloc: Global,
    router: RouterId,
    file: &RouterText,
    paths: &Listed<'_, Best>,
    route: &Route,
    line: &Redistribution,
) -> Result<Option<External>, AllocError>
    requires { IsBestList paths.now }
    ensures { IfOk result (λ sent. sent ≡ spec.redistributed_by router file.now paths.now route.now line.now) }
{
    if !passes(line, &route.prefix) {
        return Ok(None);
    }
    match &line.route_map {
        Some(name) => {
            let attrs = attrs_of_route(paths, line, route)?;
            sent_through(alloc, router, file, route.prefix, name, attrs)
        }
        None => Ok(Some(External::new(
            router,
            route.prefix,
            sent_metric(metric_of(line)),
            type_of(line),
        ))),
    }
}

/// What a router sends of a route of its table, beside its best paths.
pub(crate) fn redistributed(
    alloc: Global,
    router: RouterId,
    file: &RouterText,
    process: &OspfProcess,
    paths: &Listed<'_, Best>,
    route: &Route,
) -> Result<Option<External>, AllocError>
    requires { IsBestList paths.now }
    ensures { IfOk result (λ sent. sent ≡ spec.redistributed router file.now process.now paths.now route.now) }
{
    let found = line_for(file, process, route.source);
    match found {
        Some(line) => redistributed_by(alloc, router, file, paths, route, line),
        None => Ok(None),
    }
}

fn is_ospf(source: Source) -> bool
    ensures { result ≡ spec.is_ospf source }
{
    match source {
        Source::Ospf | Source::OspfIa | Source::OspfE1 | Source::OspfE2 => true,
        Source::Connected | Source::Static | Source::Ebgp | Source::Ibgp => false,
    }
}

/// The default route of a table.
#[tactic(auto, using(crate::proofs::DefaultLaws::default_is))]
fn default_in<'a>(table: &Listed<'a, Route>) -> Option<&'a Route>
    requires { IsTable table.now }
    ensures { option_copied result ≡ find (λ x. is_default x.prefix) table.now }
{
    table.at(&Prefix::default_route())
}

/// Whether a table has the default route from another source than OSPF.
fn has_default(table: &Listed<'_, Route>) -> bool
    requires { IsTable table.now }
    ensures { result ≡ spec.has_default table.now }
{
    let found = default_in(table);
    match found {
        Some(route) => !is_ospf(route.source),
        None => false,
    }
}

/// The default route that a router sends: where its table has one, and with `always` in any case.
pub(crate) fn default_sent(
    router: RouterId,
    table: &Listed<'_, Route>,
    line: &DefaultInformation,
) -> Option<External>
    requires { IsTable table.now }
    ensures { result ≡ spec.default_sent router table.now line.now }
{
    if !line.always && !has_default(table) {
        return None;
    }
    Some(External::new(
        router,
        Prefix::default_route(),
        sent_metric(line.metric.unwrap_or(1)),
        line.metric_type.unwrap_or(MetricType::Type2),
    ))
}
