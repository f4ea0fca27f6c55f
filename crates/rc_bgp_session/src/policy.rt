//! Prefix lists and route maps of a session.
ghost use Rattle.std.specs.Prelude.{◌≡◌, IfOk, option_map};
ghost use Rattle.rc_bgp_session.specs.Passing as spec;
ghost use Rattle.rc_policy.specs.Policy.{route_map};

use rc_base::Prefix;
use rc_config::{Mention, MetricType, RouteMap, RouterText};
use rc_policy::{Attrs, apply, permits};
use rc_route::BgpPath;
use std::alloc::{AllocError, Global};

/// Whether no list is named, or the one that is permits the prefix.
pub(crate) fn passes_list(file: &RouterText, list: &Option<Mention>, prefix: &Prefix) -> bool
    ensures { result ≡ spec.passes_list file.now list.now prefix.now }
{
    match list {
        None => true,
        Some(mention) => {
            let found = file.lists.prefix_lists.get(&mention.name);
            match found {
                Some(list) => permits(list, *prefix),
                None => false,
            }
        }
    }
}

/// What a route map sees of a path.
fn attrs_of_path(path: &BgpPath) -> Result<Attrs, AllocError>
    ensures { IfOk result (λ a. a ≡ spec.attrs_of_path path.now) }
{
    let as_path = path.as_path.share()?;
    let communities = path.communities.share()?;
    Ok(Attrs {
        prefix: path.prefix,
        metric: path.med,
        metric_type: MetricType::Type2,
        local_preference: path.local_preference,
        weight: path.weight,
        origin: path.origin,
        as_path,
        communities,
    })
}

/// A path with what a route map made of it.
fn with_attrs(path: &BgpPath, attrs: Attrs) -> BgpPath
    ensures { result ≡ spec.with_attrs path.now attrs }
{
    let Attrs {
        prefix: _,
        metric,
        metric_type: _,
        local_preference,
        weight,
        origin,
        as_path,
        communities,
    } = attrs;
    BgpPath {
        prefix: path.prefix,
        next_hop: path.next_hop,
        med: metric,
        local_preference,
        weight,
        origin,
        as_path,
        communities,
        source: path.source,
        sender: path.sender,
        sender_id: path.sender_id,
        neighbor: path.neighbor,
        igp_metric: path.igp_metric,
    }
}

/// What a route map makes of a path, if any.
fn mapped_by(
    alloc: Global,
    file: &RouterText,
    map: &RouteMap,
    path: &BgpPath,
) -> Result<Option<BgpPath>, AllocError>
    ensures { IfOk result (λ made. made ≡ option_map (spec.with_attrs path.now) (route_map file.now.lists map.now (spec.attrs_of_path path.now))) }
{
    let attrs = attrs_of_path(path)?;
    let made = apply(alloc, map, &file.lists, attrs)?;
    match made {
        Some(attrs) => Ok(Some(with_attrs(path, attrs))),
        None => Ok(None),
    }
}

/// What the route map that is named makes of a path: the path as it is where none is named, and `None` exactly where the map
/// rejects it or isn't there. It errs only where memory runs out.
pub fn mapped_path(
    alloc: Global,
    file: &RouterText,
    map: &Option<Mention>,
    path: BgpPath,
) -> Result<Option<BgpPath>, AllocError>
    ensures { IfOk result (λ made. made ≡ spec.mapped_path file.now map.now path) }
{
    match map {
        None => Ok(Some(path)),
        Some(mention) => {
            let found = file.route_maps.get(&mention.name);
            match found {
                Some(map) => mapped_by(alloc, file, map, &path),
                None => Ok(None),
            }
        }
    }
}
