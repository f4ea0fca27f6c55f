//! What a session makes of a path: export by its sender, import by its receiver.
ghost use Rattle.std.specs.Prelude.{◌≡◌, IfOk, option_map};
ghost use Rattle.rc_bgp_decide.specs.Decision.{is_internal, is_originated};
ghost use Rattle.rc_bgp_session.specs.Passing as spec;

use crate::Session;
use crate::last_as_path::LastAsPath;
use crate::policy::{mapped_path, passes_list};
use rc_as_path::AsPath;
use rc_base::{Addr, Communities, Origin, Prefix};
use rc_config::{Neighbor, Network, RouterText};
use rc_route::{BgpPath, PathSource};
use std::alloc::{AllocError, Global};

/// Whether a peer in the router's own AS sent a path.
pub fn is_internal(source: PathSource) -> bool
    ensures { result ≡ is_internal source }
{
    match source {
        PathSource::Internal => true,
        _ => false,
    }
}

/// Whether the router originates a path: no peer sent it.
pub fn is_originated(source: PathSource) -> bool
    ensures { result ≡ is_originated source }
{
    match source {
        PathSource::External => false,
        PathSource::Internal => false,
        _ => true,
    }
}

/// Whether a path stays with the sender of a session.
fn is_withheld(session: &Session, path: &BgpPath) -> bool
    ensures { result ≡ spec.is_withheld session.now path.now }
{
    (is_internal(path.source) && !session.is_external)
        || path.communities.has(Communities::NO_ADVERTISE)
        || (session.is_external
            && (path.communities.has(Communities::NO_EXPORT)
                || path.communities.has(Communities::NO_EXPORT_SUBCONFED)))
}

/// The MED of a path over a session (RFC 4271 s.5.1.4).
fn med_over(session: &Session, path: &BgpPath) -> u32
    ensures { result ≡ spec.med_over session.now path.now }
{
    if session.is_external && !is_originated(path.source) {
        0
    } else {
        path.med
    }
}

/// A path again, with the MED that it has over a session.
fn with_med(session: &Session, path: &BgpPath) -> Result<BgpPath, AllocError>
    ensures { IfOk result (λ made. made ≡ spec.with_med session.now path.now) }
{
    let mut made = path.copy()?;
    made.med = med_over(session, path);
    Ok(made)
}

/// Whether a path is sent with the local address as its next hop (RFC 4271 s.5.1.3).
fn has_own_next_hop(session: &Session, neighbor: &Neighbor, path: &BgpPath) -> bool
    ensures { result ≡ spec.has_own_next_hop session.now neighbor.now path.now }
{
    session.is_external || neighbor.settings.next_hop_self || is_originated(path.source)
}

/// The next hop of a path over a session.
fn next_hop_over(session: &Session, neighbor: &Neighbor, path: &BgpPath) -> Addr
    ensures { result ≡ spec.next_hop_over session.now neighbor.now path.now }
{
    if has_own_next_hop(session, neighbor, path) {
        session.sender_address
    } else {
        path.next_hop
    }
}

/// The local preference of a path over a session (RFC 4271 s.5.1.5).
fn local_preference_over(session: &Session, path: &BgpPath) -> u32
    ensures { result ≡ spec.local_preference_over session.now path.now }
{
    if session.is_external {
        100
    } else {
        path.local_preference
    }
}

/// The AS path of a path over a session (RFC 4271 s.5.1.2).
fn as_path_over(
    alloc: Global,
    last: &mut LastAsPath,
    asn: u32,
    session: &Session,
    path: &AsPath,
) -> Result<AsPath, AllocError>
    ensures { IfOk result (λ made. made ≡ spec.as_path_over asn session.now path.now) }
{
    if session.is_external {
        last.prepend(alloc, asn, path)
    } else {
        path.share()
    }
}

/// The communities of a path that go to a neighbour.
fn communities_to(neighbor: &Neighbor, path: &BgpPath) -> Result<Communities, AllocError>
    ensures { IfOk result (λ made. made ≡ spec.communities_to neighbor.now path.now) }
{
    if neighbor.settings.send_community {
        path.communities.share()
    } else {
        Ok(Communities::none())
    }
}

/// A path as it is sent with this MED, behind the prefix list and the route map.
fn as_sent(
    alloc: Global,
    last: &mut LastAsPath,
    asn: u32,
    session: &Session,
    neighbor: &Neighbor,
    path: &BgpPath,
    med: u32,
) -> Result<BgpPath, AllocError>
    ensures { IfOk result (λ made. made ≡ spec.as_sent asn session.now neighbor.now (record path.now { med = med })) }
{
    let as_path = as_path_over(alloc, last, asn, session, &path.as_path)?;
    let communities = communities_to(neighbor, path)?;
    Ok(BgpPath {
        prefix: path.prefix,
        next_hop: next_hop_over(session, neighbor, path),
        med,
        local_preference: local_preference_over(session, path),
        weight: path.weight,
        origin: path.origin,
        as_path,
        communities,
        source: path.source,
        sender: path.sender,
        sender_id: path.sender_id,
        neighbor: path.neighbor,
        igp_metric: path.igp_metric,
    })
}

/// What a route map makes of a path that a sender exports.
fn exported_by_map(
    alloc: Global,
    last: &mut LastAsPath,
    file: &RouterText,
    asn: u32,
    neighbor: &Neighbor,
    session: &Session,
    path: &BgpPath,
) -> Result<Option<BgpPath>, AllocError>
    ensures { IfOk result (λ made. made ≡ option_map (spec.as_sent asn session.now neighbor.now) (spec.mapped_path file.now neighbor.now.settings.map_out (spec.with_med session.now path.now))) }
{
    let offered = with_med(session, path)?;
    let made = mapped_path(alloc, file, &neighbor.settings.map_out, offered)?;
    match made {
        None => Ok(None),
        Some(made) => {
            let sent = as_sent(alloc, last, asn, session, neighbor, &made, made.med)?;
            Ok(Some(sent))
        }
    }
}

/// What a sender exports, by its statement about the receiver. Without a route map the path isn't copied before.
fn exported(
    alloc: Global,
    last: &mut LastAsPath,
    file: &RouterText,
    asn: u32,
    neighbor: &Neighbor,
    session: &Session,
    path: &BgpPath,
) -> Result<Option<BgpPath>, AllocError>
    ensures { IfOk result (λ made. made ≡ spec.exported file.now asn neighbor.now session.now path.now) }
{
    if is_withheld(session, path) {
        return Ok(None);
    }
    if !passes_list(file, &neighbor.settings.list_out, &path.prefix) {
        return Ok(None);
    }
    match &neighbor.settings.map_out {
        Some(_) => exported_by_map(alloc, last, file, asn, neighbor, session, path),
        None => {
            let med = med_over(session, path);
            let sent = as_sent(alloc, last, asn, session, neighbor, path, med)?;
            Ok(Some(sent))
        }
    }
}

/// What the sender of a session advertises of one of its best paths, or `None` exactly where it withholds the path or a list or
/// map rejects it (RFC 4271 s.9.2, RFC 1997).
pub fn export(
    alloc: Global,
    net: &Network,
    session: &Session,
    path: &BgpPath,
) -> Result<Option<BgpPath>, AllocError>
    ensures { IfOk result (λ made. made ≡ spec.export net.now session.now path.now) }
{
    export_with_last(alloc, &mut LastAsPath::new(), net, session, path)
}

/// The same, where the AS path that the sender put together last is at hand: mostly the path goes on with that one.
pub(crate) fn export_with_last(
    alloc: Global,
    last: &mut LastAsPath,
    net: &Network,
    session: &Session,
    path: &BgpPath,
) -> Result<Option<BgpPath>, AllocError>
    ensures { IfOk result (λ made. made ≡ spec.export net.now session.now path.now) }
{
    let Some(file) = net.router_at(session.sender) else {
        return Ok(None);
    };
    let Some(process) = &file.bgp else {
        return Ok(None);
    };
    let Some(neighbor) = process.neighbors.get(session.receiver_address.bits()) else {
        return Ok(None);
    };
    exported(alloc, last, file, process.asn, neighbor, session, path)
}

/// The default path of `default-originate`.
fn default_path(alloc: Global, asn: u32, session: &Session) -> Result<BgpPath, AllocError>
    ensures { IfOk result (λ made. made ≡ spec.default_path asn session.now) }
{
    let as_path = as_path_over(
        alloc,
        &mut LastAsPath::new(),
        asn,
        session,
        &AsPath::empty(),
    )?;
    Ok(BgpPath {
        prefix: Prefix::default_route(),
        next_hop: session.sender_address,
        med: 0,
        local_preference: 100,
        weight: 32768,
        origin: Origin::Igp,
        as_path,
        communities: Communities::none(),
        source: PathSource::Network,
        sender: session.sender,
        sender_id: Addr::new(0),
        neighbor: Addr::new(0),
        igp_metric: 0,
    })
}

/// The default path that the sender of a session originates, or `None` exactly where no statement of it about the receiver has
/// `default-originate`. No list and no map is put to it. It errs only where memory runs out.
pub fn originated_default(
    alloc: Global,
    net: &Network,
    session: &Session,
) -> Result<Option<BgpPath>, AllocError>
    ensures { IfOk result (λ made. made ≡ spec.originated_default net.now session.now) }
{
    let Some(file) = net.router_at(session.sender) else {
        return Ok(None);
    };
    let Some(process) = &file.bgp else {
        return Ok(None);
    };
    let Some(neighbor) = process.neighbors.get(session.receiver_address.bits()) else {
        return Ok(None);
    };
    if !neighbor.settings.default_originate {
        return Ok(None);
    }
    let path = default_path(alloc, process.asn, session)?;
    Ok(Some(path))
}

/// The source of what is heard over a session.
fn source_over(session: &Session) -> PathSource
    ensures { result ≡ spec.source_over session.now }
{
    if session.is_external {
        PathSource::External
    } else {
        PathSource::Internal
    }
}

/// A path with what its receiver notes of it.
fn as_received(session: &Session, path: BgpPath) -> BgpPath
    ensures { result ≡ spec.as_received session.now path }
{
    let mut made = path;
    made.source = source_over(session);
    made.sender = session.sender;
    made.sender_id = session.sender_id;
    made.neighbor = session.sender_address;
    made.igp_metric = 0;
    made
}

/// The weight that paths of a neighbour are given: 0 where no line gives one.
fn weight_of(neighbor: &Neighbor) -> u32
    ensures { result ≡ spec.weight_of neighbor.now }
{
    match neighbor.settings.weight {
        Some(weight) => u32::from(weight),
        None => 0,
    }
}

/// What a receiver makes of a path, by its statement about the sender. The path is the receiver's own already.
fn imported(
    alloc: Global,
    file: &RouterText,
    asn: u32,
    neighbor: &Neighbor,
    session: &Session,
    path: BgpPath,
) -> Result<Option<BgpPath>, AllocError>
    ensures { IfOk result (λ made. made ≡ spec.imported file.now asn neighbor.now session.now path) }
{
    if path.as_path.holds(asn) {
        return Ok(None);
    }
    if !passes_list(file, &neighbor.settings.list_in, &path.prefix) {
        return Ok(None);
    }
    let mut weighted = path;
    weighted.weight = weight_of(neighbor);
    let made = mapped_path(alloc, file, &neighbor.settings.map_in, weighted)?;
    match made {
        None => Ok(None),
        Some(made) => Ok(Some(as_received(session, made))),
    }
}

/// What the receiver of a session takes of an advertised path that is its own already: what `import` takes of it, without a copy.
/// It errs only where memory runs out.
pub fn taken(
    alloc: Global,
    net: &Network,
    session: &Session,
    path: BgpPath,
) -> Result<Option<BgpPath>, AllocError>
    ensures { IfOk result (λ made. made ≡ spec.import net.now session.now path) }
{
    let Some(file) = net.router_at(session.receiver) else {
        return Ok(None);
    };
    let Some(process) = &file.bgp else {
        return Ok(None);
    };
    let Some(neighbor) = process.neighbors.get(session.sender_address.bits()) else {
        return Ok(None);
    };
    imported(alloc, file, process.asn, neighbor, session, path)
}

/// What the receiver of a session takes of an advertised path, or `None` exactly where the path holds the receiver's AS (RFC 4271
/// s.9.1.2) or a list or map rejects it. Whether its next hop resolves isn't asked here.
pub fn import(
    alloc: Global,
    net: &Network,
    session: &Session,
    path: &BgpPath,
) -> Result<Option<BgpPath>, AllocError>
    ensures { IfOk result (λ made. made ≡ spec.import net.now session.now path.now) }
{
    let copied = path.copy()?;
    taken(alloc, net, session, copied)
}
