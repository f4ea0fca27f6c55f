//! The candidates of a router by prefix: each path that a sender tells is looked at once, and none that it doesn't tell.
ghost use Rattle.std.specs.Prelude.{◌≡◌, [], All, IfOk, List, OnOk};
ghost use Rattle.std.specs.List.{filter_map, flat_map};
ghost use Rattle.std.specs.Option.{option_to_list};
ghost use Rattle.rc_base.specs.Groups.{with_thing};
ghost use Rattle.rc_route.specs.Tables.{IsRouterState};
ghost use Rattle.rc_route.specs.declared.path.BgpPath.{BgpPath as Path};
ghost use Rattle.rc_bgp.specs.Gathering as spec;
ghost use Rattle.rc_bgp.specs.RouterStates.{paths_of};
ghost use Rattle.rc_bgp.specs.Telling.{AreListed};

use crate::hearing::best_path_for;
use crate::listener::Listener;
use crate::resolver::Resolver;
use crate::router_state::paths_of;
use crate::telling::listed_for;
use crate::{Inside, Session};
use rc_base::{Items, Prefix, PrefixMap};
use rc_bgp_session::is_internal;
use rc_config::Network;
use rc_pieces::{Knowledge, Listed};
use rc_route::{Best, BgpPath, KeptPath};
use std::alloc::{AllocError, Global};

/// Paths under their prefixes, those of one in the order in which they came.
pub(crate) type PathsByPrefix = PrefixMap<Items<KeptPath>>;

/// One path more, behind those that are known.
fn with_path(
    alloc: Global,
    known: Option<Items<KeptPath>>,
    path: KeptPath,
) -> Result<Items<KeptPath>, AllocError>
    ensures { IfOk result (λ paths. paths ≡ spec.with_path known path) }
{
    match known {
        None => {
            let mut paths = Items::new(alloc);
            paths.push(path)?;
            Ok(paths)
        }
        Some(mut paths) => {
            paths.push(path)?;
            Ok(paths)
        }
    }
}

/// Puts a path under its prefix. Until it stands there the prefix has none.
#[tactic(auto, using(rc_base::proofs::GroupLaws::insert_again))]
fn add(alloc: Global, rows: &mut PathsByPrefix, path: KeptPath) -> Result<(), AllocError>
    ensures { OnOk result (rows.new ≡ with_thing spec.prefix_of spec.with_path rows.old path) }
{
    let prefix = path.prefix();
    let known = rows.insert(prefix, Items::new(alloc))?;
    let paths = with_path(alloc, known, path)?;
    rows.insert(prefix, paths)?;
    Ok(())
}

/// Puts a path under its prefix, if there is one.
fn add_some(
    alloc: Global,
    rows: &mut PathsByPrefix,
    path: Option<KeptPath>,
) -> Result<(), AllocError>
    ensures { OnOk result (rows.new ≡ spec.with_paths rows.old (option_to_list path)) }
{
    match path {
        Some(path) => add(alloc, rows, path),
        None => Ok(()),
    }
}

/// Puts paths again under their prefixes.
fn add_copies(alloc: Global, rows: &mut PathsByPrefix, paths: &[BgpPath]) -> Result<(), AllocError>
    ensures { OnOk result (rows.new ≡ spec.with_paths rows.old paths.now) }
{
    for path in paths {
        add(alloc, rows, KeptPath::of(alloc, path.copy()?)?)?;
    }
    Ok(())
}

/// Puts what a router originates under its prefixes.
fn add_own(
    alloc: Global,
    rows: &mut PathsByPrefix,
    own: &[Items<BgpPath>],
) -> Result<(), AllocError>
    ensures { OnOk result (rows.new ≡ spec.with_paths rows.old (flat_map (λ (paths : List Path). paths) own.now)) }
{
    for paths in own {
        add_copies(alloc, rows, paths.as_slice())?;
    }
    Ok(())
}

/// Whether a best path of the sender may go over a session, apart from 0.0.0.0/0.
fn may_go(session: &Session, best: &Best) -> bool
    ensures { result ≡ spec.may_go session.now best.now }
{
    (session.is_external || !is_internal(best.path.source())) && !best.path.prefix().is_default()
}

/// Puts what a router hears over a session of a best path of the sender under its prefix.
fn add_heard(
    alloc: Global,
    listener: &mut Listener<'_>,
    resolver: &mut Resolver<'_>,
    best: &Best,
    rows: &mut PathsByPrefix,
) -> Result<(), AllocError>
    ensures value { OnOk result (rows.new ≡ spec.with_paths rows.old (option_to_list (spec.heard_of listener.old.net resolver.old listener.old.session best.now))) }
    ensures same { OnOk result (resolver.new ≡ resolver.old) }
    ensures same_listener { OnOk result (listener.new ≡ listener.old) }
{
    let path = listener.hear(alloc, resolver, &best.path)?;
    add_some(alloc, rows, path)
}

/// The same, where the sender tells the path. What it doesn't tell costs a look.
fn add_told(
    alloc: Global,
    listener: &mut Listener<'_>,
    resolver: &mut Resolver<'_>,
    session: &Session,
    best: &Best,
    rows: &mut PathsByPrefix,
) -> Result<(), AllocError>
    requires { listener.old.session ≡ session.now }
    ensures value { OnOk result (rows.new ≡ spec.with_paths rows.old (option_to_list (spec.told_of listener.old.net resolver.old session.now best.now))) }
    ensures same { OnOk result (resolver.new ≡ resolver.old) }
    ensures same_listener { OnOk result (listener.new ≡ listener.old) }
{
    if !may_go(session, best) {
        return Ok(());
    }
    add_heard(alloc, listener, resolver, best, rows)
}

/// Puts what a router hears over a session of some best paths of the sender under their prefixes.
fn add_all_told(
    alloc: Global,
    listener: &mut Listener<'_>,
    resolver: &mut Resolver<'_>,
    session: &Session,
    paths: &[Best],
    rows: &mut PathsByPrefix,
) -> Result<(), AllocError>
    requires { listener.old.session ≡ session.now }
    ensures value { OnOk result (rows.new ≡ spec.with_paths rows.old (filter_map (spec.told_of listener.old.net resolver.old session.now) paths.now)) }
    ensures same { OnOk result (resolver.new ≡ resolver.old) }
    ensures same_listener { OnOk result (listener.new ≡ listener.old) }
{
    for best in paths {
        add_told(alloc, listener, resolver, session, best, rows)?;
    }
    Ok(())
}

/// Puts what a router hears over a session of a list of best paths of the sender under their prefixes.
fn add_all_listed(
    alloc: Global,
    listener: &mut Listener<'_>,
    resolver: &mut Resolver<'_>,
    session: &Session,
    paths: &Listed<'_, Best>,
    rows: &mut PathsByPrefix,
) -> Result<(), AllocError>
    requires { listener.old.session ≡ session.now }
    ensures value { OnOk result (rows.new ≡ spec.with_paths rows.old (filter_map (spec.told_of listener.old.net resolver.old session.now) paths.now)) }
    ensures same { OnOk result (resolver.new ≡ resolver.old) }
{
    for piece in paths.pieces() {
        add_all_told(alloc, listener, resolver, session, piece.as_slice(), rows)?;
    }
    Ok(())
}

/// Puts what a router hears over a session of all best paths of the sender, apart from 0.0.0.0/0, under their prefixes. Where they are
/// listed that the sender may tell it, these alone are gone through.
#[tactic(auto, using(crate::proofs::TellingLaws::told_all))]
fn add_offered(
    alloc: Global,
    listener: &mut Listener<'_>,
    state: &Knowledge,
    inside: &Inside,
    resolver: &mut Resolver<'_>,
    session: &Session,
    rows: &mut PathsByPrefix,
) -> Result<(), AllocError>
    requires state { All IsRouterState state.now }
    requires inside { AreListed inside.now state.now }
    requires listener { listener.old.session ≡ session.now }
    ensures value { OnOk result (rows.new ≡ spec.with_paths rows.old (filter_map (spec.told_of listener.old.net resolver.old session.now) (paths_of state.now session.now.sender))) }
    ensures same { OnOk result (resolver.new ≡ resolver.old) }
{
    let listed = listed_for(inside, session);
    match listed {
        Some(listed) => add_all_told(alloc, listener, resolver, session, listed, rows),
        None => {
            let paths = paths_of(state, session.sender);
            add_all_listed(alloc, listener, resolver, session, &paths, rows)
        }
    }
}

/// Puts all that a router hears over a session under its prefixes.
#[tactic(auto, using(crate::proofs::GatheringLaws::in_two_parts))]
fn add_over(
    alloc: Global,
    net: &Network,
    state: &Knowledge,
    inside: &Inside,
    resolver: &mut Resolver<'_>,
    session: &Session,
    rows: &mut PathsByPrefix,
) -> Result<(), AllocError>
    requires state { All IsRouterState state.now }
    requires inside { AreListed inside.now state.now }
    ensures value { OnOk result (rows.new ≡ spec.with_paths rows.old (spec.heard_over net.now resolver.old state.now session.now)) }
    ensures same { OnOk result (resolver.new ≡ resolver.old) }
{
    let prefix = Prefix::default_route();
    let paths = paths_of(state, session.sender);
    let best = best_path_for(&paths, &prefix);
    let mut listener = Listener::new(net, session);
    let default = listener.hear_for(alloc, resolver, best, &prefix)?;
    add_some(alloc, rows, default)?;
    add_offered(alloc, &mut listener, state, inside, resolver, session, rows)
}

/// Puts all that a router hears over some sessions under its prefixes.
fn add_over_all(
    alloc: Global,
    net: &Network,
    state: &Knowledge,
    inside: &Inside,
    resolver: &mut Resolver<'_>,
    sessions: &[Session],
    rows: &mut PathsByPrefix,
) -> Result<(), AllocError>
    requires state { All IsRouterState state.now }
    requires inside { AreListed inside.now state.now }
    ensures { OnOk result (rows.new ≡ spec.with_paths rows.old (flat_map (spec.heard_over net.now resolver.old state.now) sessions.now)) }
{
    for session in sessions {
        add_over(alloc, net, state, inside, resolver, session, rows)?;
    }
    Ok(())
}

/// All candidates of a router by prefix: what it originates, then what it hears over each session.
#[tactic(auto, using(crate::proofs::GatheringLaws::in_two_parts))]
pub(crate) fn candidates_by_prefix(
    alloc: Global,
    net: &Network,
    state: &Knowledge,
    inside: &Inside,
    resolver: &mut Resolver<'_>,
    own: &[Items<BgpPath>],
    sessions: &[Session],
) -> Result<PathsByPrefix, AllocError>
    requires state { All IsRouterState state.now }
    requires inside { AreListed inside.now state.now }
    ensures { IfOk result (λ rows. rows ≡ spec.with_paths [] (spec.gathered net.now resolver.old state.now own.now sessions.now)) }
{
    let mut rows = PrefixMap::new(alloc);
    add_own(alloc, &mut rows, own)?;
    add_over_all(alloc, net, state, inside, resolver, sessions, &mut rows)?;
    Ok(rows)
}
