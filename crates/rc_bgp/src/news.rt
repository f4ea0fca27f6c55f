//! What a router's senders may tell it anew.
ghost use Rattle.std.specs.List.{filter, flat_map};
ghost use Rattle.std.specs.List.Sorted.{IsStrictlySortedBy};
ghost use Rattle.std.specs.Option.{option_map_or};
ghost use Rattle.std.specs.Prelude.{◌≡◌, ◌==◌, ◌++◌, All, IfOk, OnOk, false, slice_get};
ghost use Rattle.rc_base.specs.Lists.{in_order};
ghost use Rattle.rc_base.specs.Prefix.{prefix_cmp};
ghost use Rattle.rc_bgp.specs.Changes as spec;
ghost use Rattle.rc_route.specs.Tables.{IsBestList, IsRouterState};

use crate::changes::changes_over;
use crate::router_state::paths_of;
use crate::{Changes, Session};
use rc_as_path::AsPath;
use rc_base::{Items, Prefix, RouterId};
use rc_config::Network;
use rc_pieces::{Finder, Knowledge, Listed};
use rc_route::Best;
use std::alloc::{AllocError, Global};

/// The AS of a router, if it has a BGP process.
fn asn_of(net: &Network, router: RouterId) -> Option<u32>
    ensures { result ≡ spec.asn_of net.now router }
{
    let found = net.router_at(router);
    match found {
        None => None,
        Some(file) => match &file.bgp {
            None => None,
            Some(process) => Some(process.asn),
        },
    }
}

/// Whether an AS path begins with an AS.
fn begins_with(path: &AsPath, asn: u32) -> bool
    ensures { result ≡ option_map_or (λ a. a == asn) (slice_get path.now 0) false }
{
    let first = path.first();
    match first {
        None => false,
        Some(first) => first == asn,
    }
}

/// Whether an AS path begins with the AS of a router, which refuses it as a loop (RFC 4271 s.9.1.2). The AS may stand further behind too:
/// that is seen where the path is decided, and costs a look at each number.
fn is_told_back(own: Option<u32>, path: &AsPath) -> bool
    ensures { result ≡ spec.is_told_back own path.now }
{
    match own {
        None => false,
        Some(asn) => begins_with(path, asn),
    }
}

/// Whether a router of an AS may take the best path of a sender for a prefix.
fn may_hear(own: Option<u32>, paths: &mut Finder<'_, Best>, prefix: &Prefix) -> bool
    requires { IsBestList paths.old }
    ensures value { result ≡ spec.may_hear own paths.old prefix.now }
    ensures same { paths.new ≡ paths.old }
{
    let found = paths.at(prefix);
    match found {
        None => false,
        Some(best) => !is_told_back(own, best.path.as_path()),
    }
}

/// Puts those of some prefixes at the end for which a router of an AS may take what a sender knows, or may have taken what it knew.
fn add_heard(
    news: &mut Items<Prefix>,
    own: Option<u32>,
    before: &Listed<'_, Best>,
    now: &Listed<'_, Best>,
    prefixes: &[Prefix],
) -> Result<(), AllocError>
    requires before { IsBestList before.now }
    requires now { IsBestList now.now }
    ensures { OnOk result (news.new ≡ news.old ++ filter (spec.may_hear_either own before.now now.now) prefixes.now) }
{
    let mut earlier = Finder::of(before);
    let mut later = Finder::of(now);
    for prefix in prefixes {
        if may_hear(own, &mut later, prefix) || may_hear(own, &mut earlier, prefix) {
            news.push(*prefix)?;
        }
    }
    Ok(())
}

/// Puts the prefixes that a session's sender may tell anew at the end.
fn add_news_over(
    news: &mut Items<Prefix>,
    net: &Network,
    earlier: &Knowledge,
    previous: &Knowledge,
    changes: &Changes,
    inside: &Changes,
    session: &Session,
) -> Result<(), AllocError>
    requires earlier { All IsRouterState earlier.now }
    requires previous { All IsRouterState previous.now }
    ensures { OnOk result (news.new ≡ news.old ++ spec.news_over net.now earlier.now previous.now changes.now inside.now session.now) }
{
    add_heard(
        news,
        asn_of(net, session.receiver),
        &paths_of(earlier, session.sender),
        &paths_of(previous, session.sender),
        changes_over(changes, inside, session),
    )
}

/// Puts the prefixes that the senders of some sessions may tell anew at the end.
fn add_news(
    news: &mut Items<Prefix>,
    net: &Network,
    earlier: &Knowledge,
    previous: &Knowledge,
    changes: &Changes,
    inside: &Changes,
    sessions: &[Session],
) -> Result<(), AllocError>
    requires earlier { All IsRouterState earlier.now }
    requires previous { All IsRouterState previous.now }
    ensures { OnOk result (news.new ≡ news.old ++ flat_map (spec.news_over net.now earlier.now previous.now changes.now inside.now) sessions.now) }
{
    for session in sessions {
        add_news_over(news, net, earlier, previous, changes, inside, session)?;
    }
    Ok(())
}

/// Prefixes in order, each once. Those of one sender stand in order already, and a sort takes them as they are.
fn each_once(prefixes: Items<Prefix>) -> Result<Items<Prefix>, AllocError>
    ensures { IfOk result (λ once. once ≡ in_order prefix_cmp prefixes) }
{
    let mut once = prefixes.into_vec();
    once.sort()?;
    once.dedup();
    Ok(Items::from_vec(once))
}

/// The prefixes that the senders of some sessions may tell anew, in order, each once.
#[tactic(auto, using(crate::proofs::AlikeLaws::news_in_order))]
pub(crate) fn changed_at_senders(
    alloc: Global,
    net: &Network,
    earlier: &Knowledge,
    previous: &Knowledge,
    changes: &Changes,
    inside: &Changes,
    sessions: &[Session],
) -> Result<Items<Prefix>, AllocError>
    requires earlier { All IsRouterState earlier.now }
    requires previous { All IsRouterState previous.now }
    ensures value { IfOk result (λ prefixes. prefixes ≡ spec.changed_at_senders net.now earlier.now previous.now changes.now inside.now sessions.now) }
    ensures in_order { IfOk result (IsStrictlySortedBy prefix_cmp) }
{
    let mut news = Items::new(alloc);
    add_news(&mut news, net, earlier, previous, changes, inside, sessions)?;
    each_once(news)
}
