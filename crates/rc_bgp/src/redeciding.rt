//! What is best now at some prefixes, where that is another path than the one that is known.
ghost use Rattle.std.specs.List.Sorted.{IsStrictlySortedBy};
ghost use Rattle.std.specs.Option.{option_copied};
ghost use Rattle.std.specs.Prelude.{◌≡◌, All, IfOk, IsTrue};
ghost use Rattle.rc_base.specs.Prefix.{prefix_cmp};
ghost use Rattle.rc_route.specs.Tables.{IsBestList, IsPathList, IsRouterState};
ghost use Rattle.rc_route.specs.declared.best.Best.{Best as BestModel};
ghost use Rattle.rc_bgp.specs.Candidates.{best_among};
ghost use Rattle.rc_bgp.specs.Updating.{AreDecided};

use crate::Session;
use crate::deciding::best_among;
use crate::resolver::Resolver;
use crate::senders::senders_of;
use rc_base::{Items, Prefix};
use rc_config::{MaximumPaths, Network};
use rc_pieces::{Alike, Edit, Edits, Finder, Knowledge, Listed};
use rc_route::{Best, BgpPath};
use std::alloc::{AllocError, Global};
use std::collections::VecDeque;

/// Whether what is best is what is known.
fn is_known(known: Option<&Best>, best: &Option<Best>) -> bool
    ensures { IsTrue result → option_copied known.entry ≡ best.now }
{
    match known {
        None => best.is_none(),
        Some(known) => match best {
            None => false,
            Some(best) => known.is_same(best),
        },
    }
}

/// What is best now at those of some prefixes, which stand in order, at which that is another path than the one that is known, and these
/// prefixes.
pub(crate) fn decided(
    alloc: Global,
    net: &Network,
    state: &Knowledge,
    most: MaximumPaths,
    resolver: &mut Resolver<'_>,
    own: &[Items<BgpPath>],
    sessions: &[Session],
    known: &Listed<'_, Best>,
    prefixes: &[Prefix],
) -> Result<(Items<Prefix>, Edits<Best>), AllocError>
    requires state { All IsRouterState state.now }
    requires own { All IsPathList own.now }
    requires known { IsBestList known.now }
    requires prefixes { IsStrictlySortedBy prefix_cmp prefixes.now }
    ensures { IfOk result (λ made. AreDecided (λ (b : BestModel). b.path.prefix) (best_among net.now state.now most resolver.old own.now sessions.now) known.now prefixes.now made.0 made.1.items) }
{
    let mut changed = Items::with_room(alloc, prefixes.len())?;
    let mut edits = VecDeque::with_capacity(alloc, prefixes.len())?;
    let mut finder = Finder::of(known);
    let mut senders = senders_of(alloc, net, state, sessions)?;
    let mut candidates = Vec::new(alloc);
    for prefix in prefixes {
        let best = best_among(
            alloc,
            most,
            resolver,
            own,
            &mut senders,
            prefix,
            &mut candidates,
        )?;
        if is_known(finder.at(prefix), &best) {
            continue;
        }
        changed.push(*prefix)?;
        edits.push_back(Edit {
            prefix: *prefix,
            value: best,
        })?;
    }
    Ok((changed, edits))
}
