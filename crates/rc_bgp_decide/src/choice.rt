//! The best of paths, and of standings.
ghost use Rattle.std.specs.Prelude.{◌≡◌, ◌<◌, ◌↔◌, [], IfSome, None, length};
ghost use Rattle.rc_bgp_decide.specs.Decision.{best_place, best_standing};

use crate::Standing;
use crate::leader::best_place;
use rc_route::KeptPath;

/// The place of the best path (RFC 4271 s.9.1.2.2), `None` exactly where there is no path. Of paths that are equal in all that
/// counts it is the first one's.
///
/// One path alone is the best without a look at it. Else it is mostly one pass; at worst each path is held against each.
pub fn best(paths: &[KeptPath]) -> Option<usize>
    ensures best { result ≡ best_place paths.now }
    ensures place { IfSome result (λ i. i < length paths.now) }
    ensures none { (result ≡ None) ↔ (paths.now ≡ []) }
{
    if paths.len() == 1 {
        return Some(0);
    }
    best_place(paths)
}

/// The place of the best standing: the path at this place is the best of those that have these standings.
pub fn best_standing(standings: &[Standing]) -> Option<usize>
    ensures best { result ≡ best_standing standings.now }
    ensures place { IfSome result (λ i. i < length standings.now) }
    ensures none { (result ≡ None) ↔ (standings.now ≡ []) }
{
    best_place(standings)
}
