//! The leader of a pass over paths or standings.
ghost use Rattle.std.specs.Prelude.{◌≡◌, ◌<◌, ◌↔◌, [], IfSome, None, length, option_map};
ghost use Rattle.rc_bgp_decide.specs.declared.standing.Standing as declared;
ghost use Rattle.rc_bgp_decide.specs.Decision.{place_of_best, standing};
ghost use Rattle.rc_bgp_decide.specs.Tests.{is_ahead, is_beaten, leader_after, leader_from};

use crate::Standing;
use crate::comparing::{is_better_first, is_better_last};
use rc_route::KeptPath;

/// What has a standing among others.
pub(crate) trait Stands {
    ghost stands: { Self → declared.Standing };

    /// Its standing.
    fn standing(&self) -> Standing
        ensures { result ≡ stands self.now };
}

impl Stands for KeptPath {
    ghost stands = { standing };

    fn standing(&self) -> Standing {
        Standing::of(self)
    }
}

impl Stands for Standing {
    ghost stands = { λ s. s };

    fn standing(&self) -> Standing {
        *self
    }
}

/// What leads among those seen so far.
#[derive(Drop)]
pub(crate) struct Leader {
    pub(crate) place: usize,
    pub(crate) standing: Standing,
}

/// Whether one of them is better by the tests up to the MED. That test is one among paths of one first AS, so what is beaten isn't
/// told by the leader alone.
fn is_beaten<T: Stands>(all: &[T], x: &Standing) -> bool
    ensures { result ≡ is_beaten T.stands all.now x.now }
{
    all.iter().any(|y| is_better_first(&y.standing(), x))
}

/// Whether there is no leader, or a worse one by the tests behind the MED.
fn is_ahead(leader: &Option<Leader>, x: &Standing) -> bool
    ensures { result ≡ is_ahead leader.now x.now }
{
    match leader {
        None => true,
        Some(leader) => is_better_last(x, &leader.standing),
    }
}

/// The leader after one more. Only what is ahead of the leader is held against all the others.
fn leader_after<T: Stands>(all: &[T], leader: Option<Leader>, next: Leader) -> Option<Leader>
    ensures { result ≡ leader_after T.stands all.now leader next }
{
    if is_ahead(&leader, &next.standing) && !is_beaten(all, &next.standing) {
        Some(next)
    } else {
        leader
    }
}

/// The leader of all.
fn leader_of<T: Stands>(all: &[T]) -> Option<Leader>
    ensures { result ≡ leader_from T.stands all.now None 0 all.now }
{
    let mut leader = None;
    for (place, item) in all.iter().enumerate() {
        let standing = item.standing();
        leader = leader_after(all, leader, Leader { place, standing });
    }
    leader
}

/// Its place.
fn leading_place<T: Stands>(all: &[T]) -> Option<usize>
    ensures { result ≡ option_map (λ l. l.place) (leader_from T.stands all.now None 0 all.now) }
{
    leader_of(all).map(|leader| leader.place)
}

/// The place of the best, in one pass that holds against all others what is ahead of the leader.
pub(crate) fn best_place<T: Stands>(all: &[T]) -> Option<usize>
    ensures best { result ≡ place_of_best T.stands all.now }
    ensures place { IfSome result (λ i. i < length all.now) }
    ensures none { (result ≡ None) ↔ (all.now ≡ []) }
{
    leading_place(all)
}
