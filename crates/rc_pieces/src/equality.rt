//! Whether two states are equal.
ghost use Rattle.std.specs.Prelude.{◌≡◌, ◌≢◌, ◌↔◌, IsTrue, length, slice_get};

use crate::known::{Knowledge, Known, known_at};
use rc_base::RouterId;

/// Whether two routers know so many routes or paths that they can't know the same.
#[tactic(auto, using(crate::proofs::SameLaws::known_differ))]
fn differ_in_size(a: &Known, b: &Known) -> bool
    ensures { IsTrue result → a.now ≢ b.now }
{
    a.table.len() != b.table.len() || a.paths.len() != b.paths.len()
}

/// Whether so it is with a router in two states.
fn differ_at(a: &Knowledge, b: &Knowledge, router: RouterId) -> bool
    ensures { IsTrue result → a.now ≢ b.now }
{
    let one = known_at(a, router);
    let other = known_at(b, router);
    match one {
        None => false,
        Some(one) => match other {
            None => false,
            Some(other) => differ_in_size(one, other),
        },
    }
}

/// Whether two states differ in how many routes or paths some router knows, which is told at once.
fn some_differ_in_size(a: &Knowledge, b: &Knowledge) -> bool
    ensures { IsTrue result → a.now ≢ b.now }
{
    for index in 0..a.len() {
        if differ_at(a, b, RouterId::at(index)) {
            return true;
        }
    }
    false
}

/// Whether a router knows the same in two states, or is in neither.
fn is_same_at(a: &Knowledge, b: &Knowledge, router: RouterId) -> bool
    ensures { IsTrue result ↔ (slice_get a.now router ≡ slice_get b.now router) }
{
    let one = known_at(a, router);
    let other = known_at(b, router);
    match one {
        None => other.is_none(),
        Some(one) => match other {
            None => false,
            Some(other) => one.is_same(other),
        },
    }
}

/// Whether two states of as many routers are the same, by all that they hold.
fn is_same(a: &Knowledge, b: &Knowledge) -> bool
    requires { length a.now ≡ length b.now }
    ensures { IsTrue result ↔ (a.now ≡ b.now) }
{
    for index in 0..a.len() {
        if !is_same_at(a, b, RouterId::at(index)) {
            return false;
        }
    }
    true
}

/// Whether two states are equal, in all that they hold. Most that aren't differ in how much a router knows.
pub fn equal(a: &Knowledge, b: &Knowledge) -> bool
    ensures { IsTrue result ↔ (a.now ≡ b.now) }
{
    a.len() == b.len() && !some_differ_in_size(a, b) && is_same(a, b)
}
