//! The numbers of a path, several beside each other and the rest behind them.
ghost use Rattle.std.specs.Prelude.{◌≡◌, ◌≤◌, ◌*◌, ◌==◌, ◌∷◌, ◌++◌, IfOk, length, nat_eq, slice_get, suc, take};
ghost use Rattle.std.specs.Arc.{arc_value};
ghost use Rattle.std.specs.List.{list_any};
ghost use Rattle.std.specs.Cmp.Lexicographic.{pointwise};
ghost use Rattle.rc_as_path.specs.Numbers.{height, numbers};

use std::alloc::{AllocError, Global};
use std::marker::Model;
use std::sync::Arc;

/// How many numbers stand beside each other at most.
const ROOM: u32 = 16;

/// The numbers from some place of a path on. Paths that end alike share it.
pub(crate) type Tail = Option<Arc<Segment, Global>>;

/// Up to 16 numbers of a path, which are read without a look elsewhere, and what stands behind them. It is seen as the list of all its
/// numbers.
///
/// Only the first segment of a path may have fewer, so two paths of as many numbers are cut at the same places.
pub(crate) struct Segment {
    /// The nearest first.
    own: [u32; 16],
    /// How many of these are numbers of the path.
    held: u32,
    /// How many segments stand behind it.
    behind: u32,
    rest: Tail,
}

impl Model for Segment {
    ghost use Rattle.std.specs.Prelude.{ℕ, List, ◌++◌, length, take};
    ghost use Rattle.std.proofs.Common.{arith};
    ghost use Rattle.rc_as_path.specs.Numbers.{IsSegment, length-whole, numbers};

    ghost Value = { List ℕ };

    ghost view = { λ s. take s.held s.own ++ numbers s.rest };

    ghost invariant = { λ s. IsSegment s.own s.held s.behind (numbers s.rest) };

    ghost size = { length };

    ghost size_decreases = { λ a h. Prim.grind (arith, length-whole a.own a.held a.behind (numbers a.rest) h, h.some) };
}

/// By a loop: a path may be long, and a drop that calls itself for each segment would need a stack as long.
impl Drop for Segment {
    fn drop(self) {
        let mut left = self.into_rest();
        while let Some(segment) = left {
            left = rest_of(segment);
        }
    }
}

/// The numbers of a segment, and what stands behind them.
#[derive(Clone, Copy)]
struct Parts<'a> {
    own: &'a [u32],
    /// How many segments stand behind them.
    behind: u32,
    rest: &'a Tail,
}

impl Segment {
    /// How many numbers it has.
    fn len(&self) -> u32
        ensures { result ≡ length self.now }
    {
        self.held + self.behind * ROOM
    }

    /// Its numbers, and what stands behind them.
    fn parts(&self) -> Parts<'_>
        ensures whole { self.now ≡ result.own.now ++ numbers result.rest.now }
        ensures some { 1 ≤ length result.own.now }
        ensures few { length result.own.now ≤ 16 }
        ensures full { length (numbers result.rest.now) ≡ 16 * result.behind }
        ensures falls { height result.rest.now ≤ length self.now }
    {
        Parts {
            own: &self.own[..self.held as usize],
            behind: self.behind,
            rest: &self.rest,
        }
    }

    /// What stands behind its numbers.
    fn into_rest(self) -> Tail
        ensures { height result ≤ length self }
    {
        let Segment {
            own: _,
            held: _,
            behind: _,
            rest,
        } = self;
        rest
    }
}

/// What stands behind the numbers of a segment, where nobody else holds it; else nothing.
fn rest_of(segment: Arc<Segment, Global>) -> Tail
    ensures { height result ≤ length (arc_value segment) }
{
    match Arc::into_inner(segment) {
        Some(segment) => segment.into_rest(),
        None => None,
    }
}

/// A number with others behind it, of which there is room for one more.
fn beside(asn: u32, others: &[u32]) -> [u32; 16]
    requires { suc (length others.now) ≤ 16 }
    ensures { take (suc (length others.now)) result ≡ asn ∷ others.now }
{
    let mut numbers = [0; 16];
    numbers[0] = asn;
    numbers[1..=others.len()].copy_from_slice(others);
    numbers
}

/// Some numbers, in front of which one more is put, and so many segments behind them.
fn longer(asn: u32, others: &[u32], behind: u32, rest: &Tail) -> Result<Segment, AllocError>
    requires room { suc (length others.now) ≤ 16 }
    requires full { length (numbers rest.now) ≡ 16 * behind }
    ensures { IfOk result (λ made. made ≡ asn ∷ others.now ++ numbers rest.now) }
{
    let below = behind.checked_mul(ROOM).ok_or(AllocError)?;
    let held = others.len() as u32 + 1;
    let _ = below.checked_add(held).ok_or(AllocError)?;
    let rest = share(rest)?;
    Ok(Segment {
        own: beside(asn, others),
        held,
        behind,
        rest,
    })
}

/// A number in front of a tail: beside the numbers of its first segment where there is room, else in one of its own.
fn in_front(asn: u32, tail: &Tail) -> Result<Segment, AllocError>
    ensures { IfOk result (λ made. made ≡ asn ∷ numbers tail.now) }
{
    match tail {
        None => longer(asn, &[], 0, tail),
        Some(segment) => {
            let parts = segment.parts();
            if parts.own.len() < ROOM as usize {
                longer(asn, parts.own, parts.behind, parts.rest)
            } else {
                let behind = parts.behind.checked_add(1).ok_or(AllocError)?;
                longer(asn, &[], behind, tail)
            }
        }
    }
}

/// A number with a tail behind it.
pub(crate) fn behind(alloc: Global, asn: u32, tail: &Tail) -> Result<Tail, AllocError>
    ensures { IfOk result (λ made. numbers made ≡ asn ∷ numbers tail.now) }
{
    let segment = in_front(asn, tail)?;
    let segment = Arc::new(alloc, segment)?;
    Ok(Some(segment))
}

/// A tail again.
pub(crate) fn share(tail: &Tail) -> Result<Tail, AllocError>
    ensures { IfOk result (λ shared. numbers shared ≡ numbers tail.now) }
{
    match tail {
        None => Ok(None),
        Some(segment) => {
            let shared = Arc::try_clone(segment)?;
            Ok(Some(shared))
        }
    }
}

/// How many numbers it has.
pub(crate) fn len(tail: &Tail) -> u32
    ensures { result ≡ length (numbers tail.now) }
{
    match tail {
        None => 0,
        Some(segment) => segment.len(),
    }
}

/// The nearest number, or `None` exactly where there is none.
pub(crate) fn first(tail: &Tail) -> Option<u32>
    ensures { result ≡ slice_get (numbers tail.now) 0 }
{
    match tail {
        None => None,
        Some(segment) => Some(segment.parts().own[0]),
    }
}

/// Whether a number is one of some.
fn is_among(asn: u32, numbers: &[u32]) -> bool
    ensures { result ≡ list_any (λ a. a == asn) numbers.now }
{
    numbers.iter().any(|a| *a == asn)
}

/// Whether a number is one of them.
pub(crate) fn holds(tail: &Tail, asn: u32) -> bool
    ensures { result ≡ list_any (λ a. a == asn) (numbers tail.now) }
{
    let mut left = tail;
    while let Some(segment) = left {
        let parts = segment.parts();
        if is_among(asn, parts.own) {
            return true;
        }
        left = parts.rest;
    }
    false
}

/// Whether some numbers are the same.
fn are_same(own: &[u32], other: &[u32]) -> bool
    ensures { result ≡ pointwise nat_eq own.now other.now }
{
    own == other
}

/// Whether two tails of as many numbers have the same ones: both are cut at the same places.
fn is_same_behind(one: &Tail, other: &Tail) -> bool
    requires { length (numbers one.now) ≡ length (numbers other.now) }
    ensures { result ≡ pointwise nat_eq (numbers one.now) (numbers other.now) }
{
    let mut left = one;
    let mut right = other;
    while let Some(x) = left {
        let here = x.parts();
        match right {
            Some(y) => {
                let there = y.parts();
                if !are_same(here.own, there.own) {
                    return false;
                }
                left = here.rest;
                right = there.rest;
            }
            None => return false,
        }
    }
    true
}

/// Whether two tails have the same numbers. Most that differ do in how many.
#[tactic(auto, using(crate::proofs::SegmentLaws::lengths_differ))]
pub(crate) fn is_same(one: &Tail, other: &Tail) -> bool
    ensures { result ≡ pointwise nat_eq (numbers one.now) (numbers other.now) }
{
    if len(one) != len(other) {
        return false;
    }
    is_same_behind(one, other)
}
