//! A list in pieces that is asked for one prefix after another.
ghost use Rattle.std.specs.Prelude.{◌≡◌, IfErr, IfOk, IfSome, IsTrue, None, slice_get};
ghost use Rattle.std.specs.Option.{option_copied};
ghost use Rattle.rc_route.specs.Tables.{IsListed, listed_at};
ghost use Rattle.rc_pieces.specs.Finding.{IsHere, IsPassed, is_begun, stands_before, stands_behind};
ghost use Rattle.rc_pieces.specs.Pieces.{AreFilled, IsPlaceFor, joined};

use crate::listed::{Listed, before, place_for};
use crate::piece::Piece;
use rc_base::Prefix;
use rc_route::HasPrefix;
use std::marker::Model;

/// A list, seen as that list, that is asked for prefixes which mostly come in order and side by side: it looks first behind what it found
/// last. It has an answer for any prefix.
pub struct Finder<'a, T: HasPrefix> {
    pieces: &'a [Piece<T>],
    /// The place of the prefix that was asked for last: so many pieces begin at it or before it.
    place: usize,
    /// The elements of the piece before that place.
    items: &'a [T],
    /// How many of them stand before the next one that may be asked for.
    index: usize,
}

/// By a function of its own, so that what holds one drops it by one call.
impl<'a, T: HasPrefix> Drop for Finder<'a, T> {
    fn drop(self) {
        let Finder {
            pieces: _,
            place: _,
            items: _,
            index: _,
        } = self;
    }
}

impl<'a, T: HasPrefix> Model for Finder<'a, T> {
    ghost use Rattle.std.specs.Prelude.{List};
    ghost use Rattle.rc_pieces.specs.Finding.{IsAtPlace};
    ghost use Rattle.rc_pieces.specs.Pieces.{joined};

    ghost Value = { List T };

    ghost view = { λ f. joined f.pieces.now };

    ghost invariant = { λ f. IsAtPlace f.pieces.now f.place f.items.now };
}

/// The element at an index, where it has this prefix.
#[inline]
fn item_with<'a, T: HasPrefix>(items: &'a [T], index: usize, prefix: &Prefix) -> Option<&'a T>
    ensures { IfSome (option_copied result) (IsHere T.prefix_of prefix.now items.now index) }
{
    let item = items.get(index)?;
    if item.prefix() == *prefix {
        Some(item)
    } else {
        None
    }
}

/// Whether the piece at an index begins at a prefix or before it; not where there is none.
#[inline]
#[tactic(auto, using(crate::proofs::PlaceLaws::lt_code))]
fn is_begun<T: HasPrefix>(pieces: &[Piece<T>], index: usize, prefix: &Prefix) -> bool
    ensures { result ≡ is_begun T.prefix_of prefix.now (slice_get pieces.now index) }
{
    match pieces.get(index) {
        None => false,
        Some(piece) => !(*prefix < piece.prefix()),
    }
}

/// Whether the pieces before a place are those that begin at a prefix or before it.
#[inline]
fn is_place_for<T: HasPrefix>(pieces: &[Piece<T>], place: usize, prefix: &Prefix) -> bool
    requires filled { AreFilled pieces.now }
    requires in_order { IsListed T.prefix_of (joined pieces.now) }
    ensures { IsTrue result → IsPlaceFor T.prefix_of pieces.now prefix.now place }
{
    if is_begun(pieces, place, prefix) {
        return false;
    }
    place == 0 || is_begun(pieces, place - 1, prefix)
}

/// How many pieces begin at a prefix or before it: asked first is a place at which that may be so, then the next one.
fn place_near<T: HasPrefix>(pieces: &[Piece<T>], place: usize, prefix: &Prefix) -> usize
    requires filled { AreFilled pieces.now }
    requires in_order { IsListed T.prefix_of (joined pieces.now) }
    ensures { IsPlaceFor T.prefix_of pieces.now prefix.now result }
{
    if is_place_for(pieces, place, prefix) {
        return place;
    }
    let next = place.saturating_add(1);
    if is_place_for(pieces, next, prefix) {
        return next;
    }
    place_for(pieces, prefix)
}

/// Whether the element at an index stands before a prefix; not where there is none.
#[inline]
#[tactic(auto, using(crate::proofs::PlaceLaws::lt_code))]
fn stands_before<T: HasPrefix>(items: &[T], index: usize, prefix: &Prefix) -> bool
    ensures { result ≡ stands_before T.prefix_of prefix.now (slice_get items.now index) }
{
    match items.get(index) {
        None => false,
        Some(item) => item.prefix() < *prefix,
    }
}

/// So many elements, where there are as many and they stand before a prefix; else none.
#[inline]
fn passed<T: HasPrefix>(items: &[T], count: usize, prefix: &Prefix) -> usize
    requires { IsListed T.prefix_of items.now }
    ensures { IsPassed T.prefix_of prefix.now items.now result }
{
    if count > 0 && stands_before(items, count - 1, prefix) {
        return count;
    }
    0
}

/// Whether the first of some elements stands behind a prefix; also where there is none.
#[inline]
#[tactic(auto, using(crate::proofs::PlaceLaws::lt_code))]
fn begins_behind<T: HasPrefix>(items: &[T], prefix: &Prefix) -> bool
    ensures { result ≡ stands_behind T.prefix_of prefix.now (slice_get items.now 0) }
{
    match items.get(0) {
        None => true,
        Some(item) => *prefix < item.prefix(),
    }
}

/// The index of what is there for a prefix, or that where it would stand: by bisection, if it isn't the first one.
fn index_in<T: HasPrefix>(items: &[T], prefix: &Prefix) -> Result<usize, usize>
    requires { IsListed T.prefix_of items.now }
    ensures found { IfOk result (λ index. slice_get items.now index ≡ listed_at T.prefix_of items.now prefix.now) }
    ensures absent { IfErr result (λ index. None ≡ listed_at T.prefix_of items.now prefix.now) }
{
    if begins_behind(items, prefix) {
        return Err(0);
    }
    items.binary_search_by_key(prefix, |item| item.prefix())
}

/// The index of what is there for a prefix, or that where it would stand. If a hint tells so many elements that stand before the prefix, only
/// those behind them are searched.
fn index_near<T: HasPrefix>(items: &[T], hint: usize, prefix: &Prefix) -> Result<usize, usize>
    requires { IsListed T.prefix_of items.now }
    ensures found { IfOk result (λ index. slice_get items.now index ≡ listed_at T.prefix_of items.now prefix.now) }
    ensures absent { IfErr result (λ index. None ≡ listed_at T.prefix_of items.now prefix.now) }
{
    let count = passed(items, hint, prefix);
    match index_in(&items[count..], prefix) {
        Ok(index) => Ok(count.saturating_add(index)),
        Err(index) => Err(count.saturating_add(index)),
    }
}

impl<'a, T: HasPrefix> Finder<'a, T> {
    /// A list that was asked for nothing.
    pub fn of(listed: &Listed<'a, T>) -> Finder<'a, T>
        ensures { result ≡ listed.now }
    {
        Finder {
            pieces: listed.pieces(),
            place: 0,
            items: &[],
            index: 0,
        }
    }

    /// What is there for a prefix that isn't the one of the next element.
    fn look(&mut self, prefix: &Prefix) -> Option<&'a T>
        requires { IsListed T.prefix_of self.old }
        ensures value { option_copied result ≡ listed_at T.prefix_of self.old prefix.now }
        ensures same { self.new ≡ self.old }
    {
        let place = place_near(self.pieces, self.place, prefix);
        let items = before(self.pieces, place);
        let found = index_near(items, self.index, prefix);
        self.place = place;
        self.items = items;
        match found {
            Ok(index) => {
                self.index = index.saturating_add(1);
                items.get(index)
            }
            Err(index) => {
                self.index = index;
                None
            }
        }
    }

    /// What is there for just this prefix: the next element, if it has the prefix; else by bisection, mostly in one piece.
    #[inline]
    pub fn at(&mut self, prefix: &Prefix) -> Option<&'a T>
        requires { IsListed T.prefix_of self.old }
        ensures value { option_copied result ≡ listed_at T.prefix_of self.old prefix.now }
        ensures same { self.new ≡ self.old }
    {
        let next = item_with(self.items, self.index, prefix);
        match next {
            None => self.look(prefix),
            Some(item) => {
                self.index = self.index.saturating_add(1);
                Some(item)
            }
        }
    }
}
