//! A list with edits, which shares the pieces in which nothing is edited.
ghost use Rattle.std.specs.Prelude.{◌≡◌, ◌++◌, ◌∷◌, [], IfOk, MatchOption, OnOk, drop, false, true};
ghost use Rattle.std.specs.Option.{option_to_list};
ghost use Rattle.rc_route.specs.Tables.{IsListed};
ghost use Rattle.rc_pieces.specs.Editing as spec;
ghost use Rattle.rc_pieces.specs.Editing.{AreEdits, BeginAt, KeepsWhole, PutsWhole, SaysAsEdited, goes_before};
ghost use Rattle.rc_pieces.specs.Pieces.{AreFilled, joined};

use crate::again::{Again, append_again};
use crate::edit::{Edit, Edits, goes_before, number_before};
use crate::growing::Growing;
use crate::listed::Listed;
use crate::piece::Piece;
use crate::pieces::Pieces;
use rc_base::{Items, Prefix};
use rc_route::HasPrefix;
use std::alloc::{AllocError, Global};

/// What stands before a prefix, by bisection.
fn before<'a, T: HasPrefix>(items: &'a [T], prefix: &Prefix) -> &'a [T]
    requires { IsListed T.prefix_of items.now }
    ensures { result.now ≡ spec.before T.prefix_of prefix.now items.now }
{
    let index = items.partition_point(|item| item.prefix() < *prefix);
    &items[..index]
}

/// What stands behind a prefix, by bisection.
fn behind<'a, T: HasPrefix>(items: &'a [T], prefix: &Prefix) -> &'a [T]
    requires { IsListed T.prefix_of items.now }
    ensures value { result.now ≡ spec.behind T.prefix_of prefix.now items.now }
    ensures in_order { IsListed T.prefix_of result.now }
{
    let index = items.partition_point(|item| !(*prefix < item.prefix()));
    &items[index..]
}

/// Puts a thing at the end of a list, if there is one.
fn push_some<T: Again>(made: &mut Items<T>, value: Option<T>) -> Result<(), AllocError>
    ensures { OnOk result (made.new ≡ made.old ++ option_to_list value) }
{
    match value {
        Some(value) => made.push(value),
        None => Ok(()),
    }
}

/// Puts what an edit says of a prefix at the end, behind what stands before it.
fn apply<T: Again>(
    alloc: Global,
    made: &mut Items<T>,
    left: &[T],
    prefix: &Prefix,
    value: Option<T>,
) -> Result<(), AllocError>
    requires { IsListed T.prefix_of left.now }
    ensures { OnOk result (made.new ≡ made.old ++ (spec.before T.prefix_of prefix.now left.now ++ option_to_list value)) }
{
    append_again(alloc, made, before(left, prefix))?;
    push_some(made, value)
}

/// The prefix of the first of some edits and what it says, where that prefix stands before an end, if there is one.
fn take_before<T: Again>(edits: &mut Edits<T>, end: &Option<Prefix>) -> Option<Edit<T>>
    ensures { MatchOption result ((goes_before edits.old.items end.now ≡ false) × (edits.new.items ≡ edits.old.items)) (λ edit. (goes_before edits.old.items end.now ≡ true) × (edits.old.items ≡ edit ∷ edits.new.items)) }
{
    if goes_before(&*edits, end) {
        edits.pop_front()
    } else {
        None
    }
}

/// Elements with the edits before an end.
fn with_edits<T: Again>(
    alloc: Global,
    items: &[T],
    edits: &mut Edits<T>,
    end: &Option<Prefix>,
) -> Result<Items<T>, AllocError>
    requires { IsListed T.prefix_of items.now }
    ensures { IfOk result (λ made. KeepsWhole T.prefix_of items.now end.now edits.old.items made [] edits.new.items) }
{
    let room = items.len().saturating_add(number_before(&*edits, end));
    let mut made = Items::with_room(alloc, room)?;
    let mut left = items;
    while let Some(edit) = take_before(edits, end) {
        let Edit { prefix, value } = edit;
        apply(alloc, &mut made, left, &prefix, value)?;
        left = behind(left, &prefix);
    }
    append_again(alloc, &mut made, left)?;
    Ok(made)
}

/// The prefix at which some pieces begin, if there are some.
fn end_of<T: HasPrefix>(pieces: &[Piece<T>]) -> Option<Prefix>
    requires { AreFilled pieces.now }
    ensures { BeginAt T.prefix_of (joined pieces.now) result }
{
    match pieces.first() {
        None => None,
        Some(piece) => Some(piece.prefix()),
    }
}

/// Those of some pieces behind the first one.
fn behind_first<T: HasPrefix>(pieces: &[Piece<T>]) -> &[Piece<T>]
    ensures { result.now ≡ drop 1 pieces.now }
{
    match pieces {
        [] => &[],
        [_, behind @ ..] => behind,
    }
}

/// Puts a piece at the end, with the edits before an end: the same piece, where there are none.
fn put_piece<T: Again>(
    alloc: Global,
    made: &mut Growing<T>,
    piece: &Piece<T>,
    edits: &mut Edits<T>,
    end: &Option<Prefix>,
) -> Result<(), AllocError>
    requires { IsListed T.prefix_of piece.now }
    ensures { OnOk result (PutsWhole T.prefix_of piece.now end.now edits.old.items edits.new.items made.old made.new) }
{
    if !goes_before(&*edits, end) {
        made.push_shared(piece)?;
        return Ok(());
    }
    let items = with_edits(alloc, piece.as_slice(), edits, end)?;
    made.push_all(alloc, items)?;
    Ok(())
}

/// Puts what edits say at the end, where nothing else is left.
fn put_values<T: Again>(
    alloc: Global,
    made: &mut Growing<T>,
    edits: Edits<T>,
) -> Result<(), AllocError>
    ensures { OnOk result (made.new ≡ made.old ++ spec.edited T.prefix_of [] edits.items) }
{
    let mut values = Items::new(alloc);
    let mut edits = edits;
    while let Some(edit) = edits.pop_front() {
        let Edit { prefix: _, value } = edit;
        push_some(&mut values, value)?;
    }
    made.push_all(alloc, values)
}

/// A list with what edits say in place of what it says there. It shares the pieces of the other list in which nothing is edited. It errs
/// only where memory runs out.
pub fn edited<T: Again>(
    alloc: Global,
    known: &Listed<'_, T>,
    edits: Edits<T>,
) -> Result<Pieces<T>, AllocError>
    requires { IsListed T.prefix_of known.now }
    ensures list { IfOk result (λ made. made ≡ spec.edited T.prefix_of known.now edits.items) }
    ensures says { AreEdits T.prefix_of edits.items → IfOk result (λ made. SaysAsEdited T.prefix_of known.now edits.items made) }
{
    let mut made = Growing::new(alloc);
    let mut edits = edits;
    let mut left = known.pieces();
    while let Some(piece) = left.first() {
        left = behind_first(left);
        let end = end_of(left);
        put_piece(alloc, &mut made, piece, &mut edits, &end)?;
    }
    put_values(alloc, &mut made, edits)?;
    made.finish(alloc)
}
