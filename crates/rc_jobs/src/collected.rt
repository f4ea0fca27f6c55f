//! What positions in a row send to each position, and what may end at them.
ghost use Rattle.std.specs.Prelude.{◌≡◌, ℕ, ◌++◌, ◌<◌, ◌≤◌, Bool, List, [], IfOk, OnOk, length, slice_index_or, slice_set};
ghost use Rattle.rc_base.specs.declared.ending.Kind.{Kind as KindOf};
ghost use Rattle.rc_nodes.specs.Seats.{SeatView};
ghost use Rattle.rc_jobs.specs.Collecting.{AreAppended, with_ending, with_flow};
ghost use Rattle.rc_trees.specs.Trees.{Tree};

use crate::flow::{Ending, Flow, Prepared};
use rc_base::{Items, Kind};
use rc_nodes::{NEVER, Ref};
use std::alloc::AllocError;

/// The flows into each position, and the endings, from positions in a row.
pub struct Collected {
    pub into: Vec<Items<Flow>>,
    pub ends: Items<Ending>,
}

/// By a function of its own, so that what holds them drops them by one call.
impl Drop for Collected {
    fn drop(self) {
        let Collected { into: _, ends: _ } = self;
    }
}

/// Puts a set behind the flows into a position, where it holds some header.
pub fn push_flow(flows: &mut Items<Flow>, from: usize, set: Ref) -> Result<(), AllocError>
    ensures { OnOk result (flows.new ≡ with_flow flows.old from set) }
{
    if set == NEVER {
        return Ok(());
    }
    flows.push(Flow { from, set })
}

/// Puts an ending behind the others, where its set holds some header.
pub fn push_ending(
    endings: &mut Items<Ending>,
    kind: Kind,
    from: usize,
    set: Ref,
) -> Result<(), AllocError>
    ensures { OnOk result (endings.new ≡ with_ending endings.old from kind set) }
{
    if set == NEVER {
        return Ok(());
    }
    endings.push(Ending {
        kind,
        flow: Flow { from, set },
    })
}

/// Puts items behind others.
fn append<T: Copy + Drop>(items: &mut Items<T>, more: &[T]) -> Result<(), AllocError>
    ensures { OnOk result (items.new ≡ items.old ++ more.now) }
{
    for item in more {
        items.push(*item)?;
    }
    Ok(())
}

/// The flows of an index, none where there is no such list.
fn flows_at(lists: &[Items<Flow>], index: usize) -> &[Flow]
    ensures { result.now ≡ slice_index_or lists.now index [] }
{
    let found = lists.get(index);
    match found {
        Some(flows) => flows.as_slice(),
        None => &[],
    }
}

/// Puts the flows of an index behind those of the same index.
fn append_at(
    into: &mut Vec<Items<Flow>>,
    more: &[Items<Flow>],
    index: usize,
) -> Result<(), AllocError>
    requires { index < length into.old.items }
    ensures { OnOk result (into.new.items ≡ slice_set into.old.items index (slice_index_or into.old.items index [] ++ slice_index_or more.now index [])) }
{
    append(&mut into[index], flows_at(more, index))
}

/// Puts lists behind lists, each behind that of its index.
fn append_all(into: &mut Vec<Items<Flow>>, more: &[Items<Flow>]) -> Result<(), AllocError>
    ensures { OnOk result (AreAppended into.old.items more.now into.new.items) }
{
    for index in 0..into.len() {
        append_at(into, more, index)?;
    }
    Ok(())
}

impl Collected {
    ghost use Rattle.rc_jobs.specs.Collecting.{IsCollected};
    ghost use Rattle.rc_jobs.specs.Flows.{IsPrepared};

    /// These, and behind them those of the next positions.
    pub fn with(self, next: Collected) -> Result<Collected, AllocError>
        ensures { IfOk result (λ whole. (seat : SeatView) (edge : ℕ → ℕ → Tree) (ends : (KindOf → Bool) → ℕ → List Tree) (count a b c : ℕ) → IsCollected seat edge ends count a b self → IsCollected seat edge ends count b c next → IsCollected seat edge ends count a c whole) }
    {
        let Collected { mut into, mut ends } = self;
        append_all(&mut into, next.into.as_slice())?;
        append(&mut ends, next.ends.as_slice())?;
        Ok(Collected { into, ends })
    }

    /// Those of all positions as the sets of a query.
    pub fn prepared(self) -> Prepared
        ensures { (seat : SeatView) (edge : ℕ → ℕ → Tree) (ends : (KindOf → Bool) → ℕ → List Tree) (count : ℕ) → IsCollected seat edge ends count 0 count self → IsPrepared seat edge ends count result }
    {
        let Collected { into, ends } = self;
        Prepared {
            into: Items::from_vec(into),
            ends,
        }
    }
}
