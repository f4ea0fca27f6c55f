//! What a position sends to each other one, and the flows that come of it.
ghost use Rattle.std.specs.Prelude.{◌≡◌, ℕ, ◌∷◌, ◌<◌, All, List, [], IfOk, IfErr, OnOk, length, replicate, slice_index_or, slice_set};
ghost use Rattle.rc_bdd.specs.Work.{IsCause};
ghost use Rattle.rc_edges.specs.Given.{AreFlushed, Gives, IsRow, MayGive, joined, no_set, nothing, or_none, set_at, touched_with};
ghost use Rattle.rc_nodes.specs.Seats.{IsSeatOf, Keeps, SeatKnows, SeatView};
ghost use Rattle.rc_trees.specs.Recipes.{Recipe, tree};
ghost use Rattle.rc_trees.specs.Trees.{Tree};
ghost use Rattle.rc_jobs.specs.Collecting.{with_flow};

use rc_base::Items;
use rc_bdd::{SetError, Work};
use rc_jobs::{Flow, push_flow};
use rc_nodes::{May, NEVER, Nodes, Ref};
use std::alloc::{AllocError, Global};

/// What one position sends to each position, by number.
pub(crate) struct Row {
    /// For each number what is sent there, where anything was given.
    pub sets: Vec<Option<Ref>>,
    /// The numbers of these, each once.
    pub touched: Vec<usize>,
}

/// By a function of its own, so that what holds a row drops it by one call.
impl Drop for Row {
    fn drop(self) {
        let Row {
            sets: _,
            touched: _,
        } = self;
    }
}

/// So many times nothing.
fn no_sets(alloc: Global, count: usize) -> Result<Vec<Option<Ref>>, AllocError>
    ensures { IfOk result (λ sets. sets.items ≡ replicate count no_set) }
{
    let sets = vec![in alloc; None; count]?;
    Ok(sets)
}

/// The set of a number, where there is one.
fn set_at(sets: &[Option<Ref>], number: usize) -> Option<Ref>
    ensures { result ≡ set_at sets.now number }
{
    let found = sets.get(number);
    match found {
        Some(set) => *set,
        None => None,
    }
}

/// A set, that of no header where there is none.
fn or_none(set: Option<Ref>) -> Ref
    ensures { result ≡ or_none set }
{
    match set {
        Some(set) => set,
        None => NEVER,
    }
}

/// Puts a number behind the others, where nothing was given to it before.
fn touch(touched: &mut Vec<usize>, before: Option<Ref>, number: usize) -> Result<(), SetError>
    ensures put { OnOk result (touched.new.items ≡ touched_with touched.old.items before number) }
    ensures memory { IfErr result (λ e. e ≡ SetError.Memory) }
{
    match before {
        Some(_) => Ok(()),
        None => match touched.push(number) {
            Ok(_) => Ok(()),
            Err(_) => Err(SetError::Memory),
        },
    }
}

/// Notes a set, or that there is none.
fn note(sets: &mut Vec<Option<Ref>>, number: usize, set: Option<Ref>)
    ensures { sets.new.items ≡ slice_set sets.old.items number set }
{
    if number < sets.len() {
        sets[number] = set;
    }
}

impl Row {
    /// Nothing is sent to any of so many positions.
    pub fn of(alloc: Global, count: usize) -> Result<Row, AllocError>
        ensures { IfOk result (λ row. (seat : SeatView) → IsRow seat row count (joined nothing)) }
    {
        let sets = no_sets(alloc, count)?;
        Ok(Row {
            sets,
            touched: Vec::new(alloc),
        })
    }

    /// A set is sent too.
    pub fn add<M: May>(
        &mut self,
        work: &mut Work<M>,
        nodes: &Nodes<M>,
        onto: usize,
        set: Ref,
    ) -> Result<(), SetError>
        requires seat { IsSeatOf nodes.now work.old }
        requires onto { onto < length self.old.sets.items }
        requires may { MayGive nodes.now work.old self.old onto set.index }
        ensures seat { IsSeatOf nodes.now work.new }
        ensures keeps { Keeps work.old work.new }
        ensures added { IfOk result (λ _. (more : Recipe) → SeatKnows work.old set.index (tree more) → Gives work.old work.new self.old self.new onto (more ∷ [])) }
        ensures cause { IfErr result (IsCause nodes.now work.new) }
    {
        let before = set_at(self.sets.as_slice(), onto);
        let joined = work.or(nodes, or_none(before), set)?;
        note(&mut self.sets, onto, Some(joined));
        touch(&mut self.touched, before, onto)
    }

    /// Nothing is sent any more.
    pub fn clear(&mut self)
        ensures { (seat : SeatView) (count : ℕ) (sent : ℕ → Tree) → IsRow seat self.old count sent → IsRow seat self.new count (joined nothing) }
    {
        for at in 0..self.touched.len() {
            let onto = self.touched[at];
            note(&mut self.sets, onto, None);
        }
        self.touched.clear();
    }
}

/// So many lists without a flow.
pub(crate) fn empty_rows(alloc: Global, count: usize) -> Result<Vec<Items<Flow>>, AllocError>
    ensures { IfOk result (λ rows. rows.items ≡ replicate count []) }
{
    let mut rows = Vec::with_capacity(alloc, count)?;
    for _row in 0..count {
        rows.push(Items::new(alloc))?;
    }
    Ok(rows)
}

/// Puts a set behind the flows into a position.
fn push_at(
    into: &mut Vec<Items<Flow>>,
    onto: usize,
    from: usize,
    set: Ref,
) -> Result<(), AllocError>
    requires { onto < length into.old.items }
    ensures { OnOk result (into.new.items ≡ slice_set into.old.items onto (with_flow (slice_index_or into.old.items onto []) from set)) }
{
    push_flow(&mut into[onto], from, set)
}

/// Puts what is sent to each position behind the flows into it, each as a flow from one position.
pub(crate) fn flush(into: &mut Vec<Items<Flow>>, row: &Row, from: usize) -> Result<(), AllocError>
    requires { All (λ t. t < length into.old.items) row.now.touched.items }
    ensures { OnOk result (AreFlushed into.old.items row.now from into.new.items) }
{
    for at in 0..row.touched.len() {
        let onto = row.touched[at];
        let set = or_none(set_at(row.sets.as_slice(), onto));
        push_at(into, onto, from, set)?;
    }
    Ok(())
}
