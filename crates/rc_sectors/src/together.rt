//! A set put together of what it is in sectors.
ghost use Rattle.std.specs.Prelude.{IfErr, IfOk};
ghost use Rattle.rc_nodes.specs.Seats.{IsFull, IsSeatOf, Keeps, SeatKnows};
ghost use Rattle.rc_sectors.specs.Cuts.{AreWithin, IsMade, MayPutTogether, StandFrom};
ghost use Rattle.rc_trees.specs.Trees.{IsReduced, Tree};

use rc_base::Items;
use rc_bdd::Work;
use rc_nodes::{Full, May, Nodes, Ref};

/// What a set is in a sector of so many bits, put together of what it is in those from a place on into which that is cut; and the place
/// behind these.
fn put_together<M: May>(
    work: &mut Work<M>,
    nodes: &Nodes<M>,
    sectors: &[Items<bool>],
    sets: &[Ref],
    at: usize,
    bits: u8,
) -> Result<(Ref, usize), Full>
    requires seat { IsSeatOf nodes.now work.old }
    requires may { MayPutTogether nodes.now work.old sectors.now sets.now }
    requires stand { StandFrom sectors.now at bits }
    ensures seat { IsSeatOf nodes.now work.new }
    ensures keeps { Keeps work.old work.new }
    ensures made { IfOk result (λ r. IsMade work.old work.new sectors.now sets.now at bits r.0.index r.1) }
    ensures full { IfErr result (λ _. IsFull nodes.now work.new) }
{
    if sectors[at].len() == bits as usize {
        return Ok((sets[at], at + 1));
    }
    let (low, middle) = put_together(work, nodes, sectors, sets, at, bits + 1)?;
    let (high, end) = put_together(work, nodes, sectors, sets, middle, bits + 1)?;
    let set = work.branch(nodes, bits, low, high)?;
    Ok((set, end))
}

/// The set that is so in each of the sectors of a cut. It errs only where the table is full.
pub fn whole<M: May>(
    work: &mut Work<M>,
    nodes: &Nodes<M>,
    sectors: &[Items<bool>],
    sets: &[Ref],
) -> Result<Ref, Full>
    requires seat { IsSeatOf nodes.now work.old }
    requires may { MayPutTogether nodes.now work.old sectors.now sets.now }
    ensures seat { IsSeatOf nodes.now work.new }
    ensures keeps { Keeps work.old work.new }
    ensures set { IfOk result (λ r. (t : Tree) → IsReduced t → AreWithin work.old sectors.now sets.now t → SeatKnows work.new r.index t) }
    ensures full { IfErr result (λ _. IsFull nodes.now work.new) }
{
    let (set, _end) = put_together(work, nodes, sectors, sets, 0, 0)?;
    Ok(set)
}
