//! What comes together at one position.
ghost use Rattle.std.specs.Prelude.{◌≡◌, ◌<◌, ◌≤◌, ℕ, All, List, IfOk, IfErr, false, true, length, slice_index_or};
ghost use Rattle.rc_jobs.specs.declared.flow.Flow.{Flow as FlowOf};
ghost use Rattle.rc_base.specs.Header.{bit_count};
ghost use Rattle.rc_bdd.specs.Work.{IsCause};
ghost use Rattle.rc_nodes.specs.Seats.{IsSeatOf, Keeps, SeatKnows};
ghost use Rattle.rc_spread.specs.Known.{AreSent, MayGatherRefs};
ghost use Rattle.rc_spread.specs.Gathered.{gathered};
ghost use Rattle.rc_trees.specs.Trees.{Tree};

use rc_bdd::{SetError, Work};
use rc_jobs::Flow;
use rc_nodes::{May, Nodes, Ref};
use rc_sectors::set_in;

/// Whether no flow comes from a position with something fresh. It is part of the loops over positions, of most of which that holds.
#[inline(always)]
pub fn are_settled(flows: &[Flow], fresh: &[bool]) -> bool
    requires { All (λ (f : FlowOf). f.from < length fresh.now) flows.now }
    ensures { result ≡ true → All (λ (f : FlowOf). slice_index_or fresh.now f.from false ≡ false) flows.now }
{
    for flow in flows {
        if fresh[flow.from] {
            return false;
        }
    }
    true
}

/// What stands somewhere, with all that positions with something fresh send there, in a sector: the sets are what they are there, and the
/// flows whole ones.
#[inline(never)]
pub fn gathered_set<M: May>(
    work: &mut Work<M>,
    nodes: &Nodes<M>,
    sets: &[Ref],
    fresh: &[bool],
    flows: &[Flow],
    sector: &[bool],
    here: Ref,
) -> Result<Ref, SetError>
    requires seat { IsSeatOf nodes.now work.old }
    requires short { length sector.now ≤ bit_count }
    requires may { MayGatherRefs nodes.now work.old sets.now fresh.now flows.now sector.now here.index }
    ensures seat { IsSeatOf nodes.now work.new }
    ensures keeps { Keeps work.old work.new }
    ensures made { IfOk result (λ r. (of : ℕ → Tree) (start : Tree) (through : List (ℕ × Tree)) → AreSent work.old sets.now fresh.now flows.now sector.now here.index of start through → SeatKnows work.new r.index (gathered of start through)) }
    ensures cause { IfErr result (IsCause nodes.now work.new) }
{
    let mut set = here;
    for flow in flows {
        if fresh[flow.from] {
            let through = set_in(work, nodes, flow.set, sector);
            let passed = work.and(nodes, sets[flow.from], through)?;
            set = work.or(nodes, set, passed)?;
        }
    }
    Ok(set)
}
