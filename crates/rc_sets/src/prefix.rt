//! The set of a prefix.
ghost use Rattle.std.specs.Prelude.{IfOk, IfErr};
ghost use Rattle.rc_bdd.specs.Work.{IsCause, IsWantOfRoom};
ghost use Rattle.rc_nodes.specs.Seats.{IsSeatOf, Keeps, SeatKnows};
ghost use Rattle.rc_trees.specs.Fields.{chain};
ghost use Rattle.rc_trees.specs.Recipes.{tree};
ghost use Rattle.rc_trees.specs.Trees.{HasNodesOf};

use crate::number::masked_set;
use rc_base::Prefix;
use rc_bdd::{SetError, Work};
use rc_nodes::{ALWAYS, May, Nodes, Ref};

/// The headers whose destination the prefix holds. It takes no memory, so it fails for want of room in the table alone.
pub fn prefix_set<M: May>(
    work: &mut Work<M>,
    nodes: &Nodes<M>,
    prefix: Prefix,
) -> Result<Ref, SetError>
    requires seat { IsSeatOf nodes.now work.old }
    requires may { HasNodesOf nodes.now.may (tree (chain prefix)) }
    ensures seat { IsSeatOf nodes.now work.new }
    ensures keeps { Keeps work.old work.new }
    ensures set { IfOk result (λ r. SeatKnows work.new r.index (tree (chain prefix))) }
    ensures cause { IfErr result (IsCause nodes.now work.new) }
    ensures room { IfErr result (IsWantOfRoom nodes.now work.new) }
{
    let len = prefix.len();
    let network = prefix.network();
    if len == 0 {
        return Ok(ALWAYS);
    }
    let front = network.bits() >> (32 - len);
    match masked_set(work, nodes, len - 1, len, 0, front) {
        Ok(set) => Ok(set),
        Err(_) => Err(SetError::Full),
    }
}
