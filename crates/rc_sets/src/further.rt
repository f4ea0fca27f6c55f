//! The sets of what a line tests behind its ports.
ghost use Rattle.std.specs.Prelude.{IfOk, IfErr, Option, ℕ};
ghost use Rattle.rc_bdd.specs.Work.{IsWantOfRoom};
ghost use Rattle.rc_nodes.specs.Seats.{IsSeatOf, Keeps, SeatKnows};
ghost use Rattle.rc_sets.specs.AccessLists.{code_of, code_set, established, flag_set, type_set};
ghost use Rattle.rc_trees.specs.Recipes.{parts, tree};
ghost use Rattle.rc_trees.specs.Trees.{HasNodes, HasNodesOf};

use crate::number::exact_set;
use rc_base::{ACK_LAST, ICMP_CODE_LAST, ICMP_TYPE_LAST, RST_LAST};
use rc_bdd::{SetError, Work};
use rc_config::FurtherTest;
use rc_nodes::{ALWAYS, May, NEVER, Nodes, Ref};

/// The headers with the ICMP type that a test asks for, and all where it asks for none.
pub(crate) fn type_set<M: May>(
    work: &mut Work<M>,
    nodes: &Nodes<M>,
    test: FurtherTest,
) -> Result<Ref, SetError>
    requires seat { IsSeatOf nodes.now work.old }
    requires may { HasNodes nodes.now.may (parts (type_set test)) }
    ensures seat { IsSeatOf nodes.now work.new }
    ensures keeps { Keeps work.old work.new }
    ensures set { IfOk result (λ r. SeatKnows work.new r.index (tree (type_set test))) }
    ensures room { IfErr result (IsWantOfRoom nodes.now work.new) }
{
    match test {
        FurtherTest::Any => Ok(ALWAYS),
        FurtherTest::Established => Ok(ALWAYS),
        FurtherTest::Icmp { icmp_type, .. } => {
            exact_set(work, nodes, ICMP_TYPE_LAST, 8, u32::from(icmp_type))
        }
    }
}

/// The headers with an ICMP code, and all where there is none.
fn code_of<M: May>(work: &mut Work<M>, nodes: &Nodes<M>, code: Option<u8>) -> Result<Ref, SetError>
    requires seat { IsSeatOf nodes.now work.old }
    requires may { HasNodes nodes.now.may (parts (code_of code)) }
    ensures seat { IsSeatOf nodes.now work.new }
    ensures keeps { Keeps work.old work.new }
    ensures set { IfOk result (λ r. SeatKnows work.new r.index (tree (code_of code))) }
    ensures room { IfErr result (IsWantOfRoom nodes.now work.new) }
{
    match code {
        None => Ok(ALWAYS),
        Some(number) => exact_set(work, nodes, ICMP_CODE_LAST, 8, u32::from(number)),
    }
}

/// The headers with the ICMP code that a test asks for, and all where it asks for none.
pub(crate) fn code_set<M: May>(
    work: &mut Work<M>,
    nodes: &Nodes<M>,
    test: FurtherTest,
) -> Result<Ref, SetError>
    requires seat { IsSeatOf nodes.now work.old }
    requires may { HasNodes nodes.now.may (parts (code_set test)) }
    ensures seat { IsSeatOf nodes.now work.new }
    ensures keeps { Keeps work.old work.new }
    ensures set { IfOk result (λ r. SeatKnows work.new r.index (tree (code_set test))) }
    ensures room { IfErr result (IsWantOfRoom nodes.now work.new) }
{
    match test {
        FurtherTest::Any => Ok(ALWAYS),
        FurtherTest::Established => Ok(ALWAYS),
        FurtherTest::Icmp { code, .. } => code_of(work, nodes, code),
    }
}

/// The headers with ACK or RST.
fn established<M: May>(work: &mut Work<M>, nodes: &Nodes<M>) -> Result<Ref, SetError>
    requires seat { IsSeatOf nodes.now work.old }
    requires may { HasNodesOf nodes.now.may established }
    ensures seat { IsSeatOf nodes.now work.new }
    ensures keeps { Keeps work.old work.new }
    ensures set { IfOk result (λ r. SeatKnows work.new r.index established) }
    ensures room { IfErr result (IsWantOfRoom nodes.now work.new) }
{
    let Ok(reset) = work.branch(nodes, RST_LAST, NEVER, ALWAYS) else {
        return Err(SetError::Full);
    };
    let Ok(set) = work.branch(nodes, ACK_LAST, reset, ALWAYS) else {
        return Err(SetError::Full);
    };
    Ok(set)
}

/// The headers with ACK or RST where a test asks for one of them, and else all.
pub(crate) fn flag_set<M: May>(
    work: &mut Work<M>,
    nodes: &Nodes<M>,
    test: FurtherTest,
) -> Result<Ref, SetError>
    requires seat { IsSeatOf nodes.now work.old }
    requires may { HasNodes nodes.now.may (parts (flag_set test)) }
    ensures seat { IsSeatOf nodes.now work.new }
    ensures keeps { Keeps work.old work.new }
    ensures set { IfOk result (λ r. SeatKnows work.new r.index (tree (flag_set test))) }
    ensures room { IfErr result (IsWantOfRoom nodes.now work.new) }
{
    match test {
        FurtherTest::Any => Ok(ALWAYS),
        FurtherTest::Established => established(work, nodes),
        FurtherTest::Icmp { .. } => Ok(ALWAYS),
    }
}
