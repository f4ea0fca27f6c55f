//! The lines of an access list that never decide.
ghost use Rattle.std.specs.Prelude.{◌≡◌, [], ◌∷◌, ◌++◌, ◌<◌, IfOk, IfErr, List, OnOk};
ghost use Rattle.std.specs.Set.{distinct_count};
ghost use Rattle.rc_bdd.specs.Work.{IsCause};
ghost use Rattle.rc_bdd.specs.declared.work.SetError.TheVariants.{Full};
ghost use Rattle.rc_config.specs.declared.access_list.AccessListLine.{AccessListLine};
ghost use Rattle.rc_nodes.specs.Seats.{IsSeatOf, Keeps};
ghost use Rattle.rc_sets.specs.Deciding.{AreDecided, IsDecided};
ghost use Rattle.rc_sets.specs.IdleLines.{AreIdle, all_parts, deciders, idle_behind, idle_lines, idle_sets};
ghost use Rattle.rc_trees.specs.Trees.{HasNodes, same_tree};

use crate::deciding::{Decided, decide_all};
use crate::idle_line::{Idle, IdleLine};
use rc_base::Items;
use rc_bdd::{SetError, Work};
use rc_config::AccessList;
use rc_nodes::{May, Nodes};
use std::alloc::{AllocError, Global};

/// The numbers of the lines before a line that decide something which it matches.
fn deciders<M: May>(
    alloc: Global,
    work: &mut Work<M>,
    nodes: &Nodes<M>,
    before: &[Decided],
    line: &Decided,
) -> Result<Items<u32>, AllocError>
    requires seat { IsSeatOf nodes.now work.old }
    requires known { (lines : List AccessListLine) × (l : AccessListLine) × AreDecided work.old [] lines before.now × IsDecided work.old lines l line.now }
    ensures seat { IsSeatOf nodes.now work.new }
    ensures keeps { Keeps work.old work.new }
    ensures deciders { IfOk result (λ by. (lines : List AccessListLine) (l : AccessListLine) → AreDecided work.old [] lines before.now → IsDecided work.old lines l line.now → by ≡ deciders l [] lines) }
{
    let mut by = Items::new(alloc);
    for earlier in before {
        if earlier.decides_of(work, nodes, line) {
            by.push(earlier.sequence)?;
        }
    }
    Ok(by)
}

/// Puts a line behind the idle ones, where it is idle.
fn push_idle<M: May>(
    alloc: Global,
    work: &mut Work<M>,
    nodes: &Nodes<M>,
    before: &[Decided],
    line: &Decided,
    idle: &mut Idle,
) -> Result<(), AllocError>
    requires seat { IsSeatOf nodes.now work.old }
    requires known { (lines : List AccessListLine) × (l : AccessListLine) × AreDecided work.old [] lines before.now × IsDecided work.old lines l line.now }
    ensures seat { IsSeatOf nodes.now work.new }
    ensures keeps { Keeps work.old work.new }
    ensures pushed { OnOk result ((lines rest : List AccessListLine) (l : AccessListLine) → AreDecided work.old [] lines before.now → IsDecided work.old lines l line.now → idle.new ++ idle_behind (lines ++ l ∷ []) rest ≡ idle.old ++ idle_behind lines (l ∷ rest)) }
{
    if line.own.index != 0 {
        return Ok(());
    }
    let by = deciders(alloc, work, nodes, before, line)?;
    idle.push(IdleLine {
        sequence: line.sequence,
        by,
    })
}

/// The idle ones among lines that were looked at. It makes no node.
fn idle_among<M: May>(
    alloc: Global,
    work: &mut Work<M>,
    nodes: &Nodes<M>,
    all: &[Decided],
) -> Result<Idle, AllocError>
    requires seat { IsSeatOf nodes.now work.old }
    requires known { (lines : List AccessListLine) × AreDecided work.old [] lines all.now }
    ensures seat { IsSeatOf nodes.now work.new }
    ensures keeps { Keeps work.old work.new }
    ensures idle { IfOk result (λ idle. (lines : List AccessListLine) → AreDecided work.old [] lines all.now → idle ≡ idle_behind [] lines) }
{
    let mut idle = Items::new(alloc);
    for (index, line) in all.iter().enumerate() {
        push_idle(alloc, work, nodes, &all[..index], line, &mut idle)?;
    }
    Ok(idle)
}

/// The idle lines of an access list: those of which every header that they match is matched by an earlier line, each with the earlier lines
/// that decide some header which it matches.
///
/// It errs where memory runs out, and where the table has fewer slots than there are different trees to be made.
pub fn idle<M: May>(
    alloc: Global,
    work: &mut Work<M>,
    nodes: &Nodes<M>,
    access_list: &AccessList,
) -> Result<Idle, SetError>
    requires seat { IsSeatOf nodes.now work.old }
    requires may { HasNodes nodes.now.may (all_parts (idle_sets access_list.now.lines)) }
    ensures seat { IsSeatOf nodes.now work.new }
    ensures keeps { Keeps work.old work.new }
    ensures idle { IfOk result (λ idle. idle ≡ idle_lines access_list.now.lines) }
    ensures headers { IfOk result (AreIdle [] access_list.now.lines) }
    ensures cause { IfErr result (IsCause nodes.now work.new) }
    ensures full { IfErr result (λ e. e ≡ Full → nodes.now.capacity < distinct_count same_tree nodes.now.may) }
{
    let all = decide_all(alloc, work, nodes, &access_list.lines)?;
    match idle_among(alloc, work, nodes, all.as_slice()) {
        Ok(idle) => Ok(idle),
        Err(_) => Err(SetError::Memory),
    }
}
