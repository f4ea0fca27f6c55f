//! The rows of pairs of interfaces, one after another.
ghost use Rattle.std.specs.Prelude.{◌≡◌, ◌≤◌, ◌<◌, ◌++◌, Ok, List, IfOk, length};
ghost use Rattle.rc_config.specs.Lawful.{IsLawful};
ghost use Rattle.rc_report.specs.declared.failures.FailRow.{FailRow as Row};
ghost use Rattle.rc_shares.specs.Stretches.{IsStretch};
ghost use Rattle.rc_failures.specs.Failures.{IsFailRow};
ghost use Rattle.rc_failures.specs.Shares.{IsRowAt};

use crate::analysing::{Analysed, analysis_of};
use crate::packet::Packet;
use rc_base::Items;
use rc_config::{Network, Pair};
use rc_report::FailRow;
use std::alloc::{AllocError, Global};
use std::thread::Threads;

/// The row of a pair: the network is cut there, and analysed anew. It errs only where memory runs out.
fn row_of<R: Threads + Sync>(
    rt: &R,
    alloc: Global,
    net: &Network,
    limit: u32,
    packet: &Packet,
    pair: &Pair,
) -> Result<FailRow, AllocError>
    requires lawful { IsLawful net.now }
    requires some_rounds { 1 ≤ limit }
    requires few_rounds { limit ≤ 100000 }
    ensures { IfOk result (IsFailRow net.now limit packet.now.place packet.now.header packet.now.ends pair.now) }
{
    let cut = net.with_cut(alloc, pair.first, pair.second)?;
    let Analysed { end, arrives } = analysis_of(rt, alloc, &cut, limit, packet)?;
    Ok(FailRow {
        first: pair.first,
        second: pair.second,
        end,
        arrives,
    })
}

/// The row of the pair of a number.
#[tactic(auto, unfolding(crate::specs::Shares::IsRowAt))]
fn row_at<R: Threads + Sync>(
    rt: &R,
    alloc: Global,
    net: &Network,
    limit: u32,
    packet: &Packet,
    pairs: &[Pair],
    number: usize,
) -> Result<FailRow, AllocError>
    requires lawful { IsLawful net.now }
    requires some_rounds { 1 ≤ limit }
    requires few_rounds { limit ≤ 100000 }
    requires number { number < length pairs.now }
    ensures { IfOk result (IsRowAt net.now limit packet.now pairs.now number) }
{
    row_of(rt, alloc, net, limit, packet, &pairs[number])
}

/// The rows of the pairs from one number up to another.
pub(crate) fn rows_of<R: Threads + Sync>(
    rt: &R,
    alloc: Global,
    net: &Network,
    limit: u32,
    packet: &Packet,
    pairs: &[Pair],
    from: usize,
    to: usize,
) -> Result<Items<FailRow>, AllocError>
    requires lawful { IsLawful net.now }
    requires some_rounds { 1 ≤ limit }
    requires few_rounds { limit ≤ 100000 }
    requires order { from ≤ to }
    requires end { to ≤ length pairs.now }
    ensures { IfOk result (IsStretch (IsRowAt net.now limit packet.now pairs.now) from to) }
{
    let mut rows = Items::new(alloc);
    for number in from..to {
        let row = row_at(rt, alloc, net, limit, packet, pairs, number)?;
        rows.push(row)?;
    }
    Ok(rows)
}

/// Rows, and behind them others, or want of memory.
pub(crate) fn both(
    left: Result<Items<FailRow>, AllocError>,
    right: Result<Items<FailRow>, AllocError>,
) -> Result<Items<FailRow>, AllocError>
    ensures { IfOk result (λ all. (a : List Row) × (b : List Row) × (left ≡ Ok a) × (right ≡ Ok b) × (all ≡ a ++ b)) }
{
    let mut all = left?.into_vec();
    let mut behind = right?.into_vec();
    all.append(&mut behind)?;
    Ok(Items::from_vec(all))
}
