//! The flows out of positions.
ghost use Rattle.std.specs.Prelude.{◌≡◌, ◌∷◌, ◌++◌, ◌<◌, All, [], IfOk, OnOk, length, replicate, slice_index_or, slice_set};
ghost use Rattle.rc_jobs.specs.declared.flow.Flow.{Flow as FlowOf};
ghost use Rattle.rc_spread.specs.Turned.{AreOut, AreTurned, AreWithin};

use rc_base::Items;
use rc_jobs::Flow;
use std::alloc::{AllocError, Global};

/// So many lists without a flow.
fn no_flows(alloc: Global, count: usize) -> Result<Vec<Items<Flow>>, AllocError>
    ensures { IfOk result (λ rows. rows.items ≡ replicate count []) }
{
    let mut rows = Vec::with_capacity(alloc, count)?;
    for _row in 0..count {
        rows.push(Items::new(alloc))?;
    }
    Ok(rows)
}

/// Puts a flow into a position behind those out of where it comes from.
fn put_turned(out: &mut Vec<Items<Flow>>, flow: Flow, onto: usize) -> Result<(), AllocError>
    requires { flow.from < length out.old.items }
    ensures { OnOk result (out.new.items ≡ slice_set out.old.items flow.from (slice_index_or out.old.items flow.from [] ++ record { from = onto; set = flow.set } ∷ [])) }
{
    let Flow { from, set } = flow;
    out[from].push(Flow { from: onto, set })
}

/// Puts each flow into a position behind those out of where it comes from.
fn turn_row(out: &mut Vec<Items<Flow>>, flows: &[Flow], onto: usize) -> Result<(), AllocError>
    requires { All (λ (f : FlowOf). f.from < length out.old.items) flows.now }
    ensures { OnOk result (AreTurned out.old.items flows.now onto out.new.items) }
{
    for flow in flows {
        put_turned(out, *flow, onto)?;
    }
    Ok(())
}

/// The flows out of each position, in the order of the positions that they lead to.
pub fn flows_out(alloc: Global, into: &[Items<Flow>]) -> Result<Vec<Items<Flow>>, AllocError>
    requires { AreWithin into.now }
    ensures { IfOk result (λ out. AreOut into.now (length into.now) out.items) }
{
    let mut out = no_flows(alloc, into.len())?;
    for onto in 0..into.len() {
        turn_row(&mut out, into[onto].as_slice(), onto)?;
    }
    Ok(out)
}
