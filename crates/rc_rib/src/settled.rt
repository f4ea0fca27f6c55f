//! Whether a round changes anything, as can be told without making it.
ghost use Rattle.std.specs.Prelude.{◌≡◌, IfOk, true};
ghost use Rattle.rc_rib.specs.Again.{AreUnchanged};
ghost use Rattle.rc_rib.specs.Inputs.{AreInputs, IsEarlier};
ghost use Rattle.rc_rib.specs.Next.{next_state};

use crate::next::is_unchanged;
use crate::{Earlier, Inputs};
use rc_base::RouterId;
use std::alloc::{AllocError, Global};

/// Whether each router reads what it read a round earlier, but for what changes nothing for it.
fn are_unchanged(
    alloc: Global,
    inputs: &Inputs<'_>,
    earlier: &Earlier<'_>,
) -> Result<bool, AllocError>
    requires inputs { AreInputs inputs.now }
    requires earlier { IsEarlier inputs.now.network.now inputs.now.internal.now inputs.now.previous.now earlier.now.state.now earlier.now.changes.now earlier.now.inside.now }
    ensures { IfOk result (λ are. are ≡ true → AreUnchanged inputs.now.network.now inputs.now.internal.now inputs.now.sessions.now inputs.now.previous.now earlier.now.state.now) }
{
    for index in 0..inputs.network.routers.len() {
        if !is_unchanged(alloc, inputs, earlier, RouterId::at(index))? {
            return Ok(false);
        }
    }
    Ok(true)
}

/// Whether a round in which all routers read these inputs changes nothing, where that can be told without making it: for no router anything
/// changed that it reads. Where it isn't told, the round may change nothing all the same. It errs only where memory runs out.
pub fn is_settled(alloc: Global, inputs: &Inputs<'_>) -> Result<bool, AllocError>
    requires { AreInputs inputs.now }
    ensures { IfOk result (λ is. is ≡ true → next_state inputs.now.network.now inputs.now.internal.now inputs.now.previous.now ≡ inputs.now.previous.now) }
{
    match &inputs.earlier {
        None => Ok(false),
        Some(earlier) => are_unchanged(alloc, inputs, earlier),
    }
}
