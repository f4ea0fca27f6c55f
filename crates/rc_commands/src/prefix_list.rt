//! What a line of a prefix list changes.
ghost use Rattle.std.specs.Prelude.{◌≡◌, IfOk};
ghost use Rattle.rc_config.specs.PrefixList.{with_line, AreLinesInOrder, IsLawfulLine, IsLawfulList};

use rc_config::{PrefixLine, PrefixList};
use std::alloc::AllocError;

/// The list with one more line, by its number.
fn placed(list: PrefixList, line: PrefixLine) -> Result<PrefixList, AllocError>
    ensures value { IfOk result (λ p. p ≡ with_line list line) }
    ensures order { IfOk result (λ p. AreLinesInOrder p.lines) }
{
    let PrefixList { mut lines } = list;
    lines.insert(line)?;
    Ok(PrefixList { lines })
}

/// The list with one more line, by its number, where it replaces the line of the same number, if there
/// is one (`has_line`). A lawful list stays lawful with a lawful line.
pub fn prefix_list_with(list: PrefixList, line: PrefixLine) -> Result<PrefixList, AllocError>
    ensures value { IfOk result (λ p. p ≡ with_line list line) }
    ensures order { IfOk result (λ p. AreLinesInOrder p.lines) }
    ensures lawful { IfOk result (λ p. IsLawfulList list → IsLawfulLine line → IsLawfulList p) }
{
    placed(list, line)
}
