//! What a line of an access list changes.
ghost use Rattle.std.specs.Prelude.{◌≡◌, IfOk};
ghost use Rattle.rc_config.specs.AccessList.{with_line, AreLinesInOrder, IsLawfulAccessList, IsLawfulLine};

use rc_config::{AccessList, AccessListLine, PortTest};
use std::alloc::AllocError;

/// The list with one more line, by its number, where it replaces the line of the same number, if there
/// is one (`has_line`). A lawful list stays lawful with a lawful line.
#[tactic(auto, using(crate::proofs::AccessListLaws::placed_lawful))]
pub fn access_list_with(list: AccessList, line: AccessListLine) -> Result<AccessList, AllocError>
    ensures value { IfOk result (λ f. f ≡ with_line list line) }
    ensures order { IfOk result (λ f. AreLinesInOrder f.lines) }
    ensures lawful { IfOk result (λ f. IsLawfulAccessList list → IsLawfulLine list.kind line → IsLawfulAccessList f) }
{
    // The generated proof of a generic call wants each enum within its type named in the function.
    let _test: PortTest = PortTest::Any;
    let AccessList { kind, mut lines } = list;
    lines.insert(line)?;
    Ok(AccessList { kind, lines })
}
