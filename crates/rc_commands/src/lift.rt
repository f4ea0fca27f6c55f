//! A value that is taken out of its place, to be changed and put back.
ghost use Rattle.std.specs.Prelude.{◌≡◌, IfOk, OnOk};
ghost use Rattle.std.specs.Option.{unwrap_or};
ghost use Rattle.rc_config.specs.Named.{named, with_value};

use rc_base::Name;
use rc_config::Named;
use std::alloc::AllocError;

/// Takes out the value under a name, and gives a fresh one where there is none. Until it is put back another one, which
/// is given for that, stands there.
pub(crate) fn lift<V: Drop>(
    entries: &mut Named<V>,
    name: Name,
    holder: V,
    fresh: V,
) -> Result<V, AllocError>
    ensures holder { OnOk result (entries.new ≡ with_value entries.old name holder) }
    ensures value { IfOk result (λ v. v ≡ unwrap_or (named entries.old name) fresh) }
{
    match entries.insert(name, holder)? {
        Some(value) => Ok(value),
        None => Ok(fresh),
    }
}
