//! Which access lists have numbers.
ghost use Rattle.std.specs.Prelude.{◌≡◌};
ghost use Rattle.rc_gram_acl.specs.ListNumber as numbers;

use rc_config::AccessListKind;

/// The kind of the list of this number: 1 to 99 and 1300 to 1999 are standard, 100 to 199 and 2000 to 2699 extended.
/// `None` exactly where the number is none of these.
pub(crate) fn kind_of_number(number: u32) -> Option<AccessListKind>
    ensures { result ≡ numbers.kind_of_number number }
{
    match number {
        1..=99 | 1300..=1999 => Some(AccessListKind::Standard),
        100..=199 | 2000..=2699 => Some(AccessListKind::Extended),
        _ => None,
    }
}
