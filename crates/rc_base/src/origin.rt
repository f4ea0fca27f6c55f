//! Where a BGP route began.
ghost use Rattle.std.specs.Prelude.{◌≡◌};
ghost use Rattle.std.specs.Ordering.{nat_cmp};
ghost use Rattle.rc_base.specs.Orders.{origin_number};

use std::cmp::Ordering;

/// The origin of a BGP route (RFC 4271 s.4.3 and s.5.1.1), the preferred one first.
#[derive(Clone, Copy, PartialEq, Eq, PartialOrd, Ord)]
pub enum Origin {
    /// Interior to the AS that it began in.
    Igp,
    /// Learned by EGP.
    Egp,
    /// Learned by other means, as by redistribution.
    Incomplete,
}

/// Origins by the number of RFC 4271 s.4.3, which is the derived order too.
pub fn compare_origins(a: Origin, b: Origin) -> Ordering
    ensures { result ≡ nat_cmp (origin_number a) (origin_number b) }
{
    a.cmp(&b)
}
