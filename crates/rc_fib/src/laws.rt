//! What holds of every prepared table.
ghost use Rattle.std.specs.Prelude.{◌≡◌, ℕ, true, List, All};
ghost use Rattle.rc_fib.specs.Forwarding.{hops_of, is_resolved, resolved, resolved_hops};
ghost use Rattle.rc_route.specs.declared.route.Hop.{Hop};
ghost use Rattle.rc_route.specs.declared.route.Route.{Route};

/// A prepared table gives an address the hops that the table gives it, where at most 16 look-ups follow one another.
pub fn hops_by_depth()
    ensures { (table : List Route) (a : ℕ) → resolved_hops (resolved table) a ≡ hops_of table a }
{}

/// Each hop that a table gives an address says where a packet goes: nowhere, or over an interface.
pub fn prepared_hops_are_resolved()
    ensures { (table : List Route) (a : ℕ) → All (λ (hop : Hop). is_resolved hop ≡ true) (hops_of table a) }
{}
