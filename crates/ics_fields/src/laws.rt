//! Laws of locals. Each is the contract of a function that has no other purpose.
ghost use Rattle.std.specs.Prelude.{◌≡◌};
ghost use Rattle.std.specs.Ordering.{int_cmp, nat_cmp, ordering_then};
ghost use Rattle.ics_fields.specs.Locals.{local_seconds};

use crate::local::Local;
use std::cmp::Ordering;

/// Locals are ordered by day, then by second, and this is their order in time.
pub fn order_of_locals(a: Local, b: Local) -> Ordering
    ensures parts { result ≡ ordering_then (int_cmp a.day b.day) (nat_cmp a.second b.second) }
    ensures time { result ≡ int_cmp (local_seconds a) (local_seconds b) }
{
    a.cmp(&b)
}
