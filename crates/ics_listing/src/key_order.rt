//! The order of keys.
ghost use Rattle.std.specs.Prelude.{◌≡◌, IfSome};
ghost use Rattle.std.specs.Cmp.Lexicographic.{slice_cmp};
ghost use Rattle.std.specs.Ordering.{nat_cmp};
ghost use Rattle.ics_listing.specs.Entry.{rank_cmp};

use ics_values::Moment;
use std::cmp::Ordering;

/// What has a key: a start, a UID and a recurrence. They are read where they are compared.
pub trait Keyed {
    ghost use Rattle.std.specs.Prelude.{◌≡◌};
    ghost use Rattle.ics_listing.specs.Entry.{Rank};

    /// Its key.
    ghost rank: { Self → Rank };

    /// The start of its key.
    fn start(&self) -> Moment
        ensures { result ≡ (Self.rank self.now).start };

    /// The bytes of the UID of its key.
    fn uid(&self) -> &[u8]
        ensures { result.now ≡ (Self.rank self.now).uid };

    /// The recurrence of its key.
    fn recurrence(&self) -> Moment
        ensures { result ≡ (Self.rank self.now).recurrence };
}

/// The order of two keys: by start, then by the bytes of the UID, then by recurrence. The order of the UIDs may be known.
#[inline(always)]
pub fn order_of_keys<A: Keyed, B: Keyed>(one: &A, other: &B, known: Option<Ordering>) -> Ordering
    requires { IfSome known (λ order. order ≡ slice_cmp nat_cmp (A.rank one.now).uid (B.rank other.now).uid) }
    ensures { result ≡ rank_cmp (A.rank one.now) (B.rank other.now) }
{
    match (one.start().cmp(&other.start()), known) {
        (Ordering::Equal, Some(order)) => order.then(one.recurrence().cmp(&other.recurrence())),
        (Ordering::Equal, None) => one
            .uid()
            .cmp(other.uid())
            .then(one.recurrence().cmp(&other.recurrence())),
        (order, _) => order,
    }
}
