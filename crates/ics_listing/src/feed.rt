//! Feeds, which give occurrences one by one.
ghost use Rattle.std.specs.Prelude.{◌≡◌, ◌≤ℤ◌, List, IfOk, OnErr};
ghost use Rattle.ics_listing.specs.Entry.{Entry, entry_cmp, Gives};
ghost use Rattle.ics_listing.specs.Listing.{IsIn};
ghost use Rattle.ics_listing.specs.Rising.{Rises};

use crate::occurrence::Occurrence;
use ics_values::Moment;
use std::alloc::AllocError;

/// What is still to come of a feed. It is a trait of its own so that a type's ghost field can cite it: a
/// bound with a lifetime cannot be cited there.
pub trait Coming {
    ghost use Rattle.std.specs.Prelude.{List};
    ghost use Rattle.ics_listing.specs.Entry.{Entry};
    ghost use Rattle.ics_listing.specs.FeedSources.{Source};

    /// The list still to come.
    ghost coming: { Self → List Entry };

    /// What the occurrences belong to: events that start once, or masters that recur.
    ghost sources: { Self → List Source };

    /// This occurrence is one of its sources' and, if it is still to come, no rule has been read
    /// further than it needs.
    ghost near: { Self → Entry → Type 0 };

    /// `near` has at most one proof.
    ghost near_prop: { (feed : Self) → (o : Entry) → IsProp (Self.near feed o) };
}

/// Gives occurrences one by one, in the order of their keys: by start, then by the bytes of the UID,
/// then by recurrence.
pub trait Feed<'a>: Coming {
    /// The first of the list still to come, which is then removed; None if the list is empty.
    /// `AllocError` if an allocation fails; the list is then unchanged. The sources stay the same. No
    /// rule is read further than the first that was to come needs.
    fn next(&mut self) -> Result<Option<Occurrence<'a>>, AllocError>
        ensures ok { IfOk result (λ given. Gives (Self.coming self.old) given (Self.coming self.new)) }
        ensures err { OnErr result (Self.coming self.new ≡ Self.coming self.old) }
        ensures sources { Self.sources self.new ≡ Self.sources self.old }
        ensures near { (o : Entry) → IsIn o (Self.coming self.old) → Self.near self.new o };

    /// The keys rise strictly.
    ghost rises: { (feed : Self) → Rises entry_cmp (Self.coming feed) };
}

/// Tells from when on a feed gives anything, so that it is not read before that.
pub trait Begins: Coming {
    /// No occurrence still to come starts before this instant. No rule has been read further than any of
    /// them needs.
    fn from(&self) -> Moment
        ensures from { (o : Entry) → IsIn o (Self.coming self.now) → result ≤ℤ o.start }
        ensures near { (o : Entry) → IsIn o (Self.coming self.now) → Self.near self.now o };
}
