//! One occurrence of an event.
ghost use Rattle.std.specs.Prelude.{◌≡◌, ◌<ℤ◌, ◌≤ℤ◌};
ghost use Rattle.ics_listing.specs.WindowBounds.{occurrence_first, occurrence_end};

use crate::key_order::{Keyed, order_of_keys};
use ics_event::Event;
use ics_values::Moment;
use std::cmp::Ordering;

/// One occurrence of an event (RFC 5545, section 3.8.4.4).
///
/// It begins on or after 0000-12-30 and ends before the year 9950, in UTC.
#[derive(Clone, Copy)]
pub struct Occurrence<'a> {
    pub start: Moment,
    pub finish: Moment,
    /// The instant that identifies it among the occurrences of its UID.
    pub recurrence: Moment,
    pub event: &'a Event,
    pub ghost not_early: { occurrence_first ≤ℤ start },
    pub ghost forward: { start ≤ℤ finish },
    pub ghost not_late: { finish <ℤ occurrence_end },
}

impl<'a> Occurrence<'a> {
    ghost use Rattle.ics_listing.specs.Entry.{entry_cmp, entry_of};
    ghost use Rattle.ics_listing.specs.Uids.{IsUidOrder};

    /// By start, then by the bytes of the UID, then by recurrence. The order of the UIDs may be known.
    pub(crate) fn compare(
        a: &Occurrence<'_>,
        b: &Occurrence<'_>,
        uids: Option<Ordering>,
    ) -> Ordering
        requires { IsUidOrder uids (entry_of a.now) (entry_of b.now) }
        ensures { result ≡ entry_cmp (entry_of a.now) (entry_of b.now) }
    {
        order_of_keys(a, b, uids)
    }
}

impl<'a> Keyed for Occurrence<'a> {
    ghost use Rattle.ics_listing.specs.Entry.{entry_of, rank_of};

    ghost rank = { λ a. rank_of (entry_of a) };

    fn start(&self) -> Moment {
        self.start
    }

    fn uid(&self) -> &[u8] {
        let event = self.event;
        event.uid.as_slice()
    }

    fn recurrence(&self) -> Moment {
        self.recurrence
    }
}
