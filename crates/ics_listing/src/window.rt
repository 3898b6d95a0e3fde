//! The window of a listing.
ghost use Rattle.std.specs.Prelude.{◌≡◌, ◌≤ℤ◌, ◌<ℤ◌};
ghost use Rattle.ics_listing.specs.WindowBounds.{window_first, window_last};

use crate::occurrence::Occurrence;
use ics_values::Moment;

/// The instants from `from` on and before `to`, in seconds since 1970-01-01T00:00:00 UTC.
///
/// `from` is earlier than `to`. Both are from 0000-12-31T00:00 to 9800-01-03T00:00 UTC.
#[derive(Clone, Copy)]
pub struct Window {
    pub from: Moment,
    pub to: Moment,
    /// Whether what began before `from` is left out.
    pub notstarted: bool,
    pub ghost ordered: { from <ℤ to },
    pub ghost not_early: { window_first ≤ℤ from },
    pub ghost not_late: { to ≤ℤ window_last },
}

impl Window {
    ghost use Rattle.ics_listing.specs.WindowMeeting.{is_met};
    ghost use Rattle.ics_listing.specs.Entry.{entry_of};

    /// Whether an occurrence meets the window.
    pub fn is_met(&self, occurrence: &Occurrence<'_>) -> bool
        ensures { result ≡ is_met self.now (entry_of occurrence.now) }
    {
        let begun = occurrence.start < self.to;
        let under_way = self.from < occurrence.finish;
        let at_once = occurrence.finish == occurrence.start;
        let started = self.from <= occurrence.start;
        let lasting = (under_way | (at_once & started)) & (!self.notstarted | started);
        begun & lasting
    }
}
