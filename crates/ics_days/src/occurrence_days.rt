//! The days of an occurrence in a window.
ghost use Rattle.std.specs.Prelude.{◌≡◌, IsTrue, true};
ghost use Rattle.ics_fields.specs.Days.{IsDayNumber};
ghost use Rattle.ics_starts.specs.Clocks.{display_clock};
ghost use Rattle.ics_days.specs.ShownDays.{is_on};
ghost use Rattle.ics_days.specs.Today.{is_today};
ghost use Rattle.ics_days.specs.Offsets.{AreOffsets};
ghost use Rattle.ics_days.specs.NearDays.{HasOffsets};
ghost use Rattle.ics_starts.specs.MeetsWindow.{Meets};
ghost use Rattle.ics_listing.specs.Entry.{entry_of};
ghost use Rattle.ics_listing.specs.FileClocks.{Clock};

use crate::date::date_at;
use crate::near_days::DAY;
use ics_listing::{Occurrence, Window};
use ics_zone::{Bounds, Display};

/// Whether an occurrence meets a window and has a day there. The clock is not asked where two offsets, between which it stays in the
/// window, tell that it has.
pub fn is_today(
    display: &Display,
    window: &Window,
    bounds: Bounds,
    occurrence: &Occurrence<'_>,
    day: i32,
) -> bool
    requires { HasOffsets (display_clock display.now) window.now bounds }
    ensures today { result ≡ is_today (display_clock display.now) window.now day (entry_of occurrence.now) }
    ensures within { IsTrue result → IsDayNumber day }
{
    if !window.is_met(occurrence) {
        return false;
    }
    if is_known_on(window, bounds, occurrence, day) {
        return true;
    }
    is_on(display, window, occurrence, day)
}

/// Whether two offsets tell that a day is one of those of an occurrence that meets a window in which a clock stays between them: by the
/// greater it has begun before the day ends, and by the lesser it has not ended before the day begins.
fn is_known_on(window: &Window, bounds: Bounds, occurrence: &Occurrence<'_>, day: i32) -> bool
    requires { AreOffsets bounds }
    ensures on { (clock : Clock) → HasOffsets clock window.now bounds → Meets window.now (entry_of occurrence.now) → result ≡ true
        → is_on clock window.now (entry_of occurrence.now) day ≡ true }
    ensures within { result ≡ true → IsDayNumber day }
{
    let midnight = i64::from(day) * DAY;
    let begun = occurrence.start.max(window.from) + bounds.most;
    if midnight + DAY <= begun {
        return false;
    }
    let end = occurrence.finish.min(window.to) - 1 + bounds.least;
    if end < midnight {
        return false;
    }
    true
}

/// Whether a day is one of those of an occurrence in a window. They begin with that of the later of its
/// start and the window's, and end with that of its last second before both its finish and the window's
/// end, unless that is earlier. One of no length has the first alone.
fn is_on(display: &Display, window: &Window, occurrence: &Occurrence<'_>, day: i32) -> bool
    ensures on { result ≡ is_on (display_clock display.now) window.now (entry_of occurrence.now) day }
    ensures within { IsTrue result → IsDayNumber day }
{
    let first = date_at(display, occurrence.start.max(window.from));
    if occurrence.finish == occurrence.start {
        return day == first;
    }
    let end = occurrence.finish.min(window.to) - 1;
    let last = first.max(date_at(display, end));
    (first <= day) & (day <= last)
}
