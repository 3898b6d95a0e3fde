//! The days under which a window's occurrences are shown.
ghost use Rattle.std.specs.Ordering.{int_eq};
ghost use Rattle.std.specs.Prelude.{◌&&◌, ◌≡◌, ◌≤ℤ◌, ◌<ℤ◌, ◌+ℤ◌, ◌-ℤ◌, ℤ, pos};
ghost use Rattle.ics_fields.specs.Days.{IsDayNumber};
ghost use Rattle.ics_starts.specs.Clocks.{display_clock, is_in, local_at};
ghost use Rattle.ics_zone.specs.Seconds.{IsMoment, IsNear};
ghost use Rattle.ics_days.specs.ShownDays.{date_at};
ghost use Rattle.ics_days.specs.NearDays.{first_near, last_near, HasOffsets};
ghost use Rattle.ics_listing.specs.WindowBounds.{occurrence_first, occurrence_end};

use ics_listing::Window;
use ics_values::{Local, Moment};
use ics_zone::{Bounds, Display, Place, Stretch};

/// Three days, in seconds: more than two offsets of a clock differ.
const APART: i64 = 259_200;

/// The day that a display zone shows at an instant, counted from 1970-01-01.
///
/// The instant is from 0000-12-30T00:00 on and before 9950-01-01T00:00 UTC.
pub fn date_at(display: &Display, moment: Moment) -> i32
    requires early { occurrence_first ≤ℤ moment }
    requires late { moment <ℤ occurrence_end }
    ensures day { result ≡ date_at (display_clock display.now) moment }
    ensures within { IsDayNumber result }
    ensures before { IsDayNumber (result -ℤ pos 1) }
{
    display.local(moment).day
}

/// Two offsets between which the display zone stays in a window: the one of a stretch that holds the window, or else the bounds of all its offsets.
pub fn bounds_in(display: &Display, window: &Window) -> Bounds
    ensures { HasOffsets (display_clock display.now) window.now result }
{
    let local = display.local(window.from).seconds();
    let stretch = display.stretch(local);
    let meant = is_meant(stretch, local, window.from);
    let held = window.to + stretch.offset <= stretch.to;
    if meant & held {
        return Bounds {
            least: stretch.offset,
            most: stretch.offset,
        };
    }
    display.bounds()
}

/// The first day that the display zone can show in a window, in which it stays between two offsets.
pub fn first_shown(display: &Display, bounds: Bounds, window: &Window) -> i32
    requires { HasOffsets (display_clock display.now) window.now bounds }
    ensures shown { (t : ℤ) → window.now.from ≤ℤ t → t <ℤ window.now.to → result ≤ℤ date_at (display_clock display.now) t }
    ensures near { first_near window.now bounds ≤ℤ result }
{
    Local::of_seconds(earliest_local(display, bounds, window)).day
}

/// The last day that it can show there.
pub fn last_shown(display: &Display, bounds: Bounds, window: &Window) -> i32
    requires { HasOffsets (display_clock display.now) window.now bounds }
    ensures shown { (t : ℤ) → window.now.from ≤ℤ t → t <ℤ window.now.to → date_at (display_clock display.now) t ≤ℤ result }
    ensures near { result ≤ℤ last_near window.now bounds }
{
    Local::of_seconds(latest_local(display, bounds, window)).day
}

/// The seconds of a local before which the display zone shows none in a window: the one shown at its first instant, or what the lesser of the bounds
/// shows where a stretch about it ends, if that is earlier.
fn earliest_local(display: &Display, bounds: Bounds, window: &Window) -> i64
    requires { HasOffsets (display_clock display.now) window.now bounds }
    ensures shown { (t : ℤ) → window.now.from ≤ℤ t → t <ℤ window.now.to → result ≤ℤ local_at (display_clock display.now) t }
    ensures near { IsNear (result -ℤ window.now.from) }
    ensures low { (window.now.from +ℤ bounds.least) ≤ℤ result }
{
    let from = window.from;
    let least = bounds.least;
    let local = display.local(from).seconds();
    let stretch = display.stretch(local);
    if is_meant(stretch, local, from) {
        let end = stretch.to.min(local + APART);
        return local.min(end - stretch.offset + least);
    }
    from + least
}

/// The seconds of a local after which the display zone shows none in a window: the one shown at its last instant, or what the greater of the bounds
/// shows just before a stretch about it, if that is later.
fn latest_local(display: &Display, bounds: Bounds, window: &Window) -> i64
    requires { HasOffsets (display_clock display.now) window.now bounds }
    ensures shown { (t : ℤ) → window.now.from ≤ℤ t → t <ℤ window.now.to → local_at (display_clock display.now) t ≤ℤ result }
    ensures near { IsNear (result -ℤ (window.now.to -ℤ pos 1)) }
    ensures high { result ≤ℤ ((window.now.to -ℤ pos 1) +ℤ bounds.most) }
{
    let last = window.to - 1;
    let most = bounds.most;
    let local = display.local(last).seconds();
    let stretch = display.stretch(local);
    if is_meant(stretch, local, last) {
        let begin = stretch.from.max(local - APART);
        return local.max(begin - 1 - stretch.offset + most);
    }
    last + most
}

/// Whether a stretch has a local, given by its seconds, which means an instant by it.
fn is_meant(stretch: Stretch, local: Moment, moment: Moment) -> bool
    requires local { IsMoment local }
    requires short { IsNear stretch.offset }
    ensures { result ≡ is_in stretch local && int_eq (local -ℤ stretch.offset) moment }
{
    (stretch.from <= local) & (local < stretch.to) & (local - stretch.offset == moment)
}
