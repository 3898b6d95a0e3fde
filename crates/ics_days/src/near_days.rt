//! The days near which a window's occurrences are shown.
ghost use Rattle.std.specs.Prelude.{◌≡◌, ◌≤ℤ◌, ◌<ℤ◌, ◌-ℤ◌, ℤ};
ghost use Rattle.std.specs.Int.{int_min};
ghost use Rattle.ics_listing.specs.FileClocks.{Clock};
ghost use Rattle.ics_listing.specs.WindowBounds.{occurrence_first, window_last};
ghost use Rattle.ics_starts.specs.Clocks.{display_clock, local_at, IsStretched};
ghost use Rattle.ics_zone.specs.Seconds.{IsDay, IsMoment, IsNear};
ghost use Rattle.ics_days.specs.Offsets.{AreOffsets};
ghost use Rattle.ics_days.specs.NearDays.{first_near, last_near, HasOffsets, IsNearDay};
ghost use Rattle.ics_days.specs.ShownDays.{date_at};

use ics_listing::Window;
use ics_values::{Local, Moment};
use ics_zone::{Bounds, Display, Place, Stretch};

/// A day, in seconds.
pub(crate) const DAY: i64 = 86_400;

/// Six hours, in seconds: where offsets differ by no more, no more than that is searched beyond a day's end.
const APART: i64 = 21_600;

/// The day that the greater of two offsets shows at the window's last instant. A clock between them shows no later one in the window.
pub fn last_near(window: &Window, bounds: Bounds) -> i32
    requires { AreOffsets bounds }
    ensures { result ≡ last_near window.now bounds }
{
    Local::of_seconds(window.to - 1 + bounds.most).day
}

/// What a window holds of the instants at which an offset between two shows a day, whether or not it leaves out what began before. It ends where the
/// display zone is known to show later days from then on. `closely` says whether the zone is asked for that also where the two offsets differ little.
pub fn near_day(
    display: &Display,
    window: &Window,
    bounds: Bounds,
    day: i32,
    closely: bool,
) -> Window
    requires bounded { HasOffsets (display_clock display.now) window.now bounds }
    requires first { first_near window.now bounds ≤ℤ day }
    requires last { day ≤ℤ last_near window.now bounds }
    ensures { IsNearDay (display_clock display.now) window.now bounds day result }
{
    let midnight = i64::from(day) * DAY;
    let from = window.from.max(midnight - bounds.most);
    let to = window.to.min(midnight + DAY - bounds.least);
    let end = later_from(display, bounds, day, to, closely);
    Window {
        from,
        to: end.max(from + 1),
        notstarted: false,
    }
}

/// An instant from which on, and before another, the display zone shows later days than one: by a stretch of its clock about the midnight that ends
/// the day and, if that does not reach the other instant, by the stretch about the local where it ends. Between two offsets that are the same, or differ
/// little and are not looked at closely, it is the other instant itself, and no stretch is asked for.
fn later_from(display: &Display, bounds: Bounds, day: i32, to: Moment, closely: bool) -> Moment
    requires offsets { AreOffsets bounds }
    requires day { IsDay day }
    requires early { occurrence_first ≤ℤ to }
    requires late { to ≤ℤ window_last }
    ensures to { result ≤ℤ to }
    ensures later { (t : ℤ) → result ≤ℤ t → t <ℤ to → day <ℤ date_at (display_clock display.now) t }
{
    let little = if closely { 0 } else { APART };
    if bounds.most - bounds.least <= little {
        return to;
    }
    let local = (i64::from(day) + 1) * DAY;
    let stretch = display.stretch(local);
    let end = to + stretch.offset;
    if (local < stretch.to) & (stretch.to < end) {
        let behind = shown_from(display.stretch(stretch.to), local, to);
        return shown_from(stretch, local, behind);
    }
    shown_from(stretch, local, to)
}

/// An instant from which on, and before another, a clock shows no local before one, by a stretch that holds the instants before the other: the first
/// that is known. It is the other one if the stretch does not hold them.
fn shown_from(stretch: Stretch, local: Moment, to: Moment) -> Moment
    requires offset { IsNear stretch.offset }
    requires shown { IsNear stretch.shown }
    requires local { IsMoment local }
    requires to { IsMoment to }
    ensures to { result ≤ℤ to }
    ensures low { int_min to (local -ℤ stretch.shown) ≤ℤ result }
    ensures later { (clock : Clock) → IsStretched clock stretch → (t : ℤ) → result ≤ℤ t → t <ℤ to → local ≤ℤ local_at clock t }
{
    let end = to + stretch.offset;
    if (stretch.from <= end) & (end <= stretch.to) {
        let first = stretch.from.max(local + stretch.offset - stretch.shown);
        return to.min(first - stretch.offset);
    }
    to
}
