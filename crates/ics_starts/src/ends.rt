//! What has ended before a window, of starts that follow each other closely.
ghost use Rattle.std.specs.Prelude.{◌≡◌, ◌<ℤ◌, ◌≤ℤ◌, ◌≤◌, ◌+ℤ◌, ◌-ℤ◌, pos};
ghost use Rattle.std.specs.Int.{int_min};
ghost use Rattle.jiff_core.specs.Calendar.{IsBetween, IsWithin};
ghost use Rattle.ics_event.specs.Event.{longest, IsLasting};
ghost use Rattle.ics_fields.specs.Locals.{whole_days, year_seconds};
ghost use Rattle.ics_listing.specs.FileClocks.{Clock};
ghost use Rattle.ics_listing.specs.WindowBounds.{window_last};
ghost use Rattle.ics_starts.specs.Clocks.{clock_of, AreSpansOf, IsStretched};
ghost use Rattle.ics_starts.specs.FileZones.{clocks_in, IsTimeOf};
ghost use Rattle.ics_starts.specs.Finish.{AreOver};

use crate::instants::{is_in, no_stretch, stretch_by};
use crate::zones::FileZones;
use ics_event::Time;
use ics_values::{Duration, Moment};
use ics_zone::{Spans, Stretch};

const DAY: i64 = 86_400;

/// How many seconds pass before the clock is asked anew, where it tells no stretch.
const MINUTE: i64 = 60;

/// How many seconds pass before it is asked anew, where nothing has ended.
const HOUR: i64 = 3_600;

/// 0000-01-01T00:00:00.
const FIRST: Moment = -62_167_219_200;

/// What is known of the locals that the clock of DTSTART shows when occurrences end.
#[derive(Drop)]
pub(crate) struct Ends {
    /// Spans of that clock near them.
    pub spans: Option<Spans>,
    /// The clock is not asked for a local before this one: shortly before it told no stretch, or nothing had ended.
    asks: Moment,
    ghost late: { year_seconds 0 ≤ℤ asks },
}

/// The seconds from an instant to the local that a clock shows some days later, if it has an offset at the instant.
pub(crate) fn seconds_on(offset: i64, days: u64) -> i64
    requires offset { IsWithin 93_599 offset }
    requires days { whole_days days ≤ℤ pos longest }
    ensures { result ≡ offset +ℤ whole_days days }
{
    offset + days as i64 * DAY
}

/// The end of the instants before one that are so many seconds before locals before another.
fn told_to(to: Moment, on: i64, by: Moment) -> Moment
    requires on { IsWithin 10_000_000_000 on }
    requires late { (year_seconds 0 -ℤ pos 93_599) ≤ℤ (to -ℤ on) }
    requires by { IsBetween (year_seconds 0 -ℤ pos 93_599) (window_last +ℤ pos 1) by }
    ensures { result ≡ int_min (to -ℤ on) by }
{
    to.min(by + on) - on
}

/// The end of the instants that are not after one, once so many seconds and others are added and an offset is taken off.
fn ended_to(on: i64, offset: i64, seconds: u64, by: Moment) -> Moment
    requires on { IsWithin 10_000_000_000 on }
    requires offset { IsWithin 93_599 offset }
    requires seconds { seconds ≤ longest }
    requires by { IsBetween (year_seconds 0 -ℤ pos 93_599) (window_last +ℤ pos 1) by }
    ensures { result ≡ (((by -ℤ on) +ℤ offset) -ℤ pos seconds) +ℤ pos 1 }
{
    by - on + offset - seconds as i64 + 1
}

/// The end of the instants from one on at which begins what has ended a duration later by another instant. A stretch tells of the first, and another of
/// the local at which the days of the duration have passed then.
fn over_in(shown: Stretch, ends: Stretch, duration: Duration, by: Moment, from: Moment) -> Moment
    requires offset { IsWithin 93_599 shown.offset }
    requires shown_short { IsWithin 93_599 shown.shown }
    requires ends_short { IsWithin 93_599 ends.offset }
    requires short { IsLasting duration }
    requires late { (year_seconds 0 -ℤ pos 93_599) ≤ℤ from }
    requires begun { from <ℤ by }
    requires early { by ≤ℤ window_last }
    requires begins { shown.from ≤ℤ (from +ℤ shown.offset) }
    requires begins_in { (from +ℤ shown.offset) <ℤ shown.to }
    requires passes { ends.from ≤ℤ (from +ℤ (shown.shown +ℤ whole_days duration.days)) }
    requires passes_in { (from +ℤ (shown.shown +ℤ whole_days duration.days)) <ℤ ends.to }
    ensures { (clock : Clock) → IsStretched clock shown → IsStretched clock ends → AreOver clock duration by from result }
{
    let on = seconds_on(shown.shown, duration.days);
    let begins = told_to(shown.to, shown.offset, by);
    let passes = told_to(ends.to, on, by);
    let ended = ended_to(on, ends.offset, duration.seconds, by);
    begins.min(passes).min(ended)
}

impl Ends {
    /// Nothing is known.
    pub(crate) fn new() -> Ends
        ensures { (clock : Clock) → AreSpansOf clock result.spans }
    {
        Ends {
            spans: None,
            asks: FIRST,
        }
    }

    /// A stretch about a local, given by its seconds, that the clock of a time shows by one offset. It may be empty.
    fn stretch(&mut self, zones: FileZones<'_>, time: Time, local: Moment) -> Stretch
        requires time { IsTimeOf zones.zones.now time }
        requires early { local <ℤ year_seconds 9_951 }
        requires spans { AreSpansOf (clock_of (clocks_in zones) time) self.old.spans }
        ensures spans { AreSpansOf (clock_of (clocks_in zones.entry) time) self.new.spans }
        ensures stretch { IsStretched (clock_of (clocks_in zones.entry) time) result }
    {
        if local < self.asks {
            return no_stretch(local);
        }
        let stretch = stretch_by(zones, time, &mut self.spans, local);
        if !is_in(stretch, local) {
            self.asks = local + MINUTE;
        }
        stretch
    }

    /// The end of the instants from one on, which a stretch tells, at which begins what has ended a duration later by another instant, by the clock of a
    /// time.
    pub(crate) fn over_to(
        &mut self,
        zones: FileZones<'_>,
        time: Time,
        shown: Stretch,
        duration: Duration,
        by: Moment,
        from: Moment,
    ) -> Moment
        requires time { IsTimeOf zones.zones.now time }
        requires shown { IsStretched (clock_of (clocks_in zones) time) shown }
        requires short { IsLasting duration }
        requires late { (year_seconds 0 -ℤ pos 93_599) ≤ℤ from }
        requires begun { from <ℤ by }
        requires early { by ≤ℤ window_last }
        requires spans { AreSpansOf (clock_of (clocks_in zones) time) self.old.spans }
        ensures spans { AreSpansOf (clock_of (clocks_in zones.entry) time) self.new.spans }
        ensures over { AreOver (clock_of (clocks_in zones.entry) time) duration by from result }
    {
        if is_in(shown, from + shown.offset) {
            let local = from + seconds_on(shown.shown, duration.days);
            let ends = self.stretch(zones, time, local);
            if is_in(ends, local) {
                let over = over_in(shown, ends, duration, by, from);
                if over <= from {
                    // Nor have later ones ended, as a rule.
                    self.asks = self.asks.max(local + HOUR);
                }
                return over;
            }
        }
        from
    }
}
