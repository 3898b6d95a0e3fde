//! The end of an occurrence.
ghost use Rattle.std.specs.Prelude.{◌≡◌, ◌<ℤ◌, ◌≤ℤ◌, ◌+ℤ◌, ◌-ℤ◌, pos};
ghost use Rattle.ics_event.specs.Event.{longest, IsLasting, IsLength, IsSpan};
ghost use Rattle.ics_starts.specs.Clocks.{clock_of, display_clock, instant, local_at};
ghost use Rattle.ics_fields.specs.Locals.{midnight, whole_days, year_seconds};
ghost use Rattle.ics_starts.specs.Finish.{end_by, finish, later_by, span_end};
ghost use Rattle.ics_starts.specs.Found.{IsStartIn};
ghost use Rattle.ics_starts.specs.FileZones.{clocks_in, EndsNear, HasEndIn, IsEndOf, IsOwnEvent, IsTimeOf};
ghost use Rattle.ics_listing.specs.WindowBounds.{lasts_most, window_last, occurrence_first};

use crate::instants::instant;
use crate::lasting::{day_of, days_lasting};
use crate::zones::FileZones;
use ics_event::{Event, Length, Rdate, Time};
use ics_listing::Start;
use ics_values::{Duration, Local, Moment, Stamp};
use ics_zone::{Display, Place};

const DAY: i64 = 86_400;

/// The end of the occurrence with a start, which is before the latest end of a window (RFC 5545,
/// section 3.6.1).
pub(crate) fn finish(zones: FileZones<'_>, event: &Event, start: Start) -> Moment
    requires event { IsOwnEvent zones event.now }
    requires start { IsStartIn zones start }
    requires early { start.moment <ℤ window_last }
    ensures value { result ≡ finish (clocks_in zones.entry) event.now start.given }
    ensures forward { start.moment ≤ℤ result }
    ensures early { result <ℤ (window_last +ℤ lasts_most) }
{
    let end = match start.given {
        Rdate::At(given) => end_by(zones, event.start, event.length, given, start.moment),
        Rdate::Span(given, length) => span_end(zones, given, length, start.moment),
    };
    start.moment.max(end)
}

/// The end by a length from a start of an event with this DTSTART.
fn end_by(zones: FileZones<'_>, first: Time, length: Length, given: Time, start: Moment) -> Moment
    requires first { IsTimeOf zones.zones.now first }
    requires length { IsLength first.stamp length }
    requires end { IsEndOf zones.zones.now length }
    requires near { EndsNear (clocks_in zones) first length }
    requires given { IsTimeOf zones.zones.now given }
    requires start { start ≡ instant (clocks_in zones) given }
    requires early { start <ℤ window_last }
    ensures value { result ≡ end_by (clocks_in zones.entry) first given first.stamp length }
    ensures early { result <ℤ (window_last +ℤ lasts_most) }
{
    match (first.stamp, length) {
        (Stamp::Date(day), length) => {
            let days = days_lasting(day, length);
            midnight_after(zones.display, day_of(given.stamp), days)
        }
        (_, Length::Open) => start,
        (_, Length::Until(end)) => start + (instant(zones, end) - instant(zones, first)),
        (_, Length::Lasting(duration)) => later_by(zones, given, duration, start),
    }
}

/// The end of a PERIOD that begins at a time.
fn span_end(zones: FileZones<'_>, given: Time, length: Length, start: Moment) -> Moment
    requires given { IsTimeOf zones.zones.now given }
    requires span { IsSpan length }
    requires end { HasEndIn zones.zones.now length }
    requires start { start ≡ instant (clocks_in zones) given }
    requires early { start <ℤ window_last }
    ensures value { result ≡ span_end (clocks_in zones.entry) given length }
    ensures early { result <ℤ (window_last +ℤ lasts_most) }
{
    match length {
        Length::Open => start,
        Length::Until(end) => instant(zones, end),
        Length::Lasting(duration) => later_by(zones, given, duration, start),
    }
}

/// The midnight of the display zone that begins the day `days` after a day.
fn midnight_after(display: &Display, day: i32, days: i32) -> Moment
    requires late { year_seconds 1 ≤ℤ midnight day }
    requires early { midnight day ≤ℤ (window_last +ℤ whole_days 2) }
    requires least { pos 1 ≤ℤ days }
    requires most { midnight days ≤ℤ pos longest }
    ensures value { result ≡ (display_clock display.now).moment (midnight (day +ℤ days)) }
    ensures early { result <ℤ (window_last +ℤ lasts_most) }
{
    display.moment(Local {
        day: day + days,
        second: 0,
    })
}

/// The instant that is a duration later. Its days are counted by the clock of a time's zone.
fn later_by(zones: FileZones<'_>, time: Time, duration: Duration, start: Moment) -> Moment
    requires time { IsTimeOf zones.zones.now time }
    requires late { occurrence_first ≤ℤ start }
    requires early { start <ℤ window_last }
    requires short { IsLasting duration }
    ensures value { result ≡ later_by (clock_of (clocks_in zones.entry) time) duration start }
    ensures early { result <ℤ (window_last +ℤ lasts_most) }
{
    days_after(zones, time, start, duration.days) + duration.seconds as i64
}

/// The instant that is `days` days later by the clock of a time's zone.
fn days_after(zones: FileZones<'_>, time: Time, start: Moment, days: u64) -> Moment
    requires time { IsTimeOf zones.zones.now time }
    requires late { occurrence_first ≤ℤ start }
    requires early { start <ℤ window_last }
    requires short { whole_days days ≤ℤ pos longest }
    ensures value { result ≡ (clock_of (clocks_in zones.entry) time).moment
        (local_at (clock_of (clocks_in zones.entry) time) start +ℤ whole_days days) }
    ensures late { (occurrence_first -ℤ whole_days 4) ≤ℤ result }
    ensures early { result <ℤ ((start +ℤ whole_days days) +ℤ whole_days 4) }
{
    match time.stamp {
        Stamp::Utc(_) => start + days as i64 * DAY,
        Stamp::Date(_) | Stamp::Floating(_) => days_after_at(zones.display, start, days),
        Stamp::Zoned(_) => days_after_at(zones.zone_of(time), start, days),
    }
}

/// The instant that is `days` days later by the clock of a place.
fn days_after_at<P: Place>(place: &P, start: Moment, days: u64) -> Moment
    requires late { occurrence_first ≤ℤ start }
    requires early { start <ℤ window_last }
    requires short { whole_days days ≤ℤ pos longest }
    ensures value { result ≡ P.moment_at place.now
        ((start +ℤ P.offset_at place.now start) +ℤ whole_days days) }
    ensures late { (occurrence_first -ℤ whole_days 4) ≤ℤ result }
    ensures early { result <ℤ ((start +ℤ whole_days days) +ℤ whole_days 4) }
{
    let local = place.local(start);
    place.moment(Local {
        day: local.day + days as i32,
        second: local.second,
    })
}
