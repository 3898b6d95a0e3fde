//! The length of an event.
ghost use Rattle.std.specs.Prelude.{◌≡◌, ◌≤ℤ◌, pos, IfSome};
ghost use Rattle.ics_event.specs.Event.{longest, IsLasting, IsLength};
ghost use Rattle.ics_fields.specs.Locals.{midnight};
ghost use Rattle.ics_listing.specs.FileClocks.{day_of};
ghost use Rattle.ics_starts.specs.Finish.{days_lasting, seconds_by, seconds_lasting, AreLasting};
ghost use Rattle.ics_starts.specs.FileZones.{clocks_in, EndsNear, IsEndOf, IsOwnEvent, IsTimeOf};
ghost use Rattle.ics_listing.specs.WindowBounds.{lasts_most};

use crate::instants::instant;
use crate::zones::FileZones;
use ics_event::{Event, Length, Time};
use ics_values::{Duration, Stamp};

const DAY: i64 = 86_400;

/// How many days an event that starts on a date lasts.
pub(crate) fn days_lasting(first: i32, length: Length) -> i32
    requires { IsLength (Stamp.Date first) length }
    ensures value { result ≡ days_lasting first length }
    ensures least { pos 1 ≤ℤ result }
    ensures most { midnight result ≤ℤ pos longest }
{
    match length {
        Length::Open => 1,
        Length::Until(end) => (day_of(end.stamp) - first).max(1),
        Length::Lasting(duration) => (duration.days as i32).max(1),
    }
}

/// The day of a stamp.
pub(crate) fn day_of(stamp: Stamp) -> i32
    ensures { result ≡ day_of stamp }
{
    match stamp {
        Stamp::Date(day) => day,
        Stamp::Floating(local) | Stamp::Utc(local) | Stamp::Zoned(local) => local.day,
    }
}

/// How many seconds an event lasts, if each day has 86,400.
pub(crate) fn seconds_lasting(zones: FileZones<'_>, event: &Event) -> i64
    requires { IsOwnEvent zones event.now }
    ensures value { result ≡ seconds_lasting (clocks_in zones.entry) event.now }
    ensures least { pos 0 ≤ℤ result }
    ensures most { result ≤ℤ lasts_most }
{
    seconds_by(zones, event.start, event.length)
}

/// How many seconds a length is from a first time on, if each day has 86,400.
fn seconds_by(zones: FileZones<'_>, first: Time, length: Length) -> i64
    requires first { IsTimeOf zones.zones.now first }
    requires length { IsLength first.stamp length }
    requires end { IsEndOf zones.zones.now length }
    requires near { EndsNear (clocks_in zones) first length }
    ensures value { result ≡ seconds_by (clocks_in zones.entry) first first.stamp length }
    ensures least { pos 0 ≤ℤ result }
    ensures most { result ≤ℤ lasts_most }
{
    match (first.stamp, length) {
        (Stamp::Date(day), length) => i64::from(days_lasting(day, length)) * DAY,
        (_, Length::Open) => 0,
        (_, Length::Until(end)) => (instant(zones, end) - instant(zones, first)).max(0),
        (_, Length::Lasting(duration)) => duration.days as i64 * DAY + duration.seconds as i64,
    }
}

/// The duration by which occurrences by the rule of an event end, if its clock can make them end later than its seconds tell.
pub(crate) fn lasting_by(zones: FileZones<'_>, event: &Event) -> Option<Duration>
    requires { IsOwnEvent zones event.now }
    ensures short { IfSome result IsLasting }
    ensures lasting { IfSome result (AreLasting (clocks_in zones.entry) event.now) }
{
    match event.start.stamp {
        Stamp::Date(_) | Stamp::Utc(_) => None,
        Stamp::Floating(_) | Stamp::Zoned(_) => match event.length {
            Length::Open | Length::Until(_) => None,
            Length::Lasting(duration) => Some(duration),
        },
    }
}
