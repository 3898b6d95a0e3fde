//! The starts of an event by which it can meet a window.
ghost use Rattle.std.specs.Prelude.{◌≡◌, ◌<ℤ◌, ◌≤ℤ◌, ◌+ℤ◌, ◌-ℤ◌, pos, All};
ghost use Rattle.std.specs.Int.{int_max, int_min};
ghost use Rattle.jiff_core.specs.Calendar.{IsWithin};
ghost use Rattle.ics_fields.specs.Days.{IsDayNumber};
ghost use Rattle.ics_fields.specs.Locals.{midnight, local_seconds, whole_days, year_seconds};
ghost use Rattle.ics_starts.specs.SeriesStarts.{IsFirstGiven};
ghost use Rattle.ics_starts.specs.Found.{earliest, first_met, is_span_met, start_at, IsStartIn};
ghost use Rattle.ics_zone.specs.Observances.{is_until};
ghost use Rattle.ics_starts.specs.Clocks.{clock_of, IsBounded};
ghost use Rattle.ics_starts.specs.Leeway.{late_within, rule_late, seconds_off};
ghost use Rattle.ics_starts.specs.RuleStarts.{ends_at};
ghost use Rattle.ics_listing.specs.StartTimes.{local_of, time_at};
ghost use Rattle.ics_starts.specs.FileZones.{clocks_in, IsOwnEvent, IsTimeOf};
ghost use Rattle.ics_listing.specs.WindowBounds.{lasts_most, occurrence_first, window_last};

use crate::instants::instant;
use crate::lasting::seconds_lasting;
use crate::occurrence::met_by;
use crate::zones::FileZones;
use ics_event::{Event, Length, Rdate};
use ics_listing::{Start, StartSource, Window, local_of, time_at};
use ics_values::{Local, Moment, Stamp};
use ics_zone::Bounds;

pub(crate) const FOUR_DAYS: i64 = 4 * 86_400;

/// The start at the local of DTSTART, or at one that the rule keeps.
pub(crate) fn start_at(zones: FileZones<'_>, event: &Event, local: Local) -> Start
    requires { IsTimeOf zones.zones.now (time_at event.now.start local) }
    ensures { result ≡ start_at (clocks_in zones.entry) event.now local }
{
    let time = time_at(event.start, local);
    Start {
        moment: instant(zones, time),
        source: StartSource::Kept(local),
        given: Rdate::At(time),
    }
}

/// The first instant at which an event of this length can start and meet the window.
pub(crate) fn first_met(zones: FileZones<'_>, event: &Event, window: &Window) -> Moment
    requires { IsOwnEvent zones event.now }
    ensures value { result ≡ first_met (clocks_in zones.entry) window.now event.now }
    ensures late { (occurrence_first -ℤ lasts_most) ≤ℤ result }
    ensures early { result ≤ℤ window.now.from }
{
    if window.notstarted {
        window.from
    } else {
        window.from - seconds_lasting(zones, event)
    }
}

/// The instant from which on the rule is read: the first, which is given, at which an event of this length can still
/// meet the window or, if it is earlier, the earliest start by a PERIOD that meets it, since a local at
/// that instant gives it the event's length.
pub(crate) fn earliest(
    zones: FileZones<'_>,
    event: &Event,
    window: &Window,
    met: Moment,
    starts: &[Start],
) -> Moment
    requires event { IsOwnEvent zones event.now }
    requires met { met ≡ first_met (clocks_in zones) window.now event.now }
    requires late { (occurrence_first -ℤ lasts_most) ≤ℤ met }
    requires early { met ≤ℤ window.now.from }
    requires starts { All (IsStartIn zones) starts.now }
    ensures value { result ≡ earliest (clocks_in zones.entry) window.now event.now starts.now }
    ensures late { (occurrence_first -ℤ lasts_most) ≤ℤ result }
    ensures early { result ≤ℤ window.now.to }
{
    let mut earliest = met;
    for start in starts {
        if is_span_met(zones, event, *start, window) {
            earliest = earliest.min(start.moment);
        }
    }
    earliest
}

/// Whether a start by a PERIOD meets the window by its own length.
fn is_span_met(zones: FileZones<'_>, event: &Event, start: Start, window: &Window) -> bool
    requires event { IsOwnEvent zones event.now }
    requires start { IsStartIn zones start }
    ensures { result ≡ is_span_met (clocks_in zones.entry) window.now event.now start start.given }
{
    match start.given {
        Rdate::At(_) => false,
        Rdate::Span(_, _) => met_by(zones, event, start, window, None).is_some(),
    }
}

/// An instant before which no start by the rule gives an occurrence that meets the window and is not before another, where the clock of DTSTART stays
/// between two offsets.
pub(crate) fn first_given(
    zones: FileZones<'_>,
    event: &Event,
    window: &Window,
    since: Moment,
    bounds: Bounds,
) -> Moment
    requires event { IsOwnEvent zones event.now }
    requires bounds { IsBounded (clock_of (clocks_in zones) event.now.start) bounds }
    ensures { IsFirstGiven (clocks_in zones.entry) window.now event.now since result }
{
    let late = if window.notstarted {
        0
    } else {
        rule_late(event, bounds)
    };
    let first = first_met(zones, event, window) - late;
    first.max(since)
}

/// Whether an instant is not after UNTIL.
pub(crate) fn is_until(until: Option<Moment>, moment: Moment) -> bool
    ensures { result ≡ is_until until moment }
{
    match until {
        None => true,
        Some(last) => moment <= last,
    }
}

/// How many seconds later an occurrence of an event can end than the seconds of its length say, where the clock of DTSTART stays between two offsets.
/// An RDATE may have another clock.
fn seconds_late(event: &Event, bounds: Bounds) -> i64
    requires least { IsWithin 93_599 bounds.least }
    requires most { IsWithin 93_599 bounds.most }
    requires order { bounds.least ≤ℤ bounds.most }
    ensures value { result ≡ late_within bounds event.now }
    ensures least { pos 0 ≤ℤ result }
    ensures most { result ≤ℤ whole_days 4 }
{
    if event.rdates().is_empty() {
        rule_late(event, bounds)
    } else {
        FOUR_DAYS
    }
}

/// The same of an occurrence by the rule. Its end is read by the clock of DTSTART, and can be as late as the offsets differ.
fn rule_late(event: &Event, bounds: Bounds) -> i64
    requires least { IsWithin 93_599 bounds.least }
    requires most { IsWithin 93_599 bounds.most }
    requires order { bounds.least ≤ℤ bounds.most }
    ensures value { result ≡ rule_late bounds event.now }
    ensures least { pos 0 ≤ℤ result }
    ensures most { result ≤ℤ whole_days 4 }
{
    let apart = bounds.most - bounds.least;
    match event.start.stamp {
        Stamp::Date(_) => apart,
        Stamp::Utc(_) => 0,
        Stamp::Floating(_) | Stamp::Zoned(_) => match event.length {
            Length::Open | Length::Until(_) => 0,
            Length::Lasting(_) => apart,
        },
    }
}

/// How many seconds before the earliest instant that counts the locals of an event's rule have to be read, on a clock that stays between two offsets.
pub(crate) fn seconds_back(event: &Event, bounds: Bounds) -> i64
    requires least { IsWithin 93_599 bounds.least }
    requires most { IsWithin 93_599 bounds.most }
    requires order { bounds.least ≤ℤ bounds.most }
    ensures value { result ≡ late_within bounds event.now -ℤ bounds.least }
    ensures least { (pos 0 -ℤ whole_days 2) ≤ℤ result }
    ensures most { result ≤ℤ whole_days 6 }
{
    seconds_late(event, bounds) - bounds.least
}

/// The local from which on a rule with this first local is read: that local or, if it is later, the one that is so many seconds before
/// the earliest instant that counts, or the midnight of its day. So a rule that began long ago is not read from its beginning.
pub(crate) fn first_nearby(first: Local, back: i64, at_midnight: bool, earliest: Moment) -> Local
    requires first { IsDayNumber first.day }
    requires least { (pos 0 -ℤ whole_days 2) ≤ℤ back }
    requires most { back ≤ℤ whole_days 6 }
    requires late { (occurrence_first -ℤ lasts_most) ≤ℤ earliest }
    requires early { earliest ≤ℤ (window_last +ℤ whole_days 14) }
    ensures day { IsDayNumber result.day }
    ensures late { int_max (local_seconds first) (earliest -ℤ (back +ℤ whole_days 1)) ≤ℤ local_seconds result }
    ensures low { local_seconds result ≤ℤ int_max (local_seconds first) (earliest -ℤ back) }
{
    let local = Local::of_seconds(earliest - back);
    if local.day <= first.day {
        return first;
    }
    if at_midnight {
        Local::at(local.day, 0)
    } else {
        local
    }
}

/// The last instant at which a rule with this UNTIL in UTC and this first local can give a start in a
/// window.
fn last_given(window: &Window, until: Option<Moment>, first: Local) -> Moment
    requires { IsDayNumber first.day }
    ensures value { (result +ℤ pos 1) ≡ ends_at window.now until (local_seconds first) }
    ensures low { year_seconds 0 ≤ℤ result }
    ensures early { result <ℤ window.now.to }
{
    match until {
        None => window.to - 1,
        Some(until) => until.max(first.seconds()).min(window.to - 1),
    }
}

/// The day after the last local that can have that instant, on a clock that is at most so many seconds ahead of UTC. No local from that day on has an
/// instant at which the rule can give a start.
pub(crate) fn end_nearby(window: &Window, until: Option<Moment>, start: Stamp, most: i64) -> i32
    requires day { IsDayNumber (local_of start).day }
    requires short { IsWithin 93_599 most }
    requires most { most ≤ℤ seconds_off start }
    ensures day { IsDayNumber result }
    ensures after { (ends_at window.now until (local_seconds (local_of start)) +ℤ most) ≤ℤ midnight result }
    ensures first { int_min (local_seconds (local_of start)) (ends_at window.now until (local_seconds (local_of start)) -ℤ pos 1) <ℤ midnight result }
    ensures soon { midnight result <ℤ (ends_at window.now until (local_seconds (local_of start)) +ℤ (seconds_off start +ℤ whole_days 1)) }
{
    let first = local_of(start);
    let last = last_given(window, until, first);
    // DTSTART counts even if it is after UNTIL.
    let local = (last + most).max(last.min(first.seconds()));
    Local::of_seconds(local).day + 1
}
