//! The instants of times.
ghost use Rattle.std.specs.Prelude.{◌≡◌, ◌<ℤ◌, ◌≤ℤ◌, ◌-ℤ◌, pos, IfSome};
ghost use Rattle.std.specs.Ordering.{int_eq};
ghost use Rattle.ics_zone.specs.Seconds.{IsMoment};
ghost use Rattle.ics_starts.specs.Clocks.{clock_of, instant, is_in, AreSpansOf, IsBounded, IsStretched};
ghost use Rattle.ics_listing.specs.FileClocks.{Clock};
ghost use Rattle.ics_starts.specs.FileZones.{clocks_in, is_early, is_outside, is_past, IsTimeOf};
ghost use Rattle.ics_listing.specs.WindowBounds.{occurrence_first, window_last};
ghost use Rattle.ics_starts.specs.Leeway.{seconds_off};

use crate::zones::FileZones;
use ics_event::Time;
use ics_listing::{Window, local_of};
use ics_values::{Local, Moment, Stamp};
use ics_zone::{Bounds, Place, Spans, Stretch};

/// Spans that are made for fewer seconds on tell of very many onsets, and take longer than the questions that they save.
pub(crate) const DAYS: i64 = 7 * 86_400;

/// A stretch that reaches so many seconds past a local is far.
const FAR: i64 = 3_600;

/// A time whose local is so many seconds or more before or past an instant is before or past it in every zone.
pub(crate) const TWO_DAYS: i64 = 2 * 86_400;

/// The instant of a time. A date, as its midnight, and a floating local are read in the display zone, a
/// zoned local in its own zone (RFC 5545, section 3.3.5). The time is in the years of stamps, and has no
/// zone but one of these.
pub fn instant(zones: FileZones<'_>, time: Time) -> Moment
    requires { IsTimeOf zones.zones.now time }
    ensures { result ≡ instant (clocks_in zones.entry) time }
{
    match time.stamp {
        Stamp::Date(day) => zones.display.moment(Local { day, second: 0 }),
        Stamp::Floating(local) => zones.display.moment(local),
        Stamp::Utc(local) => local.seconds(),
        Stamp::Zoned(local) => zones.zone_of(time).moment(local),
    }
}

/// Two offsets between which the clock of a time stays.
pub(crate) fn bounds(zones: FileZones<'_>, time: Time) -> Bounds
    requires { IsTimeOf zones.zones.now time }
    ensures bounded { IsBounded (clock_of (clocks_in zones.entry) time) result }
    ensures most { result.most ≤ℤ seconds_off time.stamp }
    ensures least { (pos 0 -ℤ seconds_off time.stamp) ≤ℤ result.least }
{
    match time.stamp {
        Stamp::Date(_) | Stamp::Floating(_) => zones.display.bounds(),
        Stamp::Utc(_) => Bounds { least: 0, most: 0 },
        Stamp::Zoned(_) => zones.zone_of(time).bounds(),
    }
}

/// A stretch of locals about one, given by its seconds, that the clock of a time shows by one offset.
pub(crate) fn stretch(zones: FileZones<'_>, time: Time, local: Moment) -> Stretch
    requires time { IsTimeOf zones.zones.now time }
    requires local { IsMoment local }
    ensures { IsStretched (clock_of (clocks_in zones.entry) time) result }
{
    match time.stamp {
        Stamp::Date(_) | Stamp::Floating(_) => zones.display.stretch(local),
        Stamp::Utc(_) => Stretch {
            from: Moment::MIN,
            to: Moment::MAX,
            offset: 0,
            shown: 0,
        },
        Stamp::Zoned(_) => zones.zone_of(time).stretch(local),
    }
}

/// Whether the clock of a time is that of a zone of the file that may change it many times a year.
pub(crate) fn turns_often(zones: FileZones<'_>, time: Time) -> bool
    requires { IsTimeOf zones.zones.now time }
{
    match time.stamp {
        Stamp::Zoned(_) => zones.zone_of(time).turns_often(),
        _ => false,
    }
}

/// The spans of the clock of a time about a local, given by its seconds, and some days on. There are none for a date and in UTC.
pub(crate) fn spans_at(zones: FileZones<'_>, time: Time, local: Moment) -> Option<Spans>
    requires time { IsTimeOf zones.zones.now time }
    requires local { IsMoment local }
    ensures { AreSpansOf (clock_of (clocks_in zones.entry) time) result }
{
    match time.stamp {
        Stamp::Date(_) | Stamp::Utc(_) => None,
        Stamp::Floating(_) => zones.display.spans(local),
        Stamp::Zoned(_) => zones.zone_of(time).spans(local),
    }
}

/// Whether spans that are kept were made for a local, given by its seconds.
pub(crate) fn are_made_for(spans: &Option<Spans>, local: Moment) -> bool {
    match spans {
        None => false,
        Some(spans) => spans.are_near(local),
    }
}

/// A stretch about a local, given by its seconds, by spans that are kept. None if they were not made for it.
pub(crate) fn told_by(spans: &Option<Spans>, local: Moment) -> Option<Stretch>
    requires { IsMoment local }
    ensures { (clock : Clock) → AreSpansOf clock spans.now → IfSome result (IsStretched clock) }
{
    match spans {
        Some(kept) if kept.are_near(local) => Some(kept.stretch(local)),
        _ => None,
    }
}

/// Whether a stretch holds a local, given by its seconds, and reaches so far past it that spans would save few questions.
fn is_far(stretch: Stretch, local: Moment) -> bool
    requires { IsMoment local }
{
    is_in(stretch, local) && local + FAR <= stretch.to
}

/// The one of two stretches that holds a local, given by its seconds, and reaches further.
fn further(told: Stretch, other: Stretch, local: Moment) -> Stretch
    ensures { (clock : Clock) → IsStretched clock told → IsStretched clock other → IsStretched clock result }
{
    if is_in(other, local) && (told.to < other.to || !is_in(told, local)) {
        other
    } else {
        told
    }
}

/// A stretch about a local, given by its seconds, that the clock of a time tells or, where that is not far, new spans. They are kept then.
fn stretch_anew(
    zones: FileZones<'_>,
    time: Time,
    spans: &mut Option<Spans>,
    local: Moment,
) -> Stretch
    requires time { IsTimeOf zones.zones.now time }
    requires local { IsMoment local }
    requires spans { AreSpansOf (clock_of (clocks_in zones) time) spans.old }
    ensures spans { AreSpansOf (clock_of (clocks_in zones.entry) time) spans.new }
    ensures stretch { IsStretched (clock_of (clocks_in zones.entry) time) result }
{
    let told = stretch(zones, time, local);
    if is_far(told, local) {
        return told;
    }
    *spans = spans_at(zones, time, local);
    match told_by(spans, local) {
        None => told,
        Some(other) => further(told, other, local),
    }
}

/// A stretch about a local, given by its seconds: by spans that are kept, if they were made for it. Where these do not hold it, and where they were
/// made for others, the clock of the time is asked.
pub(crate) fn stretch_by(
    zones: FileZones<'_>,
    time: Time,
    spans: &mut Option<Spans>,
    local: Moment,
) -> Stretch
    requires time { IsTimeOf zones.zones.now time }
    requires local { IsMoment local }
    requires spans { AreSpansOf (clock_of (clocks_in zones) time) spans.old }
    ensures spans { AreSpansOf (clock_of (clocks_in zones.entry) time) spans.new }
    ensures stretch { IsStretched (clock_of (clocks_in zones.entry) time) result }
{
    match told_by(spans, local) {
        None => stretch_anew(zones, time, spans, local),
        Some(kept) if is_in(kept, local) => kept,
        Some(_) => stretch(zones, time, local),
    }
}

/// A stretch of no local. It ends at one, given by its seconds.
pub(crate) fn no_stretch(to: Moment) -> Stretch
    ensures { (clock : Clock) → IsStretched clock result }
{
    Stretch {
        from: to,
        to,
        offset: 0,
        shown: 0,
    }
}

/// Whether a local, given by its seconds, is in a stretch.
pub(crate) fn is_in(stretch: Stretch, local: Moment) -> bool
    ensures { result ≡ is_in stretch local }
{
    (stretch.from <= local) & (local < stretch.to)
}

/// The instant of a time, where a stretch of its clock's locals is known. The clock is not asked for a local in the stretch.
pub(crate) fn instant_in(zones: FileZones<'_>, stretch: Stretch, time: Time) -> Moment
    requires stretch { IsStretched (clock_of (clocks_in zones) time) stretch }
    requires time { IsTimeOf zones.zones.now time }
    ensures { result ≡ instant (clocks_in zones.entry) time }
{
    let local = local_of(time.stamp).seconds();
    if is_in(stretch, local) {
        return local - stretch.offset;
    }
    instant(zones, time)
}

/// Whether the local of a time is two days or more past the window's end. If so, the time is after that
/// in every zone.
fn is_past(time: Time, window: &Window) -> bool
    ensures { result ≡ is_past window.now time }
{
    window.to + TWO_DAYS <= local_of(time.stamp).seconds()
}

/// Whether the local of a time is two days or more before an instant. If so, the time is before that in every zone.
pub(crate) fn is_early(time: Time, from: Moment) -> bool
    ensures { result ≡ is_early from time }
{
    local_of(time.stamp).seconds() + TWO_DAYS <= from
}

/// Whether the local of a time tells that the time is before an instant or past the window's end.
pub(crate) fn is_outside(time: Time, window: &Window, from: Moment) -> bool
    ensures { result ≡ is_outside window.now from time }
{
    is_early(time, from) || is_past(time, window)
}

/// Whether a time means an instant. No zone is asked, if its local is two days or more away.
pub(crate) fn is_at(zones: FileZones<'_>, time: Time, moment: Moment) -> bool
    requires time { IsTimeOf zones.zones.now time }
    requires late { occurrence_first ≤ℤ moment }
    requires early { moment <ℤ window_last }
    ensures { result ≡ int_eq (instant (clocks_in zones.entry) time) moment }
{
    let local = local_of(time.stamp).seconds();
    if local <= moment - TWO_DAYS || moment + TWO_DAYS <= local {
        return false;
    }
    instant(zones, time) == moment
}
