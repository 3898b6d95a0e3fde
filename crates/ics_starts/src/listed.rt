//! The starts that RDATEs give.
ghost use Rattle.std.specs.Prelude.{◌≡◌, ◌≤ℤ◌, ◌<ℤ◌, ◌-ℤ◌, ◌||◌, ◌++◌, ℤ, pos, if◌then◌else◌, IfOk, None, Some};
ghost use Rattle.std.specs.List.{list_any};
ghost use Rattle.std.specs.Int.{int_max, int_min};
ghost use Rattle.std.specs.List.Sorted.{IsSorted};
ghost use Rattle.std.specs.Ordering.{int_cmp};
ghost use Rattle.ics_event.specs.Event.{IsRdate, IsSpan};
ghost use Rattle.ics_fields.specs.Locals.{whole_days};
ghost use Rattle.ics_starts.specs.Clocks.{instant};
ghost use Rattle.ics_starts.specs.Inner.ByLocal.{count_in, place_in, AreCounting, AreUp, HasDates};
ghost use Rattle.ics_starts.specs.Inner.ClockStretches.{AreKnown};
ghost use Rattle.ics_starts.specs.Exclusions.{is_among};
ghost use Rattle.ics_starts.specs.Found.{begins_at, counts, is_between, is_over, listed_from, span_local, AreRunning};
ghost use Rattle.ics_starts.specs.Quiet.{AreListedAgain, IsAgain};
ghost use Rattle.ics_starts.specs.Starts.{given_by};
ghost use Rattle.ics_starts.specs.FileZones.{clocks_in, IsOwnEvent, IsTimeOf};
ghost use Rattle.ics_listing.specs.StartTimes.{time_of};
ghost use Rattle.ics_listing.specs.WindowBounds.{lasts_most, occurrence_first};
ghost use Rattle.ics_zone.specs.Seconds.{IsMoment};

use crate::by_local::{
    DatesByLocal, Places, has_ended, near_rdates, near_spans, next_rdates, or_all,
};
use crate::clock_stretch::{ClockStretches, instant_by};
use crate::exclusion::is_among;
use crate::instants::{TWO_DAYS, instant, is_early, is_outside};
use crate::starts::FOUR_DAYS;
use crate::zones::FileZones;
use ics_event::{Event, Length, Rdate, Time};
use ics_listing::{Start, StartSource, Window, date_of, local_of, time_at, time_of};
use ics_values::{Local, Moment, Stamp};
use std::alloc::{AllocError, Global};

const DAY: i64 = 86_400;

/// A PERIOD whose locals are so many seconds before an instant has ended by then in every zone.
const OVER: i64 = 6 * DAY;

/// So many instants or fewer are a few, which are looked at one by one.
const FEW: usize = 16;

/// The local at which a PERIOD that begins at a time is to end, if each day has 86,400 seconds.
pub(crate) fn span_local(start: Time, length: Length) -> Moment
    requires { IsSpan length }
    ensures { result ≡ span_local start length }
{
    let local = local_of(start.stamp).seconds();
    match length {
        Length::Open => local,
        Length::Until(end) => local_of(end.stamp).seconds(),
        Length::Lasting(duration) => {
            local + (duration.days as i64 * DAY + duration.seconds as i64)
        }
    }
}

/// Whether the locals of a PERIOD tell that it has ended before the window.
fn is_over(start: Time, length: Length, window: &Window) -> bool
    requires { IsSpan length }
    ensures { result ≡ is_over window.now start length }
{
    let by = window.from - OVER;
    local_of(start.stamp).seconds() <= by && span_local(start, length) <= by
}

/// The instant from which on the starts by the RDATEs of an event count, if those from an instant on are asked for: that one or, if it is later, four
/// days before the first at which an event of its length can meet the window, which is given.
pub(crate) fn counts_from(met: Moment, since: Moment, window: &Window) -> Moment
    requires { (occurrence_first -ℤ lasts_most) ≤ℤ met }
    ensures { result ≡ int_max (met -ℤ whole_days 4) (int_min since (window.now.to -ℤ pos 1)) }
{
    let last = window.to - 1;
    (met - FOUR_DAYS).max(since.min(last))
}

/// Adds the instant at which a PERIOD begins, if it is not over, begins at an instant or later and can begin before another.
fn push_running(
    running: &mut Vec<Moment>,
    zones: FileZones<'_>,
    known: &mut ClockStretches,
    given: Rdate,
    window: &Window,
    since: Moment,
    from: Moment,
) -> Result<(), AllocError>
    requires value { IsRdate given }
    requires time { IsTimeOf zones.zones.now (time_of given) }
    requires known { AreKnown (clocks_in zones) known.old }
    ensures known { AreKnown (clocks_in zones.entry) known.new }
    ensures running { IfOk result (λ _. (t : ℤ) → since ≤ℤ t → t <ℤ from → is_among running.new.items t
        ≡ (is_among running.old.items t || begins_at (clocks_in zones.entry) window.now t given)) }
{
    if let Rdate::Span(start, length) = given {
        let begun = local_of(start.stamp).seconds() - TWO_DAYS < from;
        if begun && !is_over(start, length, window) {
            let moment = instant_by(zones, start, known);
            if since <= moment {
                running.push(moment)?;
            }
        }
    }
    Ok(())
}

/// The instants from one on and before another at which PERIODs of an event begin that are not over, in order. There may be others, which are not
/// before the second.
pub(crate) fn running(
    alloc: Global,
    zones: FileZones<'_>,
    known: &mut ClockStretches,
    event: &Event,
    window: &Window,
    since: Moment,
    from: Moment,
    dates: &Option<Box<DatesByLocal>>,
) -> Result<Vec<Moment>, AllocError>
    requires event { IsOwnEvent zones event.now }
    requires known { AreKnown (clocks_in zones) known.old }
    requires soon { from ≤ℤ window.now.to }
    requires dates { HasDates event.now dates.now }
    ensures known { AreKnown (clocks_in zones.entry) known.new }
    ensures order { IfOk result (λ running. IsSorted int_cmp running.items) }
    ensures are { IfOk result (λ running. AreRunning (clocks_in zones.entry) window.now event.now since from running.items) }
{
    let mut running = Vec::new(alloc);
    if from <= since {
        return Ok(running);
    }
    let by = window.from - OVER;
    let near = near_spans(dates, event, by, from + TWO_DAYS);
    let rdates = event.rdates();
    for k in 0..near.count() {
        let place = near.at(k);
        if has_ended(dates, place, by) {
            continue;
        }
        push_running(
            &mut running,
            zones,
            known,
            given_by(event.start, rdates[place]),
            window,
            since,
            from,
        )?;
    }
    running.sort_unstable();
    Ok(running)
}

/// Whether an instant is between two others.
fn is_between(moment: Moment, from: Moment, to: Moment) -> bool
    ensures { result ≡ is_between from to moment }
{
    (from < moment) & (moment < to)
}

/// Whether one of a few instants is between two others.
fn any_between(instants: &[Moment], from: Moment, to: Moment) -> bool
    ensures { result ≡ list_any (is_between from to) instants.now }
{
    instants.iter().any(|moment| is_between(*moment, from, to))
}

/// Whether one of some instants in order is between two others.
fn has_between(instants: &[Moment], from: Moment, to: Moment) -> bool
    requires { IsSorted int_cmp instants.now }
    ensures { result ≡ list_any (is_between from to) instants.now }
{
    if instants.len() <= FEW {
        return any_between(instants, from, to);
    }
    let past = instants.partition_point(|moment| *moment <= from);
    if past == instants.len() {
        return false;
    }
    instants[past] < to
}

/// The instant of a time, if it is one of those of a list in order. No zone is asked, if the time's local tells that it is none of them.
#[inline]
fn among(
    zones: FileZones<'_>,
    known: &mut ClockStretches,
    time: Time,
    instants: &[Moment],
) -> Option<Moment>
    requires time { IsTimeOf zones.zones.now time }
    requires known { AreKnown (clocks_in zones) known.old }
    requires order { IsSorted int_cmp instants.now }
    ensures known { AreKnown (clocks_in zones.entry) known.new }
    ensures found { result ≡ (let t = instant (clocks_in zones.entry) time in if is_among instants.now t then Some t else None) }
{
    if instants.is_empty() {
        return None;
    }
    let local = local_of(time.stamp).seconds();
    if !has_between(instants, local - TWO_DAYS, local + TWO_DAYS) {
        return None;
    }
    let moment = instant_by(zones, time, known);
    if is_among(instants, moment) {
        Some(moment)
    } else {
        None
    }
}

/// The instant of a time at which an RDATE starts an event, or an EXDATE removes a start, if that counts: unless its local tells that it is past the
/// window's end, or before an instant and at none of those at which PERIODs begin that are not over.
#[inline(always)]
pub(crate) fn counted(
    zones: FileZones<'_>,
    known: &mut ClockStretches,
    time: Time,
    window: &Window,
    from: Moment,
    running: &[Moment],
) -> Option<Moment>
    requires time { IsTimeOf zones.zones.now time }
    requires known { AreKnown (clocks_in zones) known.old }
    requires order { IsSorted int_cmp running.now }
    ensures known { AreKnown (clocks_in zones.entry) known.new }
    ensures counted { result ≡ (let t = instant (clocks_in zones.entry) time in
        if counts window.now from time (is_among running.now t) then Some t else None) }
{
    if is_early(time, from) {
        return among(zones, known, time, running);
    }
    if is_outside(time, window, from) {
        return None;
    }
    Some(instant(zones, time))
}

/// Adds the starts from an instant on that the RDATEs of an event give and that count.
pub(crate) fn push_listed(
    alloc: Global,
    starts: &mut Vec<Start>,
    zones: FileZones<'_>,
    known: &mut ClockStretches,
    event: &Event,
    window: &Window,
    since: Moment,
    from: Moment,
    running: &[Moment],
    dates: &Option<Box<DatesByLocal>>,
) -> Result<(), AllocError>
    requires event { IsOwnEvent zones event.now }
    requires known { AreKnown (clocks_in zones) known.old }
    requires order { IsSorted int_cmp running.now }
    requires running { AreRunning (clocks_in zones) window.now event.now since from running.now }
    requires soon { from <ℤ window.now.to }
    requires dates { HasDates event.now dates.now }
    ensures known { AreKnown (clocks_in zones.entry) known.new }
    ensures starts { IfOk result (λ _. starts.new.items
        ≡ starts.old.items ++ listed_from (clocks_in zones.entry) window.now since from event.now 0 event.now.rdates) }
{
    let given = near_rdates(alloc, dates, event, from, running, window.to)?;
    let near = or_all(&given, event.rdates().len());
    push_at(
        starts, zones, known, event, window, since, from, running, near,
    )
}

/// Adds those from an instant on of the values at some places in order, which are all that count.
fn push_at(
    starts: &mut Vec<Start>,
    zones: FileZones<'_>,
    known: &mut ClockStretches,
    event: &Event,
    window: &Window,
    since: Moment,
    from: Moment,
    running: &[Moment],
    near: Places<'_>,
) -> Result<(), AllocError>
    requires event { IsOwnEvent zones event.now }
    requires known { AreKnown (clocks_in zones) known.old }
    requires order { IsSorted int_cmp running.now }
    requires running { AreRunning (clocks_in zones) window.now event.now since from running.now }
    requires up { AreUp (count_in near) (place_in near) }
    requires counting { AreCounting (clocks_in zones) window.now event.now since from near }
    ensures known { AreKnown (clocks_in zones.entry) known.new }
    ensures starts { IfOk result (λ _. starts.new.items
        ≡ starts.old.items ++ listed_from (clocks_in zones.entry) window.now since from event.now 0 event.now.rdates) }
{
    let rdates = event.rdates();
    let mut next = 0;
    for k in 0..near.count() {
        let place = near.at(k);
        if place < next {
            continue;
        }
        next = place + 1;
        let given = given_by(event.start, rdates[place]);
        let Some(moment) = counted(zones, known, time_of(given), window, from, running) else {
            continue;
        };
        if moment < since {
            continue;
        }
        starts.push(Start {
            moment,
            source: StartSource::Listed(place),
            given,
        })?;
    }
    Ok(())
}

/// An instant that is not after the first at which DTSTART or an RDATE starts an event, from another on.
pub(crate) fn listed_again(
    zones: FileZones<'_>,
    event: &Event,
    dates: &Option<Box<DatesByLocal>>,
    from: Moment,
) -> Moment
    requires event { IsOwnEvent zones event.now }
    requires dates { HasDates event.now dates.now }
    requires from { IsMoment from }
    ensures { AreListedAgain (clocks_in zones.entry) event.now from result }
{
    let rdates = event.rdates();
    let near = next_rdates(dates, event, from);
    let mut least = lesser_again(zones, from, Moment::MAX, event.start);
    for k in 0..near.count() {
        let given = given_by(event.start, rdates[near.at(k)]);
        least = lesser_again(zones, from, least, time_of(given));
    }
    least
}

/// The lesser of an instant and that of a time or, if the time is before an end, the first. No zone is asked, if its local tells that.
fn lesser_again(zones: FileZones<'_>, end: Moment, least: Moment, time: Time) -> Moment
    requires { IsTimeOf zones.zones.now time }
    ensures first { result ≤ℤ least }
    ensures second { IsAgain (clocks_in zones.entry) end result time }
{
    if is_early(time, end) {
        return least;
    }
    lesser_past(end, least, instant(zones, time))
}

/// The lesser of two instants or, if the second is before an end, the first.
pub(crate) fn lesser_past(end: Moment, least: Moment, moment: Moment) -> Moment
    ensures first { result ≤ℤ least }
    ensures second { end ≤ℤ moment → result ≤ℤ moment }
{
    if moment < end {
        least
    } else {
        least.min(moment)
    }
}

/// The time or period at which a value of an RDATE starts an event with this DTSTART. If the event has
/// dates, a value of any form means its date. Else a date means that date at DTSTART's time of day, in
/// DTSTART's zone.
pub(crate) fn given_by(first: Time, rdate: Rdate) -> Rdate
    ensures { result ≡ given_by first rdate }
{
    match (first.stamp, rdate) {
        (Stamp::Date(_), rdate) => Rdate::At(date_of(time_of(rdate))),
        (_, Rdate::At(time)) => match time.stamp {
            Stamp::Date(day) => {
                let local = Local::at(day, local_of(first.stamp).second);
                Rdate::At(time_at(first, local))
            }
            Stamp::Floating(_) | Stamp::Utc(_) | Stamp::Zoned(_) => Rdate::At(time),
        },
        (_, span) => span,
    }
}
