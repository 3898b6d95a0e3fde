//! The starts that the EXDATEs of an event remove.
ghost use Rattle.std.specs.Prelude.{◌≡◌, ◌<ℤ◌, ◌≤ℤ◌, ◌+ℤ◌, ◌||◌, ◌⊎◌, ◌++◌, ◌∷◌, [], ℤ, true, false, IfOk};
ghost use Rattle.std.specs.List.Sorted.{IsSorted};
ghost use Rattle.std.specs.Ordering.{int_cmp};
ghost use Rattle.ics_starts.specs.Clocks.{clock_of, instant};
ghost use Rattle.ics_starts.specs.Inner.ByLocal.{HasDates};
ghost use Rattle.ics_starts.specs.Inner.ClockStretches.{AreKnown};
ghost use Rattle.ics_starts.specs.Exclusions.{excludes, is_among, is_excluded, is_known, shown_day, takes_out, with_instant};
ghost use Rattle.ics_starts.specs.FileZones.{clocks_in, IsOwnEvent, IsTimeOf};
ghost use Rattle.ics_starts.specs.Found.{counts};
ghost use Rattle.ics_fields.specs.Locals.{day_of_local, midnight, whole_days};
ghost use Rattle.ics_listing.specs.WindowBounds.{window_last, occurrence_first};

use crate::by_local::{DatesByLocal, near_exdates, or_all};
use crate::clock_stretch::ClockStretches;
use crate::instants::is_at;
use crate::listed::counted;
use crate::zones::FileZones;
use ics_event::{Event, Time};
use ics_listing::{Window, date_of};
use ics_values::{Local, Moment, Stamp};
use ics_zone::{Bounds, Place, Stretch};
use std::alloc::{AllocError, Global};

const DAY: i64 = 86_400;

/// How many removed days are passed over at a time, at most.
const RUN_DAYS: i32 = 64;

/// The instants that the EXDATEs of an event remove, from one on or at which PERIODs that run begin, and, if the event has date-times, the days that
/// they remove by the clock of DTSTART. All are in order.
#[derive(Drop)]
pub(crate) struct Exclusions {
    from: Moment,
    running: Vec<Moment>,
    instants: Vec<Moment>,
    days: Vec<i32>,
    ghost running_rise: { IsSorted int_cmp running.items },
    ghost instants_rise: { IsSorted int_cmp instants.items },
    ghost days_rise: { IsSorted int_cmp days.items },
}

impl Exclusions {
    ghost use Rattle.jiff_core.specs.Calendar.{IsBetween, IsWithin};
    ghost use Rattle.ics_fields.specs.Locals.{year_seconds};
    ghost use Rattle.ics_listing.specs.FileClocks.{Clock};
    ghost use Rattle.ics_starts.specs.Clocks.{IsBounded, IsStretched};
    ghost use Rattle.ics_starts.specs.Exclusions.{is_day_in, AreExclusions};

    /// What the EXDATEs remove from the starts before the window's end that are from an instant on, or at one of some in order.
    pub(crate) fn new(
        alloc: Global,
        zones: FileZones<'_>,
        known: &mut ClockStretches,
        event: &Event,
        window: &Window,
        from: Moment,
        running: Vec<Moment>,
        dates: &Option<Box<DatesByLocal>>,
    ) -> Result<Exclusions, AllocError>
        requires event { IsOwnEvent zones event.now }
        requires known { AreKnown (clocks_in zones) known.old }
        requires order { IsSorted int_cmp running.items }
        requires dates { HasDates event.now dates.now }
        ensures { IfOk result (λ exclusions. AreExclusions (clocks_in zones.entry) event.now window.now
            exclusions.from exclusions.running.items exclusions.instants.items exclusions.days.items) }
    {
        let exdates = event.exdates();
        let mut instants = Vec::new(alloc);
        let mut days = Vec::new(alloc);
        if exdates.is_empty() {
            return Ok(Exclusions {
                from,
                running,
                instants,
                days,
            });
        }
        let given = near_exdates(alloc, dates, event, from, &running, window.to)?;
        let near = or_all(&given, exdates.len());
        for k in 0..near.count() {
            push_exdate(
                &mut instants,
                &mut days,
                zones,
                known,
                event.start,
                exdates[near.at(k)],
                window,
                from,
                &running,
            )?;
        }
        instants.sort_unstable();
        days.sort_unstable();
        Ok(Exclusions {
            from,
            running,
            instants,
            days,
        })
    }

    /// Whether they tell of an instant before the window's end if a start there is removed.
    pub(crate) fn knows(&self, moment: Moment) -> bool
        ensures { result ≡ is_known self.now.from self.now.running.items moment }
    {
        self.from <= moment || is_among(&self.running, moment)
    }

    /// Whether a start at an instant is removed.
    pub(crate) fn has(&self, zones: FileZones<'_>, first: Time, moment: Moment) -> bool
        requires first { IsTimeOf zones.zones.now first }
        requires late { occurrence_first ≤ℤ moment }
        requires early { moment <ℤ window_last }
        ensures { result ≡ takes_out (clock_of (clocks_in zones.entry) first)
            self.now.instants.items self.now.days.items moment }
    {
        if is_among(&self.instants, moment) {
            return true;
        }
        if self.days.is_empty() {
            return false;
        }
        self.has_day(shown_day(zones, first, moment))
    }

    /// Whether a day is removed.
    fn has_day(&self, day: i32) -> bool
        ensures { result ≡ is_among self.now.days.items day }
    {
        self.days.binary_search(&day).is_ok()
    }

    /// The midnight, in seconds, that ends the removed days from that of a local on: those that follow one another, at most so many. If the
    /// local's day is not removed, it is the one that begins this.
    fn run_end(&self, local: Moment) -> Moment
        requires { IsWithin 1_000_000_000_000 local }
        ensures removed { (other : ℤ) → local ≤ℤ other → other <ℤ result → is_among self.now.days.items (day_of_local other) ≡ true }
        ensures near { IsWithin 1_000_010_000_000 result }
    {
        let first = Local::of_seconds(local).day;
        let last = first + RUN_DAYS;
        let mut day = first;
        while day < last && self.has_day(day) {
            day += 1;
        }
        Local::at(day, 0).seconds()
    }

    /// The end of the locals from one on at which a clock shows a removed day whatever offset between these two it has.
    fn skips_by(&self, next: Moment, bounds: Bounds) -> Moment
        requires next { IsBetween (year_seconds 0) (year_seconds 10_000) next }
        requires least { IsWithin 93_599 bounds.least }
        requires most { IsWithin 93_599 bounds.most }
        ensures { (clock : Clock) → IsBounded clock bounds → (local : ℤ) → next ≤ℤ local → local <ℤ result
            → is_day_in clock self.now.days.items (clock.moment local) ≡ true }
    {
        let apart = bounds.most - bounds.least;
        self.run_end(next - apart) - apart
    }

    /// The end of the locals from one on at which a clock shows a removed day in a stretch: it shows each of them at its own instant, unless it
    /// skips them.
    pub(crate) fn skips_in(&self, next: Moment, stretch: Stretch) -> Moment
        requires next { IsBetween (year_seconds 0) (year_seconds 10_000) next }
        requires offset { IsWithin 93_599 stretch.offset }
        requires shown { IsWithin 93_599 stretch.shown }
        ensures { (clock : Clock) → IsStretched clock stretch → (local : ℤ) → next ≤ℤ local → local <ℤ result
            → is_day_in clock self.now.days.items (clock.moment local) ≡ true }
    {
        if next < stretch.from {
            return next;
        }
        let moved = stretch.shown - stretch.offset;
        stretch.to.min(self.run_end(next + moved) - moved)
    }

    /// The end, in seconds, of the locals from one on at which the clock shows a removed day. It stays between two offsets, and has one at the
    /// instants of a stretch.
    pub(crate) fn skips(&self, next: Moment, bounds: Bounds, stretch: Stretch) -> Moment
        requires next { IsBetween (year_seconds 0) (year_seconds 10_000) next }
        requires least { IsWithin 93_599 bounds.least }
        requires most { IsWithin 93_599 bounds.most }
        requires offset { IsWithin 93_599 stretch.offset }
        requires shown { IsWithin 93_599 stretch.shown }
        ensures { (clock : Clock) → IsBounded clock bounds → IsStretched clock stretch → (local : ℤ) → next ≤ℤ local → local <ℤ result
            → is_day_in clock self.now.days.items (clock.moment local) ≡ true }
    {
        if self.days.is_empty() {
            return next;
        }
        let shown = self.skips_in(next, stretch);
        shown.max(self.skips_by(next, bounds))
    }

    /// Whether an instant is removed by itself.
    pub(crate) fn has_instant(&self, moment: Moment) -> bool
        ensures { result ≡ is_among self.now.instants.items moment }
    {
        is_among(&self.instants, moment)
    }
}

/// Whether an instant is one of a list in order.
pub(crate) fn is_among(instants: &[Moment], moment: Moment) -> bool
    requires { IsSorted int_cmp instants.now }
    ensures { result ≡ is_among instants.now moment }
{
    instants.binary_search(&moment).is_ok()
}

/// Whether a clock may show a day at an instant before the window's end and from another on.
fn may_show(day: i32, window: &Window, from: Moment) -> bool
    ensures { result ≡ false → ((midnight day +ℤ whole_days 3) ≤ℤ from) ⊎ ((window.now.to +ℤ whole_days 2) ≤ℤ midnight day) }
{
    let begin = i64::from(day) * DAY;
    if begin + 3 * DAY <= from {
        return false;
    }
    if window.to + 2 * DAY <= begin {
        return false;
    }
    true
}

/// Adds a day that an EXDATE removes, unless no clock shows it at an instant that is to be known of.
fn push_day(
    days: &mut Vec<i32>,
    day: i32,
    window: &Window,
    from: Moment,
    running: &[Moment],
) -> Result<(), AllocError>
    ensures { IfOk result (λ _. (days.new.items ≡ days.old.items ++ (day ∷ []))
        ⊎ ((days.new.items ≡ days.old.items) × ((running.now ≡ [])
        × (((midnight day +ℤ whole_days 3) ≤ℤ from) ⊎ ((window.now.to +ℤ whole_days 2) ≤ℤ midnight day))))) }
{
    if running.is_empty() {
        if !may_show(day, window, from) {
            return Ok(());
        }
    }
    days.push(day)?;
    Ok(())
}

/// Adds what an EXDATE removes from an event with this DTSTART. If the event has dates, a value of any
/// form means its date.
fn push_exdate(
    instants: &mut Vec<Moment>,
    days: &mut Vec<i32>,
    zones: FileZones<'_>,
    known: &mut ClockStretches,
    first: Time,
    exdate: Time,
    window: &Window,
    from: Moment,
    running: &[Moment],
) -> Result<(), AllocError>
    requires time { IsTimeOf zones.zones.now exdate }
    requires known { AreKnown (clocks_in zones) known.old }
    requires order { IsSorted int_cmp running.now }
    ensures known { AreKnown (clocks_in zones.entry) known.new }
    ensures only { IfOk result (λ _. (t : ℤ) → let clocks = clocks_in zones.entry in
        takes_out (clock_of clocks first) instants.new.items days.new.items t ≡ true
        → (takes_out (clock_of clocks first) instants.old.items days.old.items t || excludes clocks first exdate t) ≡ true) }
    ensures same { IfOk result (λ _. (t : ℤ) → is_known from running.now t ≡ true → t <ℤ window.now.to → let clocks = clocks_in zones.entry in
        takes_out (clock_of clocks first) instants.new.items days.new.items t
        ≡ (takes_out (clock_of clocks first) instants.old.items days.old.items t || excludes clocks first exdate t)) }
{
    match (first.stamp, exdate.stamp) {
        (Stamp::Date(_), _) => {
            push_instant(
                instants,
                zones,
                known,
                date_of(exdate),
                window,
                from,
                running,
            )?
        }
        (_, Stamp::Date(day)) => push_day(days, day, window, from, running)?,
        _ => push_instant(instants, zones, known, exdate, window, from, running)?,
    }
    Ok(())
}

/// Adds the instant of a time, if it counts: unless its local tells that it is past the window's end, or before an instant and at none of some.
fn push_instant(
    instants: &mut Vec<Moment>,
    zones: FileZones<'_>,
    known: &mut ClockStretches,
    time: Time,
    window: &Window,
    from: Moment,
    running: &[Moment],
) -> Result<(), AllocError>
    requires time { IsTimeOf zones.zones.now time }
    requires known { AreKnown (clocks_in zones) known.old }
    requires order { IsSorted int_cmp running.now }
    ensures known { AreKnown (clocks_in zones.entry) known.new }
    ensures instants { IfOk result (λ _. let t = instant (clocks_in zones.entry) time in
        instants.new.items ≡ with_instant (counts window.now from time (is_among running.now t)) instants.old.items t) }
{
    if let Some(moment) = counted(zones, known, time, window, from, running) {
        instants.push(moment)?;
    }
    Ok(())
}

/// Whether an EXDATE of an event removes a start at an instant. Each is looked at.
pub(crate) fn is_excluded(zones: FileZones<'_>, event: &Event, moment: Moment) -> bool
    requires event { IsOwnEvent zones event.now }
    requires late { occurrence_first ≤ℤ moment }
    requires early { moment <ℤ window_last }
    ensures { result ≡ is_excluded (clocks_in zones.entry) event.now moment }
{
    let day = shown_day(zones, event.start, moment);
    for exdate in event.exdates() {
        if excludes(zones, event.start, *exdate, moment, day) {
            return true;
        }
    }
    false
}

/// Whether an EXDATE removes a start at an instant from an event with this DTSTART, whose clock shows this day there.
fn excludes(zones: FileZones<'_>, first: Time, exdate: Time, moment: Moment, day: i32) -> bool
    requires exdate { IsTimeOf zones.zones.now exdate }
    requires late { occurrence_first ≤ℤ moment }
    requires early { moment <ℤ window_last }
    requires day { day ≡ shown_day (clock_of (clocks_in zones) first) moment }
    ensures { result ≡ excludes (clocks_in zones.entry) first exdate moment }
{
    match (first.stamp, exdate.stamp) {
        (Stamp::Date(_), _) => is_at(zones, date_of(exdate), moment),
        (_, Stamp::Date(removed)) => removed == day,
        _ => is_at(zones, exdate, moment),
    }
}

/// The day that a time's clock shows at an instant.
fn shown_day(zones: FileZones<'_>, time: Time, moment: Moment) -> i32
    requires time { IsTimeOf zones.zones.now time }
    requires late { occurrence_first ≤ℤ moment }
    requires early { moment <ℤ window_last }
    ensures { result ≡ shown_day (clock_of (clocks_in zones.entry) time) moment }
{
    match time.stamp {
        Stamp::Utc(_) => Local::of_seconds(moment).day,
        Stamp::Date(_) | Stamp::Floating(_) => day_at(zones.display, moment),
        Stamp::Zoned(_) => day_at(zones.zone_of(time), moment),
    }
}

/// The day that the clock of a place shows at an instant.
fn day_at<P: Place>(place: &P, moment: Moment) -> i32
    requires late { occurrence_first ≤ℤ moment }
    requires early { moment <ℤ window_last }
    ensures { result ≡ day_of_local (moment +ℤ P.offset_at place.now moment) }
{
    place.local(moment).day
}
