//! The ends of occurrences that stretches tell, of starts that follow each other closely.
ghost use Rattle.std.specs.Prelude.{◌≡◌, ◌<ℤ◌, ◌≤ℤ◌, ◌+ℤ◌, IfSome};
ghost use Rattle.ics_event.specs.Event.{IsLasting};
ghost use Rattle.ics_listing.specs.WindowBounds.{lasts_most, occurrence_first, window_last};
ghost use Rattle.ics_starts.specs.Clocks.{clock_of, AreSpansOf, IsStretched};
ghost use Rattle.ics_starts.specs.FileZones.{clocks_in, IsOwnEvent, IsTimeOf};
ghost use Rattle.ics_starts.specs.Finish.{later_by};
ghost use Rattle.ics_starts.specs.Found.{IsFinish, IsStartIn};
ghost use Rattle.ics_zone.specs.Seconds.{IsMoment};

use crate::clock_stretch::have_one_clock;
use crate::ends::seconds_on;
use crate::instants::{DAYS, are_made_for, is_in, spans_at, stretch, told_by};
use crate::kept_locals::times_of_day;
use crate::zones::FileZones;
use ics_event::{Event, Length, Rdate, Time};
use ics_fields::Parts;
use ics_listing::Start;
use ics_values::{Duration, Moment, Stamp};
use ics_zone::{Spans, Stretch};
use std::alloc::Global;

const DAY: i64 = 86_400;

/// So many ends are asked for before a stretch is.
const FEW: u16 = 2_048;

/// Spans that told fewer ends took longer than the questions that they saved.
const SOME: u16 = 64;

/// How many times a day an event begins, at least, whose ends are told.
const OFTEN: u64 = 6;

/// How many seconds pass before the clock is asked anew where it has told a stretch itself, at first: each time twice as many.
const LATE: i64 = 16 * DAY;

/// How many pass at most, and where spans save few questions.
const LATER: i64 = 1_024 * DAY;

/// An instant before all starts.
const FIRST: Moment = -62_167_219_200;

/// Where stretches tell the ends of an event's occurrences.
#[derive(Drop)]
pub(crate) struct ToldEnds {
    /// So many ends are asked for before the clock is asked for the first stretch.
    waits: u16,
    /// It is not asked so for what begins before this instant: shortly before it told stretches itself, or spans saved few questions.
    later: Moment,
    /// So many seconds pass before it is asked again, if it tells a stretch itself.
    late: Moment,
    /// What begins before this instant ends at locals for which the spans were made.
    until: Moment,
    /// How many ends the spans have told.
    told: u16,
}

/// Whether a rule may give many starts a day.
fn is_often(parts: &Parts) -> bool {
    parts.frequency.is_finer_than_daily() || times_of_day(parts) >= OFTEN
}

/// Whether the ends of an event's occurrences are told by stretches: they last days by the clock of a zone of the file, and many may begin on a day.
pub(crate) fn are_told(event: &Event) -> bool {
    match (event.start.stamp, event.length, &event.rule) {
        (Stamp::Zoned(_), Length::Lasting(duration), Some(rule)) => {
            let is_long = duration.days > 0 || duration.seconds >= DAY as u64;
            is_long && is_often(rule.parts())
        }
        _ => false,
    }
}

/// Begins anew.
pub(crate) fn again(told: &mut Option<Box<ToldEnds>>) {
    if let Some(told) = told {
        told.again();
    }
}

impl ToldEnds {
    /// Nothing is known yet. None if the ends of an event's occurrences are not told so.
    pub(crate) fn new(alloc: Global, event: &Event) -> Option<Box<ToldEnds>> {
        if !are_told(event) {
            return None;
        }
        Box::new(
            alloc,
            ToldEnds {
                waits: FEW,
                later: FIRST,
                late: LATE,
                until: FIRST,
                told: SOME,
            },
        )
        .ok()
    }

    /// Begins anew. Where the clock told stretches itself, or spans saved few questions, is still known.
    fn again(&mut self) {
        self.waits = FEW;
        self.until = FIRST;
        self.told = SOME;
    }

    /// Whether the end of what begins at an instant may be told. The first ones are not.
    pub(crate) fn may_tell(&mut self, start: Moment) -> bool {
        if self.waits > 0 {
            self.waits -= 1;
            return false;
        }
        self.later <= start
    }

    /// A stretch about a local at which what begins at an instant ends, given by its seconds. Where spans that are kept were not made for it, the clock of
    /// a time is asked.
    fn stretch(
        &mut self,
        spans: &mut Option<Spans>,
        zones: FileZones<'_>,
        time: Time,
        local: Moment,
        start: Moment,
    ) -> Stretch
        requires time { IsTimeOf zones.zones.now time }
        requires local { IsMoment local }
        requires spans { AreSpansOf (clock_of (clocks_in zones) time) spans.old }
        ensures spans { AreSpansOf (clock_of (clocks_in zones.entry) time) spans.new }
        ensures stretch { IsStretched (clock_of (clocks_in zones.entry) time) result }
    {
        if start < self.until {
            if let Some(kept) = told_by(spans, local) {
                self.told = self.told.saturating_add(1);
                return kept;
            }
        }
        self.asked(spans, zones, time, local, start)
    }

    /// The same where the clock is asked.
    fn asked(
        &mut self,
        spans: &mut Option<Spans>,
        zones: FileZones<'_>,
        time: Time,
        local: Moment,
        start: Moment,
    ) -> Stretch
        requires time { IsTimeOf zones.zones.now time }
        requires local { IsMoment local }
        requires spans { AreSpansOf (clock_of (clocks_in zones) time) spans.old }
        ensures spans { AreSpansOf (clock_of (clocks_in zones.entry) time) spans.new }
        ensures stretch { IsStretched (clock_of (clocks_in zones.entry) time) result }
    {
        let told = stretch(zones, time, local);
        if is_in(told, local) {
            self.later = start.saturating_add(self.late);
            self.late = self.late.saturating_mul(2).min(LATER);
            self.told = SOME;
            return told;
        }
        *spans = spans_at(zones, time, local);
        self.late = LATE;
        self.until = start.saturating_add(LATE);
        if self.told < SOME || !are_made_for(spans, local.saturating_add(DAYS)) {
            self.later = start.saturating_add(LATER);
        }
        self.told = 0;
        match told_by(spans, local) {
            None => told,
            Some(kept) => kept,
        }
    }

    /// The instant that is a duration later than another, by the clock of a time, if stretches tell it. The first may tell of the other.
    fn later_by(
        &mut self,
        spans: &mut Option<Spans>,
        zones: FileZones<'_>,
        time: Time,
        shown: Stretch,
        duration: Duration,
        start: Moment,
    ) -> Option<Moment>
        requires time { IsTimeOf zones.zones.now time }
        requires shown { IsStretched (clock_of (clocks_in zones) time) shown }
        requires short { IsLasting duration }
        requires late { occurrence_first ≤ℤ start }
        requires early { start <ℤ window_last }
        requires spans { AreSpansOf (clock_of (clocks_in zones) time) spans.old }
        ensures spans { AreSpansOf (clock_of (clocks_in zones.entry) time) spans.new }
        ensures value { IfSome result (λ end. end ≡ later_by (clock_of (clocks_in zones.entry) time) duration start) }
        ensures early { IfSome result (λ end. end <ℤ (window_last +ℤ lasts_most)) }
    {
        if is_in(shown, start + shown.offset) {
            let local = start + seconds_on(shown.shown, duration.days);
            let ends = self.stretch(spans, zones, time, local, start);
            if is_in(ends, local) {
                return Some(local - ends.offset + duration.seconds as i64);
            }
        }
        None
    }

    /// The end of the occurrence with a start, if stretches tell it. One may tell of the start.
    pub(crate) fn end(
        &mut self,
        spans: &mut Option<Spans>,
        zones: FileZones<'_>,
        event: &Event,
        start: Start,
        shown: Stretch,
    ) -> Option<Moment>
        requires event { IsOwnEvent zones event.now }
        requires start { IsStartIn zones start }
        requires shown { IsStretched (clock_of (clocks_in zones) event.now.start) shown }
        requires early { start.moment <ℤ window_last }
        requires spans { AreSpansOf (clock_of (clocks_in zones) event.now.start) spans.old }
        ensures spans { AreSpansOf (clock_of (clocks_in zones.entry) event.entry.now.start) spans.new }
        ensures told { IfSome result (IsFinish (clocks_in zones.entry) event.entry.now start) }
    {
        let Rdate::At(given) = start.given else {
            return None;
        };
        let first = event.start;
        match (first.stamp, event.length) {
            (Stamp::Date(_), _) => None,
            (_, Length::Lasting(duration)) => {
                if have_one_clock(given, first) {
                    let end = self.later_by(spans, zones, first, shown, duration, start.moment)?;
                    return Some(start.moment.max(end));
                }
                None
            }
            _ => None,
        }
    }
}
