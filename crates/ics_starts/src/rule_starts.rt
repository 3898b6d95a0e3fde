//! The starts that the rule of an event gives, read one UTC day at a time.
ghost use Rattle.std.specs.Prelude.{◌≡◌, ◌≤◌, ◌<ℤ◌, ◌≤ℤ◌, ◌+ℤ◌, ◌&&◌, ℤ, [], pos, true, int_lt, IfOk, OnErr, OnOk, Some};
ghost use Rattle.jiff_core.specs.Calendar.{IsBetween, IsWithin};
ghost use Rattle.ics_fields.specs.Days.{IsDayNumber};
ghost use Rattle.ics_rule.specs.Cursors.{place_of, IsCursorOf};
ghost use Rattle.ics_rule.specs.Kept.{is_kept};
ghost use Rattle.ics_rule.specs.Next.{NoneKept};
ghost use Rattle.ics_fields.specs.Locals.{number, year_number, year_seconds};
ghost use Rattle.ics_zone.specs.Seconds.{IsMoment};
ghost use Rattle.ics_listing.specs.StartOrder.{moment_cmp};
ghost use Rattle.ics_listing.specs.FileClocks.{Clock, Clocks};
ghost use Rattle.ics_starts.specs.Found.{start_at};
ghost use Rattle.ics_starts.specs.RuleMarks.{IsBegun};
ghost use Rattle.ics_starts.specs.Inner.KeptLocals.{kept-of-prop, IsKeptOf};
ghost use Rattle.ics_starts.specs.Quiet.{beyond-prop, AreBeyond};
ghost use Rattle.ics_listing.specs.Rising.{Rises, Rises-prop};
ghost use Rattle.ics_starts.specs.Clocks.{clock_of, instant, AreSpansOf, IsBounded, IsStretched};
ghost use Rattle.ics_starts.specs.RuleStarts.{gives, lets_until, midnight_number, read_from, settled_from, with_held};
ghost use Rattle.ics_starts.specs.RuleStarts.{AreHeld, HasLookedTo, IsReadTo};
ghost use Rattle.ics_starts.specs.RuleStartLaws.{cursor-prop, held-prop, looked-prop, none-prop, read-to-prop, rule-of-prop, stretched-prop, IsRuleOf};
ghost use Rattle.ics_listing.specs.StartTimes.{local_of, time_at};
ghost use Rattle.ics_starts.specs.Starts.{recurrence_of};
ghost use Rattle.ics_starts.specs.FileZones.{clocks_in, IsTimeOf};
ghost use Rattle.ics_listing.specs.Waiting.{starts_in, waiting_in};
ghost use Rattle.ics_period.specs.PeriodNumbers.{rules_end};

use crate::exclusion::Exclusions;
use crate::instants::{
    DAYS, are_made_for, bounds, instant_in, is_in, no_stretch, stretch, stretch_by, told_by,
    turns_often,
};
use crate::kept_locals::{
    KeptLocals, end, go_on, is_searched, keep_cursor, known_next, leave, next, quiet, times_of_day,
};
use crate::lasting::day_of;
use crate::listed::lesser_past;
use crate::mark::{Mark, begin, is_counted};
use crate::shared_rule::SharedRule;
use crate::starts::{end_nearby, is_until};
use crate::told_ends::are_told;
use crate::zones::FileZones;
use ics_event::{Event, Length, Time};
use ics_fields::{Frequency, Parts};
use ics_listing::{Queue, Start, Waiting, Window, local_of, time_at};
use ics_rule::{Cursor, Rule};
use ics_values::{Local, Moment, Stamp, is_zoned};
use ics_zone::{Bounds, Spans, Stretch};
use std::alloc::{AllocError, Global};

/// Kept locals that are nearer to one another than these seconds are worth a stretch.
const CLOSE: u16 = 3_600;

/// So are those of an event whose ends are told by stretches.
const NEAR: u16 = 4 * 3_600;

/// Spans that are made for fewer locals take longer than the questions that they save.
const MANY: i64 = 512;

/// For fewer than these they do also where the clock itself tells no stretch.
const SOME: i64 = 64;

/// So many locals of a zone that may turn often are read without new spans where the last ones saved fewer questions, which take as long.
const TOLD: u16 = 64;

/// How many seconds pass before spans are made again then.
const LATER: i64 = 128 * 86_400;

/// The number of the local 1970-01-01T00:00:00.
const EPOCH: i64 = 62_167_219_200;

/// The seconds of the local 9801-01-01T00:00:00, from which on no rule keeps one.
const LAST: i64 = 247_122_489_600;

const DAY: i64 = 86_400;

/// How many seconds pass before the clock is asked anew, where it tells no stretch.
const MINUTE: i64 = 60;

/// A local that is no more seconds than these behind the window comes soon.
const SOON: i64 = 2 * DAY;

/// The starts that a rule gives before a window's end. All locals before the midnight of `day` have
/// been read, and so have those whose seconds are before `next`. Those of their starts that were not
/// given yet are held.
#[derive(Drop)]
pub(crate) struct RuleStarts<'a> {
    zones: FileZones<'a>,
    event: &'a Event,
    window: Window,
    rule: SharedRule,
    /// What is known of the rule by the searches of the days before.
    kept: Option<Box<KeptLocals<'a>>>,
    /// Two offsets between which the clock of DTSTART stays.
    bounds: Bounds,
    /// The local at which the cursor began.
    from: Local,
    cursor: Cursor,
    /// The number of its place.
    place: u64,
    /// The rule keeps no local from this number on and before `none_to`, as its parts tell.
    none_from: u64,
    none_to: Local,
    day: i32,
    /// No period was looked at for a local from this day on. It is `day` or, while that is read, the next.
    asked: i32,
    /// No local from this day on gives a start.
    end: i32,
    next: Moment,
    /// A stretch of locals that the clock of DTSTART shows by one offset.
    stretch: Stretch,
    /// Spans of that clock near the locals that are read, if it told no stretch that is far.
    spans: Option<Spans>,
    /// How many questions there were since spans were made last, in all searches of the rule.
    told: u16,
    /// Locals that are nearer to one another than these seconds are close.
    close: u16,
    /// For so many days from that of a kept local on the rule most likely keeps no other.
    apart: i32,
    held: Queue,
    /// None of the locals read so far that are at the window's end or later is before this instant.
    beyond: Moment,
    ghost rule_of: { IsRuleOf zones event.now window rule bounds end } by { rule-of-prop zones event.now window rule bounds end },
    ghost rises: { Rises moment_cmp (starts_in event.now.start held) } by { Rises-prop moment_cmp (starts_in event.now.start held) },
    ghost are: { AreHeld (clocks_in zones) event.now rule window asked (starts_in event.now.start held) } by { held-prop (clocks_in zones) event.now rule
        window asked (starts_in event.now.start held) },
    ghost past_end: { AreBeyond (clocks_in zones) event.now rule window (number from) (place_of cursor) beyond } by { beyond-prop (clocks_in zones)
        event.now rule window (number from) (place_of cursor) beyond },
    ghost stretched: { IsStretched (clock_of (clocks_in zones) event.now.start) stretch } by { stretched-prop (clock_of (clocks_in zones) event.now.start)
        stretch },
    ghost spanned: { AreSpansOf (clock_of (clocks_in zones) event.now.start) spans },
    ghost own: { IsCursorOf rule cursor } by { cursor-prop rule cursor },
    ghost looked: { HasLookedTo rule from asked cursor } by { looked-prop rule from asked cursor },
    ghost placed: { place ≡ place_of cursor },
    ghost known: { IsKeptOf event.now kept } by { kept-of-prop event.now kept },
    ghost reached: { IsReadTo day asked end next (place_of cursor) } by { read-to-prop day asked end next (place_of cursor) },
    ghost early: { midnight_number end ≤ rules_end },
    ghost none: { NoneKept rule none_from (number none_to) } by { none-prop rule none_from (number none_to) },
    ghost none_day: { IsDayNumber none_to.day },
}

/// Whether the instant of a local is before the window's end and, unless the local is the first, not after UNTIL.
fn is_let_through(rule: &Rule, window: Window, first: Local, local: Local, moment: Moment) -> bool
    requires first { IsDayNumber first.day }
    requires local { IsDayNumber local.day }
    requires start { number rule.now.start ≡ number first }
    ensures { result ≡ (lets_until rule.now (number local) moment && int_lt moment window.to) }
{
    let first = local == first;
    let until = is_until(rule.until_moment(), moment);
    let early = moment < window.to;
    (first | until) & early
}

/// Holds the start that a kept local gives, unless one at its instant is held already.
fn hold(
    held: &mut Queue,
    event: &Event,
    rule: &Rule,
    window: Window,
    waiting: Waiting,
) -> Result<(), AllocError>
    requires rises { Rises moment_cmp (starts_in event.now.start held.old) }
    requires kept { is_kept rule.now (number waiting.local) ≡ true }
    requires day { IsDayNumber waiting.local.day }
    requires first { number rule.now.start ≡ number (local_of event.now.start.stamp) }
    ensures held { OnOk result ((clocks : Clocks) → waiting.moment ≡ instant clocks (time_at event.entry.now.start waiting.local)
        → starts_in event.entry.now.start held.new ≡ with_held (gives clocks event.entry.now rule.entry.now window (number waiting.local))
        (start_at clocks event.entry.now waiting.local) (starts_in event.entry.now.start held.old)) }
    ensures same { OnErr result (starts_in event.entry.now.start held.new ≡ starts_in event.entry.now.start held.old) }
{
    let first = local_of(event.start.stamp);
    if is_let_through(rule, window, first, waiting.local, waiting.moment) {
        held.put(waiting)?;
    }
    Ok(())
}

/// Whether a rule keeps at most one local of a day, as its parts tell at once: they name one hour, minute and second, as far as FREQ leaves them open.
fn is_once_a_day(parts: &Parts) -> bool {
    let (no_hours, no_minutes) = (parts.hours.is_empty(), parts.minutes.is_empty());
    let is_open = match parts.frequency {
        Frequency::Hourly => no_hours,
        Frequency::Minutely => no_hours || no_minutes,
        Frequency::Secondly => no_hours || no_minutes || parts.seconds.is_empty(),
        _ => false,
    };
    !is_open && times_of_day(parts) == 1
}

/// Whether an event begins at a time of a day on which it ends.
fn ends_at_once(event: &Event) -> bool {
    match (event.start.stamp, event.length) {
        (Stamp::Date(_), _) => false,
        (_, Length::Open) => true,
        (first, Length::Until(end)) => day_of(end.stamp) <= day_of(first),
        (first, Length::Lasting(duration)) => {
            let begin = u64::from(local_of(first).second);
            duration.days == 0 && duration.seconds.saturating_add(begin) <= 86_400
        }
    }
}

/// For how many days from that of a kept local on the rule of an event most likely keeps no other, as its parts tell at once. A question for the next
/// is worth its place so long.
fn days_apart(event: &Event) -> i32 {
    let Some(rule) = &event.rule else {
        return 0;
    };
    let parts = rule.parts();
    let are_apart = match parts.frequency {
        Frequency::Yearly | Frequency::Monthly => true,
        Frequency::Weekly => parts.interval > 1 || parts.weekdays.is_empty(),
        Frequency::Daily => false,
        _ => is_once_a_day(parts),
    };
    if are_apart {
        return i32::MAX;
    }
    i32::from(is_once_a_day(parts) && ends_at_once(event))
}

/// Drops all that waits. Room that is held for it stays where nothing does.
fn clear(held: &mut Queue, alloc: Global)
    ensures { waiting_in held.new ≡ [] }
{
    if held.len() > 0 {
        *held = Queue::new(alloc);
    }
}

/// The seconds of the first local that can be read, of those of a day and later ones of which none is before one in seconds. A date is read at its
/// midnight.
fn read_from(start: Stamp, day: i32, next: Moment) -> Moment
    ensures { result ≡ read_from start day next }
{
    match start {
        Stamp::Date(_) => Local::at(day, 0).seconds(),
        _ => next,
    }
}

/// The end, in seconds, of the locals from one on that a stretch shows at instants before another. If the first is before the stretch, there is
/// none.
fn shown_before(stretch: Stretch, next: Moment, moment: Moment) -> Moment
    requires moment { IsWithin 1_000_000_000_000 moment }
    requires short { IsWithin 93_599 stretch.offset }
    ensures early { (clock : Clock) → IsStretched clock stretch → (local : ℤ) → next ≤ℤ local → local <ℤ result → clock.moment local <ℤ moment }
    ensures near { result ≤ℤ (moment +ℤ pos 93_599) }
{
    if next < stretch.from {
        return Moment::MIN;
    }
    stretch.to.min(moment + stretch.offset)
}

/// An instant that is before those of all locals from one on, of which a stretch is known, on a clock that is at most so many seconds ahead of UTC.
fn settled_from(stretch: Stretch, most: i64, local: Moment) -> Moment
    requires most { IsWithin 93_599 most }
    requires short { IsWithin 93_599 stretch.offset }
    requires local { IsBetween (year_seconds 0) (year_seconds 10_000) local }
    ensures { result ≡ settled_from stretch most local }
{
    if is_in(stretch, local) {
        let reached = (local - stretch.offset + most).min(stretch.to);
        return reached - most - 1;
    }
    local - most - 1
}

/// The end, in seconds, of the locals from one on that a stretch shows at an instant or later.
fn shown_from(stretch: Stretch, next: Moment, moment: Moment) -> Moment
    requires next { IsBetween (year_seconds 0) (year_seconds 10_000) next }
    requires short { IsWithin 93_599 stretch.offset }
    ensures { (clock : Clock) → IsStretched clock stretch → (local : ℤ) → next ≤ℤ local → local <ℤ result → moment ≤ℤ clock.moment local }
{
    if next < stretch.from {
        return next;
    }
    let means = next - stretch.offset;
    if means < moment {
        return next;
    }
    stretch.to
}

/// The seconds from which on kept locals of an event are worth no stretch, if they are so far apart.
fn close_of(event: &Event) -> u16 {
    if are_told(event) { NEAR } else { CLOSE }
}

/// The local, in seconds, from which on a search that begins at one asks for stretches: one that began no later may have found that spans save few
/// questions.
fn asks_from(known: Stretch, before: Local, from: Local, next: Moment) -> Moment {
    let may_know = known.to <= known.from && before.seconds() <= from.seconds();
    if may_know { next.max(known.to) } else { next }
}

/// Whether new spans, which were made for a local, given by its seconds, save few questions. They save many if they were made for many later ones, so many
/// seconds apart, or for some and for days where the clock itself tells no stretch.
fn are_few(
    zones: FileZones<'_>,
    time: Time,
    spans: &Option<Spans>,
    local: Moment,
    step: Moment,
) -> bool
    requires time { IsTimeOf zones.zones.now time }
    requires local { IsMoment local }
{
    if are_made_for(spans, local.saturating_add(step.saturating_mul(MANY))) {
        return false;
    }
    let near = local.saturating_add(step.saturating_mul(SOME).max(DAYS));
    !are_made_for(spans, near) || is_in(stretch(zones, time, local), local)
}

/// A stretch for which the clock is asked, about a local, given by its seconds. The clock of a zone that may turn often is asked anew only after so many
/// questions that spans pay. Where they are made for few locals so many seconds apart, none are made for some time.
#[inline(never)]
fn asked_at(
    zones: FileZones<'_>,
    time: Time,
    spans: &mut Option<Spans>,
    told: &mut u16,
    local: Moment,
    step: Moment,
) -> Stretch
    requires time { IsTimeOf zones.zones.now time }
    requires local { IsMoment local }
    requires spans { AreSpansOf (clock_of (clocks_in zones) time) spans.old }
    ensures spans { AreSpansOf (clock_of (clocks_in zones.entry) time) spans.new }
    ensures stretch { IsStretched (clock_of (clocks_in zones.entry) time) result }
{
    let are_known = are_made_for(spans, local);
    if !are_known && *told < TOLD && turns_often(zones, time) {
        *told = told.saturating_add(1);
        return no_stretch(local + 1);
    }
    let stretch = stretch_by(zones, time, spans, local);
    if are_known || !are_made_for(spans, local) {
        *told = told.saturating_add(1);
    } else {
        *told = 0;
        if are_few(zones, time, spans, local, step) {
            return no_stretch(local + LATER);
        }
    }
    if is_in(stretch, local) {
        stretch
    } else {
        no_stretch(local + MINUTE)
    }
}

/// Keeps the stretch by which a local, given by its seconds, is read: the known one or, if the clock is asked, another.
#[inline(always)]
fn keep_stretch(
    zones: FileZones<'_>,
    time: Time,
    stretch: &mut Stretch,
    spans: &mut Option<Spans>,
    told: &mut u16,
    local: Moment,
    step: Moment,
    asks: bool,
)
    requires time { IsTimeOf zones.zones.now time }
    requires local { IsMoment local }
    requires known { IsStretched (clock_of (clocks_in zones) time) stretch.old }
    requires spans { AreSpansOf (clock_of (clocks_in zones) time) spans.old }
    ensures spans { AreSpansOf (clock_of (clocks_in zones.entry) time) spans.new }
    ensures stretch { IsStretched (clock_of (clocks_in zones.entry) time) stretch.new }
{
    if asks {
        *stretch = asked_at(zones, time, spans, told, local, step);
    }
}

impl<'a> RuleStarts<'a> {
    ghost use Rattle.std.specs.Prelude.{◌≡◌, ◌+◌, ◌-◌, ◌-ℤ◌, ◌<◌, ◌≤ℤ◌, ℕ, false, length, max, slice_get, IfOk, MatchOption, OnOk, Some};
    ghost use Rattle.ics_rule.specs.Cursors.{steps_of};
    ghost use Rattle.ics_listing.specs.Listing.{IsIn};
    ghost use Rattle.ics_listing.specs.Merged.{cut};
    ghost use Rattle.ics_starts.specs.RuleFeed.{held_in, is_unsettled, settled_in, starts_left, HasEnded, HasLeapt, HasSameSource, HasSkipped};
    ghost use Rattle.ics_starts.specs.RuleFeed.{AreTakenOut, HasStayed, IsAmid, IsEarlier, IsPast};
    ghost use Rattle.ics_fields.specs.Locals.{local_seconds};
    ghost use Rattle.ics_starts.specs.RuleStarts.{found, is_ready, moment_numbered, steps_left, to_come};
    ghost use Rattle.ics_starts.specs.FileZones.{IsOwnEvent};
    ghost use Rattle.ics_starts.specs.RuleMarks.{IsCountMark, IsMarked};
    ghost use Rattle.ics_starts.specs.Quiet.{AreQuiet};

    /// The starts by the locals from a given one on. Under COUNT the locals before a mark are not counted again.
    pub(crate) fn new(
        alloc: Global,
        zones: FileZones<'a>,
        event: &'a Event,
        window: Window,
        rule: SharedRule,
        from: Local,
        mark: Option<Mark>,
        kept: Option<Box<KeptLocals<'a>>>,
    ) -> Self
        requires kept { IsKeptOf event.now kept }
        requires event { IsOwnEvent zones event.now }
        requires rule { recurrence_of event.now ≡ Some rule }
        requires from { IsDayNumber from.day }
        requires mark { MatchOption mark (Unit {0}) (IsCountMark rule) }
        ensures left { starts_left result ≡ found (clocks_in zones.entry) event.entry.now rule window (number from) }
        ensures zones { result.zones ≡ zones.entry }
        ensures event { result.event ≡ event.entry }
        ensures window { result.window ≡ window }
        ensures rule { result.rule ≡ rule }
        ensures from { result.from ≡ from }
        ensures begun { IsBegun result.rule result.from result.cursor }
    {
        let bounds = bounds(zones, event.start);
        let end = end_nearby(
            &window,
            rule.get().until_moment(),
            event.start.stamp,
            bounds.most,
        );
        let day = from.day.min(end);
        let mut cursor = Cursor::at(rule.get(), from);
        begin(&mut cursor, rule.get(), from, end, mark.as_ref());
        let place = from.number();
        let next = Local::at(day, 0).seconds();
        RuleStarts {
            zones,
            event,
            window,
            rule,
            kept,
            bounds,
            from,
            cursor,
            place,
            none_from: place,
            none_to: from,
            day,
            asked: day,
            end,
            next,
            stretch: no_stretch(next),
            spans: None,
            told: TOLD,
            close: close_of(event),
            apart: days_apart(event),
            held: Queue::new(alloc),
            beyond: Moment::MAX,
        }
    }

    /// Begins a search of the same rule anew, for the starts by the locals from a given one on.
    pub(crate) fn again(
        &mut self,
        alloc: Global,
        zones: FileZones<'a>,
        event: &'a Event,
        window: Window,
        from: Local,
        mark: Option<&Mark>,
    )
        requires event { IsOwnEvent zones event.now }
        requires same { self.old.event.now ≡ event.now }
        requires from { IsDayNumber from.day }
        requires mark { MatchOption mark (Unit {0}) (λ m. IsCountMark self.old.rule m.now) }
        ensures left { starts_left self.new ≡ found (clocks_in zones.entry) event.entry.now self.old.rule window (number from) }
        ensures zones { self.new.zones ≡ zones.entry }
        ensures event { self.new.event ≡ event.entry }
        ensures window { self.new.window ≡ window }
        ensures from { self.new.from ≡ from }
        ensures begun { IsBegun self.new.rule self.new.from self.new.cursor }
    {
        let bounds = bounds(zones, event.start);
        let until = self.rule.get().until_moment();
        let end = end_nearby(&window, until, event.start.stamp, bounds.most);
        let day = from.day.min(end);
        let next = Local::at(day, 0).seconds();
        let place = from.number();
        let asks = asks_from(self.stretch, self.from, from, next);
        let rule = self.rule.get();
        go_on(
            &mut self.kept,
            &mut self.cursor,
            rule,
            self.from,
            self.place,
            self.asked,
            from,
            end,
            mark,
        );
        self.zones = zones;
        self.event = event;
        self.window = window;
        self.bounds = bounds;
        self.from = from;
        self.place = place;
        self.none_from = place;
        self.none_to = from;
        self.day = day;
        self.asked = day;
        self.end = end;
        self.next = next;
        self.stretch = no_stretch(asks);
        self.spans = None;
        self.beyond = Moment::MAX;
        clear(&mut self.held, alloc);
    }

    /// The first held start.
    pub(crate) fn first(&self) -> Option<Start>
        ensures { result ≡ slice_get (held_in self.now) 0 }
    {
        let event = self.event;
        match self.held.first() {
            None => None,
            Some(first) => Some(first.start(event.start)),
        }
    }

    /// An instant that is before those of all locals to be read.
    fn settled(&self) -> Moment
        ensures { result ≡ settled_in self.now }
    {
        let event = self.event;
        let first = read_from(event.start.stamp, self.day, self.next);
        settled_from(self.stretch, self.bounds.most, first)
    }

    /// Whether the first held start is not after an instant.
    fn is_ready(&self, settled: Moment) -> bool
        ensures { result ≡ is_ready settled (held_in self.now) }
    {
        match self.held.first() {
            None => false,
            Some(first) => first.moment <= settled,
        }
    }

    /// Whether another local has to be read before the first start still to come is known.
    fn is_behind(&self) -> bool
        ensures { result ≡ is_unsettled self.now }
    {
        let settled = self.settled();
        // What is left can still be before the window's end.
        let is_open = (self.day < self.end) & (settled < self.window.to - 1);
        is_open && !self.is_ready(settled)
    }

    /// The day up to which the cursor searches next: the end if nothing is held, else the next day. What is
    /// held belongs to the days about its midnight too.
    fn bound(&self) -> i32
        requires { is_unsettled self.now ≡ true }
        ensures later { self.now.day <ℤ result }
        ensures within { result ≤ℤ self.now.end }
        ensures held { AreHeld (clocks_in self.now.zones) self.now.event.now self.now.rule self.now.window result (held_in self.now) }
    {
        if self.held.len() == 0 {
            self.end
        } else {
            self.day + 1
        }
    }

    /// Whether the clock is asked for a stretch about a local that the rule keeps next, given by its seconds: it is past the known one, and kept locals
    /// follow each other closely on its day, of which one was read.
    fn asks_at(&self, local: Moment) -> bool {
        let midnight = (i64::from(self.day) + 1) * DAY;
        let is_read = self.day < self.asked && local < midnight;
        is_read && local < self.next + i64::from(self.close) && self.stretch.to <= local
    }

    /// Reads up to the next kept local but, if a start is held, not past the end of the day.
    fn read_on(&mut self) -> Result<(), AllocError>
        requires { is_unsettled self.old ≡ true }
        ensures same { starts_left self.new ≡ starts_left self.old }
        ensures source { HasSameSource self.old self.new }
        ensures less { OnOk result (steps_left self.new.day self.new.end (place_of self.new.cursor)
            < steps_left self.old.day self.old.end (place_of self.old.cursor)) }
    {
        let bound = self.bound();
        let to = Local::at(bound, 0);
        // The cursor moves only once its local is held, so that none is lost.
        let mut cursor = self.cursor;
        match next(&mut self.kept, &mut cursor, self.place, self.rule.get(), to) {
            None => {
                let midnight = to.seconds();
                self.cursor = cursor;
                self.place = self.place.max(to.number());
                self.day = bound;
                self.asked = bound;
                self.next = midnight;
                Ok(())
            }
            Some(local) => {
                let seconds = local.seconds();
                let event = self.event;
                let asks = self.asks_at(seconds);
                keep_stretch(
                    self.zones,
                    event.start,
                    &mut self.stretch,
                    &mut self.spans,
                    &mut self.told,
                    seconds,
                    seconds.saturating_sub(self.next).saturating_add(1),
                    asks,
                );
                let time = time_at(event.start, local);
                let moment = instant_in(self.zones, self.stretch, time);
                let waiting = Waiting { moment, local };
                hold(&mut self.held, event, self.rule.get(), self.window, waiting)?;
                let is_past = (self.window.to <= moment) & (self.beyond == Moment::MAX);
                keep_cursor(
                    &mut self.kept,
                    self.rule.get(),
                    self.from,
                    &self.cursor,
                    self.place,
                    self.asked,
                    is_past,
                );
                self.cursor = cursor;
                self.place = local.number() + 1;
                self.day = local.day;
                self.asked = local.day + 1;
                self.next = seconds + 1;
                self.beyond = lesser_past(self.window.to, self.beyond, moment);
                Ok(())
            }
        }
    }

    /// The end, in seconds, of the next locals that mean instants at the window's end or later, and no earlier than `beyond`.
    fn past_end(&self) -> Moment
        ensures { (n : ℕ) → place_of self.now.cursor ≤ n → pos n <ℤ (result +ℤ pos (year_number 1_970))
            → IsPast self.now.window.to self.now.beyond self.now n }
    {
        let event = self.event;
        match event.start.stamp {
            Stamp::Date(_) => self.next,
            _ => shown_from(self.stretch, self.next, self.window.to.max(self.beyond)),
        }
    }

    /// Passes over the next locals that give nothing, since they are past the window's end, and of which `beyond` knows enough.
    fn pass_end(&mut self)
        ensures same { starts_left self.new ≡ starts_left self.old }
        ensures source { HasSameSource self.old self.new }
        ensures less { steps_left self.new.day self.new.end (place_of self.new.cursor)
            ≤ steps_left self.old.day self.old.end (place_of self.old.cursor) }
    {
        if self.stretch.to <= self.next {
            return;
        }
        let end = Local::at(self.end, 0).seconds();
        let past = self.past_end();
        let last = past.min(end);
        if self.next < last {
            self.cursor.pass(self.rule.get(), Local::of_seconds(last));
            self.place = self.place.max((last + EPOCH) as u64);
            self.next = last;
        }
    }

    /// Passes over all locals to be read, if something is known of the rule, a local was read, and the parts of the rule tell that it keeps no other
    /// before the end. Whether they do. They tell it for the time after that too. Where they do not, the cursor knows where the next search begins.
    fn pass_rest(&mut self) -> bool
        requires { is_unsettled self.old ≡ true }
        ensures left { starts_left self.new ≡ starts_left self.old }
        ensures source { HasSameSource self.old self.new }
        ensures rest { result ≡ true → is_unsettled self.new ≡ false }
        ensures same { result ≡ false → steps_left self.new.day self.new.end (place_of self.new.cursor)
            ≡ steps_left self.old.day self.old.end (place_of self.old.cursor) }
        ensures behind { result ≡ false → is_unsettled self.new ≡ true }
    {
        if !is_searched(&self.kept) || self.asked <= self.day {
            return false;
        }
        let bound = self.bound();
        if bound < self.end {
            return false;
        }
        if self.apart < bound.saturating_sub(self.day) {
            return false;
        }
        let to = Local::at(bound, 0);
        let next = self.cursor.quiet(self.rule.get());
        if next.number() < to.number() {
            return false;
        }
        self.cursor.pass(self.rule.get(), to);
        self.none_from = self.place;
        self.none_to = next;
        self.place = self.place.max(to.number());
        self.day = bound;
        self.asked = bound;
        self.next = to.seconds();
        true
    }

    /// Reads up to the next local, if the first of the starts still to come is not known. Whether it may still not be.
    pub(crate) fn read_next(&mut self) -> Result<bool, AllocError>
        ensures same { starts_left self.new ≡ starts_left self.old }
        ensures source { HasSameSource self.old self.new }
        ensures ready { IfOk result (λ more. more ≡ false → is_unsettled self.new ≡ false) }
        ensures less { IfOk result (λ more. more ≡ true → steps_left self.new.day self.new.end (place_of self.new.cursor)
            < steps_left self.old.day self.old.end (place_of self.old.cursor)) }
    {
        if !self.is_behind() || self.pass_rest() {
            return Ok(false);
        }
        self.read_on()?;
        self.pass_end();
        Ok(true)
    }

    /// Whether the rule keeps locals close to one another, of which another has to be read.
    pub(crate) fn is_dense(&self) -> bool {
        self.next < self.stretch.to && self.is_behind()
    }

    /// Drops the first of the starts still to come, if it is at the instant of this one. It is known.
    pub(crate) fn pass(&mut self, start: &Start)
        requires { is_unsettled self.old ≡ false }
        ensures left { starts_left self.new ≡ cut moment_cmp start.now (starts_left self.old) }
        ensures source { HasSameSource self.old self.new }
        ensures asked { self.new.asked ≡ self.old.asked }
    {
        match self.held.first() {
            None => {}
            Some(first) => {
                if first.moment == start.moment {
                    self.held.drop_first();
                }
            }
        }
    }

    /// The end, in seconds, of the next locals that mean instants before one.
    fn end_before(&self, moment: Moment) -> Moment
        requires { IsWithin 1_000_000_000_000 moment }
        ensures early { (n : ℕ) → place_of self.now.cursor ≤ n → pos n <ℤ (result +ℤ pos (year_number 1_970)) → IsEarlier moment self.now n }
        ensures near { result ≤ℤ (moment +ℤ pos 93_599) }
    {
        let event = self.event;
        // The instant of a local is not after the local less the least offset.
        let bounded = moment + self.bounds.least;
        match event.start.stamp {
            Stamp::Date(_) => bounded,
            _ => bounded.max(shown_before(self.stretch, self.next, moment)),
        }
    }

    /// Passes over locals before one in seconds: the next ones that mean an instant before the window's end. What later ones give is known to
    /// `beyond` only if they are read.
    fn pass_to(&mut self, to: Moment)
        ensures left { starts_left self.new ≡ to_come (clocks_in self.old.zones) self.old.event.now self.old.rule self.old.window (held_in self.old)
            (place_of self.new.cursor) }
        ensures on { place_of self.old.cursor ≤ place_of self.new.cursor }
        ensures passed { (n : ℕ) → place_of self.old.cursor ≤ n → n < place_of self.new.cursor → pos n <ℤ (to +ℤ pos (year_number 1_970)) }
        ensures source { HasSameSource self.old self.new }
        ensures day { self.new.day ≡ self.old.day }
    {
        let end = self.end_before(self.window.to);
        let last = to.min(end);
        if self.next < last {
            self.cursor.pass(self.rule.get(), Local::of_seconds(last));
            self.place = self.place.max((last + EPOCH) as u64);
            self.next = last;
        }
    }

    /// The end, in seconds, of the locals from one on at which the clock shows a removed day. Of dates no day is removed, but the instant of
    /// its midnight.
    fn removed_days(&self, exclusions: &Exclusions, from: Moment) -> Moment
        requires { IsBetween (year_seconds 0) (year_seconds 10_000) from }
        ensures { AreTakenOut exclusions.now.instants.items exclusions.now.days.items self.now from result }
    {
        let event = self.event;
        match event.start.stamp {
            Stamp::Date(_) => from,
            _ => exclusions.skips(from, self.bounds, self.stretch),
        }
    }

    /// The same by a stretch about the first of them, for which the clock is asked.
    fn removed_day(&mut self, exclusions: &Exclusions, local: Moment) -> Moment
        requires moment { IsMoment local }
        requires years { IsBetween (year_seconds 0) (year_seconds 10_000) local }
        ensures removed { AreTakenOut exclusions.now.instants.items exclusions.now.days.items self.old local result }
        ensures same { HasStayed self.old self.new }
    {
        let event = self.event;
        let asks = self.stretch.to <= local;
        keep_stretch(
            self.zones,
            event.start,
            &mut self.stretch,
            &mut self.spans,
            &mut self.told,
            local,
            0,
            asks,
        );
        match event.start.stamp {
            Stamp::Date(_) => local,
            _ => exclusions.skips_in(local, self.stretch),
        }
    }

    /// The end, in seconds, of the locals from one on whose starts EXDATEs remove: of those on removed days or, if only the start of the first is
    /// removed, of this one. If that is not removed, its own seconds.
    fn removed_at(&mut self, exclusions: &Exclusions, local: Local) -> Moment
        requires day { IsDayNumber local.day }
        requires early { local.day <ℤ self.old.end }
        requires kept { is_kept self.old.rule (number local) ≡ true }
        ensures removed { AreTakenOut exclusions.now.instants.items exclusions.now.days.items self.old (local_seconds local) result }
        ensures same { HasStayed self.old self.new }
    {
        let seconds = local.seconds();
        let event = self.event;
        let to = self.removed_day(exclusions, seconds);
        if seconds < to {
            return to;
        }
        let moment = instant_in(self.zones, self.stretch, time_at(event.start, local));
        if exclusions.has_instant(moment) {
            seconds + 1
        } else {
            seconds
        }
    }

    /// The end, in seconds, of the locals from one on of which EXDATEs remove all that the rule keeps: where the next one that it keeps is known,
    /// from that on, else of those on removed days.
    fn removed_from(&mut self, exclusions: &Exclusions, from: Moment) -> Moment
        requires { IsBetween (year_seconds 0) (year_seconds 10_000) from }
        ensures removed { AreTakenOut exclusions.now.instants.items exclusions.now.days.items self.old from result }
        ensures same { HasStayed self.old self.new }
    {
        match known_next(&mut self.kept, self.rule.get(), (from + EPOCH) as u64) {
            None => self.removed_days(exclusions, from),
            Some(local) => {
                if self.end <= local.day {
                    return from;
                }
                let to = self.removed_at(exclusions, local);
                if to <= local.seconds() {
                    return from;
                }
                leave(&mut self.kept);
                to
            }
        }
    }

    /// The end, in seconds, of the next locals of which EXDATEs remove all that the rule keeps, as far as this is known.
    fn removed_to(&mut self, exclusions: &Exclusions) -> Moment
        ensures removed { AreTakenOut exclusions.now.instants.items exclusions.now.days.items self.old self.old.next result }
        ensures same { HasStayed self.old self.new }
    {
        let end = Local::at(self.end, 0).seconds();
        let mut to = self.next;
        while to < end {
            let next = self.removed_from(exclusions, to).min(end);
            if next <= to {
                break;
            }
            to = next;
        }
        to
    }

    /// Passes over the next locals, if EXDATEs remove all of them that the rule keeps. None of them is read.
    pub(crate) fn skip(&mut self, exclusions: &Exclusions)
        ensures { HasSkipped exclusions.now.instants.items exclusions.now.days.items self.old self.new }
    {
        let event = self.event;
        if event.exdates().is_empty() || !self.is_behind() {
            return;
        }
        let to = self.removed_to(exclusions);
        self.pass_to(to);
    }

    /// Passes over the next locals that mean instants before one, up to the window's end. None of them is read.
    pub(crate) fn pass_before(&mut self, moment: Moment)
        ensures { HasEnded moment self.old self.new }
    {
        let most = self.bounds.most;
        let before = moment.min(self.window.to);
        // The instant of a local is not before the local less the greatest offset.
        if self.next - most < before {
            let to = self.end_before(before);
            self.pass_to(to);
        }
    }

    /// Two offsets between which the clock of DTSTART stays.
    pub(crate) fn bounds(&self) -> Bounds
        ensures { IsBounded (clock_of (clocks_in self.now.zones) self.now.event.now.start) result }
    {
        self.bounds
    }

    /// The instant of the next local, if a stretch shows it.
    pub(crate) fn next_shown(&self) -> Moment
        ensures { result ≡ self.now.next -ℤ self.now.stretch.offset }
    {
        self.next - self.stretch.offset
    }

    /// A stretch about a local, given by its seconds, as far as one is known. It may be empty.
    pub(crate) fn shown_at(&self, local: Moment) -> Stretch
        requires { IsMoment local }
        ensures { IsStretched (clock_of (clocks_in self.now.zones) self.now.event.now.start) result }
    {
        if is_in(self.stretch, local) {
            return self.stretch;
        }
        match told_by(&self.spans, local) {
            None => no_stretch(local),
            Some(told) => told,
        }
    }

    /// The stretch of locals that is known.
    pub(crate) fn known_stretch(&self) -> Stretch
        ensures { result ≡ self.now.stretch }
    {
        self.stretch
    }

    /// The end, in seconds, of the next locals that a stretch shows from an instant on and before another.
    fn end_between(&self, from: Moment, to: Moment) -> Moment
        requires { IsWithin 1_000_000_000_000 to }
        ensures { (n : ℕ) → place_of self.now.cursor ≤ n → pos n <ℤ (result +ℤ pos (year_number 1_970)) → IsAmid from to self.now n }
    {
        let event = self.event;
        match event.start.stamp {
            Stamp::Date(_) => self.next,
            _ => {
                let early = shown_before(self.stretch, self.next, to);
                early.min(shown_from(self.stretch, self.next, from))
            }
        }
    }

    /// Passes over the next locals that a stretch shows from an instant on and before another, up to the window's end. None of them is read.
    pub(crate) fn pass_between(&mut self, from: Moment, to: Moment)
        ensures { HasLeapt from to self.old self.new }
    {
        let before = to.min(self.window.to);
        if self.next_shown() < before {
            let to = self.end_between(from, before);
            self.pass_to(to);
        }
    }

    /// An instant before which none of the starts still to come is.
    pub(crate) fn from(&self) -> Moment
        ensures { (start : Start) → IsIn start (starts_left self.now) → result ≤ℤ start.moment }
    {
        let settled = self.settled();
        match self.first() {
            None => settled,
            Some(first) => first.moment.min(settled),
        }
    }

    /// An instant before which no local after DTSTART gives a start, of those from the first that was read
    /// on and at the window's end or later, whatever the window. Under COUNT a mark that knows it may be put.
    pub(crate) fn quiet(&self, mark: &mut Option<Mark>) -> Moment
        ensures to { AreQuiet (clocks_in self.now.zones) self.now.event.now self.now.rule self.now.window (number self.now.from) result }
        ensures mark { IsMarked self.now.rule mark.old mark.new }
    {
        match self.rule.get().until_moment() {
            Some(until) if until < self.window.to => Moment::MAX,
            // What is still to be read is later than what was read.
            _ if self.beyond <= self.settled() => self.beyond,
            _ if self.knows_next() => {
                let to = self.quiet_to(self.none_to);
                self.put_mark(&self.cursor, to, mark);
                to
            }
            _ => {
                let mut cursor = self.cursor;
                let next = quiet(&self.kept, &mut cursor, self.place, self.rule.get());
                let to = self.quiet_to(next);
                self.put_mark(&cursor, to, mark);
                to
            }
        }
    }

    /// Whether it is known how long the rule keeps no local from the place of the cursor on.
    fn knows_next(&self) -> bool
        ensures { result ≡ true → NoneKept self.now.rule (place_of self.now.cursor) (number self.now.none_to) }
    {
        self.none_from <= self.place && self.place < self.none_to.number()
    }

    /// The same instant, where the rule keeps no local from the place of the cursor on and before this one.
    fn quiet_to(&self, next: Local) -> Moment
        requires day { IsDayNumber next.day }
        requires none { NoneKept self.now.rule (place_of self.now.cursor) (number next) }
        ensures { AreQuiet (clocks_in self.now.zones) self.now.event.now self.now.rule self.now.window (number self.now.from) result }
    {
        let settled = self.settled_at(next);
        // They are after a settled instant.
        let after = settled + 1;
        // A local later in its day is on that day by each offset of the clock.
        let is_early = i64::from(next.second) < self.bounds.most - self.bounds.least;
        if is_early && after < self.beyond && self.is_told_by(next.seconds()) {
            return self.quiet_past(next);
        }
        self.beyond.min(after)
    }

    /// Whether more is told by the instant of a local, given by its seconds, and by when it is followed by another, than by the known stretch: the clock
    /// is that of a zone that may turn often, which is asked for no other.
    fn is_told_by(&self, local: Moment) -> bool
        ensures late { result ≡ true → year_seconds 1 ≤ℤ local }
        ensures early { result ≡ true → local <ℤ year_seconds 9_801 }
    {
        let event = self.event;
        let is_late = self.window.to + SOON < local && local < LAST;
        is_late && self.asks_about(local) && turns_often(self.zones, event.start)
    }

    /// The same instant by that of this local itself, and by when the rule may keep a later one.
    #[inline(never)]
    fn quiet_past(&self, next: Local) -> Moment
        requires day { IsDayNumber next.day }
        requires late { year_seconds 1 ≤ℤ local_seconds next }
        requires early { local_seconds next <ℤ year_seconds 9_801 }
        requires none { NoneKept self.now.rule (place_of self.now.cursor) (number next) }
        ensures { AreQuiet (clocks_in self.now.zones) self.now.event.now self.now.rule self.now.window (number self.now.from) result }
    {
        let event = self.event;
        let moment = instant_in(self.zones, self.stretch, time_at(event.start, next));
        let later = self.later_than(next);
        let settled = self.settled_at(later);
        let after = settled + 1;
        self.beyond.min(moment).min(after)
    }

    /// A local before which the rule keeps none behind this one, from the place of the cursor on. If that is the end of this one's day alone, more is
    /// asked about the days behind it.
    fn later_than(&self, local: Local) -> Local
        requires day { IsDayNumber local.day }
        requires early { local_seconds local <ℤ year_seconds 9_801 }
        ensures none { NoneKept self.now.rule (max (place_of self.now.cursor) (number local + 1)) (number result) }
        ensures day { IsDayNumber result.day }
    {
        let behind = local.number() + 1;
        let place = self.place.max(behind);
        let mut cursor = self.cursor;
        cursor.pass(self.rule.get(), Local::numbered(behind));
        let later = quiet(&self.kept, &mut cursor, place, self.rule.get());
        if later.second > 0 || local.day + 1 < later.day {
            return later;
        }
        cursor.pass(self.rule.get(), later);
        quiet(
            &self.kept,
            &mut cursor,
            place.max(later.number()),
            self.rule.get(),
        )
    }

    /// An instant that is before those of all locals from one on.
    #[inline(always)]
    fn settled_at(&self, next: Local) -> Moment
        requires { IsDayNumber next.day }
        ensures after { (n : ℕ) → number next ≤ n → result <ℤ moment_numbered (clocks_in self.now.zones) self.now.event.now n }
        ensures near { result <ℤ pos 1_000_000_000_000 }
    {
        let event = self.event;
        let read = read_from(event.start.stamp, next.day, next.seconds());
        let first = read.min(LAST);
        let stretch = self.stretch_about(first);
        settled_from(stretch, self.bounds.most, first)
    }

    /// Whether a stretch about a local, given by its seconds, is worth a question to the clock, since the known one does not hold it. It is not where the
    /// clock's offsets are no further apart than the local is from the beginning of its day: by each of them it is that day. Nor is that of a zone of the
    /// file about a local that comes soon.
    fn asks_about(&self, local: Moment) -> bool {
        let event = self.event;
        let apart = self.bounds.most - self.bounds.least;
        let time = local.saturating_add(EPOCH) % DAY;
        let is_soon = local <= self.window.to.saturating_add(SOON);
        let is_left = is_soon && is_zoned(event.start.stamp);
        !is_left && time < apart && !is_in(self.stretch, local)
    }

    /// The stretch that is known or, if one about a local, given by its seconds, is worth a question, the one that the clock tells. That of a zone that may
    /// turn often is not asked: a stretch of it takes long.
    fn stretch_about(&self, local: Moment) -> Stretch
        requires { IsMoment local }
        ensures { IsStretched (clock_of (clocks_in self.now.zones) self.now.event.now.start) result }
    {
        let event = self.event;
        if self.asks_about(local) && !turns_often(self.zones, event.start) {
            stretch(self.zones, event.start, local)
        } else {
            self.stretch
        }
    }

    /// Puts a mark of a cursor at the place of the search, if the rule has COUNT, and if nothing begins up to an instant that is so late that a later
    /// search hardly begins before the place.
    fn put_mark(&self, cursor: &Cursor, to: Moment, mark: &mut Option<Mark>)
        requires own { IsCursorOf self.now.rule cursor.now }
        requires place { place_of cursor.now ≡ self.now.place }
        requires looked { HasLookedTo self.now.rule self.now.from self.now.asked cursor.now }
        ensures { IsMarked self.now.rule mark.old mark.new }
    {
        if !is_counted(self.event) {
            return;
        }
        let from = Local::numbered(self.place);
        let days = i64::from(from.day).saturating_sub(i64::from(self.from.day));
        let late = self
            .window
            .to
            .saturating_add(days.saturating_add(2).saturating_mul(DAY));
        if late <= to && self.asked <= from.day {
            *mark = Some(Mark {
                from,
                cursor: *cursor,
            });
        }
    }

    /// Where the search begins, if the rule has COUNT. Nothing was read yet.
    pub(crate) fn mark(&self) -> Option<Mark>
        requires { IsBegun self.now.rule self.now.from self.now.cursor }
        ensures { MatchOption result (Unit {0}) (λ m. IsBegun self.now.rule m.from m.cursor) }
    {
        let event = self.event;
        let _count = event.rule.as_ref()?.parts().count?;
        Some(Mark {
            from: self.from,
            cursor: self.cursor,
        })
    }

    /// Ends the search. What it has found is known to the next.
    pub(crate) fn rest(&mut self)
        ensures left { starts_left self.new ≡ starts_left self.old }
        ensures source { HasSameSource self.old self.new }
    {
        end(&mut self.kept);
    }

    /// How many starts are held.
    pub(crate) fn held(&self) -> usize
        ensures { result ≡ length (held_in self.now) }
    {
        self.held.len()
    }

    /// How many periods of the rule were looked at.
    pub(crate) fn steps(&self) -> u64
        ensures { result ≡ steps_of self.now.cursor }
    {
        self.cursor.steps()
    }
}
