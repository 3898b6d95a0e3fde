//! The listing of a window under each day.
ghost use Rattle.std.specs.Prelude.{◌≡◌, ◌⊎◌, ◌≤◌, ◌+◌, ◌-◌, ◌^◌, ◌≤ℤ◌, ◌<ℤ◌, ◌-ℤ◌, ℕ, ℤ, pos, false, true, length, min};
ghost use Rattle.std.specs.Prelude.{List, [], filter, map, IfOk, IfSome, OnErr, OnOk, None};
ghost use Rattle.std.specs.Prelude.{int_lt};
ghost use Rattle.std.specs.Option.{option_map};
ghost use Rattle.ics_fields.specs.Days.{IsDayNumber};
ghost use Rattle.ics_file.specs.File.{said_by};
ghost use Rattle.ics_listing.specs.FileClocks.{Clock};
ghost use Rattle.ics_starts.specs.Clocks.{display_clock};
ghost use Rattle.ics_listing.specs.DayKeys.{day_key_rank, day_rank_of, after_day_key, on_day_cmp, GivesOnDay, OnDay};
ghost use Rattle.ics_listing.specs.After.{is_after};
ghost use Rattle.ics_series.specs.OnDays.{Begins, IsBehindKey, IsOnDay};
ghost use Rattle.ics_days.specs.ShownDays.{date_at, is_on};
ghost use Rattle.ics_series.specs.DaySteps.{agenda_holds, agenda_looked, agenda_sources, day_and_start, masters_in, scope_by, scope_in, AreDayMasters};
ghost use Rattle.ics_series.specs.DaySteps.{AreMasters, IsNearAgenda, IsPastAgenda, day_of_key, HasDaysBound, IsLookedBefore};
ghost use Rattle.ics_days.specs.NearDays.{first_near, last_near, HasOffsets, IsNearDay};
ghost use Rattle.ics_days.specs.Offsets.{AreOffsets};
ghost use Rattle.ics_listing.specs.Entry.{key_rank, Entry};
ghost use Rattle.ics_zone.specs.Seconds.{IsDay};
ghost use Rattle.ics_series.specs.HeldMost.{held_most};
ghost use Rattle.ics_listing.specs.Listing.{IsIn, IsListing};
ghost use Rattle.ics_series.specs.Inner.Ended.{begins_after};
ghost use Rattle.ics_series.specs.Inner.Kept.{kept-prop, AreKept};
ghost use Rattle.ics_series.specs.Inner.Marks.{marks-prop, AreMarks};
ghost use Rattle.ics_starts.specs.MeetsWindow.{Meets};
ghost use Rattle.ics_series.specs.PlacedEvents.{Placed};
ghost use Rattle.ics_days.specs.HasPlaces.{count_of, places-prop, HasPlaces, HasPlacesAfter};
ghost use Rattle.ics_series.specs.Inner.SpanLaws.{labels-set, offsets-prop, spans-after-prop, those-chosen-prop, AreThoseChosen};
ghost use Rattle.ics_days.specs.Spans.{can_meet};
ghost use Rattle.ics_series.specs.Inner.Spans.{floor_of, span_at, AreSpansAfter, IsStartedBy};
ghost use Rattle.ics_listing.specs.Tokens.{IsDayKey};
ghost use Rattle.ics_series.specs.Versions.{is_override, seen, AreChosen};
ghost use Rattle.ics_days.specs.declared.span.Span.{Span};
ghost use Rattle.ics_listing.specs.declared.window.Window.{Window};

use crate::agenda::Agenda;
use crate::chosen::{chosen, overrides};
use crate::kept::{add_kept, give_back};
use crate::marks::add_places;
use crate::part::Part;
use crate::span::spans;
use crate::version::Version;
use ics_continued::Continued;
use ics_days::{
    NearPlaces, Span, bounds_in, date_at, first_shown, is_today, last_near, last_shown, near_day,
};
use ics_file::FileEvents;
use ics_listing::{DayKey, Feed, Key, Lead, Occurrence, Window};
use ics_starts::Mark;
use ics_values::{Local, Moment};
use ics_zone::{Bounds, Display};
use std::alloc::{AllocError, Global};

/// A day, in seconds.
const DAY: i64 = 86_400;

/// The occurrences of a folder that meet a window, each under each of its days there, by day and then
/// in the order of their keys. Of the days only one is looked at, and for each the events that start once
/// are sorted anew.
#[derive(Drop)]
pub struct Days<'a> {
    alloc: Global,
    files: &'a [FileEvents],
    display: &'a Display,
    window: Window,
    // Two offsets between which the display zone stays in the window.
    bounds: Bounds,
    // The day and the start in the key after which the listing begins.
    after: Option<(i32, Moment)>,
    // The last day that the display zone can show in the window.
    last: i32,
    // A key below those of all that starts in the window.
    floor: Key,
    // The versions that count, and from when to when they are, of what is not over before today.
    versions: Vec<Version<'a>>,
    spans: Vec<Span>,
    // Those of the versions that override an instance.
    overrides: Vec<Version<'a>>,
    // The places of the versions of which something can be near the day, and of those that begin later.
    places: NearPlaces,
    // Where the searches of the rules began near the day before.
    marks: Vec<Option<Mark>>,
    // The series of the days before, which rest.
    kept: Vec<Option<Box<Continued<'a>>>>,
    today: Today<'a>,
    ghost chosen: { AreThoseChosen (map said_by files.now) (display_clock display.now) versions.items } by { those-chosen-prop (map said_by files.now)
        (display_clock display.now) versions.items },
    ghost sized: { length spans.items ≡ length versions.items },
    ghost overriding: { map seen overrides.items ≡ filter is_override (map seen versions.items) } by { labels-set (map seen overrides.items)
        (filter is_override (map seen versions.items)) },
    ghost counted: { count_of places ≡ length versions.items },
    ghost bounded: { HasOffsets (display_clock display.now) window bounds } by { offsets-prop (display_clock display.now) window bounds },
    ghost spanned: { AreSpansAfter (map said_by files.now) (display_clock display.now) bounds window today.day (map seen versions.items)
        spans.items } by { spans-after-prop (map said_by files.now) (display_clock display.now) bounds window today.day
            (map seen versions.items) spans.items },
    ghost reached: { HasPlacesAfter window bounds today.day places spans.items } by { places-prop window bounds today.day places spans.items },
    ghost marked: { AreMarks (map said_by files.now) (map seen versions.items) marks.items } by { marks-prop (map said_by files.now)
        (map seen versions.items) marks.items },
    ghost known: { AreKept (map said_by files.now) (display_clock display.now) kept.items } by { kept-prop (map said_by files.now)
        (display_clock display.now) kept.items },
    ghost not_before: { first_near window bounds ≤ℤ today.day },
    ghost begun: { day_of_key (first_near window bounds) after ≤ℤ today.day },
    ghost masters: { ∥ AreDayMasters (scope_in (map said_by files.now) (display_clock display.now) bounds window after) today.day
        (agenda_sources today.agenda) ∥₁ },
    ghost before: { IsLookedBefore (scope_in (map said_by files.now) (display_clock display.now) bounds window after) today.day
        (agenda_sources today.agenda) today.looked },
    ghost past: { last_near window bounds <ℤ today.day → today.looked ≡ 0 },
    ghost shown: { (t : ℤ) → window.from ≤ℤ t → t <ℤ window.to → date_at (display_clock display.now) t ≤ℤ last },
    ghost within: { last ≤ℤ last_near window bounds },
    ghost below: { floor.start ≡ window.from -ℤ pos 1 },
}

// A day of a listing.
#[derive(Drop)]
struct Today<'a> {
    day: i32,
    // What is still to come of what meets the window near it.
    agenda: Agenda<'a>,
    // How many periods of rules were looked at for the days before and, once the agenda was dropped, for this one.
    looked: u64,
}

impl<'a> Days<'a> {
    ghost use Rattle.ics_series.specs.Ahead.{agenda_coming, scope_of, GivesToday, IsAhead};

    /// The occurrences to come of the events of these files, under their days.
    pub(crate) fn new(
        alloc: Global,
        files: &'a [FileEvents],
        display: &'a Display,
        window: Window,
        after: Option<&DayKey>,
    ) -> Result<Days<'a>, AllocError>
        ensures listing { IfOk result (λ days. (list : List OnDay)
            × IsListing on_day_cmp (IsOnDay (map said_by files.entry.now) (display_clock display.entry.now) window) list
            × IsAhead days (after_day_key (option_map (λ key. day_key_rank key.now) after.entry) list)
            × (scope_of days ≡ scope_by (map said_by files.entry.now) (display_clock display.entry.now)
            (scope_of days).bounds window (option_map (λ key. day_key_rank key.now) after.entry))) }
        ensures bounds { IfOk result (λ days. HasOffsets (display_clock display.entry.now) window (scope_of days).bounds) }
        ensures masters { IfOk result (λ days. (masters : List Placed) × AreMasters (scope_of days) masters) }
        ensures keys { IfOk result (λ _. (p : OnDay)
            → IsOnDay (map said_by files.entry.now) (display_clock display.entry.now) window p → IsDayKey (day_rank_of p)) }
    {
        let versions = chosen(alloc, files, display)?;
        let overrides = overrides(alloc, &versions)?;
        let spans = spans(alloc, files, display, &versions, &window)?;
        let mut near = NearPlaces::new(alloc, &spans)?;
        let mut marks = Vec::new(alloc);
        add_places(&mut marks, versions.len())?;
        let mut kept = Vec::new(alloc);
        add_kept(&mut kept, versions.len())?;
        let bounds = bounds_in(display, &window);
        let last = last_shown(display, bounds, &window);
        let floor = key_below(alloc, &window);
        let (day, key) = begin(display, bounds, &window, after, &floor);
        let agenda = Days::agenda_of(
            alloc, files, display, &versions, &overrides, &mut near, &spans, &mut marks, &mut kept,
            &window, bounds, day, key,
        )?;
        Ok(Days {
            alloc,
            files,
            display,
            window,
            bounds,
            after: day_and_start(after),
            last,
            floor,
            versions,
            spans,
            overrides,
            places: near,
            marks,
            kept,
            today: Today {
                day,
                agenda,
                looked: 0,
            },
        })
    }

    /// What is to come near the day with which a listing begins. Past the last day there is nothing.
    fn agenda_of(
        alloc: Global,
        files: &'a [FileEvents],
        display: &'a Display,
        versions: &[Version<'a>],
        overrides: &[Version<'a>],
        places: &mut NearPlaces,
        spans: &[Span],
        marks: &mut Vec<Option<Mark>>,
        kept: &mut Vec<Option<Box<Continued<'a>>>>,
        window: &Window,
        bounds: Bounds,
        day: i32,
        key: Option<&Key>,
    ) -> Result<Agenda<'a>, AllocError>
        requires chosen { AreChosen (map said_by files.now) (display_clock display.now) versions.now }
        requires overrides { map seen overrides.now ≡ filter is_override (map seen versions.now) }
        requires count { count_of places.old ≡ length versions.now }
        requires places { (w : Window) → HasPlaces places.old spans.now w }
        requires spans { spans.now ≡ map (span_at (map said_by files.now) (display_clock display.now) window.now) (map seen versions.now) }
        requires marks { AreMarks (map said_by files.now) (map seen versions.now) marks.old.items }
        requires kept { AreKept (map said_by files.now) (display_clock display.now) kept.old.items }
        requires bounded { HasOffsets (display_clock display.now) window.now bounds }
        requires first { first_near window.now bounds ≤ℤ day }
        ensures count { count_of places.new ≡ count_of places.old }
        ensures places { HasPlacesAfter window.now bounds day places.new spans.entry.now }
        ensures spans { AreSpansAfter (map said_by files.entry.now) (display_clock display.entry.now) bounds window.now day
            (map seen versions.entry.now) spans.entry.now }
        ensures marks { AreMarks (map said_by files.entry.now) (map seen versions.entry.now) marks.new.items }
        ensures kept { AreKept (map said_by files.entry.now) (display_clock display.entry.now) kept.new.items }
        ensures agenda { IfOk result (λ agenda. IsNearAgenda (map said_by files.entry.now) (display_clock display.entry.now)
            (IsNearDay (display_clock display.entry.now) window.now bounds day)
            (option_map (λ key. key_rank key.now) key.entry) (agenda_coming agenda) (agenda_sources agenda)
            ⊎ IsPastAgenda (last_near window.now bounds) day (agenda_coming agenda) (agenda_sources agenda)) }
    {
        if last_near(window, bounds) < day {
            return Ok(Agenda::none(alloc));
        }
        let near = near_day(display, window, bounds, day, false);
        places.reach(spans, &near)?;
        let mut agenda: Agenda<'a> = Agenda::none(alloc);
        agenda.search(
            alloc,
            Vec::new(alloc),
            files,
            display,
            versions,
            overrides,
            &places.near,
            spans,
            marks,
            kept,
            near,
            key,
            begin_after(bounds, day),
        )?;
        Ok(agenda)
    }

    /// The first of the list still to come, with the day that it stands under, which then has the rest
    /// to come; None where there is none. After an `AllocError` the list is unchanged.
    pub fn next(&mut self) -> Result<Option<(i32, Occurrence<'a>)>, AllocError>
        ensures ok { (list : List OnDay) → IsAhead self.old list
            → IfOk result (λ given. (rest : List OnDay) × GivesOnDay list given rest × IsAhead self.new rest) }
        ensures err { (list : List OnDay) → IsAhead self.old list → OnErr result (IsAhead self.new list) }
        ensures within { IfOk result (λ given. IfSome given (λ entry. IsDayNumber entry.0)) }
        ensures scope { scope_of self.new ≡ scope_of self.old }
        ensures looked { self.old.today.looked ≤ self.new.today.looked }
    {
        loop {
            if let Some(occurrence) = self.next_today()? {
                return Ok(Some((self.today.day, occurrence)));
            }
            if self.last <= self.today.day {
                return Ok(None);
            }
            let room = self.end_day();
            self.turn(room)?;
        }
    }

    /// How many built occurrences are held: the one that was given last, and those that the search near
    /// the day holds. They are at most two and, for each master, two and the greatest number of starts
    /// that it has in any five days. The count stops at the greatest `usize`.
    pub fn held(&self) -> usize
        ensures count { result ≡ min (length (agenda_holds self.now.today.agenda)) (2 ^ 64 - 1) }
        ensures most { (masters : List Placed) → AreMasters (scope_of self.now) masters
            → result ≤ held_most (masters_in (scope_of self.now) masters) }
    {
        self.today.agenda.held()
    }

    /// How many periods of rules were looked at, day by day: from the day of the key, or without one from
    /// the first, to that of the first still to come, or to the last if there is none. For each of these
    /// days and each master with a rule they are at most two more than those that hold a local from less
    /// than seven days before what can meet the window near the day, or on the key's own day before the
    /// start in the key if that is later, to less than three days past what the window holds near the day.
    /// One day is enough for a master that starts in UTC and has no RDATE. The count stops at the greatest
    /// `u64`.
    pub fn steps(&self) -> u64
        ensures count { result ≡ min (self.now.today.looked + agenda_looked self.now.today.agenda) (2 ^ 64 - 1) }
        ensures most { (list : List OnDay) (bound : ℕ) → IsAhead self.now list
            → HasDaysBound (scope_of self.now) list bound → result ≤ bound }
    {
        self.today.looked.saturating_add(self.today.agenda.steps())
    }

    /// The next of the day's.
    fn next_today(&mut self) -> Result<Option<Occurrence<'a>>, AllocError>
        ensures day { self.new.today.day ≡ self.old.today.day }
        ensures scope { scope_of self.new ≡ scope_of self.old }
        ensures last { self.new.last ≡ self.old.last }
        ensures looked { self.new.today.looked ≡ self.old.today.looked }
        ensures within { IfOk result (λ given. IfSome given (λ occurrence. IsDayNumber self.new.today.day)) }
        ensures none { IfOk result (λ given. given ≡ None → agenda_coming self.new.today.agenda ≡ []) }
        ensures ok { (list : List OnDay) → IsAhead self.old list
            → IfOk result (λ given. (rest : List OnDay) × IsAhead self.new rest × GivesToday self.new.today.day list given rest) }
        ensures err { (list : List OnDay) → IsAhead self.old list → OnErr result (IsAhead self.new list) }
    {
        while let Some(occurrence) = self.today.agenda.next()? {
            let today = is_today(
                self.display,
                &self.window,
                self.bounds,
                &occurrence,
                self.today.day,
            );
            if today {
                return Ok(Some(occurrence));
            }
        }
        Ok(None)
    }

    /// Counts what was looked at for a day of which nothing more is to come, and ends its agenda, so that nothing of it
    /// is held while the next day's is made. The room of its leads is left.
    fn end_day(&mut self) -> Vec<Lead<'a, Part<'a>>>
        requires more { self.old.today.day <ℤ self.old.last }
        requires none { agenda_coming self.old.today.agenda ≡ [] }
        ensures none { agenda_coming self.new.today.agenda ≡ [] }
        ensures day { self.new.today.day ≡ self.old.today.day }
        ensures scope { scope_of self.new ≡ scope_of self.old }
        ensures last { self.new.last ≡ self.old.last }
        ensures counted { self.new.today.looked ≡ min (self.old.today.looked + agenda_looked self.old.today.agenda) (2 ^ 64 - 1) }
        ensures dropped { agenda_looked self.new.today.agenda ≡ 0 }
        ensures risen { self.old.today.looked ≤ self.new.today.looked }
        ensures ahead { (list : List OnDay) → IsAhead self.old list → IsAhead self.new list }
        ensures room { result.items ≡ [] }
    {
        let looked = self.today.looked.saturating_add(self.today.agenda.steps());
        self.today.looked = looked;
        let by = begin_after(self.bounds, self.today.day);
        let mut leads = self.today.agenda.end(self.alloc);
        let places = &self.places;
        give_back(
            &mut self.kept,
            &self.versions,
            &places.near,
            &mut self.spans,
            &mut self.marks,
            &mut leads,
            floor_of(&self.window),
            by,
        );
        leads
    }

    /// Goes on to the next day on which something can be. What was looked at for the day is counted. The room is that of leads, of which there
    /// are none.
    fn turn(&mut self, room: Vec<Lead<'a, Part<'a>>>) -> Result<(), AllocError>
        requires more { self.old.today.day <ℤ self.old.last }
        requires none { agenda_coming self.old.today.agenda ≡ [] }
        requires counted { agenda_looked self.old.today.agenda ≡ 0 }
        requires room { room.items ≡ [] }
        ensures day { OnOk result (self.old.today.day <ℤ self.new.today.day × (self.new.today.day ≤ℤ self.new.last)) }
        ensures scope { scope_of self.new ≡ scope_of self.old }
        ensures last { self.new.last ≡ self.old.last }
        ensures looked { self.new.today.looked ≡ self.old.today.looked }
        ensures ahead { (list : List OnDay) → IsAhead self.old list → IsAhead self.new list }
    {
        let day = next_day(
            &self.places,
            &self.spans,
            &self.window,
            self.bounds,
            self.last,
            self.today.day,
        );
        let closely = may_begin_after(&self.places, &self.spans, &self.window, self.bounds, day);
        let near = near_day(self.display, &self.window, self.bounds, day, closely);
        self.places.reach(&self.spans, &near)?;
        let key = key_near(self.display, &self.window, self.bounds, day, &self.floor);
        self.today.agenda.search(
            self.alloc,
            room,
            self.files,
            self.display,
            &self.versions,
            &self.overrides,
            &self.places.near,
            &self.spans,
            &mut self.marks,
            &mut self.kept,
            near,
            key,
            begin_after(self.bounds, day),
        )?;
        self.today.day = day;
        Ok(())
    }
}

/// The next day near which something can be, or the last.
fn next_day(
    places: &NearPlaces,
    spans: &[Span],
    window: &Window,
    bounds: Bounds,
    last: i32,
    day: i32,
) -> i32
    requires offsets { AreOffsets bounds }
    requires low { first_near window.now bounds ≤ℤ day }
    requires last { last ≤ℤ last_near window.now bounds }
    requires more { day <ℤ last }
    requires places { HasPlacesAfter window.now bounds day places.now spans.now }
    ensures later { day <ℤ result }
    ensures last { result ≤ℤ last }
    ensures none { (x : ℤ) → day <ℤ x → x <ℤ result → (s : Span) → IsIn s spans.now → (clock : Clock) (n : Window)
        → IsNearDay clock window.now bounds x n → can_meet s n ≡ false }
{
    let next = day + 1;
    let from = begin_after(bounds, day);
    let first = places.first(spans, window.to, from).max(window.from);
    let reached = Local::of_seconds(first + bounds.least).day;
    reached.max(next).min(last)
}

/// Whether what begins first, near a day or later, may begin only under later days: by the greater of two offsets it does, and they are not the same.
fn may_begin_after(
    places: &NearPlaces,
    spans: &[Span],
    window: &Window,
    bounds: Bounds,
    day: i32,
) -> bool
    requires offsets { AreOffsets bounds }
    requires day { IsDay day }
{
    if bounds.least == bounds.most {
        return false;
    }
    let begin = i64::from(day) * DAY - bounds.most;
    let first = places.first(spans, window.to, begin);
    begin + DAY <= first
}

/// The least instant with which what the window holds near a later day can begin.
fn begin_after(bounds: Bounds, day: i32) -> Moment
    requires { AreOffsets bounds }
    ensures { result ≡ begins_after bounds day }
{
    let next = i64::from(day) + 1;
    next * DAY - bounds.most
}

/// The day with which a listing begins, and the key after which it does there.
fn begin<'k>(
    display: &Display,
    bounds: Bounds,
    window: &Window,
    after: Option<&'k DayKey>,
    floor: &'k Key,
) -> (i32, Option<&'k Key>)
    requires floor { floor.now.start ≡ window.now.from -ℤ pos 1 }
    requires bounded { HasOffsets (display_clock display.now) window.now bounds }
    ensures near { first_near window.now bounds ≤ℤ result.0 }
    ensures begins { Begins (display_clock display.now) window.now (option_map (λ key. day_key_rank key.now) after.entry) result.0
        (option_map (λ key. key_rank key.now) result.1) }
    ensures behind { IsBehindKey (option_map (λ key. day_key_rank key.now) after.entry) result.0
        (option_map (λ key. key_rank key.now) result.1) }
{
    let first = first_shown(display, bounds, window);
    match after {
        Some(after) if first <= after.day => (after.day, Some(&after.key)),
        _ => (first, key_near(display, window, bounds, first, floor)),
    }
}

/// The key after which all is that is shown under a day. Under a day before that of the window's first instant nothing is shown that began
/// by then, and under no day what began before, if that is left out.
fn key_near<'k>(
    display: &Display,
    window: &Window,
    bounds: Bounds,
    day: i32,
    floor: &'k Key,
) -> Option<&'k Key>
    requires floor { floor.now.start ≡ window.now.from -ℤ pos 1 }
    requires bounded { HasOffsets (display_clock display.now) window.now bounds }
    ensures shown { (o : Entry) → Meets window.now o → is_on (display_clock display.now) window.now o day ≡ true
        → is_after (option_map (λ key. key_rank key.now) result) o ≡ true }
    ensures floor { (o : Entry) → is_after (option_map (λ key. key_rank key.now) result) o ≡ true → IsStartedBy (floor_of window.now) o }
{
    let early = is_early(display, window, bounds, day);
    if window.notstarted | early {
        Some(floor)
    } else {
        None
    }
}

/// Whether a day is before that of the window's first instant. The clock is not asked where the greater of two offsets, between which it stays,
/// tells that it is not.
fn is_early(display: &Display, window: &Window, bounds: Bounds, day: i32) -> bool
    requires { HasOffsets (display_clock display.now) window.now bounds }
    ensures { result ≡ int_lt day (date_at (display_clock display.now) window.now.from) }
{
    let end = (i64::from(day) + 1) * DAY;
    if window.from + bounds.most < end {
        return false;
    }
    day < date_at(display, window.from)
}

/// Where what began before a window is left out, an instant just before it.
fn floor_of(window: &Window) -> Option<Moment>
    ensures { result ≡ floor_of window.now }
{
    if window.notstarted {
        Some(window.from - 1)
    } else {
        None
    }
}

/// A key below those of all that starts in a window.
fn key_below(alloc: Global, window: &Window) -> Key
    ensures { result.start ≡ window.now.from -ℤ pos 1 }
{
    Key {
        start: window.from - 1,
        uid: Vec::new(alloc),
        recurrence: Moment::MIN,
    }
}

/// The day and the start in a key.
fn day_and_start(after: Option<&DayKey>) -> Option<(i32, Moment)>
    ensures { result ≡ option_map day_and_start (option_map (λ key. day_key_rank key.now) after.entry) }
{
    let after = after?;
    Some((after.day, after.key.start))
}
