//! The occurrences of one event from search to search.
ghost use Rattle.std.specs.Prelude.{◌≡◌, ◌≤ℤ◌, ◌++◌, false, filter, true, IfOk, OnErr};
ghost use Rattle.std.specs.Int.{int_max};
ghost use Rattle.ics_continued.specs.Lasting.{is_asked, is_carried, known_left, lasting_entries};
ghost use Rattle.ics_continued.specs.Inner.Kept.{before-prop, done-prop, recurring_of, AreBefore, AreKept, IsDone, IsNoted};
ghost use Rattle.ics_listing.specs.Entry.{entry_cmp, entry_of, Entry, Gives};
ghost use Rattle.ics_listing.specs.Listing.{IsIn};
ghost use Rattle.ics_listing.specs.Rising.{Rises, Rises-prop};
ghost use Rattle.ics_starts.specs.SeriesFeed.{series_left, series_near, series_of, series_sources};

use crate::lasting::Lasting;
use ics_event::Event;
use ics_listing::{Begins, Coming, Feed, Occurrence, Window};
use ics_starts::{FileZones, Mark, Replaced, Series};
use ics_values::Moment;
use std::alloc::{AllocError, Global};
use std::mem;

/// So many occurrences that last are kept at most. Where there are more, the next search begins anew.
const MOST: usize = 1_024;

/// The occurrences of an event that meet a window and begin at an instant or later. What was given in the search before and lasts is given again, without a
/// search for it.
#[derive(Drop)]
pub struct Continued<'a> {
    // What begins where the search before ended, or later.
    series: Series<'a>,
    // The instant from which on occurrences are asked for.
    since: Moment,
    // What ends by this instant meets no later window.
    by: Moment,
    // What begins before the series does, and the place of the first of it that is still to come.
    known: Vec<Lasting>,
    next: usize,
    // What was given and ends after `by`.
    lasts: Vec<Lasting>,
    // What begins at this instant or later may not be kept there, though it ends after `by`.
    gap: Moment,
    // Whether all was given.
    is_done: bool,
    ghost rising: { Rises entry_cmp (lasting_entries series.event.now lasts.items
        ++ (known_left series.event.now next known.items ++ series_of series (series_left series))) } by { Rises-prop entry_cmp
            (lasting_entries series.event.now lasts.items
            ++ (known_left series.event.now next known.items ++ series_of series (series_left series))) },
    ghost kept: { ∥ AreKept (recurring_of series) since by gap (lasting_entries series.event.now lasts.items)
        (known_left series.event.now next known.items ++ series_of series (series_left series)) ∥₁ },
    ghost done: { IsDone is_done (known_left series.event.now next known.items ++ series_of series (series_left series)) } by { done-prop is_done
        (known_left series.event.now next known.items ++ series_of series (series_left series)) },
    ghost before: { AreBefore series.since known.items } by { before-prop series.since known.items },
    ghost later: { since ≤ℤ series.since },
    ghost begun: { series.since ≤ℤ int_max since series.window.to },
}

/// The next occurrence: of those that are known, or of the series.
fn drawn<'a>(
    known: &[Lasting],
    next: &mut usize,
    series: &mut Series<'a>,
) -> Result<Option<Occurrence<'a>>, AllocError>
    ensures ok { IfOk result (λ given. Gives (known_left series.old.event.now next.old known.now ++ series_of series.old (series_left series.old)) given
        (known_left series.new.event.now next.new known.now ++ series_of series.new (series_left series.new))) }
    ensures err { OnErr result (known_left series.new.event.now next.new known.now ++ series_of series.new (series_left series.new)
        ≡ known_left series.old.event.now next.old known.now ++ series_of series.old (series_left series.old)) }
    ensures sources { series_sources series.new ≡ series_sources series.old }
    ensures near { (o : Entry) → IsIn o (series_of series.old (series_left series.old)) → series_near series.new o }
{
    if let Some(lasting) = known.get(*next) {
        *next += 1;
        return Ok(Some(lasting.occurrence(series.event())));
    }
    series.next()
}

/// Keeps from when to when an occurrence is, if it ends after an instant. Whether it is kept, or ends by then.
fn keep(lasts: &mut Vec<Lasting>, occurrence: &Occurrence<'_>, by: Moment) -> bool
    ensures { IsNoted lasts.old.items lasts.new.items (entry_of occurrence.now) by result }
{
    if occurrence.finish <= by && occurrence.start < by {
        return true;
    }
    if lasts.len() >= MOST {
        return false;
    }
    lasts.push(Lasting::of(occurrence)).is_ok()
}

/// Leaves, of occurrences of an event, those that meet a window and begin at an instant or later and before another.
fn carry_on(known: &mut Vec<Lasting>, event: &Event, window: &Window, since: Moment, begin: Moment)
    ensures { known.new.items ≡ filter (is_carried event.entry.now window.entry.now since begin) known.old.items }
{
    known.retain(|lasting| lasting.start() < begin && is_asked(*lasting, event, window, since));
}

/// The instant from which on something may not be kept, once it is known whether an occurrence is that begins at one.
fn gap_behind(gap: Moment, is_kept: bool, start: Moment) -> Moment
    ensures less { result ≤ℤ gap }
    ensures missed { is_kept ≡ false → result ≤ℤ start }
{
    if is_kept { gap } else { gap.min(start) }
}

/// Whether an occurrence of an event meets a window and begins at an instant or later.
fn is_asked(lasting: Lasting, event: &Event, window: &Window, since: Moment) -> bool
    ensures { result ≡ is_asked event.entry.now window.now since lasting }
{
    since <= lasting.start() && window.is_met(&lasting.occurrence(event))
}

impl<'a> Continued<'a> {
    ghost use Rattle.std.specs.Prelude.{◌≡◌, ◌<ℤ◌, ◌≤ℤ◌, ◌&&◌, ℤ, [], false, length, IfOk, MatchOption, OnErr, OnOk, Some};
    ghost use Rattle.ics_continued.specs.Continued.{continued_left, continued_sources, IsContinuedMet, IsSameContinued};
    ghost use Rattle.ics_continued.specs.Ends.{end_of, first_instant};
    ghost use Rattle.ics_listing.specs.Listing.{IsListing};
    ghost use Rattle.ics_starts.specs.FileZones.{clocks_in, IsOwnEvent};
    ghost use Rattle.ics_starts.specs.Quiet.{IsQuietTo};
    ghost use Rattle.ics_starts.specs.RuleHolding.{rule_looked, series_holds};
    ghost use Rattle.ics_starts.specs.RuleMarks.{IsBegun, IsMarkOf};
    ghost use Rattle.ics_starts.specs.SeriesFeed.{source_of};
    ghost use Rattle.ics_starts.specs.SeriesStarts.{IsSeriesMet};

    /// The occurrences of an event of the file that meet the window and begin at the instant `since` or later, but for those that others replace. What
    /// ends after `by` is to be carried on. The mark and `keeps` are those of a `Series`.
    pub fn new(
        alloc: Global,
        zones: FileZones<'a>,
        event: &'a Event,
        window: Window,
        since: Moment,
        by: Moment,
        mark: Option<&Mark>,
        keeps: bool,
        replaced: Replaced,
    ) -> Result<Continued<'a>, AllocError>
        requires own { IsOwnEvent zones event.now }
        requires mark { MatchOption mark (Unit {0}) (λ m. IsMarkOf event.now (Some m.now)) }
        ensures listing { IfOk result (λ continued. IsListing entry_cmp
            (IsSeriesMet (clocks_in zones.entry) event.entry.now window since replaced)
            (⟦<Continued<'a> as Coming>⟧.coming continued)) }
        ensures sources { IfOk result (λ continued. continued_sources continued ≡ source_of (clocks_in zones.entry) event.entry.now window since replaced) }
        ensures since { IfOk result (λ continued. continued.since ≡ since) }
        ensures begun { IfOk result (λ continued. MatchOption continued.series.rule_starts (Unit {0}) (λ s. IsBegun s.rule s.from s.cursor)) }
    {
        let series = Series::new(alloc, zones, event, window, since, mark, keeps, replaced)?;
        Ok(Continued {
            series,
            since,
            by,
            known: Vec::new(alloc),
            next: 0,
            lasts: Vec::new(alloc),
            gap: Moment::MAX,
            is_done: false,
        })
    }

    /// Becomes that of its event for another window and other instants. What was given and lasts is known, if it meets that window. After an
    /// `AllocError` it is what it was.
    pub fn again(
        &mut self,
        alloc: Global,
        window: Window,
        since: Moment,
        by: Moment,
        mark: Option<&Mark>,
    ) -> Result<(), AllocError>
        requires mark { MatchOption mark (Unit {0}) (λ m. IsMarkOf self.old.series.event.now (Some m.now)) }
        ensures listing { OnOk result (IsListing entry_cmp
            (IsSeriesMet (clocks_in self.old.series.zones) self.old.series.event.now window since self.old.series.replaced)
            (⟦<Continued<'a> as Coming>⟧.coming self.new)) }
        ensures sources { OnOk result ((begin : ℤ) × (since ≤ℤ begin) × (continued_sources self.new
            ≡ source_of (clocks_in self.old.series.zones) self.old.series.event.now window begin self.old.series.replaced)) }
        ensures since { OnOk result (self.new.since ≡ since) }
        ensures begun { OnOk result (MatchOption self.new.series.rule_starts (Unit {0}) (λ s. IsBegun s.rule s.from s.cursor)) }
    {
        let begin = self.begin_for(&window, since);
        self.series.again(alloc, window, begin, mark)?;
        self.since = since;
        self.by = by;
        let event = self.series.event();
        mem::swap(&mut self.known, &mut self.lasts);
        carry_on(&mut self.known, event, &window, since, begin);
        self.lasts.clear();
        self.next = 0;
        self.gap = Moment::MAX;
        self.is_done = false;
        Ok(())
    }

    /// An instant from which on occurrences are searched for another window, if those from one on are asked for. All such that meet it and begin
    /// before that instant are among what is kept.
    fn begin_for(&self, window: &Window, since: Moment) -> Moment
        ensures all { ∥ ((o : Entry) → IsSeriesMet (clocks_in self.now.series.zones) self.now.series.event.now window.now since
            self.now.series.replaced o → o.start <ℤ result
            → IsIn o (lasting_entries self.now.series.event.now self.now.lasts.items)) ∥₁ }
        ensures later { since ≤ℤ result }
        ensures begun { result ≤ℤ int_max since window.now.to }
    {
        if !self.goes_on(window, since) {
            return since;
        }
        let end = self.series.window().to;
        since.max(end.min(self.gap))
    }

    /// Whether what begins before the end of the window and the gap, from an instant on, and meets another window is among what is kept.
    fn goes_on(&self, window: &Window, since: Moment) -> bool
        ensures all { result ≡ true → ∥ ((o : Entry) → IsSeriesMet (clocks_in self.now.series.zones) self.now.series.event.now window.now since
            self.now.series.replaced o → o.start <ℤ self.now.series.window.to → o.start <ℤ self.now.gap
            → IsIn o (lasting_entries self.now.series.event.now self.now.lasts.items)) ∥₁ }
        ensures end { result ≡ true → self.now.series.window.to ≤ℤ window.now.to }
    {
        let before = self.series.window();
        if !self.is_done || since < self.since || window.from < self.by {
            return false;
        }
        if window.from < before.from || window.to < before.to {
            return false;
        }
        before.notstarted == window.notstarted
    }

    /// The instant from which on occurrences are asked for.
    pub fn since(&self) -> Moment
        ensures { result ≡ self.now.since }
    {
        self.since
    }

    /// An instant before which nothing begins that meets the window, ends after an instant and was asked for. It is the first of all where that is not
    /// known, and the last if there is nothing such.
    pub fn least_lasting(&self, by: Moment) -> Moment
        ensures { first_instant <ℤ result → (o : Entry) → IsContinuedMet self.now o → by <ℤ end_of o → result ≤ℤ o.start }
    {
        if !self.is_done || by < self.by {
            return Moment::MIN;
        }
        match self.lasts.first() {
            None => self.gap,
            Some(first) => first.start().min(self.gap),
        }
    }

    /// An instant, no later than another, before which no occurrence begins, of those that begin at the window's end or later and are asked for. A mark
    /// that tells where a later search of its rule can begin may be put in place of this one.
    pub fn quiet_up_to(&self, most: Moment, mark: &mut Option<Mark>) -> Moment
        ensures to { IsQuietTo (clocks_in self.now.series.zones) self.now.series.event.now self.now.series.window self.now.since result }
        ensures most { result ≤ℤ most }
        ensures mark { IsMarkOf self.now.series.event.now mark.old → IsMarkOf self.now.series.event.now mark.new }
    {
        self.series.quiet_up_to(most, mark)
    }

    /// The mark of its series.
    pub fn mark(&self) -> Option<Mark>
        requires { MatchOption self.now.series.rule_starts (Unit {0}) (λ s. IsBegun s.rule s.from s.cursor) }
        ensures { IsMarkOf self.now.series.event.now result }
    {
        self.series.mark()
    }

    /// Ends its search. What that has found of its rule is known to the next.
    pub fn rest(&mut self)
        ensures zones { self.new.series.zones ≡ self.old.series.zones }
        ensures event { self.new.series.event ≡ self.old.series.event }
        ensures replaced { self.new.series.replaced ≡ self.old.series.replaced }
    {
        self.series.rest();
    }

    /// Its event.
    pub fn event(&self) -> &'a Event
        ensures { result ≡ self.now.series.event }
    {
        self.series.event()
    }

    /// How many starts of its rule are held.
    pub fn held(&self) -> usize
        ensures { result ≡ length (series_holds self.now.series) }
    {
        self.series.held()
    }

    /// How many periods of its rule were looked at.
    pub fn steps(&self) -> u64
        ensures { result ≡ rule_looked self.now.series.rule_starts }
    {
        self.series.steps()
    }
}

impl<'a> Coming for Continued<'a> {
    ghost use Rattle.ics_continued.specs.Continued.{continued_left, continued_near, continued_near-prop, continued_sources};

    ghost coming = { continued_left };

    ghost sources = { continued_sources };

    ghost near = { continued_near };

    ghost near_prop = { continued_near-prop };
}

impl<'a> Begins for Continued<'a> {
    fn from(&self) -> Moment {
        match self.known.get(self.next) {
            None => self.series.from(),
            Some(lasting) => lasting.start(),
        }
    }
}

impl<'a> Feed<'a> for Continued<'a> {
    ghost use Rattle.ics_continued.specs.Continued.{continued_left};
    ghost use Rattle.ics_continued.specs.Inner.Kept.{rises-behind};

    ghost rises = { λ c. rises-behind entry_cmp (lasting_entries c.series.event.now c.lasts.items) (continued_left c) c.rising };

    fn next(&mut self) -> Result<Option<Occurrence<'a>>, AllocError> {
        let given = drawn(&self.known, &mut self.next, &mut self.series)?;
        match &given {
            None => self.is_done = true,
            Some(occurrence) => {
                let is_kept = keep(&mut self.lasts, occurrence, self.by);
                self.gap = gap_behind(self.gap, is_kept, occurrence.start);
            }
        }
        Ok(given)
    }
}
