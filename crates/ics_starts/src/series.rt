//! The occurrences of one event that meet a window, found one by one.
ghost use Rattle.std.specs.Prelude.{◌≡◌, ◌<◌, ◌<ℤ◌, ◌≤ℤ◌, ◌-ℤ◌, ℤ, pos, false, slice_get, true, All, IfOk, IfSome, List, MatchOption, None, Some};
ghost use Rattle.std.specs.List.Sorted.{IsSorted};
ghost use Rattle.std.specs.Ordering.{int_cmp};
ghost use Rattle.ics_event.specs.Event.{IsLasting, IsRdate};
ghost use Rattle.ics_fields.specs.Days.{IsDayNumber};
ghost use Rattle.ics_fields.specs.Locals.{number, year_seconds};
ghost use Rattle.ics_listing.specs.Entry.{entry_cmp};
ghost use Rattle.ics_starts.specs.EventLaws.{own-event-prop};
ghost use Rattle.ics_starts.specs.Exclusions.{is_excluded, AreExclusions};
ghost use Rattle.ics_listing.specs.StartOrder.{moment_cmp};
ghost use Rattle.ics_listing.specs.StartTimes.{local_of};
ghost use Rattle.ics_starts.specs.Clocks.{clock_of, AreSpansOf, IsStretched};
ghost use Rattle.ics_starts.specs.Inner.ByLocal.{dates-prop, HasDates};
ghost use Rattle.ics_starts.specs.Inner.ClockStretches.{AreKnown};
ghost use Rattle.ics_starts.specs.Finish.{AreLasting};
ghost use Rattle.ics_starts.specs.Found.{counts_from, first_met, AreRunning, IsFinish, IsStartIn};
ghost use Rattle.ics_listing.specs.FileClocks.{Clock};
ghost use Rattle.ics_listing.specs.Listing.{IsIn};
ghost use Rattle.ics_starts.specs.Inner.KeptLocals.{IsKeptOf};
ghost use Rattle.ics_starts.specs.RuleMarks.{IsBegun, IsMarked, IsMarkOf};
ghost use Rattle.ics_starts.specs.Quiet.{AreQuiet};
ghost use Rattle.ics_listing.specs.Merged.{cut};
ghost use Rattle.ics_listing.specs.Rising.{Rises, Rises-prop};
ghost use Rattle.ics_starts.specs.RuleFeed.{starts_left};
ghost use Rattle.ics_starts.specs.SeriesLaws.{first-given-prop, own-rule-prop, ruled-prop, starts-in-prop, taken-out-prop};
ghost use Rattle.ics_starts.specs.SeriesStarts.{first_asked, first_of, given_of, left, listed_apart, rule_asked, rule_left, rule_steps};
ghost use Rattle.ics_starts.specs.SeriesStarts.{AreEnded, AreLeapt, AreSkipped, AreStartsIn, HasOwnRule, HasRuled, HasSameRule};
ghost use Rattle.ics_starts.specs.SeriesStarts.{IsFirstGiven, IsFirstOf, IsReady, IsRuleBegin, IsRuleFrom};
ghost use Rattle.ics_listing.specs.KnownStarts.{listed_left};
ghost use Rattle.ics_starts.specs.FileZones.{clocks_in, IsOwnEvent};
ghost use Rattle.ics_starts.specs.Starts.{recurrence_of};
ghost use Rattle.ics_listing.specs.WindowBounds.{lasts_most, occurrence_first};
ghost use Rattle.ics_listing.specs.declared.start.Start.{Start};

use crate::by_local::DatesByLocal;
use crate::clock_stretch::ClockStretches;
use crate::ends::Ends;
use crate::exclusion::{Exclusions, is_excluded};
use crate::instants::{bounds, no_stretch};
use crate::kept_locals::KeptLocals;
use crate::kind::kind_of;
use crate::lasting::lasting_by;
use crate::listed::{counts_from, listed_again, push_listed, running};
use crate::mark::{Mark, begun_before, counted, is_counted};
use crate::occurrence::met_by;
use crate::replaced::Replaced;
use crate::rule_starts::RuleStarts;
use crate::shared_rule::SharedRule;
use crate::starts::{earliest, first_given, first_met, first_nearby, seconds_back, start_at};
use crate::told_ends::{ToldEnds, again};
use crate::zones::FileZones;
use ics_event::{Event, Rdate};
use ics_fields::Parts;
use ics_listing::{Begins, Coming, Feed, ListedStarts, Occurrence, Start, Window, local_of};
use ics_rule::Rule;
use ics_values::{Duration, Local, Moment};
use ics_zone::Stretch;
use std::alloc::{AllocError, Global};

/// The occurrences of an event that meet a window and begin at an instant or later.
#[derive(Drop)]
pub struct Series<'a> {
    zones: FileZones<'a>,
    event: &'a Event,
    window: Window,
    since: Moment,
    // No start by the rule before this instant gives an occurrence. It is computed where locals may be passed over.
    first: Option<Moment>,
    exclusions: Exclusions,
    replaced: Replaced,
    rule_starts: Option<RuleStarts<'a>>,
    // The starts by RDATEs and, if there is no rule, the one at DTSTART.
    listed: ListedStarts,
    ends: Ends,
    // What tells the ends of occurrences by stretches, if they follow each other closely.
    told_ends: Option<Box<ToldEnds>>,
    // What tells the EXDATEs and RDATEs near a window, once the series is begun again.
    dates: Option<Box<DatesByLocal>>,
    ghost first_is: { IfSome first (IsFirstGiven (clocks_in zones) window event.now since) } by { first-given-prop (clocks_in zones) window event.now since
        first },
    ghost own: { IsOwnEvent zones event.now } by { own-event-prop zones event.now },
    ghost taken_out: { AreExclusions (clocks_in zones) event.now window exclusions.from exclusions.running.items exclusions.instants.items
        exclusions.days.items } by { taken-out-prop (clocks_in zones) event.now window exclusions.from exclusions.running.items exclusions.instants.items
            exclusions.days.items },
    ghost ends_are: { AreSpansOf (clock_of (clocks_in zones) event.now.start) ends.spans },
    ghost dates_are: { HasDates event.now dates } by { dates-prop event.now dates },
    ghost known: { AreStartsIn zones (left rule_starts listed) } by { starts-in-prop zones (left rule_starts listed) },
    // A start that the rule hides may come to light.
    ghost listed_known: { AreStartsIn zones (listed_left listed) } by { starts-in-prop zones (listed_left listed) },
    ghost ruled: { HasRuled (clocks_in zones) event.now rule_starts
        (given_of (clocks_in zones) window event.now since replaced (left rule_starts listed)) } by { ruled-prop (clocks_in zones)
            event.now rule_starts
            (given_of (clocks_in zones) window event.now since replaced (left rule_starts listed)) },
    ghost own_rule: { HasOwnRule zones event.now window (first_of (clocks_in zones) window event.now since) rule_starts } by { own-rule-prop zones event.now
        window (first_of (clocks_in zones) window event.now since) rule_starts },
    ghost rising: { Rises entry_cmp
        (given_of (clocks_in zones) window event.now since replaced (left rule_starts listed)) } by { Rises-prop entry_cmp
            (given_of (clocks_in zones) window event.now since replaced (left rule_starts listed)) },
}

/// The starts that are known from the beginning: those by RDATEs from an instant on and, if there is no rule, the one at
/// DTSTART. A rule keeps DTSTART.
fn listed_apart(
    alloc: Global,
    zones: FileZones<'_>,
    known: &mut ClockStretches,
    event: &Event,
    window: &Window,
    since: Moment,
    from: Moment,
    running: &[Moment],
    dates: &Option<Box<DatesByLocal>>,
) -> Result<Vec<Start>, AllocError>
    requires event { IsOwnEvent zones event.now }
    requires known { AreKnown (clocks_in zones) known.old }
    requires dates { HasDates event.now dates.now }
    requires from { from ≡ counts_from (clocks_in zones) window.now event.now since }
    requires soon { from <ℤ window.now.to }
    requires order { IsSorted int_cmp running.now }
    requires running { AreRunning (clocks_in zones) window.now event.now since from running.now }
    ensures known { AreKnown (clocks_in zones.entry) known.new }
    ensures starts { IfOk result (λ starts. starts.items ≡ listed_apart (clocks_in zones.entry) window.now event.now since event.now.rule) }
{
    let mut starts = Vec::new(alloc);
    if event.rule.is_none() {
        starts.push(start_at(zones, event, local_of(event.start.stamp)))?;
    }
    push_listed(
        alloc,
        &mut starts,
        zones,
        known,
        event,
        window,
        since,
        from,
        running,
        dates,
    )?;
    Ok(starts)
}

/// The starts of an event that are known from the beginning, and what its EXDATEs remove. The first instant at which an event of its length can meet the
/// window is given.
fn lists_of(
    alloc: Global,
    zones: FileZones<'_>,
    event: &Event,
    window: &Window,
    since: Moment,
    met: Moment,
    dates: &Option<Box<DatesByLocal>>,
) -> Result<(Vec<Start>, Exclusions), AllocError>
    requires event { IsOwnEvent zones event.now }
    requires dates { HasDates event.now dates.now }
    requires met { met ≡ first_met (clocks_in zones) window.now event.now }
    requires late { (occurrence_first -ℤ lasts_most) ≤ℤ met }
    requires early { met ≤ℤ window.now.from }
    ensures starts { IfOk result (λ given. given.0.items ≡ listed_apart (clocks_in zones.entry) window.now event.now since event.now.rule) }
    ensures exclusions { IfOk result (λ given. AreExclusions (clocks_in zones.entry) event.now window.now
        given.1.from given.1.running.items given.1.instants.items given.1.days.items) }
{
    let from = counts_from(met, since, window);
    let mut known = ClockStretches::none();
    let running = running(alloc, zones, &mut known, event, window, since, from, dates)?;
    let listed = listed_apart(
        alloc, zones, &mut known, event, window, since, from, &running, dates,
    )?;
    let exclusions = Exclusions::new(
        alloc, zones, &mut known, event, window, from, running, dates,
    )?;
    Ok((listed, exclusions))
}

/// The rule of an event, which has these parts: the one that is kept, if there is one.
fn rule_of(
    alloc: Global,
    event: &Event,
    parts: &Parts,
    kept: &Option<Box<KeptLocals<'_>>>,
) -> Result<SharedRule, AllocError>
    requires parts { event.now.rule ≡ Some parts.now }
    requires day { IsDayNumber (local_of event.now.start.stamp).day }
    requires kept { IsKeptOf event.now kept.now }
    ensures { IfOk result (λ rule. recurrence_of event.now ≡ Some rule) }
{
    match kept {
        None => {
            let first = local_of(event.start.stamp);
            let rule = Rule::new(*parts, first, kind_of(event.start.stamp));
            SharedRule::new(alloc, rule)
        }
        Some(kept) => kept.rule(),
    }
}

/// The local from which on the rule of an event is read for the starts from an instant on and, if the event is long, for earlier ones that can
/// still meet the window.
fn begin_of_rule(
    zones: FileZones<'_>,
    event: &Event,
    window: &Window,
    since: Moment,
    met: Moment,
    listed: &[Start],
) -> Local
    requires event { IsOwnEvent zones event.now }
    requires met { met ≡ first_met (clocks_in zones) window.now event.now }
    requires late { (occurrence_first -ℤ lasts_most) ≤ℤ met }
    requires early { met ≤ℤ window.now.from }
    requires listed { All (IsStartIn zones) listed.now }
    ensures { IsRuleBegin (clocks_in zones.entry) event.now (first_asked (clocks_in zones.entry) window.now event.now since listed.now) result }
{
    let bounds = bounds(zones, event.start);
    let earliest = earliest(zones, event, window, met, listed);
    // All instants this late after the window's end are treated as one: no day is read for them.
    let late = window.to + 14 * 86_400;
    // A search under COUNT goes on from the midnight where another began.
    first_nearby(
        local_of(event.start.stamp),
        seconds_back(event, bounds),
        is_counted(event),
        earliest.max(since.min(late)),
    )
}

/// Begins a search of the rule of an event anew from a local on, if it has one. Under COUNT it goes on from a mark.
fn begin_again<'a>(
    rule: &mut Option<RuleStarts<'a>>,
    alloc: Global,
    zones: FileZones<'a>,
    event: &'a Event,
    window: Window,
    from: Local,
    mark: Option<&Mark>,
)
    requires event { IsOwnEvent zones event.now }
    requires rule { MatchOption rule.old (event.now.rule ≡ None) (λ s. s.event.now ≡ event.now) }
    requires day { IsDayNumber from.day }
    requires mark { MatchOption mark (Unit {0}) (λ m. IsMarkOf event.now (Some m.now)) }
    ensures own { (first : ℤ) → IsRuleBegin (clocks_in zones.entry) event.entry.now first from → HasOwnRule zones.entry event.entry.now window first rule.new }
    ensures from { (since : ℤ) (listed : List Start) → IsRuleBegin (clocks_in zones.entry) event.entry.now
        (first_asked (clocks_in zones.entry) window event.entry.now since listed) from → MatchOption rule.new (event.entry.now.rule ≡ None)
        (λ starts. IsRuleFrom (clocks_in zones.entry) event.entry.now window since listed (starts_left starts)) }
    ensures begun { MatchOption rule.new (Unit {0}) (λ starts. IsBegun starts.rule starts.from starts.cursor) }
{
    if let Some(starts) = rule {
        let mark = counted(is_counted(event), mark);
        starts.again(alloc, zones, event, window, from, mark);
    }
}

/// The starts that the rule of an event gives, if it has one: those from an instant on and, if the
/// event is long, earlier ones that can still meet the window.
fn starts_by_rule<'a>(
    alloc: Global,
    zones: FileZones<'a>,
    event: &'a Event,
    window: Window,
    since: Moment,
    met: Moment,
    listed: &[Start],
    mark: Option<&Mark>,
    keeps: bool,
) -> Result<Option<RuleStarts<'a>>, AllocError>
    requires event { IsOwnEvent zones event.now }
    requires met { met ≡ first_met (clocks_in zones) window event.now }
    requires late { (occurrence_first -ℤ lasts_most) ≤ℤ met }
    requires early { met ≤ℤ window.from }
    requires listed { All (IsStartIn zones) listed.now }
    requires mark { MatchOption mark (Unit {0}) (λ m. IsMarkOf event.now (Some m.now)) }
    ensures own { IfOk result (HasOwnRule zones.entry event.entry.now window
        (first_asked (clocks_in zones.entry) window event.entry.now since listed.entry.now)) }
    ensures from { IfOk result (λ given. MatchOption given (event.entry.now.rule ≡ None)
        (λ starts. IsRuleFrom (clocks_in zones.entry) event.entry.now window since listed.entry.now (starts_left starts))) }
    ensures begun { IfOk result (λ given. MatchOption given (Unit {0}) (λ starts. IsBegun starts.rule starts.from starts.cursor)) }
{
    let Some(value) = &event.rule else {
        return Ok(None);
    };
    let parts = value.parts();
    let kept = if keeps {
        KeptLocals::new(alloc, event)
    } else {
        None
    };
    let rule = rule_of(alloc, event, parts, &kept)?;
    let from = begin_of_rule(zones, event, &window, since, met, listed);
    let counts = is_counted(event);
    let mark = counted(counts, mark);
    let mark = begun_before(rule.get(), counts && keeps, from, mark);
    Ok(Some(RuleStarts::new(alloc, zones, event, window, rule, from, mark, kept)))
}

/// Reads up to the next local of a rule, if the first of the starts that it still gives is not known. Whether it may still not be.
fn read_rule(rule: &mut Option<RuleStarts<'_>>) -> Result<bool, AllocError>
    ensures same { rule_left rule.new ≡ rule_left rule.old }
    ensures rule { HasSameRule rule.old rule.new }
    ensures ready { IfOk result (λ more. more ≡ false → IsReady rule.new) }
    ensures less { IfOk result (λ more. more ≡ true → rule_steps rule.new < rule_steps rule.old) }
{
    match rule {
        None => Ok(false),
        Some(starts) => starts.read_next(),
    }
}

/// The first of the starts that a rule still gives. It is known.
fn first_of_rule(rule: &Option<RuleStarts<'_>>) -> Option<Start>
    requires { IsReady rule.now }
    ensures { result ≡ slice_get (rule_left rule.now) 0 }
{
    match rule {
        None => None,
        Some(starts) => starts.first(),
    }
}

/// Whether a rule keeps locals close to one another, of which another has to be read.
fn is_dense(rule: &Option<RuleStarts<'_>>) -> bool {
    match rule {
        None => false,
        Some(starts) => starts.is_dense(),
    }
}

/// Ends a search of a rule, if there is one.
fn rest_rule(rule: &mut Option<RuleStarts<'_>>)
    ensures left { rule_left rule.new ≡ rule_left rule.old }
    ensures rule { HasSameRule rule.old rule.new }
{
    if let Some(starts) = rule {
        starts.rest();
    }
}

/// Drops the first of these, if it is at the instant of this one.
fn pass_rule(rule: &mut Option<RuleStarts<'_>>, start: &Start)
    requires { IsReady rule.old }
    ensures left { rule_left rule.new ≡ cut moment_cmp start.now (rule_left rule.old) }
    ensures rule { HasSameRule rule.old rule.new }
    ensures asked { rule_asked rule.new ≡ rule_asked rule.old }
{
    if let Some(starts) = rule {
        starts.pass(start);
    }
}

/// Passes over the next locals of a rule, if EXDATEs remove all of them that it keeps.
fn skip_rule(rule: &mut Option<RuleStarts<'_>>, exclusions: &Exclusions)
    ensures { AreSkipped exclusions.now.instants.items exclusions.now.days.items rule.old rule.new }
{
    if let Some(starts) = rule {
        starts.skip(exclusions);
    }
}

/// Passes over the next locals of a rule that mean instants before one.
fn pass_rule_before(rule: &mut Option<RuleStarts<'_>>, moment: Moment)
    ensures { AreEnded moment rule.old rule.new }
{
    if let Some(starts) = rule {
        starts.pass_before(moment);
    }
}

/// Passes over the next locals of a rule that a stretch shows from an instant on and before another.
fn pass_rule_between(rule: &mut Option<RuleStarts<'_>>, from: Moment, to: Moment)
    ensures { AreLeapt from to rule.old rule.new }
{
    if let Some(starts) = rule {
        starts.pass_between(from, to);
    }
}

/// The instant of a rule's next local, if a stretch shows it.
fn next_shown(rule: &Option<RuleStarts<'_>>) -> Moment
    ensures { (year_seconds 0 -ℤ pos 93_599) ≤ℤ result }
{
    match rule {
        None => Moment::MAX,
        Some(starts) => starts.next_shown(),
    }
}

/// The stretch of locals that is known to a rule.
fn known_stretch(rule: &Option<RuleStarts<'_>>) -> Stretch
    ensures { MatchOption rule.now ((clock : Clock) → IsStretched clock result)
        (λ s. IsStretched (clock_of (clocks_in s.zones) s.event.now.start) result) }
{
    match rule {
        None => no_stretch(0),
        Some(starts) => starts.known_stretch(),
    }
}

/// A stretch about the local at which a rule gives a start, as far as the rule knows one. It may be empty.
fn shown_at(rule: &Option<RuleStarts<'_>>, start: Start) -> Stretch
    requires { IsRdate start.given }
    ensures { MatchOption rule.now ((clock : Clock) → IsStretched clock result)
        (λ s. IsStretched (clock_of (clocks_in s.zones) s.event.now.start) result) }
{
    match (rule, start.given) {
        (Some(starts), Rdate::At(time)) => starts.shown_at(local_of(time.stamp).seconds()),
        _ => no_stretch(0),
    }
}

/// The first start of two lists, of which these are the first. If both are at one instant, it is the one
/// by the rule.
fn earlier_of(ruled: Option<Start>, listed: Option<Start>) -> Option<Start>
    ensures { (xs ys : List Start) → Rises moment_cmp xs → Rises moment_cmp ys → ruled ≡ slice_get xs 0 → listed ≡ slice_get ys 0
        → IsFirstOf result xs ys }
{
    let Some(b) = listed else {
        return ruled;
    };
    match ruled {
        Some(a) if a.moment <= b.moment => ruled,
        _ => listed,
    }
}

/// An instant before which none of the starts that a rule still gives is.
fn rule_from(rule: &Option<RuleStarts<'_>>) -> Moment
    ensures { (start : Start) → IsIn start (rule_left rule.now) → result ≤ℤ start.moment }
{
    match rule {
        None => Moment::MAX,
        Some(starts) => starts.from(),
    }
}

/// The same of the starts that are known.
fn listed_from(listed: &ListedStarts) -> Moment
    ensures { (start : Start) → IsIn start (listed_left listed.now) → result ≤ℤ start.moment }
{
    match listed.peek() {
        None => Moment::MAX,
        Some(first) => first.moment,
    }
}

/// An instant before which no local after DTSTART gives a start, of those from the first that was read on and
/// at the window's end or later. A mark of the rule may be put.
fn rule_quiet(rule: &Option<RuleStarts<'_>>, mark: &mut Option<Mark>) -> Moment
    ensures to { MatchOption rule.now (Unit {0}) (λ s. AreQuiet (clocks_in s.zones) s.event.now s.rule s.window (number s.from) result) }
    ensures mark { MatchOption rule.now (mark.new ≡ mark.old) (λ s. IsMarked s.rule mark.old mark.new) }
{
    match rule {
        None => Moment::MAX,
        Some(starts) => starts.quiet(mark),
    }
}

/// Puts the places of the EXDATEs and RDATEs of an event in the order of their locals, unless they stand in it or are few.
fn place_dates(
    dates: &mut Option<Box<DatesByLocal>>,
    alloc: Global,
    event: &Event,
) -> Result<(), AllocError>
    requires { HasDates event.now dates.old }
    ensures { HasDates event.entry.now dates.new }
{
    if dates.is_none() {
        *dates = DatesByLocal::new(alloc, event)?;
    }
    Ok(())
}

impl<'a> Series<'a> {
    ghost use Rattle.std.specs.Prelude.{◌<◌, ◌<ℤ◌, ◌≤◌, [], ◌∷◌, false, length, true, IfOk, OnErr, OnOk, Some};
    ghost use Rattle.std.specs.Option.{option_map};
    ghost use Rattle.ics_listing.specs.Entry.{Entry, entry_of};
    ghost use Rattle.ics_starts.specs.Quiet.{IsQuietTo};
    ghost use Rattle.ics_listing.specs.Listing.{IsListing};
    ghost use Rattle.ics_starts.specs.SeriesFeed.{series_left, series_near, series_of, series_sources, source_of, IsSameSeries};
    ghost use Rattle.ics_starts.specs.SeriesStarts.{wanted_by, IsSeriesMet};

    /// The occurrences of an event of the file that meet the window and begin at the instant `since` or later, but for those that others replace.
    /// Under COUNT the rule is searched from the mark on, which a series of the same event has given. Of a series that rests from day to day (`keeps`)
    /// what is found of the rule may be kept, and under COUNT what is before its search is counted at once, so that its mark knows it.
    pub fn new(
        alloc: Global,
        zones: FileZones<'a>,
        event: &'a Event,
        window: Window,
        since: Moment,
        mark: Option<&Mark>,
        keeps: bool,
        replaced: Replaced,
    ) -> Result<Series<'a>, AllocError>
        requires own { IsOwnEvent zones event.now }
        requires mark { MatchOption mark (Unit {0}) (λ m. IsMarkOf event.now (Some m.now)) }
        ensures listing { IfOk result (λ series. IsListing entry_cmp
            (IsSeriesMet (clocks_in zones.entry) event.entry.now window since replaced)
            (⟦<Series<'a> as Coming>⟧.coming series)) }
        ensures sources { IfOk result (λ series. series_sources series ≡ source_of (clocks_in zones.entry) event.entry.now window since replaced) }
        ensures begun { IfOk result (λ series. MatchOption series.rule_starts (Unit {0}) (λ s. IsBegun s.rule s.from s.cursor)) }
    {
        let met = first_met(zones, event, &window);
        let dates = None;
        let (listed, exclusions) = lists_of(alloc, zones, event, &window, since, met, &dates)?;
        let rule_starts = starts_by_rule(
            alloc, zones, event, window, since, met, &listed, mark, keeps,
        )?;
        Ok(Series {
            zones,
            event,
            window,
            since,
            first: None,
            exclusions,
            replaced,
            rule_starts,
            listed: ListedStarts::new(alloc, listed)?,
            ends: Ends::new(),
            told_ends: ToldEnds::new(alloc, event),
            dates,
        })
    }

    /// Becomes the series of its event for another window and instant. What its searches have found of the rule is known. After an `AllocError` it is
    /// what it was.
    pub fn again(
        &mut self,
        alloc: Global,
        window: Window,
        since: Moment,
        mark: Option<&Mark>,
    ) -> Result<(), AllocError>
        requires mark { MatchOption mark (Unit {0}) (λ m. IsMarkOf self.old.event.now (Some m.now)) }
        ensures listing { OnOk result (IsListing entry_cmp
            (IsSeriesMet (clocks_in self.old.zones) self.old.event.now window since self.old.replaced)
            (⟦<Series<'a> as Coming>⟧.coming self.new)) }
        ensures sources { OnOk result (series_sources self.new
            ≡ source_of (clocks_in self.old.zones) self.old.event.now window since self.old.replaced) }
        ensures zones { self.new.zones ≡ self.old.zones }
        ensures event { self.new.event ≡ self.old.event }
        ensures replaced { self.new.replaced ≡ self.old.replaced }
        ensures window { OnOk result (self.new.window ≡ window) }
        ensures since { OnOk result (self.new.since ≡ since) }
        ensures err { OnErr result (series_of self.new (series_left self.new) ≡ series_of self.old (series_left self.old)) }
        ensures still { OnErr result (series_sources self.new ≡ series_sources self.old) }
        ensures begun { OnOk result (MatchOption self.new.rule_starts (Unit {0}) (λ s. IsBegun s.rule s.from s.cursor)) }
    {
        let (zones, event) = (self.zones, self.event);
        place_dates(&mut self.dates, alloc, event)?;
        let met = first_met(zones, event, &window);
        let (listed, exclusions) = lists_of(alloc, zones, event, &window, since, met, &self.dates)?;
        let begin = begin_of_rule(zones, event, &window, since, met, &listed);
        let starts = ListedStarts::new(alloc, listed)?;
        begin_again(
            &mut self.rule_starts,
            alloc,
            zones,
            event,
            window,
            begin,
            mark,
        );
        self.window = window;
        self.since = since;
        self.first = None;
        self.exclusions = exclusions;
        self.listed = starts;
        self.ends = Ends::new();
        again(&mut self.told_ends);
        Ok(())
    }

    /// Reads up to the rule's next local, if the first of the starts that it still gives is not known. Whether it may still not be.
    fn read_next(&mut self) -> Result<bool, AllocError>
        ensures left { series_left self.new ≡ series_left self.old }
        ensures same { IsSameSeries self.old self.new }
        ensures ready { IfOk result (λ more. more ≡ false → IsReady self.new.rule_starts) }
        ensures less { IfOk result (λ more. more ≡ true → rule_steps self.new.rule_starts < rule_steps self.old.rule_starts) }
    {
        read_rule(&mut self.rule_starts)
    }

    /// The first start still to come. Where the rule keeps locals close to one another, those that it need not be read for are passed over.
    fn peek(&mut self) -> Result<Option<Start>, AllocError>
        ensures coming { series_of self.new (series_left self.new) ≡ series_of self.old (series_left self.old) }
        ensures fewer { length (series_left self.new) ≤ length (series_left self.old) }
        ensures same { IsSameSeries self.old self.new }
        ensures first { IfOk result (λ first. IsFirstOf first (rule_left self.new.rule_starts) (listed_left self.new.listed)) }
        ensures ready { OnOk result (IsReady self.new.rule_starts) }
    {
        while self.read_next()? {
            self.skip_dense();
        }
        let ruled = first_of_rule(&self.rule_starts);
        Ok(earlier_of(ruled, self.listed.peek()))
    }

    /// Drops the first start still to come. `peek` has answered it before.
    fn pass(&mut self, start: &Start)
        requires first { IsFirstOf (Some start.now) (rule_left self.old.rule_starts) (listed_left self.old.listed) }
        requires ready { IsReady self.old.rule_starts }
        ensures taken { series_left self.old ≡ start.now ∷ series_left self.new }
        ensures same { IsSameSeries self.old self.new }
        ensures near { (o : Entry) → IsIn o (series_of self.old (series_left self.old)) → series_near self.new o }
    {
        pass_rule(&mut self.rule_starts, start);
        self.listed.pass(start);
    }

    /// The window that its occurrences meet.
    pub fn window(&self) -> Window
        ensures { result ≡ self.now.window }
    {
        self.window
    }

    /// The instant from which on the occurrences of the series begin.
    pub fn since(&self) -> Moment
        ensures { result ≡ self.now.since }
    {
        self.since
    }

    /// An instant before which no occurrence begins, of those that begin at the window's end or later and are
    /// of the series. A mark that tells where a later search of its rule can begin may be put in place of this one.
    pub fn quiet(&self, mark: &mut Option<Mark>) -> Moment
        ensures to { IsQuietTo (clocks_in self.now.zones) self.now.event.now self.now.window self.now.since result }
        ensures mark { IsMarkOf self.now.event.now mark.old → IsMarkOf self.now.event.now mark.new }
    {
        let listed = listed_again(self.zones, self.event, &self.dates, self.window.to);
        listed.min(rule_quiet(&self.rule_starts, mark))
    }

    /// The same, but no later than an instant. Where that is not past the window's end, neither the rule nor a clock is asked.
    pub fn quiet_up_to(&self, most: Moment, mark: &mut Option<Mark>) -> Moment
        ensures to { IsQuietTo (clocks_in self.now.zones) self.now.event.now self.now.window self.now.since result }
        ensures most { result ≤ℤ most }
        ensures mark { IsMarkOf self.now.event.now mark.old → IsMarkOf self.now.event.now mark.new }
    {
        if most <= self.window.to {
            return most;
        }
        self.quiet(mark).min(most)
    }

    /// Passes over locals that the rule need not be read for, since what they give is removed or has ended.
    fn skip(&mut self)
        ensures coming { series_of self.new (series_left self.new) ≡ series_of self.old (series_left self.old) }
        ensures fewer { length (series_left self.new) ≤ length (series_left self.old) }
        ensures same { IsSameSeries self.old self.new }
        ensures steps { rule_steps self.new.rule_starts ≤ rule_steps self.old.rule_starts }
    {
        self.skip_ended();
        self.skip_over();
        self.skip_removed();
    }

    /// Passes over such locals where the rule keeps locals close to one another, of which another has to be read.
    fn skip_dense(&mut self)
        ensures coming { series_of self.new (series_left self.new) ≡ series_of self.old (series_left self.old) }
        ensures fewer { length (series_left self.new) ≤ length (series_left self.old) }
        ensures same { IsSameSeries self.old self.new }
        ensures steps { rule_steps self.new.rule_starts ≤ rule_steps self.old.rule_starts }
    {
        if is_dense(&self.rule_starts) {
            self.skip_shown();
            self.skip();
        }
    }

    /// An instant before which no start by the rule gives an occurrence.
    fn first_given(&self) -> Moment
        ensures { IsFirstGiven (clocks_in self.now.zones) self.now.window self.now.event.now self.now.since result }
    {
        match self.first {
            Some(first) => first,
            None => match &self.rule_starts {
                None => self.since,
                Some(starts) => first_given(
                    self.zones,
                    self.event,
                    &self.window,
                    self.since,
                    starts.bounds(),
                ),
            },
        }
    }

    /// Passes over locals at which nothing begins that can meet the window, up to the next start that is known: one by the rule at its instant
    /// hides it.
    fn skip_ended(&mut self)
        ensures coming { series_of self.new (series_left self.new) ≡ series_of self.old (series_left self.old) }
        ensures fewer { length (series_left self.new) ≤ length (series_left self.old) }
        ensures same { IsSameSeries self.old self.new }
        ensures steps { rule_steps self.new.rule_starts ≤ rule_steps self.old.rule_starts }
    {
        let first = self.first_given();
        let listed = listed_from(&self.listed);
        self.first = Some(first);
        pass_rule_before(&mut self.rule_starts, first.min(listed));
    }

    /// The same of the next locals in a stretch, between the starts that are known.
    fn skip_shown(&mut self)
        ensures coming { series_of self.new (series_left self.new) ≡ series_of self.old (series_left self.old) }
        ensures fewer { length (series_left self.new) ≤ length (series_left self.old) }
        ensures same { IsSameSeries self.old self.new }
        ensures steps { rule_steps self.new.rule_starts ≤ rule_steps self.old.rule_starts }
    {
        let first = self.first_given();
        let from = next_shown(&self.rule_starts);
        let listed = self.listed.from(from);
        self.first = Some(first);
        pass_rule_between(&mut self.rule_starts, from, first.min(listed));
    }

    /// Passes over the next locals in a stretch whose occurrences have ended when the window begins, up to the next start that is known.
    fn skip_over(&mut self)
        ensures coming { series_of self.new (series_left self.new) ≡ series_of self.old (series_left self.old) }
        ensures fewer { length (series_left self.new) ≤ length (series_left self.old) }
        ensures same { IsSameSeries self.old self.new }
        ensures steps { rule_steps self.new.rule_starts ≤ rule_steps self.old.rule_starts }
    {
        let from = next_shown(&self.rule_starts);
        if self.window.from <= from {
            return;
        }
        if let Some(duration) = lasting_by(self.zones, self.event) {
            self.pass_over(duration, from);
        }
    }

    /// The same of the locals from one on that a stretch shows at an instant, where each occurrence by the rule lasts a duration.
    fn pass_over(&mut self, duration: Duration, from: Moment)
        requires short { IsLasting duration }
        requires lasting { AreLasting (clocks_in self.old.zones) self.old.event.now duration }
        requires late { (year_seconds 0 -ℤ pos 93_599) ≤ℤ from }
        requires begun { from <ℤ self.old.window.from }
        ensures coming { series_of self.new (series_left self.new) ≡ series_of self.old (series_left self.old) }
        ensures fewer { length (series_left self.new) ≤ length (series_left self.old) }
        ensures same { IsSameSeries self.old self.new }
        ensures steps { rule_steps self.new.rule_starts ≤ rule_steps self.old.rule_starts }
    {
        let event = self.event;
        let shown = known_stretch(&self.rule_starts);
        let over = self.ends.over_to(
            self.zones,
            event.start,
            shown,
            duration,
            self.window.from,
            from,
        );
        let listed = self.listed.from(from);
        pass_rule_between(&mut self.rule_starts, from, over.min(listed));
    }

    /// Passes over locals whose starts EXDATEs remove.
    fn skip_removed(&mut self)
        ensures coming { series_of self.new (series_left self.new) ≡ series_of self.old (series_left self.old) }
        ensures fewer { length (series_left self.new) ≤ length (series_left self.old) }
        ensures same { IsSameSeries self.old self.new }
        ensures steps { rule_steps self.new.rule_starts ≤ rule_steps self.old.rule_starts }
    {
        skip_rule(&mut self.rule_starts, &self.exclusions);
    }

    /// Whether an EXDATE removes a start at an instant. This is known of those that can give an occurrence.
    fn is_removed(&self, moment: Moment) -> bool
        requires late { occurrence_first ≤ℤ moment }
        requires early { moment <ℤ self.now.window.to }
        ensures { result ≡ is_excluded (clocks_in self.now.zones) self.now.event.now moment }
    {
        let (zones, event) = (self.zones, self.event);
        if self.exclusions.knows(moment) {
            self.exclusions.has(zones, event.start, moment)
        } else {
            is_excluded(zones, event, moment)
        }
    }

    /// The end of the occurrence with a start, if stretches tell it.
    #[inline(always)]
    fn told(&mut self, start: &Start) -> Option<Moment>
        requires { IsStartIn self.old.zones start.now }
        ensures told { IfSome result (IsFinish (clocks_in self.old.zones) self.old.event.now start.entry.now) }
        ensures same { IsSameSeries self.old self.new }
        ensures rule { self.new.rule_starts ≡ self.old.rule_starts }
        ensures listed { self.new.listed ≡ self.old.listed }
    {
        if self.told_ends.is_some() {
            return self.tell(start);
        }
        None
    }

    /// The same where they may tell it.
    #[inline(never)]
    fn tell(&mut self, start: &Start) -> Option<Moment>
        requires { IsStartIn self.old.zones start.now }
        ensures told { IfSome result (IsFinish (clocks_in self.old.zones) self.old.event.now start.entry.now) }
        ensures same { IsSameSeries self.old self.new }
        ensures rule { self.new.rule_starts ≡ self.old.rule_starts }
        ensures listed { self.new.listed ≡ self.old.listed }
    {
        if start.moment < self.since || self.window.to <= start.moment {
            return None;
        }
        let event = self.event;
        let Some(told) = &mut self.told_ends else {
            return None;
        };
        if !told.may_tell(start.moment) {
            return None;
        }
        let shown = shown_at(&self.rule_starts, *start);
        told.end(&mut self.ends.spans, self.zones, event, *start, shown)
    }

    /// The occurrence with a start, if it belongs to the list. Its end may have been told.
    fn wanted(&self, start: Start, told: Option<Moment>) -> Option<Occurrence<'a>>
        requires start { IsStartIn self.now.zones start }
        requires told { IfSome told (IsFinish (clocks_in self.now.zones) self.now.event.now start) }
        ensures { option_map entry_of result ≡ wanted_by (clocks_in self.now.zones) self.now.window self.now.event.now self.now.since
            self.now.replaced start }
    {
        if start.moment < self.since {
            return None;
        }
        if self.replaced.names(start.moment) {
            return None;
        }
        let (zones, event) = (self.zones, self.event);
        let occurrence = met_by(zones, event, start, &self.window, told)?;
        if self.is_removed(occurrence.start) {
            None
        } else {
            Some(occurrence)
        }
    }
}

impl<'a> Coming for Series<'a> {
    ghost use Rattle.ics_starts.specs.SeriesFeed.{series_left, series_near, series_near-prop, series_of, series_sources};

    ghost coming = { λ series. series_of series (series_left series) };

    ghost sources = { series_sources };

    ghost near = { series_near };

    ghost near_prop = { series_near-prop };
}

impl<'a> Series<'a> {
    ghost use Rattle.std.specs.Prelude.{length};
    ghost use Rattle.ics_starts.specs.RuleHolding.{rule_looked, series_holds};
    ghost use Rattle.ics_starts.specs.RuleMarks.{IsMarkOf};
    ghost use Rattle.ics_starts.specs.SeriesFeed.{series_left, series_of, IsSameSeries};

    /// Where the search of its rule begins, of which nothing was read yet. Without COUNT there is no mark.
    pub fn mark(&self) -> Option<Mark>
        requires { MatchOption self.now.rule_starts (Unit {0}) (λ s. IsBegun s.rule s.from s.cursor) }
        ensures { IsMarkOf self.now.event.now result }
    {
        match &self.rule_starts {
            None => None,
            Some(starts) => starts.mark(),
        }
    }

    /// Ends its search. What that has found of its rule is known to the next.
    pub fn rest(&mut self)
        ensures coming { series_of self.new (series_left self.new) ≡ series_of self.old (series_left self.old) }
        ensures same { IsSameSeries self.old self.new }
    {
        rest_rule(&mut self.rule_starts);
    }

    /// Its event.
    pub fn event(&self) -> &'a Event
        ensures { result ≡ self.now.event }
    {
        self.event
    }

    /// How many starts of its rule are held.
    pub fn held(&self) -> usize
        ensures { result ≡ length (series_holds self.now) }
    {
        match &self.rule_starts {
            None => 0,
            Some(starts) => starts.held(),
        }
    }

    /// How many periods of its rule were looked at.
    pub fn steps(&self) -> u64
        ensures { result ≡ rule_looked self.now.rule_starts }
    {
        match &self.rule_starts {
            None => 0,
            Some(starts) => starts.steps(),
        }
    }
}

impl<'a> Begins for Series<'a> {
    fn from(&self) -> Moment {
        let starts = rule_from(&self.rule_starts).min(listed_from(&self.listed));
        self.since.max(starts)
    }
}

impl<'a> Feed<'a> for Series<'a> {
    ghost rises = { λ series. series.rising };

    fn next(&mut self) -> Result<Option<Occurrence<'a>>, AllocError> {
        while let Some(start) = self.peek()? {
            let told = self.told(&start);
            let wanted = self.wanted(start, told);
            self.pass(&start);
            if let Some(occurrence) = wanted {
                return Ok(Some(occurrence));
            }
            self.skip();
        }
        Ok(None)
    }
}
