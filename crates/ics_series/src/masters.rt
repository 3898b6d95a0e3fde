//! The masters that recur, each of them as a feed.
ghost use Rattle.std.specs.Prelude.{◌≡◌, ◌<◌, ◌<ℤ◌, ◌≤◌, ◌≤ℤ◌, [], ◌∷◌, false, length, map, slice_get, true, IfOk, MatchOption, None, Some};
ghost use Rattle.std.specs.List.{filter_map, flat_map, AllByRecursion};
ghost use Rattle.std.specs.List.Sorted.{IsPartitionedBy, IsPartitionPoint};
ghost use Rattle.std.specs.Option.{option_map};
ghost use Rattle.std.specs.Ordering.{on};
ghost use Rattle.std.specs.Str.{bytes_eq};
ghost use Rattle.ics_file.specs.File.{said_by};
ghost use Rattle.ics_starts.specs.Clocks.{display_clock};
ghost use Rattle.ics_listing.specs.Entry.{entry_cmp, key_rank, Entry};
ghost use Rattle.ics_listing.specs.Leads.{IsFresh};
ghost use Rattle.ics_listing.specs.Listing.{IsIn, IsListing};
ghost use Rattle.ics_listing.specs.Rising.{Rises};
ghost use Rattle.ics_series.specs.Inner.Kept.{AreKept, IsPartOf};
ghost use Rattle.ics_series.specs.Inner.Ended.{AreMovedOff, IsMasterAt, IsOverPart};
ghost use Rattle.ics_series.specs.Inner.Marks.{AreMarks, StayMarks};
ghost use Rattle.ics_starts.specs.RuleMarks.{IsBegun, IsMarkOf};
ghost use Rattle.ics_series.specs.Inner.Masters.{AreFrom, HasLists, HasSources, IsBehind, IsOfVersion, IsSince, IsSourceOf, Recurs, named_by};
ghost use Rattle.ics_days.specs.NearPlaces.{AreNear};
ghost use Rattle.ics_series.specs.AgendaParts.{part_coming, part_near, part_sources, ComesSince};
ghost use Rattle.ics_continued.specs.Continued.{continued_sources, IsContinuedMet};
ghost use Rattle.ics_continued.specs.Ends.{end_of, first_instant};
ghost use Rattle.ics_starts.specs.SeriesFeed.{source_of};
ghost use Rattle.ics_starts.specs.SeriesStarts.{IsSeriesMet};
ghost use Rattle.ics_starts.specs.SingleEvents.{is_single};
ghost use Rattle.ics_listing.specs.FeedSources.{Recurring};
ghost use Rattle.ics_series.specs.Sources.{IsFrom};
ghost use Rattle.ics_listing.specs.FeedSources.Source.{Of};
ghost use Rattle.ics_starts.specs.FileZones.{clocks_in, IsOwnEvent};
ghost use Rattle.ics_series.specs.Inner.Spans.{AreSpansBehind};
ghost use Rattle.ics_series.specs.Versions.{seen, subject_cmp, AreChosen};
ghost use Rattle.ics_series.specs.declared.part.Part.TheVariants as part;

use crate::kept::take_kept;
use crate::marks::{mark_at, put_mark};
use crate::part::{Part, PlacedSeries};
use crate::span::{is_out, put_span};
use crate::version::Version;
use ics_continued::Continued;
use ics_days::{Span, first_at};
use ics_event::Event;
use ics_file::FileEvents;
use ics_listing::{Coming, Key, Lead, Window};
use ics_starts::{FileZones, Mark, Replaced, is_single};
use ics_values::Moment;
use ics_zone::Display;
use std::alloc::{AllocError, Global};
use std::cmp::Ordering;

/// A week, in seconds.
const WEEK: i64 = 604_800;

/// Adds a feed for each version that counts and whose event recurs: its occurrences that meet the
/// window and, with a key, come after it, but for those that overrides replace. Those of versions that are at none
/// of the near places, or whose spans cannot meet the window, are left out. The searches of rules under COUNT go on from their marks, and
/// leave a mark where they began. No feed begins before the span of its version. What ends after `by` may meet a later window.
pub(crate) fn push_series<'a>(
    alloc: Global,
    leads: &mut Vec<Lead<'a, Part<'a>>>,
    files: &'a [FileEvents],
    display: &'a Display,
    chosen: &[Version<'_>],
    near: &[usize],
    spans: &[Span],
    marks: &mut Vec<Option<Mark>>,
    kept: &mut Vec<Option<Box<Continued<'a>>>>,
    window: Window,
    after: Option<&Key>,
    by: Moment,
) -> Result<(), AllocError>
    requires chosen { AreChosen (map said_by files.now) (display_clock display.now) chosen.now }
    requires spans { AreSpansBehind (map said_by files.now) (display_clock display.now) window (option_map (λ key. key_rank key.now) after)
        (map seen chosen.now) spans.now }
    requires near { AreNear spans.now window (length chosen.now) near.now }
    requires marks { AreMarks (map said_by files.now) (map seen chosen.now) marks.old.items }
    requires kept { AreKept (map said_by files.now) (display_clock display.now) kept.old.items }
    ensures marks { AreMarks (map said_by files.entry.now) (map seen chosen.entry.now) marks.new.items }
    ensures kept { AreKept (map said_by files.entry.now) (display_clock display.entry.now) kept.new.items }
    ensures lists { IfOk result (λ _. HasLists (map said_by files.entry.now) (display_clock display.entry.now) window
        (option_map (λ key. key_rank key.now) after.entry) (map seen chosen.entry.now)
        (map (λ l. part_coming l.feed) leads.old.items) (map (λ l. part_coming l.feed) leads.new.items)) }
    ensures sources { IfOk result (λ _. HasSources (map said_by files.entry.now) (display_clock display.entry.now) window
        (option_map (λ key. key_rank key.now) after.entry) (map seen chosen.entry.now)
        (flat_map (λ l. part_sources l.feed) leads.old.items) (flat_map (λ l. part_sources l.feed) leads.new.items)) }
    ensures fresh { IfOk result (λ _. AllByRecursion (λ l. IsFresh (part_near l.feed) l.head (part_coming l.feed)) leads.old.items
        → AllByRecursion (λ l. IsFresh (part_near l.feed) l.head (part_coming l.feed)) leads.new.items) }
    ensures since { kept.old.items ≡ [] → IfOk result (λ _. AllByRecursion (λ l. ComesSince l.feed) leads.old.items
        → AllByRecursion (λ l. ComesSince l.feed) leads.new.items) }
{
    for place in near {
        let place = *place;
        if is_out(spans, place, &window) {
            continue;
        }
        let event = chosen[place].spot.event(files);
        // A series takes much room, which is cleared where one may be made.
        if is_single(event) {
            continue;
        }
        let begin = first_at(spans, place);
        if let Some(series) = series_at(
            alloc, files, display, chosen, place, marks, kept, window, after, begin, by,
        )? {
            put_mark(marks, place, series.mark());
            let placed = PlacedSeries {
                place,
                event,
                series,
            };
            leads.push(Lead::of(Part::Series(placed)))?;
        }
    }
    Ok(())
}

/// Whether the span at a place begins more than a week before an instant. To move it on takes longer than to search a few days once more.
pub(crate) fn is_far(spans: &[Span], place: usize, moment: Moment) -> bool {
    first_at(spans, place) < moment.saturating_sub(WEEK)
}

/// Moves on the span at the place of a series with nothing to come, up to the least start of what ends after an instant. It is left where that is not
/// later, the place is not a near one of its version, or the series begins later than the floor and the span. The mark is moved on too, if the series
/// tells one. It is apart from the end of a day, on most of which nothing recurs.
#[inline(never)]
#[tactic(auto, using(crate::proofs::OverLemmas::moved_none, crate::proofs::OverLemmas::stay_none))]
pub(crate) fn move_off(
    versions: &[Version<'_>],
    near: &[usize],
    spans: &mut Vec<Span>,
    marks: &mut Vec<Option<Mark>>,
    ended: &PlacedSeries<'_>,
    floor: Option<Moment>,
    by: Moment,
    least: Moment,
)
    requires least { first_instant <ℤ least → (o : Entry) → IsContinuedMet ended.now.series.value o → by <ℤ end_of o → least ≤ℤ o.start }
    ensures spans { AreMovedOff versions.now near.now (λ s day. IsOverPart s day floor by (part.Series ended.now)) spans.old.items spans.new.items }
    ensures marks { StayMarks versions.now (λ files display. IsPartOf files display (part.Series ended.now)) marks.old.items marks.new.items }
{
    let place = ended.place;
    let begin = first_at(spans, place);
    let begun = floor.unwrap_or(Moment::MIN).max(begin);
    if begun < ended.series.since() || least <= begin {
        return;
    }
    let event = ended.event;
    if !is_master_at(versions, place, event.uid.as_slice()) {
        return;
    }
    if !is_near(near, place) {
        return;
    }
    let mut mark = None;
    let span = Span {
        first: ended.series.quiet_up_to(least, &mut mark),
        last: Moment::MAX,
    };
    if mark.is_some() {
        put_mark(marks, place, mark);
    }
    put_span(spans, place, span);
}

/// Whether a place is a near one.
fn is_near(near: &[usize], place: usize) -> bool
    ensures { result ≡ true → IsIn place near.now }
{
    near.binary_search(&place).is_ok()
}

/// Whether a place is that of the version of the master with a UID.
fn is_master_at(versions: &[Version<'_>], place: usize, uid: &[u8]) -> bool
    ensures { result ≡ true → IsMasterAt (map seen versions.now) place uid.now }
{
    match versions.get(place) {
        None => false,
        Some(version) => version.subject.recurrence.is_none() && version.subject.uid == uid,
    }
}

/// The feed of the version at a place, if its event recurs. It begins at the instant `begin` or later, as all does
/// that is to come of the version.
#[inline(never)]
fn series_at<'a>(
    alloc: Global,
    files: &'a [FileEvents],
    display: &'a Display,
    chosen: &[Version<'_>],
    place: usize,
    marks: &[Option<Mark>],
    kept: &mut Vec<Option<Box<Continued<'a>>>>,
    window: Window,
    after: Option<&Key>,
    begin: Moment,
    by: Moment,
) -> Result<Option<Box<Continued<'a>>>, AllocError>
    requires chosen { AreChosen (map said_by files.now) (display_clock display.now) chosen.now }
    requires within { place < length chosen.now }
    requires marks { AreMarks (map said_by files.now) (map seen chosen.now) marks.now }
    requires begin { (version : Version) → slice_get chosen.now place ≡ Some version → AreFrom (map said_by files.now) (display_clock display.now) window
        (option_map (λ key. key_rank key.now) after) (seen version) begin }
    requires kept { AreKept (map said_by files.now) (display_clock display.now) kept.old.items }
    ensures kept { AreKept (map said_by files.entry.now) (display_clock display.entry.now) kept.new.items }
    ensures none { kept.old.items ≡ [] → kept.new.items ≡ [] }
    ensures series { (version : Version) → slice_get chosen.entry.now place ≡ Some version → IfOk result (λ given. MatchOption given
        (Recurs (map said_by files.entry.now) (seen version) → ⊥)
        (λ series. IsListing entry_cmp (IsOfVersion (map said_by files.entry.now) (display_clock display.entry.now) window
        (option_map (λ key. key_rank key.now) after.entry) (seen version)) (⟦<Continued<'a> as Coming>⟧.coming series.value))) }
    ensures since { (version : Version) → slice_get chosen.entry.now place ≡ Some version → IfOk result (λ given. MatchOption given (Unit {0})
        (λ series. IsBehind (map said_by files.entry.now) (display_clock display.entry.now) window
        (option_map (λ key. key_rank key.now) after.entry) (seen version) series.value.since)) }
    ensures begun { IfOk result (λ given. MatchOption given (Unit {0}) (λ series. MatchOption series.value.series.rule_starts (Unit {0})
        (λ s. IsBegun s.rule s.from s.cursor))) }
    ensures come { kept.old.items ≡ [] → IfOk result (λ given. MatchOption given (Unit {0}) (λ series. (o : Entry)
        → IsIn o (⟦<Continued<'a> as Coming>⟧.coming series.value) → series.value.series.since ≤ℤ o.start)) }
    ensures sources { (version : Version) → slice_get chosen.entry.now place ≡ Some version → IfOk result (λ given. MatchOption given (Unit {0})
        (λ series. (m : Recurring) × IsSourceOf (map said_by files.entry.now) (display_clock display.entry.now) window
        (option_map (λ key. key_rank key.now) after.entry) (seen version) m × (continued_sources series.value ≡ Of m ∷ []))) }
{
    let version = chosen[place];
    let event = version.spot.event(files);
    if is_single(event) {
        return Ok(None);
    }
    let zones = version.spot.zones(files, display);
    let since = since_of(after, event.uid.as_slice()).max(begin);
    let mark = mark_at(marks, place);
    if let Some(mut series) = take_kept(kept, place, event) {
        series.again(alloc, window, since, by, mark)?;
        return Ok(Some(series));
    }
    let replaced = replaced_at(alloc, chosen, place)?;
    let keeps = place < kept.len();
    let series = new_series(
        alloc, zones, event, window, since, by, mark, keeps, replaced,
    )?;
    Ok(Some(series))
}

/// A new series of an event. It is made apart from what asks for it, so that its room is cleared only here.
#[inline(never)]
fn new_series<'a>(
    alloc: Global,
    zones: FileZones<'a>,
    event: &'a Event,
    window: Window,
    since: Moment,
    by: Moment,
    mark: Option<&Mark>,
    keeps: bool,
    replaced: Replaced,
) -> Result<Box<Continued<'a>>, AllocError>
    requires own { IsOwnEvent zones event.now }
    requires mark { MatchOption mark (Unit {0}) (λ m. IsMarkOf event.now (Some m.now)) }
    ensures listing { IfOk result (λ series. IsListing entry_cmp
        (IsSeriesMet (clocks_in zones.entry) event.entry.now window since replaced)
        (⟦<Continued<'a> as Coming>⟧.coming series.value)) }
    ensures sources { IfOk result (λ series. continued_sources series.value ≡ source_of (clocks_in zones.entry) event.entry.now window since replaced) }
    ensures since { IfOk result (λ series. series.value.since ≡ since) }
    ensures begun { IfOk result (λ series. MatchOption series.value.series.rule_starts (Unit {0}) (λ s. IsBegun s.rule s.from s.cursor)) }
{
    let series = Continued::new(
        alloc, zones, event, window, since, by, mark, keeps, replaced,
    )?;
    let held = Box::new(alloc, series)?;
    Ok(held)
}

/// The instances of the master at a place that overrides replace. These stand behind it.
fn replaced_at(alloc: Global, chosen: &[Version<'_>], place: usize) -> Result<Replaced, AllocError>
    requires rises { Rises (on (λ l. l.subject) subject_cmp) (map seen chosen.now) }
    requires master { (version : Version) → slice_get chosen.now place ≡ Some version → version.subject.recurrence ≡ None }
    requires within { place < length chosen.now }
    ensures { (version : Version) → slice_get chosen.entry.now place ≡ Some version
        → IfOk result (λ replaced. replaced ≡ named_by version.subject.uid.now (map seen chosen.entry.now)) }
{
    let uid = chosen[place].subject.uid;
    let behind = &chosen[place + 1..];
    let instants = recurrences(alloc, &behind[..count_of(uid, behind)])?;
    Ok(Replaced::new(instants))
}

/// How many versions at the front have a UID.
fn count_of(uid: &[u8], versions: &[Version<'_>]) -> usize
    requires { IsPartitionedBy (λ v. bytes_eq v.subject.uid.now uid.now) versions.now }
    ensures within { result ≤ length versions.now }
    ensures parts { IsPartitionPoint (λ v. bytes_eq v.subject.uid.now uid.now ≡ true) (λ v. bytes_eq v.subject.uid.now uid.now ≡ false)
        versions.now result }
{
    let Some(first) = versions.first() else {
        return 0;
    };
    // Most masters have no overrides.
    if first.subject.uid != uid {
        return 0;
    }
    versions.partition_point(|version| version.subject.uid == uid)
}

/// The instants of the instances that versions override.
fn recurrences(alloc: Global, versions: &[Version<'_>]) -> Result<Vec<Moment>, AllocError>
    ensures { IfOk result (λ instants. instants.items ≡ filter_map (λ l. l.subject.recurrence) (map seen versions.entry.now)) }
{
    let mut instants = Vec::new(alloc);
    for version in versions {
        if let Some(moment) = version.subject.recurrence {
            instants.push(moment)?;
        }
    }
    Ok(instants)
}

/// The instant from which on the occurrences of a master with this UID come after the key.
fn since_of(after: Option<&Key>, uid: &[u8]) -> Moment
    ensures since { IsSince (option_map (λ key. key_rank key.now) after.entry) uid.entry.now result }
    ensures from { IsFrom (option_map (λ key. key_rank key.now) after.entry) result }
{
    let Some(key) = after else {
        return Moment::MIN;
    };
    match uid
        .cmp(key.uid.as_slice())
        .then(key.start.cmp(&key.recurrence))
    {
        Ordering::Greater => key.start,
        _ => key.start.saturating_add(1),
    }
}
