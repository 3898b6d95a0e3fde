//! The listing of a window.
ghost use Rattle.std.specs.Prelude.{◌≡◌, ◌≤◌, ◌-◌, ◌^◌, ℕ, List, [], filter, length, map, min, sum_by, true, IfOk, OnErr, OnOk};
ghost use Rattle.std.specs.List.{AllByRecursion};
ghost use Rattle.std.specs.List.Sorted.{IsSorted};
ghost use Rattle.std.specs.Option.{option_map};
ghost use Rattle.std.specs.Ordering.{on};
ghost use Rattle.ics_file.specs.File.{said_by};
ghost use Rattle.ics_listing.specs.After.{after_key};
ghost use Rattle.ics_starts.specs.Clocks.{display_clock};
ghost use Rattle.ics_listing.specs.Entry.{Entry, entry_cmp, entry_of, key_rank, rank_of};
ghost use Rattle.ics_series.specs.HeldMost.{held_most};
ghost use Rattle.ics_series.specs.Holding.{part_holds, part_looked};
ghost use Rattle.ics_listing.specs.Leads.{IsFresh};
ghost use Rattle.ics_listing.specs.Listing.{IsIn, IsListing};
ghost use Rattle.ics_series.specs.Inner.Kept.{AreKept};
ghost use Rattle.ics_series.specs.Inner.Marks.{AreMarks};
ghost use Rattle.ics_series.specs.Meets.{IsListed, IsToCome};
ghost use Rattle.ics_listing.specs.Merges.{merge_all, merge_coming, merge_holds, merge_looked};
ghost use Rattle.ics_listing.specs.Inner.MergesLaws.{rises-merge};
ghost use Rattle.ics_series.specs.Occurs.{Occurs};
ghost use Rattle.ics_series.specs.Overridden.{is_kept};
ghost use Rattle.ics_series.specs.AgendaParts.{part_coming, part_near, part_sources, IsFirstPart};
ghost use Rattle.ics_series.specs.Sources.{master_of, recurring, AreApart, AreApart-prop, AreSources, ComeSince};
ghost use Rattle.ics_listing.specs.FeedSources.{Recurring};
ghost use Rattle.ics_series.specs.Steps.{HasStepBound};
ghost use Rattle.ics_listing.specs.Tokens.{IsKey};
ghost use Rattle.ics_days.specs.NearPlaces.{AreNear};
ghost use Rattle.ics_series.specs.Inner.Spans.{AreSpansBehind};
ghost use Rattle.ics_series.specs.Versions.{is_override, seen, subject_cmp, subject_seen, AreChosen};

use crate::chosen::{chosen, is_named, overrides};
use crate::masters::push_series;
use crate::part::Part;
use crate::singles::Singles;
use crate::version::{Subject, Version};
use ics_continued::Continued;
use ics_days::{Span, all_places};
use ics_file::FileEvents;
use ics_listing::{Coming, Feed, Key, Lead, Merge, Occurrence, Window};
use ics_starts::Mark;
use ics_values::Moment;
use ics_zone::Display;
use std::alloc::{AllocError, Global};

/// The occurrences of a folder that meet a window, in the order of their keys. The events that start once
/// are sorted when it is made. A master that recurs and begins after the window's start is not read before it
/// can give the next occurrence. From then on its next occurrence is held; that of other masters from the
/// beginning.
#[derive(Drop)]
pub struct Agenda<'a> {
    merge: Merge<'a, Part<'a>>,
    ghost apart: { AreApart (merge_all part_sources merge) } by { AreApart-prop (merge_all part_sources merge) },
}

impl<'a> Agenda<'a> {
    /// The occurrences of these files' events that meet the window and come after the key.
    pub(crate) fn new(
        alloc: Global,
        files: &'a [FileEvents],
        display: &'a Display,
        window: Window,
        after: Option<&Key>,
    ) -> Result<Agenda<'a>, AllocError>
        ensures listing { IfOk result (λ agenda. IsListing entry_cmp
            (IsToCome (map said_by files.entry.now) (display_clock display.entry.now) window
            (option_map (λ key. key_rank key.now) after.entry))
            (⟦<Agenda<'a> as Coming>⟧.coming agenda)) }
        ensures behind { IfOk result (λ agenda. (list : List Entry)
            × IsListing entry_cmp (IsListed (map said_by files.entry.now) (display_clock display.entry.now) window) list
            × (⟦<Agenda<'a> as Coming>⟧.coming agenda ≡ after_key (option_map (λ key. key_rank key.now) after.entry) list)) }
        ensures sources { IfOk result (λ agenda. AreSources (map said_by files.entry.now) (display_clock display.entry.now) window
            (option_map (λ key. key_rank key.now) after.entry) (⟦<Agenda<'a> as Coming>⟧.sources agenda)) }
        ensures since { IfOk result (λ agenda. ComeSince (⟦<Agenda<'a> as Coming>⟧.sources agenda) (⟦<Agenda<'a> as Coming>⟧.coming agenda)) }
        ensures keys { IfOk result (λ _. (o : Entry)
            → Occurs (map said_by files.entry.now) (display_clock display.entry.now) o → IsKey (rank_of o)) }
    {
        let chosen = chosen(alloc, files, display)?;
        let overrides = overrides(alloc, &chosen)?;
        let near = all_places(alloc, chosen.len())?;
        let spans = Vec::new(alloc);
        let mut marks = Vec::new(alloc);
        let mut kept = Vec::new(alloc);
        let mut agenda: Agenda<'a> = Agenda::none(alloc);
        agenda.search(
            alloc,
            Vec::new(alloc),
            files,
            display,
            &chosen,
            &overrides,
            &near,
            &spans,
            &mut marks,
            &mut kept,
            window,
            after,
            Moment::MAX,
        )?;
        Ok(agenda)
    }

    /// Searches those of the versions that count, which are at the near places, in place of what was searched before. The leads, of which there
    /// are none yet, may have room. The spans, if there are any, say which of the versions need not be read. The marks say from where on rules under
    /// COUNT are searched. What ends after `by` may meet a later window.
    pub(crate) fn search(
        &mut self,
        alloc: Global,
        mut leads: Vec<Lead<'a, Part<'a>>>,
        files: &'a [FileEvents],
        display: &'a Display,
        chosen: &[Version<'a>],
        overrides: &[Version<'a>],
        near: &[usize],
        spans: &[Span],
        marks: &mut Vec<Option<Mark>>,
        kept: &mut Vec<Option<Box<Continued<'a>>>>,
        window: Window,
        after: Option<&Key>,
        by: Moment,
    ) -> Result<(), AllocError>
        requires leads { leads.items ≡ [] }
        requires chosen { AreChosen (map said_by files.now) (display_clock display.now) chosen.now }
        requires spans { AreSpansBehind (map said_by files.now) (display_clock display.now) window (option_map (λ key. key_rank key.now) after)
            (map seen chosen.now) spans.now }
        requires overrides { map seen overrides.now ≡ filter is_override (map seen chosen.now) }
        requires near { AreNear spans.now window (length chosen.now) near.now }
        requires marks { AreMarks (map said_by files.now) (map seen chosen.now) marks.old.items }
        requires kept { AreKept (map said_by files.now) (display_clock display.now) kept.old.items }
        ensures marks { AreMarks (map said_by files.entry.now) (map seen chosen.entry.now) marks.new.items }
        ensures kept { AreKept (map said_by files.entry.now) (display_clock display.entry.now) kept.new.items }
        ensures listing { OnOk result (IsListing entry_cmp
            (IsToCome (map said_by files.entry.now) (display_clock display.entry.now) window
            (option_map (λ key. key_rank key.now) after.entry))
            (⟦<Agenda<'a> as Coming>⟧.coming self.new)) }
        ensures sources { OnOk result (AreSources (map said_by files.entry.now) (display_clock display.entry.now) window
            (option_map (λ key. key_rank key.now) after.entry) (⟦<Agenda<'a> as Coming>⟧.sources self.new)) }
        ensures since { kept.old.items ≡ [] → OnOk result (ComeSince (⟦<Agenda<'a> as Coming>⟧.sources self.new)
            (⟦<Agenda<'a> as Coming>⟧.coming self.new)) }
        ensures err { OnErr result (self.new.merge ≡ self.old.merge) }
    {
        let singles = Singles::new(
            alloc, files, display, chosen, near, spans, overrides, &window, after,
        )?;
        push_first(&mut leads, singles)?;
        let sorted_from = leads.len();
        push_series(
            alloc, &mut leads, files, display, chosen, near, spans, marks, kept, window, after, by,
        )?;
        self.merge.begin(alloc, leads, sorted_from, window.from)?;
        Ok(())
    }

    /// An agenda with nothing to come.
    pub(crate) fn none(alloc: Global) -> Agenda<'a>
        ensures none { ⟦<Agenda<'a> as Coming>⟧.coming result ≡ [] }
        ensures sources { ⟦<Agenda<'a> as Coming>⟧.sources result ≡ [] }
    {
        Agenda {
            merge: Merge::none(alloc),
        }
    }

    /// Drops what is still to come, and gives back the feeds that it was searched by. It allocates nothing.
    pub(crate) fn end(&mut self, alloc: Global) -> Vec<Lead<'a, Part<'a>>>
        ensures none { ⟦<Agenda<'a> as Coming>⟧.coming self.new ≡ [] }
        ensures sources { ⟦<Agenda<'a> as Coming>⟧.sources self.new ≡ [] }
        ensures holds { merge_holds part_holds self.new.merge ≡ [] }
        ensures looked { merge_looked part_looked self.new.merge ≡ 0 }
        ensures leads { result.items ≡ self.old.merge.leads.items }
    {
        self.merge.end(alloc)
    }

    /// How many built occurrences are held: the one that was given last, the next one of each feed that
    /// was read, and those at the starts that were read of rules. They are at most two and, for each master, two
    /// and the greatest number of starts that it has in any five days. The count stops at the greatest
    /// `usize`.
    pub fn held(&self) -> usize
        ensures count { result ≡ min (length (merge_holds part_holds self.now.merge)) (2 ^ 64 - 1) }
        ensures most { result ≤ held_most (map master_of (recurring (⟦<Agenda<'a> as Coming>⟧.sources self.now))) }
    {
        self.merge.held()
    }

    /// How many periods of rules were looked at. For each master with a rule they are at most two more
    /// than those that hold a local from less than seven days before what can meet the window, or one day
    /// if the master starts in UTC and has no RDATE, to three days past its first start by its rule still
    /// to come. The count stops at the greatest `u64`.
    pub fn steps(&self) -> u64
        ensures count { result ≡ min (merge_looked part_looked self.now.merge) (2 ^ 64 - 1) }
        ensures most { (most : Recurring → ℕ) → ((m : Recurring) → IsIn m (recurring (⟦<Agenda<'a> as Coming>⟧.sources self.now))
            → HasStepBound m (⟦<Agenda<'a> as Coming>⟧.coming self.now) (most m))
            → result ≤ sum_by most (recurring (⟦<Agenda<'a> as Coming>⟧.sources self.now)) }
    {
        self.merge.steps()
    }
}

impl<'a> Coming for Agenda<'a> {
    ghost coming = { λ agenda. merge_coming part_coming agenda.merge };

    ghost sources = { λ agenda. merge_all part_sources agenda.merge };

    ghost near = { λ agenda o. ⟦<Merge<'a, Part<'a>> as Coming>⟧.near agenda.merge o };

    ghost near_prop = { λ agenda o. ⟦<Merge<'a, Part<'a>> as Coming>⟧.near_prop agenda.merge o };
}

impl<'a> Feed<'a> for Agenda<'a> {
    ghost rises = { λ agenda. rises-merge part_coming agenda.merge };

    fn next(&mut self) -> Result<Option<Occurrence<'a>>, AllocError> {
        self.merge.next()
    }
}

/// Puts the feed of the events that start once first, if there are any to come.
fn push_first<'a>(
    leads: &mut Vec<Lead<'a, Part<'a>>>,
    singles: Singles<'a>,
) -> Result<(), AllocError>
    requires { leads.old.items ≡ [] }
    ensures first { OnOk result (IsFirstPart singles.entry (map (λ l. l.feed) leads.new.items)) }
    ensures fresh { OnOk result (AllByRecursion (λ l. IsFresh (part_near l.feed) l.head (part_coming l.feed)) leads.new.items) }
{
    if singles.is_empty() {
        return Ok(());
    }
    leads.push(Lead::of(Part::Singles(singles)))?;
    Ok(())
}

/// Whether no override replaces an occurrence, or it is that of an override.
pub(crate) fn is_kept(occurrence: &Occurrence<'_>, overrides: &[Version<'_>]) -> bool
    requires { IsSorted (on (λ v. subject_seen v.subject) subject_cmp) overrides.now }
    ensures { result ≡ is_kept (map seen overrides.now) (entry_of occurrence.now) }
{
    if overrides.is_empty() {
        return true;
    }
    let event = occurrence.event;
    let subject = Subject {
        uid: event.uid.as_slice(),
        recurrence: Some(occurrence.recurrence),
    };
    event.recurrence.is_some() || !is_named(subject, overrides)
}
