//! The occurrences of the events of a folder that start once.
ghost use Rattle.std.specs.Prelude.{◌≡◌, [], true, filter, length, map, IfOk, IsSome, ℤ, Option};
ghost use Rattle.std.specs.List.{filter_map};
ghost use Rattle.std.specs.List.Sorted.{IsSorted};
ghost use Rattle.std.specs.Option.{option_map};
ghost use Rattle.std.specs.Ordering.{on};
ghost use Rattle.std.specs.Vec.Iter.{into_iter_items};
ghost use Rattle.ics_file.specs.File.{said_by};
ghost use Rattle.ics_starts.specs.Clocks.{display_clock};
ghost use Rattle.ics_listing.specs.Entry.{entry_cmp, entry_of, key_rank};
ghost use Rattle.ics_listing.specs.Listing.{IsListing};
ghost use Rattle.ics_listing.specs.Rising.{Rises, Rises-prop};
ghost use Rattle.ics_starts.specs.SingleEvents.{is_single, single_entry};
ghost use Rattle.ics_series.specs.Singles.{is_to_come, single_at, AreSingle, AreSingle-prop, IsSingleToCome};
ghost use Rattle.ics_days.specs.NearPlaces.{AreNear};
ghost use Rattle.ics_series.specs.Inner.Spans.{AreSpans};
ghost use Rattle.ics_series.specs.Spots.{event_at};
ghost use Rattle.ics_series.specs.Versions.{is_override, seen, subject_cmp, subject_seen, AreChosen};

use crate::agenda::is_kept;
use crate::span::is_out;
use crate::version::Version;
use ics_days::Span;
use ics_file::FileEvents;
use ics_listing::{Begins, Coming, Feed, Key, Occurrence, Window, is_after};
use ics_starts::{Single, is_single};
use ics_values::Moment;
use ics_zone::Display;
use std::alloc::{AllocError, Global};
use std::vec::IntoIter;

/// The occurrences still to come of the events that start once, in the order of their keys. An
/// occurrence is built when it is given.
#[derive(Drop)]
pub(crate) struct Singles<'a> {
    rest: IntoIter<Single<'a>, Global>,
    ghost single: { AreSingle (map single_entry (into_iter_items rest)) } by { AreSingle-prop (map single_entry (into_iter_items rest)) },
    ghost rising: { Rises entry_cmp (map single_entry (into_iter_items rest)) } by { Rises-prop entry_cmp (map single_entry (into_iter_items rest)) },
}

impl<'a> Singles<'a> {
    /// Those of the versions that count that meet the window and, with a key, come after it. They are at the near places.
    pub(crate) fn new(
        alloc: Global,
        files: &'a [FileEvents],
        display: &'a Display,
        chosen: &[Version<'_>],
        near: &[usize],
        spans: &[Span],
        overrides: &[Version<'_>],
        window: &Window,
        after: Option<&Key>,
    ) -> Result<Singles<'a>, AllocError>
        requires chosen { AreChosen (map said_by files.now) (display_clock display.now) chosen.now }
        requires spans { (floor : Option ℤ) × AreSpans (map said_by files.now) (display_clock display.now) window.now floor (map seen chosen.now) spans.now }
        requires near { AreNear spans.now window.now (length chosen.now) near.now }
        requires overrides { map seen overrides.now ≡ filter is_override (map seen chosen.now) }
        ensures { IfOk result (λ singles. IsListing entry_cmp
            (IsSingleToCome (map said_by files.entry.now) (display_clock display.entry.now) window.now
            (option_map (λ key. key_rank key.now) after.entry))
            (⟦<Singles<'a> as Coming>⟧.coming singles)) }
    {
        let mut singles = to_come(
            alloc, files, display, chosen, near, spans, overrides, window, after,
        )?;
        singles.sort_unstable_by(Single::compare);
        Ok(Singles {
            rest: singles.into_iter(),
        })
    }

    /// Whether none is still to come.
    pub(crate) fn is_empty(&self) -> bool
        ensures { result ≡ true → map single_entry (into_iter_items self.now.rest) ≡ [] }
    {
        self.rest.len() == 0
    }
}

impl<'a> Coming for Singles<'a> {
    ghost use Rattle.std.specs.Prelude.{true, [], ◌∷◌};
    ghost use Rattle.ics_series.specs.Singles.{single-prop};
    ghost use Rattle.ics_listing.specs.FeedSources.Source.{Once};

    ghost coming = { λ singles. map single_entry (into_iter_items singles.rest) };

    ghost sources = { λ singles. Once ∷ [] };

    ghost near = { λ singles o. is_single o.event ≡ true };

    ghost near_prop = { λ singles o. single-prop o };
}

impl<'a> Begins for Singles<'a> {
    /// They are known from the beginning.
    fn from(&self) -> Moment {
        Moment::MIN
    }
}

impl<'a> Feed<'a> for Singles<'a> {
    ghost rises = { λ singles. singles.rising };

    /// It allocates nothing.
    fn next(&mut self) -> Result<Option<Occurrence<'a>>, AllocError> {
        match self.rest.next() {
            None => Ok(None),
            Some(single) => Ok(Some(single.occurrence())),
        }
    }
}

/// Those of the versions that count, in the order of their subjects. What is at none of the near places, or
/// cannot meet the window by its span, is not looked at.
fn to_come<'a>(
    alloc: Global,
    files: &'a [FileEvents],
    display: &'a Display,
    chosen: &[Version<'_>],
    near: &[usize],
    spans: &[Span],
    overrides: &[Version<'_>],
    window: &Window,
    after: Option<&Key>,
) -> Result<Vec<Single<'a>>, AllocError>
    requires chosen { AreChosen (map said_by files.now) (display_clock display.now) chosen.now }
    requires spans { (floor : Option ℤ) × AreSpans (map said_by files.now) (display_clock display.now) window.now floor (map seen chosen.now) spans.now }
    requires near { AreNear spans.now window.now (length chosen.now) near.now }
    requires overrides { IsSorted (on (λ v. subject_seen v.subject) subject_cmp) overrides.now }
    ensures { IfOk result (λ singles. map single_entry singles.items
        ≡ filter_map (single_at (map said_by files.entry.now) (display_clock display.entry.now) window.now
        (map seen overrides.entry.now) (option_map (λ key. key_rank key.now) after.entry)) (map seen chosen.entry.now)) }
{
    let mut singles = Vec::new(alloc);
    for place in near {
        let place = *place;
        if is_out(spans, place, window) {
            continue;
        }
        let version = &chosen[place];
        let Some(single) = given(files, display, version, overrides, window, after) else {
            continue;
        };
        singles.push(single)?;
    }
    Ok(singles)
}

/// That of a version, if there is one.
fn given<'a>(
    files: &'a [FileEvents],
    display: &'a Display,
    version: &Version<'_>,
    overrides: &[Version<'_>],
    window: &Window,
    after: Option<&Key>,
) -> Option<Single<'a>>
    requires there { IsSome (event_at (map said_by files.now) version.now.spot) }
    requires overrides { IsSorted (on (λ v. subject_seen v.subject) subject_cmp) overrides.now }
    ensures { option_map single_entry result
        ≡ single_at (map said_by files.entry.now) (display_clock display.entry.now) window.now
        (map seen overrides.entry.now) (option_map (λ key. key_rank key.now) after.entry) (seen version.now) }
{
    let zones = version.spot.zones(files, display);
    let event = version.spot.event(files);
    if !is_single(event) {
        return None;
    }
    let single = Single::begun(zones, event, version.subject.recurrence, window)?;
    if is_to_come(&single.occurrence(), overrides, window, after) {
        Some(single)
    } else {
        None
    }
}

/// Whether an occurrence meets the window, comes after the key, and is replaced by no override.
fn is_to_come(
    occurrence: &Occurrence<'_>,
    overrides: &[Version<'_>],
    window: &Window,
    after: Option<&Key>,
) -> bool
    requires { IsSorted (on (λ v. subject_seen v.subject) subject_cmp) overrides.now }
    ensures { result ≡ is_to_come window.now (map seen overrides.now) (option_map (λ key. key_rank key.now) after.entry) (entry_of occurrence.now) }
{
    window.is_met(occurrence) && is_after(after, occurrence) && is_kept(occurrence, overrides)
}
