//! The series of masters that rest from one day to another, each at the place of its version.
ghost use Rattle.std.specs.Prelude.{◌≡◌, [], List, None, Some};
ghost use Rattle.std.specs.List.{AllByRecursion};
ghost use Rattle.ics_file.specs.File.{FileSaid};
ghost use Rattle.ics_listing.specs.FileClocks.{Clock};
ghost use Rattle.ics_series.specs.Chosen.{IsMaster};
ghost use Rattle.ics_series.specs.Inner.Ended.{AreMovedOff, IsOverPart};
ghost use Rattle.ics_series.specs.Inner.Kept.{AreKept, IsKeptIn, IsPartOf, IsSeriesOf};
ghost use Rattle.ics_series.specs.Inner.Marks.{StayMarks};
ghost use Rattle.ics_series.specs.PlacedEvents.{Placed};

use crate::part::{Part, PlacedSeries};
use crate::version::Version;
use ics_continued::Continued;
use ics_days::Span;
use ics_event::Event;
use ics_listing::Lead;
use ics_starts::Mark;
use ics_values::Moment;
use std::alloc::AllocError;

/// Makes places for them, at which none rests.
pub(crate) fn add_kept<'a>(
    kept: &mut Vec<Option<Box<Continued<'a>>>>,
    count: usize,
) -> Result<(), AllocError>
    ensures { (files : List FileSaid) (display : Clock) → AreKept files display kept.old.items → AreKept files display kept.new.items }
{
    for _place in 0..count {
        kept.push(None)?;
    }
    Ok(())
}

/// Takes the series that rests at a place.
fn take_at<'a>(
    kept: &mut Vec<Option<Box<Continued<'a>>>>,
    place: usize,
) -> Option<Box<Continued<'a>>>
    ensures rest { (files : List FileSaid) (display : Clock) → AreKept files display kept.old.items → AreKept files display kept.new.items }
    ensures taken { (files : List FileSaid) (display : Clock) → AreKept files display kept.old.items → IsKeptIn files display result }
    ensures none { kept.old.items ≡ [] → (kept.new.items ≡ []) × (result ≡ None) }
{
    if place < kept.len() {
        kept[place].take()
    } else {
        None
    }
}

/// The series of a master, whose place this is, if it rests there.
pub(crate) fn take_kept<'a>(
    kept: &mut Vec<Option<Box<Continued<'a>>>>,
    place: usize,
    event: &'a Event,
) -> Option<Box<Continued<'a>>>
    ensures rest { (files : List FileSaid) (display : Clock) → AreKept files display kept.old.items → AreKept files display kept.new.items }
    ensures of { (files : List FileSaid) (display : Clock) → AreKept files display kept.old.items → (by : Placed) → IsMaster files display by
        → by.event ≡ event.now → IsSeriesOf files display by result }
    ensures none { kept.old.items ≡ [] → (kept.new.items ≡ []) × (result ≡ None) }
{
    if let Some(known) = take_at(kept, place) {
        if known.event().uid.as_slice() == event.uid.as_slice() {
            return Some(known);
        }
    }
    None
}

/// Puts the series of a master at its place, where it rests.
fn put_at<'a>(kept: &mut Vec<Option<Box<Continued<'a>>>>, placed: PlacedSeries<'a>)
    ensures { (files : List FileSaid) (display : Clock) → AreKept files display kept.old.items → IsKeptIn files display (Some placed.entry.series)
        → AreKept files display kept.new.items }
{
    let PlacedSeries { place, series, .. } = placed;
    if place < kept.len() {
        kept[place] = Some(series);
    }
}

/// Takes the leads of a day that has ended, and keeps their series, each at its place. The spans and the marks are moved on, up to the least start of
/// what ends after an instant.
#[tactic(auto, using(crate::proofs::OverLemmas::moved_none, crate::proofs::OverLemmas::stay_none))]
pub(crate) fn give_back<'a>(
    kept: &mut Vec<Option<Box<Continued<'a>>>>,
    versions: &[Version<'a>],
    near: &[usize],
    spans: &mut Vec<Span>,
    marks: &mut Vec<Option<Mark>>,
    leads: &mut Vec<Lead<'a, Part<'a>>>,
    floor: Option<Moment>,
    by: Moment,
)
    ensures kept { (files : List FileSaid) (display : Clock) → AllByRecursion (λ l. IsPartOf files display l.feed) leads.old.items
        → AreKept files display kept.old.items → AreKept files display kept.new.items }
    ensures spans { AreMovedOff versions.entry.now near.entry.now
        (λ s day. AllByRecursion (λ l. IsOverPart s day floor by l.feed) leads.old.items) spans.old.items spans.new.items }
    ensures marks { StayMarks versions.entry.now (λ files display. AllByRecursion (λ l. IsPartOf files display l.feed) leads.old.items)
        marks.old.items marks.new.items }
    ensures leads { leads.new.items ≡ [] }
{
    while let Some(lead) = leads.pop() {
        if let Some(placed) = lead
            .into_feed()
            .end(versions, near, spans, marks, floor, by)
        {
            put_at(kept, placed);
        }
    }
}
