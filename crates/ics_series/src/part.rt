//! The feeds that an agenda merges.
ghost use Rattle.std.specs.Prelude.{◌≡◌};
ghost use Rattle.ics_starts.specs.SeriesLaws.{event-set};

use crate::masters::{is_far, move_off};
use crate::singles::Singles;
use crate::version::Version;
use ics_continued::Continued;
use ics_days::Span;
use ics_event::Event;
use ics_listing::{Begins, Coming, Feed, Holding, Occurrence};
use ics_starts::Mark;
use ics_values::Moment;
use std::alloc::AllocError;

/// A feed of an agenda: the occurrences of the events that start once, or those of a master that
/// recurs.
#[derive(Drop)]
pub(crate) enum Part<'a> {
    Singles(Singles<'a>),
    Series(PlacedSeries<'a>),
}

/// The feed of a master, with its event and the place of its version.
#[derive(Drop)]
pub(crate) struct PlacedSeries<'a> {
    pub(crate) place: usize,
    pub(crate) event: &'a Event,
    pub(crate) series: Box<Continued<'a>>,
    ghost own: { series.value.series.event.now ≡ event.now } by { event-set series.value.series.event.now event.now },
}

impl<'a> Part<'a> {
    ghost use Rattle.std.specs.Prelude.{◌≡◌, List, MatchOption, Some};
    ghost use Rattle.ics_file.specs.File.{FileSaid};
    ghost use Rattle.ics_listing.specs.FileClocks.{Clock};
    ghost use Rattle.ics_series.specs.Inner.Ended.{AreMovedOff, IsOverPart};
    ghost use Rattle.ics_series.specs.Inner.Kept.{IsKeptIn, IsPartOf};
    ghost use Rattle.ics_series.specs.Inner.Marks.{StayMarks};

    /// Ends it, with nothing to come. The series of a master is given back. Its span and its mark are moved on, up to the least start of what ends after
    /// an instant, if that is known and far.
    #[tactic(auto, using(crate::proofs::OverLemmas::moved_none, crate::proofs::OverLemmas::stay_none))]
    pub(crate) fn end(
        self,
        versions: &[Version<'a>],
        near: &[usize],
        spans: &mut Vec<Span>,
        marks: &mut Vec<Option<Mark>>,
        floor: Option<Moment>,
        by: Moment,
    ) -> Option<PlacedSeries<'a>>
        ensures kept { (files : List FileSaid) (display : Clock) → IsPartOf files display self.entry
            → MatchOption result (Unit {0}) (λ placed. IsKeptIn files display (Some placed.series)) }
        ensures spans { AreMovedOff versions.entry.now near.entry.now (λ s day. IsOverPart s day floor by self.entry)
            spans.old.items spans.new.items }
        ensures marks { StayMarks versions.entry.now (λ files display. IsPartOf files display self.entry) marks.old.items marks.new.items }
    {
        match self {
            Part::Singles(_) => None,
            Part::Series(mut placed) => {
                let least = placed.series.least_lasting(by);
                let far = is_far(spans, placed.place, least);
                if far {
                    move_off(versions, near, spans, marks, &placed, floor, by, least);
                }
                placed.series.rest();
                Some(placed)
            }
        }
    }
}

impl<'a> Coming for Part<'a> {
    ghost use Rattle.ics_series.specs.AgendaParts.{part_coming, part_near, part_near-prop, part_sources};

    ghost coming = { part_coming };

    ghost sources = { part_sources };

    ghost near = { part_near };

    ghost near_prop = { part_near-prop };
}

impl<'a> Holding for Part<'a> {
    ghost use Rattle.ics_series.specs.Holding.{part_holds, part_looked};

    ghost holds = { part_holds };

    ghost looked = { part_looked };

    fn held(&self) -> usize {
        match self {
            Part::Singles(_) => 0,
            Part::Series(placed) => placed.series.held(),
        }
    }

    fn steps(&self) -> u64 {
        match self {
            Part::Singles(_) => 0,
            Part::Series(placed) => placed.series.steps(),
        }
    }
}

impl<'a> Begins for Part<'a> {
    fn from(&self) -> Moment {
        match self {
            Part::Singles(singles) => singles.from(),
            Part::Series(placed) => placed.series.from(),
        }
    }
}

impl<'a> Feed<'a> for Part<'a> {
    ghost use Rattle.ics_continued.specs.Continued.{continued_left};
    ghost use Rattle.ics_continued.specs.Inner.Kept.{rises-behind};
    ghost use Rattle.ics_continued.specs.Lasting.{lasting_entries};
    ghost use Rattle.ics_listing.specs.Entry.{entry_cmp};
    ghost use Rattle.ics_series.specs.declared.part.Part.TheVariants as part;

    ghost rises = { elim [
      | part.Singles s ↦ s.rising
      | part.Series s ↦ rises-behind entry_cmp
          (lasting_entries s.series.value.series.event.now s.series.value.lasts.items) (continued_left s.series.value) s.series.value.rising
    ] };

    fn next(&mut self) -> Result<Option<Occurrence<'a>>, AllocError> {
        match self {
            Part::Singles(singles) => singles.next(),
            Part::Series(placed) => placed.series.next(),
        }
    }
}
