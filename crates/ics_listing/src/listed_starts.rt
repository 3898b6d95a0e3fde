//! Starts that are known from the beginning, given one by one.
ghost use Rattle.ics_listing.specs.StartOrder.{moment_cmp, firsts_after};
ghost use Rattle.ics_listing.specs.Rising.{Rises, Rises-prop};
ghost use Rattle.std.specs.Prelude.{◌≡◌, None, IfOk};

use crate::start::Start;
use ics_values::Moment;
use std::alloc::{AllocError, Global};

/// Starts in the order of their instants. Each instant occurs once.
#[derive(Drop)]
pub struct ListedStarts {
    starts: Vec<Start>,
    // How many of them have been passed.
    gone: usize,
    ghost rises: { Rises moment_cmp starts.items } by { Rises-prop moment_cmp starts.items },
}

impl ListedStarts {
    ghost use Rattle.std.specs.Prelude.{◌≡◌, ◌≤ℤ◌, slice_get, IfOk};
    ghost use Rattle.ics_listing.specs.Listing.{IsIn};
    ghost use Rattle.ics_listing.specs.StartOrder.{AreFirsts};
    ghost use Rattle.ics_listing.specs.Merged.{cut};
    ghost use Rattle.ics_listing.specs.KnownStarts.{listed_left};

    /// These starts. If several are at one instant, the one from the first source counts.
    pub fn new(alloc: Global, mut starts: Vec<Start>) -> Result<ListedStarts, AllocError>
        ensures { IfOk result (λ listed. AreFirsts starts.items (listed_left listed)) }
    {
        starts.sort_unstable_by(Start::compare);
        let starts = firsts(alloc, &starts)?;
        Ok(ListedStarts { starts, gone: 0 })
    }

    /// The first of the starts still to come; None if there is none.
    pub fn peek(&self) -> Option<Start>
        ensures { result ≡ slice_get (listed_left self.now) 0 }
    {
        self.starts.get(self.gone).copied()
    }

    /// An instant before which none of the starts still to come is, of those that are not before another.
    pub fn from(&self, moment: Moment) -> Moment
        ensures { (start : Start) → IsIn start (listed_left self.now) → moment ≤ℤ start.moment → result ≤ℤ start.moment }
    {
        let mut at = self.gone;
        while at < self.starts.len() && self.starts[at].moment < moment {
            at += 1;
        }
        match self.starts.get(at) {
            None => Moment::MAX,
            Some(start) => start.moment,
        }
    }

    /// Drops the first of the starts still to come, if it is at the instant of this one.
    pub fn pass(&mut self, start: &Start)
        ensures { listed_left self.new ≡ cut moment_cmp start.now (listed_left self.old) }
    {
        if let Some(first) = self.starts.get(self.gone) {
            if first.moment == start.moment {
                self.gone += 1;
            }
        }
    }
}

/// The first of each run of starts at one instant.
pub fn firsts(alloc: Global, starts: &[Start]) -> Result<Vec<Start>, AllocError>
    ensures { IfOk result (λ firsts. firsts.items ≡ firsts_after None starts.now) }
{
    let mut firsts = Vec::new(alloc);
    let mut last = None;
    for start in starts {
        if last == Some(start.moment) {
            continue;
        }
        firsts.push(*start)?;
        last = Some(start.moment);
    }
    Ok(firsts)
}
