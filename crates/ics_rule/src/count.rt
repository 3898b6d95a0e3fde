//! How a cursor counts the periods of a rule with COUNT, from the start on.
ghost use Rattle.std.specs.Prelude.{◌≡◌, ℕ, ◌<◌, ◌≤◌, MatchOption, IfSome, true, false};
ghost use Rattle.ics_fields.specs.Locals.{calendar_end};
ghost use Rattle.ics_period.specs.Candidates.{is_stepped, period_in};
ghost use Rattle.ics_period.specs.Ranks.{is_chosen};
ghost use Rattle.ics_rule.specs.Cursors.{CountedBy, HeldBy};
ghost use Rattle.ics_rule.specs.Inner.Searches.{is_wanted, HoldsPeriodOf, IsUnderCount};
ghost use Rattle.ics_rule.specs.Inner.Rounds.{IsPassedTo, CountsFrom, HasCountedTo};

use crate::cursor::Cursor;
use crate::pass::next_step_after;
use crate::search::Search;
use ics_period::period_of;

/// Each look on the way counts as so many in vain, so that a step is the sooner found by the times of a day.
const LOOKS_IN_VAIN: u64 = 4;

impl Cursor {
    /// The number of the period held, and how many locals are chosen before it. If none is held, the start's number and 0.
    pub(crate) fn counted_from(&self, first: u64) -> (u64, u64)
        ensures { CountsFrom first result.0 result.1 self.now }
    {
        match &self.held {
            Some(period) => (period.number(), self.counted),
            None => (first, 0),
        }
    }

    /// Turns to each period from the first to count on that the rule may allow, until it comes to the one with number `end` or has left `most`.
    /// The number of the last, or None if all that COUNT keeps is earlier.
    pub(crate) fn turn_through(
        &mut self,
        search: &Search<'_>,
        begin: u64,
        end: u64,
        most: u32,
    ) -> Option<u64>
        requires cursor { IsUnderCount search.now.parts.now search.now.start search.now.count self.old }
        requires begin { MatchOption self.old.held (begin ≡ search.now.first) (λ p. begin ≡ p.number) }
        requires order { begin ≤ end }
        requires end { end ≤ period_in search.now.parts.now self.old.place }
        requires step { is_stepped (period_in search.now.parts.now search.now.start) search.now.parts.now.interval end ≡ true }
        ensures high { IfSome result (λ number. number ≤ end) }
        ensures counted { MatchOption result (IsPassedTo search.now.parts.now search.now.start search.now.count self.old self.new)
            (λ number. HasCountedTo search.now.parts.now search.now.start search.now.count number self.old self.new) }
    {
        let place = self.place;
        let last = period_of(search.parts, place);
        let mut number = begin;
        let mut looks: u32 = 0;
        while number < end && looks < most {
            if !self.turn_to(search, number) {
                return None;
            }
            let Some(period) = &self.held else {
                return None;
            };
            looks += 1;
            let in_vain = u64::from(looks) * LOOKS_IN_VAIN;
            number = end.min(next_step_after(search, period, last, place + 1, in_vain));
        }
        if self.turn_to(search, number) {
            Some(number)
        } else {
            None
        }
    }

    /// Whether COUNT keeps none from a local on, as far as the period held tells.
    pub(crate) fn is_counted_out(&self, search: &Search<'_>, n: u64) -> bool
        requires inside { n < calendar_end }
        requires held { HeldBy search.now.parts.now self.now.held n }
        requires counted { CountedBy search.now.parts.now search.now.start search.now.count self.now }
        ensures out { result ≡ true → (m : ℕ) → n ≤ m → is_wanted search.now.parts.now search.now.start search.now.count m ≡ false }
        ensures kept { result ≡ false → HoldsPeriodOf search.now.parts.now self.now.held n
            → is_wanted search.now.parts.now search.now.start search.now.count n ≡ is_chosen search.now.parts.now search.now.start n }
    {
        let Some(_) = search.count else {
            return false;
        };
        match &self.held {
            None => false,
            Some(period) => {
                let before = period.taken_before(&search.parts.positions, n);
                self.limit <= self.counted.saturating_add(before)
            }
        }
    }
}
