//! Searching the periods of a rule.
ghost use Rattle.std.specs.Prelude.{◌≡◌, ℕ, true, false, ◌<◌, ◌≤◌, ◌^◌, MatchOption};
ghost use Rattle.jiff_core.specs.Weekday.{monday_zero};
ghost use Rattle.ics_fields.specs.Sets.{IsLeastFrom};
ghost use Rattle.ics_period.specs.Candidates.{is_stepped, period_in};
ghost use Rattle.ics_period.specs.RecurrencePeriods.{first_local};
ghost use Rattle.ics_rule.specs.Cursors.{CountedBy, IsCursorIn};
ghost use Rattle.ics_rule.specs.Inner.Searches.{IsAhead, IsNextWanted, IsSameButQuiet, IsWalk, IsWalked, LooksAt, IsTurnOf, IsTurned, IsOut};
ghost use Rattle.ics_period.specs.PeriodNumbers.{rules_end};

use crate::cursor::{Cursor, RULES_END};
use crate::never::chooses_none;
use crate::pass::next_step_after;
use crate::rounds::last_to_look_at;
use crate::search::Search;
use ics_period::{first_local, period_of};

/// 10000-01-01T00:00:00, the end of the calendar.
const CALENDAR_END: u64 = 315_569_520_000;

/// The least number from `own` on that is `first` or later by a multiple of the interval.
pub(crate) fn next_step(first: u64, interval: u32, own: u64) -> u64
    requires interval { 1 ≤ interval }
    requires first { first < 2 ^ 40 }
    requires own { own < 2 ^ 40 }
    ensures { IsLeastFrom (is_stepped first interval) own result }
{
    let interval = interval as u64;
    if own <= first {
        first
    } else {
        first + (own - first + (interval - 1)) / interval * interval
    }
}

impl Cursor {
    /// Turns to the period with a number, and looks at it unless it is the one held. False, and nothing changes, if all that COUNT keeps
    /// is earlier.
    pub(crate) fn turn_to(&mut self, search: &Search<'_>, number: u64) -> bool
        requires start { search.now.start < rules_end }
        requires step { is_stepped (period_in search.now.parts.now search.now.start) search.now.parts.now.interval number ≡ true }
        requires reach { first_local search.now.parts.now.frequency (monday_zero search.now.parts.now.week_start) number ≤ rules_end }
        requires room { self.old.steps < 2 ^ 63 }
        requires turn { IsTurnOf search.now.parts.now search.now.start search.now.count number self.old }
        ensures looks { LooksAt number self.old self.new }
        ensures turned { result ≡ true → MatchOption self.new.held ⊥ (IsTurned search.now.parts.now search.now.start search.now.count number self.new) }
        ensures out { result ≡ false → IsOut search.now.parts.now search.now.start search.now.count number self.old self.new }
    {
        let parts = search.parts;
        let Some(period) = &self.held else {
            self.look_at(parts, number, 0);
            let Some(count) = search.count else {
                return true;
            };
            let Some(period) = &self.held else {
                return false;
            };
            let through = period.taken_before(&parts.positions, search.start + 1);
            self.limit = count as u64 - 1 + through;
            return true;
        };
        if period.number() == number {
            return true;
        }
        let Some(_) = search.count else {
            self.look_at(parts, number, 0);
            return true;
        };
        let counted = self.counted + period.taken_before(&parts.positions, CALENDAR_END - 1);
        if counted >= self.limit {
            return false;
        }
        self.look_at(parts, number, counted);
        true
    }

    /// Whether under COUNT the period held is earlier than the one with a number, and the cursor knows that nothing is chosen after it up to
    /// the place.
    pub(crate) fn is_ahead(&self, search: &Search<'_>, own: u64) -> bool
        requires { CountedBy search.now.parts.now search.now.start search.now.count self.now }
        ensures { result ≡ true → IsAhead search.now.parts.now search.now.start search.now.count own self.now }
    {
        let Some(_) = search.count else {
            return false;
        };
        let Some(period) = &self.held else {
            return false;
        };
        period.number() < own && self.place <= self.quiet_to
    }

    /// Keeps that nothing is chosen after the period held and before the one with a number.
    fn keep_quiet(&mut self, search: &Search<'_>, number: u64)
        requires turn { IsTurnOf search.now.parts.now search.now.start search.now.count number self.old }
        requires some { 1 ≤ search.now.parts.now.interval }
        ensures same { IsSameButQuiet self.old self.new }
        ensures counted { CountedBy search.now.parts.now search.now.start search.now.count self.new }
    {
        let parts = search.parts;
        if number <= period_of(parts, RULES_END) {
            let begin = first_local(parts.frequency, parts.week_start, number);
            self.quiet_to = self.quiet_to.max(begin);
        }
    }

    /// The period that a walk begins with: the first step from the place on. Under COUNT it is that of the start or the one held, once what is
    /// chosen before the place is counted by whole rounds or days. Where the cursor knows that nothing is chosen up to the place, it is the first
    /// step from where that ends, and nothing is counted.
    fn first_step(&mut self, search: &Search<'_>, own: u64) -> u64
        requires after { search.now.start < self.old.place }
        requires early { self.old.place < rules_end }
        requires period { own ≡ period_in search.now.parts.now self.old.place }
        requires small { own < 2 ^ 40 }
        requires cursor { IsCursorIn search.now.parts.now search.now.start search.now.count self.old }
        ensures { (stop : ℕ) → self.old.place < stop → IsWalk search.now.parts.now search.now.start search.now.count stop result self.old self.new }
    {
        if self.is_ahead(search, own) {
            let quiet = period_of(search.parts, self.quiet_to.min(RULES_END));
            return next_step(search.first, search.parts.interval, quiet);
        }
        match search.count {
            None => next_step(search.first, search.parts.interval, own),
            Some(_) => {
                self.pass_periods(search);
                self.counted_from(search.first).0
            }
        }
    }

    /// The next local from the place on that the rule chooses and COUNT keeps. It is searched for in the periods up to that of the last
    /// local before `stop`.
    pub(crate) fn walk(&mut self, search: &Search<'_>, stop: u64) -> Option<u64>
        requires after { search.now.start < self.old.place }
        requires place { self.old.place < stop }
        requires stop { stop ≤ rules_end }
        requires own { IsCursorIn search.now.parts.now search.now.start search.now.count self.old }
        ensures next { IsNextWanted search.now.parts.now search.now.start search.now.count self.old.place stop result }
        ensures walked { IsWalked search.now.parts.now search.now.start search.now.count stop result self.old self.new }
    {
        let parts = search.parts;
        if chooses_none(parts) {
            return None;
        }
        let own = period_of(parts, self.place);
        let last = period_of(parts, stop - 1);
        let end = last_to_look_at(search, own, last);
        let mut number = self.first_step(search, own);
        let mut looks: u64 = 0;
        while number <= end {
            if !self.turn_to(search, number) {
                return None;
            }
            let Some(period) = &self.held else {
                return None;
            };
            if let Some(n) = period.next_taken(&parts.positions, self.place) {
                let out = self.is_counted_out(search, n);
                return if out { None } else { Some(n) };
            }
            looks = looks.saturating_add(1);
            number = next_step_after(search, period, last, stop, looks);
        }
        self.keep_quiet(search, number);
        None
    }
}
