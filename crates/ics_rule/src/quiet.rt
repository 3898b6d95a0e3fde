//! How far a rule is known to keep nothing, without a look at another period.
ghost use Rattle.std.specs.Prelude.{◌<◌, ◌≤◌, ◌^◌, MatchOption};
ghost use Rattle.ics_fields.specs.Locals.{calendar_end};
ghost use Rattle.ics_rule.specs.Cursors.{CountedBy, HeldBy, NoneChosenAfter};
ghost use Rattle.ics_rule.specs.Inner.Quiet.{NoneChosen};
ghost use Rattle.ics_rule.specs.Inner.Searches.{IsNextOpen, IsSameButQuiet, NoneLetIn};
ghost use Rattle.ics_period.specs.PeriodNumbers.{rules_end};

use crate::cursor::{Cursor, RULES_END};
use crate::filled::next_filled;
use crate::pass::{next_allowed, next_open_second, next_timed_step};
use crate::rounds::seconds_of;
use crate::search::Search;
use crate::walk::next_step;
use ics_period::{EffectiveRule, first_local, period_of};

/// After so many steps that allow nothing a question ends. To pass over them costs a few times what it costs to ask anew on a later day.
const MANY_STEPS: u32 = 64;

/// After each so many steps that allow nothing, one is found by the times of a day and the weekdays.
const SOME_STEPS: u32 = 4;

/// The first step from a period's number on. After each so many looks, the first whose time and weekday are allowed, as far as that is known.
#[inline]
fn step_from(search: &Search<'_>, own: u64, looks: u32) -> u64
    requires { own < 2 ^ 40 }
    ensures { IsNextOpen search.now.parts.now search.now.first own result }
{
    let step = next_step(search.first, search.parts.interval, own);
    if looks % SOME_STEPS == 0 {
        next_timed_step(search, step, u64::from(looks), looks == MANY_STEPS)
    } else {
        step
    }
}

/// A local, if its period is a step, else the first local of the next step. After each so many looks, that of the first whose time and weekday are
/// allowed, as far as that is known. The end of the rules if that is later.
#[inline]
fn begin_of_step(search: &Search<'_>, n: u64, looks: u32) -> u64
    requires { n < rules_end }
    ensures none { NoneChosen search.now.parts.now search.now.start n result }
    ensures inside { result ≤ rules_end }
{
    let parts = search.parts;
    // Each period from that of the start on is a step then.
    if parts.interval == 1 {
        return n;
    }
    let own = period_of(parts, n);
    let step = step_from(search, own, looks);
    if step == own {
        return n;
    }
    if step > period_of(parts, RULES_END) {
        return RULES_END;
    }
    first_local(parts.frequency, parts.week_start, step)
}

/// The first local from one on whose time of day a rule allows, or the end of its day.
fn time_from(parts: &EffectiveRule, n: u64) -> u64
    requires { n < rules_end }
    ensures none { NoneLetIn parts.now n result }
    ensures inside { result < calendar_end }
{
    next_open_second(parts, n)
}

/// A local before which a rule chooses none from another on, by the parts of the date and the time alone: the first that they allow in a step,
/// or the first of a step, if those before it allow none.
fn next_by_date(search: &Search<'_>, from: u64) -> u64
    requires from { from < rules_end }
    ensures none { NoneChosen search.now.parts.now search.now.start from result }
    ensures inside { result < calendar_end }
{
    let mut at = begin_of_step(search, from, 1);
    for steps in 0..MANY_STEPS {
        if at >= RULES_END {
            return at;
        }
        let open = next_allowed(search.parts, at, RULES_END);
        if open >= RULES_END {
            return open;
        }
        let begin = begin_of_step(search, open, steps + 1);
        if begin == open {
            return time_from(search.parts, open);
        }
        at = begin;
    }
    at
}

/// The same, by BYSETPOS too: periods longer than a day are passed over that have too few allowed locals for it.
fn next_by_parts(search: &Search<'_>, from: u64) -> u64
    requires from { from < rules_end }
    ensures none { NoneChosen search.now.parts.now search.now.start from result }
    ensures inside { result < calendar_end }
{
    let parts = search.parts;
    let open = next_by_date(search, from);
    if open >= RULES_END || parts.positions.is_empty() {
        return open;
    }
    let unit = seconds_of(parts.frequency);
    if unit > 0 && unit <= 86_400 {
        return open;
    }
    let filled = next_filled(search, open);
    if filled <= open || filled >= RULES_END {
        return filled;
    }
    next_by_date(search, filled)
}

impl Cursor {
    /// A local before which none is chosen from another on, by the parts of the date alone. Up to that other one nothing is chosen after the period
    /// held, and so the cursor keeps what is found.
    fn quiet_from(&mut self, search: &Search<'_>, from: u64) -> u64
        requires counted { CountedBy search.now.parts.now search.now.start search.now.count self.old }
        requires passed { MatchOption self.old.held (Unit {0}) (λ p. NoneChosenAfter search.now.parts.now search.now.start p.number from) }
        ensures none { NoneChosen search.now.parts.now search.now.start from result }
        ensures inside { result < calendar_end }
        ensures same { IsSameButQuiet self.old self.new }
        ensures counted { CountedBy search.now.parts.now search.now.start search.now.count self.new }
    {
        if from >= RULES_END {
            return RULES_END;
        }
        let to = next_by_parts(search, from);
        self.quiet_to = to;
        to
    }

    /// The first of the period of the place that is chosen from there on, if that period is held. Else, or if there is none, a local before
    /// which none is chosen from the place on, by the parts of the date alone.
    pub(crate) fn next_possible(&mut self, search: &Search<'_>) -> u64
        requires place { self.old.place < rules_end }
        requires held { HeldBy search.now.parts.now self.old.held self.old.place }
        requires counted { CountedBy search.now.parts.now search.now.start search.now.count self.old }
        ensures none { NoneChosen search.now.parts.now search.now.start self.old.place result }
        ensures inside { result < calendar_end }
        ensures same { IsSameButQuiet self.old self.new }
        ensures counted { CountedBy search.now.parts.now search.now.start search.now.count self.new }
    {
        let parts = search.parts;
        if let Some(period) = &self.held {
            let end = first_local(parts.frequency, parts.week_start, period.number() + 1);
            if self.place < end {
                return match period.next_taken(&parts.positions, self.place) {
                    Some(n) => n,
                    None => self.quiet_from(search, end),
                };
            }
            if self.place == end {
                return self.quiet_from(search, end);
            }
        }
        if self.is_ahead(search, period_of(parts, self.place)) {
            self.quiet_from(search, self.quiet_to)
        } else {
            next_by_parts(search, self.place)
        }
    }
}
