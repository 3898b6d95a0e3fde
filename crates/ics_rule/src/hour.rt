//! The locals of an hour that a rule keeps.
ghost use Rattle.std.specs.Prelude.{◌≡◌, ℕ, ◌+◌, ◌*◌, ◌<◌, ◌≤◌, ◌/◌, ◌%◌, true, false, IfSome, MatchOption};
ghost use Rattle.ics_fields.specs.Sets.{contains};
ghost use Rattle.ics_fields.specs.Locals.{number, calendar_end};
ghost use Rattle.ics_rule.specs.Next.{NoneKept, IsNextKept};
ghost use Rattle.ics_period.specs.Recurrence.{Recurrence};
ghost use Rattle.ics_rule.specs.Kept.{KeepsDay, KeepsTimes};
ghost use Rattle.ics_rule.specs.Inner.HoursKept.{IsFirstTime, IsLastTime, KeepsEnds};
ghost use Rattle.ics_period.specs.PeriodNumbers.{rules_end};

use crate::cursor::Cursor;
use crate::day::DayTimes;
use crate::rule::Rule;
use ics_fields::{BitSet, Local};
use ics_period::{lets, skips_hours};

/// Each of some minutes of an hour, with each of some seconds.
#[derive(Clone, Copy)]
pub struct HourTimes {
    pub minutes: BitSet,
    pub seconds: BitSet,
}

/// The greatest member of a set, or 0 if there is none.
fn greatest(set: BitSet) -> u8
    ensures last { (n : ℕ) → result < n → contains set n ≡ false }
    ensures small { result < 64 }
{
    let mut last = 0;
    let mut from = 0;
    while let Some(n) = set.next_from(from) {
        last = n;
        from = n + 1;
    }
    last
}

impl DayTimes {
    /// Those of an hour of the day.
    fn of_hour(&self, hour: u8) -> HourTimes
        ensures { (r : Recurrence) (h : ℕ) → h % 24 ≡ hour → KeepsDay r (h / 24) self.now → KeepsTimes r h result }
    {
        if self.hours.contains(hour) {
            HourTimes {
                minutes: self.minutes,
                seconds: self.seconds,
            }
        } else {
            HourTimes {
                minutes: BitSet::new(),
                seconds: BitSet::new(),
            }
        }
    }
}

impl HourTimes {
    /// Whether a number of seconds from the start of an hour is the first of the times.
    fn begins_at(&self, second: u64) -> bool
        ensures { result ≡ true → IsFirstTime self.now second }
    {
        match (self.minutes.next_from(0), self.seconds.next_from(0)) {
            (Some(minute), Some(first)) => u64::from(minute) * 60 + u64::from(first) == second,
            _ => false,
        }
    }

    /// The last of the times, in seconds from the start of an hour.
    fn last(&self) -> u64
        ensures last { IsLastTime self.now result }
        ensures small { result < 4096 }
    {
        u64::from(greatest(self.minutes)) * 60 + u64::from(greatest(self.seconds))
    }
}

/// The first local from a place on that the rule keeps, if it is earlier than a bound.
#[tactic(auto, unfolding(crate::specs::Cursors::IsCursorOf))]
fn next_between(rule: &Rule, start: u64, from: u64, bound: u64) -> Option<u64>
    requires start { start ≡ number rule.now.start }
    requires from { from < calendar_end }
    requires bound { bound ≤ rules_end }
    ensures { MatchOption result (NoneKept rule.now from bound) (IsNextKept rule.now from bound) }
{
    let mut cursor = Cursor::at(rule, Local::numbered(from));
    cursor.next_number(rule, start, bound)
}

/// The first local of an hour that the rule keeps. An hour after the start that BYHOUR leaves out is not searched.
fn first_of_hour(rule: &Rule, start: u64, hour: u64) -> Option<u64>
    requires start { start ≡ number rule.now.start }
    requires hour { hour < rules_end / 3_600 }
    ensures { MatchOption result (NoneKept rule.now (hour * 3_600) (hour * 3_600 + 3_600)) (IsNextKept rule.now (hour * 3_600) (hour * 3_600 + 3_600)) }
{
    let from = hour * 3_600;
    if start < from && !lets(rule.whole.hours, (hour % 24) as u8) {
        return None;
    }
    next_between(rule, start, from, from + 3_600)
}

/// Whether the rule, which keeps `kept` first in an hour, keeps the first and the last of some times, and neither is at the start or earlier.
fn keeps_ends(rule: &Rule, start: u64, hour: u64, kept: u64, times: &HourTimes) -> bool
    requires start { start ≡ number rule.now.start }
    requires hour { hour < rules_end / 3_600 }
    requires kept { IsNextKept rule.now (hour * 3_600) (hour * 3_600 + 3_600) kept }
    ensures { result ≡ true → KeepsEnds rule.now hour times.now }
{
    let from = hour * 3_600;
    let last = from + times.last();
    start < kept
        && times.begins_at(kept - from)
        && last < from + 3_600
        && next_between(rule, start, last, last + 1).is_some()
}

impl Rule {
    /// The minutes and the seconds of an hour at which the rule keeps its locals: those of its day, if they are known, and else those that the rule
    /// lists, if they are the first and the last that it keeps in the hour. They are in each hour but those that the start, UNTIL or COUNT cuts, under any
    /// rule without BYSETPOS.
    pub fn hour(&self, hour: u64) -> Option<HourTimes>
        requires { hour < rules_end / 3_600 }
        ensures { IfSome result (KeepsTimes self.now hour) }
    {
        if let Some(times) = self.day((hour / 24) as u32) {
            return Some(times.of_hour((hour % 24) as u8));
        }
        let start = self.start.number();
        let Some(kept) = first_of_hour(self, start, hour) else {
            return Some(HourTimes {
                minutes: BitSet::new(),
                seconds: BitSet::new(),
            });
        };
        let times = HourTimes {
            minutes: self.whole.minutes,
            seconds: self.whole.seconds,
        };
        let coarse = skips_hours(self.whole.frequency) & self.whole.positions.is_empty();
        if coarse && keeps_ends(self, start, hour, kept, &times) {
            Some(times)
        } else {
            None
        }
    }
}
