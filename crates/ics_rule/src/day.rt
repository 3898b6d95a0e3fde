//! The locals of a day that a rule keeps.
ghost use Rattle.std.specs.Prelude.{◌≡◌, ◌*◌, ◌<◌, ◌≤◌, ◌&&◌, true, IfSome};
ghost use Rattle.ics_fields.specs.Locals.{number};
ghost use Rattle.ics_period.specs.Candidates.{in_step, lets_date};
ghost use Rattle.ics_period.specs.PeriodNumbers.{rules_end};
ghost use Rattle.ics_rule.specs.Kept.{KeepsDay};
ghost use Rattle.ics_rule.specs.Inner.DaysKept.{AreTimesOf, IsWhole};

use crate::cursor::{RULES_END, until_end};
use crate::rule::Rule;
use ics_fields::BitSet;
use ics_period::{EffectiveRule, clock_set, in_step, lets_date, skips_hours};

/// Each of some hours of a day, with each of some minutes and of some seconds.
#[derive(Clone, Copy)]
pub struct DayTimes {
    pub hours: BitSet,
    pub minutes: BitSet,
    pub seconds: BitSet,
}

/// The times of a day that the parts of a rule allow.
fn times_of(parts: &EffectiveRule) -> DayTimes
    ensures { AreTimesOf parts.now result }
{
    DayTimes {
        hours: clock_set(true, parts.hours, 0, 24),
        minutes: clock_set(true, parts.minutes, 0, 60),
        seconds: clock_set(true, parts.seconds, 0, 60),
    }
}

/// Whether a rule keeps of a day, given by its first local, all that its parts allow: it goes by days or longer periods, and neither BYSETPOS nor COUNT nor
/// the start nor UNTIL leaves anything out.
fn is_whole(rule: &Rule, start: u64, from: u64) -> bool
    requires start { start ≡ number rule.now.start }
    ensures { result ≡ true → IsWhole rule.now from }
{
    let parts = &rule.whole;
    let stop = RULES_END.min(until_end(rule.kind, rule.given.until));
    let is_free = rule.given.count.is_none() & parts.positions.is_empty();
    skips_hours(parts.frequency) & is_free & (start < from) && from < stop && stop - from >= 86_400
}

/// Whether the parts of a rule allow a day after that of the start, whatever they say of the time. In most rules the interval is 1.
fn lets_day(parts: &EffectiveRule, start: u64, day: u32) -> bool
    requires after { start < day * 86_400 }
    requires early { day * 86_400 < rules_end }
    requires interval { 1 ≤ parts.now.interval }
    ensures { result ≡ (in_step parts.now start (day * 86_400) && lets_date parts.now day) }
{
    let is_let_in = lets_date(parts, day);
    if parts.interval == 1 {
        return is_let_in;
    }
    is_let_in && in_step(parts, start, u64::from(day) * 86_400)
}

impl Rule {
    /// The times of a day at which the rule keeps its locals. They are none on a day that it leaves out. Days are counted from 0000-01-01. None says
    /// nothing of the day: so it is under BYSETPOS or COUNT, if FREQ is finer than DAILY, up to the day of the start, and from that of UNTIL on.
    pub fn day(&self, day: u32) -> Option<DayTimes>
        ensures { IfSome result (KeepsDay self.now day) }
    {
        let start = self.start.number();
        let from = u64::from(day) * 86_400;
        if !is_whole(self, start, from) {
            return None;
        }
        if lets_day(&self.whole, start, day) {
            return Some(times_of(&self.whole));
        }
        Some(DayTimes {
            hours: BitSet::new(),
            minutes: BitSet::new(),
            seconds: BitSet::new(),
        })
    }
}
