//! How many locals of a period are earlier than a given one, by the sizes of its sets.
ghost use Rattle.std.specs.Prelude.{◌≡◌, ◌<◌, ◌≤◌, ◌+◌, ◌*◌, ◌/◌, ◌%◌, ◌^◌};
ghost use Rattle.ics_fields.specs.Sets.{contains};
ghost use Rattle.ics_period.specs.declared.effective_rule.EffectiveRule.{EffectiveRule};
ghost use Rattle.ics_period.specs.Ranks.{count};
ghost use Rattle.ics_period.specs.RecurrencePeriods.{has_minute, has_second, has_day, holds, IsPeriodOf};
ghost use Rattle.ics_fields.specs.Locals.{calendar_end};

use crate::members::members_below;
use crate::recurrence_period::RecurrencePeriod;
use ics_fields::BitSet;

/// How many minutes of a day, before a given one, are in a set of hours times a set of minutes.
fn minutes_below(hours: BitSet, minutes: BitSet, minute: u32) -> u64
    requires { minute ≤ 1440 }
    ensures value { result ≡ count minute (has_minute hours minutes) }
    ensures bound { result ≤ minute }
{
    let whole = members_below(&hours, (minute / 60) as u16) * members_below(&minutes, 60);
    if hours.contains((minute / 60) as u8) {
        whole + members_below(&minutes, (minute % 60) as u16)
    } else {
        whole
    }
}

impl RecurrencePeriod {
    /// How many seconds of a day, before a given one, are in the product's times.
    pub(crate) fn seconds_below(&self, second: u32) -> u64
        requires { second ≤ 86400 }
        ensures value { result ≡ count second (has_second self.now) }
        ensures bound { result ≤ second }
    {
        let minute = second / 60;
        let whole = minutes_below(self.hours, self.minutes, minute)
            * members_below(&self.seconds, 60);
        if self.hours.contains((minute / 60) as u8) & self.minutes.contains((minute % 60) as u8) {
            whole + members_below(&self.seconds, (second % 60) as u16)
        } else {
            whole
        }
    }

    /// The number of locals in the product.
    pub(crate) fn size(&self) -> u64
        requires { (q : EffectiveRule) × IsPeriodOf q self.now }
        ensures value { result ≡ count calendar_end (holds self.now) }
        ensures bound { result < 2 ^ 63 }
    {
        members_below(&self.days, 384) * self.seconds_below(86_400)
    }

    /// How many of its locals are earlier than `n`.
    pub(crate) fn rank_before(&self, n: u64) -> u64
        requires local { n < calendar_end }
        requires own { (q : EffectiveRule) × IsPeriodOf q self.now }
        ensures value { result ≡ count n (holds self.now) }
        ensures bound { result ≤ n }
    {
        let day = (n / 86_400) as u32;
        let skipped = day.saturating_sub(self.first_day).min(384);
        let whole = members_below(&self.days, skipped as u16) * self.seconds_below(86_400);
        if self.has_day(day) {
            whole + self.seconds_below((n % 86_400) as u32)
        } else {
            whole
        }
    }
}
