//! The locals that a rule keeps near a place, if it keeps some on most days: the days are looked at one by one.
ghost use Rattle.std.specs.Prelude.{◌≡◌, true, ◌*◌, ◌<◌, ◌≤◌, ◌/◌, IfSome, MatchOption};
ghost use Rattle.ics_fields.specs.Sets.{contains};
ghost use Rattle.ics_period.specs.PeriodNumbers.{rules_end};
ghost use Rattle.ics_period.specs.RecurrencePeriods.{has_minute, has_time};
ghost use Rattle.ics_rule.specs.Kept.{is_kept};
ghost use Rattle.ics_rule.specs.Next.{NoneKept, IsNextKept};
ghost use Rattle.ics_zone.specs.Inner.Latest.{NoneFrom, IsGreatestBelow, IsLastBelow, IsLastKept};

use crate::kept::{last_between, next_kept};
use ics_fields::{BitSet, Frequency, Parts};
use ics_period::next_second;
use ics_rule::{DayTimes, Rule};

const DAY: u64 = 86_400;

/// How many days are looked at one by one.
pub(crate) const DAYS: u64 = 8;

/// A rule that lists so many weekdays, months, days of a month or weeks has some on many days.
const WEEKDAYS: u64 = 2;

const MONTHS: u64 = 2;

const MONTH_DAYS: u64 = 4;

const WEEKS: u64 = 27;

/// A rule by days or weeks keeps none for long if its interval is greater.
const INTERVAL: u32 = 3;

/// How many numbers a part lists.
pub(crate) fn size_of(part: BitSet) -> u64 {
    let mut size: u64 = 0;
    for n in 0..64_u8 {
        if part.contains(n) {
            size = size.saturating_add(1);
        }
    }
    size
}

/// Whether the numbers of a part are so many, or it is absent.
fn is_wide(size: u64, many: u64) -> bool {
    size == 0 || size >= many
}

/// Whether a rule may keep locals on most days of a time. It is about speed alone.
pub(crate) fn is_often(parts: &Parts) -> bool {
    let days = &parts.month_days;
    let by_days = match parts.frequency {
        Frequency::Yearly | Frequency::Monthly => {
            size_of(parts.weekdays.plain) >= WEEKDAYS || !(days.is_empty() & parts.weeks.is_empty())
        }
        _ => parts.interval <= INTERVAL,
    };
    by_days & parts.year_days.is_empty() & parts.positions.is_empty()
        && is_wide(
            size_of(parts.weeks.front).saturating_add(size_of(parts.weeks.back)),
            WEEKS,
        )
        && is_wide(size_of(parts.months), MONTHS)
        && is_wide(
            size_of(days.front).saturating_add(size_of(days.back)),
            MONTH_DAYS,
        )
}

/// The greatest member of a set below a number.
fn last_below(set: BitSet, end: u8) -> Option<u8>
    ensures last { IsLastBelow (contains set) end result }
    ensures small { IfSome result (λ n. n < 64) }
{
    let mut last = None;
    let mut from = 0;
    while let Some(n) = set.next_from(from) {
        if n >= end {
            return last;
        }
        last = Some(n);
        from = n + 1;
    }
    last
}

/// The last minute of a day, before a minute, in a set of hours times a set of minutes.
fn last_minute(hours: BitSet, minutes: BitSet, end: u32) -> Option<u32>
    requires { end ≤ 1440 }
    ensures { IsLastBelow (has_minute hours minutes) end result }
{
    let hour = (end / 60) as u8;
    if hours.contains(hour) {
        if let Some(minute) = last_below(minutes, (end % 60) as u8) {
            return Some(u32::from(hour) * 60 + u32::from(minute));
        }
    }
    match (last_below(hours, hour), last_below(minutes, 60)) {
        (Some(hour), Some(minute)) => Some(u32::from(hour) * 60 + u32::from(minute)),
        _ => None,
    }
}

/// The last of some times of a day before a second of it, if it is in the same minute.
fn last_of_minute(times: &DayTimes, end: u32) -> Option<u32>
    requires { end ≤ 86400 }
    ensures { MatchOption result
        (NoneFrom (has_time times.now.hours times.now.minutes times.now.seconds) (end / 60 * 60) end)
        (IsGreatestBelow (has_time times.now.hours times.now.minutes times.now.seconds) end) }
{
    let minute = end / 60;
    if times.hours.contains((minute / 60) as u8) & times.minutes.contains((minute % 60) as u8) {
        if let Some(second) = last_below(times.seconds, (end % 60) as u8) {
            return Some(minute * 60 + u32::from(second));
        }
    }
    None
}

/// The last of some times of a day before a second of it.
fn last_second(times: &DayTimes, end: u32) -> Option<u32>
    requires { end ≤ 86400 }
    ensures { IsLastBelow (has_time times.now.hours times.now.minutes times.now.seconds) end result }
{
    if let Some(second) = last_of_minute(times, end) {
        return Some(second);
    }
    match (
        last_minute(times.hours, times.minutes, end / 60),
        last_below(times.seconds, 60),
    ) {
        (Some(minute), Some(second)) => Some(minute * 60 + u32::from(second)),
        _ => None,
    }
}

/// The first kept local from a place on that is earlier than a bound. With `by_days` some days are looked at first.
pub(crate) fn next_near(rule: &Rule, by_days: bool, from: u64, bound: u64) -> Option<u64>
    requires from { from ≤ rules_end }
    requires bound { bound ≤ rules_end }
    ensures { MatchOption result (NoneKept rule.now from bound) (IsNextKept rule.now from bound) }
{
    let mut at = from;
    let mut days = if by_days { DAYS } else { 0 };
    while days > 0 && at < bound {
        let day = at / DAY;
        let Some(times) = rule.day(day as u32) else {
            return next_kept(rule, at, bound);
        };
        if let Some(second) = next_second(
            times.hours,
            times.minutes,
            times.seconds,
            (at % DAY) as u32,
        ) {
            let n = day * DAY + u64::from(second);
            return if n < bound { Some(n) } else { None };
        }
        at = (day + 1) * DAY;
        days -= 1;
    }
    if at < bound {
        next_kept(rule, at, bound)
    } else {
        None
    }
}

/// The last kept local from a place on that is earlier than a bound. With `by_days` some days are looked at first.
pub(crate) fn last_near(rule: &Rule, by_days: bool, from: u64, bound: u64) -> Option<u64>
    requires from { from ≤ rules_end }
    requires bound { bound ≤ rules_end }
    ensures { MatchOption result (NoneKept rule.now from bound) (IsLastKept rule.now bound) }
{
    let mut end = bound;
    let mut days = if by_days { DAYS } else { 0 };
    while days > 0 && from < end {
        let day = (end - 1) / DAY;
        let Some(times) = rule.day(day as u32) else {
            return last_between(rule, from, end);
        };
        if let Some(second) = last_second(&times, (end - day * DAY) as u32) {
            return Some(day * DAY + u64::from(second));
        }
        end = day * DAY;
        days -= 1;
    }
    if from < end {
        last_between(rule, from, end)
    } else {
        None
    }
}

/// The last kept local of the day of a kept one that is earlier than a bound, or an earlier one.
pub(crate) fn last_of_day(rule: &Rule, kept: u64, bound: u64) -> u64
    requires kept { is_kept rule.now kept ≡ true }
    requires early { kept < bound }
    requires bound { bound ≤ rules_end }
    ensures kept { is_kept rule.now result ≡ true }
    ensures later { kept ≤ result }
    ensures early { result < bound }
{
    let day = kept / DAY;
    let end = bound.min((day + 1) * DAY);
    let Some(times) = rule.day(day as u32) else {
        return kept;
    };
    match last_second(&times, (end - day * DAY) as u32) {
        Some(second) => day * DAY + u64::from(second),
        None => kept,
    }
}
