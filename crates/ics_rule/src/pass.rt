//! Skipping the periods in which a rule allows nothing.
ghost use Rattle.std.specs.Prelude.{◌≡◌, ℕ, ◌<◌, ◌≤◌, ◌+◌, ◌-◌, ◌*◌, ◌/◌, ◌^◌, false, true};
ghost use Rattle.ics_period.specs.Candidates.{is_stepped, lets_date, lets_clock, period_in};
ghost use Rattle.ics_rule.specs.Inner.Searches.{NoneLetIn, IsNextOpen};
ghost use Rattle.ics_period.specs.PeriodNumbers.{day_before, rules_end};
ghost use Rattle.ics_period.specs.NearDays.{AreNear};
ghost use Rattle.ics_fields.specs.Days.{days_before_year};
ghost use Rattle.ics_fields.specs.Locals.{calendar_end};

use crate::cursor::RULES_END;
use crate::search::Search;
use crate::walk::next_step;
use ics_fields::Frequency;
use ics_period::{
    EffectiveRule, NearDays, RecurrencePeriod, clock_set, days_left_out, days_of_closed_month,
    first_local, lists_days, next_second, period_of, skips_hours, steps_out,
};

/// How many days from one on a rule does not allow, as far as one look tells. Single days are tested only if `by_days`.
#[inline]
fn days_out(parts: &EffectiveRule, day: u32, by_days: bool) -> u32
    requires { day ≤ day_before 9_999 }
    ensures none { (j : ℕ) → j < result → lets_date parts.now (day + j) ≡ false }
    ensures some { by_days ≡ true → result ≡ 0 → lets_date parts.now day ≡ true }
    ensures most { result ≤ 32 }
{
    if by_days {
        days_left_out(parts, day)
    } else {
        days_of_closed_month(parts, day)
    }
}

/// The same, and only such days of the year are tested as are near those that the rule allows.
pub(crate) fn days_out_near(parts: &EffectiveRule, near: &NearDays, day: u32) -> u32
    requires day { day ≤ days_before_year 9_801 }
    requires near { AreNear parts.now near.now }
    requires high { day < near.now.end }
    ensures none { (j : ℕ) → j < result → lets_date parts.now (day + j) ≡ false }
    ensures some { result ≡ 0 → lets_date parts.now day ≡ true }
    ensures most { result ≤ 384 }
{
    let out = near.days_out(day);
    if out > 0 {
        out
    } else {
        days_out(parts, day, true)
    }
}

/// Days of the calendar's 400 years, after which the days that a rule allows repeat.
const CALENDAR_ROUND: u32 = 146_097;

/// The first day from one on that a rule allows. Only such days of a year are tested as a part lists. The search ends at `end`, and after a round
/// of the calendar without such a day.
fn next_near_day(parts: &EffectiveRule, day: u32, end: u32) -> u32
    requires day { day ≤ end }
    requires end { end ≤ days_before_year 9_801 + 1 }
    ensures low { day ≤ result }
    ensures high { result ≤ end + 384 }
    ensures none { (e : ℕ) → day ≤ e → e < result → lets_date parts.now e ≡ false }
{
    let round = day + CALENDAR_ROUND;
    let mut near = NearDays::new(0);
    let mut day = day;
    while day < end {
        if day >= round {
            return end;
        }
        near.turn_to(parts, day);
        let out = days_out_near(parts, &near, day);
        if out == 0 {
            return day;
        }
        day += out;
    }
    day
}

/// So many days are tested one by one before those of whole years are found.
const A_SHORT_PASS: u32 = 64;

/// The first day from one on that a rule may allow; with `by_days` it allows that day. The search ends at `end`, and after a round of the
/// calendar without such a day.
pub(crate) fn next_open_day(parts: &EffectiveRule, day: u32, end: u32, by_days: bool) -> u32
    requires day { day ≤ end }
    requires end { end ≤ days_before_year 9_801 + 1 }
    ensures low { day ≤ result }
    ensures high { result ≤ end + 384 }
    ensures none { (e : ℕ) → day ≤ e → e < result → lets_date parts.now e ≡ false }
{
    let round = day + CALENDAR_ROUND;
    let mut far = day + A_SHORT_PASS;
    let mut day = day;
    while day < end {
        if day >= far {
            if day >= round {
                return end;
            }
            if by_days && lists_days(parts) {
                return next_near_day(parts, day, end);
            }
            far = round;
        }
        let out = days_out(parts, day, by_days);
        if out == 0 {
            return day;
        }
        day += out;
    }
    day
}

/// The first local from one on whose time a rule allows, or the end of its day.
pub(crate) fn next_open_second(parts: &EffectiveRule, n: u64) -> u64
    requires { n < calendar_end }
    ensures low { n ≤ result }
    ensures high { result ≤ n + 86400 }
    ensures none { (m : ℕ) → n ≤ m → m < result → lets_clock parts.now m ≡ false }
{
    let day = n / 86_400;
    let hours = clock_set(true, parts.hours, 0, 24);
    let minutes = clock_set(true, parts.minutes, 0, 60);
    let seconds = clock_set(true, parts.seconds, 0, 60);
    match next_second(hours, minutes, seconds, (n % 86_400) as u32) {
        Some(second) => day * 86_400 + second as u64,
        None => (day + 1) * 86_400,
    }
}

/// The first local from one on whose time a rule allows, or the end of its day; if FREQ is DAILY or coarser, that one.
fn next_time(parts: &EffectiveRule, n: u64) -> u64
    requires { n < calendar_end }
    ensures low { n ≤ result }
    ensures high { result ≤ n + 86400 }
    ensures none { NoneLetIn parts.now n result }
{
    if skips_hours(parts.frequency) {
        n
    } else {
        next_open_second(parts, n)
    }
}

/// The first local from one on that a rule may allow; with `by_days` it allows that day. The search ends at `end`.
pub(crate) fn next_open(parts: &EffectiveRule, n: u64, end: u64, by_days: bool) -> u64
    requires local { n < end }
    requires end { end ≤ rules_end }
    ensures low { n ≤ result }
    ensures high { result < calendar_end }
    ensures none { NoneLetIn parts.now n result }
{
    let day = next_open_day(parts, (n / 86_400) as u32, (end / 86_400) as u32, by_days);
    next_time(parts, n.max(day as u64 * 86_400))
}

/// The first local from one on whose day a rule allows and, if FREQ is finer than DAILY, whose time too. The search ends at `end`, and after a
/// round of the calendar without such a day.
pub(crate) fn next_allowed(parts: &EffectiveRule, n: u64, end: u64) -> u64
    requires local { n < end }
    requires end { end ≤ rules_end }
    ensures low { n ≤ result }
    ensures high { result < calendar_end }
    ensures none { NoneLetIn parts.now n result }
{
    let at = next_time(parts, n);
    if at >= end {
        return at;
    }
    next_open(parts, at, end, true)
}

/// Whether no period is skipped: each year is looked at, and each month if BYMONTH is absent.
fn opens_every_period(parts: &EffectiveRule) -> bool {
    match parts.frequency {
        Frequency::Yearly => true,
        Frequency::Monthly => parts.months.is_empty(),
        _ => false,
    }
}

/// The first step after a period, which was looked at, in whose period a rule may allow a local. The next step if `last`, the period of the last
/// local before `stop`, is earlier. Days are tested on the way, under MONTHLY only months, and no other period is looked at.
pub(crate) fn next_open_step(
    search: &Search<'_>,
    period: &RecurrencePeriod,
    last: u64,
    stop: u64,
) -> u64
    requires step { is_stepped search.now.first search.now.parts.now.interval period.now.number ≡ true }
    requires small { period.now.number < 2 ^ 40 }
    requires last { last ≡ period_in search.now.parts.now (stop - 1) }
    requires some { 0 < stop }
    requires stop { stop ≤ rules_end }
    ensures { IsNextOpen search.now.parts.now search.now.first (period.now.number + search.now.parts.now.interval) result }
{
    let parts = search.parts;
    let next = period.number() + parts.interval as u64;
    if next > last || opens_every_period(parts) {
        return next;
    }
    let begin = first_local(parts.frequency, parts.week_start, next);
    let by_days = !matches!(parts.frequency, Frequency::Monthly);
    let place = next_open(parts, begin, stop, by_days);
    next_step(search.first, parts.interval, period_of(parts, place))
}

/// After each so many looks in vain, a step is found by the times of a day and the weekdays.
const SOME_LOOKS: u64 = 4;

/// The first step from one on whose time of day is allowed and whose weekday is, as far as that is known after so many looks in vain.
pub(crate) fn next_timed_step(search: &Search<'_>, step: u64, looks: u64, is_last: bool) -> u64
    requires { is_stepped search.now.first search.now.parts.now.interval step ≡ true }
    ensures { IsNextOpen search.now.parts.now search.now.first step result }
{
    let parts = search.parts;
    if step >= RULES_END {
        return step;
    }
    step + steps_out(parts, step, looks, is_last) * parts.interval as u64
}

/// The same. After each so many looks in vain, steps are passed over whose time or weekday is not allowed.
pub(crate) fn next_step_after(
    search: &Search<'_>,
    period: &RecurrencePeriod,
    last: u64,
    stop: u64,
    looks: u64,
) -> u64
    requires step { is_stepped search.now.first search.now.parts.now.interval period.now.number ≡ true }
    requires small { period.now.number < 2 ^ 40 }
    requires last { last ≡ period_in search.now.parts.now (stop - 1) }
    requires some { 0 < stop }
    requires stop { stop ≤ rules_end }
    ensures { IsNextOpen search.now.parts.now search.now.first (period.now.number + search.now.parts.now.interval) result }
{
    let next = next_open_step(search, period, last, stop);
    if looks % SOME_LOOKS > 0 {
        return next;
    }
    next_timed_step(search, next, looks, false)
}
