//! How many periods of a day or less a rule allows, counted by whole days.
ghost use Rattle.std.specs.Prelude.{◌≡◌, ℕ, true, false, ◌<◌, ◌≤◌, ◌+◌, ◌-◌, ◌*◌, ◌/◌, ◌^◌, ◌&&◌, Some};
ghost use Rattle.ics_period.specs.Candidates.{is_stepped, lets_date};
ghost use Rattle.ics_period.specs.Ranks.{count};
ghost use Rattle.ics_rule.specs.Inner.Searches.{IsUnderCount};
ghost use Rattle.ics_rule.specs.Inner.Rounds.{seconds_of, IsPassedTo};
ghost use Rattle.ics_rule.specs.Inner.OpenPeriods.{per_day, lets_own, is_timely, is_open_period, chosen_in_open};
ghost use Rattle.ics_fields.specs.Days.{days_before_year};
ghost use Rattle.ics_period.specs.PeriodNumbers.{rules_end};

use crate::cursor::{Cursor, RULES_END};
use crate::each_day::{goes_by_rounds, lets_few, open_of_each, open_of_rounds};
use crate::never::size_of_open;
use crate::pass::{next_open_day, next_open_second};
use crate::rounds::{calendar_round, seconds_of};
use crate::search::Search;
use crate::walk::next_step;
use ics_period::{
    EffectiveRule, NearDays, days_of_closed_month, lets, lets_date, listed_below, lists_days,
    members_below, period_of, skips_hours, skips_minutes, skips_seconds,
};

/// Whether the parts allow the hour, minute and second of a period, as far as the period has them; `n` is its first local.
fn lets_own(parts: &EffectiveRule, n: u64) -> bool
    ensures { result ≡ lets_own parts.now.frequency parts.now n }
{
    let frequency = parts.frequency;
    (skips_hours(frequency) | lets(parts.hours, (n / 3_600 % 24) as u8))
        && (skips_minutes(frequency) | lets(parts.minutes, (n / 60 % 60) as u8))
        && (skips_seconds(frequency) | lets(parts.seconds, (n % 60) as u8))
}

/// Whether no part restricts the hour, minute and second of a period, as far as the period has them.
pub(crate) fn lets_all_times(parts: &EffectiveRule) -> bool
    ensures { result ≡ true → (n : ℕ) → lets_own parts.now.frequency parts.now n ≡ true }
{
    let frequency = parts.frequency;
    (skips_hours(frequency) | parts.hours.is_empty())
        && (skips_minutes(frequency) | parts.minutes.is_empty())
        && (skips_seconds(frequency) | parts.seconds.is_empty())
}

/// Whether the parts do not allow the hour or the minute of a second of the years of rules.
fn is_closed_minute(parts: &EffectiveRule, n: u64) -> bool
    ensures { result ≡ true → n < rules_end }
{
    n < RULES_END
        && !(lets(parts.hours, (n / 3_600 % 24) as u8) && lets(parts.minutes, (n / 60 % 60) as u8))
}

/// How many steps of an interval, from the first on, are before a number.
fn steps_before(first: u64, interval: u32, number: u64) -> u64
    requires interval { 1 ≤ interval }
    requires number { number < 2 ^ 40 }
    ensures { result ≡ count number (is_stepped first interval) }
{
    let interval = interval as u64;
    (number.saturating_sub(first) + (interval - 1)) / interval
}

/// Steps of fewer seconds leave a minute that is not allowed at its end.
const A_SHORT_STEP: u64 = 512;

/// Longer steps leave it so where the product of their seconds and the number of hours that are allowed is less.
const A_LONG_LEAP: u64 = 23_000;

/// Whether it is sooner done to leave minutes that are not allowed at their end than to test each step in them.
fn leaves_minutes(parts: &EffectiveRule) -> bool {
    let interval = u64::from(parts.interval);
    if interval < A_SHORT_STEP {
        return true;
    }
    !parts.hours.is_empty()
        && interval < A_LONG_LEAP
        && interval * members_below(&parts.hours, 24) < A_LONG_LEAP
}

/// How many steps from one period on and before another have an hour, minute and second that are allowed, whatever their days are. A minute that is
/// not allowed is left at its end, where that is sooner done.
pub(crate) fn steps_let_in(search: &Search<'_>, from: u64, before: u64) -> u64
    requires order { from ≤ before }
    requires before { before < 2 ^ 40 }
    requires unit { seconds_of search.now.parts.now.frequency ≤ 86400 }
    ensures { result + count from (is_timely search.now.parts.now search.now.first) ≡ count before (is_timely search.now.parts.now search.now.first) }
{
    let parts = search.parts;
    if lets_all_times(parts) {
        return steps_before(search.first, parts.interval, before)
            - steps_before(search.first, parts.interval, from);
    }
    let unit = seconds_of(parts.frequency);
    let leaves = leaves_minutes(parts);
    let mut total = 0;
    let mut number = next_step(search.first, parts.interval, from);
    while number < before {
        if lets_own(parts, number * unit) {
            total += 1;
            number += parts.interval as u64;
        } else if unit == 1 && leaves && is_closed_minute(parts, number) {
            let closed = (next_open_second(parts, number) - number).max(1);
            number = next_step(search.first, parts.interval, number + closed);
        } else {
            number += parts.interval as u64;
        }
    }
    total
}

/// Steps of fewer days than this fall into each month.
pub(crate) const A_SHORT_MONTH: u32 = 28;

/// How many days are allowed, of those in steps of the interval from one on and before another. Where steps are short, only such days of a year
/// are tested as a part lists, and else a month that BYMONTH does not allow is left at its end.
fn days_let_in(search: &Search<'_>, from: u64, before: u64) -> u64
    requires order { from ≤ before }
    requires before { before ≤ days_before_year 9_801 + 1 }
    ensures value { result ≡ count before (λ e. is_stepped from search.now.parts.now.interval e && lets_date search.now.parts.now e) }
    ensures bound { result ≤ before }
{
    let parts = search.parts;
    let is_short = parts.interval < A_SHORT_MONTH;
    let by_year = is_short && lists_days(parts);
    let leaves_months = is_short && !by_year && !parts.months.is_empty();
    let mut near = NearDays::new(if by_year { 0 } else { u32::MAX });
    let mut total = 0;
    let mut day = from;
    while day < before {
        near.turn_to(parts, day as u32);
        let out = near.days_out(day as u32);
        if out > 0 {
            day = next_step(from, parts.interval, day + out as u64);
        } else if lets_date(parts, day as u32) {
            total += 1;
            day += parts.interval as u64;
        } else if leaves_months {
            let closed = days_of_closed_month(parts, day as u32).max(1);
            day = next_step(from, parts.interval, day + closed as u64);
        } else {
            day += parts.interval as u64;
        }
    }
    total
}

/// How many periods of whole days are allowed. Steps have the same times on days that are a multiple of the interval apart.
fn open_of_rests(search: &Search<'_>, from: u64, before: u64) -> u64
    requires fine { 0 < seconds_of search.now.parts.now.frequency }
    requires unit { seconds_of search.now.parts.now.frequency ≤ 86400 }
    requires first { search.now.first < from * per_day search.now.parts.now.frequency }
    requires order { from ≤ before }
    requires before { before ≤ days_before_year 9_801 + 1 }
    ensures { result + count (from * per_day search.now.parts.now.frequency) (is_open_period search.now.parts.now search.now.first)
        ≡ count (before * per_day search.now.parts.now.frequency) (is_open_period search.now.parts.now search.now.first) }
{
    let per_day = 86_400 / seconds_of(search.parts.frequency);
    let mut total = 0;
    for j in 0..(search.parts.interval as u64).min(before - from) {
        let day = from + j;
        let steps = steps_let_in(search, day * per_day, (day + 1) * per_day);
        if steps > 0 {
            total += days_let_in(search, day, before) * steps;
        }
    }
    total
}

/// How many periods of whole days are allowed, by a look at each day that is allowed, if they are few. Times are not tested if there is none.
fn open_of_days(search: &Search<'_>, from: u64, before: u64) -> u64
    requires fine { 0 < seconds_of search.now.parts.now.frequency }
    requires unit { seconds_of search.now.parts.now.frequency ≤ 86400 }
    requires first { search.now.first < from * per_day search.now.parts.now.frequency }
    requires order { from ≤ before }
    requires before { before ≤ days_before_year 9_801 + 1 }
    ensures { result + count (from * per_day search.now.parts.now.frequency) (is_open_period search.now.parts.now search.now.first)
        ≡ count (before * per_day search.now.parts.now.frequency) (is_open_period search.now.parts.now search.now.first) }
{
    let end = before as u32;
    if !lets_all_times(search.parts) && next_open_day(search.parts, from as u32, end, true) >= end {
        0
    } else if goes_by_rounds(search, from, before) {
        open_of_rounds(search, from, before)
    } else if lets_few(search, from, before) {
        open_of_each(search, from, before)
    } else {
        open_of_rests(search, from, before)
    }
}

/// How many periods of one day are allowed, from one on and before another.
fn open_in_day(search: &Search<'_>, from: u64, before: u64) -> u64
    requires fine { 0 < seconds_of search.now.parts.now.frequency }
    requires unit { seconds_of search.now.parts.now.frequency ≤ 86400 }
    requires order { from ≤ before }
    requires day { before ≤ (from / per_day search.now.parts.now.frequency + 1) * per_day search.now.parts.now.frequency }
    requires before { from / per_day search.now.parts.now.frequency ≤ days_before_year 9_801 + 1 }
    ensures { result + count from (is_open_period search.now.parts.now search.now.first) ≡ count before (is_open_period search.now.parts.now search.now.first) }
{
    let per_day = 86_400 / seconds_of(search.parts.frequency);
    if lets_date(search.parts, (from / per_day) as u32) {
        steps_let_in(search, from, before)
    } else {
        0
    }
}

/// How many periods are allowed from one on and before another, counted by whole days.
fn open_by_days(search: &Search<'_>, from: u64, before: u64) -> u64
    requires fine { 0 < seconds_of search.now.parts.now.frequency }
    requires unit { seconds_of search.now.parts.now.frequency ≤ 86400 }
    requires first { search.now.first ≤ from }
    requires order { from ≤ before }
    requires before { before / per_day search.now.parts.now.frequency ≤ days_before_year 9_801 + 1 }
    ensures { result + count from (is_open_period search.now.parts.now search.now.first) ≡ count before (is_open_period search.now.parts.now search.now.first) }
{
    let per_day = 86_400 / seconds_of(search.parts.frequency);
    let day = from / per_day;
    let last = before / per_day;
    if day == last {
        return open_in_day(search, from, before);
    }
    open_in_day(search, from, (day + 1) * per_day)
        + open_of_days(search, day + 1, last)
        + open_in_day(search, last * per_day, before)
}

/// How many periods are allowed from one on and before another. In each round of the calendar there are as many.
fn open_between(search: &Search<'_>, from: u64, before: u64) -> u64
    requires fine { 0 < seconds_of search.now.parts.now.frequency }
    requires unit { seconds_of search.now.parts.now.frequency ≤ 86400 }
    requires first { search.now.first ≤ from }
    requires order { from ≤ before }
    requires before { before / per_day search.now.parts.now.frequency ≤ days_before_year 9_801 + 1 }
    ensures { result + count from (is_open_period search.now.parts.now search.now.first) ≡ count before (is_open_period search.now.parts.now search.now.first) }
{
    let Some(round) = calendar_round(search, before - from) else {
        return open_by_days(search, from, before);
    };
    let rounds = (before - from) / round;
    let one = open_by_days(search, from, from + round);
    let rest = open_by_days(search, from + rounds * round, before);
    rounds * one + rest
}

/// How many locals are chosen in each period that is allowed.
fn chosen_in_open(parts: &EffectiveRule) -> u64
    requires fine { 0 < seconds_of parts.now.frequency }
    requires unit { seconds_of parts.now.frequency ≤ 86400 }
    ensures { result ≡ chosen_in_open parts.now }
{
    let size = size_of_open(parts);
    if parts.positions.is_empty() {
        size
    } else {
        listed_below(&parts.positions.list, size, size)
    }
}

/// Up to this many steps are looked at one by one.
const A_SHORT_WALK: u64 = 64;

/// So many steps that may be allowed are looked at before periods are counted by days.
const FEW_LOOKS: u32 = 32;

impl Cursor {
    /// Counts the periods from the one held, or from the start's, up to that of the place, if a period is a day or less, and looks at the
    /// last of them. Some that the rule may allow are looked at first, and those after them are counted by days. Nothing changes if they are few.
    pub(crate) fn pass_open(&mut self, search: &Search<'_>)
        requires cursor { IsUnderCount search.now.parts.now search.now.start search.now.count self.old }
        ensures { IsPassedTo search.now.parts.now search.now.start search.now.count self.old self.new }
    {
        let parts = search.parts;
        let unit = seconds_of(parts.frequency);
        if unit == 0 || unit > 86_400 {
            return;
        }
        let (begin, _) = self.counted_from(search.first);
        let interval = parts.interval as u64;
        let steps = period_of(parts, self.place).saturating_sub(begin) / interval;
        if steps < A_SHORT_WALK {
            return;
        }
        let last = begin + interval * steps;
        let Some(begin) = self.turn_through(search, begin, last, FEW_LOOKS) else {
            return;
        };
        if begin == last {
            return;
        }
        let number = open_between(search, begin, last);
        let total = self.counted + chosen_in_open(parts) * number;
        self.look_at(parts, last, total);
    }
}
