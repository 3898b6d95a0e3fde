//! How many periods shorter than a day a rule allows, by a look at each day: at all days if it allows few, or at those of one round of the calendar.
ghost use Rattle.std.specs.Prelude.{◌≡◌, ℕ, true, false, length, slice_index_or, MatchOption, ◌<◌, ◌≤◌, ◌+◌, ◌*◌};
ghost use Rattle.ics_fields.specs.Days.{days_before_year};
ghost use Rattle.ics_period.specs.Candidates.{is_stepped};
ghost use Rattle.ics_period.specs.Ranks.{count};
ghost use Rattle.ics_rule.specs.Inner.Rounds.{seconds_of};
ghost use Rattle.ics_rule.specs.Inner.OpenPeriods.{per_day, lets_own, is_timely_on, timely_on, is_open_period, HasRests};

use crate::open_periods::{A_SHORT_MONTH, lets_all_times, steps_let_in};
use crate::pass::days_out_near;
use crate::rounds::seconds_of;
use crate::search::Search;
use crate::walk::next_step;
use ics_period::{NearDays, lets_date, lists_days, names_weekdays_alone};

/// If the interval is no longer, the steps of so many days that follow each other are counted once: those of a day are as many as they were so
/// many days before as the interval has.
const RESTS: usize = 4_096;

/// The steps of a day are not kept if there are more.
const MOST_KEPT: u64 = 65_535;

const A_YEAR: u64 = 366;

/// After so many days, those of 400 years, a rule allows the same dates.
const ROUND: u64 = 146_097;

/// How many days of a year from one on are allowed.
fn days_of_year(search: &Search<'_>, from: u64) -> u64
    requires { from ≤ days_before_year 9_801 + 1 }
    ensures { result ≤ 366 }
{
    let mut days = 0;
    for day in from..from + A_YEAR {
        if lets_date(search.parts, day as u32) {
            days += 1;
        }
    }
    days
}

/// Whether few days of a year are allowed, so that a look at each, with its steps, takes less than one at all days. Short steps are not asked for,
/// except where days are listed, or months: those of a year are then found once, and not for each rest of the interval.
pub(crate) fn lets_few(search: &Search<'_>, from: u64, before: u64) -> bool
    requires order { from ≤ before }
    requires before { before ≤ days_before_year 9_801 + 1 }
{
    let parts = search.parts;
    let unit = seconds_of(parts.frequency);
    if unit == 0 || unit >= 86_400 || names_weekdays_alone(parts) || before - from >= 2 * ROUND {
        return false;
    }
    if parts.interval < A_SHORT_MONTH {
        return parts.interval > 1 && (lists_days(parts) || !parts.months.is_empty());
    }
    let mut steps = 0;
    if parts.interval as usize > RESTS && !lets_all_times(parts) {
        steps = 86_400 / unit / parts.interval as u64;
    }
    days_of_year(search, from) * (steps + 4) <= A_YEAR * 3
}

/// How many steps of a day have an hour, minute and second that are allowed, whatever the day is.
fn steps_on(search: &Search<'_>, day: u64) -> u64
    requires fine { 0 < seconds_of search.now.parts.now.frequency }
    requires unit { seconds_of search.now.parts.now.frequency ≤ 86400 }
    requires day { day ≤ days_before_year 9_801 + 1 + 4096 }
    ensures value { result ≡ timely_on search.now.parts.now search.now.first day }
    ensures bound { result ≤ 86400 }
{
    let per_day = 86_400 / seconds_of(search.parts.frequency);
    steps_let_in(search, day * per_day, (day + 1) * per_day)
}

/// The same of as many days as the interval has, from one on. They are not kept if these are many, or more than those before another day, or if a day
/// has many.
fn steps_by_rest(search: &Search<'_>, from: u64, before: u64) -> Option<[u16; RESTS]>
    requires fine { 0 < seconds_of search.now.parts.now.frequency }
    requires unit { seconds_of search.now.parts.now.frequency ≤ 86400 }
    requires from { from ≤ days_before_year 9_801 + 1 }
    ensures { MatchOption result (Unit {0}) (HasRests search.now.parts.now search.now.first from) }
{
    let interval = search.parts.interval as usize;
    if interval > RESTS || interval as u64 > before.saturating_sub(from) {
        return None;
    }
    let mut steps = [0; RESTS];
    for j in 0..interval {
        let own = steps_on(search, from + j as u64);
        if own > MOST_KEPT {
            return None;
        }
        steps[j] = own as u16;
    }
    Some(steps)
}

/// The same of a day, by those of the days from one on.
fn steps_at(search: &Search<'_>, steps: &Option<[u16; RESTS]>, from: u64, day: u64) -> u64
    requires fine { 0 < seconds_of search.now.parts.now.frequency }
    requires unit { seconds_of search.now.parts.now.frequency ≤ 86400 }
    requires first { search.now.first < from * per_day search.now.parts.now.frequency }
    requires order { from ≤ day }
    requires day { day ≤ days_before_year 9_801 + 1 }
    requires steps { MatchOption steps.now (Unit {0}) (HasRests search.now.parts.now search.now.first from) }
    ensures { result ≡ timely_on search.now.parts.now search.now.first day }
{
    match steps {
        None => steps_on(search, day),
        Some(steps) => steps[((day - from) % search.parts.interval as u64) as usize] as u64,
    }
}

/// How many periods of whole days are allowed, by a look at each day that may be.
pub(crate) fn open_of_each(search: &Search<'_>, from: u64, before: u64) -> u64
    requires fine { 0 < seconds_of search.now.parts.now.frequency }
    requires unit { seconds_of search.now.parts.now.frequency ≤ 86400 }
    requires first { search.now.first < from * per_day search.now.parts.now.frequency }
    requires order { from ≤ before }
    requires before { before ≤ days_before_year 9_801 + 1 }
    ensures { result + count (from * per_day search.now.parts.now.frequency) (is_open_period search.now.parts.now search.now.first)
        ≡ count (before * per_day search.now.parts.now.frequency) (is_open_period search.now.parts.now search.now.first) }
{
    let parts = search.parts;
    let steps = steps_by_rest(search, from, before);
    let mut near = NearDays::new(if lists_days(parts) { 0 } else { u32::MAX });
    let mut total = 0;
    let mut day = from;
    while day < before {
        near.turn_to(parts, day as u32);
        let off = days_out_near(parts, &near, day as u32);
        if off == 0 {
            total += steps_at(search, &steps, from, day);
        }
        day += off.max(1) as u64;
    }
    total
}

/// Whether a look at each day of a round, with the steps of those that follow it by whole rounds, takes less than one at all days from one on and
/// before another. Where times are restricted it does if the steps of a day are known, or if few days are allowed.
pub(crate) fn goes_by_rounds(search: &Search<'_>, from: u64, before: u64) -> bool
    requires order { from ≤ before }
    requires before { before ≤ days_before_year 9_801 + 1 }
{
    let parts = search.parts;
    let unit = seconds_of(parts.frequency);
    if unit == 0 || unit >= 86_400 || before - from < 2 * ROUND {
        return false;
    }
    let is_soon_counted = parts.interval as usize <= RESTS || lets_all_times(parts);
    is_soon_counted || days_of_year(search, from) <= A_YEAR / 6
}

/// How many steps there are, where each time is allowed, on a day and on those that follow it by whole rounds, before another. The next step of
/// each is some whole intervals after that of the one before it, and at most one more.
fn steps_in_rounds(search: &Search<'_>, from: u64, before: u64) -> u64
    requires fine { 0 < seconds_of search.now.parts.now.frequency }
    requires unit { seconds_of search.now.parts.now.frequency ≤ 86400 }
    requires every { (n : ℕ) → lets_own search.now.parts.now.frequency search.now.parts.now n ≡ true }
    requires first { search.now.first ≤ from * per_day search.now.parts.now.frequency }
    requires order { from ≤ before }
    requires before { before ≤ days_before_year 9_801 + 1 }
    ensures { result ≡ count (before * per_day search.now.parts.now.frequency)
        (is_timely_on search.now.parts.now search.now.first (is_stepped from 146_097)) }
{
    let interval = search.parts.interval as u64;
    let per_day = 86_400 / seconds_of(search.parts.frequency);
    let leap = ROUND * per_day / interval * interval;
    let mut number = next_step(search.first, search.parts.interval, from * per_day);
    let mut total = 0;
    let mut day = from;
    while day < before {
        let is_more = number - day * per_day < per_day % interval;
        total += per_day / interval + u64::from(is_more);
        day += ROUND;
        number += leap;
        if number < day * per_day {
            number += interval;
        }
    }
    total
}

/// How many steps that have an allowed time there are on a day and on those that follow it by whole rounds, before another, by those of the days
/// from one on.
fn steps_of_rounds(
    search: &Search<'_>,
    steps: &Option<[u16; RESTS]>,
    begin: u64,
    from: u64,
    before: u64,
) -> u64
    requires fine { 0 < seconds_of search.now.parts.now.frequency }
    requires unit { seconds_of search.now.parts.now.frequency ≤ 86400 }
    requires first { search.now.first < begin * per_day search.now.parts.now.frequency }
    requires begun { begin ≤ from }
    requires order { from ≤ before }
    requires before { before ≤ days_before_year 9_801 + 1 }
    requires steps { MatchOption steps.now (Unit {0}) (HasRests search.now.parts.now search.now.first begin) }
    ensures { result ≡ count (before * per_day search.now.parts.now.frequency)
        (is_timely_on search.now.parts.now search.now.first (is_stepped from 146_097)) }
{
    if lets_all_times(search.parts) {
        return steps_in_rounds(search, from, before);
    }
    let mut total = 0;
    let mut day = from;
    while day < before {
        total += steps_at(search, steps, begin, day);
        day += ROUND;
    }
    total
}

/// How many periods of whole days are allowed. A day is looked at once for all that follow it by whole rounds.
pub(crate) fn open_of_rounds(search: &Search<'_>, from: u64, before: u64) -> u64
    requires fine { 0 < seconds_of search.now.parts.now.frequency }
    requires unit { seconds_of search.now.parts.now.frequency ≤ 86400 }
    requires first { search.now.first < from * per_day search.now.parts.now.frequency }
    requires order { from ≤ before }
    requires before { before ≤ days_before_year 9_801 + 1 }
    ensures { result + count (from * per_day search.now.parts.now.frequency) (is_open_period search.now.parts.now search.now.first)
        ≡ count (before * per_day search.now.parts.now.frequency) (is_open_period search.now.parts.now search.now.first) }
{
    let parts = search.parts;
    let end = before.min(from + ROUND);
    let steps = if lets_all_times(parts) {
        None
    } else {
        steps_by_rest(search, from, before)
    };
    let mut near = NearDays::new(if lists_days(parts) { 0 } else { u32::MAX });
    let mut total = 0;
    let mut day = from;
    while day < end {
        near.turn_to(parts, day as u32);
        let off = days_out_near(parts, &near, day as u32);
        if off == 0 {
            total += steps_of_rounds(search, &steps, from, day, before);
        }
        day += off.max(1) as u64;
    }
    total
}
