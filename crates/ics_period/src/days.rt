//! The days of a period that a rule allows.
ghost use Rattle.std.specs.Prelude.{◌≡◌, ℕ, ◌<◌, ◌≤◌, ◌+◌, ◌-◌, ◌&&◌, ◌||◌, nat_lt, pos, true};
ghost use Rattle.jiff_core.specs.Calendar.{days_in_month, days_in_year};
ghost use Rattle.ics_fields.specs.declared.frequency.Frequency.TheVariants.{Weekly, Monthly, Yearly};
ghost use Rattle.ics_fields.specs.Sets.{contains_wide, none_wide};
ghost use Rattle.ics_fields.specs.Days.{weekday_of, year_of};
ghost use Rattle.ics_period.specs.PeriodNumbers.{day_before};
ghost use Rattle.ics_period.specs.Candidates.{lets_date, lets_wide_place};
ghost use Rattle.ics_period.specs.Runs.{IsMonth, IsSpan, is_in_month, goes_by_months, counts_in_month, number_from};

use crate::date::{goes_by_months, lets_date, names_weekdays_alone, open_months};
use crate::effective_rule::EffectiveRule;
use crate::part::PlacesPart;
use crate::recurrence_period::days_before_month;
use crate::runs::Run;
use crate::time::lets;
use crate::weeks::{add_between, days_near_weeks};
use ics_fields::{Frequency, Side, WideBitSet};
use jiff_core::civil::days_in_month;

/// The weekday, from 0 for Monday, of a day that is counted from 0000-01-01.
pub(crate) fn weekday_at(index: u32) -> u8
    requires { index ≤ day_before 10_000 }
    ensures value { result ≡ weekday_of index }
    ensures small { result < 7 }
{
    ((index + 5) % 7) as u8
}

/// Fills a set with those of `len` days from a first that a rule allows, by a test of each.
#[inline(never)]
fn add_days_by_day(parts: &EffectiveRule, first: u32, len: u16, days: &mut WideBitSet)
    requires size { len ≤ 384 }
    requires days { first + len ≤ day_before 9_999 }
    requires empty { days.old ≡ none_wide }
    ensures { (k : ℕ) → contains_wide days.new k ≡ (nat_lt k len && lets_date parts.now (first + k)) }
{
    for k in 0..len {
        if lets_date(parts, first + k as u32) {
            days.insert(k);
        }
    }
}

/// Fills a set with those of `len` days of a week from a first that a rule allows.
#[inline(never)]
fn add_days_of_week(parts: &EffectiveRule, first: u32, len: u16, days: &mut WideBitSet)
    requires frequency { parts.now.frequency ≡ Weekly }
    requires size { len ≤ 384 }
    requires days { first + 384 ≤ day_before 9_999 }
    requires empty { days.old ≡ none_wide }
    ensures { (k : ℕ) → contains_wide days.new k ≡ (nat_lt k len && lets_date parts.now (first + k)) }
{
    if parts.weekdays.is_empty() | !names_weekdays_alone(parts) {
        add_days_by_day(parts, first, len, days);
        return;
    }
    let named = parts.weekdays.named();
    for k in 0..len {
        if named.contains(weekday_at(first + k as u32)) {
            days.insert(k);
        }
    }
}

/// Those of a set of days, counted from a first, that a rule allows.
fn those_let_in(parts: &EffectiveRule, first: u32, some: &WideBitSet) -> WideBitSet
    requires { first + 384 ≤ day_before 9_999 }
    ensures { (k : ℕ) → contains_wide result k ≡ (contains_wide some.now k && lets_date parts.now (first + k)) }
{
    let mut days = WideBitSet::new();
    let mut from = 0;
    while let Some(k) = some.next_from(from) {
        if lets_date(parts, first + k as u32) {
            days.insert(k);
        }
        from = k + 1;
    }
    days
}

/// The day of a year of `len` days that is the `n`-th from an end.
fn nth_day(side: Side, n: u16, len: u16) -> u16
    requires some { 1 ≤ n }
    requires most { n ≤ len }
    ensures within { result < len }
    ensures number { number_from side result len ≡ n }
{
    match side {
        Side::Front => n - 1,
        Side::Back => len - n,
    }
}

/// Adds the days of a year of `len` days whose numbers from an end are listed.
fn add_numbered_days(listed: &WideBitSet, side: Side, len: u16, days: &mut WideBitSet)
    requires { len ≤ 366 }
    ensures { (m : ℕ) → contains_wide days.new m ≡ (contains_wide days.old m || (nat_lt m len && contains_wide listed.now (number_from side m len))) }
{
    let mut from = 1;
    while let Some(n) = listed.next_from(from) {
        if n > len {
            return;
        }
        days.insert(nth_day(side, n, len));
        from = n + 1;
    }
}

/// The days that a part allows in a year of `len` days.
fn days_of_places(places: &PlacesPart, len: u16) -> WideBitSet
    requires { len ≤ 366 }
    ensures { (k : ℕ) → contains_wide result k ≡ (nat_lt k len && lets_wide_place places.now (k + 1) len) }
{
    let mut days = WideBitSet::new();
    if places.is_empty() {
        add_between(&mut days, 0, len);
        return days;
    }
    add_numbered_days(&places.list.front, Side::Front, len, &mut days);
    add_numbered_days(&places.list.back, Side::Back, len, &mut days);
    days
}

/// The days that BYYEARDAY allows in a year of `len` days.
pub(crate) fn days_by_number(parts: &EffectiveRule, len: u16) -> WideBitSet
    requires { len ≤ 366 }
    ensures { (k : ℕ) → contains_wide result k ≡ (nat_lt k len && lets_wide_place parts.now.year_days (k + 1) len) }
{
    days_of_places(&parts.year_days, len)
}

/// The number of days in a month of a year of `len` days.
fn days_of_one(len: u16, month: u8) -> u16
    requires month { month ≤ 12 }
    requires low { 365 ≤ len }
    requires high { len ≤ 366 }
    ensures { (y : ℕ) → len ≡ days_in_year (pos y) → result ≡ days_in_month (pos y) month }
{
    if month == 2 {
        len - 337
    } else {
        days_in_month(1, month) as u16
    }
}

/// A month of a year of `len` days; `first` is the year's first day, counted from 0000-01-01.
#[inline(always)]
fn month_run(first: u32, len: u16, month: u8) -> Run
    requires days { first + 384 ≤ day_before 9_999 }
    requires short { 365 ≤ len }
    requires long { len ≤ 366 }
    requires low { 1 ≤ month }
    requires high { month ≤ 12 }
    ensures month { (y : ℕ) → IsSpan Yearly y first len → IsMonth result first y month }
    ensures within { (y : ℕ) → IsSpan Yearly y first len → result.start + result.len ≤ len }
{
    let start = days_before_month(len as u64, month as u64 - 1) as u16;
    Run {
        start,
        len: days_of_one(len, month),
        weekday: weekday_at(first + start as u32),
    }
}

/// Fills a set with the days of a year that are listed in its months.
#[tactic(auto, using(jiff_core::proofs::CalendarLemmas::days_in_year_bounds))]
#[inline(always)]
pub(crate) fn add_listed_days(parts: &EffectiveRule, first: u32, len: u16, days: &mut WideBitSet)
    requires span { IsSpan Yearly (year_of first) first len }
    requires days { first + 384 ≤ day_before 9_999 }
    requires empty { days.old ≡ none_wide }
    ensures { (k : ℕ) → contains_wide days.new k ≡ (nat_lt k len && is_in_month parts.now (first + k)) }
{
    let months = open_months(parts.months);
    let mut from = 1;
    while let Some(month) = months.next_from(from) {
        month_run(first, len, month).add_month(parts, days);
        from = month + 1;
    }
}

/// Leaves those of the days listed in their months that a rule allows.
#[inline(always)]
fn leave_let_in(parts: &EffectiveRule, first: u32, len: u16, days: &mut WideBitSet)
    requires days { first + 384 ≤ day_before 9_999 }
    requires months { goes_by_months parts.now ≡ true }
    requires numbers { counts_in_month parts.now parts.now.frequency ≡ true }
    requires listed { (k : ℕ) → contains_wide days.old k ≡ (nat_lt k len && is_in_month parts.now (first + k)) }
    ensures { (k : ℕ) → contains_wide days.new k ≡ (nat_lt k len && lets_date parts.now (first + k)) }
{
    if parts.month_days.is_empty() | parts.weekdays.is_empty() {
        return;
    }
    *days = those_let_in(parts, first, days);
}

/// Fills a set with the days of a month that a rule allows.
fn add_days_of_month(
    parts: &EffectiveRule,
    number: u64,
    first: u32,
    len: u16,
    days: &mut WideBitSet,
)
    requires frequency { parts.now.frequency ≡ Monthly }
    requires span { IsSpan Monthly number first len }
    requires days { first + 384 ≤ day_before 9_999 }
    requires empty { days.old ≡ none_wide }
    ensures { (k : ℕ) → contains_wide days.new k ≡ (nat_lt k len && lets_date parts.now (first + k)) }
{
    if !goes_by_months(parts) {
        add_days_by_day(parts, first, len, days);
        return;
    }
    if lets(parts.months, ((number - 1) % 12 + 1) as u8) {
        let run = Run {
            start: 0,
            len,
            weekday: weekday_at(first),
        };
        run.add_month(parts, days);
    }
    leave_let_in(parts, first, len, days);
}

/// Fills a set with the days of a year that a rule allows, by a test of those that BYWEEKNO or BYYEARDAY may list, or of each.
#[tactic(auto, using(jiff_core::proofs::CalendarLemmas::days_in_year_bounds))]
#[inline(never)]
fn add_tested_days(parts: &EffectiveRule, first: u32, len: u16, days: &mut WideBitSet)
    requires span { IsSpan Yearly (year_of first) first len }
    requires days { first + 384 ≤ day_before 9_999 }
    ensures { (k : ℕ) → contains_wide days.new k ≡ (nat_lt k len && lets_date parts.now (first + k)) }
{
    *days = if parts.weeks.is_empty() {
        those_let_in(parts, first, &days_by_number(parts, len))
    } else {
        those_let_in(parts, first, &days_near_weeks(parts, first, len))
    };
}

/// Fills a set with the days of a year that a rule allows.
#[tactic(auto, using(jiff_core::proofs::CalendarLemmas::days_in_year_bounds))]
fn add_days_of_year(parts: &EffectiveRule, first: u32, len: u16, days: &mut WideBitSet)
    requires frequency { parts.now.frequency ≡ Yearly }
    requires span { IsSpan Yearly (year_of first) first len }
    requires days { first + 384 ≤ day_before 9_999 }
    requires empty { days.old ≡ none_wide }
    ensures { (k : ℕ) → contains_wide days.new k ≡ (nat_lt k len && lets_date parts.now (first + k)) }
{
    if !goes_by_months(parts) {
        add_tested_days(parts, first, len, days);
        return;
    }
    if parts.months.is_empty() & parts.month_days.is_empty() {
        let run = Run {
            start: 0,
            len,
            weekday: weekday_at(first),
        };
        run.add_weekdays(&parts.weekdays, days);
        return;
    }
    add_listed_days(parts, first, len, days);
    leave_let_in(parts, first, len, days);
}

/// Fills a set with the days that a rule allows in the period with a number, which has `len` days from a first.
pub(crate) fn add_days_let_in(
    parts: &EffectiveRule,
    number: u64,
    first: u32,
    len: u16,
    days: &mut WideBitSet,
)
    requires size { len ≤ 384 }
    requires days { first + 384 ≤ day_before 9_999 }
    requires span { IsSpan parts.now.frequency number first len }
    requires empty { days.old ≡ none_wide }
    ensures { (k : ℕ) → contains_wide days.new k ≡ (nat_lt k len && lets_date parts.now (first + k)) }
{
    match parts.frequency {
        Frequency::Yearly => add_days_of_year(parts, first, len, days),
        Frequency::Monthly => add_days_of_month(parts, number, first, len, days),
        Frequency::Weekly => add_days_of_week(parts, first, len, days),
        _ => add_days_by_day(parts, first, len, days),
    }
}
