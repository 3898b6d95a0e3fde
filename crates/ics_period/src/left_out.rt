//! How many days that follow each other a rule leaves out.
ghost use Rattle.std.specs.Prelude.{◌≡◌, ℕ, ◌<◌, ◌≤◌, ◌+◌, false, true};
ghost use Rattle.ics_fields.specs.Fields.{IsCivilOf};
ghost use Rattle.ics_period.specs.PeriodNumbers.{day_before};
ghost use Rattle.ics_period.specs.Candidates.{lets_place, lets_date};

use crate::date::{civil_at, lets_fields, month_length, names_weekdays_alone, year_length};
use crate::effective_rule::EffectiveRule;
use crate::part::has_no_number;
use crate::runs::listed;
use crate::time::{lets, lets_place, lets_wide_place};
use ics_fields::{Civil, Ordinals};

/// How many days from one on are in a month that BYMONTH does not allow.
pub fn days_of_closed_month(parts: &EffectiveRule, day: u32) -> u32
    requires { day ≤ day_before 9_999 }
    ensures none { (j : ℕ) → j < result → lets_date parts.now (day + j) ≡ false }
    ensures most { result ≤ 32 }
{
    if parts.months.is_empty() {
        return 0;
    }
    let fields = civil_at(day);
    if lets(parts.months, fields.month) {
        0
    } else {
        u32::from(month_length(&fields) + 1 - fields.day)
    }
}

/// How many days from day `n` of a month of `size` days on BYMONTHDAY does not allow.
fn month_days_out(places: &Ordinals, n: u8, size: u8) -> u8
    requires first { 1 ≤ n }
    requires place { n ≤ size }
    requires small { size < 60 }
    ensures none { (j : ℕ) → j < result → lets_place places.now (n + j) size ≡ false }
    ensures most { n + result ≤ size + 1 }
{
    if places.is_empty() {
        return 0;
    }
    match listed(places, size).next_from(n) {
        Some(next) => next - n,
        None => size + 1 - n,
    }
}

/// If BYMONTHDAY counts so few days from the end, it is sooner done to find those that it lists in a month than to test the days in turn.
const FEW_FROM_END: u32 = 4;

/// How many days from one on, given with its fields, are of its month and left out by BYMONTH, or by BYMONTHDAY and BYYEARDAY.
fn days_unlisted(parts: &EffectiveRule, fields: &Civil) -> u8
    requires { (e : ℕ) × IsCivilOf fields.now e }
    ensures none { (e : ℕ) → IsCivilOf fields.now e → (j : ℕ) → j < result → lets_date parts.now (e + j) ≡ false }
    ensures most { result ≤ 32 }
{
    let len = month_length(fields);
    let rest = len + 1 - fields.day;
    if !lets(parts.months, fields.month) {
        return rest;
    }
    if parts.year_days.is_empty() && parts.month_days.back.ones_below(64) <= FEW_FROM_END {
        return month_days_out(&parts.month_days, fields.day, len);
    }
    let year = year_length(fields);
    let mut out = 0;
    while out < rest {
        if lets_place(&parts.month_days, fields.day + out, len)
            && lets_wide_place(&parts.year_days, fields.year_day + out as u16, year)
        {
            return out;
        }
        out += 1;
    }
    rest
}

/// How many days from one on a rule does not allow, as far as one look tells: they are of one month. The day is allowed if they are none.
pub fn days_left_out(parts: &EffectiveRule, day: u32) -> u32
    requires { day ≤ day_before 9_999 }
    ensures none { (j : ℕ) → j < result → lets_date parts.now (day + j) ≡ false }
    ensures some { result ≡ 0 → lets_date parts.now day ≡ true }
    ensures most { result ≤ 32 }
{
    let weekday = ((day + 5) % 7) as u8;
    if parts.weekdays.is_empty() | parts.weekdays.list.plain.contains(weekday) {
        if names_weekdays_alone(parts) {
            return 0;
        }
    } else if has_no_number(&parts.weekdays.list, weekday) {
        return days_of_closed_month(parts, day).max(1);
    }
    let fields = civil_at(day);
    if lets_fields(parts, &fields, day) {
        return 0;
    }
    if parts.month_days.is_empty() & parts.year_days.is_empty() {
        return days_of_closed_month(parts, day).max(1);
    }
    u32::from(days_unlisted(parts, &fields)).max(1)
}
