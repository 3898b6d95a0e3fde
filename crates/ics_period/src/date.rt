//! The parts of a rule that restrict the date (RFC 5545, 3.3.10).
ghost use Rattle.std.specs.Prelude.{◌≡◌, ℕ, ◌<◌, ◌≤◌, ◌+◌, ◌-◌, ◌*◌, ◌/◌, ◌%◌, ◌^◌, ◌&&◌, ◌||◌, pos};
ghost use Rattle.jiff_core.specs.Calendar.{days_in_year, days_in_month};
ghost use Rattle.jiff_core.specs.Weekday.{monday_zero};
ghost use Rattle.ics_fields.specs.Sets.{contains, is_empty};
ghost use Rattle.ics_period.specs.PeriodNumbers.{day_before};
ghost use Rattle.ics_fields.specs.Fields.{IsCivilOf};
ghost use Rattle.ics_period.specs.Runs.{goes_by_months};
ghost use Rattle.ics_period.specs.Candidates.{fourth_day, lets, lets_place, lets_numbered, lets_weekday, lets_week, lets_date};
ghost use Rattle.ics_period.specs.DateParts.{names_weekdays_alone};

use crate::effective_rule::EffectiveRule;
use crate::part::has_no_number;
use crate::time::{lets, lets_place, lets_wide_place, lists_nth};
use ics_fields::{BitSet, Civil, EPOCH_DAY, Frequency, Ordinals, civil};
use jiff_core::civil::{days_in_month, days_in_year};

/// The fields of a day of the years 0000 to 9999, counted from 0000-01-01.
pub fn civil_at(index: u32) -> Civil
    requires { index ≤ day_before 10_000 }
    ensures { IsCivilOf result index }
{
    civil(index as i32 - EPOCH_DAY)
}

/// The number of days in the year of a date.
pub(crate) fn year_length(fields: &Civil) -> u16
    requires { fields.now.year ≤ 9999 }
    ensures { result ≡ days_in_year (pos fields.now.year) }
{
    days_in_year(fields.year as i16)
}

/// The number of days in the month of a date of the years 0000 to 9999.
pub fn month_length(fields: &Civil) -> u8
    requires { fields.now.year ≤ 9999 }
    ensures { result ≡ days_in_month (pos fields.now.year) fields.now.month }
{
    days_in_month(fields.year as i16, fields.month)
}

/// Whether BYDAY lists a day by a number of its weekday.
fn lets_numbered(parts: &EffectiveRule, numbers: &Ordinals, fields: &Civil) -> bool
    requires { (e : ℕ) × IsCivilOf fields.now e }
    ensures { (e : ℕ) → IsCivilOf fields.now e → result ≡ lets_numbered parts.now.frequency parts.now numbers.now e }
{
    let by_month = match parts.frequency {
        Frequency::Monthly => true,
        Frequency::Yearly if parts.weeks.is_empty() => !parts.months.is_empty(),
        _ => return !numbers.is_empty(),
    };
    if by_month {
        lists_nth(numbers, fields.day as u16, month_length(fields) as u16)
    } else {
        lists_nth(numbers, fields.year_day, year_length(fields))
    }
}

/// Whether BYDAY allows a day.
fn lets_weekday(parts: &EffectiveRule, fields: &Civil) -> bool
    requires { (e : ℕ) × IsCivilOf fields.now e }
    ensures { (e : ℕ) → IsCivilOf fields.now e → result ≡ lets_weekday parts.now e }
{
    let weekday = fields.weekday.index();
    let numbers = &parts.weekdays.list.numbered[weekday as usize];
    (parts.weekdays.is_empty() | parts.weekdays.list.plain.contains(weekday))
        || lets_numbered(parts, numbers, fields)
}

/// The fourth day of a day's week. If the week begins before year 0000, the same one 400 years later.
fn fourth_day(parts: &EffectiveRule, index: u32) -> u32
    requires { index ≤ day_before 9_999 }
    ensures value { result ≡ fourth_day (monday_zero parts.now.week_start) index }
    ensures bound { result ≤ day_before 10_000 }
{
    let first = parts.week_start.index() as u32;
    let day = 7 * ((index + (12 - first)) / 7) + first;
    if day < 9 { day + 146_088 } else { day - 9 }
}

/// Whether BYWEEKNO allows a week, given by its fourth day, one of a year of `len` days.
fn lets_week_at(parts: &EffectiveRule, day: u16, len: u16) -> bool
    requires low { 1 ≤ day }
    requires high { day ≤ len }
    requires len { len ≤ 366 }
    ensures { result ≡ lets_place parts.now.weeks ((day - 1) / 7 + 1) ((len - 1 - (day - 1) % 7) / 7 + 1) }
{
    let number = (day - 1) / 7 + 1;
    let weeks = (len - 1 - (day - 1) % 7) / 7 + 1;
    lets_place(&parts.weeks, number as u8, weeks as u8)
}

/// Whether BYWEEKNO allows a day, given with its fields. The fourth day of its week is at most three days away, mostly in the same year.
fn lets_week(parts: &EffectiveRule, fields: &Civil, index: u32) -> bool
    requires day { index ≤ day_before 9_999 }
    requires fields { IsCivilOf fields.now index }
    ensures { result ≡ lets_week parts.now index }
{
    if parts.weeks.is_empty() {
        return true;
    }
    let place = ((index + (12 - parts.week_start.index() as u32)) % 7) as u16;
    let ahead = fields.year_day + 3;
    let len = year_length(fields);
    if place < ahead && ahead - place <= len {
        return lets_week_at(parts, ahead - place, len);
    }
    let fourth = civil_at(fourth_day(parts, index));
    lets_week_at(parts, fourth.year_day, year_length(&fourth))
}

/// Whether each part that restricts the date allows a day, given with its fields.
#[inline(always)]
pub(crate) fn lets_fields(parts: &EffectiveRule, fields: &Civil, index: u32) -> bool
    requires day { index ≤ day_before 9_999 }
    requires fields { IsCivilOf fields.now index }
    ensures { result ≡ lets_date parts.now index }
{
    lets(parts.months, fields.month)
        && lets_place(&parts.month_days, fields.day, month_length(fields))
        && lets_wide_place(&parts.year_days, fields.year_day, year_length(fields))
        && lets_week(parts, fields, index)
        && lets_weekday(parts, fields)
}

/// The months that BYMONTH allows.
pub(crate) fn open_months(months: BitSet) -> BitSet
    ensures members { (m : ℕ) → m < 13 → contains result m ≡ lets months m }
    ensures bound { result < 2 ^ 13 }
{
    if months.is_empty() {
        BitSet::below(13)
    } else {
        months.front(13)
    }
}

/// Whether BYMONTHDAY or BYDAY is there, and neither BYYEARDAY nor BYWEEKNO.
pub fn goes_by_months(parts: &EffectiveRule) -> bool
    ensures { result ≡ goes_by_months parts.now }
{
    parts.weeks.is_empty()
        & parts.year_days.is_empty()
        & !(parts.month_days.is_empty() & parts.weekdays.is_empty())
}

/// Whether no part but BYDAY restricts the date.
pub fn names_weekdays_alone(parts: &EffectiveRule) -> bool
    ensures { result ≡ names_weekdays_alone parts.now }
{
    parts.months.is_empty()
        & parts.month_days.is_empty()
        & parts.year_days.is_empty()
        & parts.weeks.is_empty()
}

/// Whether each part that restricts the date allows a day of the years 0000 to 9998, counted from 0000-01-01.
pub fn lets_date(parts: &EffectiveRule, index: u32) -> bool
    requires { index ≤ day_before 9_999 }
    ensures { result ≡ lets_date parts.now index }
{
    let weekday = ((index + 5) % 7) as u8;
    if parts.weekdays.is_empty() | parts.weekdays.list.plain.contains(weekday) {
        if names_weekdays_alone(parts) {
            return true;
        }
    } else if has_no_number(&parts.weekdays.list, weekday) {
        return false;
    }
    lets_fields(parts, &civil_at(index), index)
}
