//! Taking what a rule leaves out from the start of its event (RFC 5545, 3.3.10).
ghost use Rattle.std.specs.Prelude.{◌≡◌, true, ◌<◌, ◌≤◌, ◌/◌, if◌then◌else◌};
ghost use Rattle.ics_fields.specs.Ordinals.{all_list_none, lists_no_weekday, no_weekdays};
ghost use Rattle.ics_fields.specs.Sets.{only};
ghost use Rattle.ics_period.specs.EffectiveRules.{names_no_day, takes_month_day, takes_month, takes_weekday, skips_hours, skips_minutes, skips_seconds};
ghost use Rattle.ics_period.specs.EffectiveRules.{clock_part, only_place, only_weekday, effective_at};
ghost use Rattle.ics_fields.specs.Locals.{calendar_end};

use crate::date::civil_at;
use crate::effective_rule::EffectiveRule;
use crate::kind::Kind;
use crate::part::{PlacesPart, WeekdaysPart};
use ics_fields::{BitSet, Frequency, Ordinals, Parts, Weekdays};

/// Whether no weekday has a number. Their list is then that of BYDAY without a weekday.
fn has_no_numbers(numbered: &[Ordinals; 7]) -> bool
    ensures value { result ≡ all_list_none numbered.now }
    ensures empty { result ≡ true → numbered.now ≡ no_weekdays.numbered }
{
    numbered.iter().all(Ordinals::is_empty)
}

/// Whether BYDAY is absent. It is then the empty list.
fn has_no_weekday(weekdays: &Weekdays) -> bool
    ensures value { result ≡ lists_no_weekday weekdays.now }
    ensures empty { result ≡ true → weekdays.now ≡ no_weekdays }
{
    weekdays.plain.is_empty() && has_no_numbers(&weekdays.numbered)
}

/// Whether BYYEARDAY, BYMONTHDAY and BYDAY are absent.
fn names_no_day(parts: &Parts) -> bool
    ensures value { result ≡ names_no_day parts.now }
    ensures empty { result ≡ true → parts.now.weekdays ≡ no_weekdays }
{
    parts.month_days.is_empty() & parts.year_days.is_empty() & has_no_weekday(&parts.weekdays)
}

/// Whether the rule takes the day of the month from the start.
pub fn takes_month_day(parts: &Parts) -> bool
    ensures { result ≡ takes_month_day parts.now.frequency parts.now }
{
    match parts.frequency {
        Frequency::Yearly | Frequency::Monthly => names_no_day(parts) & parts.weeks.is_empty(),
        _ => false,
    }
}

/// Whether the rule takes the month from the start.
pub fn takes_month(parts: &Parts) -> bool
    ensures { result ≡ takes_month parts.now.frequency parts.now }
{
    match parts.frequency {
        Frequency::Yearly => takes_month_day(parts) & parts.months.is_empty(),
        _ => false,
    }
}

/// Whether the rule takes the weekday from the start. BYDAY is then the empty list.
pub fn takes_weekday(parts: &Parts) -> bool
    ensures value { result ≡ takes_weekday parts.now.frequency parts.now }
    ensures empty { result ≡ true → parts.now.weekdays ≡ no_weekdays }
{
    match parts.frequency {
        Frequency::Yearly => names_no_day(parts) & !parts.weeks.is_empty(),
        Frequency::Weekly => has_no_weekday(&parts.weekdays),
        _ => false,
    }
}

/// Whether a frequency is coarser than the hour.
pub fn skips_hours(frequency: Frequency) -> bool
    ensures { result ≡ skips_hours frequency }
{
    matches!(
        frequency,
        Frequency::Yearly | Frequency::Monthly | Frequency::Weekly | Frequency::Daily
    )
}

/// Whether a frequency is coarser than the minute.
pub fn skips_minutes(frequency: Frequency) -> bool
    ensures { result ≡ skips_minutes frequency }
{
    skips_hours(frequency) || matches!(frequency, Frequency::Hourly)
}

/// Whether a frequency is coarser than the second.
pub fn skips_seconds(frequency: Frequency) -> bool
    ensures { result ≡ skips_seconds frequency }
{
    skips_minutes(frequency) || matches!(frequency, Frequency::Minutely)
}

/// The hours, minutes or seconds of a rule.
fn clock_part(kind: Kind, takes: bool, set: BitSet, n: u8) -> BitSet
    requires { n < 60 }
    ensures { result ≡ clock_part kind takes set n }
{
    match kind {
        Kind::Date => BitSet::only(0),
        Kind::DateTime if takes && set.is_empty() => BitSet::only(n),
        Kind::DateTime => set,
    }
}

/// BYMONTHDAY, or the day of the month that the rule takes.
fn month_days(parts: &Parts, day: u8) -> Ordinals
    requires { day < 64 }
    ensures { result ≡ (if takes_month_day parts.now.frequency parts.now then only_place day else parts.now.month_days) }
{
    if takes_month_day(parts) {
        let mut places = Ordinals::new();
        places.front = BitSet::only(day);
        places
    } else {
        parts.month_days
    }
}

/// BYDAY, or the weekday that the rule takes.
fn weekdays(parts: &Parts, weekday: u8) -> Weekdays
    requires { weekday < 7 }
    ensures { result ≡ (if takes_weekday parts.now.frequency parts.now then only_weekday weekday else parts.now.weekdays) }
{
    if takes_weekday(parts) {
        let mut weekdays = Weekdays::new();
        weekdays.plain = BitSet::only(weekday);
        weekdays
    } else {
        parts.weekdays
    }
}

/// The rule of an event that starts at the local with this number, one of the years 0000 to 9999. It has what it takes from there.
pub fn fill(parts: &Parts, kind: Kind, start: u64) -> EffectiveRule
    requires { start < calendar_end }
    ensures value { result ≡ effective_at parts.now kind start }
    ensures interval { 1 ≤ result.interval }
{
    let fields = civil_at((start / 86_400) as u32);
    let hour = (start / 3_600 % 24) as u8;
    let minute = (start / 60 % 60) as u8;
    let second = (start % 60) as u8;
    let frequency = parts.frequency;
    let months = if takes_month(parts) {
        BitSet::only(fields.month)
    } else {
        parts.months
    };
    EffectiveRule {
        frequency,
        interval: parts.interval,
        week_start: parts.week_start,
        months,
        month_days: month_days(parts, fields.day),
        year_days: PlacesPart::new(parts.year_days),
        weeks: parts.weeks,
        weekdays: WeekdaysPart::new(weekdays(parts, fields.weekday.index())),
        hours: clock_part(kind, skips_hours(frequency), parts.hours, hour),
        minutes: clock_part(kind, skips_minutes(frequency), parts.minutes, minute),
        seconds: clock_part(kind, skips_seconds(frequency), parts.seconds, second),
        positions: PlacesPart::new(parts.positions),
    }
}
