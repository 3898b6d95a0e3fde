//! A period of a rule, as a product of sets.
ghost use Rattle.std.specs.Prelude.{◌≡◌, ℕ, ◌<◌, ◌≤◌, ◌/◌, ◌%◌, ◌^◌, ◌&&◌, ◌||◌, ◌==◌, pos, IfSome};
ghost use Rattle.jiff_core.specs.Calendar.{days_of_months, days_in_year};
ghost use Rattle.ics_fields.specs.Days.{days_before_year};
ghost use Rattle.ics_fields.specs.Sets.{contains, IsNextIn};
ghost use Rattle.ics_period.specs.PeriodNumbers.{rules_end};
ghost use Rattle.ics_period.specs.EffectiveRules.{skips_hours, skips_minutes, skips_seconds};
ghost use Rattle.ics_period.specs.Candidates.{lets, period_in};
ghost use Rattle.jiff_core.specs.Weekday.{monday_zero};
ghost use Rattle.ics_period.specs.RecurrencePeriods.{first_local, has_minute, has_time, has_day, holds, IsPeriodOf};
ghost use Rattle.ics_fields.specs.Locals.{calendar_end};

pub(crate) mod ranks;
mod sizes;

use crate::days::add_days_let_in;
use crate::effective::{skips_hours, skips_minutes, skips_seconds};
use crate::effective_rule::EffectiveRule;
use crate::time::lets;
use ics_fields::{BitSet, Frequency, WideBitSet};
use jiff_core::civil::{Weekday, days_in_year};

/// The locals of a period that its rule allows: a set of days times sets of hours, minutes and seconds.
#[derive(Clone, Copy)]
pub struct RecurrencePeriod {
    /// The number of the period.
    number: u64,
    /// The first day, counted from 0000-01-01.
    first_day: u32,
    /// The days that are allowed, counted from the first.
    days: WideBitSet,
    hours: BitSet,
    minutes: BitSet,
    seconds: BitSet,
}

/// The times of the locals of a period, as sets of hours, minutes and seconds.
#[derive(Clone, Copy)]
pub struct Clock {
    hours: BitSet,
    minutes: BitSet,
    seconds: BitSet,
}

/// The number of days before a year.
fn days_before_year(year: u64) -> u64
    requires { year ≤ 10000 }
    ensures { result ≡ days_before_year year }
{
    let centuries = (year + 99) / 100;
    365 * year + (year + 3) / 4 - centuries + (centuries + 3) / 4
}

/// The number of days in a year.
fn length_of_year(year: u64) -> u64
    requires { year ≤ 10000 }
    ensures value { result ≡ days_in_year (pos year) }
    ensures low { 365 ≤ result }
    ensures high { result ≤ 366 }
{
    days_in_year(year as i16) as u64
}

/// The number of days in the first months of a year of `len` days. From March on, each five months have 153 days.
pub(crate) fn days_before_month(len: u64, months: u64) -> u64
    requires low { 365 ≤ len }
    requires high { len ≤ 366 }
    requires months { months ≤ 12 }
    ensures value { (y : ℕ) → len ≡ days_in_year (pos y) → result ≡ days_of_months (pos y) months }
    ensures bound { result ≤ 366 }
{
    if months < 2 {
        31 * months
    } else {
        (153 * months - 304) / 5 + len - 306
    }
}

/// The number of days in the first months of a year.
fn days_of_months(year: u64, months: u64) -> u64
    requires year { year ≤ 10000 }
    requires months { months ≤ 12 }
    ensures value { result ≡ days_of_months (pos year) months }
    ensures bound { result ≤ 366 }
{
    days_before_month(length_of_year(year), months)
}

/// The first local of the period with a number, in the years 0000 to 9803.
pub fn first_local(frequency: Frequency, week_start: Weekday, number: u64) -> u64
    requires { first_local frequency (monday_zero week_start) number ≤ 309400000000 }
    ensures { result ≡ first_local frequency (monday_zero week_start) number }
{
    match frequency {
        Frequency::Secondly => number,
        Frequency::Minutely => number * 60,
        Frequency::Hourly => number * 3_600,
        Frequency::Daily => number * 86_400,
        Frequency::Weekly => (7 * number).saturating_sub(12 - week_start.index() as u64) * 86_400,
        Frequency::Monthly => {
            let before = number.saturating_sub(1);
            (days_before_year(before / 12) + days_of_months(before / 12, before % 12)) * 86_400
        }
        Frequency::Yearly => days_before_year(number) * 86_400,
    }
}

/// The values of one unit of the clock: those that a part allows, and of them the period's own if it has one.
pub fn clock_set(free: bool, part: BitSet, own: u8, size: u8) -> BitSet
    requires own { own < size }
    requires size { size < 64 }
    ensures members { (m : ℕ) → m < size → contains result m ≡ ((free || (m == own)) && lets part m) }
    ensures bound { result < 2 ^ size }
{
    if !free {
        if lets(part, own) {
            BitSet::only(own)
        } else {
            BitSet::new()
        }
    } else if part.is_empty() {
        BitSet::below(size)
    } else {
        part.front(size)
    }
}

/// The times of the period that begins at a local: those that the parts allow, and of them its own if it is shorter than a day.
fn clock_of(parts: &EffectiveRule, begin: u64) -> Clock
    ensures hours { (m : ℕ) → m < 24 → contains result.hours m
        ≡ ((skips_hours parts.now.frequency || (m == begin / 3600 % 24)) && lets parts.now.hours m) }
    ensures minutes { (m : ℕ) → m < 60 → contains result.minutes m
        ≡ ((skips_minutes parts.now.frequency || (m == begin / 60 % 60)) && lets parts.now.minutes m) }
    ensures seconds { (m : ℕ) → m < 60 → contains result.seconds m
        ≡ ((skips_seconds parts.now.frequency || (m == begin % 60)) && lets parts.now.seconds m) }
    ensures hours_bound { result.hours < 2 ^ 24 }
    ensures minutes_bound { result.minutes < 2 ^ 60 }
    ensures seconds_bound { result.seconds < 2 ^ 60 }
{
    let frequency = parts.frequency;
    let hour = (begin / 3_600 % 24) as u8;
    let minute = (begin / 60 % 60) as u8;
    let second = (begin % 60) as u8;
    Clock {
        hours: clock_set(skips_hours(frequency), parts.hours, hour, 24),
        minutes: clock_set(skips_minutes(frequency), parts.minutes, minute, 60),
        seconds: clock_set(skips_seconds(frequency), parts.seconds, second, 60),
    }
}

impl RecurrencePeriod {
    /// The period of a rule with this number, from that of 0000-01-01T00:00:00 to those that begin by 9801-01-01T00:00:00.
    pub fn new(parts: &EffectiveRule, number: u64) -> RecurrencePeriod
        requires low { period_in parts.now 0 ≤ number }
        requires reach { first_local parts.now.frequency (monday_zero parts.now.week_start) number ≤ rules_end }
        ensures number { result.number ≡ number }
        ensures product { IsPeriodOf parts.now result }
    {
        let begin = first_local(parts.frequency, parts.week_start, number);
        let end = first_local(parts.frequency, parts.week_start, number + 1);
        let first_day = (begin / 86_400) as u32;
        let len = ((end + 86_399) / 86_400 - begin / 86_400) as u16;
        let clock = clock_of(parts, begin);
        let mut days = WideBitSet::new();
        add_days_let_in(parts, number, first_day, len, &mut days);
        RecurrencePeriod {
            number,
            first_day,
            days,
            hours: clock.hours,
            minutes: clock.minutes,
            seconds: clock.seconds,
        }
    }

    /// The number of the period.
    pub fn number(&self) -> u64
        ensures { result ≡ self.now.number }
    {
        self.number
    }

    /// The first day of the period, counted from 0000-01-01.
    pub fn first_day(&self) -> u32 {
        self.first_day
    }

    /// The first day of the product from a day on.
    fn next_day(&self, day: u32) -> Option<u32>
        requires day { day ≤ 4000000 }
        requires first { self.now.first_day ≤ 4000000 }
        ensures next { IsNextIn (has_day self.now) day result }
        ensures small { IfSome result (λ e. e < 4000384) }
    {
        let skipped = day.saturating_sub(self.first_day).min(384);
        let place = self.days.next_from(skipped as u16)?;
        Some(self.first_day + place as u32)
    }

    /// Whether the product contains a day.
    pub(crate) fn has_day(&self, day: u32) -> bool
        requires day { day ≤ 4000000 }
        requires first { self.now.first_day ≤ 4000000 }
        ensures { result ≡ has_day self.now day }
    {
        match self.next_day(day) {
            Some(found) => found == day,
            None => false,
        }
    }

    /// The first local of the product from a local on.
    pub(crate) fn next_from(&self, n: u64) -> Option<u64>
        requires n { n < calendar_end }
        requires first { self.now.first_day ≤ 4000000 }
        requires hours { self.now.hours < 2 ^ 24 }
        requires minutes { self.now.minutes < 2 ^ 60 }
        requires seconds { self.now.seconds < 2 ^ 60 }
        ensures next { IsNextIn (holds self.now) n result }
        ensures small { IfSome result (λ m. m < 2 ^ 63) }
    {
        let day = (n / 86_400) as u32;
        if self.has_day(day) {
            if let Some(second) = next_second(
                self.hours,
                self.minutes,
                self.seconds,
                (n % 86_400) as u32,
            ) {
                return Some(day as u64 * 86_400 + second as u64);
            }
        }
        if let Some(day) = self.next_day(day + 1) {
            if let Some(second) = next_second(self.hours, self.minutes, self.seconds, 0) {
                return Some(day as u64 * 86_400 + second as u64);
            }
        }
        None
    }
}

/// The first minute of a day, from a minute on, in a set of hours times a set of minutes.
pub(crate) fn next_minute(hours: BitSet, minutes: BitSet, at: u32) -> Option<u32>
    requires hours { hours < 2 ^ 24 }
    requires minutes { minutes < 2 ^ 60 }
    requires at { at ≤ 1440 }
    ensures next { IsNextIn (has_minute hours minutes) at result }
    ensures small { IfSome result (λ m. m < 1440) }
{
    let hour = (at / 60) as u8;
    if hours.contains(hour) {
        if let Some(minute) = minutes.next_from((at % 60) as u8) {
            return Some(hour as u32 * 60 + minute as u32);
        }
    }
    match (hours.next_from(hour + 1), minutes.next_from(0)) {
        (Some(hour), Some(minute)) => Some(hour as u32 * 60 + minute as u32),
        _ => None,
    }
}

/// The first second of a day, from a second on, in a set of hours times sets of minutes and seconds.
pub fn next_second(hours: BitSet, minutes: BitSet, seconds: BitSet, at: u32) -> Option<u32>
    requires hours { hours < 2 ^ 24 }
    requires minutes { minutes < 2 ^ 60 }
    requires seconds { seconds < 2 ^ 60 }
    requires at { at < 86400 }
    ensures next { IsNextIn (has_time hours minutes seconds) at result }
    ensures small { IfSome result (λ t. t < 86400) }
{
    let minute = at / 60;
    if hours.contains((minute / 60) as u8) & minutes.contains((minute % 60) as u8) {
        if let Some(second) = seconds.next_from((at % 60) as u8) {
            return Some(minute * 60 + second as u32);
        }
    }
    match (
        next_minute(hours, minutes, minute + 1),
        seconds.next_from(0),
    ) {
        (Some(minute), Some(second)) => Some(minute * 60 + second as u32),
        _ => None,
    }
}
