//! Which periods of a day or shorter a rule may allow a local in, by their times of day and weekdays.
ghost use Rattle.std.specs.Prelude.{◌≡◌, ℕ, ◌<◌, ◌≤◌, ◌+◌, ◌*◌, ◌/◌, ◌%◌, ◌^◌, ◌||◌, if◌then◌else◌, false, IfSome, MatchOption};
ghost use Rattle.ics_fields.specs.Days.{weekday_of};
ghost use Rattle.ics_fields.specs.Sets.{contains, is_empty, only};
ghost use Rattle.ics_period.specs.Candidates.{IsClosed};
ghost use Rattle.ics_period.specs.Inner.NamedWeekdays.{names_weekday};
ghost use Rattle.ics_period.specs.RecurrencePeriods.{has_time};

use crate::effective_rule::EffectiveRule;
use crate::members::members_below;
use crate::recurrence_period::clock_set;
use ics_fields::{BitSet, Frequency};

/// The periods of a day and the days of a week that a rule may allow a local in, by its time and its weekday. The periods of a day are numbered
/// by an hour, a minute and a second, as if each were a second of it.
#[derive(Clone, Copy)]
pub(crate) struct StepClock {
    /// How many periods a day has.
    pub(crate) per_day: u32,
    pub(crate) hours: BitSet,
    pub(crate) minutes: BitSet,
    pub(crate) seconds: BitSet,
    /// After so many days the weekdays repeat: 7, or 1 if BYDAY is absent.
    pub(crate) cycle: u32,
    /// The days that are allowed, of the first so many.
    pub(crate) days: BitSet,
    pub(crate) ghost some: { 1 ≤ per_day },
    pub(crate) ghost most: { per_day ≤ 86400 },
    pub(crate) ghost some_days: { 1 ≤ cycle },
    pub(crate) ghost a_week: { cycle ≤ 7 },
    pub(crate) ghost few_hours: { hours < 2 ^ 24 },
    pub(crate) ghost few_minutes: { minutes < 2 ^ 60 },
}

/// Of the days 0 to 6, counted from 0000-01-01, those on whose weekday BYDAY lists one, with a number or without.
fn days_of_week(parts: &EffectiveRule) -> BitSet
    ensures { (d : ℕ) → d < 7 → contains result d ≡ names_weekday parts.now.weekdays (weekday_of d) }
{
    let named = parts.weekdays.named();
    let mut days = BitSet::new();
    for day in 0..7 {
        if named.contains((day + 5) % 7) {
            days.insert(day);
        }
    }
    days
}

/// 0 alone, but nothing if one of the sets has no member.
fn zero_if_some(hours: BitSet, minutes: BitSet, seconds: BitSet) -> BitSet
    ensures value { result ≡ (if is_empty hours || is_empty minutes || is_empty seconds then 0 else only 0) }
    ensures bound { result < 2 }
{
    if hours.is_empty() | minutes.is_empty() | seconds.is_empty() {
        BitSet::new()
    } else {
        BitSet::only(0)
    }
}

impl StepClock {
    ghost use Rattle.ics_period.specs.Inner.StepClocks.{may_have, HasTimes};

    /// These periods of a day, on every day.
    fn every_day(per_day: u32, hours: BitSet, minutes: BitSet, seconds: BitSet) -> StepClock
        requires some { 1 ≤ per_day }
        requires most { per_day ≤ 86400 }
        requires hours { hours < 2 ^ 24 }
        requires minutes { minutes < 2 ^ 60 }
        ensures per_day { result.per_day ≡ per_day }
        ensures hours { result.hours ≡ hours }
        ensures minutes { result.minutes ≡ minutes }
        ensures seconds { result.seconds ≡ seconds }
        ensures cycle { result.cycle ≡ 1 }
        ensures days { result.days ≡ only 0 }
    {
        StepClock {
            per_day,
            hours,
            minutes,
            seconds,
            cycle: 1,
            days: BitSet::only(0),
        }
    }

    /// That of a rule as if it allowed each weekday. If it allows no time of day at all, this has none. None if a period is longer than a day.
    fn by_time(parts: &EffectiveRule) -> Option<StepClock>
        ensures times { IfSome result (HasTimes parts.now) }
        ensures days { IfSome result (λ clock. (clock.cycle ≡ 1) × (clock.days ≡ only 0)) }
    {
        let hours = clock_set(true, parts.hours, 0, 24);
        let minutes = clock_set(true, parts.minutes, 0, 60);
        let seconds = clock_set(true, parts.seconds, 0, 60);
        let first = zero_if_some(hours, minutes, seconds);
        match parts.frequency {
            Frequency::Secondly => Some(StepClock::every_day(86_400, hours, minutes, seconds)),
            Frequency::Minutely => Some(StepClock::every_day(1_440, first, hours, minutes)),
            Frequency::Hourly => Some(StepClock::every_day(24, first, first, hours)),
            Frequency::Daily => Some(StepClock::every_day(1, first, first, first)),
            _ => None,
        }
    }

    /// That of a rule. None if a period is longer than a day.
    pub(crate) fn of(parts: &EffectiveRule) -> Option<StepClock>
        ensures { MatchOption result (Unit {0}) (λ clock. (p : ℕ) → may_have clock p ≡ false → IsClosed parts.now p) }
    {
        let mut clock = StepClock::by_time(parts)?;
        if parts.weekdays.is_empty() {
            return Some(clock);
        }
        clock.cycle = 7;
        clock.days = days_of_week(parts);
        Some(clock)
    }

    /// Whether the period of a day with a number may be allowed.
    fn has_time(&self, time: u32) -> bool
        requires { time < 86400 }
        ensures { result ≡ has_time self.now.hours self.now.minutes self.now.seconds time }
    {
        self.seconds.contains((time % 60) as u8)
            && self.minutes.contains((time / 60 % 60) as u8)
            && self.hours.contains((time / 3_600) as u8)
    }

    /// Whether the day of a period may be allowed.
    fn has_day(&self, number: u64) -> bool
        ensures { result ≡ contains self.now.days (number / self.now.per_day % self.now.cycle) }
    {
        let day = number / self.per_day as u64 % self.cycle as u64;
        self.days.contains(day as u8)
    }

    /// How many steps of an interval from a period on are known to have nothing by a look at each. At most so many are looked at.
    pub(crate) fn steps_passed(&self, number: u64, interval: u32, most: u64) -> u64
        requires number { number < 2 ^ 50 }
        requires most { most ≤ 2 ^ 20 }
        ensures none { (k : ℕ) → k < result → may_have self.now (number + k * interval) ≡ false }
        ensures most { result ≤ most }
    {
        let per_day = self.per_day;
        let ahead = interval % per_day;
        let mut time = (number % per_day as u64) as u32;
        let mut steps = 0;
        while steps < most {
            if self.has_time(time) && self.has_day(number + steps * interval as u64) {
                return steps;
            }
            time += ahead;
            if time >= per_day {
                time -= per_day;
            }
            steps += 1;
        }
        steps
    }

    /// How many steps of an interval, from a period on, begin on its day.
    pub(crate) fn steps_of_day(&self, number: u64, interval: u32) -> u64
        requires { 1 ≤ interval }
    {
        let left = self.per_day - (number % self.per_day as u64) as u32;
        u64::from(left.div_ceil(interval))
    }

    /// How many of the numbered minutes of a cycle may have a period that is allowed.
    pub(crate) fn minutes_of_cycle(&self) -> u64
        ensures { result ≤ 10080 }
    {
        members_below(&self.days, 7)
            * members_below(&self.hours, 24)
            * members_below(&self.minutes, 60)
    }
}
