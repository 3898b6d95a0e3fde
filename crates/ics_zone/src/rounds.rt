//! After how many seconds what the rule of an observance keeps repeats.
ghost use Rattle.std.specs.Prelude.{◌≡◌, ◌<◌, ◌≤ℤ◌, ℕ, pos, true, IfSome, MatchOption, Some};
ghost use Rattle.jiff_core.specs.Calendar.{IsWithin};
ghost use Rattle.ics_fields.specs.Days.{IsStampDay};
ghost use Rattle.ics_fields.specs.Ordinals.{lists_none, lists_none_wide};
ghost use Rattle.ics_fields.specs.RuleParts.{IsUntil};
ghost use Rattle.ics_fields.specs.Sets.{is_empty};
ghost use Rattle.ics_period.specs.declared.kind.Kind.TheVariants.{DateTime};
ghost use Rattle.ics_rule.specs.Inner.Rounds.{calendar_periods};
ghost use Rattle.ics_rule.specs.Kept.{is_by_until};
ghost use Rattle.ics_zone.specs.Observances.{instant_by};
ghost use Rattle.ics_zone.specs.Inner.OnsetSets.{held_rule};
ghost use Rattle.ics_zone.specs.Inner.Repeats.{IsCalendar, IsRepeated, IsRoundOf};

use crate::clock::instant;
use ics_fields::{Frequency, Local, Moment, Parts, Until};

/// A week, in seconds.
const WEEK: u64 = 604_800;

/// The calendar's 400 years, in seconds.
const CALENDAR: u64 = 12_622_780_800;

/// How often the calendar's 400 years go by in a round at most.
const CYCLES: u64 = 24;

/// A round that is longer is not used.
pub(crate) const LONGEST: u64 = CYCLES * CALENDAR;

/// 0003-01-01T00:00:00 UTC. Rounds are known from then on.
pub(crate) const THIRD_YEAR: Moment = -62_072_524_800;

/// 9799-01-01T00:00:00 UTC, more than a year before the end of the rules.
pub(crate) const LAST: Moment = 247_059_417_600;

/// A number of seconds after which what a rule keeps repeats, after an instant and up to another.
#[derive(Clone, Copy)]
pub(crate) struct Round {
    pub seconds: u64,
    pub after: Moment,
    pub to: Moment,
}

/// No round is known.
pub(crate) const NO_ROUND: Round = Round {
    seconds: 0,
    after: Moment::MAX,
    to: Moment::MIN,
};

/// Whether no part of a rule but BYDAY restricts the date.
fn names_weekdays_alone(parts: &Parts) -> bool
    ensures months { result ≡ true → is_empty parts.now.months ≡ true }
    ensures month_days { result ≡ true → lists_none parts.now.month_days ≡ true }
    ensures year_days { result ≡ true → lists_none_wide parts.now.year_days ≡ true }
    ensures weeks { result ≡ true → lists_none parts.now.weeks ≡ true }
{
    parts.months.is_empty()
        && parts.month_days.is_empty()
        && parts.year_days.is_empty()
        && parts.weeks.is_empty()
}

/// How many periods the calendar's 400 years have, if periods are days or longer.
fn periods_of(frequency: Frequency) -> Option<u64>
    ensures value { IfSome result (λ n. n ≡ calendar_periods frequency) }
    ensures bound { IfSome result (λ n. n < 1_000_000) }
{
    match frequency {
        Frequency::Yearly => Some(400),
        Frequency::Monthly => Some(4_800),
        Frequency::Weekly => Some(20_871),
        Frequency::Daily => Some(146_097),
        _ => None,
    }
}

/// The seconds of as many of the calendar's 400 years as are whole steps of a rule.
fn calendar_round(parts: &Parts) -> Option<u64>
    ensures { IfSome result (IsCalendar parts.now.frequency parts.now.interval) }
{
    let periods = periods_of(parts.frequency)?;
    let interval = u64::from(parts.interval);
    for cycles in 1..CYCLES {
        if interval > 0 && cycles * periods % interval == 0 {
            return Some(cycles * CALENDAR);
        }
    }
    None
}

/// The seconds of a round of a rule whose periods are days or weeks and that restricts weekdays and times alone.
fn weekly_round(parts: &Parts) -> Option<u64>
    ensures { IfSome result (IsRoundOf parts.now) }
{
    let is_alone = names_weekdays_alone(parts);
    if !is_alone {
        return None;
    }
    match parts.frequency {
        Frequency::Weekly => Some(WEEK * u64::from(parts.interval)),
        Frequency::Daily => Some(WEEK * u64::from(parts.interval)),
        _ => None,
    }
}

/// The seconds of a round of a rule.
fn seconds_of(parts: &Parts) -> Option<u64>
    ensures { IfSome result (IsRoundOf parts.now) }
{
    match weekly_round(parts) {
        Some(seconds) => Some(seconds),
        None => calendar_round(parts),
    }
}

/// The last instant up to which an UNTIL lets all through, with a clock of an offset.
fn last_by(until: Until, offset: i32) -> Moment
    requires until { IsUntil until }
    requires offset { IsWithin 86_399 offset }
    ensures bound { result ≤ℤ pos 247_059_417_600 }
    ensures lets { (n : ℕ) → instant_by offset n ≤ℤ result → is_by_until DateTime (Some until) n ≡ true }
{
    match until {
        Until::Utc(_) => LAST,
        Until::Local(local) => LAST.min(instant(offset, local.number())),
        Until::Date(day) => LAST.min(instant(offset, Local::at(day, 0).number())),
    }
}

/// The same, if there is an UNTIL.
fn last_of(until: Option<Until>, offset: i32) -> Moment
    requires until { MatchOption until (Unit {0}) IsUntil }
    requires offset { IsWithin 86_399 offset }
    ensures bound { result ≤ℤ pos 247_059_417_600 }
    ensures lets { (n : ℕ) → instant_by offset n ≤ℤ result → is_by_until DateTime until n ≡ true }
{
    match until {
        None => LAST,
        Some(until) => last_by(until, offset),
    }
}

/// The round of a rule without COUNT, on a clock of an offset.
pub(crate) fn round_of(parts: &Parts, start: Local, offset: i32) -> Round
    requires offset { IsWithin 86_399 offset }
    requires start { IsStampDay start.day }
    ensures { IsRepeated offset (held_rule start parts.now) result }
{
    let Some(seconds) = seconds_of(parts) else {
        return NO_ROUND;
    };
    Round {
        seconds,
        after: THIRD_YEAR.max(instant(offset, start.number())),
        to: last_of(parts.until, offset),
    }
}
