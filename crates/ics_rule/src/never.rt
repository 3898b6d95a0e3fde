//! How many locals of a period a rule allows at most, and rules whose BYSETPOS therefore chooses none.
ghost use Rattle.std.specs.Prelude.{◌≡◌, ℕ, ◌<◌, ◌≤◌, true, false};
ghost use Rattle.ics_fields.specs.Sets.{contains_wide};
ghost use Rattle.ics_period.specs.Ranks.{count, size, is_chosen};
ghost use Rattle.ics_period.specs.Candidates.{lets, lets_date, lets_clock};
ghost use Rattle.ics_rule.specs.Inner.Rounds.{seconds_of};
ghost use Rattle.ics_rule.specs.Inner.OpenPeriods.{size_of_open, listed_in_month, listed_in_year, of_weekdays, on_weekdays, most_days};
ghost use Rattle.ics_fields.specs.Locals.{calendar_end};

use crate::rounds::seconds_of;
use ics_fields::{BitSet, Frequency, Ordinals, WideBitSet, WideOrdinals};
use ics_period::{EffectiveRule, PlacesPart, clock_set, lets_date, members_below};

/// How many values of one unit of the clock a part allows.
fn readings(part: BitSet, size: u8) -> u64
    requires some { 0 < size }
    requires most { size ≤ 60 }
    ensures value { result ≡ count size (lets part) }
    ensures bound { result ≤ 60 }
{
    members_below(&clock_set(true, part, 0, size), size as u16)
}

/// How many times of a day a rule allows.
pub(crate) fn times_of_day(parts: &EffectiveRule) -> u64
    ensures value { result ≡ count 86400 (lets_clock parts.now) }
    ensures bound { result ≤ 216000 }
{
    readings(parts.hours, 24) * readings(parts.minutes, 60) * readings(parts.seconds, 60)
}

/// How many days of the first week a rule allows.
fn open_weekdays(parts: &EffectiveRule) -> u64
    ensures value { result ≡ count 7 (lets_date parts.now) }
    ensures bound { result ≤ 7 }
{
    let mut total = 0;
    let mut day = 0;
    while day < 7 {
        if lets_date(parts, day) {
            total += 1;
        }
        day += 1;
    }
    total
}

/// A rule of seconds with BYDAY as the only part for dates. Under SECONDLY a weekday with a number means the weekday.
fn of_weekdays(parts: &EffectiveRule) -> EffectiveRule
    ensures { result ≡ of_weekdays parts.now }
{
    let mut rule = *parts;
    rule.frequency = Frequency::Secondly;
    rule.months = BitSet::new();
    rule.month_days = Ordinals::new();
    rule.year_days = PlacesPart::new(WideOrdinals::new());
    rule.weeks = Ordinals::new();
    rule
}

/// How many of a number of days, which so many weeks have, the weekdays of a rule allow at most.
fn on_weekdays(parts: &EffectiveRule, weeks: u64, days: u64) -> u64
    requires { weeks ≤ 53 }
    ensures value { result ≡ on_weekdays parts.now weeks days }
    ensures bound { result ≤ days }
{
    days.min(weeks * open_weekdays(&of_weekdays(parts)))
}

/// How many days of a month BYMONTHDAY lists at most.
fn listed_in_month(days: &Ordinals) -> u64
    ensures value { result ≡ listed_in_month days.now }
    ensures bound { result ≤ 64 }
{
    if days.is_empty() {
        31
    } else {
        members_below(&days.front, 32) + members_below(&days.back, 32)
    }
}

/// How many days of a year BYYEARDAY lists at most.
fn listed_in_year(days: &PlacesPart) -> u64
    ensures value { result ≡ listed_in_year days.now }
    ensures bound { result ≤ 734 }
{
    if days.is_empty() {
        366
    } else {
        members_below(&days.list.front, 367) + members_below(&days.list.back, 367)
    }
}

/// A number of days that a rule allows at most in one period, if it is longer than a day.
fn most_days(parts: &EffectiveRule) -> u64
    ensures value { result ≡ most_days parts.now.frequency parts.now }
    ensures bound { result ≤ 734 }
{
    match parts.frequency {
        Frequency::Yearly => on_weekdays(parts, 53, listed_in_year(&parts.year_days)),
        Frequency::Monthly => on_weekdays(parts, 5, listed_in_month(&parts.month_days)),
        Frequency::Weekly => on_weekdays(parts, 1, 7),
        _ => 1,
    }
}

/// How many locals each period has that a rule allows, if a period is a day or less.
pub(crate) fn size_of_open(parts: &EffectiveRule) -> u64
    requires fine { 0 < seconds_of parts.now.frequency }
    requires unit { seconds_of parts.now.frequency ≤ 86400 }
    ensures value { result ≡ size_of_open parts.now }
    ensures bound { result ≤ 216000 }
{
    match parts.frequency {
        Frequency::Secondly => 1,
        Frequency::Minutely => readings(parts.seconds, 60),
        Frequency::Hourly => readings(parts.minutes, 60) * readings(parts.seconds, 60),
        _ => times_of_day(parts),
    }
}

/// Whether each place of a set is greater than a number.
fn is_past(places: &WideBitSet, most: u64) -> bool
    ensures { result ≡ true → (k : ℕ) → 1 ≤ k → k ≤ most → contains_wide places.now k ≡ false }
{
    match places.next_from(1) {
        Some(place) => place as u64 > most,
        None => true,
    }
}

/// A number of locals that a rule allows at most in one period.
fn most_allowed(parts: &EffectiveRule) -> u64
    ensures { (start n : ℕ) → size parts.now start n ≤ result }
{
    let unit = seconds_of(parts.frequency);
    if unit == 0 || unit > 86_400 {
        most_days(parts) * times_of_day(parts)
    } else {
        size_of_open(parts)
    }
}

/// Whether BYSETPOS lists only places that no period has.
pub(crate) fn chooses_none(parts: &EffectiveRule) -> bool
    ensures { result ≡ true → (start n : ℕ) → n < calendar_end → is_chosen parts.now start n ≡ false }
{
    if parts.positions.is_empty() {
        return false;
    }
    let places = &parts.positions.list;
    // A period that has a local has this place.
    if places.front.contains(1) | places.back.contains(1) {
        return false;
    }
    let most = most_allowed(parts);
    is_past(&places.front, most) & is_past(&places.back, most)
}
