//! Whether the observances of a zone may begin often.
use crate::onsets::positions_of;
use ics_fields::{BitSet, Frequency, Ordinals, Parts};
use ics_period::members_below;
use ics_values::Observance;

/// A yearly rule has few times a year, if it names no more months, or places of BYSETPOS, than these.
const FEW: u64 = 3;

/// One weekday is once among so many days.
const WEEK: u64 = 7;

/// Whether one of some observances may begin more than a few times a year by its rule. It is about speed alone.
pub(crate) fn turn_often(observances: &[Observance]) -> bool {
    for observance in observances {
        if let Some(rule) = &observance.rule {
            if !is_seldom(rule.parts()) {
                return true;
            }
        }
    }
    false
}

/// Whether the parts of a rule tell that it has few times a year: one day in each of a few months, one in the year, or a few places in it.
fn is_seldom(parts: &Parts) -> bool {
    if !matches!(parts.frequency, Frequency::Yearly) {
        return false;
    }
    if !parts.positions.is_empty() {
        return positions_of(parts) <= FEW;
    }
    let others = parts.weeks.is_empty() && parts.year_days.is_empty();
    let months = size_of(&parts.months);
    others && has_one_time(parts) && months <= FEW && has_one_day(parts, months)
}

/// Whether a rule lists one time of a day at most.
fn has_one_time(parts: &Parts) -> bool {
    size_of(&parts.hours) <= 1 && size_of(&parts.minutes) <= 1 && size_of(&parts.seconds) <= 1
}

/// Whether a yearly rule has one day in each of so many months or, if there is none, in the year.
fn has_one_day(parts: &Parts, months: u64) -> bool {
    let dates = listed_in(&parts.month_days);
    let plain = size_of(&parts.weekdays.plain);
    let numbered = numbered_in(parts);
    if months == 0 {
        return dates == 0 && plain == 0 && numbered <= 1;
    }
    match (plain, numbered) {
        (0, 0) => dates <= 1,
        (0, 1) => true,
        (1, 0) => dates > 0 && dates <= WEEK,
        _ => false,
    }
}

/// How many numbers a part lists.
fn size_of(part: &BitSet) -> u64 {
    members_below(part, 64)
}

/// How many numbers a part lists, from either end.
fn listed_in(part: &Ordinals) -> u64 {
    size_of(&part.front).saturating_add(size_of(&part.back))
}

/// How many weekdays with a number a rule lists.
fn numbered_in(parts: &Parts) -> u64 {
    let mut count: u64 = 0;
    for numbers in &parts.weekdays.numbered {
        count = count.saturating_add(listed_in(numbers));
    }
    count
}
