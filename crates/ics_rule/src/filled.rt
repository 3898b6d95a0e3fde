//! Periods longer than a day in which a rule allows too few locals for BYSETPOS.
ghost use Rattle.std.specs.Prelude.{◌≡◌, ℕ, ◌<◌, ◌≤◌, ◌⊎◌, false};
ghost use Rattle.ics_fields.specs.Days.{days_before_year};
ghost use Rattle.ics_fields.specs.Locals.{calendar_end};
ghost use Rattle.ics_fields.specs.Ordinals.{lists_none_wide};
ghost use Rattle.ics_fields.specs.Sets.{contains_wide};
ghost use Rattle.ics_period.specs.Candidates.{lets_clock};
ghost use Rattle.ics_period.specs.PeriodNumbers.{rules_end};
ghost use Rattle.ics_period.specs.Ranks.{count};
ghost use Rattle.ics_rule.specs.Inner.Filled.{locals_between};
ghost use Rattle.ics_rule.specs.Inner.Quiet.{NoneChosen};
ghost use Rattle.ics_rule.specs.Inner.Rounds.{seconds_of};

use crate::cursor::RULES_END;
use crate::never::times_of_day;
use crate::rounds::calendar_periods;
use crate::search::Search;
use ics_fields::WideBitSet;
use ics_period::{EffectiveRule, first_local, lets_date, period_of};

/// A number that is greater than each place that BYSETPOS can list.
const NO_PLACE: u64 = 384;

/// The least place of a set, or a greater number than any.
fn least_place(places: &WideBitSet) -> u64
    ensures none { (k : ℕ) → 1 ≤ k → k < result → contains_wide places.now k ≡ false }
    ensures some { 1 ≤ result }
    ensures bound { result ≤ 384 }
{
    match places.next_from(1) {
        Some(place) => place as u64,
        None => NO_PLACE,
    }
}

/// The least place that BYSETPOS lists, from the start or from the end of a period.
fn least_position(parts: &EffectiveRule) -> u64
    ensures front { (k : ℕ) → 1 ≤ k → k < result → contains_wide parts.now.positions.front k ≡ false }
    ensures back { (k : ℕ) → 1 ≤ k → k < result → contains_wide parts.now.positions.back k ≡ false }
    ensures some { 1 ≤ result }
    ensures bound { result ≤ 384 }
{
    least_place(&parts.positions.list.front).min(least_place(&parts.positions.list.back))
}

/// Whether a rule may allow so many locals from a day on and before another; `times` are those of a day.
fn has_many(parts: &EffectiveRule, times: u64, from: u32, end: u32, least: u64) -> bool
    requires times { times ≡ count 86400 (lets_clock parts.now) }
    requires bound { times ≤ 216000 }
    requires order { from ≤ end }
    requires end { end ≤ days_before_year 9_801 }
    requires some { 1 ≤ least }
    requires few { least ≤ 384 }
    ensures { result ≡ false → locals_between parts.now from end < least }
{
    let mut total = 0;
    let mut day = from;
    while day < end {
        if lets_date(parts, day) {
            total += times;
            if total >= least {
                return true;
            }
        }
        day += 1;
    }
    false
}

/// A local before which a rule chooses none from another on: the first of a period that has as many allowed locals as the least place of BYSETPOS
/// is. The search ends with the rules, and after a round of the calendar without such a period: then no later one has them.
pub(crate) fn next_filled(search: &Search<'_>, n: u64) -> u64
    requires inside { n < rules_end }
    requires long { (seconds_of search.now.parts.now.frequency ≡ 0) ⊎ (86400 < seconds_of search.now.parts.now.frequency) }
    requires some { lists_none_wide search.now.parts.now.positions ≡ false }
    ensures none { NoneChosen search.now.parts.now search.now.start n result }
    ensures inside { result < calendar_end }
{
    let parts = search.parts;
    let begin = period_of(parts, n);
    if begin < 2 {
        return n;
    }
    let least = least_position(parts);
    let times = times_of_day(parts);
    let last = period_of(parts, RULES_END);
    let round = begin + calendar_periods(parts.frequency);
    let mut number = begin;
    let mut day = (first_local(parts.frequency, parts.week_start, begin) / 86_400) as u32;
    while number < last.min(round) {
        let next = (first_local(parts.frequency, parts.week_start, number + 1) / 86_400) as u32;
        if has_many(parts, times, day, next, least) {
            return n.max(day as u64 * 86_400);
        }
        day = next;
        number += 1;
    }
    if number < round {
        n.max(day as u64 * 86_400)
    } else {
        RULES_END
    }
}
