//! Counting whole rounds of periods at once. After a round, what a rule chooses repeats.
ghost use Rattle.std.specs.Prelude.{◌≡◌, ℕ, ◌<◌, ◌≤◌, ◌+◌, ◌*◌, ◌%◌, ◌^◌, ◌&&◌, IfSome, MatchOption, Some, true};
ghost use Rattle.ics_period.specs.PeriodNumbers.{day_of};
ghost use Rattle.ics_period.specs.Candidates.{lets_date, lets_clock};
ghost use Rattle.ics_rule.specs.Inner.Searches.{IsUnderCount};
ghost use Rattle.ics_period.specs.DateParts.{names_weekdays_alone};
ghost use Rattle.ics_rule.specs.Inner.Rounds.{seconds_of, calendar_periods, IsCalendarRound, IsRound, IsFlat, IsEvenRound, HasRound, IsPassedTo};

use crate::cursor::Cursor;
use crate::search::Search;
use crate::walk::next_step;
use ics_fields::Frequency;
use ics_period::{EffectiveRule, goes_by_months, names_weekdays_alone, period_of};

/// Up to this many periods, a search does not ask first whether its rule repeats.
const A_SHORT_SEARCH: u64 = 86_400;

/// A round of up to this many periods is looked at whole.
const A_SHORT_ROUND: u64 = 200;

/// Days of two years.
const TWO_YEARS: u64 = 730;

/// How many seconds each period of a frequency has, or 0 if they differ.
pub(crate) fn seconds_of(frequency: Frequency) -> u64
    ensures value { result ≡ seconds_of frequency }
    ensures bound { result ≤ 604_800 }
{
    match frequency {
        Frequency::Secondly => 1,
        Frequency::Minutely => 60,
        Frequency::Hourly => 3_600,
        Frequency::Daily => 86_400,
        Frequency::Weekly => 604_800,
        Frequency::Monthly | Frequency::Yearly => 0,
    }
}

/// The number of seconds after which the times and weekdays that a rule allows repeat.
fn repeat_seconds(parts: &EffectiveRule) -> u64
    requires alone { names_weekdays_alone parts.now ≡ true }
    requires fine { 0 < seconds_of parts.now.frequency }
    ensures some { 1 ≤ result }
    ensures bound { result ≤ 604_800 }
    ensures repeat { (n : ℕ) → (lets_date parts.now (day_of (n + result)) && lets_clock parts.now (n + result))
        ≡ (lets_date parts.now (day_of n) && lets_clock parts.now n) }
{
    if !parts.weekdays.is_empty() {
        604_800
    } else if !parts.hours.is_empty() {
        86_400
    } else if !parts.minutes.is_empty() {
        3_600
    } else if !parts.seconds.is_empty() {
        60
    } else {
        1
    }
}

/// How many periods a round has, if a rule's parts restrict only times and weekdays.
fn round_of(search: &Search<'_>) -> Option<u64>
    ensures { MatchOption result (Unit {0}) (λ k. (s : ℕ) × IsRound search.now.parts.now k s) }
{
    let parts = search.parts;
    let unit = seconds_of(parts.frequency);
    if unit == 0 || !names_weekdays_alone(parts) {
        return None;
    }
    let seconds = repeat_seconds(parts);
    if seconds % unit == 0 {
        Some(parts.interval as u64 * (seconds / unit))
    } else {
        None
    }
}

/// How many periods a round has: by what a rule's parts restrict, or else by the calendar, if two rounds of it fit into so many periods.
fn repeats_after(search: &Search<'_>, periods: u64) -> Option<u64>
    requires { periods < 2 ^ 40 }
    ensures { MatchOption result (Unit {0}) (λ k. (s : ℕ) × IsRound search.now.parts.now k s) }
{
    match round_of(search) {
        Some(round) => Some(round),
        None => calendar_round(search, periods),
    }
}

/// The period up to which a search from one on looks: one round later if the rule repeats, since it chooses nothing after a round in which it
/// chooses nothing, and else the last.
pub(crate) fn last_to_look_at(search: &Search<'_>, begin: u64, last: u64) -> u64
    requires { last < 2 ^ 40 }
    ensures high { result ≤ last }
    ensures round { result < last → HasRound search.now.parts.now begin result }
{
    let left = last.saturating_sub(begin);
    if left < A_SHORT_SEARCH.min(calendar_periods(search.parts.frequency)) || begin == 0 {
        return last;
    }
    let Some(round) = repeats_after(search, left) else {
        return last;
    };
    if round < left { begin + round } else { last }
}

/// Whether BYMONTHDAY is there, with days that each month has, counted from the first, and of the other parts of the date at most BYMONTH.
fn is_flat(parts: &EffectiveRule) -> bool
    ensures { result ≡ true → IsFlat parts.now }
{
    goes_by_months(parts)
        & parts.weekdays.is_empty()
        & parts.month_days.back.next_from(0).is_none()
        & parts.month_days.front.next_from(29).is_none()
}

/// After how many periods the number of locals that a rule chooses repeats, if that is known.
fn even_round_of(search: &Search<'_>) -> Option<u64>
    ensures { MatchOption result (Unit {0}) (λ k. (start : ℕ) → IsEvenRound search.now.parts.now start k) }
{
    let parts = search.parts;
    if seconds_of(parts.frequency) > 0 {
        return round_of(search);
    }
    if !is_flat(parts) {
        return None;
    }
    let steps = match parts.frequency {
        Frequency::Yearly => 1,
        _ => 12,
    };
    Some(parts.interval as u64 * steps)
}

/// How many periods the calendar's 400 years have, after which its dates and weekdays repeat.
pub(crate) fn calendar_periods(frequency: Frequency) -> u64
    ensures value { result ≡ calendar_periods frequency }
    ensures some { 1 ≤ result }
    ensures bound { result < 2 ^ 40 }
{
    match frequency {
        Frequency::Secondly => 146_097 * 86_400,
        Frequency::Minutely => 146_097 * 1_440,
        Frequency::Hourly => 146_097 * 24,
        Frequency::Daily => 146_097,
        Frequency::Weekly => 146_097 / 7,
        Frequency::Monthly => 4_800,
        Frequency::Yearly => 400,
    }
}

/// The first round of the calendar's 400 years, taken once or more, that steps of the interval fill. None if it is longer than half of
/// so many periods.
pub(crate) fn calendar_round(search: &Search<'_>, periods: u64) -> Option<u64>
    requires { periods < 2 ^ 40 }
    ensures round { MatchOption result (Unit {0}) (IsCalendarRound search.now.parts.now) }
    ensures twice { IfSome result (λ k. 2 * k ≤ periods) }
{
    let cycle = calendar_periods(search.parts.frequency);
    let mut round = cycle;
    while round <= periods / 2 {
        if round % search.parts.interval as u64 == 0 {
            return Some(round);
        }
        round += cycle;
    }
    None
}

/// After how many periods the number of locals that a rule chooses repeats: by what its parts restrict, or else by the calendar, if two
/// rounds of it fit into so many periods.
fn round_within(search: &Search<'_>, periods: u64) -> Option<u64>
    requires { periods < 2 ^ 40 }
    ensures { MatchOption result (Unit {0}) (λ k. (start : ℕ) → IsEvenRound search.now.parts.now start k) }
{
    match even_round_of(search) {
        Some(round) => Some(round),
        None => calendar_round(search, periods),
    }
}

/// Whether what a rule allows repeats after so few periods that they are looked at one by one.
fn repeats_soon(search: &Search<'_>) -> bool {
    match even_round_of(search) {
        Some(round) => round / search.parts.interval as u64 <= A_SHORT_ROUND,
        None => false,
    }
}

impl Cursor {
    /// Whether the place is at most two years after the first day of the month or year held, so that no two rounds lie between.
    fn is_close(&self, parts: &EffectiveRule) -> bool {
        match &self.held {
            Some(period) => {
                let end = (period.first_day() as u64 + TWO_YEARS) * 86_400;
                seconds_of(parts.frequency) == 0 && self.place < end
            }
            None => false,
        }
    }

    /// Counts what is chosen in the periods up to that of the place, and looks at one of the last of them: by whole rounds if these are
    /// short or a period is longer than a day, and else by whole days. If neither can be done, at most the first two periods are passed.
    #[tactic(auto, using(crate::proofs::PassedLemmas::passed_under))]
    pub(crate) fn pass_periods(&mut self, search: &Search<'_>)
        requires cursor { IsUnderCount search.now.parts.now search.now.start search.now.count self.old }
        ensures { IsPassedTo search.now.parts.now search.now.start search.now.count self.old self.new }
    {
        if self.is_close(search.parts) {
            return;
        }
        let unit = seconds_of(search.parts.frequency);
        if unit == 0 || unit > 86_400 || repeats_soon(search) {
            self.pass_first(search);
            self.pass_rounds(search);
        } else {
            self.pass_open(search);
        }
    }

    /// Looks at the first step that is neither in the first period of all nor in the second, if that of the place is no earlier: no round begins
    /// sooner.
    fn pass_first(&mut self, search: &Search<'_>)
        requires cursor { IsUnderCount search.now.parts.now search.now.start search.now.count self.old }
        ensures { IsPassedTo search.now.parts.now search.now.start search.now.count self.old self.new }
    {
        let (begin, _) = self.counted_from(search.first);
        let end = next_step(search.first, search.parts.interval, 2);
        if begin >= end || end > period_of(search.parts, self.place) {
            return;
        }
        self.turn_through(search, begin, end, u32::MAX);
    }

    /// Counts the first round, from the period held or from the start's on. Then looks at the last period up to the place that is whole
    /// rounds after it. Nothing changes, or the first round is looked at, if fewer than two are left.
    fn pass_rounds(&mut self, search: &Search<'_>)
        requires cursor { IsUnderCount search.now.parts.now search.now.start search.now.count self.old }
        ensures { IsPassedTo search.now.parts.now search.now.start search.now.count self.old self.new }
    {
        let (begin, before) = self.counted_from(search.first);
        let ahead = period_of(search.parts, self.place).saturating_sub(begin);
        if begin < 2 || ahead < 2 {
            return;
        }
        let Some(round) = round_within(search, ahead) else {
            return;
        };
        let rounds = ahead / round;
        if rounds < 2 {
            return;
        }
        let end = begin + round;
        let Some(number) = self.turn_through(search, begin, end, u32::MAX) else {
            return;
        };
        if number != end {
            return;
        }
        let total = before + rounds * (self.counted - before);
        self.look_at(search.parts, begin + rounds * round, total);
    }
}
