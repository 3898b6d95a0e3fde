//! The onsets of one observance near an instant.
ghost use Rattle.std.specs.Prelude.{◌≡◌, ℤ, pos, true, false, int_le, ◌<◌, ◌<ℤ◌, ◌≤ℤ◌, [], ◌∷◌, ◌++◌, IfOk, IfSome, MatchOption};
ghost use Rattle.std.specs.List.{Contains};
ghost use Rattle.std.specs.Option.{option_map};
ghost use Rattle.jiff_core.specs.Calendar.{IsWithin};
ghost use Rattle.ics_fields.specs.Days.{IsStampDay};
ghost use Rattle.ics_rule.specs.Kept.{until_moment};
ghost use Rattle.ics_zone.specs.Observances.{ObservanceSaid, IsObservance, is_until, rule_from};
ghost use Rattle.ics_zone.specs.Inner.Latest.{IsInOrder, IsPassed, IsLast, IsLastOf, IsLastAfter};
ghost use Rattle.ics_zone.specs.Inner.Repeats.{IsRepeated};
ghost use Rattle.ics_zone.specs.Inner.OnsetSets.{IsShownTo, IsKeptAt, Has, AreFound, IsSound, AreOnsetsOf, IsListing, IsEnd, held_rule};

use crate::clock::{RULES_END, instant, shown_by};
use crate::gaps::Gap;
use crate::kept::{last_kept, last_of_all, next_kept};
use crate::near::{is_often, last_near, next_near, size_of};
use crate::rounds::{NO_ROUND, Round, round_of};
use ics_fields::{Frequency, Local, Moment, Parts};
use ics_rule::{Kind, Rule};
use ics_values::Observance;
use std::alloc::{AllocError, Global};

const DAY: u64 = 86_400;

/// A rule that lists more times of a day lists many.
const OFTEN: u64 = 8;

/// Under BYSETPOS a look for the next onset takes so many times as long, if periods are years.
const COSTS_OF_YEARS: usize = 2;

/// So many onsets are found of a rule with BYSETPOS before its gaps are.
const FOUND_OF_POSITIONS: usize = 256;

/// The onsets of one observance. Those of its rule are not listed: they are searched for near the instant of interest.
#[derive(Drop)]
pub(crate) struct Onsets {
    pub offset_from: i32,
    pub offset_to: i32,
    /// The instants of DTSTART and of the RDATEs, in order.
    pub listed: Vec<Moment>,
    /// RRULE, but for COUNT.
    pub rule: Option<Rule>,
    /// No onset of the rule is later than this.
    pub until: Moment,
    /// How many seconds back the search for an onset of the rule goes at first.
    pub ago: u64,
    /// Whether a search of the rule may take long.
    pub is_slow: bool,
    /// Whether days are looked at one by one first.
    pub by_days: bool,
    /// Whether its rule has BYSETPOS.
    pub by_positions: bool,
    /// How many times as long as in other rules a look for the next onset takes.
    pub costs: usize,
    /// After how many seconds what the rule keeps repeats.
    pub round: Round,
    /// The onsets after one instant and before another, in order.
    pub found: Vec<Moment>,
    pub known_from: Moment,
    pub known_to: Moment,
    /// Some gaps between the onsets that come after these.
    pub gaps: Vec<Gap>,
    /// From which instant on and up to which other they were sought. They are fewer if they are many.
    pub sought_from: Moment,
    pub sought_to: Moment,
}

/// How many instants of a list are not after a given one.
pub(crate) fn passed(listed: &[Moment], moment: Moment) -> usize
    requires { IsInOrder listed.now }
    ensures { IsPassed listed.now moment result }
{
    listed.partition_point(|at| *at <= moment)
}

/// How many times of a day a rule lists.
fn times_of(parts: &Parts) -> u64 {
    size_of(parts.hours)
        .max(1)
        .saturating_mul(size_of(parts.minutes).max(1))
        .saturating_mul(size_of(parts.seconds).max(1))
}

/// About how many seconds are between two onsets of a rule: a period, divided by the number of times of a day that the rule lists if it is daily.
/// Other rules have their times on few days of a period.
fn spacing(observance: &Observance) -> u64 {
    let Some(rule) = &observance.rule else {
        return u64::MAX;
    };
    let parts = rule.parts();
    let days: u64 = match parts.frequency {
        Frequency::Yearly => 366,
        Frequency::Monthly => 31,
        Frequency::Weekly => 7,
        _ => return daily_spacing(parts),
    };
    days.saturating_mul(DAY)
        .saturating_mul(u64::from(parts.interval))
        / positions_of(parts).max(1)
}

/// How many positions a rule lists in BYSETPOS.
pub(crate) fn positions_of(parts: &Parts) -> u64 {
    if parts.positions.is_empty() {
        return 0;
    }
    let mut count: u64 = 0;
    for n in 0..384_u16 {
        if parts.positions.front.contains(n) {
            count = count.saturating_add(1);
        }
        if parts.positions.back.contains(n) {
            count = count.saturating_add(1);
        }
    }
    count
}

/// The same of a daily rule.
fn daily_spacing(parts: &Parts) -> u64 {
    let times = if parts.positions.is_empty() {
        times_of(parts)
    } else {
        positions_of(parts)
    };
    DAY.saturating_mul(u64::from(parts.interval)) / times.max(1)
}

/// Whether a rule that goes by longer periods than days lists many times of a day.
fn has_many_times(parts: &Parts) -> bool {
    !matches!(parts.frequency, Frequency::Daily) && times_of(parts) > OFTEN
}

/// Whether a rule goes by years and lists no days but weekdays, as those of most zones do. Such a rule is searched soon, whether or not it
/// matches.
fn is_plain(parts: &Parts) -> bool {
    matches!(parts.frequency, Frequency::Yearly)
        & parts.weeks.is_empty()
        & parts.month_days.is_empty()
        & parts.year_days.is_empty()
        & parts.positions.is_empty()
}

/// Whether a rule goes by days and lists no days but weekdays. One of its next days matches.
fn is_each_day(parts: &Parts) -> bool {
    matches!(parts.frequency, Frequency::Daily)
        & parts.months.is_empty()
        & parts.weeks.is_empty()
        & parts.month_days.is_empty()
        & parts.year_days.is_empty()
        & parts.positions.is_empty()
}

/// Whether a rule has such parts that a search of it may take long.
fn has_slow_parts(parts: &Parts) -> bool {
    has_many_times(parts) || !(is_plain(parts) || is_each_day(parts))
}

/// Whether an observance has a rule of which a search may take long.
fn has_slow_rule(observance: &Observance) -> bool {
    match &observance.rule {
        Some(rule) => has_slow_parts(rule.parts()),
        None => false,
    }
}

/// Whether an observance has a rule with BYSETPOS.
fn has_positions(observance: &Observance) -> bool {
    match &observance.rule {
        Some(rule) => !rule.parts().positions.is_empty(),
        None => false,
    }
}

/// How many times as long as in other rules a look for the next onset takes. Under BYSETPOS the candidates of a period are counted.
fn costs_of(observance: &Observance) -> usize {
    match &observance.rule {
        Some(rule)
            if has_positions(observance) && matches!(rule.parts().frequency, Frequency::Yearly) => {
            COSTS_OF_YEARS
        }
        _ => 1,
    }
}

/// Whether an observance has a rule that may keep locals on many days.
fn has_frequent_rule(observance: &Observance) -> bool {
    match &observance.rule {
        Some(rule) => is_often(rule.parts()),
        None => false,
    }
}

/// Adds an onset to a list of so many at most. Whether it has room for it.
fn add_found(at: Moment, most: usize, found: &mut Vec<Moment>) -> bool
    ensures yes { result ≡ true → found.new.items ≡ found.old.items ++ at ∷ [] }
    ensures no { result ≡ false → found.new.items ≡ found.old.items }
{
    found.len() < most && found.push(at).is_ok()
}

/// UNTIL of a rule, if it is there and in UTC, and else a late instant.
fn until_of(rule: &Rule) -> Moment
    ensures { (t : ℤ) → t ≤ℤ pos 9_223_372_036_854_775_807 → is_until (until_moment rule.now) t ≡ int_le t result }
{
    rule.until_moment().unwrap_or(Moment::MAX)
}

/// The last instant at which a rule may have an onset: UNTIL, if it is there and in UTC, and the last onset by COUNT. It is DTSTART at most, if
/// the rule is asked and keeps no later local.
fn end_of(parts: &Parts, start: Local, offset_from: i32) -> Moment
    requires offset { IsWithin 86_399 offset_from }
    requires start { IsStampDay start.day }
    ensures { IsEnd offset_from result (rule_from start parts.now) }
{
    let rule = Rule::new(*parts, start, Kind::DateTime);
    let until = until_of(&rule);
    let first = start.number();
    if parts.count.is_some() {
        return until.min(instant(offset_from, last_of_all(&rule, first)));
    }
    let after = (first + 1).min(RULES_END as u64);
    if is_plain(parts) || next_kept(&rule, after, RULES_END as u64).is_some() {
        until
    } else {
        until.min(instant(offset_from, first))
    }
}

/// The rule of an observance, from its DTSTART on and without COUNT, the last instant at which it may have an onset, and the round of the rule.
fn rule_of(observance: &Observance) -> (Option<Rule>, Moment, Round)
    requires { IsObservance observance.now }
    ensures rule { result.0 ≡ option_map (held_rule observance.now.start) observance.now.rule }
    ensures end { IfSome (option_map (rule_from observance.now.start) observance.now.rule) (IsEnd observance.now.offset_from result.1) }
    ensures round { IfSome (option_map (held_rule observance.now.start) observance.now.rule) (λ r. IsRepeated observance.now.offset_from r result.2) }
{
    let Some(rule) = &observance.rule else {
        return (None, Moment::MAX, NO_ROUND);
    };
    let until = end_of(rule.parts(), observance.start, observance.offset_from);
    let round = round_of(rule.parts(), observance.start, observance.offset_from);
    let mut held = *rule.parts();
    held.count = None;
    (
        Some(Rule::new(held, observance.start, Kind::DateTime)),
        until,
        round,
    )
}

/// The instants of DTSTART and of the RDATEs, in order.
fn listed(alloc: Global, observance: &Observance) -> Result<Vec<Moment>, AllocError>
    requires { IsObservance observance.now }
    ensures { IfOk result (λ listed. IsListing observance.now listed.items) }
{
    let mut listed = Vec::new(alloc);
    listed.push(instant(observance.offset_from, observance.start.number()))?;
    for rdate in &observance.rdates {
        listed.push(instant(observance.offset_from, rdate.number()))?;
    }
    listed.sort_unstable();
    Ok(listed)
}

impl Onsets {
    /// The onsets of an observance.
    pub fn of(alloc: Global, observance: &Observance) -> Result<Onsets, AllocError>
        requires { IsObservance observance.now }
        ensures { IfOk result (AreOnsetsOf observance.now) }
    {
        let listed = listed(alloc, observance)?;
        let (rule, until, round) = rule_of(observance);
        let ago = spacing(observance);
        Ok(Onsets {
            offset_from: observance.offset_from,
            offset_to: observance.offset_to,
            listed,
            rule,
            until,
            ago,
            is_slow: has_slow_rule(observance),
            by_days: has_frequent_rule(observance),
            by_positions: has_positions(observance),
            costs: costs_of(observance),
            round,
            found: Vec::new(alloc),
            known_from: 0,
            known_to: 0,
            gaps: Vec::new(alloc),
            sought_from: Moment::MAX,
            sought_to: Moment::MIN,
        })
    }

    /// Whether its onsets are known just after an instant.
    pub fn is_known(&self, at: Moment) -> bool
        ensures { result ≡ true → (self.now.known_from ≤ℤ at) × (at <ℤ self.now.known_to) }
    {
        self.known_from <= at && at < self.known_to
    }

    /// The last onset that was found and is not after an instant.
    fn last_found(&self, moment: Moment) -> Option<Moment>
        requires { IsSound self.now }
        ensures { IsLastOf (Contains self.now.found.items) moment result }
    {
        let passed = passed(&self.found, moment);
        if passed == 0 {
            None
        } else {
            Some(self.found[passed - 1])
        }
    }

    /// The last onset that is not after an instant, if that was found.
    pub fn known_last(&self, moment: Moment) -> Option<Moment>
        requires { IsSound self.now }
        ensures { IfSome result (IsLast (Has self.now) moment) }
    {
        if self.is_known(moment) {
            return self.last_found(moment);
        }
        match self.known_gap(moment) {
            Some(gap) => Some(gap.last),
            None => None,
        }
    }

    /// Whether two instants lie in one gap that is known.
    fn is_in_gap(&self, after: Moment, moment: Moment) -> bool
        requires { IsSound self.now }
        ensures { result ≡ true → (t : ℤ) → Has self.now t → after <ℤ t → moment <ℤ t }
    {
        match self.known_gap(after) {
            Some(gap) => moment < gap.next,
            None => false,
        }
    }

    /// Whether it is known that no onset is after an instant and not after another.
    pub fn is_quiet(&self, after: Moment, moment: Moment) -> bool
        requires { IsSound self.now }
        ensures { result ≡ true → (t : ℤ) → Has self.now t → after <ℤ t → moment <ℤ t }
    {
        if after < self.known_from || moment >= self.known_to {
            return self.is_in_gap(after, moment);
        }
        match self.last_found(moment) {
            Some(last) => last <= after,
            None => true,
        }
    }

    /// Looks for the first onset after an instant and before a limit, so that it is known, unless onsets were sought already.
    pub fn look(&mut self, after: Moment, limit: Moment)
        requires sound { IsSound self.old }
        requires limit { after <ℤ limit }
        ensures sound { IsSound self.new }
        ensures same { (p : ObservanceSaid) → AreOnsetsOf p self.old → AreOnsetsOf p self.new }
    {
        if self.sought_from < self.sought_to {
            return;
        }
        let next = self.next(after, limit);
        self.found.clear();
        self.known_from = after;
        self.known_to = next;
    }

    /// Whether its onsets are to be found from an instant on and up to another: a search of its rule may take long, or plain rules count too, and they
    /// were not sought yet.
    pub fn must_find(&self, with_plain: bool, from: Moment, to: Moment) -> bool {
        let is_sought = self.sought_from <= from && to <= self.sought_to;
        (self.is_slow || (with_plain && self.rule.is_some())) && !is_sought
    }

    /// Finds the onsets from the last one by an instant on and before another, and those that were sought before: so many at most, and fewer where
    /// an allocation fails. Behind them it finds gaps, of so many days.
    pub fn find(&mut self, from: Moment, to: Moment, most: usize, days: usize)
        requires sound { IsSound self.old }
        ensures sound { IsSound self.new }
        ensures same { (p : ObservanceSaid) → AreOnsetsOf p self.old → AreOnsetsOf p self.new }
    {
        let first = self.sought_from.min(from);
        let last = self.sought_to.max(to);
        let begin = self.begin_by(first);
        let mut found = Vec::new(*self.listed.allocator());
        let end = self.list_between(begin, last, self.found_at_most(most), &mut found);
        let gaps = self.list_gaps(end, last, days);
        self.sought_from = first;
        self.sought_to = last;
        self.found = found;
        self.known_from = begin;
        self.known_to = end;
        self.gaps = gaps;
    }

    /// How many onsets are found, of so many, before gaps are. They are few under BYSETPOS.
    fn found_at_most(&self, most: usize) -> usize {
        if self.by_positions {
            most.min(FOUND_OF_POSITIONS)
        } else {
            most
        }
    }

    /// An instant before the last onset that is not after another, or before all if there is no such onset.
    fn begin_by(&self, from: Moment) -> Moment
        requires { IsSound self.now }
    {
        match self.last(from) {
            Some(last) => last.saturating_sub(1),
            None => Moment::MIN,
        }
    }

    /// Lists the onsets after an instant and before another, so many at most, and fewer where an allocation fails. The instant before which all are
    /// listed.
    fn list_between(&self, from: Moment, to: Moment, most: usize, found: &mut Vec<Moment>) -> Moment
        requires sound { IsSound self.now }
        requires empty { found.old.items ≡ [] }
        ensures { AreFound (Has self.now) from result found.new.items }
    {
        let mut at = from;
        while at < to {
            at = self.next_asked(true, at, to);
            if at < to && !add_found(at, most, found) {
                return at;
            }
        }
        to
    }

    /// The first onset.
    pub fn first(&self) -> Moment
        requires { IsSound self.now }
        ensures is { Has self.now result }
        ensures first { (t : ℤ) → Has self.now t → result ≤ℤ t }
    {
        self.listed[0]
    }

    /// The last listed onset that is not after an instant.
    fn last_listed(&self, moment: Moment) -> Option<Moment>
        requires { IsSound self.now }
        ensures { IsLastOf (Contains self.now.listed.items) moment result }
    {
        let passed = passed(&self.listed, moment);
        if passed == 0 {
            None
        } else {
            Some(self.listed[passed - 1])
        }
    }

    /// How many locals before the end of the rules the clock before the onsets shows up to an instant and up to an UNTIL in UTC.
    pub fn shown_to(&self, moment: Moment) -> u64
        requires { IsSound self.now }
        ensures { IsShownTo self.now.offset_from self.now.until moment result }
    {
        shown_by(self.offset_from, moment.min(self.until))
    }

    /// The last onset of the rule that is not after an instant.
    fn last_by_rule(&self, moment: Moment) -> Option<Moment>
        requires { IsSound self.now }
        ensures { IsLastOf (IsKeptAt self.now) moment result }
    {
        let Some(rule) = &self.rule else {
            return None;
        };
        let end = self.shown_to(moment);
        match last_kept(rule, self.by_days, self.ago, end) {
            Some(kept) => Some(instant(self.offset_from, kept)),
            None => None,
        }
    }

    /// The last onset that is not after an instant.
    pub fn last(&self, moment: Moment) -> Option<Moment>
        requires { IsSound self.now }
        ensures { IsLastOf (Has self.now) moment result }
    {
        if moment < self.first() {
            return None;
        }
        if let Some(last) = self.known_last(moment) {
            return Some(last);
        }
        match (self.last_listed(moment), self.last_by_rule(moment)) {
            (Some(listed), Some(kept)) => Some(listed.max(kept)),
            (Some(listed), None) => Some(listed),
            (None, kept) => kept,
        }
    }

    /// The last onset of the rule that is not after an instant, if it is after another.
    fn last_by_rule_after(&self, after: Moment, moment: Moment) -> Option<Moment>
        requires { IsSound self.now }
        ensures { IsLastAfter (IsKeptAt self.now) after moment result }
    {
        let Some(rule) = &self.rule else {
            return None;
        };
        let from = shown_by(self.offset_from, after);
        let end = self.shown_to(moment);
        let kept = last_near(rule, self.by_days, from, end)?;
        let last = instant(self.offset_from, kept);
        if last > after { Some(last) } else { None }
    }

    /// The last listed onset that is not after an instant, if it is after another.
    fn last_listed_after(&self, after: Moment, moment: Moment) -> Option<Moment>
        requires { IsSound self.now }
        ensures { IsLastAfter (Contains self.now.listed.items) after moment result }
    {
        let Some(last) = self.last_listed(moment) else {
            return None;
        };
        if last > after { Some(last) } else { None }
    }

    /// The last onset that is not after an instant, if it is after another.
    pub fn last_after(&self, after: Moment, moment: Moment) -> Option<Moment>
        requires { IsSound self.now }
        ensures last { MatchOption result ((t : ℤ) → Has self.now t → t ≤ℤ moment → t ≤ℤ after) (IsLast (Has self.now) moment) }
        ensures after { IfSome result (λ s. after <ℤ s) }
    {
        if self.is_quiet(after, moment) {
            return None;
        }
        if let Some(last) = self.known_last(moment) {
            return if last > after { Some(last) } else { None };
        }
        match (
            self.last_listed_after(after, moment),
            self.last_by_rule_after(after, moment),
        ) {
            (Some(listed), Some(kept)) => Some(listed.max(kept)),
            (Some(listed), None) => Some(listed),
            (None, kept) => kept,
        }
    }

    /// The first onset of the rule after an instant, or the limit if there is none before it.
    pub fn next_by_rule(&self, after: Moment, limit: Moment) -> Moment
        requires sound { IsSound self.now }
        requires limit { after <ℤ limit }
        ensures after { after <ℤ result }
        ensures bound { result ≤ℤ limit }
        ensures next { (t : ℤ) → IsKeptAt self.now t → after <ℤ t → result ≤ℤ t }
        ensures is { result <ℤ limit → IsKeptAt self.now result }
    {
        let Some(rule) = &self.rule else {
            return limit;
        };
        let from = shown_by(self.offset_from, after);
        let end = self.shown_to(limit);
        match next_near(rule, self.by_days, from, end) {
            Some(kept) => instant(self.offset_from, kept),
            None => limit,
        }
    }

    /// The first listed onset after an instant, or the limit if there is none before it.
    pub fn next_listed(&self, after: Moment, limit: Moment) -> Moment
        requires sound { IsSound self.now }
        requires limit { after <ℤ limit }
        ensures after { after <ℤ result }
        ensures bound { result ≤ℤ limit }
        ensures next { (t : ℤ) → Contains self.now.listed.items t → after <ℤ t → result ≤ℤ t }
        ensures is { result <ℤ limit → Contains self.now.listed.items result }
    {
        let passed = passed(&self.listed, after);
        if passed == self.listed.len() {
            return limit;
        }
        self.listed[passed].min(limit)
    }

    /// The first found onset after an instant, or the end of what is known if there is none.
    fn known_next(&self, after: Moment) -> Moment
        requires sound { IsSound self.now }
        requires from { self.now.known_from ≤ℤ after }
        requires to { after <ℤ self.now.known_to }
        ensures after { after <ℤ result }
        ensures next { (t : ℤ) → Has self.now t → after <ℤ t → result ≤ℤ t }
    {
        let passed = passed(&self.found, after);
        if passed < self.found.len() {
            self.found[passed]
        } else {
            self.known_to
        }
    }

    /// The first onset after an instant, or the limit if there is none before it.
    pub fn next(&self, after: Moment, limit: Moment) -> Moment
        requires sound { IsSound self.now }
        requires limit { after <ℤ limit }
        ensures after { after <ℤ result }
        ensures bound { result ≤ℤ limit }
        ensures next { (t : ℤ) → Has self.now t → after <ℤ t → result ≤ℤ t }
    {
        if self.is_known(after) {
            return limit.min(self.known_next(after));
        }
        if let Some(gap) = self.known_gap(after) {
            return limit.min(gap.next);
        }
        let kept = self.next_by_rule(after, limit);
        self.next_listed(after, kept)
    }
}
