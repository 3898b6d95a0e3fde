//! The gaps between the onsets of an observance that begins seldom, and often on a day.
ghost use Rattle.std.specs.Prelude.{◌≡◌, ◌≤◌, ◌<◌, ◌+◌, ◌*◌, ◌^◌, ◌⊎◌, [], ◌∷◌, ◌++◌, ℕ, ℤ, pos, neg_ℤ, ◌<ℤ◌, ◌≤ℤ◌, ◌+ℤ◌, ◌-ℤ◌, IfSome, MatchOption, Some};
ghost use Rattle.std.specs.List.{All, Contains};
ghost use Rattle.jiff_core.specs.Calendar.{IsWithin};
ghost use Rattle.ics_period.specs.PeriodNumbers.{rules_end};
ghost use Rattle.ics_rule.specs.Cursors.{place_of, IsCursorOf};
ghost use Rattle.ics_rule.specs.Next.{NoneKept, IsNextKept};
ghost use Rattle.ics_zone.specs.Inner.OnsetSets.{Has, IsGap, IsGapKept, IsSound};

use crate::clock::{instant, shown_by};
use crate::near::{DAYS, last_of_day};
use crate::onsets::Onsets;
use crate::rounds::{LAST, LONGEST, THIRD_YEAR};
use ics_fields::{Local, Moment};
use ics_rule::{Cursor, Rule};

const DAY: i64 = 86_400;

/// Where days are looked at one by one, a gap that is not longer is soon passed over.
const SOON: i64 = DAYS as i64 * DAY;

/// Later than each instant for which a round is known.
const FAR: Moment = 1_000_000_000_000;

/// An onset and a later instant, between which there is no onset.
#[derive(Clone, Copy)]
pub(crate) struct Gap {
    pub last: Moment,
    pub next: Moment,
}

/// The next local that a rule keeps from the place of a cursor on and before a bound.
fn next_of(rule: &Rule, cursor: &mut Cursor, bound: u64) -> Option<u64>
    requires own { IsCursorOf rule.now cursor.old }
    requires bound { bound ≤ rules_end }
    ensures own { IsCursorOf rule.now cursor.new }
    ensures next { MatchOption result
        (NoneKept rule.now (place_of cursor.old) bound)
        (λ n. IsNextKept rule.now (place_of cursor.old) bound n × (place_of cursor.new ≡ n + 1)) }
{
    match cursor.next(rule, Local::numbered(bound)) {
        Some(local) => Some(local.number()),
        None => None,
    }
}

/// Adds a gap to a list, unless it is too short. Whether there is room for it.
fn add_gap(gap: Gap, least: i64, gaps: &mut Vec<Gap>) -> bool
    ensures { (gaps.new.items ≡ gaps.old.items) ⊎ (gaps.new.items ≡ gaps.old.items ++ gap ∷ []) }
{
    gap.next.saturating_sub(gap.last) < least || gaps.push(gap).is_ok()
}

/// The seconds of whole rounds that are more than some seconds, and a round more at most.
fn whole_rounds(past: u64, round: u64) -> u64
    requires some { 1 ≤ round }
    requires round { round < 2 ^ 40 }
    requires past { past < 2 ^ 40 }
    ensures rounds { (j : ℕ) × (result ≡ j * round) }
    ensures more { past < result }
    ensures most { result ≤ past + round }
{
    past - past % round + round
}

/// How many seconds the whole rounds have by which an instant is before an end, if it is moved back by them.
fn back_to(round: u64, end: Moment, moment: Moment) -> Option<i64>
    ensures rounds { IfSome result (λ back. (j : ℕ) × (back ≡ pos (j * round))) }
    ensures bound { IfSome result (IsWithin 1_000_000_000_000) }
    ensures moment { IfSome result (λ back. moment ≤ℤ pos 247_059_417_600) }
    ensures low { IfSome result (λ back. neg_ℤ (pos 500_000_000_000) ≤ℤ (moment -ℤ back)) }
{
    if round == 0 || round > LONGEST || end < THIRD_YEAR || moment < end || moment > LAST {
        return None;
    }
    Some(whole_rounds((moment - end) as u64, round) as i64)
}

/// An instant so many seconds later.
fn later_by(at: Moment, back: i64) -> Moment
    requires at { IsWithin 1_000_000_000_000 at }
    requires back { IsWithin 1_000_000_000_000 back }
    ensures { result ≡ at +ℤ back }
{
    at + back
}

/// A gap so many seconds later, up to an instant.
fn shifted(gap: Gap, back: i64, to: Moment) -> Gap
    requires some { pos 0 ≤ℤ back }
    requires back { back ≤ℤ pos 1_000_000_000_000 }
    requires last { neg_ℤ (pos 500_000_000_000) ≤ℤ gap.last }
    requires high { (gap.last +ℤ back) ≤ℤ pos 247_059_417_600 }
    requires next { neg_ℤ (pos 500_000_000_000) ≤ℤ gap.next }
    requires to { neg_ℤ (pos 500_000_000_000) ≤ℤ to }
    ensures last { result.last ≡ gap.last +ℤ back }
    ensures next { result.next ≤ℤ (gap.next +ℤ back) }
    ensures to { result.next ≤ℤ (to +ℤ pos 1) }
    ensures about { (t : ℤ) → t <ℤ (gap.next +ℤ back) → t ≤ℤ to → t ≤ℤ pos 247_059_417_600 → t <ℤ result.next }
{
    let far = gap.next.min(FAR);
    let end = to.min(FAR);
    let next = later_by(far, back).min(later_by(end, 1));
    Gap {
        last: later_by(gap.last, back),
        next,
    }
}

impl Onsets {
    /// The last listed onset.
    fn end_of_listed(&self) -> Moment
        requires { IsSound self.now }
        ensures { (t : ℤ) → Contains self.now.listed.items t → t ≤ℤ result }
    {
        self.listed[self.listed.len() - 1]
    }

    /// The gap about an instant by one that is listed, so many seconds earlier, which are whole rounds of the rule.
    fn gap_later(&self, back: i64, moment: Moment) -> Option<Gap>
        requires sound { IsSound self.now }
        requires rounds { (j : ℕ) × (back ≡ pos (j * self.now.round.seconds)) }
        requires bound { IsWithin 1_000_000_000_000 back }
        requires until { moment ≤ℤ self.now.until }
        requires to { moment ≤ℤ self.now.round.to }
        requires high { moment ≤ℤ pos 247_059_417_600 }
        requires low { neg_ℤ (pos 500_000_000_000) ≤ℤ (moment -ℤ back) }
        ensures gap { IfSome result (IsGap (Has self.now)) }
        ensures last { IfSome result (λ gap. gap.last ≤ℤ moment) }
        ensures next { IfSome result (λ gap. moment <ℤ gap.next) }
    {
        let gap = self.listed_gap(moment - back)?;
        if gap.last <= self.end_of_listed() || gap.last <= THIRD_YEAR.max(self.round.after) {
            return None;
        }
        Some(shifted(gap, back, self.round.to))
    }

    /// The gap about an instant, if one that is some rounds of the rule earlier is listed.
    fn gap_again(&self, moment: Moment) -> Option<Gap>
        requires { IsSound self.now }
        ensures gap { IfSome result (IsGap (Has self.now)) }
        ensures last { IfSome result (λ gap. gap.last ≤ℤ moment) }
        ensures next { IfSome result (λ gap. moment <ℤ gap.next) }
    {
        let count = self.gaps.len();
        if count == 0 || moment > self.until.min(self.round.to) {
            return None;
        }
        let back = back_to(self.round.seconds, self.gaps[count - 1].next, moment)?;
        self.gap_later(back, moment)
    }

    /// The gap about an instant, if it is known.
    pub fn known_gap(&self, moment: Moment) -> Option<Gap>
        requires { IsSound self.now }
        ensures gap { IfSome result (IsGap (Has self.now)) }
        ensures last { IfSome result (λ gap. gap.last ≤ℤ moment) }
        ensures next { IfSome result (λ gap. moment <ℤ gap.next) }
    {
        match self.listed_gap(moment) {
            Some(gap) => Some(gap),
            None => self.gap_again(moment),
        }
    }

    /// The gap about an instant, if it is listed.
    fn listed_gap(&self, moment: Moment) -> Option<Gap>
        requires { IsSound self.now }
        ensures gap { IfSome result (IsGap (Has self.now)) }
        ensures last { IfSome result (λ gap. gap.last ≤ℤ moment) }
        ensures next { IfSome result (λ gap. moment <ℤ gap.next) }
    {
        let passed = self.gaps.partition_point(|gap| gap.last <= moment);
        if passed == 0 {
            return None;
        }
        let gap = self.gaps[passed - 1];
        if gap.last <= moment && moment < gap.next {
            Some(gap)
        } else {
            None
        }
    }

    /// The gap from the onset of a kept local to that of the next one or, if there is none, to an instant.
    fn gap_to(&self, rule: &Rule, last: u64, next: Option<u64>, to: Moment) -> Gap
        requires sound { IsSound self.now }
        requires rule { self.now.rule ≡ Some rule.now }
        requires gap { IsGapKept self.now rule.now to last next }
        ensures { IsGap (Has self.now) result }
    {
        let last = instant(self.offset_from, last);
        let end = match next {
            Some(next) => instant(self.offset_from, next),
            None => to,
        };
        if last >= end {
            return Gap { last, next: end };
        }
        Gap {
            last,
            next: self.next_listed(last, end),
        }
    }

    /// How long a gap must be to be listed. Under BYSETPOS each is.
    fn least_gap(&self) -> i64 {
        if self.by_positions {
            0
        } else if self.by_days {
            SOON
        } else {
            DAY
        }
    }

    /// The end of a round of the rule from an instant on, or a late one if it has none.
    fn round_end(&self, from: Moment) -> Moment
        requires { IsSound self.now }
    {
        if self.round.seconds == 0 || self.round.seconds > LONGEST {
            return Moment::MAX;
        }
        from.max(self.end_of_listed())
            .max(self.round.after)
            .saturating_add(self.round.seconds as i64)
    }

    /// The gaps between the days that have onsets of the rule, from an instant on and before another, or in one round of the rule. So many days are looked
    /// at, a part of these if that takes long, and fewer if an allocation fails. Short gaps are left out.
    pub fn list_gaps(&self, from: Moment, to: Moment, days: usize) -> Vec<Gap>
        requires { IsSound self.now }
        ensures { All (IsGap (Has self.now)) result.items }
    {
        let mut gaps = Vec::new(*self.listed.allocator());
        let Some(rule) = &self.rule else {
            return gaps;
        };
        let least = self.least_gap();
        let end = self.shown_to(to);
        let stop = shown_by(self.offset_from, self.round_end(from));
        let begin = shown_by(self.offset_from, from.saturating_sub(1));
        let mut cursor = Cursor::at(rule, Local::numbered(begin));
        let mut kept = next_of(rule, &mut cursor, end);
        let mut left = days / self.costs.max(1);
        while let Some(first) = kept {
            if left == 0 || first >= stop {
                return gaps;
            }
            left -= 1;
            let last = last_of_day(rule, first, end);
            cursor.pass(rule, Local::numbered(last + 1));
            kept = next_of(rule, &mut cursor, end);
            if !add_gap(self.gap_to(rule, last, kept, to), least, &mut gaps) {
                return gaps;
            }
        }
        gaps
    }
}
