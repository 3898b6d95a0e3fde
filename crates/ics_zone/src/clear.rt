//! The onsets of an observance within an hour, minute by minute.
ghost use Rattle.std.specs.Prelude.{◌≡◌, ℕ, ℤ, pos, true, ◌<◌, ◌⊎◌, ◌||◌, ◌==◌, length, IfSome, ◌<ℤ◌, ◌≤ℤ◌, ◌+ℤ◌, ◌-ℤ◌};
ghost use Rattle.ics_zone.specs.Inner.OnsetSets.{IsSearched, IsKeptAt, Has, IsSound};
ghost use Rattle.ics_zone.specs.Inner.Hours.{IsToldBy};
ghost use Rattle.ics_zone.specs.Inner.Marks.{is_marked, IsMarked, IsAsked, AreMarks, AreClear};

use crate::clock::{EPOCH, RULES_END, shown_at};
use crate::hours::Hours;
use crate::onsets::Onsets;
use crate::sixty::{first_of, first_outside, front};
use ics_fields::Moment;

/// Two hours before the end of the rules.
const LAST: i64 = RULES_END - 7_200;

/// How many seconds of an hour, from an instant on, are not after another instant.
fn seconds_to(from: Moment, last: Moment) -> i64
    requires { IsSearched from }
    ensures first { (k : ℕ) → pos k <ℤ result → (from +ℤ pos k) ≤ℤ last }
    ensures all { (k : ℕ) → k < 3_600 → (from +ℤ pos k) ≤ℤ last → pos k <ℤ result }
{
    last.clamp(from - 1, from + 3_600) - from + 1
}

/// Marks a second of an hour.
fn mark(marks: &mut [u64], second: usize)
    requires length { length marks.old ≡ 60 }
    requires inside { second < 3_600 }
    ensures length { length marks.new ≡ 60 }
    ensures marks { (k : ℕ) → is_marked marks.new k ≡ ((k == second) || is_marked marks.old k) }
{
    marks[second / 60] |= 1 << (second % 60);
}

impl Onsets {
    /// What the rule keeps within an hour from an instant on, where that is easily told.
    fn hours_from(&self, from: Moment) -> Option<Hours>
        requires sound { IsSound self.now }
        requires near { IsSearched from }
        ensures { IsToldBy self.now (from -ℤ pos 1) (from +ℤ pos 3_600) result }
    {
        let Some(rule) = &self.rule else {
            return None;
        };
        let local = from + i64::from(self.offset_from) + EPOCH;
        if local < 0 || local >= LAST {
            return None;
        }
        Hours::of(rule, local as u64)
    }

    /// The onsets of the rule within an hour from an instant on, where they are easily told.
    fn told_within(&self, from: Moment) -> Option<[u64; 60]>
        requires sound { IsSound self.now }
        requires near { IsSearched from }
        ensures known { IfSome result (λ marks. (k : ℕ) → k < 3_600 → IsMarked marks k → IsKeptAt self.now (from +ℤ pos k)) }
        ensures complete { IfSome result (λ marks. (k : ℕ) → k < 3_600 → IsKeptAt self.now (from +ℤ pos k) → IsMarked marks k) }
    {
        let hours = self.hours_from(from)?;
        let local = shown_at(self.offset_from, from);
        Some(hours.words(local, seconds_to(from, self.until)))
    }

    /// The first onset after an instant, of the listed ones and perhaps of those of the rule, or the limit if there is none before it.
    pub fn next_asked(&self, with_rule: bool, after: Moment, limit: Moment) -> Moment
        requires sound { IsSound self.now }
        requires limit { after <ℤ limit }
        ensures after { after <ℤ result }
        ensures bound { result ≤ℤ limit }
        ensures next { (t : ℤ) → IsAsked self.now with_rule t → after <ℤ t → result ≤ℤ t }
        ensures is { result <ℤ limit → Has self.now result }
    {
        if with_rule {
            let kept = self.next_by_rule(after, limit);
            self.next_listed(after, kept)
        } else {
            self.next_listed(after, limit)
        }
    }

    /// Marks the onsets within an hour from an instant on, the listed ones and perhaps those of the rule, one after the other.
    fn mark_each(&self, with_rule: bool, from: Moment, marks: &mut [u64])
        requires sound { IsSound self.now }
        requires near { IsSearched from }
        requires length { length marks.old ≡ 60 }
        ensures length { length marks.new ≡ 60 }
        ensures known { (k : ℕ) → IsMarked marks.new k → IsMarked marks.old k ⊎ Has self.now (from +ℤ pos k) }
        ensures stay { (k : ℕ) → IsMarked marks.old k → IsMarked marks.new k }
        ensures complete { (k : ℕ) → k < 3_600 → IsAsked self.now with_rule (from +ℤ pos k) → IsMarked marks.new k }
    {
        let limit = from + 3_600;
        let mut at = self.next_asked(with_rule, from - 1, limit);
        while at < limit {
            mark(marks, (at - from) as usize);
            at = self.next_asked(with_rule, at, limit);
        }
    }

    /// The onsets within an hour from an instant on.
    fn within(&self, from: Moment) -> [u64; 60]
        requires sound { IsSound self.now }
        requires near { IsSearched from }
        ensures known { (k : ℕ) → k < 3_600 → IsMarked result k → Has self.now (from +ℤ pos k) }
        ensures complete { (k : ℕ) → k < 3_600 → Has self.now (from +ℤ pos k) → IsMarked result k }
    {
        match self.told_within(from) {
            Some(told) => {
                let mut marks = told;
                self.mark_each(false, from, &mut marks);
                marks
            }
            None => {
                let mut marks = [0; 60];
                self.mark_each(true, from, &mut marks);
                marks
            }
        }
    }

    /// How many seconds from an instant on, of so many, no onset of the observance shows a later local than one but at marked instants.
    /// The instants of its other onsets are marked.
    pub fn clear(&self, seconds: i64, from: Moment, over: &mut [u64], most: i64) -> i64
        requires sound { IsSound self.now }
        requires near { IsSearched from }
        requires local { IsSearched seconds }
        requires length { length over.old ≡ 60 }
        requires some { pos 0 ≤ℤ most }
        requires most { most ≤ℤ pos 3_600 }
        ensures length { length over.new ≡ 60 }
        ensures some { pos 0 ≤ℤ result }
        ensures most { result ≤ℤ most }
        ensures marks { AreMarks self.now seconds from over.old over.new }
        ensures clear { AreClear self.now seconds from over.new (from +ℤ result) }
    {
        let onsets = self.within(from);
        let low = seconds_to(from, seconds - i64::from(self.offset_to));
        for minute in 0..60 {
            over[minute] |= front(onsets[minute], first_of(minute, low));
            if let Some(second) = first_outside(onsets[minute], over[minute]) {
                return most.min(minute as i64 * 60 + i64::from(second));
            }
        }
        most
    }
}
