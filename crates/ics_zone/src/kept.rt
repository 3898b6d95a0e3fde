//! The locals that a rule keeps near a place, found without counting from its start.
ghost use Rattle.std.specs.Prelude.{◌≡◌, ℕ, ◌≤◌, ◌<◌, ◌+◌, ◌⊎◌, true, MatchOption};
ghost use Rattle.ics_fields.specs.Locals.{calendar_end, number};
ghost use Rattle.ics_rule.specs.Cursors.{place_of, IsCursorOf};
ghost use Rattle.ics_rule.specs.Kept.{is_kept};
ghost use Rattle.ics_rule.specs.Next.{NoneKept, IsNextKept};
ghost use Rattle.ics_zone.specs.Inner.Latest.{IsLastKept, IsKnownLast};
ghost use Rattle.ics_period.specs.PeriodNumbers.{rules_end};

use crate::clock::RULES_END;
use crate::near::last_near;
use ics_fields::Local;
use ics_rule::{Cursor, Rule};

/// The first kept local from a place on that is earlier than a bound.
pub(crate) fn next_kept(rule: &Rule, from: u64, bound: u64) -> Option<u64>
    requires from { from ≤ rules_end }
    requires bound { bound ≤ rules_end }
    ensures { MatchOption result (NoneKept rule.now from bound) (IsNextKept rule.now from bound) }
{
    let mut cursor = Cursor::at(rule, Local::numbered(from));
    match cursor.next(rule, Local::numbered(bound)) {
        Some(local) => Some(local.number()),
        None => None,
    }
}

/// The last kept local that is earlier than a bound. The search begins a little before the bound, and goes twice as far back each time
/// that it finds none.
pub(crate) fn last_kept(rule: &Rule, by_days: bool, ago: u64, bound: u64) -> Option<u64>
    requires { bound ≤ rules_end }
    ensures { MatchOption result (NoneKept rule.now 0 bound) (IsLastKept rule.now bound) }
{
    let mut end = bound;
    let mut back = ago.max(1);
    while end > 0 {
        let from = end.saturating_sub(back);
        if let Some(last) = last_near(rule, by_days, from, end) {
            return Some(last);
        }
        end = from;
        back = back.saturating_mul(2);
    }
    None
}

/// The last kept local from a place on that is earlier than a bound. Mostly there is just one.
pub(crate) fn last_between(rule: &Rule, from: u64, bound: u64) -> Option<u64>
    requires from { from ≤ rules_end }
    requires bound { bound ≤ rules_end }
    ensures { MatchOption result (NoneKept rule.now from bound) (IsLastKept rule.now bound) }
{
    let end = Local::numbered(bound);
    let mut cursor = Cursor::at(rule, Local::numbered(from));
    let first = cursor.next(rule, end)?.number();
    if first + 1 == bound {
        return Some(first);
    }
    match cursor.next(rule, end) {
        None => Some(first),
        Some(second) => Some(last_from(rule, cursor, first, second.number(), bound)),
    }
}

/// What is known of the last kept local: a local that is kept, and a later place from which on none is.
#[derive(Clone, Copy)]
pub(crate) struct Known {
    pub last: u64,
    pub end: u64,
}

/// Looks from a place on for a later kept local than the known one, behind which the cursor is. It is known then, with the cursor behind it, or that none is
/// kept from there on.
fn look_from(rule: &Rule, cursor: &mut Cursor, known: &mut Known, from: u64)
    requires own { IsCursorOf rule.now cursor.old }
    requires behind { place_of cursor.old ≡ known.old.last + 1 }
    requires after { known.old.last < from }
    requires from { from ≤ rules_end }
    requires end { known.old.end ≤ rules_end }
    ensures own { IsCursorOf rule.now cursor.new }
    ensures behind { place_of cursor.new ≡ known.new.last + 1 }
    ensures known { (bound : ℕ) → IsKnownLast rule.now bound known.old → IsKnownLast rule.now bound known.new }
    ensures later { known.old.last ≤ known.new.last }
    ensures earlier { known.new.end ≤ known.old.end }
    ensures moves { (from ≤ known.new.last) ⊎ (known.new.end ≤ from) }
{
    let mut probe = *cursor;
    probe.pass(rule, Local::numbered(from));
    match probe.next(rule, Local::numbered(known.end)) {
        Some(next) => {
            known.last = next.number();
            *cursor = probe;
        }
        None => known.end = from.min(known.end),
    }
}

/// Halves what is not known of the last kept local, until it is not more than a gap.
fn halve(rule: &Rule, cursor: &mut Cursor, known: &mut Known, gap: u64)
    requires own { IsCursorOf rule.now cursor.old }
    requires behind { place_of cursor.old ≡ known.old.last + 1 }
    requires gap { 1 ≤ gap }
    requires end { known.old.end ≤ rules_end }
    ensures own { IsCursorOf rule.now cursor.new }
    ensures behind { place_of cursor.new ≡ known.new.last + 1 }
    ensures known { (bound : ℕ) → IsKnownLast rule.now bound known.old → IsKnownLast rule.now bound known.new }
{
    while known.end > known.last && known.end - known.last - 1 > gap {
        let middle = known.last + (known.end - known.last) / 2 + 1;
        look_from(rule, cursor, known, middle);
    }
}

/// The last kept local that is earlier than a bound, given two kept locals that follow each other and a cursor behind them. The gap between two is the guess
/// for the gap before the bound. If the guess fails, the rest is halved. The cursor is never set back, so that no period is laid out twice.
fn last_from(rule: &Rule, behind: Cursor, first: u64, second: u64, bound: u64) -> u64
    requires own { IsCursorOf rule.now behind }
    requires behind { place_of behind ≡ second + 1 }
    requires kept { is_kept rule.now second ≡ true }
    requires order { first < second }
    requires early { second < bound }
    requires bound { bound ≤ rules_end }
    ensures { IsLastKept rule.now bound result }
{
    let gap = second - first;
    let mut cursor = behind;
    let mut known = Known {
        last: second,
        end: bound,
    };
    let guess = bound.saturating_sub(gap).max(second + 1);
    look_from(rule, &mut cursor, &mut known, guess);
    halve(rule, &mut cursor, &mut known, gap);
    while let Some(next) = cursor.next(rule, Local::numbered(known.end)) {
        known.last = next.number();
        let middle = known.last + (known.end - known.last) / 2 + 1;
        look_from(rule, &mut cursor, &mut known, middle);
    }
    known.last
}

/// The last of all locals that a rule keeps before the end of the rules. What is not known is halved each time. The cursor is never set back, so
/// that under COUNT it counts on from the last known local.
pub(crate) fn last_of_all(rule: &Rule, start: u64) -> u64
    requires start { start ≡ number rule.now.start }
    requires inside { start < calendar_end }
    ensures kept { is_kept rule.now result ≡ true }
    ensures last { NoneKept rule.now (result + 1) rules_end }
    ensures bound { result < calendar_end }
{
    let end = RULES_END as u64;
    if end <= start {
        return start;
    }
    let mut cursor = Cursor::at(rule, Local::numbered(start + 1));
    let Some(second) = cursor.next(rule, Local::numbered(end)) else {
        return start;
    };
    let mut known = Known {
        last: second.number(),
        end,
    };
    while known.last + 1 < known.end {
        let middle = known.last + (known.end - known.last - 1) / 2 + 1;
        let mut probe = cursor;
        probe.pass(rule, Local::numbered(middle));
        match probe.next(rule, Local::numbered(known.end)) {
            Some(next) => {
                known.last = next.number();
                cursor = probe;
            }
            None => known.end = middle,
        }
    }
    known.last
}
