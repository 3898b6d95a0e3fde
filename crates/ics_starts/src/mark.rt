//! Where the search of a rule began, so that a later search need not count again under COUNT.
ghost use Rattle.std.specs.Prelude.{◌≡◌, ◌≤◌, ◌==◌, ◌&&◌, int_lt, nat_le, true, MatchOption, Some};
ghost use Rattle.std.specs.Int.{int_min};
ghost use Rattle.std.specs.Option.{is_some};
ghost use Rattle.ics_fields.specs.Days.{IsDayNumber};
ghost use Rattle.ics_fields.specs.Locals.{number};
ghost use Rattle.ics_period.specs.PeriodNumbers.{rules_end};
ghost use Rattle.ics_period.specs.Recurrence.{Recurrence};
ghost use Rattle.ics_starts.specs.RuleMarks.{IsBegun, IsCountMark};
ghost use Rattle.ics_starts.specs.RuleStarts.{midnight_number, HasLookedTo};
ghost use Rattle.ics_starts.specs.Starts.{recurrence_of};

use ics_event::Event;
use ics_fields::EPOCH_DAY;
use ics_rule::{Cursor, Rule};
use ics_values::Local;

/// The cursor of a rule, as it was when a search for the rule's starts began at a local.
#[derive(Clone, Copy)]
pub struct Mark {
    pub(crate) from: Local,
    pub(crate) cursor: Cursor,
}

impl Mark {
    /// The cursor, moved on to a midnight. Of the locals before it only those of the last minute are read, so that those before are counted
    /// by whole periods.
    fn moved_to(&self, rule: &Rule, from: Local) -> Cursor
        requires mark { IsCountMark rule.now self.now }
        requires day { IsDayNumber from.day }
        requires midnight { from.second ≡ 0 }
        requires later { number self.now.from ≤ number from }
        requires early { number from ≤ rules_end }
        ensures { IsBegun rule.now from result }
    {
        let mut cursor = self.cursor;
        cursor.pass(rule, Local::numbered(from.number().saturating_sub(60)));
        loop {
            match cursor.next(rule, from) {
                None => return cursor,
                Some(_) => {}
            }
        }
    }
}

/// Whether the rule of an event has COUNT.
pub(crate) fn is_counted(event: &Event) -> bool
    ensures { (rule : Recurrence) → recurrence_of event.now ≡ Some rule → result ≡ is_some rule.parts.count }
{
    match &event.rule {
        None => false,
        Some(rule) => rule.parts().count.is_some(),
    }
}

/// A mark of a rule, if that has COUNT. Without it a search begins anywhere at once.
pub(crate) fn counted(counts: bool, mark: Option<&Mark>) -> Option<&Mark>
    ensures { MatchOption result (Unit {0}) (λ m. (mark.entry ≡ Some m) × (counts ≡ true)) }
{
    if counts { mark } else { None }
}

/// The day number of 0000-01-01.
const FIRST_DAY: i32 = -EPOCH_DAY;

/// The mark or, if there is none and what is before a local is to be counted at once, one at the midnight before the local's day. A search at the
/// local that goes on from there has counted what is before it, and so has each that goes on from the mark of that search.
pub(crate) fn begun_before(
    rule: &Rule,
    at_once: bool,
    from: Local,
    mark: Option<&Mark>,
) -> Option<Mark>
    requires from { IsDayNumber from.day }
    requires counts { at_once ≡ true → is_some rule.now.parts.count ≡ true }
    requires mark { MatchOption mark (Unit {0}) (λ m. IsCountMark rule.now m.now) }
    ensures { MatchOption result (Unit {0}) (IsCountMark rule.now) }
{
    if let Some(mark) = mark {
        return Some(*mark);
    }
    if !at_once || from.day <= FIRST_DAY {
        return None;
    }
    let from = Local::at(from.day - 1, 0);
    let cursor = Cursor::at(rule, from);
    Some(Mark { from, cursor })
}

/// Sets a cursor to that of a rule at a local, where its search up to the midnight of day `end` begins. It goes on
/// from a mark that is not later.
pub(crate) fn begin(cursor: &mut Cursor, rule: &Rule, from: Local, end: i32, mark: Option<&Mark>)
    requires from { IsDayNumber from.day }
    requires end { IsDayNumber end }
    requires early { midnight_number end ≤ rules_end }
    requires mark { MatchOption mark (Unit {0}) (λ m. IsCountMark rule.now m.now) }
    ensures begun { IsBegun rule.now from cursor.new }
    ensures looked { HasLookedTo rule.now from (int_min from.day end) cursor.new }
{
    match mark {
        Some(mark) if is_passed(mark.from, from, end) => *cursor = mark.moved_to(rule, from),
        _ => *cursor = Cursor::at(rule, from),
    }
}

/// Whether a local is a midnight before that of a day, and not before another local.
fn is_passed(before: Local, local: Local, end: i32) -> bool
    requires before { IsDayNumber before.day }
    requires local { IsDayNumber local.day }
    ensures { result ≡ ((local.second == 0) && (int_lt local.day end && nat_le (number before) (number local))) }
{
    local.second == 0 && local.day < end && before.number() <= local.number()
}
