//! Filling a slice with the locals of a rule.
ghost use Rattle.std.specs.Prelude.{◌≡◌, ◌≤◌, ◌<◌, ◌+◌, ◌+ℤ◌, ◌≤ℤ◌, pos, ℕ, false, MatchOption, IfSome};
ghost use Rattle.ics_fields.specs.Days.{IsDayNumber};
ghost use Rattle.ics_fields.specs.Locals.{number};
ghost use Rattle.ics_rule.specs.Cursors.{IsCursorOf, place_of};
ghost use Rattle.ics_rule.specs.Kept.{until_moment};
ghost use Rattle.ics_period.specs.PeriodNumbers.{rules_end};
ghost use Rattle.khal_list_c.specs.Clocks.{clock_said};
ghost use Rattle.khal_list_c.specs.Times.{Fills, IsNextOf, NoneOf, is_by_instant, is_instance};

use crate::clock::Clock;
use crate::rules::Said;
use ics_rule::Cursor;
use ics_values::{Local, Moment};

/// 9801-01-01T00:00:00, the end of the rules.
pub const RULES_END: u64 = 309_289_708_800;

/// The seconds from 0000-01-01 to 1970-01-01, and those of two days.
const EPOCH_AND_TWO_DAYS: i64 = 62_167_392_000;

/// A number from which on no local of the rules is less than two days after this instant's seconds.
fn past(until: Moment) -> u64
    ensures { (n : ℕ) → result ≤ n → n < rules_end → (until +ℤ pos 62_167_392_000) ≤ℤ pos n }
{
    u64::try_from(until.saturating_add(EPOCH_AND_TWO_DAYS)).unwrap_or(0)
}

/// A local from which on an UNTIL in UTC allows no instant: a local and its instant are less than two days apart.
#[tactic(auto, using(crate::proofs::Instances::past_utc, crate::proofs::Instances::past_zone))]
fn end_by(clock: &Clock, until: Option<Moment>) -> u64
    ensures { (n : ℕ) → result ≤ n → n < rules_end → is_by_instant until (clock_said clock.now) n ≡ false }
{
    let Some(until) = until else {
        return RULES_END;
    };
    match clock {
        Clock::Unknown => RULES_END,
        Clock::Utc | Clock::InZone(_) => past(until),
    }
}

/// A bound up to `before`: no local from it on and before `before` is an instance.
fn end_of(said: &Said, clock: &Clock, until: Option<Moment>, before: u64) -> u64
    requires start { said.now.start ≡ said.now.rule.start }
    requires day { IsDayNumber said.now.start.day }
    requires until { until ≡ until_moment said.now.rule }
    requires before { before ≤ rules_end }
    ensures early { result ≤ before }
    ensures none { NoneOf (is_instance said.now.rule (clock_said clock.now)) result before }
{
    before.min(end_by(clock, until).max(said.start.number() + 1))
}

/// The next instance of a rule from a cursor's place on and earlier than `before`, whereupon the place is just after it.
fn next_instance(
    cursor: &mut Cursor,
    said: &Said,
    clock: &Clock,
    until: Option<Moment>,
    before: Local,
) -> Option<Local>
    requires start { said.now.start ≡ said.now.rule.start }
    requires day { IsDayNumber said.now.start.day }
    requires until { until ≡ until_moment said.now.rule }
    requires bound { IsDayNumber before.day }
    requires early { number before ≤ rules_end }
    requires own { IsCursorOf said.now.rule cursor.old }
    ensures next { MatchOption result
        (NoneOf (is_instance said.now.rule (clock_said clock.now)) (place_of cursor.old) (number before))
        (λ local. IsNextOf (is_instance said.now.rule (clock_said clock.now)) (place_of cursor.old) (number before) (number local)
        × (place_of cursor.new ≡ number local + 1)) }
    ensures day { IfSome result (λ local. IsDayNumber local.day) }
    ensures own { IsCursorOf said.now.rule cursor.new }
{
    let start = said.start.number();
    // Each answer is later than the one before, so that there are not so many before a bound.
    for _count in 0..u64::MAX {
        let Some(local) = cursor.next(&said.rule, before) else {
            return None;
        };
        if local.number() == start || clock.allows(until, local) {
            return Some(local);
        }
    }
    None
}

/// Writes the instances of a rule by a clock from one local on and before another, as many as there is room for, and says how many these are.
pub fn fill(said: &Said, clock: &Clock, from: u64, before: u64, times: &mut [u64]) -> usize
    requires start { said.now.start ≡ said.now.rule.start }
    requires day { IsDayNumber said.now.start.day }
    requires from { from ≤ rules_end }
    requires before { before ≤ rules_end }
    ensures { Fills (is_instance said.now.rule (clock_said clock.now)) from before times.new result }
{
    let until = said.rule.until_moment();
    let end = Local::numbered(end_of(said, clock, until, before));
    let mut cursor = Cursor::at(&said.rule, Local::numbered(from));
    for i in 0..times.len() {
        match next_instance(&mut cursor, said, clock, until, end) {
            Some(local) => times[i] = local.number(),
            None => return i,
        }
    }
    times.len()
}
