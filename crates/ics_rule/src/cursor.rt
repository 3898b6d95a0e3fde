//! A search for the locals that a rule keeps, from a place on.
ghost use Rattle.std.specs.Prelude.{◌≡◌, ℕ, ◌<◌, ◌≤◌, ◌+◌, ◌*◌, max, true, Some, MatchOption, IfSome, nat_lt};
ghost use Rattle.ics_fields.specs.Days.{IsDayNumber, day_index};
ghost use Rattle.ics_fields.specs.RuleParts.{IsUntil};
ghost use Rattle.ics_rule.specs.Kept.{is_by_until};
ghost use Rattle.ics_period.specs.PeriodNumbers.{rules_end};
ghost use Rattle.ics_fields.specs.Locals.{calendar_end};

use crate::never::chooses_none;
use crate::rule::Rule;
use crate::search::Search;
use crate::walk::next_step;
use ics_fields::{Local, Until};
use ics_period::{Kind, RecurrencePeriod, period_of};

/// 9801-01-01T00:00:00, the end of the rules.
pub(crate) const RULES_END: u64 = 309_289_708_800;

/// The first local after a day.
fn after_day(day: i32) -> u64
    requires { IsDayNumber day }
    ensures { result ≡ (day_index day + 1) * 86400 }
{
    Local::at(day, 0).number() + 86_400
}

/// The first local after UNTIL, or after the last of the rules.
pub(crate) fn until_end(kind: Kind, until: Option<Until>) -> u64
    requires { MatchOption until (Unit {0}) IsUntil }
    ensures { (n : ℕ) → n < rules_end → is_by_until kind until n ≡ nat_lt n result }
{
    match until {
        None => RULES_END,
        Some(Until::Date(day)) => after_day(day),
        Some(Until::Local(local)) => match kind {
            Kind::Date => after_day(local.day),
            Kind::DateTime => local.number() + 1,
        },
        Some(Until::Utc(local)) => match kind {
            Kind::Date => after_day(local.day),
            Kind::DateTime => RULES_END,
        },
    }
}

/// A place among the locals of a rule, and the period that was looked at last (RFC 5545, 3.3.10). It holds at most one period and allocates no
/// memory. Each call names the rule that the cursor was made for.
#[derive(Clone, Copy)]
pub struct Cursor {
    pub(crate) place: u64,
    pub(crate) steps: u64,
    pub(crate) held: Option<RecurrencePeriod>,
    /// Under COUNT, how many candidates that BYSETPOS allows are earlier than the period held.
    pub(crate) counted: u64,
    /// Under COUNT, a kept local has fewer than this many of them before it.
    pub(crate) limit: u64,
    /// Under COUNT, nothing before this local is chosen in a period after the one held.
    pub(crate) quiet_to: u64,
}

impl Cursor {
    ghost use Rattle.ics_fields.specs.Sets.{IsLeastFrom};
    ghost use Rattle.ics_fields.specs.Locals.{number};
    ghost use Rattle.ics_period.specs.Recurrence.{Recurrence};
    ghost use Rattle.ics_period.specs.EffectiveRules.{effective};
    ghost use Rattle.ics_period.specs.Candidates.{period_in};
    ghost use Rattle.ics_rule.specs.Next.{IsNextKept, NoneKept};
    ghost use Rattle.ics_rule.specs.Calls.{IsAnswer, LooksUpTo};
    ghost use Rattle.ics_rule.specs.Cursors.{known_to, fresh, period_count, place_of, steps_of, looks_from, IsCursorOf, HasCounted, HasLooked, IsCursorIn};
    ghost use Rattle.ics_rule.specs.Cursors.{HasLookedIn};
    ghost use Rattle.ics_rule.specs.Inner.Searches.{IsNextWanted, IsSameButQuiet, IsWalked};

    /// A cursor at a local of the years 0000 to 9999, whether or not the rule keeps it. It has looked at no period.
    pub fn at(_rule: &Rule, from: Local) -> Cursor
        requires { IsDayNumber from.day }
        ensures place { place_of result ≡ number from }
        ensures steps { steps_of result ≡ 0 }
        ensures own { IsCursorOf _rule.now result }
        ensures looked { (b : ℕ) → HasLooked _rule.now result (looks_from _rule.now.parts.count (number _rule.now.start) (number from)) b }
    {
        Cursor {
            place: from.number(),
            steps: 0,
            held: None,
            counted: 0,
            limit: 0,
            quiet_to: 0,
        }
    }

    /// The next local from the place on that the rule has, but for UNTIL. It is searched for in the periods up to that of the last before `stop`.
    fn search(&mut self, rule: &Rule, start: u64, stop: u64) -> Option<u64>
        requires start { start ≡ number rule.now.start }
        requires after { start < self.old.place }
        requires place { self.old.place < stop }
        requires stop { stop ≤ rules_end }
        requires own { IsCursorIn (effective rule.now) start rule.now.parts.count self.old }
        ensures next { IsNextWanted (effective rule.now) start rule.now.parts.count self.old.place stop result }
        ensures walked { IsWalked (effective rule.now) start rule.now.parts.count stop result self.old self.new }
    {
        self.walk(&Search::of(rule, start), stop)
    }

    /// The number of the next local that the rule keeps, from the place on and earlier than `end`.
    pub(crate) fn next_number(&mut self, rule: &Rule, start: u64, end: u64) -> Option<u64>
        requires start { start ≡ number rule.now.start }
        requires end { end ≤ rules_end }
        requires own { IsCursorIn (effective rule.now) start rule.now.parts.count self.old }
        ensures next { MatchOption result
            (NoneKept rule.now self.old.place end × (self.new.place ≡ max self.old.place end))
            (λ n. IsNextKept rule.now self.old.place end n × (self.new.place ≡ n + 1)) }
        ensures own { IsCursorIn (effective rule.now) start rule.now.parts.count self.new }
        ensures rise { self.old.steps ≤ self.new.steps }
        ensures shown { MatchOption result (Unit {0}) (λ n. start < n → 1 ≤ self.new.steps) }
        ensures counts { MatchOption result (Unit {0})
            (λ n. start < n → period_in (effective rule.now) self.old.place < period_in (effective rule.now) n → self.old.steps < self.new.steps) }
        ensures looked { (a b : ℕ) → known_to result end ≤ b → HasLookedIn (effective rule.now) start rule.now.parts.count self.old a b
            → HasLookedIn (effective rule.now) start rule.now.parts.count self.new a b }
    {
        let place = self.place;
        if place <= start {
            if start < end {
                self.place = start + 1;
                return Some(start);
            }
            self.place = place.max(end);
            return None;
        }
        let stop = end.min(until_end(rule.kind, rule.given.until));
        if stop <= place {
            self.place = place.max(end);
            return None;
        }
        if let Some(n) = self.search(rule, start, stop) {
            if n < stop {
                self.place = n + 1;
                return Some(n);
            }
        }
        self.place = end;
        None
    }

    /// The next local that the rule keeps, from the cursor's place on and earlier than `before`, a bound up to 9801-01-01 (RFC 5545, 3.3.10).
    /// The place is then just after it. If there is none, the place is the bound, or stays if the bound is earlier, and a call with a later bound
    /// continues from there. An answer after the start comes from a period that was looked at, and one in a later period than the place from
    /// a new look. Without COUNT the cursor goes straight to the first period at or after its place; under COUNT it begins at the start's.
    pub fn next(&mut self, rule: &Rule, before: Local) -> Option<Local>
        requires bound { IsDayNumber before.day }
        requires early { number before ≤ rules_end }
        requires own { IsCursorOf rule.now self.old }
        ensures next { IsAnswer rule.now (number before) result self.old self.new }
        ensures day { IfSome result (λ local. IsDayNumber local.day) }
        ensures own { IsCursorOf rule.now self.new }
        ensures counted { HasCounted rule.now result self.old self.new }
        ensures looked { LooksUpTo rule.now (number before) result self.old self.new }
    {
        let n = self.next_number(rule, rule.start.number(), before.number())?;
        Some(Local::numbered(n))
    }

    /// Moves the place on to a local of the years 0000 to 9999, or leaves it where it is if it is past that. No period is looked at.
    pub fn pass(&mut self, _rule: &Rule, to: Local)
        requires day { IsDayNumber to.day }
        requires own { IsCursorOf _rule.now self.old }
        ensures place { place_of self.new ≡ max (place_of self.old) (number to) }
        ensures steps { steps_of self.new ≡ steps_of self.old }
        ensures own { IsCursorOf _rule.now self.new }
        ensures looked { (a b : ℕ) → HasLooked _rule.now self.old a b → HasLooked _rule.now self.new a b }
    {
        self.place = self.place.max(to.number());
    }

    /// Holds the period of the place, as if it had been looked at now, if another cursor of the rule holds that. The next search then need not look at
    /// it. Under COUNT nothing changes.
    pub fn hold(&mut self, rule: &Rule, other: &Cursor)
        requires own { IsCursorOf rule.now self.old }
        requires other { IsCursorOf rule.now other.now }
        ensures place { place_of self.new ≡ place_of self.old }
        ensures rise { steps_of self.old ≤ steps_of self.new }
        ensures own { IsCursorOf rule.now self.new }
        ensures looked { (a b : ℕ) → place_of self.old < b → HasLooked rule.now self.old a b → HasLooked rule.now self.new a b }
    {
        let search = Search::of(rule, rule.start.number());
        let own = period_of(search.parts, self.place);
        let Some(period) = other.held else {
            return;
        };
        if search.count.is_some() || period.number() != own || !self.looks_before(own) {
            return;
        }
        if next_step(search.first, search.parts.interval, own) != own {
            return;
        }
        self.held = Some(period);
        self.steps += 1;
        self.counted = 0;
        self.quiet_to = 0;
    }

    /// Whether each period that was looked at is earlier than the one with a number.
    fn looks_before(&self, number: u64) -> bool
        ensures { result ≡ true → fresh self.now.held ≤ number }
    {
        match &self.held {
            None => true,
            Some(period) => period.number() < number,
        }
    }

    /// A local before which the rule keeps none from the place on, as far as the parts of the rule tell and the period that was looked at last.
    /// No period is looked at. The cursor keeps what it learns, so that the next search under COUNT begins there.
    pub fn quiet(&mut self, rule: &Rule) -> Local
        requires own { IsCursorOf rule.now self.old }
        ensures none { NoneKept rule.now (place_of self.old) (number result) }
        ensures day { IsDayNumber result.day }
        ensures place { place_of self.new ≡ place_of self.old }
        ensures steps { steps_of self.new ≡ steps_of self.old }
        ensures own { IsCursorOf rule.now self.new }
        ensures looked { (a b : ℕ) → HasLooked rule.now self.old a b → HasLooked rule.now self.new a b }
    {
        Local::numbered(self.quiet_number(rule, rule.start.number()))
    }

    /// The number of that local.
    fn quiet_number(&mut self, rule: &Rule, start: u64) -> u64
        requires start { start ≡ number rule.now.start }
        requires inside { start < calendar_end }
        requires own { IsCursorIn (effective rule.now) start rule.now.parts.count self.old }
        ensures none { NoneKept rule.now self.old.place result }
        ensures inside { result < calendar_end }
        ensures kept { IsSameButQuiet self.old self.new }
        ensures own { IsCursorIn (effective rule.now) start rule.now.parts.count self.new }
    {
        if self.place <= start {
            return start;
        }
        let stop = RULES_END.min(until_end(rule.kind, rule.given.until));
        if stop <= self.place {
            return RULES_END;
        }
        let search = Search::of(rule, start);
        if self.is_counted_out(&search, self.place) {
            return RULES_END;
        }
        if chooses_none(search.parts) {
            return RULES_END;
        }
        self.next_possible(&search).min(RULES_END)
    }

    /// How many periods of the rule were looked at. They are at most those that hold a local earlier than the greatest bound so far, from the
    /// first place on, or under COUNT from the start on.
    pub fn steps(&self) -> u64
        ensures value { result ≡ steps_of self.now }
        ensures most { (r : Recurrence) (a b : ℕ) → IsCursorOf r self.now → HasLooked r self.now a b → result ≤ period_count r a b }
    {
        self.steps
    }
}
