//! A cursor whose place is known.
ghost use Rattle.std.specs.Prelude.{◌≡◌, ◌<◌, ◌≤◌, ℕ};
ghost use Rattle.ics_fields.specs.Locals.{calendar_end};
ghost use Rattle.ics_period.specs.PeriodNumbers.{rules_end};
ghost use Rattle.ics_rule.specs.Cursors.{place_of, HasLooked, IsCursorOf};
ghost use Rattle.ics_starts.specs.Inner.Finds.{IsStep};

use ics_rule::{Cursor, Rule};
use ics_values::Local;

/// A cursor of a rule and the number of its place.
#[derive(Clone, Copy)]
pub(crate) struct PlacedCursor {
    pub(crate) cursor: Cursor,
    pub(crate) place: u64,
    pub(crate) ghost placed: { place ≡ place_of cursor },
}

impl PlacedCursor {
    /// Moves the place on to a local, given by its number.
    pub(crate) fn pass(&mut self, rule: &Rule, to: u64)
        requires inside { to < calendar_end }
        requires later { self.old.place ≤ to }
        requires own { IsCursorOf rule.now self.old.cursor }
        ensures place { self.new.place ≡ to }
        ensures own { IsCursorOf rule.now self.new.cursor }
        ensures looked { (a b : ℕ) → HasLooked rule.now self.old.cursor a b → HasLooked rule.now self.new.cursor a b }
    {
        self.cursor.pass(rule, Local::numbered(to));
        self.place = to;
    }

    /// Holds the period of the place, if another cursor of the rule holds that.
    pub(crate) fn hold(&mut self, rule: &Rule, other: &Cursor)
        requires own { IsCursorOf rule.now self.old.cursor }
        requires other { IsCursorOf rule.now other.now }
        ensures place { self.new.place ≡ self.old.place }
        ensures own { IsCursorOf rule.now self.new.cursor }
        ensures looked { (a b : ℕ) → self.old.place < b → HasLooked rule.now self.old.cursor a b → HasLooked rule.now self.new.cursor a b }
    {
        self.cursor.hold(rule, other);
    }

    /// The next local that a rule keeps, from the place on and before another, which is later and is given by its number.
    pub(crate) fn next(&mut self, rule: &Rule, end: u64) -> Option<Local>
        requires early { end ≤ rules_end }
        requires more { self.old.place < end }
        requires own { IsCursorOf rule.now self.old.cursor }
        ensures step { IsStep rule.now end result self.old.cursor self.new.cursor }
    {
        let local = self.cursor.next(rule, Local::numbered(end));
        self.place = match local {
            None => end,
            Some(local) => local.number() + 1,
        };
        local
    }
}
