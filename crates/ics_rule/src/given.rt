//! What a rule was given, where the parts that it searches by do not tell it.
ghost use Rattle.std.specs.Prelude.{◌≡◌, ◌≤◌, ℕ, MatchOption};
ghost use Rattle.ics_fields.specs.RuleParts.{IsUntil};
ghost use Rattle.ics_period.specs.EffectiveRules.{effective_at};
ghost use Rattle.ics_period.specs.declared.kind.Kind.{Kind};

use ics_fields::{BitSet, Parts, Until};
use ics_period::{takes_month, takes_month_day, takes_weekday};

/// COUNT, UNTIL, the parts of the time as they were given, and which parts of the date were absent and are taken from the start of the event. The
/// parts that a rule searches by tell the rest.
#[derive(Clone, Copy)]
pub struct Given {
    pub(crate) seconds: BitSet,
    pub(crate) minutes: BitSet,
    pub(crate) hours: BitSet,
    pub(crate) count: Option<u32>,
    pub(crate) until: Option<Until>,
    /// Whether BYMONTH is taken from the start.
    pub(crate) month: bool,
    /// Whether BYMONTHDAY is.
    pub(crate) month_day: bool,
    /// Whether BYDAY is.
    pub(crate) weekday: bool,
}

impl Given {
    ghost use Rattle.ics_rule.specs.Inner.Given.{given_of, parts_of};

    /// What is kept of parts beside those that a rule searches by. The two together give the parts back.
    pub(crate) fn of(parts: &Parts) -> Given
        ensures value { result ≡ given_of parts.now }
        ensures count { MatchOption result.count (Unit {0}) (λ n. 1 ≤ n) }
        ensures until { MatchOption result.until (Unit {0}) IsUntil }
        ensures back { (kind : Kind) (n : ℕ) → parts_of (effective_at parts.now kind n) result ≡ parts.now }
    {
        Given {
            seconds: parts.seconds,
            minutes: parts.minutes,
            hours: parts.hours,
            count: parts.count,
            until: parts.until,
            month: takes_month(parts),
            month_day: takes_month_day(parts),
            weekday: takes_weekday(parts),
        }
    }
}
