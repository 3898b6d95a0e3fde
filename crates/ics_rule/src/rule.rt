//! A rule with the event's start and kind.
ghost use Rattle.std.specs.Prelude.{◌≡◌, ◌<◌};
ghost use Rattle.ics_fields.specs.Days.{IsDayNumber};

use crate::given::Given;
use ics_fields::{Local, Moment, Parts, Until};
use ics_period::{EffectiveRule, Kind, fill, in_step, lets_clock, lets_date, period_of};
use std::marker::Model;

/// A recurrence rule, with the start and the kind of its event (RFC 5545, 3.3.10). What the rule leaves out is taken from the start.
#[derive(Clone, Copy)]
pub struct Rule {
    pub(crate) whole: EffectiveRule,
    pub(crate) given: Given,
    pub(crate) start: Local,
    pub(crate) kind: Kind,
    /// The number of the period of the start.
    pub(crate) first: u64,
}

impl Model for Rule {
    ghost use Rattle.ics_period.specs.Recurrence.{Recurrence};

    ghost Value = { Recurrence };

    ghost use Rattle.std.specs.Prelude.{◌≡◌, ◌<◌, ◌≤◌, ◌^◌, MatchOption};
    ghost use Rattle.std.proofs.Common.{◌∙◌, ap, sym};
    ghost use Rattle.ics_fields.specs.Days.{IsDayNumber};
    ghost use Rattle.ics_fields.specs.Locals.{number};
    ghost use Rattle.ics_fields.specs.RuleParts.{IsUntil};
    ghost use Rattle.ics_period.specs.Candidates.{period_in};
    ghost use Rattle.ics_period.specs.EffectiveRules.{effective};
    ghost use Rattle.ics_rule.specs.Inner.Given.{given_of, parts_of};

    ghost view = { λ r. record { parts = parts_of r.whole r.given; start = r.start; kind = r.kind } };

    ghost invariant = { λ r. (r.whole ≡ effective (record { parts = parts_of r.whole r.given; start = r.start; kind = r.kind }))
        × (IsDayNumber r.start.day × (1 ≤ r.whole.interval) × MatchOption r.given.count (Unit {0}) (λ n. 1 ≤ n)
        × MatchOption r.given.until (Unit {0}) IsUntil × (r.given ≡ given_of (parts_of r.whole r.given))
        × (r.first ≡ period_in r.whole (number r.start)) × (r.first < 2 ^ 40)) };

    ghost inverse = { λ v. record {
      whole = effective v;
      given = given_of v.parts;
      start = v.start;
      kind = v.kind;
      first = period_in (effective v) (number v.start);
    } };

    ghost inverse_ok = { λ r h i. record {
      whole = sym h.0 i;
      given = sym h.1.4 i;
      start = r.start;
      kind = r.kind;
      first = sym (h.1.5 ∙ ap (λ q. period_in q (number r.start)) h.0) i;
    } };
}

impl Rule {
    ghost use Rattle.ics_fields.specs.Locals.{number, year_number};
    ghost use Rattle.ics_period.specs.Candidates.{is_candidate};
    ghost use Rattle.ics_rule.specs.Kept.{until_moment};

    /// The rule of an event that starts at a local of the years 0000 to 9999. What the rule leaves out is taken from the start
    /// (RFC 5545, 3.3.10).
    pub fn new(parts: Parts, start: Local, kind: Kind) -> Rule
        requires { IsDayNumber start.day }
        ensures { result ≡ record { parts = parts; start = start; kind = kind } }
    {
        let number = start.number();
        let whole = fill(&parts, kind, number);
        let given = Given::of(&parts);
        let first = period_of(&whole, number);
        Rule {
            whole,
            given,
            start,
            kind,
            first,
        }
    }

    /// Whether each part of the rule but BYSETPOS, COUNT and UNTIL allows a local of the years 0000 to 9998 (RFC 5545, 3.3.10). The start is
    /// kept even if this is false.
    pub fn admits(&self, local: Local) -> bool
        requires day { IsDayNumber local.day }
        requires before_9999 { number local < year_number 9_999 }
        ensures { result ≡ is_candidate self.now (number local) }
    {
        let n = local.number();
        let in_step = in_step(&self.whole, self.start.number(), n);
        let date = lets_date(&self.whole, (n / 86_400) as u32);
        let clock = lets_clock(&self.whole, (n % 86_400) as u32);
        in_step & date & clock
    }

    #[tactic(auto, unfolding(crate::specs::Kept::until_moment))]
    /// UNTIL in seconds since 1970-01-01T00:00:00 UTC, if it is in UTC and the event has date-times (RFC 5545, 3.3.10). It bounds instants,
    /// itself included, and not locals.
    pub fn until_moment(&self) -> Option<Moment>
        ensures { result ≡ until_moment self.now }
    {
        match self.kind {
            Kind::Date => None,
            Kind::DateTime => match self.given.until {
                Some(Until::Utc(local)) => Some(local.seconds()),
                _ => None,
            },
        }
    }
}
