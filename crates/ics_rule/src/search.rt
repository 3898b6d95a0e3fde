//! A search of a rule.
ghost use Rattle.std.specs.Prelude.{◌≡◌, ◌<◌, ◌≤◌, ◌^◌};
ghost use Rattle.std.specs.Option.{ForSome};
ghost use Rattle.ics_fields.specs.Locals.{calendar_end, number};
ghost use Rattle.ics_period.specs.Candidates.{period_in};
ghost use Rattle.ics_period.specs.EffectiveRules.{effective};

use crate::rule::Rule;
use ics_period::EffectiveRule;

/// What a search goes by: the parts of a rule, COUNT, the start, and the period of the start, from which INTERVAL counts.
#[derive(Clone, Copy)]
pub(crate) struct Search<'a> {
    pub(crate) parts: &'a EffectiveRule,
    pub(crate) count: Option<u32>,
    pub(crate) start: u64,
    pub(crate) first: u64,
    pub(crate) ghost interval: { 1 ≤ parts.now.interval },
    pub(crate) ghost some: { ForSome count (λ c. 1 ≤ c) },
    pub(crate) ghost inside: { start < calendar_end },
    pub(crate) ghost of_start: { first ≡ period_in parts.now start },
    pub(crate) ghost small: { first < 2 ^ 40 },
}

impl Search<'_> {
    /// What a search of a rule goes by, whose start has a number.
    pub(crate) fn of(rule: &Rule, start: u64) -> Search<'_>
        requires start { start ≡ number rule.now.start }
        requires inside { start < calendar_end }
        ensures parts { result.parts.now ≡ effective rule.now }
        ensures count { result.count ≡ rule.now.parts.count }
        ensures start { result.start ≡ start }
    {
        Search {
            parts: &rule.whole,
            count: rule.given.count,
            start,
            first: rule.first,
        }
    }
}
