//! A STANDARD or DAYLIGHT part of a VTIMEZONE (RFC 5545, section 3.6.5).
ghost use Rattle.std.specs.Prelude.{◌≡◌, true, IfOk};

use crate::kept_rule::KeptRule;
use ics_fields::Local;
use std::alloc::{AllocError, Global};
use std::marker::Model;

/// A STANDARD or DAYLIGHT part of a VTIMEZONE (RFC 5545, section 3.6.5), from its lines to its zone: the offsets before and after each of its
/// onsets, in seconds, and the locals at which it begins, as the clock before it shows them.
#[derive(Drop)]
pub struct Observance {
    /// DTSTART.
    pub start: Local,
    /// TZOFFSETFROM.
    pub offset_from: i32,
    /// TZOFFSETTO.
    pub offset_to: i32,
    /// RRULE.
    pub rule: Option<KeptRule>,
    /// The values of RDATE.
    pub rdates: Vec<Local>,
}

impl Model for Observance {
    ghost use Rattle.ics_fields.specs.Observances.{ObservanceSaid};

    ghost Value = { ObservanceSaid };

    ghost view = { λ a. record { start = a.start; offset_from = a.offset_from; offset_to = a.offset_to; rule = a.rule; rdates = a.rdates.items } };
}

impl Observance {
    /// The same observance, in other memory.
    pub fn copied(&self, alloc: Global) -> Result<Observance, AllocError>
        ensures { IfOk result (λ copy. copy ≡ self.now) }
    {
        let rule = match &self.rule {
            Some(rule) => Some(rule.copied(alloc)?),
            None => None,
        };
        let rdates = Vec::from_slice(alloc, &self.rdates)?;
        Ok(Observance {
            start: self.start,
            offset_from: self.offset_from,
            offset_to: self.offset_to,
            rule,
            rdates,
        })
    }

    /// Whether another is the same.
    fn is_same(&self, other: &Observance) -> bool
        ensures { result ≡ true → self.now ≡ other.now }
    {
        if self.offset_from != other.offset_from || self.offset_to != other.offset_to {
            return false;
        }
        is_same_local(self.start, other.start)
            && is_same_rule(&self.rule, &other.rule)
            && are_same_locals(&self.rdates, &other.rdates)
    }
}

/// Whether these observances are the same. The answer may be no of rules that are the same in other words.
pub fn are_same_observances(observances: &[Observance], others: &[Observance]) -> bool
    ensures { result ≡ true → observances.now ≡ others.now }
{
    if observances.len() != others.len() {
        return false;
    }
    for k in 0..observances.len() {
        if !observances[k].is_same(&others[k]) {
            return false;
        }
    }
    true
}

/// Whether two locals are the same.
fn is_same_local(local: Local, other: Local) -> bool
    ensures { result ≡ true → local ≡ other }
{
    local.day == other.day && local.second == other.second
}

/// Whether the same locals are listed, in the same order.
fn are_same_locals(locals: &[Local], others: &[Local]) -> bool
    ensures { result ≡ true → locals.now ≡ others.now }
{
    if locals.len() != others.len() {
        return false;
    }
    for k in 0..locals.len() {
        if !is_same_local(locals[k], others[k]) {
            return false;
        }
    }
    true
}

/// Whether there is no rule on both sides, or the same text of a rule.
fn is_same_rule(rule: &Option<KeptRule>, other: &Option<KeptRule>) -> bool
    ensures { result ≡ true → rule.now ≡ other.now }
{
    match (rule, other) {
        (None, None) => true,
        (Some(rule), Some(other)) => rule.is_same(other),
        _ => false,
    }
}
