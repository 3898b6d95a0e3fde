//! Recurrence rules as they are kept (RFC 5545, section 3.8.5.3).
ghost use Rattle.std.specs.Prelude.{◌≡◌, IfOk, Ok, true};
ghost use Rattle.ics_values.specs.Rules.{rule_of};

use crate::text_value::Text;
use ics_fields::Parts;
use std::alloc::{AllocError, Global};
use std::marker::Model;

/// The parts of a rule, and the value of the RRULE that says it, if that is kept.
#[derive(Drop)]
pub(crate) struct SaidRule {
    pub parts: Parts,
    pub value: Option<Text>,
}

/// A recurrence rule, from the line that gives it on. It has a place of its own in memory: a rule takes more room than the rest of what has one, and
/// few events have one. Contracts see its parts.
#[derive(Drop)]
pub struct KeptRule {
    said: Box<SaidRule>,
}

impl Model for KeptRule {
    ghost use Rattle.std.specs.Prelude.{◌≡◌, IfSome, Ok};
    ghost use Rattle.ics_fields.specs.RuleParts.{RuleParts};
    ghost use Rattle.ics_values.specs.Rules.{rule_of};

    ghost Value = { RuleParts };

    ghost view = { λ a. a.said.value.parts };

    ghost invariant = { λ a. IfSome a.said.value.value (λ value. rule_of value ≡ Ok a.said.value.parts) };
}

impl KeptRule {
    /// A rule of these parts.
    pub fn new(alloc: Global, parts: Parts) -> Result<KeptRule, AllocError>
        ensures { IfOk result (λ rule. rule ≡ parts) }
    {
        let said = Box::new(alloc, SaidRule { parts, value: None })?;
        Ok(KeptRule { said })
    }

    /// The same, with the value that says it.
    pub fn with_value(alloc: Global, parts: Parts, value: &[u8]) -> Result<KeptRule, AllocError>
        requires { rule_of value.now ≡ Ok parts }
        ensures { IfOk result (λ rule. rule ≡ parts) }
    {
        let value = Some(Text::of(Vec::from_slice(alloc, value)?));
        let said = Box::new(alloc, SaidRule { parts, value })?;
        Ok(KeptRule { said })
    }

    /// The same rule, in other memory.
    pub fn copied(&self, alloc: Global) -> Result<KeptRule, AllocError>
        ensures { IfOk result (λ copy. copy ≡ self.now) }
    {
        match &self.said.value {
            Some(value) => KeptRule::with_value(alloc, self.said.parts, value.as_slice()),
            None => KeptRule::new(alloc, self.said.parts),
        }
    }

    /// The parts of the rule.
    pub fn parts(&self) -> &Parts
        ensures { result.now ≡ self.now }
    {
        &self.said.parts
    }

    /// Whether it is known that the same value says both. Then the rules are the same.
    pub fn is_same(&self, other: &KeptRule) -> bool
        ensures { result ≡ true → self.now ≡ other.now }
    {
        match (&self.said.value, &other.said.value) {
            (Some(value), Some(other)) => value == other,
            _ => false,
        }
    }
}
