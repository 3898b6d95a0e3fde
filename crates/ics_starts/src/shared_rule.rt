//! Rules, which searches share.
ghost use Rattle.std.specs.Prelude.{◌≡◌, IfOk};

use ics_rule::Rule;
use std::alloc::{AllocError, Global};
use std::marker::Model;
use std::rc::Rc;

/// The rule of an event, held once for all searches of it. Contracts see the rule.
#[derive(Drop)]
pub(crate) struct SharedRule {
    rule: Rc<Rule>,
}

impl Model for SharedRule {
    ghost use Rattle.ics_period.specs.Recurrence.{Recurrence};

    ghost Value = { Recurrence };

    ghost view = { λ a. a.rule.value };
}

impl SharedRule {
    /// The rule, to be shared.
    pub fn new(alloc: Global, rule: Rule) -> Result<SharedRule, AllocError>
        ensures { IfOk result (λ shared. shared ≡ rule) }
    {
        match Rc::new(alloc, rule) {
            Ok(rule) => Ok(SharedRule { rule }),
            Err(_) => Err(AllocError),
        }
    }

    /// The same rule, in the same memory.
    pub fn share(&self) -> Result<SharedRule, AllocError>
        ensures { IfOk result (λ shared. shared ≡ self.now) }
    {
        Ok(SharedRule {
            rule: self.rule.clone()?,
        })
    }

    /// The rule.
    pub fn get(&self) -> &Rule
        ensures { result.now ≡ self.now }
    {
        &self.rule
    }
}
