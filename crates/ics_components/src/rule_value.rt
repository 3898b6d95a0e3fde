//! What an RRULE says (RFC 5545, section 3.8.5.3).
ghost use Rattle.ics_values.specs.Rules.{rule_of};
ghost use Rattle.ics_components.specs.Faults.{Rule};
ghost use Rattle.ics_components.specs.Lines.{Gives, misread, unfit};
ghost use Rattle.ics_components.specs.Values.{rule_in};
ghost use Rattle.ics_components.specs.Observances.{daily_in};

use crate::fault::FaultKind;
use crate::refused::Refused;
use ics_values::{KeptRule, read_rule};
use std::alloc::Global;

/// The rule that the value of an RRULE says.
pub fn rule_in(alloc: Global, value: &[u8]) -> Result<KeptRule, Refused>
    ensures { Gives result (misread (Rule (rule_of value.now))) (rule_in (rule_of value.now)) }
{
    let parts = read_rule(value)?;
    Ok(KeptRule::new(alloc, parts)?)
}

/// The same of an observance, which begins at most daily. Its value is kept, so that observances can be compared.
pub fn daily_in(alloc: Global, value: &[u8]) -> Result<KeptRule, Refused>
    ensures { Gives result (unfit (Rule (rule_of value.now))) (daily_in (rule_of value.now)) }
{
    let parts = read_rule(value)?;
    if parts.frequency.is_finer_than_daily() {
        return Err(Refused::Fault(FaultKind::ZoneRule));
    }
    Ok(KeptRule::with_value(alloc, parts, value)?)
}
