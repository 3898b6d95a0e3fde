//! A look at a period. Each look is counted.
ghost use Rattle.std.specs.Prelude.{◌≡◌, ◌<◌, ◌≤◌, ◌^◌};
ghost use Rattle.ics_period.specs.PeriodNumbers.{rules_end};
ghost use Rattle.ics_period.specs.Candidates.{period_in};
ghost use Rattle.jiff_core.specs.Weekday.{monday_zero};
ghost use Rattle.ics_period.specs.declared.recurrence_period.RecurrencePeriod.{RecurrencePeriod};
ghost use Rattle.ics_period.specs.RecurrencePeriods.{first_local, IsPeriodOf};

use crate::cursor::Cursor;
use ics_period::{EffectiveRule, RecurrencePeriod};

impl Cursor {
    ghost use Rattle.ics_rule.specs.Inner.Searches.{after_look};

    /// Looks at the period with a number that no earlier look has reached, and counts the look. The period is held. No other function makes one.
    pub(crate) fn look_at(&mut self, parts: &EffectiveRule, number: u64, counted: u64)
        requires low { period_in parts.now 0 ≤ number }
        requires reach { first_local parts.now.frequency (monday_zero parts.now.week_start) number ≤ rules_end }
        requires room { self.old.steps < 2 ^ 63 }
        ensures { (p : RecurrencePeriod) × ((self.new ≡ after_look self.old p counted) × (IsPeriodOf parts.now p × (p.number ≡ number))) }
    {
        self.held = Some(RecurrencePeriod::new(parts, number));
        self.steps += 1;
        self.counted = counted;
        self.quiet_to = 0;
    }
}
