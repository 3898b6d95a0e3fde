//! The plain reading of a rule.
ghost use Rattle.std.specs.Prelude.{◌≡◌, ℕ, ◌<◌};
ghost use Rattle.ics_period.specs.Recurrence.{Recurrence};
ghost use Rattle.ics_period.specs.PeriodNumbers.{rules_end};
ghost use Rattle.ics_rule.specs.Kept.{is_kept};
ghost use Rattle.ics_rule.specs.PlainReading.{HasPlainReading, is_plainly_kept};

/// If DTSTART fits its rule (RFC 5545, 3.3.10), the rule is a filter on the locals from DTSTART on, as the documentation of
/// python-dateutil says.
pub fn plain_reading()
    ensures { (r : Recurrence) → HasPlainReading r → (n : ℕ) → n < rules_end → is_kept r n ≡ is_plainly_kept r n }
{}
