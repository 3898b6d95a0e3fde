//! The table of expansion and limits.
ghost use Rattle.std.specs.Prelude.{◌≡◌, ℕ, ◌&&◌};
ghost use Rattle.ics_period.specs.Recurrence.{Recurrence};
ghost use Rattle.ics_period.specs.Candidates.{is_candidate};
ghost use Rattle.ics_rule.specs.Kept.{is_in_rule, is_kept};
ghost use Rattle.ics_rule.specs.ByTable.{IsAllowed, is_period, period_of, is_instance, is_member, is_kept_by_table};

/// A rule that RFC 5545's table of expansion and limits allows means what the table says (3.3.10).
pub fn rules_by_table()
    ensures candidates { (r : Recurrence) → IsAllowed r → (n : ℕ) → is_candidate r n ≡ (is_period r (period_of r n) && is_instance r (period_of r n) n) }
    ensures members { (r : Recurrence) → IsAllowed r → (n : ℕ) → is_in_rule r n ≡ is_member r n }
    ensures kept { (r : Recurrence) → IsAllowed r → (n : ℕ) → is_kept r n ≡ is_kept_by_table r n }
{}
