//! What the definitions mean, in other words.
ghost use Rattle.std.specs.Prelude.{◌≡◌, ℕ, suc, ◌+◌, ◌-◌, ◌/◌, ◌<◌, ◌≤◌, ◌&&◌, nat_lt, min, Some, None, true, false, pos, ℤ, ◌||◌, ◌==◌};
ghost use Rattle.jiff_core.specs.Calendar.{days_in_month, days_in_year};
ghost use Rattle.ics_fields.specs.Days.{year_of, year_day_of, month_of, month_day_of};
ghost use Rattle.ics_period.specs.Recurrence.{Recurrence};
ghost use Rattle.ics_rule.specs.Calls.{FewSteps};
ghost use Rattle.ics_period.specs.PeriodNumbers.{rules_end};
ghost use Rattle.ics_fields.specs.Locals.{number};
ghost use Rattle.ics_period.specs.Ranks.{count};
ghost use Rattle.ics_rule.specs.Kept.{is_in_rule, is_kept, until_moment};
ghost use Rattle.ics_rule.specs.UntilBounds.{is_bounded, without_until};
ghost use Rattle.ics_rule.specs.CountBounds.{without_count};
ghost use Rattle.ics_rule.specs.PlainReading.{in_year, in_month, with_weekday};

/// The start is kept, and nothing earlier is. What is kept is in the rule. Under COUNT at most that many are kept (RFC 5545, 3.3.10 and 3.8.5.3).
pub fn kept_locals()
    ensures start { (r : Recurrence) → is_kept r (number r.start) ≡ true }
    ensures least { (r : Recurrence) (n : ℕ) → n < number r.start → is_kept r n ≡ false }
    ensures members { (r : Recurrence) (n : ℕ) → is_kept r n ≡ true → is_in_rule r n ≡ true }
    ensures count { (r : Recurrence) (c n : ℕ) → r.parts.count ≡ Some c → 1 ≤ c → count n (is_kept r) ≤ c }
{}

/// COUNT c without UNTIL keeps, below the end of the rules, the first c of the rule, not only at most c (RFC 5545, 3.3.10): a local is kept
/// exactly if it is in the rule and fewer than c of the rule are earlier. Of the members below any bound as many are kept, up to c.
pub fn first_of_count()
    ensures kept { (r : Recurrence) (c : ℕ) → r.parts.count ≡ Some c → 1 ≤ c → r.parts.until ≡ None
        → (n : ℕ) → n < rules_end → is_kept r n ≡ (is_in_rule r n && nat_lt (count n (is_in_rule r)) c) }
    ensures number { (r : Recurrence) (c : ℕ) → r.parts.count ≡ Some c → 1 ≤ c → r.parts.until ≡ None
        → (n : ℕ) → n ≤ rules_end → count n (is_kept r) ≡ min (count n (is_in_rule r)) c }
{}

/// UNTIL bounds a rule in an inclusive manner (RFC 5545, 3.3.10): the start is kept, and of the other locals that the rule without UNTIL keeps those
/// up to the last that UNTIL allows, itself included. An UNTIL that bounds instants leaves out no local.
pub fn bounded_by_until()
    ensures kept { (r : Recurrence) (n : ℕ) → is_kept r n ≡ (n == number r.start || (is_kept (without_until r) n && is_bounded r n)) }
    ensures instants { (r : Recurrence) (t : ℤ) → until_moment r ≡ Some t → (n : ℕ) → is_kept r n ≡ is_kept (without_until r) n }
{}

/// COUNT ends a rule and changes nothing before its end (RFC 5545, 3.3.10): up to each local that the rule keeps, the rule without COUNT keeps
/// the same.
pub fn ended_by_count()
    ensures { (r : Recurrence) (n m : ℕ) → n ≤ m → is_kept r m ≡ true → is_kept r n ≡ is_kept (without_count r) n }
{}

/// After any calls of `next` a cursor has looked at no more periods of its rule than hold a local earlier than the greatest bound, from its
/// first place on, or under COUNT from the start on.
pub fn few_steps()
    ensures { FewSteps }
{}

/// The number of a weekday in BYDAY is its place by counting (RFC 5545, 3.3.10): how many days of its month, or year, up to it have its weekday;
/// and from the end, how many from it on. Days past the month or year are counted too, and do not pass.
pub fn numbered_weekdays()
    ensures month { (e : ℕ) → count (suc e) (with_weekday in_month e) ≡ (month_day_of e - 1) / 7 + 1 }
    ensures month_end { (e end : ℕ) → e + 31 ≤ end → count end (with_weekday in_month e) - count e (with_weekday in_month e)
        ≡ (days_in_month (pos (year_of e)) (month_of e) - month_day_of e) / 7 + 1 }
    ensures year { (e : ℕ) → count (suc e) (with_weekday in_year e) ≡ (year_day_of e - 1) / 7 + 1 }
    ensures year_end { (e end : ℕ) → e + 366 ≤ end → count end (with_weekday in_year e) - count e (with_weekday in_year e)
        ≡ (days_in_year (pos (year_of e)) - year_day_of e) / 7 + 1 }
{}
