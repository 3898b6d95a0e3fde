//! The days of a year that are in listed weeks.
ghost use Rattle.std.specs.Prelude.{◌≡◌, ℕ, ◌<◌, ◌≤◌, ◌+◌, ◌&&◌, ◌||◌, nat_le, nat_lt, pos, true, false};
ghost use Rattle.jiff_core.specs.Calendar.{days_in_year};
ghost use Rattle.ics_fields.specs.Sets.{contains, contains_wide};
ghost use Rattle.ics_fields.specs.Days.{days_before_year, year_of};
ghost use Rattle.ics_period.specs.PeriodNumbers.{day_before};
ghost use Rattle.ics_fields.specs.Ordinals.{lists_none};
ghost use Rattle.ics_period.specs.Candidates.{lets_week};
ghost use Rattle.ics_period.specs.Runs.{may_list_week};

use crate::days::weekday_at;
use crate::effective_rule::EffectiveRule;
use ics_fields::{BitSet, Ordinals, WideBitSet};

/// Adds the days from `low` on and before `end`.
pub(crate) fn add_between(days: &mut WideBitSet, low: u16, end: u16)
    requires { end ≤ 384 }
    ensures { (m : ℕ) → contains_wide days.new m ≡ (contains_wide days.old m || (nat_le low m && nat_lt m end)) }
{
    for k in low..end {
        days.insert(k);
    }
}

/// The weeks that BYWEEKNO lists in a year of 52 weeks or in one of 53.
fn listed_weeks(weeks: &Ordinals) -> BitSet
    ensures { (n : ℕ) → 1 ≤ n → n ≤ 53 → contains result n ≡ may_list_week weeks.now n }
{
    let mut listed = weeks.front;
    let mut from = 0;
    while let Some(n) = weeks.back.next_from(from) {
        if n > 53 {
            return listed;
        }
        listed.insert(53 - n);
        listed.insert(54 - n);
        from = n + 1;
    }
    listed
}

/// Days of a year, including all that are in a listed week. The first three and the last three days of a year may be in a week of
/// another year.
pub(crate) fn days_near_weeks(parts: &EffectiveRule, first: u32, len: u16) -> WideBitSet
    requires first { first ≡ days_before_year (year_of first) }
    requires size { len ≡ days_in_year (pos (year_of first)) }
    requires early { first ≤ day_before 9_999 }
    requires some { lists_none parts.now.weeks ≡ false }
    ensures within { (k : ℕ) → contains_wide result k ≡ true → k < len }
    ensures all { (k : ℕ) → k < len → lets_week parts.now (first + k) ≡ true → contains_wide result k ≡ true }
{
    let fourth = (parts.week_start.index() + 10 - weekday_at(first)) % 7;
    let mut days = WideBitSet::new();
    add_between(&mut days, 0, 3);
    add_between(&mut days, len - 3, len);
    let listed = listed_weeks(&parts.weeks);
    let mut from = 1;
    while let Some(n) = listed.next_from(from) {
        if n > 53 {
            return days;
        }
        let end = 7 * n as u16 + fourth as u16 - 3;
        let low = end.saturating_sub(7);
        let high = end.min(len);
        add_between(&mut days, low, high);
        from = n + 1;
    }
    days
}
