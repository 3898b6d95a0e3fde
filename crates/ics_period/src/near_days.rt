//! Days near those that a rule allows, so that few days of a year are tested.
ghost use Rattle.std.specs.Prelude.{◌≡◌, ℕ, ◌<◌, ◌≤◌, ◌+◌, ◌-◌, true, false};
ghost use Rattle.ics_fields.specs.declared.frequency.Frequency.TheVariants.{Yearly};
ghost use Rattle.ics_fields.specs.Sets.{contains_wide};
ghost use Rattle.ics_fields.specs.Days.{days_before_year, year_of};
ghost use Rattle.ics_period.specs.declared.effective_rule.EffectiveRule.{EffectiveRule};
ghost use Rattle.ics_period.specs.PeriodNumbers.{day_before};
ghost use Rattle.ics_period.specs.Candidates.{lets_date};
ghost use Rattle.ics_period.specs.Runs.{IsSpan};

use crate::date::{civil_at, year_length};
use crate::days::{add_listed_days, days_by_number};
use crate::effective_rule::EffectiveRule;
use crate::weeks::days_near_weeks;
use ics_fields::WideBitSet;

/// Whether BYWEEKNO, BYYEARDAY or BYMONTHDAY is there, which list days of a year.
pub fn lists_days(parts: &EffectiveRule) -> bool {
    !(parts.weeks.is_empty() & parts.year_days.is_empty() & parts.month_days.is_empty())
}

/// Days of a year of `len` days, among them all that a rule allows: those near the weeks that BYWEEKNO lists, or those that BYMONTHDAY lists,
/// or else BYYEARDAY.
fn days_near(parts: &EffectiveRule, first: u32, len: u16) -> WideBitSet
    requires span { IsSpan Yearly (year_of first) first len }
    requires days { first + 384 ≤ day_before 9_999 }
    ensures { (k : ℕ) → k < len → lets_date parts.now (first + k) ≡ true → contains_wide result k ≡ true }
{
    if !parts.weeks.is_empty() {
        return days_near_weeks(parts, first, len);
    }
    if parts.month_days.is_empty() {
        return days_by_number(parts, len);
    }
    let mut days = WideBitSet::new();
    add_listed_days(parts, first, len, &mut days);
    days
}

/// Days of one year, among them all that a rule allows.
#[derive(Clone, Copy)]
pub struct NearDays {
    /// The first day of the year, counted from 0000-01-01.
    first: u32,
    /// The first day after the year.
    end: u32,
    /// The days, counted from the first.
    days: WideBitSet,
}

impl NearDays {
    ghost use Rattle.ics_period.specs.NearDays.{AreNear};

    /// None yet. From this day on, the days of a year are found before one of them is tested.
    pub fn new(from: u32) -> NearDays
        ensures { (q : EffectiveRule) → AreNear q result }
    {
        NearDays {
            first: from,
            end: from,
            days: WideBitSet::new(),
        }
    }

    /// Those of the year of a day.
    fn of_year(parts: &EffectiveRule, day: u32) -> NearDays
        requires { day ≤ days_before_year 9_801 }
        ensures near { AreNear parts.now result }
        ensures high { day < result.end }
    {
        let fields = civil_at(day);
        let first = day + 1 - fields.year_day as u32;
        let len = year_length(&fields);
        NearDays {
            first,
            end: first + len as u32,
            days: days_near(parts, first, len),
        }
    }

    /// Turns to the year of a day, up to 9801-01-01, if that is later.
    pub fn turn_to(&mut self, parts: &EffectiveRule, day: u32)
        requires day { day ≤ days_before_year 9_801 }
        requires near { AreNear parts.now self.old }
        ensures near { AreNear parts.now self.new }
        ensures high { day < self.new.end }
    {
        if day >= self.end {
            *self = NearDays::of_year(parts, day);
        }
    }

    /// How many days from one on are of their year, and none of them.
    pub fn days_out(&self, day: u32) -> u32
        requires day { day ≤ days_before_year 9_801 }
        requires size { self.now.end ≤ self.now.first + 384 }
        requires high { day < self.now.end }
        ensures none { (q : EffectiveRule) → AreNear q self.now → (e : ℕ) → day ≤ e → e < day + result → lets_date q e ≡ false }
        ensures most { result ≤ 384 }
    {
        if day < self.first {
            return 0;
        }
        match self.days.next_from((day - self.first) as u16) {
            Some(place) => self.end.min(self.first + place as u32) - day,
            None => self.end - day,
        }
    }
}
