//! What the definitions mean, in other words.
ghost use Rattle.std.specs.Prelude.{◌≡◌, ◌≢◌, ℕ, ◌+◌, ◌-◌, ◌*◌, ◌%◌, ◌<◌, ◌≤◌, pos, ◌+ℤ◌};
ghost use Rattle.jiff_core.specs.Weekday.{monday_zero};
ghost use Rattle.jiff_core.specs.IsoWeek.{weeks_in_year};
ghost use Rattle.jiff_core.specs.declared.civil.iso_week_date.ISOWeekDate.{ISOWeekDate};
ghost use Rattle.ics_fields.specs.Days.{year_of, weekday_of};
ghost use Rattle.ics_period.specs.declared.effective_rule.EffectiveRule.{EffectiveRule};
ghost use Rattle.ics_period.specs.PeriodNumbers.{week_of};
ghost use Rattle.ics_fields.specs.Locals.{calendar_end};
ghost use Rattle.ics_period.specs.Candidates.{fourth_day, week_number, weeks_of_year};
ghost use Rattle.ics_period.specs.IsoWeeks.{IsDay};
ghost use Rattle.ics_period.specs.Ranks.{size, HasRank};

/// The ranks of a period are its places (RFC 5545, 3.3.10): for each k from 1 to its size exactly one candidate of the period of local n, in the
/// calendar's years, has rank k, and each has such a rank.
pub fn ranks_are_places()
    ensures there { (q : EffectiveRule) (start n k : ℕ) → 1 ≤ k → k ≤ size q start n → (m : ℕ) × HasRank q start n k m }
    ensures alone { (q : EffectiveRule) (start n k m o : ℕ) → HasRank q start n k m → HasRank q start n k o → m ≡ o }
    ensures within { (q : EffectiveRule) (start n k m : ℕ) → m < calendar_end → HasRank q start n k m → (1 ≤ k) × (k ≤ size q start n) }
{}

/// A week belongs to the year of its fourth day. The weeks of a year are numbered one after the other, and week 1 is the first with four
/// days in it (RFC 5545, 3.3.10).
pub fn numbered_weeks()
    ensures fourth { (w e : ℕ) → w < 7 → 9 ≤ 7 * week_of w e + w
        → (week_of w (fourth_day w e) ≡ week_of w e) × ((fourth_day w e + (12 - w)) % 7 ≡ 3) }
    ensures first { (f : ℕ) → year_of (f + 7) ≢ year_of f → week_number (f + 7) ≡ 1 }
    ensures next { (f : ℕ) → year_of (f + 7) ≡ year_of f → week_number (f + 7) ≡ week_number f + 1 }
{}

/// A year has as many weeks as the greatest number that a week of it has (RFC 5545, 3.3.10).
pub fn weeks_of_a_year()
    ensures high { (f g : ℕ) → year_of g ≡ year_of f → g % 7 ≡ f % 7 → week_number g ≤ weeks_of_year f }
    ensures there { (f : ℕ) → (g : ℕ) × ((year_of g ≡ year_of f)
        × ((g % 7 ≡ f % 7) × (week_number g ≡ weeks_of_year f))) }
{}

/// Weeks that start on Monday, weekday 0, are those of ISO 8601, which RFC 5545, 3.3.10 names: the week of a day has the same year and
/// number there, and the year has as many weeks. Days are counted from 0000-01-01. The first two are in the last week of the year before, which
/// is taken 400 years, one cycle of the calendar, later.
pub fn weeks_from_monday()
    ensures year { (d : ISOWeekDate) (e : ℕ) → IsDay d e → 2 ≤ e → d.year ≡ pos (year_of (fourth_day 0 e)) }
    ensures cycle { (d : ISOWeekDate) (e : ℕ) → IsDay d e → e < 2 → d.year +ℤ pos 400 ≡ pos (year_of (fourth_day 0 e)) }
    ensures number { (d : ISOWeekDate) (e : ℕ) → IsDay d e → d.week ≡ week_number (fourth_day 0 e) }
    ensures weeks { (d : ISOWeekDate) (e : ℕ) → IsDay d e → weeks_in_year d.year ≡ weeks_of_year (fourth_day 0 e) }
    ensures weekday { (d : ISOWeekDate) (e : ℕ) → IsDay d e → monday_zero d.weekday ≡ weekday_of e }
{}
