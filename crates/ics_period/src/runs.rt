//! Months and years as runs of days, in which days and weekdays are numbered.
ghost use Rattle.std.specs.Prelude.{◌≡◌, ℕ, ◌<◌, ◌≤◌, ◌+◌, ◌-◌, ◌/◌, ◌&&◌, ◌||◌, ◌==◌, nat_le};
ghost use Rattle.ics_fields.specs.Sets.{contains, contains_wide};
ghost use Rattle.ics_period.specs.Candidates.{lists, lists_nth};
ghost use Rattle.ics_period.specs.Runs.{IsRun, has_run, weekday_in, lists_weekday, lists_in_month};

use crate::effective_rule::EffectiveRule;
use crate::part::WeekdaysPart;
use ics_fields::{BitSet, Ordinals, Weekdays, WideBitSet};

/// A month or a year, as a run of days of a period.
#[derive(Clone, Copy)]
pub struct Run {
    /// Its first day, counted from the period's first.
    pub(crate) start: u16,
    /// The number of its days.
    pub(crate) len: u16,
    /// The weekday of its first day, from 0 for Monday.
    pub(crate) weekday: u8,
}

/// The numbers from 1 to `size` that a part lists, counted from the start or from the end.
pub(crate) fn listed(places: &Ordinals, size: u8) -> BitSet
    requires { size < 60 }
    ensures { (n : ℕ) → 1 ≤ n → contains result n ≡ (nat_le n size && lists places.now n size) }
{
    let mut listed = places.front.front(size + 1);
    let mut from = 1;
    while let Some(n) = places.back.next_from(from) {
        if n > size {
            return listed;
        }
        listed.insert(size + 1 - n);
        from = n + 1;
    }
    listed
}

impl Run {
    /// The first day of the run on a weekday.
    fn first_on(self, weekday: u8) -> u16
        requires weekday { weekday < 7 }
        requires run { IsRun self }
        ensures place { weekday_in self result ≡ weekday }
        ensures early { result < 7 }
    {
        let lead = if weekday < self.weekday { 7 } else { 0 };
        (weekday + lead - self.weekday) as u16
    }

    /// How many days of the run have the weekday of one of its first seven.
    fn days_from(self, first: u16) -> u8
        requires first { first < 7 }
        requires run { IsRun self }
        ensures { result ≡ (self.len - 1 - first) / 7 + 1 }
    {
        if self.len > 35 {
            ((self.len - 1 - first) / 7 + 1) as u8
        } else if first + 28 < self.len {
            5
        } else {
            4
        }
    }

    /// Adds each day of the run on a weekday.
    #[inline(always)]
    fn add_each(self, weekday: u8, days: &mut WideBitSet)
        requires weekday { weekday < 7 }
        requires run { IsRun self }
        ensures { (m : ℕ) → contains_wide days.new m ≡ (contains_wide days.old m || (has_run self m && (weekday_in self (m - self.start) == weekday))) }
    {
        let mut place = self.first_on(weekday);
        while place < self.len {
            days.insert(self.start + place);
            place += 7;
        }
    }

    /// Adds the days of the run on a weekday that are listed by their number.
    fn add_numbered(self, weekday: u8, numbers: &Ordinals, days: &mut WideBitSet)
        requires weekday { weekday < 7 }
        requires run { IsRun self }
        ensures { (m : ℕ) → contains_wide days.new m ≡ (contains_wide days.old m
            || (has_run self m && ((weekday_in self (m - self.start) == weekday) && lists_nth numbers.now (m - self.start + 1) self.len))) }
    {
        let first = self.first_on(weekday);
        let listed = listed(numbers, self.days_from(first));
        let mut from = 1;
        while let Some(n) = listed.next_from(from) {
            days.insert(self.start + (first + 7 * (n as u16 - 1)));
            from = n + 1;
        }
    }

    /// Adds the days of the run on a weekday, with the numbers that BYDAY lists or with any.
    fn add_weekday(self, weekdays: &Weekdays, weekday: u8, days: &mut WideBitSet)
        requires weekday { weekday < 7 }
        requires run { IsRun self }
        ensures { (m : ℕ) → contains_wide days.new m ≡ (contains_wide days.old m
            || (has_run self m && ((weekday_in self (m - self.start) == weekday) && lists_weekday weekdays.now weekday (m - self.start + 1) self.len))) }
    {
        if weekdays.plain.contains(weekday) {
            self.add_each(weekday, days);
        } else {
            self.add_numbered(weekday, &weekdays.numbered[weekday as usize], days);
        }
    }

    /// Adds the days of the run that BYDAY lists.
    #[inline(always)]
    pub(crate) fn add_weekdays(self, weekdays: &WeekdaysPart, days: &mut WideBitSet)
        requires run { IsRun self }
        ensures { (m : ℕ) → contains_wide days.new m ≡ (contains_wide days.old m
            || (has_run self m && lists_weekday weekdays.now (weekday_in self (m - self.start)) (m - self.start + 1) self.len)) }
    {
        let named = weekdays.named();
        let mut from = 0;
        while let Some(weekday) = named.next_from(from) {
            self.add_weekday(&weekdays.list, weekday, days);
            from = weekday + 1;
        }
    }

    /// Adds the days of the run, a month, that BYMONTHDAY lists.
    #[inline(never)]
    fn add_month_days(self, month_days: &Ordinals, days: &mut WideBitSet)
        requires run { IsRun self }
        requires month { self.len ≤ 31 }
        ensures { (m : ℕ) → contains_wide days.new m ≡ (contains_wide days.old m || (has_run self m && lists month_days.now (m - self.start + 1) self.len)) }
    {
        let listed = listed(month_days, self.len as u8);
        let mut from = 1;
        while let Some(n) = listed.next_from(from) {
            days.insert(self.start + n as u16 - 1);
            from = n + 1;
        }
    }

    /// Adds the days of the run, a month, that BYMONTHDAY lists or, if that is absent, BYDAY.
    #[inline(always)]
    pub(crate) fn add_month(self, parts: &EffectiveRule, days: &mut WideBitSet)
        requires run { IsRun self }
        requires month { self.len ≤ 31 }
        ensures { (m : ℕ) → contains_wide days.new m ≡ (contains_wide days.old m
            || (has_run self m && lists_in_month parts.now (weekday_in self (m - self.start)) (m - self.start + 1) self.len)) }
    {
        if parts.month_days.is_empty() {
            self.add_weekdays(&parts.weekdays, days);
        } else {
            self.add_month_days(&parts.month_days, days);
        }
    }
}
