//! The parts of a recurrence rule.
ghost use Rattle.std.specs.Prelude.{◌≡◌};
ghost use Rattle.ics_fields.specs.RuleParts.{every};

use crate::frequency::Frequency;
use crate::ordinals::{Ordinals, Weekdays, WideOrdinals};
use crate::sets::BitSet;
use crate::until::Until;
use jiff_core::civil::Weekday;
use std::marker::Model;

/// The parts of a recurrence rule (RFC 5545, 3.3.10). Each has only numbers that its grammar allows. An empty list is an absent part.
#[derive(Clone, Copy)]
pub struct Parts {
    /// FREQ.
    pub frequency: Frequency,
    /// INTERVAL: at least 1, and 1 if it is absent.
    pub interval: u32,
    /// COUNT: at least 1.
    pub count: Option<u32>,
    /// UNTIL. Its day is one of the years 0000 to 9999.
    pub until: Option<Until>,
    /// BYSECOND: numbers from 0 to 59. Second 60 is read as 59.
    pub seconds: BitSet,
    /// BYMINUTE: numbers from 0 to 59.
    pub minutes: BitSet,
    /// BYHOUR: numbers from 0 to 23.
    pub hours: BitSet,
    /// BYDAY: weekdays, each with numbers from 1 to 53, with none, or both.
    pub weekdays: Weekdays,
    /// BYMONTHDAY: numbers from 1 to 31, counted from either end.
    pub month_days: Ordinals,
    /// BYYEARDAY: numbers from 1 to 366, counted from either end.
    pub year_days: WideOrdinals,
    /// BYWEEKNO: numbers from 1 to 53, counted from either end.
    pub weeks: Ordinals,
    /// BYMONTH: numbers from 1 to 12.
    pub months: BitSet,
    /// BYSETPOS: numbers from 1 to 366, counted from either end.
    pub positions: WideOrdinals,
    /// WKST, the first day of a week: Monday if it is absent.
    pub week_start: Weekday,
}

impl Model for Parts {
    ghost use Rattle.ics_fields.specs.RuleParts.{RuleParts};

    ghost Value = { RuleParts };

    ghost use Rattle.ics_fields.specs.RuleParts.{IsRuleParts};

    ghost view = { λ p. record {
      frequency = p.frequency;
      interval = p.interval;
      count = p.count;
      until = p.until;
      seconds = p.seconds;
      minutes = p.minutes;
      hours = p.hours;
      weekdays = p.weekdays;
      month_days = p.month_days;
      year_days = p.year_days;
      weeks = p.weeks;
      months = p.months;
      positions = p.positions;
      week_start = p.week_start;
    } };

    ghost invariant = { λ p. IsRuleParts (record {
      frequency = p.frequency;
      interval = p.interval;
      count = p.count;
      until = p.until;
      seconds = p.seconds;
      minutes = p.minutes;
      hours = p.hours;
      weekdays = p.weekdays;
      month_days = p.month_days;
      year_days = p.year_days;
      weeks = p.weeks;
      months = p.months;
      positions = p.positions;
      week_start = p.week_start;
    }) };

    ghost inverse = { λ v. record {
      frequency = v.frequency;
      interval = v.interval;
      count = v.count;
      until = v.until;
      seconds = v.seconds;
      minutes = v.minutes;
      hours = v.hours;
      weekdays = v.weekdays;
      month_days = v.month_days;
      year_days = v.year_days;
      weeks = v.weeks;
      months = v.months;
      positions = v.positions;
      week_start = v.week_start;
    } };
}

impl Parts {
    /// The rule with FREQ alone: INTERVAL is 1 and weeks start on Monday.
    pub fn new(frequency: Frequency) -> Parts
        ensures { result ≡ every frequency }
    {
        Parts {
            frequency,
            interval: 1,
            count: None,
            until: None,
            seconds: BitSet::new(),
            minutes: BitSet::new(),
            hours: BitSet::new(),
            weekdays: Weekdays::new(),
            month_days: Ordinals::new(),
            year_days: WideOrdinals::new(),
            weeks: Ordinals::new(),
            months: BitSet::new(),
            positions: WideOrdinals::new(),
            week_start: Weekday::Monday,
        }
    }
}
