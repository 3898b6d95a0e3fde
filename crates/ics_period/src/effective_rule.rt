//! A rule together with what it takes from the start of its event.

use crate::part::{PlacesPart, WeekdaysPart};
use ics_fields::{BitSet, Frequency, Ordinals};
use jiff_core::civil::Weekday;

/// The parts that say which locals a rule allows, with what the rule takes from the start of its event.
#[derive(Clone, Copy)]
pub struct EffectiveRule {
    pub frequency: Frequency,
    pub week_start: Weekday,
    pub interval: u32,
    pub months: BitSet,
    pub month_days: Ordinals,
    pub year_days: PlacesPart,
    pub weeks: Ordinals,
    pub weekdays: WeekdaysPart,
    pub hours: BitSet,
    pub minutes: BitSet,
    pub seconds: BitSet,
    pub positions: PlacesPart,
}
