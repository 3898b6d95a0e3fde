//! The civil fields of a day.
use jiff_core::civil::Weekday;

/// A day in the Gregorian calendar.
#[derive(Clone, Copy)]
pub struct Civil {
    /// 0 to 9999.
    pub year: u16,
    /// 1 for January to 12 for December.
    pub month: u8,
    /// The day of the month, from 1.
    pub day: u8,
    pub weekday: Weekday,
    /// The day of the year, from 1.
    pub year_day: u16,
}
