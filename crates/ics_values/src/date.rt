//! Dates of the calendar and their day numbers.
ghost use Rattle.std.specs.Prelude.{◌≡◌, ◌<◌, ◌≤◌};
ghost use Rattle.ics_values.specs.Dates.{date_day};

use jiff_core::civil::Date;

/// The day number of a date of the years 0000 to 9999, counted from 1970-01-01. None if the calendar does not have the date.
pub fn date_day(year: u32, month: u32, day: u32) -> Option<i32>
    requires year { year ≤ 9999 }
    requires month { month < 100 }
    requires day { day < 100 }
    ensures { result ≡ date_day year month day }
{
    match Date::new(year as i16, month as i8, day as i8) {
        Ok(date) => Some(date.to_unix_epoch_day()),
        Err(_) => None,
    }
}
