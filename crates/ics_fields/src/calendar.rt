//! The civil fields of a day.
ghost use Rattle.std.specs.Prelude.{◌≡◌, pos};
ghost use Rattle.jiff_core.specs.Calendar.{days_from_civil, weekday_number};
ghost use Rattle.jiff_core.specs.Weekday.{monday_zero};
ghost use Rattle.ics_fields.specs.Days.{IsDayNumber, day_index};
ghost use Rattle.ics_fields.specs.Fields.{IsCivilOf};

use crate::fields::Civil;
use jiff_core::civil::Date;

/// The civil fields of a day in the Gregorian calendar. The day is counted from 1970-01-01 and is in
/// the years 0000 to 9999.
pub fn civil(day: i32) -> Civil
    requires { IsDayNumber day }

    // The date is one of the calendar, and it is that of the day.
    ensures number { days_from_civil (pos result.year) result.month result.day ≡ day }
    ensures named { monday_zero result.weekday ≡ weekday_number day }
    ensures fields { IsCivilOf result (day_index day) }
{
    let date = Date::from_days_since_min((day + 4_371_587) as u32);
    Civil {
        year: date.year as u16,
        month: date.month,
        day: date.day,
        weekday: date.weekday(),
        year_day: date.day_of_year(),
    }
}
