//! Dates, and headings with dates.
ghost use Rattle.std.specs.Prelude.{◌≡◌, ◌++◌, ◌∷◌, [], OnOk};
ghost use Rattle.jiff_core.specs.Weekday.{monday_zero};
ghost use Rattle.ics_fields.specs.Days.{IsDayNumber};
ghost use Rattle.khal_words.specs.Formats.{filled, shown_piece};
ghost use Rattle.khal_list.specs.Text.{weekday_name, date_text, day_field_text};

use ics_values::civil;
use jiff::fmt::temporal::DateTimePrinter;
use jiff_core::civil::{Date, Weekday};
use khal_words::{DayField, Format, Piece};
use std::alloc::AllocError;

/// The name of a weekday, as `Monday`.
fn name_of(weekday: Weekday) -> &'static str
    ensures { result.now ≡ weekday_name (monday_zero weekday) }
{
    match weekday {
        Weekday::Monday => "Monday",
        Weekday::Tuesday => "Tuesday",
        Weekday::Wednesday => "Wednesday",
        Weekday::Thursday => "Thursday",
        Weekday::Friday => "Friday",
        Weekday::Saturday => "Saturday",
        Weekday::Sunday => "Sunday",
    }
}

/// Adds the date of a day of the years 0000 to 9999, as `2024-01-05`.
pub(crate) fn add_date(text: &mut Vec<u8>, day: i32) -> Result<(), AllocError>
    requires { IsDayNumber day }
    ensures { OnOk result (text.new.items ≡ text.old.items ++ date_text day) }
{
    let date = Date::from_unix_epoch_day(i64::from(day)).unwrap();
    text.extend_from_slice(DateTimePrinter::new().date_text(date).as_str().as_bytes())
}

/// Adds the text of a piece of a heading, for a day of the years 0000 to 9999.
fn add_piece(text: &mut Vec<u8>, day: i32, piece: Piece<DayField>) -> Result<(), AllocError>
    requires { IsDayNumber day }
    ensures { OnOk result (text.new.items ≡ text.old.items ++ shown_piece (day_field_text day) piece) }
{
    match piece {
        Piece::Byte(byte) => Ok(text.push(byte)?),
        Piece::Field(DayField::Name) => {
            text.extend_from_slice(name_of(civil(day).weekday).as_bytes())
        }
        Piece::Field(DayField::Date) => add_date(text, day),
    }
}

/// Adds the heading of a day of the years 0000 to 9999 in this format, and LF.
pub(crate) fn add_heading(
    text: &mut Vec<u8>,
    format: &Format<DayField>,
    day: i32,
) -> Result<(), AllocError>
    requires { IsDayNumber day }
    ensures { OnOk result (text.new.items
        ≡ text.old.items ++ (filled (day_field_text day) format.now.pieces.items ++ 10 ∷ [])) }
{
    for piece in &format.pieces {
        add_piece(text, day, *piece)?;
    }
    text.push(b'\n')?;
    Ok(())
}
