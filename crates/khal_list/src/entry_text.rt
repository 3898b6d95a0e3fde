//! The values of placeholders in the line of an entry.
ghost use Rattle.std.specs.Prelude.{◌≡◌, ◌++◌, IfOk, OnOk};
ghost use Rattle.std.specs.Fmt.{signed_decimal};
ghost use Rattle.std.specs.String.{string_bytes};
ghost use Rattle.ics_fields.specs.Days.{IsDayNumber};
ghost use Rattle.ics_fields.specs.Locals.{local_seconds};
ghost use Rattle.ics_starts.specs.Clocks.{display_clock};
ghost use Rattle.ics_listing.specs.Entry.{entry_of};
ghost use Rattle.khal_list.specs.Listed.{style_of};
ghost use Rattle.khal_list.specs.Text.{cell_text, end_date, entry_field_text, is_date, time_unless_date, token_text};

use crate::cell::{add_time, add_times};
use crate::heading::add_date;
use crate::request::Request;
use ics_event::Event;
use ics_series::{DayKey, DayToken, Key, Occurrence, Token, date_at};
use ics_values::{Local, Moment, Stamp};
use ics_zone::{Display, Place};
use khal_reading::add_shown;
use khal_words::EntryField;
use std::alloc::{AllocError, Global};

/// Whether an event takes whole days.
fn is_all_day(event: &Event) -> bool
    ensures { result ≡ is_date event.now.start.stamp }
{
    matches!(event.start.stamp, Stamp::Date(_))
}

/// Adds the cell of an occurrence: its times by the display zone's clock, or that it takes all day.
fn add_cell(
    text: &mut Vec<u8>,
    zone: &Display,
    day: i32,
    occurrence: &Occurrence<'_>,
) -> Result<(), AllocError>
    ensures { OnOk result (text.new.items
        ≡ text.old.items ++ cell_text (display_clock zone.now) day (entry_of occurrence.now)) }
{
    if is_all_day(occurrence.event) {
        return text.extend_from_slice(b"all day    ");
    }
    let start = zone.local(occurrence.start);
    let finish = zone.local(occurrence.finish);
    add_times(text, day, start, finish)?;
    Ok(())
}

/// Adds the time of a local, but nothing for an event of dates.
fn add_time_unless_date(
    text: &mut Vec<u8>,
    occurrence: &Occurrence<'_>,
    local: Local,
) -> Result<(), AllocError>
    ensures { OnOk result (text.new.items
        ≡ text.old.items ++ time_unless_date (entry_of occurrence.now) (local_seconds local)) }
{
    let dated = is_all_day(occurrence.event);
    if dated {
        return Ok(());
    }
    add_time(text, local)
}

/// The display date of an occurrence's finish, or of an event of dates its last day.
fn end_day(zone: &Display, occurrence: &Occurrence<'_>) -> i32
    ensures day { result ≡ end_date (display_clock zone.now) (entry_of occurrence.now) }
    ensures within { IsDayNumber result }
{
    let day = date_at(zone, occurrence.finish);
    let dated = is_all_day(occurrence.event);
    if dated { day - 1 } else { day }
}

/// Adds a moment as the decimal number of its seconds since 1970-01-01T00:00:00 UTC.
fn add_moment(alloc: Global, text: &mut Vec<u8>, moment: Moment) -> Result<(), AllocError>
    ensures { OnOk result (text.new.items ≡ text.old.items ++ signed_decimal moment) }
{
    let digits = format!(in alloc; "{moment}")?;
    text.extend_from_slice(digits.as_bytes())
}

/// The token with which a listing continues after an occurrence that is listed under this day.
fn token_of(
    alloc: Global,
    request: &Request,
    day: i32,
    occurrence: &Occurrence<'_>,
) -> Result<String, AllocError>
    ensures { IfOk result (λ token. string_bytes token ≡ token_text (style_of request.now) day (entry_of occurrence.now)) }
{
    let key = Key::of(alloc, occurrence)?;
    match request.every_day {
        Some(_) => DayToken::write(alloc, &DayKey { day, key }),
        None => Token::write(alloc, &key),
    }
}

/// Adds that token.
fn add_token(
    alloc: Global,
    text: &mut Vec<u8>,
    request: &Request,
    day: i32,
    occurrence: &Occurrence<'_>,
) -> Result<(), AllocError>
    ensures { OnOk result (text.new.items
        ≡ text.old.items ++ token_text (style_of request.now) day (entry_of occurrence.now)) }
{
    let token = token_of(alloc, request, day, occurrence)?;
    text.extend_from_slice(token.as_bytes())
}

/// Adds the value of a placeholder for an occurrence that is listed under this day.
pub(crate) fn add_field(
    alloc: Global,
    text: &mut Vec<u8>,
    request: &Request,
    day: i32,
    occurrence: &Occurrence<'_>,
    field: EntryField,
) -> Result<(), AllocError>
    ensures { OnOk result (text.new.items
        ≡ text.old.items ++ entry_field_text (style_of request.now) day (entry_of occurrence.now) field) }
{
    let zone = &request.zone;
    let event = occurrence.event;
    match field {
        EntryField::Cell => add_cell(text, zone, day, occurrence),
        EntryField::StartTime => {
            add_time_unless_date(text, occurrence, zone.local(occurrence.start))
        }
        EntryField::EndTime => {
            add_time_unless_date(text, occurrence, zone.local(occurrence.finish))
        }
        EntryField::StartDate => add_date(text, date_at(zone, occurrence.start)),
        EntryField::EndDate => add_date(text, end_day(zone, occurrence)),
        EntryField::Uid => add_shown(alloc, text, event.uid.as_slice()),
        EntryField::Cancelled if event.is_cancelled() => text.extend_from_slice(b"CANCELLED "),
        EntryField::Cancelled => Ok(()),
        EntryField::StartUnix => add_moment(alloc, text, occurrence.start),
        EntryField::EndUnix => add_moment(alloc, text, occurrence.finish),
        EntryField::Token => add_token(alloc, text, request, day, occurrence),
        EntryField::Text(name) => add_shown(alloc, text, event.text(name)),
    }
}
