//! Dates and times as text.

use ics_values::{Local, Moment, Stamp, civil, read_stamp};
use std::alloc::{AllocError, Global};

/// A day as `2024-02-29`, and one that the calendar has not as its number.
pub fn day_text(alloc: Global, day: i32) -> Result<String, AllocError> {
    if day < -719_528 || day > 2_932_896 {
        return format!(in alloc; "day {day}");
    }
    let date = civil(day);
    format!(in alloc; "{:04}-{:02}-{:02}", date.year, date.month, date.day)
}

/// A local as `2024-02-29T10:30:00`.
pub fn local_text(alloc: Global, local: Local) -> Result<String, AllocError> {
    let day = day_text(alloc, local.day)?;
    let (minutes, second) = (local.second / 60, local.second % 60);
    let (hour, minute) = (minutes / 60, minutes % 60);
    format!(in alloc; "{day}T{hour:02}:{minute:02}:{second:02}")
}

/// An instant as its local in UTC, and one past the calendar as its number.
pub fn moment_text(alloc: Global, moment: Moment) -> Result<String, AllocError> {
    let second = moment.rem_euclid(86_400) as u32;
    match i32::try_from(moment.div_euclid(86_400)) {
        Ok(day) => local_text(alloc, Local::at(day, second)),
        Err(_) => format!(in alloc; "{moment}"),
    }
}

/// The instant of a text: a stamp, read in UTC, or the number of its seconds.
pub fn moment_of(text: &str) -> Moment {
    match local_of(text) {
        Some(local) => i64::from(local.day) * 86_400 + i64::from(local.second),
        None => text.parse().unwrap_or(0),
    }
}

/// A stamp as its date or its local, and beside that what it goes by.
pub fn stamp_text(alloc: Global, stamp: Stamp) -> Result<String, AllocError> {
    match stamp {
        Stamp::Date(day) => day_text(alloc, day),
        Stamp::Floating(local) => local_text(alloc, local),
        Stamp::Utc(local) => format!(in alloc; "{} in UTC", local_text(alloc, local)?),
        Stamp::Zoned(local) => format!(in alloc; "{} in a zone", local_text(alloc, local)?),
    }
}

/// The local of a stamp's text, midnight where it is a date.
pub fn local_of(text: &str) -> Option<Local> {
    match read_stamp(text.as_bytes(), false) {
        Ok(Stamp::Date(day)) => Some(Local::at(day, 0)),
        Ok(Stamp::Floating(local) | Stamp::Utc(local) | Stamp::Zoned(local)) => Some(local),
        Err(_) => None,
    }
}
