//! The clocks of zones.

use crate::shown::{local_of, local_text, moment_of, moment_text};
use ics_calendar::read_file;
use ics_values::Local;
use ics_zone::{Display, Place, Zone};
use khal_list::MOST_BYTES;
use std::alloc::{AllocError, Global};

/// What a display zone answers, or why it is none.
pub fn in_display(
    alloc: Global,
    zone: &str,
    call: &str,
    value: &str,
) -> Result<String, AllocError> {
    match Display::parse(alloc, zone) {
        Ok(display) => answer(alloc, &display, call, value),
        Err(fault) => String::from_str(alloc, fault.name()),
    }
}

/// What the first zone of a file answers.
pub fn in_file(alloc: Global, file: &[u8], call: &str, value: &str) -> Result<String, AllocError> {
    match first_zone(alloc, file) {
        Some(zone) => answer(alloc, &zone, call, value),
        None => String::from_str(alloc, "no zone"),
    }
}

/// The first zone of a file, if it has one.
fn first_zone(alloc: Global, file: &[u8]) -> Option<Zone> {
    if file.len() > MOST_BYTES {
        return None;
    }
    let events = read_file(alloc, file, &[]).ok()?;
    events.zones.into_iter().next()
}

/// The offset at an instant, what the clock shows then, or the instant of a local.
fn answer<P: Place>(
    alloc: Global,
    place: &P,
    call: &str,
    value: &str,
) -> Result<String, AllocError> {
    match call {
        "instant" => instant(alloc, place, value),
        _ => clock(alloc, place, value),
    }
}

/// The offset of a place at an instant, and what its clock shows.
fn clock<P: Place>(alloc: Global, place: &P, value: &str) -> Result<String, AllocError> {
    let moment = moment_of(value);
    if moment < -62_167_392_000 || moment > 251_856_172_799 {
        return String::from_str(alloc, "no instant");
    }
    let offset = place.offset(moment);
    format!(in alloc; "{} at {offset}", local_text(alloc, place.local(moment))?)
}

/// The instant of a local.
fn instant<P: Place>(alloc: Global, place: &P, value: &str) -> Result<String, AllocError> {
    let local = local_of(value).unwrap_or(Local::at(0, 0));
    if local.day < -719_528 || local.day > 2_914_999 {
        return String::from_str(alloc, "no day");
    }
    moment_text(alloc, place.moment(local))
}
