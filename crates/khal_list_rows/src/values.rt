//! Values of properties.

use crate::shown::stamp_text;
use ics_values::{
    Duration, Period, PeriodEnd, read_duration, read_integer, read_offset, read_period, read_rule,
    read_stamp, text_bytes,
};
use percent_encoding::{CONTROLS, percent_encode};
use std::alloc::{AllocError, Global};

/// What the text of a value says, by the name of its kind, or the name of its fault.
pub fn value(alloc: Global, kind: &str, text: &str) -> Result<String, AllocError> {
    match kind {
        "stamp" => stamp(alloc, text, false),
        "zoned" => stamp(alloc, text, true),
        "duration" => duration(alloc, text),
        "offset" => offset(alloc, text),
        "period" => period(alloc, text),
        "integer" => integer(alloc, text),
        "recur" => recur(alloc, text),
        "text" => plain(alloc, text),
        _ => format!(in alloc; "no kind {kind}"),
    }
}

/// The stamp of a text, or its fault.
fn stamp(alloc: Global, text: &str, zoned: bool) -> Result<String, AllocError> {
    match read_stamp(text.as_bytes(), zoned) {
        Ok(stamp) => stamp_text(alloc, stamp),
        Err(fault) => String::from_str(alloc, fault.name()),
    }
}

/// The duration of a text, or its fault.
fn duration(alloc: Global, text: &str) -> Result<String, AllocError> {
    match read_duration(text.as_bytes()) {
        Ok(duration) => duration_text(alloc, duration),
        Err(fault) => String::from_str(alloc, fault.name()),
    }
}

/// A duration as its days and seconds.
fn duration_text(alloc: Global, duration: Duration) -> Result<String, AllocError> {
    let sign = if duration.negative { "less " } else { "" };
    let (days, seconds) = (duration.days, duration.seconds);
    format!(in alloc; "{sign}{days} days and {seconds} seconds")
}

/// The seconds of an offset from UTC, or the fault of the text.
fn offset(alloc: Global, text: &str) -> Result<String, AllocError> {
    match read_offset(text.as_bytes()) {
        Ok(seconds) => format!(in alloc; "{seconds}"),
        Err(fault) => String::from_str(alloc, fault.name()),
    }
}

/// The period of a text, or its fault.
fn period(alloc: Global, text: &str) -> Result<String, AllocError> {
    match read_period(text.as_bytes(), false) {
        Ok(period) => period_text(alloc, period),
        Err(fault) => String::from_str(alloc, fault.name()),
    }
}

/// A period as its start, and its end or how long it lasts.
fn period_text(alloc: Global, period: Period) -> Result<String, AllocError> {
    let start = stamp_text(alloc, period.start)?;
    match period.end {
        PeriodEnd::At(end) => format!(in alloc; "{start} to {}", stamp_text(alloc, end)?),
        PeriodEnd::Lasting(duration) => {
            format!(in alloc; "{start} for {}", duration_text(alloc, duration)?)
        }
    }
}

/// The number of a text, or its fault.
fn integer(alloc: Global, text: &str) -> Result<String, AllocError> {
    match read_integer(text.as_bytes()) {
        Ok(number) => format!(in alloc; "{number}"),
        Err(fault) => String::from_str(alloc, fault.name()),
    }
}

/// Whether a text is a recurrence rule, or its fault.
fn recur(alloc: Global, text: &str) -> Result<String, AllocError> {
    let answer = match read_rule(text.as_bytes()) {
        Ok(_) => "valid",
        Err(fault) => fault.name(),
    };
    String::from_str(alloc, answer)
}

/// A text without its escapes. Its line feeds stand as `%0a` again.
fn plain(alloc: Global, text: &str) -> Result<String, AllocError> {
    let bytes = text_bytes(alloc, text.as_bytes())?;
    let mut shown = String::new(alloc);
    percent_encode(bytes.as_slice(), CONTROLS).append_to(&mut shown)?;
    Ok(shown)
}
