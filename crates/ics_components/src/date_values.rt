//! The values of RDATE and EXDATE (RFC 5545, sections 3.8.5.1 and 3.8.5.2).
ghost use Rattle.std.specs.Prelude.{◌≡◌, ◌==◌, is_some, map};
ghost use Rattle.std.specs.List.{position};
ghost use Rattle.ics_values.specs.Periods.{lasts};
ghost use Rattle.ics_values.specs.Stamps.{stamp_of};
ghost use Rattle.ics_components.specs.DateValues.{At, date_time_of, period_of, value_of, values_of, rdate_in};
ghost use Rattle.ics_components.specs.Faults as reading;
ghost use Rattle.ics_components.specs.Lines.{Answers, Gives, stamp_judged, judged, misread};

use crate::ends::lasting;
use crate::fault::FaultKind;
use crate::listed::Listed;
use crate::refused::Refused;
use crate::time::{stamp, time_in};
use crate::tzid::Tzid;
use ics_values::{Length, Rdate, Stamp};
use std::alloc::Global;

/// A property that lists dates. Only an RDATE has PERIODs.
#[derive(Clone, Copy)]
pub enum Listing {
    Rdate,
    Exdate,
}

/// How long a date with a time is, and the comma behind it: most lists are of these.
const A_VALUE: usize = 16;

/// A half of a PERIOD that is a stamp. A DATE is none.
fn date_time(text: &[u8], zoned: bool) -> Result<Stamp, FaultKind>
    ensures { result ≡ stamp_judged (date_time_of zoned text.now) }
{
    if text.len() == 8 {
        return Err(FaultKind::BadStamp);
    }
    stamp(text, zoned)
}

/// Whether the second half of a PERIOD is a duration: it begins with a sign or `P`.
fn lasts(text: &[u8]) -> bool
    ensures { result ≡ lasts text.now }
{
    match text {
        [] => false,
        [b'+' | b'-' | b'P' | b'p', ..] => true,
        _ => false,
    }
}

/// What a PERIOD says, by its halves, or the lesser of their faults.
fn period(start: &[u8], end: &[u8], zone: &Option<Tzid>) -> Result<Rdate<Tzid>, Refused>
    ensures { Answers result (judged zone.now (period_of (is_some zone.now) start.now end.now)) }
{
    let start = date_time(start, zone.is_some());
    if lasts(end) {
        return match (start, lasting(end)) {
            (Ok(start), Ok(duration)) => {
                Ok(Rdate::Span(time_in(start, zone)?, Length::Lasting(duration)))
            }
            (Err(kind), Ok(_)) | (Ok(_), Err(kind)) => Err(Refused::Fault(kind)),
            (Err(had), Err(kind)) => Err(Refused::Fault(had.min(kind))),
        };
    }
    match (start, date_time(end, zone.is_some())) {
        (Ok(start), Ok(end)) => {
            let start = time_in(start, zone)?;
            Ok(Rdate::Span(start, Length::Until(time_in(end, zone)?)))
        }
        (Err(kind), Ok(_)) | (Ok(_), Err(kind)) => Err(Refused::Fault(kind)),
        (Err(had), Err(kind)) => Err(Refused::Fault(had.min(kind))),
    }
}

/// What a value says that is a stamp, or its fault.
fn at(text: &[u8], zone: &Option<Tzid>) -> Result<Rdate<Tzid>, Refused>
    ensures { Answers result (judged zone.now (At (stamp_of (is_some zone.now) text.now))) }
{
    let stamp = stamp(text, zone.is_some())?;
    Ok(Rdate::At(time_in(stamp, zone)?))
}

/// Where the first `/` stands.
fn slash(text: &[u8]) -> Option<usize>
    ensures { result ≡ position (λ b. b == 47) text.now }
{
    text.iter().position(|b| *b == b'/')
}

impl Listing {
    /// What a value says, or its least fault: a PERIOD may have two. A TZID beside it names that zone.
    fn value(self, text: &[u8], zone: &Option<Tzid>) -> Result<Rdate<Tzid>, Refused>
        ensures { Answers result (judged zone.now (value_of self (is_some zone.now) text.now)) }
    {
        match self {
            Listing::Rdate => match slash(text) {
                Some(i) => period(&text[..i], &text[i + 1..], zone),
                None => at(text, zone),
            },
            Listing::Exdate => at(text, zone),
        }
    }
}

/// What the values of a line say, or the least fault among them.
pub fn read_values(
    alloc: Global,
    listing: Listing,
    text: &[u8],
    zone: &Option<Tzid>,
) -> Result<Listed<Rdate<Tzid>>, Refused>
    ensures { Gives result (misread (reading.Dates (values_of listing (is_some zone.now) text.now)))
        (map (rdate_in zone.now) (values_of listing (is_some zone.now) text.now)) }
{
    let mut values = Vec::with_capacity(alloc, text.len() / A_VALUE + 1)?;
    let mut least: Option<FaultKind> = None;
    'values: for value in text.split(|b| *b == b',') {
        match (listing.value(value, zone), least) {
            (Ok(value), _) => values.push(value)?,
            (Err(Refused::Memory), _) => return Err(Refused::Memory),
            (Err(Refused::Fault(kind)), Some(had)) => least = Some(had.min(kind)),
            (Err(Refused::Fault(kind)), None) => least = Some(kind),
        }
    }
    match least {
        Some(kind) => Err(Refused::Fault(kind)),
        None => Ok(Listed { values }),
    }
}
