//! Periods, as a property's value has them.
ghost use Rattle.std.specs.Prelude.{◌≡◌, IfOk, Ok};
ghost use Rattle.ics_values.specs.Periods.{half_of, lasts, end_of, both, period_of, IsDateTime, IsPeriodEnd};
ghost use Rattle.ics_values.specs.ValueFaultNames.{period_fault_name};

use crate::duration::{Duration, DurationFault, read_duration};
use crate::halves::halves;
use crate::sign::is_sign;
use crate::stamp::{Stamp, StampFault, is_date_time_form, read_stamp};
use thiserror::Error;

/// The end of a PERIOD: a stamp, or a duration from the start.
#[derive(Clone, Copy)]
pub enum PeriodEnd {
    At(Stamp),
    Lasting(Duration),
}

/// A PERIOD (RFC 5545, section 3.3.9). Its end may be before its start.
#[derive(Clone, Copy)]
pub struct Period {
    pub start: Stamp,
    pub end: PeriodEnd,
}

/// Why a text is not a period.
#[derive(Clone, Copy, Debug, Error)]
#[error("{}", self.name())]
pub enum PeriodFault {
    BadStamp,
    BadDuration,
    YearRange,
    NumberTooLarge,
}

impl PeriodFault {
    /// The name of the fault, as it is printed.
    pub fn name(&self) -> &'static str
        ensures { result.now ≡ period_fault_name self.now }
    {
        match self {
            PeriodFault::BadStamp => "BadStamp",
            PeriodFault::BadDuration => "BadDuration",
            PeriodFault::YearRange => "YearRange",
            PeriodFault::NumberTooLarge => "NumberTooLarge",
        }
    }
}

/// The DATE-TIME that a half says.
fn read_half(text: &[u8], zoned: bool) -> Result<Stamp, PeriodFault>
    ensures value { result ≡ half_of zoned text.now }
    ensures range { IfOk result IsDateTime }
{
    if !is_date_time_form(text) {
        return Err(PeriodFault::BadStamp);
    }
    match read_stamp(text, zoned) {
        Ok(stamp) => Ok(stamp),
        Err(StampFault::BadStamp) => Err(PeriodFault::BadStamp),
        Err(StampFault::YearRange) => Err(PeriodFault::YearRange),
    }
}

/// Whether the half is a duration: it begins with a sign or `P`.
fn lasts(text: &[u8]) -> bool
    ensures { result ≡ lasts text.now }
{
    match text {
        [] => false,
        [first, ..] => is_sign(*first) || *first == b'P' || *first == b'p',
    }
}

/// The end of a period: how long it lasts, or a DATE-TIME.
fn read_end(text: &[u8], zoned: bool) -> Result<PeriodEnd, PeriodFault>
    ensures value { result ≡ end_of zoned text.now }
    ensures range { IfOk result IsPeriodEnd }
{
    if lasts(text) {
        match read_duration(text) {
            Ok(duration) => Ok(PeriodEnd::Lasting(duration)),
            Err(DurationFault::BadDuration) => Err(PeriodFault::BadDuration),
            Err(DurationFault::NumberTooLarge) => Err(PeriodFault::NumberTooLarge),
        }
    } else {
        match read_half(text, zoned) {
            Ok(stamp) => Ok(PeriodEnd::At(stamp)),
            Err(fault) => Err(fault),
        }
    }
}

/// The period of both halves. A half that is malformed is reported before one that is out of range.
fn both(
    start: Result<Stamp, PeriodFault>,
    end: Result<PeriodEnd, PeriodFault>,
) -> Result<Period, PeriodFault>
    ensures value { result ≡ both start end }
    ensures start { IfOk result (λ period. start ≡ Ok period.start) }
    ensures end { IfOk result (λ period. end ≡ Ok period.end) }
{
    match (start, end) {
        (Ok(start), Ok(end)) => Ok(Period { start, end }),
        (Ok(_), Err(fault)) => Err(fault),
        (Err(PeriodFault::YearRange), Err(PeriodFault::BadStamp)) => Err(PeriodFault::BadStamp),
        (Err(PeriodFault::YearRange), Err(PeriodFault::BadDuration)) => {
            Err(PeriodFault::BadDuration)
        }
        (Err(fault), _) => Err(fault),
    }
}

/// The period that a text says: a DATE-TIME, `/`, and a DATE-TIME or a DURATION (RFC 5545, section 3.3.9).
/// `zoned` says whether the property has a TZID. `BadStamp` if the first half is not a DATE-TIME. Else
/// `BadDuration` if the second half begins with a sign or `P` and is not a DURATION, and `BadStamp` if it
/// begins otherwise and is not a DATE-TIME. Else `YearRange` if a DATE-TIME is outside the years 0001 to
/// 9899, and else `NumberTooLarge` if the DURATION has a number past 4,294,967,295.
pub fn read_period(text: &[u8], zoned: bool) -> Result<Period, PeriodFault>
    ensures value { result ≡ period_of zoned text.now }
    ensures start { IfOk result (λ period. IsDateTime period.start) }
    ensures end { IfOk result (λ period. IsPeriodEnd period.end) }
{
    let (start, end) = halves(text, b'/');
    both(read_half(start, zoned), read_end(end, zoned))
}
