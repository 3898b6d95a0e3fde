//! Durations, as a property's value has them.
ghost use Rattle.std.specs.Prelude.{◌≡◌, IfOk};
ghost use Rattle.ics_values.specs.Durations.{duration_of, IsDurationRange};
ghost use Rattle.ics_values.specs.ValueFaultNames.{duration_fault_name};

use crate::amounts::duration_part;
use crate::sign::{is_negative, unsigned};
use thiserror::Error;

/// A DURATION (RFC 5545, section 3.3.6): nominal days, of which a week has seven, and exact seconds.
#[derive(Clone, Copy)]
pub struct Duration {
    /// Whether the text began with a minus, even if both numbers are zero.
    pub negative: bool,
    pub days: u64,
    pub seconds: u64,
}

/// Why a text is not a duration.
#[derive(Clone, Copy, Debug, Error)]
#[error("{}", self.name())]
pub enum DurationFault {
    BadDuration,
    NumberTooLarge,
}

impl DurationFault {
    /// The name of the fault, as it is printed.
    pub fn name(&self) -> &'static str
        ensures { result.now ≡ duration_fault_name self.now }
    {
        match self {
            DurationFault::BadDuration => "BadDuration",
            DurationFault::NumberTooLarge => "NumberTooLarge",
        }
    }
}

/// The duration that a text says (RFC 5545, section 3.3.6). `BadDuration` if the text is not of the
/// grammar, and `NumberTooLarge` if it is but has a number past 4,294,967,295.
pub fn read_duration(text: &[u8]) -> Result<Duration, DurationFault>
    ensures value { result ≡ duration_of text.now }
    ensures range { IfOk result IsDurationRange }
{
    let Some(amounts) = duration_part(unsigned(text)) else {
        return Err(DurationFault::BadDuration);
    };
    if !amounts.fit() {
        return Err(DurationFault::NumberTooLarge);
    }
    Ok(Duration {
        negative: is_negative(text),
        days: 7 * amounts.weeks + amounts.days,
        seconds: 3600 * amounts.hours + 60 * amounts.minutes + amounts.seconds,
    })
}
