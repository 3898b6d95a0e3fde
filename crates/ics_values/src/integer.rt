//! Integers, as a property's value has them.
ghost use Rattle.std.specs.Prelude.{◌≡◌};
ghost use Rattle.ics_values.specs.Integers.{integer_of};
ghost use Rattle.ics_values.specs.ValueFaultNames.{integer_fault_name};

use crate::digits::{are_digits, number_within};
use thiserror::Error;

/// Why a text is not a number.
#[derive(Clone, Copy, Debug, Error)]
#[error("{}", self.name())]
pub enum IntegerFault {
    NotDigits,
    NumberTooLarge,
}

impl IntegerFault {
    /// The name of the fault, as it is printed.
    pub fn name(&self) -> &'static str
        ensures { result.now ≡ integer_fault_name self.now }
    {
        match self {
            IntegerFault::NotDigits => "NotDigits",
            IntegerFault::NumberTooLarge => "NumberTooLarge",
        }
    }
}

/// The number that a text says: digits with or without a `+` before them (RFC 5545, section 3.3.8).
/// `NotDigits` for any other text, and `NumberTooLarge` for a number past 4,294,967,295.
pub fn read_integer(text: &[u8]) -> Result<u32, IntegerFault>
    ensures { result ≡ integer_of text.now }
{
    let digits = text.strip_prefix(b"+").unwrap_or(text);
    if !are_digits(digits) {
        return Err(IntegerFault::NotDigits);
    }
    number_within(digits).ok_or(IntegerFault::NumberTooLarge)
}
