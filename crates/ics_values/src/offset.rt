//! Offsets from UTC, as a property's value has them.
ghost use Rattle.std.specs.Prelude.{◌≡◌, ◌≤◌, ◌<◌, ◌+◌, ◌*◌, ◌&&◌, true, codes, IfOk, length, nat_le};
ghost use Rattle.jiff_core.specs.Calendar.{IsWithin};
ghost use Rattle.ics_values.specs.Offsets.{is_offset_form, offset_of};

use crate::digits::{are_digits, number_at};
use crate::sign::{is_negative, is_sign, with_sign};
use thiserror::Error;

/// The text is not an offset from UTC (RFC 5545, section 3.3.14).
#[derive(Clone, Copy, Debug, Error)]
#[error("{}", self.name())]
pub struct BadOffset;

impl BadOffset {
    /// The name of the fault, as it is printed.
    pub fn name(&self) -> &'static str
        ensures { result.now ≡ codes "BadOffset" }
    {
        "BadOffset"
    }
}

/// Whether the text is a sign and four or six digits.
fn is_offset_form(text: &[u8]) -> bool
    ensures { result ≡ is_offset_form text.now }
{
    (text.len() == 5 || text.len() == 7) && is_sign(text[0]) && are_digits(&text[1..])
}

/// The offset that a text says, in seconds east of UTC and less than a day either way (RFC 5545, section
/// 3.3.14). `BadOffset` for any other text. `-0000` is read as zero.
pub fn read_offset(text: &[u8]) -> Result<i32, BadOffset>
    ensures value { result ≡ offset_of text.now }
    ensures range { IfOk result (IsWithin 86_399) }
{
    if !is_offset_form(text) {
        return Err(BadOffset);
    }
    let hours = number_at(text, 1, 3);
    let minutes = number_at(text, 3, 5);
    let seconds = if text.len() == 7 {
        number_at(text, 5, 7)
    } else {
        0
    };
    if hours > 23 || minutes > 59 || seconds > 59 {
        return Err(BadOffset);
    }
    let size = 3600 * hours + 60 * minutes + seconds;
    Ok(with_sign(is_negative(text), size))
}
