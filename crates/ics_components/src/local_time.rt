//! The time zones that the local times of an event name (RFC 5545, sections 3.2.19 and 3.3.5).
ghost use Rattle.std.specs.Prelude.{◌≡◌, IfOk};
ghost use Rattle.ics_components.specs.EventLines.{begins_with_local, goes_on, has_local, named_by};

use crate::tzid::{Tzid, Tzids};
use ics_text::Content;
use ics_values::is_local_form;
use std::alloc::{AllocError, Global};

/// Whether a text that goes on with this byte is longer than a local time: a digit, or the `Z` of a time in UTC.
fn goes_on(byte: u8) -> bool
    ensures { result ≡ goes_on byte }
{
    byte.is_ascii_digit() || byte.to_ascii_uppercase() == b'Z'
}

/// Whether a local time begins the value.
fn begins_with_local(value: &[u8]) -> bool
    ensures { result ≡ begins_with_local value.now }
{
    if value.len() < 15 || !is_local_form(&value[..15]) {
        return false;
    }
    match &value[15..] {
        [] => true,
        [byte, ..] => !goes_on(*byte),
    }
}

/// Whether a local time stands somewhere in the value.
fn has_local(value: &[u8]) -> bool
    ensures { result ≡ has_local value.now }
{
    let mut rest = value;
    while let [_, behind @ ..] = rest {
        if begins_with_local(rest) {
            return true;
        }
        rest = behind;
    }
    false
}

/// The name in the TZID beside the local time on a line, if it has both.
pub fn named_on(
    alloc: Global,
    tzids: &mut Tzids,
    content: &Content<'_>,
) -> Result<Option<Tzid>, AllocError>
    ensures { IfOk result (λ zone. zone ≡ named_by content.now) }
{
    let Some(name) = content.param(b"TZID") else {
        return Ok(None);
    };
    if !has_local(content.value()) {
        return Ok(None);
    }
    Ok(Some(tzids.name(alloc, name)?))
}
