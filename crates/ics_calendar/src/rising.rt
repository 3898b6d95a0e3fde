//! Events each of which has one UID that no other has, as the numbers at their ends show.
ghost use Rattle.std.specs.Prelude.{◌≡◌};
ghost use Rattle.ics_calendar.specs.Inner.PartsRead.{is_above, number_at_end, number_with, own_number, rise_from};

use ics_components::PartedComponent;
use ics_event::Text;

/// The number at the end of a text with a byte more, as far as it is small.
fn number_with(number: u64, byte: u8) -> u64
    ensures { result ≡ number_with number byte }
{
    if byte.is_ascii_digit() && number < 1_000_000_000 {
        number * 10 + u64::from(byte - 48)
    } else {
        0
    }
}

/// The number at the end of a text.
fn number_at_end(text: &[u8]) -> u64
    ensures { result ≡ number_at_end text.now }
{
    let mut number = 0;
    for byte in text {
        number = number_with(number, *byte);
    }
    number
}

/// The number at the end of the UID of an event that has one.
fn own_number(uids: &[Text]) -> Option<u64>
    ensures { result ≡ own_number uids.now }
{
    if uids.len() == 1 {
        Some(number_at_end(uids[0].as_slice()))
    } else {
        None
    }
}

/// Whether there is a number, which is above the last.
fn is_above(last: u64, number: Option<u64>) -> bool
    ensures { result ≡ is_above last number }
{
    match number {
        Some(number) => last < number,
        None => false,
    }
}

/// Whether each event has one UID, and the numbers at the ends of these rise.
pub fn uid_numbers_rise(events: &[PartedComponent]) -> bool
    ensures { result ≡ rise_from 0 events.now }
{
    let mut last = 0;
    for event in events {
        let number = own_number(&event.uids);
        if !is_above(last, number) {
            return false;
        }
        last = number.unwrap_or(0);
    }
    true
}
