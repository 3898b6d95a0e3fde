//! Two digits, and hours and minutes, as they are written.
ghost use Rattle.std.specs.Prelude.{◌≡◌, ◌<◌, ◌≤◌, IfSome};
ghost use Rattle.ics_fields.specs.Clocks.{second_said, two_digits};

/// The number that two digits write, from 0 to 99. None if one of them is no digit.
pub fn two_digits(tens: u8, ones: u8) -> Option<u8>
    ensures value { result ≡ two_digits tens ones }
    ensures bound { IfSome result (λ number. number < 100) }
{
    if tens.is_ascii_digit() && ones.is_ascii_digit() {
        Some((tens - b'0') * 10 + (ones - b'0'))
    } else {
        None
    }
}

/// The second of the day that `HH:MM` says, with hours to 23 and minutes to 59. None if the text is no such one.
pub fn second_of_clock(text: &[u8]) -> Option<u32>
    ensures value { result ≡ second_said text.now }
    ensures bound { IfSome result (λ second. second ≤ 86_340) }
{
    let [a, b, b':', c, d] = text else {
        return None;
    };
    let hours = u32::from(two_digits(*a, *b)?);
    let minutes = u32::from(two_digits(*c, *d)?);
    if hours < 24 && minutes < 60 {
        Some(hours * 3_600 + minutes * 60)
    } else {
        None
    }
}
