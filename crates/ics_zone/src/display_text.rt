//! Offsets as `--zone` takes them: a sign with hours and minutes.
ghost use Rattle.std.specs.Prelude.{◌≡◌, ◌<◌, IfSome};
ghost use Rattle.jiff_core.specs.Calendar.{IsWithin};
ghost use Rattle.jiff_core.specs.Sign.{signed};
ghost use Rattle.ics_zone.specs.DisplayTexts.{offset_said};

use ics_fields::second_of_clock;

/// The seconds that a sign with `HH:MM` says, with hours to 23 and minutes to 59.
pub(crate) fn read_offset(text: &[u8]) -> Option<i32>
    ensures value { result ≡ offset_said text.now }
    ensures bound { IfSome result (IsWithin 86_340) }
{
    let (sign, clock) = text.split_first()?;
    if *sign != b'+' && *sign != b'-' {
        return None;
    }
    let seconds = second_of_clock(clock)?;
    Some(with_sign(*sign == b'-', seconds))
}

/// The seconds, negated if `negative`.
fn with_sign(negative: bool, seconds: u32) -> i32
    requires { seconds < 86_400 }
    ensures { result ≡ signed negative seconds }
{
    let seconds = seconds as i32;
    if negative { -seconds } else { seconds }
}
