//! How long an event lasts: its end against its start, and its duration (RFC 5545, sections 3.8.2.2 and 3.8.2.5).
ghost use Rattle.std.specs.Prelude.{◌≡◌, IfOk, IfErr, Ok, Some};
ghost use Rattle.ics_components.specs.Faults.{Lasting};
ghost use Rattle.ics_components.specs.Lines.{duration_judged, misread};
ghost use Rattle.ics_components.specs.SecondRound.{ends_in};
ghost use Rattle.ics_components.specs.Values.{is_lasting, lasting_of, is_out, ends_badly};

use crate::deferred_check::{DeferredCheck, Instant};
use crate::fault::FaultKind;
use crate::time::{instant, tzid};
use crate::tzid::Tzid;
use ics_values::{Duration, DurationFault, Stamp, Time, is_zoned, read_duration};
use std::alloc::AllocError;

/// The longest event, in seconds.
const LONGEST: u32 = 36_525 * 86_400;

/// Whether the end is before the start, or more than the longest event, 36,525 days, after it. Both are in seconds from 1970-01-01T00:00:00.
pub fn is_out(start: i64, end: i64) -> bool
    ensures { result ≡ is_out start end }
{
    end < start || start.saturating_add(i64::from(LONGEST)) < end
}

/// Whether the first round refuses the end: it is of another kind than its start, or out of its reach where they are dates,
/// floating, or of one zone.
pub fn ends_badly(start: &Time<Tzid>, end: &Option<Time<Tzid>>) -> bool
    ensures { result ≡ ends_badly (Some start.now) end.now }
{
    let Some(end) = end else {
        return false;
    };
    match (start.stamp, end.stamp) {
        (Stamp::Date(a), Stamp::Date(b)) => is_out(i64::from(a) * 86_400, i64::from(b) * 86_400),
        (Stamp::Floating(a), Stamp::Floating(b)) => is_out(a.seconds(), b.seconds()),
        (Stamp::Zoned(a), Stamp::Zoned(b)) => {
            tzid(start) == tzid(end) && is_out(a.seconds(), b.seconds())
        }
        (Stamp::Zoned(_) | Stamp::Utc(_), Stamp::Zoned(_) | Stamp::Utc(_)) => false,
        _ => true,
    }
}

/// The check that the second round makes on the END of an event of that calendar.
pub fn ends_in(
    calendar: u64,
    start: &Time<Tzid>,
    end: &Option<Time<Tzid>>,
) -> Result<Option<DeferredCheck>, AllocError>
    ensures { IfOk result (λ check. check ≡ ends_in calendar (Some start.now) end.now) }
{
    let Some(end) = end else {
        return Ok(None);
    };
    // two stamps of one zone compare as locals
    if is_zoned(start.stamp) && is_zoned(end.stamp) && tzid(start) == tzid(end) {
        return Ok(None);
    }
    Ok(match (instant(start, calendar)?, instant(end, calendar)?) {
        (Some(Instant::Utc(a)), Some(Instant::Utc(b))) if is_out(a.seconds(), b.seconds()) => {
            Some(DeferredCheck::End)
        }
        (Some(Instant::Utc(_)), Some(Instant::Utc(_))) => None,
        (Some(start), Some(end)) => Some(DeferredCheck::Ends(start, end)),
        _ => None,
    })
}

/// Whether it is no negative duration, and no longer than an event may be.
fn is_lasting(duration: Duration) -> bool
    ensures { result ≡ is_lasting duration }
{
    let days = duration.days.saturating_mul(86_400);
    let seconds = days.saturating_add(duration.seconds);
    (!duration.negative || seconds == 0) && seconds <= u64::from(LONGEST)
}

/// The duration of an event: not negative, but for zero, and no longer than an event may be.
pub fn lasting(text: &[u8]) -> Result<Duration, FaultKind>
    ensures judged { result ≡ duration_judged (lasting_of text.now) }
    ensures said { IfOk result (λ duration. lasting_of text.now ≡ Ok duration) }
    ensures fault { IfErr result (λ kind. misread (Lasting (lasting_of text.now)) ≡ Some kind) }
{
    match read_duration(text) {
        Ok(duration) if is_lasting(duration) => Ok(duration),
        Err(DurationFault::NumberTooLarge) if text.first() != Some(&b'-') => {
            Err(FaultKind::NumberTooLarge)
        }
        _ => Err(FaultKind::BadDuration),
    }
}
