//! Locals as numbers, and the instants at which a clock shows them.
ghost use Rattle.std.specs.Prelude.{◌≡◌, true, pos, ◌≤◌, ◌<◌, ◌^◌, ◌+ℤ◌, ◌≤ℤ◌};
ghost use Rattle.jiff_core.specs.Calendar.{IsWithin};
ghost use Rattle.ics_zone.specs.Observances.{epoch, instant_by};
ghost use Rattle.ics_zone.specs.Seconds.{IsMoment};
ghost use Rattle.ics_zone.specs.Inner.OnsetSets.{IsSearched, IsShownBy};

use ics_fields::Moment;

const DAY: i64 = 86_400;

/// The seconds from 0000-01-01 to 1970-01-01.
pub(crate) const EPOCH: i64 = 62_167_219_200;

/// 9801-01-01T00:00:00, the end of the rules.
pub(crate) const RULES_END: i64 = 309_289_708_800;

/// The instants about which spans are held: those of the years 0000 to 9950, with two days more on either side.
pub(crate) const FIRST_HELD: Moment = -EPOCH - 2 * DAY;

pub(crate) const LAST_HELD: Moment = 251_856_172_799;

/// Whether a local, given by its seconds, is one that a zone may be asked for.
pub(crate) fn is_moment(seconds: i64) -> bool
    ensures { result ≡ true → IsMoment seconds }
{
    FIRST_HELD <= seconds && seconds <= LAST_HELD
}

/// The instant at which a clock with this offset shows the local with number n.
pub(crate) fn instant(offset: i32, n: u64) -> Moment
    requires { n < 2 ^ 48 }
    ensures { result ≡ instant_by offset n }
{
    n as i64 - EPOCH - i64::from(offset)
}

/// The number of the local that a clock with this offset shows at an instant.
pub(crate) fn shown_at(offset: i32, moment: Moment) -> u64
    requires offset { IsWithin 86_399 offset }
    requires near { IsSearched moment }
    requires low { pos 0 ≤ℤ (moment +ℤ offset +ℤ pos epoch) }
    ensures { moment ≡ instant_by offset result }
{
    (moment + i64::from(offset) + EPOCH) as u64
}

/// How many locals before the end of the rules a clock with this offset shows up to an instant.
pub(crate) fn shown_by(offset: i32, moment: Moment) -> u64
    requires { IsWithin 86_399 offset }
    ensures { IsShownBy offset moment result }
{
    let moment = moment.clamp(-100_000_000_000, 400_000_000_000);
    let shown = moment + i64::from(offset) + EPOCH + 1;
    shown.clamp(0, RULES_END) as u64
}
