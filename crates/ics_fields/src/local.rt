//! A date and a time of day without a zone.
ghost use Rattle.std.specs.Prelude.{◌≡◌, ◌<◌};
ghost use Rattle.jiff_core.specs.Calendar.{IsWithin};
ghost use Rattle.ics_fields.specs.Days.{IsDayNumber};

/// The number of seconds of a day.
const DAY: i64 = 86_400;

/// The number of days from 0000-01-01 to 1970-01-01.
pub const EPOCH_DAY: i32 = 719_528;

/// A date and a time of day without a zone: a day, counted from 1970-01-01, and a second of it, 0 to 86,399.
#[derive(Clone, Copy, PartialEq, Eq, PartialOrd, Ord)]
pub struct Local {
    pub day: i32,
    pub second: u32,
    pub ghost second_in: { second < 86_400 },
}

/// An instant, in seconds since 1970-01-01T00:00:00 UTC.
pub type Moment = i64;

impl Local {
    ghost use Rattle.ics_fields.specs.Locals.{local_at, local_seconds, day_of_local, number, calendar_end};

    /// The local at a second, 0 to 86,399, of a day.
    pub fn at(day: i32, second: u32) -> Self
        requires { second < 86_400 }
        ensures { result ≡ local_at day second }
    {
        Local { day, second }
    }

    /// The seconds from the local 1970-01-01T00:00:00 to this one, each day having 86,400.
    pub fn seconds(self) -> i64
        ensures { result ≡ local_seconds self }
    {
        i64::from(self.day) * DAY + i64::from(self.second)
    }

    /// The local that is that many seconds after 1970-01-01T00:00:00, each day having 86,400. They are at most 10^14 either way.
    pub fn of_seconds(seconds: i64) -> Self
        requires { IsWithin 100_000_000_000_000 seconds }
        ensures value { local_seconds result ≡ seconds }
        ensures day { result.day ≡ day_of_local seconds }
    {
        Local {
            day: seconds.div_euclid(DAY) as i32,
            second: seconds.rem_euclid(DAY) as u32,
        }
    }

    /// The seconds from 0000-01-01T00:00:00 to this local of the years 0000 to 9999.
    pub fn number(self) -> u64
        requires { IsDayNumber self.day }
        ensures value { result ≡ number self }
        ensures bound { result < calendar_end }
    {
        (self.day + EPOCH_DAY) as u64 * 86_400 + u64::from(self.second)
    }

    /// The local that is that many seconds after 0000-01-01T00:00:00, in the years 0000 to 9999.
    pub fn numbered(n: u64) -> Self
        requires { n < calendar_end }
        ensures value { number result ≡ n }
        ensures day { IsDayNumber result.day }
    {
        Local {
            day: (n / 86_400) as i32 - EPOCH_DAY,
            second: (n % 86_400) as u32,
        }
    }
}
